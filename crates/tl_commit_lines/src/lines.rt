//! Judges a recorded trace with or without commits, each link by itself or all together.

ghost use Rattle.std.specs.Prelude.{◌≡◌, ℕ, Bool, List, [], IfOk, None, is_some, true, ⊤};
ghost use Rattle.tl_lines.specs.code.Judging.{Judges};
ghost use Rattle.tl_wide_lines.specs.code.WideWatching.{waits};
ghost use Rattle.tl_commit_lines.specs.code.EventWatching.{BeginsMarked, KnowsEventLines, WatchesLine};
ghost use Rattle.tl_commit_lines.specs.code.EventWatching.{events_judged_for};
ghost use Rattle.tl_commit_lines.specs.statement.JudgedEvents.{JudgedCommits};

use crate::header::read_marked_for;
use crate::judge::EventJudge;
use std::alloc::{AllocError, Global};
use std::mem;
use tl_beat::fault::LineFault;
use tl_lines::fault::Fault;
use tl_lines::line_handler::LineHandler;
use tl_lines::monitor_lines::append_end;
use tl_params::liberties::Liberties;
use tl_params::width::Width;
use tl_wide_lines::lines::TraceLines;

/// A judge of the links of a trace with commits, by the bytes of a beat.
#[derive(Drop)]
pub enum EventLinks {
    Four(EventJudge<4>),
    Eight(EventJudge<8>),
    Sixteen(EventJudge<16>),
}

/// Judges the lines of a trace: the header, and then the beats of up to 16 links, with the commits of their cores if the
/// header names a link of level C+ or says that memory was zero.
#[derive(Drop)]
pub struct EventLines {
    alloc: Global,
    together: bool,
    /// The liberties of the links beyond those that the header names.
    allow: Liberties,
    /// The judge of a trace without commits. It waits for the header.
    plain: TraceLines,
    /// The judge of a trace with commits, after its header.
    events: Option<EventLinks>,
}

/// A judge of the links that a header of a trace with commits names, with `allow` added to their liberties. None for a
/// line of another form. The error means that there is no memory left.
fn begin(
    alloc: Global,
    together: bool,
    allow: Liberties,
    line: &[u8],
) -> Result<Option<EventLinks>, AllocError>
    ensures { IfOk result (BeginsMarked together allow line.now) }
{
    let Some(header) = read_marked_for(allow, line) else {
        return Ok(None);
    };
    let links = match header.width {
        Width::Four => EventLinks::Four(EventJudge::new(alloc, together, &header)?),
        Width::Eight => EventLinks::Eight(EventJudge::new(alloc, together, &header)?),
        Width::Sixteen => EventLinks::Sixteen(EventJudge::new(alloc, together, &header)?),
    };
    Ok(Some(links))
}

impl EventLinks {
    /// Judges the line of the next event.
    fn judge_line(&mut self, line: &[u8]) -> Result<Option<Fault>, AllocError>
        ensures { IfOk result (λ fault. (together : Bool) → WatchesLine together self.old self.new line.now fault) }
    {
        match self {
            EventLinks::Four(judge) => judge.judge_line(line),
            EventLinks::Eight(judge) => judge.judge_line(line),
            EventLinks::Sixteen(judge) => judge.judge_line(line),
        }
    }
}

impl EventLines {
    /// No line has been read. `allow` is added to the liberties that the header names.
    pub fn new(alloc: Global, together: bool, allow: Liberties) -> EventLines
        ensures knows { KnowsEventLines result [] [] }
        ensures purpose { events_judged_for result ≡ (together, allow) }
    {
        EventLines {
            alloc,
            together,
            allow,
            plain: TraceLines::new(alloc, together, allow),
            events: None,
        }
    }

    /// Whether no header of a trace without commits has been read.
    #[inline(always)]
    pub fn waits(&self) -> bool
        ensures { result ≡ waits self.now.plain }
    {
        self.plain.waits()
    }

    /// Whether the header of a trace with commits has been read.
    pub fn has_commits(&self) -> bool
        ensures { result ≡ is_some self.now.events }
    {
        self.events.is_some()
    }

    /// Judges the first line.
    #[cold]
    #[inline(never)]
    fn start(&mut self, line: &[u8], out: &mut Vec<u8>) -> Result<Option<Fault>, AllocError>
        requires none { self.old.events ≡ None }
        requires first { waits self.old.plain ≡ true }
        ensures judges { IfOk result (Judges KnowsEventLines (JudgedCommits self.old.together self.old.allow) self.old
            self.new line.now out.old.items out.new.items) }
        ensures purpose { IfOk result (λ _. events_judged_for self.new ≡ events_judged_for self.old) }
    {
        match begin(self.alloc, self.together, self.allow, line)? {
            None => self.plain.handle_line(line, out),
            Some(links) => {
                drop(mem::replace(&mut self.events, Some(links)));
                Ok(None)
            }
        }
    }

    /// Judges the next line, if no header of a trace without commits has been read.
    #[inline(never)]
    fn judge_event(&mut self, line: &[u8], out: &mut Vec<u8>) -> Result<Option<Fault>, AllocError>
        requires { waits self.old.plain ≡ true }
        ensures judges { IfOk result (Judges KnowsEventLines (JudgedCommits self.old.together self.old.allow) self.old
            self.new line.now out.old.items out.new.items) }
        ensures purpose { IfOk result (λ _. events_judged_for self.new ≡ events_judged_for self.old) }
    {
        match &mut self.events {
            Some(links) => links.judge_line(line),
            None => self.start(line, out),
        }
    }
}

impl LineHandler for EventLines {
    ghost use Rattle.std.specs.Prelude.{Bool};
    ghost use Rattle.tl_params.specs.declared.liberties.Liberties.{Liberties};

    ghost knows = { KnowsEventLines };

    ghost Purpose = { Bool × Liberties };

    ghost purpose = { events_judged_for };

    ghost tells = { λ p. JudgedCommits p.0 p.1 };

    ghost ends = { λ _ _. ⊤ };

    #[inline(always)]
    fn handle_line(&mut self, line: &[u8], out: &mut Vec<u8>) -> Result<Option<Fault>, AllocError> {
        if self.waits() {
            return self.judge_event(line, out);
        }
        self.plain.handle_line(line, out)
    }

    fn open_fault(&self) -> Fault {
        match &self.events {
            Some(_) => Fault::Line(LineFault::F1),
            None => self.plain.open_fault(),
        }
    }

    fn finish(&self, count: u64, out: &mut Vec<u8>) -> Result<Option<Fault>, AllocError> {
        match &self.events {
            Some(_) => {
                append_end(self.together, count.saturating_sub(1), out)?;
                Ok(None)
            }
            None => self.plain.finish(count, out),
        }
    }
}
