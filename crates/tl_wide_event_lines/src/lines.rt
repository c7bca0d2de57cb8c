//! Judges a recorded trace whose header may be of any version, with or without commits, each link by itself or all
//! together.

ghost use Rattle.std.specs.Prelude.{◌≡◌, ℕ, Bool, List, [], IfOk, None, true, ⊤};
ghost use Rattle.tl_lines.specs.code.Judging.{Judges};
ghost use Rattle.tl_wide_lines.specs.code.WideWatching.{waits};
ghost use Rattle.tl_wide_event_lines.specs.code.EventWatching.{BeginsWideMarked, JudgesLine, KnowsAnyLines};
ghost use Rattle.tl_wide_event_lines.specs.code.EventWatching.{any_judged_for};
ghost use Rattle.tl_wide_event_lines.specs.statement.JudgedWideEvents.{JudgedAny};

use crate::header::read_wide_marked_for;
use crate::judge::WideEventJudge;
use std::alloc::{AllocError, Global};
use std::mem;
use tl_beat::fault::LineFault;
use tl_commit_lines::lines::EventLines;
use tl_lines::fault::Fault;
use tl_lines::line_handler::LineHandler;
use tl_lines::monitor_lines::append_end;
use tl_params::liberties::Liberties;
use tl_wide::width::WideWidth;

/// A judge of the links of a wide trace with commits, by the width of a beat.
#[derive(Drop)]
pub enum WideEventLinks {
    Four(WideEventJudge<4>),
    Eight(WideEventJudge<8>),
    Sixteen(WideEventJudge<16>),
    ThirtyTwo(WideEventJudge<16>),
    SixtyFour(WideEventJudge<16>),
}

/// Judges the lines of a trace of any version: the header, and then the beats of up to 16 links, with the commits of their
/// cores if the header names a link of level C+ or says that memory was zero.
#[derive(Drop)]
pub struct WideEventLines {
    alloc: Global,
    together: bool,
    /// The liberties of the links beyond those that the header names.
    allow: Liberties,
    /// The judge of a trace with another header. It waits for the header.
    narrow: EventLines,
    /// The judge of a wide trace with commits, after its header.
    wide: Option<WideEventLinks>,
}

/// A judge of the links that a header of a wide trace with commits names, with `allow` added to their liberties. None for
/// a line of another form. The error means that there is no memory left.
fn begin(
    alloc: Global,
    together: bool,
    allow: Liberties,
    line: &[u8],
) -> Result<Option<WideEventLinks>, AllocError>
    ensures { IfOk result (BeginsWideMarked together allow line.now) }
{
    let Some(header) = read_wide_marked_for(allow, line) else {
        return Ok(None);
    };
    let narrow = &header.narrow;
    let links = match header.width {
        WideWidth::Four => WideEventLinks::Four(WideEventJudge::new(alloc, together, narrow)?),
        WideWidth::Eight => WideEventLinks::Eight(WideEventJudge::new(alloc, together, narrow)?),
        WideWidth::Sixteen => {
            WideEventLinks::Sixteen(WideEventJudge::new(alloc, together, narrow)?)
        }
        WideWidth::ThirtyTwo => {
            WideEventLinks::ThirtyTwo(WideEventJudge::new(alloc, together, narrow)?)
        }
        WideWidth::SixtyFour => {
            WideEventLinks::SixtyFour(WideEventJudge::new(alloc, together, narrow)?)
        }
    };
    Ok(Some(links))
}

impl WideEventLinks {
    /// Judges the line of the next event.
    fn judge_line(&mut self, line: &[u8]) -> Result<Option<Fault>, AllocError>
        ensures { IfOk result (JudgesLine self.old self.new line.now) }
    {
        match self {
            WideEventLinks::Four(judge) => judge.judge_line::<4>(line),
            WideEventLinks::Eight(judge) => judge.judge_line::<8>(line),
            WideEventLinks::Sixteen(judge) => judge.judge_line::<16>(line),
            WideEventLinks::ThirtyTwo(judge) => judge.judge_line::<32>(line),
            WideEventLinks::SixtyFour(judge) => judge.judge_line::<64>(line),
        }
    }
}

impl WideEventLines {
    /// No line has been read. `allow` is added to the liberties that the header names.
    pub fn new(alloc: Global, together: bool, allow: Liberties) -> WideEventLines
        ensures knows { KnowsAnyLines result [] [] }
        ensures purpose { any_judged_for result ≡ (together, allow) }
    {
        WideEventLines {
            alloc,
            together,
            allow,
            narrow: EventLines::new(alloc, together, allow),
            wide: None,
        }
    }

    /// Judges the first line.
    #[cold]
    #[inline(never)]
    fn start(&mut self, line: &[u8], out: &mut Vec<u8>) -> Result<Option<Fault>, AllocError>
        requires none { self.old.wide ≡ None }
        requires new { self.old.narrow.events ≡ None }
        requires first { waits self.old.narrow.plain ≡ true }
        ensures judges { IfOk result (Judges KnowsAnyLines (JudgedAny self.old.together self.old.allow) self.old
            self.new line.now out.old.items out.new.items) }
        ensures purpose { IfOk result (λ _. any_judged_for self.new ≡ any_judged_for self.old) }
    {
        match begin(self.alloc, self.together, self.allow, line)? {
            None => self.narrow.handle_line(line, out),
            Some(links) => {
                drop(mem::replace(&mut self.wide, Some(links)));
                Ok(None)
            }
        }
    }

    /// Judges the next line, if no header of a trace without commits has been read, and none of a wide trace.
    fn judge_narrow(&mut self, line: &[u8], out: &mut Vec<u8>) -> Result<Option<Fault>, AllocError>
        requires none { self.old.wide ≡ None }
        requires first { waits self.old.narrow.plain ≡ true }
        ensures judges { IfOk result (Judges KnowsAnyLines (JudgedAny self.old.together self.old.allow) self.old
            self.new line.now out.old.items out.new.items) }
        ensures purpose { IfOk result (λ _. any_judged_for self.new ≡ any_judged_for self.old) }
    {
        if self.narrow.has_commits() {
            self.narrow.handle_line(line, out)
        } else {
            self.start(line, out)
        }
    }

    /// Judges the next line, if no header of a trace without commits has been read.
    #[inline(never)]
    fn judge_event(&mut self, line: &[u8], out: &mut Vec<u8>) -> Result<Option<Fault>, AllocError>
        requires { waits self.old.narrow.plain ≡ true }
        ensures judges { IfOk result (Judges KnowsAnyLines (JudgedAny self.old.together self.old.allow) self.old
            self.new line.now out.old.items out.new.items) }
        ensures purpose { IfOk result (λ _. any_judged_for self.new ≡ any_judged_for self.old) }
    {
        match &mut self.wide {
            Some(links) => links.judge_line(line),
            None => self.judge_narrow(line, out),
        }
    }
}

impl LineHandler for WideEventLines {
    ghost use Rattle.std.specs.Prelude.{Bool};
    ghost use Rattle.tl_params.specs.declared.liberties.Liberties.{Liberties};

    ghost knows = { KnowsAnyLines };

    ghost Purpose = { Bool × Liberties };

    ghost purpose = { any_judged_for };

    ghost tells = { λ p. JudgedAny p.0 p.1 };

    ghost ends = { λ _ _. ⊤ };

    #[inline(always)]
    fn handle_line(&mut self, line: &[u8], out: &mut Vec<u8>) -> Result<Option<Fault>, AllocError> {
        if self.narrow.waits() {
            return self.judge_event(line, out);
        }
        self.narrow.handle_line(line, out)
    }

    fn open_fault(&self) -> Fault {
        match &self.wide {
            Some(_) => Fault::Line(LineFault::F1),
            None => self.narrow.open_fault(),
        }
    }

    fn finish(&self, count: u64, out: &mut Vec<u8>) -> Result<Option<Fault>, AllocError> {
        match &self.wide {
            Some(_) => {
                append_end(self.together, count.saturating_sub(1), out)?;
                Ok(None)
            }
            None => self.narrow.finish(count, out),
        }
    }
}
