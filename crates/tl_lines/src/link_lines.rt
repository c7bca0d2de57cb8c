//! Judges a recorded trace, each link by itself or all together, under the liberties of its links.

ghost use Rattle.std.specs.Prelude.{◌≡◌, ◌∷◌, ℕ, Bool, List, [], IfOk, IfSome, ⊤};
ghost use Rattle.tl_beat.specs.statement.Width.{IsWidth};
ghost use Rattle.tl_lines.specs.code.Judging.{Judges};
ghost use Rattle.tl_lines.specs.code.LinkWatching.{Begins, KnowsLines, Watches, judged_for};
ghost use Rattle.tl_lines.specs.code.Tracing.{TracedBy, WatchesLine};
ghost use Rattle.tl_lines.specs.declared.link_lines.LinkJudge.{LinkJudge};
ghost use Rattle.tl_lines.specs.statement.JudgedLinks.{JudgedLinks};

use crate::fault::Fault;
use crate::follow::{Alone, Follow};
use crate::line_handler::LineHandler;
use crate::links_header::LinksHeader;
use crate::monitor_lines::append_end;
use crate::trace_judge::{TraceJudge, read_for};
use std::alloc::{AllocError, Global};
use std::mem;
use tl_beat::beat::{Beat, BeatE};
use tl_beat::fault::LineFault;
use tl_beat::read::read_into;
use tl_params::liberties::Liberties;
use tl_params::width::Width;

/// A judge of the links of a trace, by the bytes of a beat.
#[derive(Drop)]
pub enum LinkJudge {
    /// The header hasn't been read.
    Waiting(Global),
    Four(TraceJudge<4>),
    Eight(TraceJudge<8>),
    Sixteen(TraceJudge<16>),
}

/// Judges the lines of a trace: the header, and then the beats of up to 16 links, each link by itself or all together.
#[derive(Drop)]
pub struct LinkLines {
    pub together: bool,
    /// The liberties of the links beyond those that the header names.
    pub allow: Liberties,
    pub judge: LinkJudge,
}

/// Judges the line of the next beat. The follower may note the beat if it isn't at fault.
#[inline(always)]
fn watch<const W: usize, F: Follow<W>>(
    judge: &mut TraceJudge<W>,
    line: &[u8],
    follower: &mut F,
) -> Result<Option<Fault>, AllocError>
    requires { IsWidth W }
    ensures { IfOk result (λ fault. (together : Bool) → Watches together judge.old judge.new line.now fault) }
{
    let mut beat = Beat::E(BeatE { sink: 0 });
    match read_into(line, &mut beat) {
        Ok(link) => follower.push(judge, line, link, &beat),
        Err(fault) => Ok(Some(Fault::Line(fault))),
    }
}

/// Begins to judge the links that a header names; these liberties are allowed too. None if the line is no header.
fn begin(
    alloc: Global,
    together: bool,
    allow: Liberties,
    line: &[u8],
) -> Result<Option<LinkJudge>, AllocError>
    ensures begins { IfOk result (Begins together allow line.now) }
    ensures traced { IfOk result (λ begun. IfSome begun (λ new. TracedBy together allow new (line.now ∷ []))) }
{
    let Some(header) = read_for(allow, line) else {
        return Ok(None);
    };
    let judge = match header.width {
        Width::Four => LinkJudge::Four(TraceJudge::new(alloc, together, &header)?),
        Width::Eight => LinkJudge::Eight(TraceJudge::new(alloc, together, &header)?),
        Width::Sixteen => LinkJudge::Sixteen(TraceJudge::new(alloc, together, &header)?),
    };
    Ok(Some(judge))
}

/// Continues with the judge of the links that the header names. A line that is no header is at fault.
#[cold]
#[inline(never)]
fn start(
    link_lines: &mut LinkLines,
    alloc: Global,
    line: &[u8],
) -> Result<Option<Fault>, AllocError>
    requires { link_lines.old.judge ≡ LinkJudge.Waiting alloc }
    ensures judges { (said : List ℕ) → IfOk result (Judges KnowsLines (JudgedLinks link_lines.old.together
        link_lines.old.allow) link_lines.old link_lines.new line.now said said) }
    ensures purpose { IfOk result (λ _. judged_for link_lines.new ≡ judged_for link_lines.old) }
    ensures watches { IfOk result (WatchesLine link_lines.old link_lines.new line.now) }
{
    match begin(alloc, link_lines.together, link_lines.allow, line)? {
        None => Ok(Some(Fault::Header)),
        Some(judge) => {
            drop(mem::replace(&mut link_lines.judge, judge));
            Ok(None)
        }
    }
}

impl LinkLines {
    /// No line has been read. The links have the liberties that the header names and those that are allowed.
    pub fn new(alloc: Global, together: bool, allow: Liberties) -> LinkLines
        ensures knows { KnowsLines result [] [] }
        ensures purpose { judged_for result ≡ (together, allow) }
    {
        LinkLines {
            together,
            allow,
            judge: LinkJudge::Waiting(alloc),
        }
    }

    /// The header in a first line, if its links can be judged by this judge.
    pub fn header(&self, line: &[u8]) -> Option<LinksHeader> {
        read_for(self.allow, line)
    }

    /// Judges the next line as `handle_line` does, and appends nothing. A fault is one after the trace that the lines
    /// before it spell. The follower may note each beat without a fault.
    #[inline(always)]
    pub fn judge_line<F: Follow<4> + Follow<8> + Follow<16>>(
        &mut self,
        line: &[u8],
        follower: &mut F,
    ) -> Result<Option<Fault>, AllocError>
        ensures judges { (said : List ℕ) → IfOk result (Judges KnowsLines (JudgedLinks self.old.together self.old.allow)
            self.old self.new line.now said said) }
        ensures purpose { IfOk result (λ _. judged_for self.new ≡ judged_for self.old) }
        ensures watches { IfOk result (WatchesLine self.old self.new line.now) }
    {
        match &mut self.judge {
            LinkJudge::Waiting(alloc) => {
                let alloc = *alloc;
                start(self, alloc, line)
            }
            LinkJudge::Four(judge) => watch(judge, line, follower),
            LinkJudge::Eight(judge) => watch(judge, line, follower),
            LinkJudge::Sixteen(judge) => watch(judge, line, follower),
        }
    }
}

impl LineHandler for LinkLines {
    ghost use Rattle.std.specs.Prelude.{Bool};
    ghost use Rattle.tl_params.specs.declared.liberties.Liberties.{Liberties};

    ghost knows = { KnowsLines };

    ghost Purpose = { Bool × Liberties };

    ghost purpose = { judged_for };

    ghost tells = { λ p. JudgedLinks p.0 p.1 };

    ghost ends = { λ _ _. ⊤ };

    #[inline(always)]
    fn handle_line(
        &mut self,
        line: &[u8],
        _out: &mut Vec<u8>,
    ) -> Result<Option<Fault>, AllocError> {
        self.judge_line(line, &mut Alone)
    }

    fn open_fault(&self) -> Fault {
        match self.judge {
            LinkJudge::Waiting(_) => Fault::Header,
            _ => Fault::Line(LineFault::F1),
        }
    }

    fn finish(&self, count: u64, out: &mut Vec<u8>) -> Result<Option<Fault>, AllocError> {
        match self.judge {
            LinkJudge::Waiting(_) => Ok(Some(Fault::Header)),
            _ => {
                append_end(self.together, count.saturating_sub(1), out)?;
                Ok(None)
            }
        }
    }
}
