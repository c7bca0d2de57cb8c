//! Judges a recorded trace whose header may be of any version, each link by itself or all together.

ghost use Rattle.std.specs.Prelude.{◌≡◌, ◌∷◌, List, ℕ, [], IfOk, None, ⊤};
ghost use Rattle.tl_lines.specs.code.Judging.{Judges};
ghost use Rattle.tl_wide_lines.specs.code.WideWatching.{BeginsHere, BeginsWide, JudgesLine, KnowsTraceLines};
ghost use Rattle.tl_wide_lines.specs.code.WideWatching.{trace_judged_for, waits};
ghost use Rattle.tl_wide_lines.specs.statement.JudgedTrace.{JudgedTrace};

use crate::header::read_wide_for;
use crate::judge::{Clue, WideJudge};
use std::alloc::{AllocError, Global};
use std::mem;
use tl_beat::fault::LineFault;
use tl_lines::fault::Fault;
use tl_lines::follow::Alone;
use tl_lines::line_handler::LineHandler;
use tl_lines::link_lines::{LinkJudge, LinkLines};
use tl_lines::monitor_lines::append_end;
use tl_params::liberties::Liberties;
use tl_wide::width::WideWidth;

/// A judge of the links of a wide trace, by the width of a beat.
#[derive(Drop)]
pub enum WideLinks {
    Four(WideJudge<4>),
    Eight(WideJudge<8>),
    Sixteen(WideJudge<16>),
    ThirtyTwo(WideJudge<16>),
    SixtyFour(WideJudge<16>),
}

/// Judges the lines of a trace of any version: the header, and then the beats of up to 16 links.
#[derive(Drop)]
pub struct TraceLines {
    /// The judge of a trace with another header than the fifth. It waits for the header.
    narrow: LinkLines,
    /// The judge of wide beats, after their header.
    wide: Option<WideLinks>,
}

/// A judge of the links that a header of wide beats names, with `allow` added to their liberties. None for a line of
/// another form. The error means that there is no memory left.
pub fn begin(
    alloc: Global,
    together: bool,
    allow: Liberties,
    line: &[u8],
) -> Result<Option<WideLinks>, AllocError>
    ensures { IfOk result (BeginsWide together allow line.now) }
{
    let Some(header) = read_wide_for(allow, line) else {
        return Ok(None);
    };
    let links = &header.links;
    let judge = match header.width {
        WideWidth::Four => WideLinks::Four(WideJudge::new(alloc, together, links)?),
        WideWidth::Eight => WideLinks::Eight(WideJudge::new(alloc, together, links)?),
        WideWidth::Sixteen => WideLinks::Sixteen(WideJudge::new(alloc, together, links)?),
        WideWidth::ThirtyTwo => WideLinks::ThirtyTwo(WideJudge::new(alloc, together, links)?),
        WideWidth::SixtyFour => WideLinks::SixtyFour(WideJudge::new(alloc, together, links)?),
    };
    Ok(Some(judge))
}

impl WideLinks {
    /// Judges the line of the next wide beat.
    fn judge_line(&mut self, line: &[u8]) -> Result<Option<Fault>, AllocError>
        ensures { IfOk result (JudgesLine self.old self.new line.now) }
    {
        match self {
            WideLinks::Four(judge) => judge.judge_line::<4>(line),
            WideLinks::Eight(judge) => judge.judge_line::<8>(line),
            WideLinks::Sixteen(judge) => judge.judge_line::<16>(line),
            WideLinks::ThirtyTwo(judge) => judge.judge_line::<32>(line),
            WideLinks::SixtyFour(judge) => judge.judge_line::<64>(line),
        }
    }

    /// The names of the wide beat in a line that is at fault.
    fn clue(&mut self, line: &[u8]) -> Result<Option<Clue>, AllocError> {
        match self {
            WideLinks::Four(judge) => judge.clue::<4>(line),
            WideLinks::Eight(judge) => judge.clue::<8>(line),
            WideLinks::Sixteen(judge) => judge.clue::<16>(line),
            WideLinks::ThirtyTwo(judge) => judge.clue::<32>(line),
            WideLinks::SixtyFour(judge) => judge.clue::<64>(line),
        }
    }
}

impl TraceLines {
    /// No line has been read. `allow` is added to the liberties that the header names.
    pub fn new(alloc: Global, together: bool, allow: Liberties) -> TraceLines
        ensures knows { KnowsTraceLines result [] [] }
        ensures purpose { trace_judged_for result ≡ (together, allow) }
    {
        TraceLines {
            narrow: LinkLines::new(alloc, together, allow),
            wide: None,
        }
    }

    /// Whether no header has been read.
    #[inline(always)]
    pub fn waits(&self) -> bool
        ensures { result ≡ waits self.now }
    {
        match &self.wide {
            Some(_) => false,
            None => matches!(self.narrow.judge, LinkJudge::Waiting(_)),
        }
    }

    /// The names of the beat in a line that is at fault, if it is a wide one. The error means that there is no memory
    /// left.
    pub fn clue(&mut self, line: &[u8]) -> Result<Option<Clue>, AllocError>
        ensures { trace_judged_for self.new ≡ trace_judged_for self.old }
    {
        match &mut self.wide {
            None => Ok(None),
            Some(links) => links.clue(line),
        }
    }

    /// A judge of wide beats, if no line has been read and this one is their header.
    fn begin_wide(&self, line: &[u8]) -> Result<Option<WideLinks>, AllocError>
        ensures { IfOk result (BeginsHere self.now line.now) }
    {
        match &self.narrow.judge {
            LinkJudge::Waiting(alloc) => {
                begin(*alloc, self.narrow.together, self.narrow.allow, line)
            }
            _ => Ok(None),
        }
    }

    /// Judges the next line, if no header of wide beats has been read and this one may be it.
    #[cold]
    #[inline(never)]
    fn start(&mut self, line: &[u8]) -> Result<Option<Fault>, AllocError>
        requires { self.old.wide ≡ None }
        ensures judges { (said : List ℕ) → IfOk result (Judges KnowsTraceLines (JudgedTrace self.old.narrow.together
            self.old.narrow.allow) self.old self.new line.now said said) }
        ensures purpose { IfOk result (λ _. trace_judged_for self.new ≡ trace_judged_for self.old) }
    {
        match self.begin_wide(line)? {
            None => self.narrow.judge_line(line, &mut Alone),
            Some(links) => {
                drop(mem::replace(&mut self.wide, Some(links)));
                Ok(None)
            }
        }
    }

    /// Judges the next line, if no header of wide beats has been read.
    #[inline(always)]
    fn judge_other(&mut self, line: &[u8]) -> Result<Option<Fault>, AllocError>
        requires { self.old.wide ≡ None }
        ensures judges { (said : List ℕ) → IfOk result (Judges KnowsTraceLines (JudgedTrace self.old.narrow.together
            self.old.narrow.allow) self.old self.new line.now said said) }
        ensures purpose { IfOk result (λ _. trace_judged_for self.new ≡ trace_judged_for self.old) }
    {
        match &self.narrow.judge {
            LinkJudge::Waiting(_) => self.start(line),
            _ => self.narrow.judge_line(line, &mut Alone),
        }
    }
}

impl LineHandler for TraceLines {
    ghost use Rattle.std.specs.Prelude.{Bool};
    ghost use Rattle.tl_params.specs.declared.liberties.Liberties.{Liberties};

    ghost knows = { KnowsTraceLines };

    ghost Purpose = { Bool × Liberties };

    ghost purpose = { trace_judged_for };

    ghost tells = { λ p. JudgedTrace p.0 p.1 };

    ghost ends = { λ _ _. ⊤ };

    #[inline(always)]
    fn handle_line(
        &mut self,
        line: &[u8],
        _out: &mut Vec<u8>,
    ) -> Result<Option<Fault>, AllocError> {
        match &mut self.wide {
            Some(links) => links.judge_line(line),
            None => self.judge_other(line),
        }
    }

    fn open_fault(&self) -> Fault {
        match &self.wide {
            Some(_) => Fault::Line(LineFault::F1),
            None => self.narrow.open_fault(),
        }
    }

    fn finish(&self, count: u64, out: &mut Vec<u8>) -> Result<Option<Fault>, AllocError> {
        match &self.wide {
            Some(_) => {
                append_end(self.narrow.together, count.saturating_sub(1), out)?;
                Ok(None)
            }
            None => self.narrow.finish(count, out),
        }
    }
}
