//! Judges the lines of a trace whose header may be of any version, and counts the situations in which its messages
//! begin.

ghost use Rattle.std.specs.Prelude.{◌≡◌, [], false, IfOk, None, Ok, Some};
ghost use Rattle.tl_lines.specs.code.Judging.{Ends, Judges};
ghost use Rattle.tl_lines.specs.declared.fault.Fault.{Fault};
ghost use Rattle.tl_tried.specs.code.WideFollowing.{BeginsHere, BeginsWide, EndsTrace, KnowsCover, TakesLine};
ghost use Rattle.tl_tried.specs.code.WideFollowing.{found_of_trace, waiting_in, wide_found_by};
ghost use Rattle.tl_wide_lines.specs.statement.JudgedTrace.{JudgedTrace};

use crate::cover_lines::{CoverLines, Following};
use crate::wide_covering::WideCovering;
use std::alloc::{AllocError, Global};
use std::mem;
use tl_beat::fault::LineFault;
use tl_cover::row::Row;
use tl_lines::fault::Fault;
use tl_lines::line_handler::LineHandler;
use tl_lines::monitor_lines::append_end;
use tl_params::liberties::Liberties;
use tl_wide::width::WideWidth;
use tl_wide_lines::header::read_wide_for;

/// The covering of the links of a wide trace, by the width of a beat.
#[derive(Drop)]
pub enum WideFollowing {
    Four(WideCovering<4>),
    Eight(WideCovering<8>),
    Sixteen(WideCovering<16>),
    ThirtyTwo(WideCovering<16>),
    SixtyFour(WideCovering<16>),
}

/// Judges the lines of a trace of any version up to its first fault, and counts its situations.
#[derive(Drop)]
pub struct CoverTrace {
    /// The handler of a trace with another header than the fifth. It waits for the header.
    pub narrow: CoverLines,
    /// The covering of wide beats, after their header.
    wide: Option<WideFollowing>,
}

/// Follows the links that a header of wide beats names; these liberties are allowed too. None for a line of another
/// form. The error means that there is no memory left.
fn begin(alloc: Global, allow: Liberties, line: &[u8]) -> Result<Option<WideFollowing>, AllocError>
    ensures { IfOk result (BeginsWide allow line.now) }
{
    let Some(header) = read_wide_for(allow, line) else {
        return Ok(None);
    };
    let links = &header.links;
    let following = match header.width {
        WideWidth::Four => WideFollowing::Four(WideCovering::new(alloc, links)?),
        WideWidth::Eight => WideFollowing::Eight(WideCovering::new(alloc, links)?),
        WideWidth::Sixteen => WideFollowing::Sixteen(WideCovering::new(alloc, links)?),
        WideWidth::ThirtyTwo => WideFollowing::ThirtyTwo(WideCovering::new(alloc, links)?),
        WideWidth::SixtyFour => WideFollowing::SixtyFour(WideCovering::new(alloc, links)?),
    };
    Ok(Some(following))
}

impl WideFollowing {
    /// The situations with their counts.
    fn rows(&self) -> &[Row]
        ensures { result.now ≡ (wide_found_by self.now).0 }
    {
        match self {
            WideFollowing::Four(covering) => covering.rows(),
            WideFollowing::Eight(covering) => covering.rows(),
            WideFollowing::Sixteen(covering) => covering.rows(),
            WideFollowing::ThirtyTwo(covering) => covering.rows(),
            WideFollowing::SixtyFour(covering) => covering.rows(),
        }
    }

    /// The counts of all bins on all links, link after link.
    fn cells(&self, alloc: Global) -> Result<Vec<Option<u64>>, AllocError>
        ensures { IfOk result (λ cells. cells.items ≡ (wide_found_by self.now).1) }
    {
        match self {
            WideFollowing::Four(covering) => covering.cells(alloc),
            WideFollowing::Eight(covering) => covering.cells(alloc),
            WideFollowing::Sixteen(covering) => covering.cells(alloc),
            WideFollowing::ThirtyTwo(covering) => covering.cells(alloc),
            WideFollowing::SixtyFour(covering) => covering.cells(alloc),
        }
    }

    /// Judges the line of the next wide beat.
    fn take_line(&mut self, line: &[u8]) -> Result<Option<Fault>, AllocError>
        ensures { IfOk result (TakesLine self.old self.new line.now) }
    {
        match self {
            WideFollowing::Four(covering) => covering.take_line::<4>(line),
            WideFollowing::Eight(covering) => covering.take_line::<8>(line),
            WideFollowing::Sixteen(covering) => covering.take_line::<16>(line),
            WideFollowing::ThirtyTwo(covering) => covering.take_line::<32>(line),
            WideFollowing::SixtyFour(covering) => covering.take_line::<64>(line),
        }
    }
}

impl CoverTrace {
    /// No line has been read. The links have the liberties that the header names and those that are allowed.
    pub fn new(alloc: Global, allow: Liberties) -> CoverTrace
        ensures knows { KnowsCover result [] [] }
        ensures allowed { result.narrow.allow ≡ allow }
    {
        CoverTrace {
            narrow: CoverLines::new(alloc, allow),
            wide: None,
        }
    }

    /// The allocator, if no line has been read.
    pub fn waiting(&self) -> Option<Global>
        ensures { result ≡ waiting_in self.now }
    {
        match (&self.wide, &self.narrow.following) {
            (None, Following::Waiting(alloc)) => Some(*alloc),
            _ => None,
        }
    }

    /// The situations with their counts; none if no header was read.
    pub fn rows(&self) -> &[Row]
        ensures { result.now ≡ (found_of_trace self.now).0 }
    {
        match &self.wide {
            Some(following) => following.rows(),
            None => self.narrow.rows(),
        }
    }

    /// The counts of all bins on all links, link after link; none if no header was read.
    pub fn cells(&self, alloc: Global) -> Result<Vec<Option<u64>>, AllocError>
        ensures { IfOk result (λ cells. cells.items ≡ (found_of_trace self.now).1) }
    {
        match &self.wide {
            Some(following) => following.cells(alloc),
            None => self.narrow.cells(alloc),
        }
    }

    /// A covering of wide beats, if no line has been read and this one is their header.
    fn begin_wide(&self, line: &[u8]) -> Result<Option<WideFollowing>, AllocError>
        ensures { IfOk result (BeginsHere self.now line.now) }
    {
        match &self.narrow.following {
            Following::Waiting(alloc) => begin(*alloc, self.narrow.allow, line),
            _ => Ok(None),
        }
    }

    /// Judges the next line, if no header of wide beats has been read and this one may be it.
    #[cold]
    #[inline(never)]
    fn start(&mut self, line: &[u8], out: &mut Vec<u8>) -> Result<Option<Fault>, AllocError>
        requires { self.old.wide ≡ None }
        ensures judges { IfOk result (Judges KnowsCover (JudgedTrace false self.old.narrow.allow) self.old self.new
            line.now out.old.items out.new.items) }
        ensures purpose { IfOk result (λ _. self.new.narrow.allow ≡ self.old.narrow.allow) }
        ensures ends { (fault : Fault) → result ≡ Ok (Some fault) →
            Ends KnowsCover EndsTrace self.old self.new line.now }
    {
        match self.begin_wide(line)? {
            None => self.narrow.handle_line(line, out),
            Some(following) => {
                drop(mem::replace(&mut self.wide, Some(following)));
                Ok(None)
            }
        }
    }

    /// Judges the next line, if no header of wide beats has been read.
    fn take_other(&mut self, line: &[u8], out: &mut Vec<u8>) -> Result<Option<Fault>, AllocError>
        requires { self.old.wide ≡ None }
        ensures judges { IfOk result (Judges KnowsCover (JudgedTrace false self.old.narrow.allow) self.old self.new
            line.now out.old.items out.new.items) }
        ensures purpose { IfOk result (λ _. self.new.narrow.allow ≡ self.old.narrow.allow) }
        ensures ends { (fault : Fault) → result ≡ Ok (Some fault) →
            Ends KnowsCover EndsTrace self.old self.new line.now }
    {
        match &self.narrow.following {
            Following::Waiting(_) => self.start(line, out),
            _ => self.narrow.handle_line(line, out),
        }
    }
}

impl LineHandler for CoverTrace {
    ghost use Rattle.tl_params.specs.declared.liberties.Liberties.{Liberties};

    ghost knows = { KnowsCover };

    ghost Purpose = { Liberties };

    ghost purpose = { λ h. h.narrow.allow };

    ghost tells = { JudgedTrace false };

    ghost ends = { EndsTrace };

    fn handle_line(&mut self, line: &[u8], out: &mut Vec<u8>) -> Result<Option<Fault>, AllocError> {
        match &mut self.wide {
            Some(following) => following.take_line(line),
            None => self.take_other(line, out),
        }
    }

    fn open_fault(&self) -> Fault {
        match &self.wide {
            Some(_) => Fault::Line(LineFault::F1),
            None => self.narrow.open_fault(),
        }
    }

    fn finish(&self, count: u64, out: &mut Vec<u8>) -> Result<Option<Fault>, AllocError> {
        match &self.wide {
            Some(_) => {
                append_end(false, count.saturating_sub(1), out)?;
                Ok(None)
            }
            None => self.narrow.finish(count, out),
        }
    }
}
