//! Judges the lines of a trace, and counts the situations in which its messages begin.

ghost use Rattle.std.specs.Prelude.{◌≡◌, [], false, IfOk};
ghost use Rattle.tl_beat.specs.statement.Width.{IsWidth};
ghost use Rattle.tl_cover.specs.statement.Covers.{Covers};
ghost use Rattle.tl_tried.specs.code.Following.{Begins, EndsLines, KnowsLines, TakesBeat, ReadsLine, found_of_lines};

use std::alloc::{AllocError, Global};
use tl_beat::beat::{Beat, Link};
use tl_beat::fault::LineFault;
use tl_beat::read::read_line;
use tl_cover::covering::Covering;
use tl_cover::row::Row;
use tl_lines::fault::Fault;
use tl_lines::line_handler::LineHandler;
use tl_lines::links_header::LinksHeader;
use tl_lines::monitor_lines::append_end;
use tl_lines::trace_judge::read_for;
use tl_monitor::fault::MonitorFault;
use tl_params::liberties::Liberties;
use tl_params::width::Width;

/// The covering of a trace's links, by the bytes of a beat.
#[derive(Drop)]
pub enum Following {
    /// The header hasn't been read.
    Waiting(Global),
    Four(Covering<4>),
    Eight(Covering<8>),
    Sixteen(Covering<16>),
}

/// Judges the lines of a trace up to its first fault.
#[derive(Drop)]
pub struct CoverLines {
    /// The liberties of the links beyond those that the header names.
    pub allow: Liberties,
    pub following: Following,
}

/// Follows the links that a header names.
pub fn follow<const W: usize>(
    alloc: Global,
    header: &LinksHeader,
) -> Result<Covering<W>, AllocError>
    requires { IsWidth W }
    ensures { IfOk result (λ c. Covers c header.now.levels.items header.now.may [] false) }
{
    match Covering::new(alloc, header.levels.as_slice(), header.may) {
        Ok(covering) => Ok(covering),
        Err(_) => Err(AllocError),
    }
}

/// Judges a beat, and takes it if it isn't at fault.
pub fn take<const W: usize>(
    covering: &mut Covering<W>,
    link: Link,
    beat: &Beat<W>,
) -> Result<Option<Fault>, AllocError>
    requires { IsWidth W }
    ensures { IfOk result (TakesBeat covering.old covering.new link beat.now) }
{
    match covering.push(link, beat) {
        Ok(()) => Ok(None),
        Err(MonitorFault::Broken(rule)) => Ok(Some(Fault::Rule(rule))),
        Err(_) => Err(AllocError),
    }
}

/// Judges the line of the next beat.
fn read<const W: usize>(
    covering: &mut Covering<W>,
    line: &[u8],
) -> Result<Option<Fault>, AllocError>
    requires { IsWidth W }
    ensures { IfOk result (ReadsLine covering.old covering.new line.now) }
{
    match read_line(line) {
        Ok((link, beat)) => take(covering, link, &beat),
        Err(fault) => Ok(Some(Fault::Line(fault))),
    }
}

/// Follows the links that a header names; these liberties are allowed too. None if the line is no header.
fn begin(alloc: Global, allow: Liberties, line: &[u8]) -> Result<Option<Following>, AllocError>
    ensures { IfOk result (Begins allow line.now) }
{
    let Some(header) = read_for(allow, line) else {
        return Ok(None);
    };
    let following = match header.width {
        Width::Four => Following::Four(follow(alloc, &header)?),
        Width::Eight => Following::Eight(follow(alloc, &header)?),
        Width::Sixteen => Following::Sixteen(follow(alloc, &header)?),
    };
    Ok(Some(following))
}

impl CoverLines {
    /// No line has been read. The links have the liberties that the header names and those that are allowed.
    pub fn new(alloc: Global, allow: Liberties) -> CoverLines
        ensures knows { KnowsLines result [] [] }
        ensures allowed { result.allow ≡ allow }
    {
        CoverLines {
            allow,
            following: Following::Waiting(alloc),
        }
    }

    /// The situations with their counts; none if no header was read.
    pub fn rows(&self) -> &[Row]
        ensures { result.now ≡ (found_of_lines self.now).0 }
    {
        match &self.following {
            Following::Waiting(_) => &[],
            Following::Four(covering) => covering.rows(),
            Following::Eight(covering) => covering.rows(),
            Following::Sixteen(covering) => covering.rows(),
        }
    }

    /// The counts of all bins on all links, link after link; none if no header was read.
    pub fn cells(&self, alloc: Global) -> Result<Vec<Option<u64>>, AllocError>
        ensures { IfOk result (λ cells. cells.items ≡ (found_of_lines self.now).1) }
    {
        match &self.following {
            Following::Waiting(_) => Ok(Vec::new(alloc)),
            Following::Four(covering) => covering.cells(alloc),
            Following::Eight(covering) => covering.cells(alloc),
            Following::Sixteen(covering) => covering.cells(alloc),
        }
    }
}

impl LineHandler for CoverLines {
    ghost use Rattle.std.specs.Prelude.{false};
    ghost use Rattle.tl_lines.specs.statement.JudgedLinks.{JudgedLinks};
    ghost use Rattle.tl_params.specs.declared.liberties.Liberties.{Liberties};

    ghost knows = { KnowsLines };

    ghost Purpose = { Liberties };

    ghost purpose = { λ h. h.allow };

    ghost tells = { JudgedLinks false };

    ghost ends = { EndsLines };

    fn handle_line(
        &mut self,
        line: &[u8],
        _out: &mut Vec<u8>,
    ) -> Result<Option<Fault>, AllocError> {
        match &mut self.following {
            Following::Waiting(alloc) => match begin(*alloc, self.allow, line)? {
                None => Ok(Some(Fault::Header)),
                Some(following) => {
                    self.following = following;
                    Ok(None)
                }
            },
            Following::Four(covering) => read(covering, line),
            Following::Eight(covering) => read(covering, line),
            Following::Sixteen(covering) => read(covering, line),
        }
    }

    fn open_fault(&self) -> Fault {
        match self.following {
            Following::Waiting(_) => Fault::Header,
            _ => Fault::Line(LineFault::F1),
        }
    }

    fn finish(&self, count: u64, out: &mut Vec<u8>) -> Result<Option<Fault>, AllocError> {
        match self.following {
            Following::Waiting(_) => Ok(Some(Fault::Header)),
            _ => {
                append_end(false, count.saturating_sub(1), out)?;
                Ok(None)
            }
        }
    }
}
