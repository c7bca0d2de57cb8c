//! Looks for the liberties that would allow the first beat at fault of a trace.

ghost use Rattle.std.specs.Prelude.{◌≡◌, [], IfOk, ⊤};
ghost use Rattle.tl_beat.specs.statement.Width.{IsWidth};
ghost use Rattle.tl_links.specs.code.Allowing.{Begins, EndsLines, KnowsBeats, KnowsLines, TakesBeat, Watches, found_in};
ghost use Rattle.tl_links.specs.declared.allow_lines.Watching.{Watching};

use std::alloc::{AllocError, Global};
use tl_allowed::allowances::Allowances;
use tl_beat::beat::{Beat, Link};
use tl_beat::fault::LineFault;
use tl_beat::read::read_line;
use tl_lines::fault::Fault;
use tl_lines::line_handler::LineHandler;
use tl_lines::links_header::LinksHeader;
use tl_lines::trace_judge::read_for;
use tl_monitor::fault::MonitorFault;
use tl_monitor::monitor::Monitor;
use tl_params::liberties::{Liberties, Liberty};
use tl_params::width::Width;

/// A monitor of a trace's links, monitors with one liberty more each, and the liberties that would allow the first beat
/// at fault.
#[derive(Drop)]
pub struct Watch<const W: usize> {
    alloc: Global,
    monitor: Monitor<W>,
    allowances: Allowances<W>,
    allowing: Vec<Liberty>,
}

/// The watch over the links of a trace, by the bytes of a beat.
#[derive(Drop)]
pub enum Watching {
    /// The header hasn't been read.
    Waiting(Global),
    Four(Watch<4>),
    Eight(Watch<8>),
    Sixteen(Watch<16>),
}

/// Judges the lines of a trace up to its first fault.
#[derive(Drop)]
pub struct AllowLines {
    /// The liberties of the links beyond those that the header names.
    pub allow: Liberties,
    pub watching: Watching,
}

impl<const W: usize> Watch<W> {
    /// Watches the links that a header names.
    fn new(alloc: Global, header: &LinksHeader) -> Result<Self, AllocError>
        requires { IsWidth W }
        ensures { IfOk result (λ v. KnowsBeats v header.now.levels.items header.now.may []) }
    {
        let levels = header.levels.as_slice();
        let monitor = Monitor::with_liberties(alloc, levels, header.may).map_err(|_| AllocError)?;
        let allowances = Allowances::new(alloc, levels, header.may).map_err(|_| AllocError)?;
        Ok(Watch {
            alloc,
            monitor,
            allowances,
            allowing: Vec::new(alloc),
        })
    }

    /// Judges a beat, and takes it if it isn't at fault. Otherwise finds the liberties that would allow it.
    fn take(&mut self, link: Link, beat: &Beat<W>) -> Result<Option<Fault>, AllocError>
        requires { IsWidth W }
        ensures { IfOk result (TakesBeat self.old self.new link beat.now) }
    {
        match self.monitor.try_push(link, beat) {
            Ok(()) => match self.allowances.take(link, beat) {
                Ok(()) => Ok(None),
                Err(_) => Err(AllocError),
            },
            Err(MonitorFault::Broken(rule)) => {
                self.allowing = self.allowances.allowing(self.alloc, link, beat)?;
                Ok(Some(Fault::Rule(rule)))
            }
            Err(_) => Err(AllocError),
        }
    }

    /// Judges the line of the next beat.
    fn read(&mut self, line: &[u8]) -> Result<Option<Fault>, AllocError>
        requires { IsWidth W }
        ensures { IfOk result (Watches self.old self.new line.now) }
    {
        match read_line(line) {
            Ok((link, beat)) => self.take(link, &beat),
            Err(fault) => Ok(Some(Fault::Line(fault))),
        }
    }
}

/// Watches the links that a header names; these liberties are allowed too. None if the line is no header.
fn begin(alloc: Global, allow: Liberties, line: &[u8]) -> Result<Option<Watching>, AllocError>
    ensures { IfOk result (Begins allow line.now) }
{
    let Some(header) = read_for(allow, line) else {
        return Ok(None);
    };
    let watching = match header.width {
        Width::Four => Watching::Four(Watch::new(alloc, &header)?),
        Width::Eight => Watching::Eight(Watch::new(alloc, &header)?),
        Width::Sixteen => Watching::Sixteen(Watch::new(alloc, &header)?),
    };
    Ok(Some(watching))
}

impl AllowLines {
    /// No line has been read. The links have the liberties that the header names and those that are allowed.
    pub fn new(alloc: Global, allow: Liberties) -> AllowLines
        ensures knows { KnowsLines result [] [] }
        ensures allowed { result.allow ≡ allow }
    {
        AllowLines {
            allow,
            watching: Watching::Waiting(alloc),
        }
    }

    /// The liberties that were found.
    pub fn allowing(&self) -> &[Liberty]
        ensures { result.now ≡ found_in self.now }
    {
        match &self.watching {
            Watching::Waiting(_) => &[],
            Watching::Four(watch) => watch.allowing.as_slice(),
            Watching::Eight(watch) => watch.allowing.as_slice(),
            Watching::Sixteen(watch) => watch.allowing.as_slice(),
        }
    }
}

impl LineHandler for AllowLines {
    ghost use Rattle.tl_params.specs.declared.liberties.Liberties.{Liberties};

    ghost knows = { KnowsLines };

    ghost Purpose = { Liberties };

    ghost purpose = { λ h. h.allow };

    ghost tells = { λ _ _ _ _. ⊤ };

    ghost ends = { EndsLines };

    fn handle_line(
        &mut self,
        line: &[u8],
        _out: &mut Vec<u8>,
    ) -> Result<Option<Fault>, AllocError> {
        match &mut self.watching {
            Watching::Waiting(alloc) => match begin(*alloc, self.allow, line)? {
                None => Ok(Some(Fault::Header)),
                Some(watching) => {
                    self.watching = watching;
                    Ok(None)
                }
            },
            Watching::Four(watch) => watch.read(line),
            Watching::Eight(watch) => watch.read(line),
            Watching::Sixteen(watch) => watch.read(line),
        }
    }

    fn open_fault(&self) -> Fault {
        match self.watching {
            Watching::Waiting(_) => Fault::Header,
            _ => Fault::Line(LineFault::F1),
        }
    }

    fn finish(&self, _count: u64, _out: &mut Vec<u8>) -> Result<Option<Fault>, AllocError> {
        match self.watching {
            Watching::Waiting(_) => Ok(Some(Fault::Header)),
            _ => Ok(None),
        }
    }
}
