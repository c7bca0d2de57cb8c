//! The liberties that would allow a wide beat.

ghost use Rattle.tl_beat.specs.statement.Width.{IsWidth};

use std::alloc::{AllocError, Global};
use tl_allowed::text::append_allowance;
use tl_beat::beat::{Beat, Link};
use tl_lines::links_header::LinksHeader;
use tl_monitor::fault::MonitorFault;
use tl_monitor::monitor::Monitor;
use tl_params::liberties::Liberty;

/// A monitor of links that have one liberty more than those of a trace.
#[derive(Drop)]
struct Wider<const P: usize> {
    liberty: Liberty,
    monitor: Monitor<P>,
    /// It has refused no beat.
    allows: bool,
}

/// Monitors of the links of a trace, each with one more liberty, in the order in which a header names them.
#[derive(Drop)]
pub struct AllowedBeats<const P: usize> {
    wider: Vec<Wider<P>>,
}

impl<const P: usize> Wider<P> {
    /// Takes a beat, if it has refused none.
    fn take(&mut self, link: Link, part: &Beat<P>) -> Result<(), AllocError>
        requires { IsWidth P }
    {
        if !self.allows {
            return Ok(());
        }
        match self.monitor.try_push(link, part) {
            Ok(()) => Ok(()),
            Err(MonitorFault::Broken(_)) => {
                self.allows = false;
                Ok(())
            }
            Err(_) => Err(AllocError),
        }
    }
}

impl<const P: usize> AllowedBeats<P> {
    /// No beat of the links that a header names has come.
    pub fn new(alloc: Global, links: &LinksHeader) -> Result<Self, AllocError>
        requires { IsWidth P }
    {
        let levels = links.levels.as_slice();
        let mut wider = Vec::new(alloc);
        for liberty in Liberty::ALL {
            if !links.may.allows(liberty) {
                let Ok(monitor) = Monitor::with_liberties(alloc, levels, links.may.with(liberty))
                else {
                    return Err(AllocError);
                };
                wider.push(Wider {
                    liberty,
                    monitor,
                    allows: true,
                })?;
            }
        }
        Ok(AllowedBeats { wider })
    }

    /// Takes a part of a wide beat.
    pub fn take(&mut self, link: Link, part: &Beat<P>) -> Result<(), AllocError>
        requires { IsWidth P }
    {
        for n in 0..self.wider.len() {
            let wider = &mut self.wider[n];
            wider.take(link, part)?;
        }
        Ok(())
    }

    /// Appends the line that names the liberties of which each alone would allow every beat that was taken; nothing if
    /// there are none.
    pub fn tell(&self, alloc: Global, out: &mut Vec<u8>) -> Result<(), AllocError> {
        let mut allowing = Vec::new(alloc);
        for wider in &self.wider {
            if wider.allows {
                allowing.push(wider.liberty)?;
            }
        }
        if allowing.is_empty() {
            return Ok(());
        }
        out.push(b' ')?;
        append_allowance(&allowing, out)?;
        out.push(b'\n')?;
        Ok(())
    }
}
