//! The blocks of the requests of a trace with commits.

ghost use Rattle.tl_beat.specs.statement.Width.{IsWidth};

use std::alloc::{AllocError, Global};
use std::collections::BTreeMap;
use tl_beat::beat::{Beat, Link};
use tl_events::commit::Event;
use tl_events::event::read_event;
use tl_params::width::Width;
use tl_rules::key::block_at;

/// The block of the last request with each source on each link.
#[derive(Drop)]
pub struct AskedBlocks {
    blocks: BTreeMap<u32, u32>,
}

/// The key of the requests with a source on a link.
fn key(link: Link, source: u8) -> u32 {
    256 * u32::from(link.0) + u32::from(source)
}

impl AskedBlocks {
    /// No request has come.
    pub fn new(alloc: Global) -> Self {
        AskedBlocks {
            blocks: BTreeMap::new(alloc),
        }
    }

    /// Takes the line of an event, in a trace of beats of this width.
    fn take_line<const W: usize>(&mut self, line: &[u8]) -> Result<(), AllocError>
        requires { IsWidth W }
    {
        let Ok((link, Event::Beat(Beat::A(x)))) = read_event::<W>(line) else {
            return Ok(());
        };
        match self.blocks.insert(key(link, x.source), block_at(x.address)) {
            Ok(_) => Ok(()),
            Err(_) => Err(AllocError),
        }
    }

    /// Takes a line, after the header in a trace of beats of this width.
    pub fn take(&mut self, width: Option<Width>, line: &[u8]) -> Result<(), AllocError> {
        match (width, line) {
            (Some(Width::Four), [_, _, _, b'A', ..]) => self.take_line::<4>(line),
            (Some(Width::Eight), [_, _, _, b'A', ..]) => self.take_line::<8>(line),
            (Some(Width::Sixteen), [_, _, _, b'A', ..]) => self.take_line::<16>(line),
            _ => Ok(()),
        }
    }

    /// The block of the request that the event of a line answers, if it answers one.
    fn answered_in<const W: usize>(&self, line: &[u8]) -> Option<u32>
        requires { IsWidth W }
    {
        match read_event::<W>(line) {
            Ok((link, Event::Beat(Beat::D(x)))) => self.blocks.get(&key(link, x.source)).copied(),
            _ => None,
        }
    }

    /// The same in a trace of beats of this width.
    pub fn answered(&self, width: Option<Width>, line: &[u8]) -> Option<u32> {
        match width {
            None => None,
            Some(Width::Four) => self.answered_in::<4>(line),
            Some(Width::Eight) => self.answered_in::<8>(line),
            Some(Width::Sixteen) => self.answered_in::<16>(line),
        }
    }
}
