//! The numbers of the names of a wide trace, and the names of an event at fault.

ghost use Rattle.std.specs.Prelude.{◌≡◌};
ghost use Rattle.tl_wide.specs.statement.Width.{IsWideWidth, part_width};

use std::alloc::{AllocError, Global};
use std::collections::BTreeMap;
use tl_beat::beat::{Beat, Link};
use tl_events::commit::Commit;
use tl_explain::turns::Subject;
use tl_lines::subject::subject_of;
use tl_params::key::block_at;
use tl_wide::beat::WideBeat;
use tl_wide::narrow::Narrower;
use tl_wide::width::WideWidth;
use tl_wide_events::commit::{WideCommit, WideEvent};
use tl_wide_events::event::read_wide_event;
use tl_wide_events::narrow::narrow_commit;
use tl_wide_lines::judge::Clue;

/// The numbers of the names of a wide trace, and the block of the last request with each source on each link.
#[derive(Drop)]
pub struct TraceNames {
    narrower: Narrower,
    asked: BTreeMap<u32, u32>,
}

/// The key of the requests with a source on a link.
fn key(link: Link, source: u8) -> u32 {
    256 * u32::from(link.0) + u32::from(source)
}

/// The first byte that a commit reaches.
pub fn first_byte(commit: Commit) -> u32 {
    match commit {
        Commit::Store { piece, .. } => piece.address,
        Commit::Load { piece, .. } => piece.address,
        Commit::Begin { piece } => piece.address,
    }
}

/// The source and the sink of a wide beat.
fn ids_of<const W: usize>(beat: &WideBeat<W>) -> (u16, u16) {
    match beat {
        WideBeat::A(x) => (x.source, 0),
        WideBeat::B(x) => (x.source, 0),
        WideBeat::C(x) => (x.source, 0),
        WideBeat::D(x) => (x.source, x.sink),
        WideBeat::E(x) => (0, x.sink),
    }
}

impl TraceNames {
    /// No event has come.
    pub fn new(alloc: Global) -> Self {
        TraceNames {
            narrower: Narrower::new(alloc),
            asked: BTreeMap::new(alloc),
        }
    }

    /// Keeps the block of a request. Returns that of the request that a response answers.
    fn ask<const P: usize>(
        &mut self,
        link: Link,
        part: &Beat<P>,
    ) -> Result<Option<u32>, AllocError> {
        match part {
            Beat::A(x) => match self.asked.insert(key(link, x.source), block_at(x.address)) {
                Ok(_) => Ok(None),
                Err(_) => Err(AllocError),
            },
            Beat::D(x) => Ok(self.asked.get(&key(link, x.source)).copied()),
            _ => Ok(None),
        }
    }

    /// Takes a wide beat. Returns its names, if it has numbers for them.
    fn take_beat<const W: usize, const P: usize>(
        &mut self,
        link: Link,
        beat: &WideBeat<W>,
    ) -> Result<Option<Clue>, AllocError>
        requires width { IsWideWidth W }
        requires part { P ≡ part_width W }
    {
        let Some(parts) = self.narrower.narrow::<W, P>(link, beat)? else {
            return Ok(None);
        };
        let mut left = parts;
        let Some(part) = left.next::<W, P>(beat) else {
            return Ok(None);
        };
        let block = self.ask(link, &part)?;
        let (source, sink) = ids_of(beat);
        Ok(Some(Clue {
            subject: subject_of(link, &part, block),
            source,
            sink,
        }))
    }

    /// Takes a commit. Returns its names, if it has a number for its block.
    fn take_commit(&mut self, link: Link, commit: WideCommit) -> Result<Option<Clue>, AllocError> {
        let Some(narrow) = narrow_commit(&mut self.narrower, link, commit)? else {
            return Ok(None);
        };
        Ok(Some(Clue {
            subject: Subject {
                link,
                block: block_at(first_byte(narrow)),
                source: 0,
                sink: 0,
            },
            source: 0,
            sink: 0,
        }))
    }

    /// Takes the line of an event. Returns the names of the event, if it has numbers for them.
    fn take_line<const W: usize, const P: usize>(
        &mut self,
        line: &[u8],
    ) -> Result<Option<Clue>, AllocError>
        requires width { IsWideWidth W }
        requires part { P ≡ part_width W }
    {
        match read_wide_event::<W>(line) {
            Err(_) => Ok(None),
            Ok((link, WideEvent::Beat(beat))) => self.take_beat::<W, P>(link, &beat),
            Ok((link, WideEvent::Commit(commit))) => self.take_commit(link, commit),
        }
    }

    /// Takes a line after the header of a trace of this width, if one was read. Returns the names of its event, if it has
    /// numbers for them.
    pub fn take(
        &mut self,
        width: Option<WideWidth>,
        line: &[u8],
    ) -> Result<Option<Clue>, AllocError> {
        match width {
            None => Ok(None),
            Some(WideWidth::Four) => self.take_line::<4, 4>(line),
            Some(WideWidth::Eight) => self.take_line::<8, 8>(line),
            Some(WideWidth::Sixteen) => self.take_line::<16, 16>(line),
            Some(WideWidth::ThirtyTwo) => self.take_line::<32, 16>(line),
            Some(WideWidth::SixtyFour) => self.take_line::<64, 16>(line),
        }
    }
}
