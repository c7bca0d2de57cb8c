//! Judges the events of a trace with commits, and counts the situations in which the messages of its beats begin.

ghost use Rattle.std.specs.Prelude.{◌≡◌, [], false, IfOk};
ghost use Rattle.tl_beat.specs.statement.Width.{IsWidth};
ghost use Rattle.tl_commit_lines.specs.statement.MarkedHeader.{levels_of, links_in};
ghost use Rattle.tl_cover.specs.statement.Covers.{Covers};
ghost use Rattle.tl_tried.specs.code.EventCover.{CoversEvents, ReadsEvent, TakesBeatOf, TakesEvent, events_found_in};

use crate::cover_lines::take;
use crate::wide_rows::follow_rows;
use std::alloc::{AllocError, Global};
use tl_beat::beat::Link;
use tl_commit_lines::header::CommitHeader;
use tl_commit_lines::judge::levels_of;
use tl_cover::covering::Covering;
use tl_cover::row::{Row, one_more};
use tl_events::commit::Event;
use tl_events::event::read_event;
use tl_lines::fault::Fault;

/// The covering of the beats of `W` bytes of a trace with commits.
#[derive(Drop)]
pub struct EventCovering<const W: usize> {
    covering: Covering<W>,
    /// The situations with their counts; the first line of each is that of the trace.
    rows: Vec<Row>,
    /// The line of the newest event; 1 if there is none.
    line: u64,
}

/// Follows the links that a header of a trace with commits names.
pub fn follow_events<const W: usize>(
    alloc: Global,
    header: &CommitHeader,
) -> Result<Covering<W>, AllocError>
    requires { IsWidth W }
    ensures { IfOk result (λ c. Covers c (levels_of (links_in header.now)) header.now.may [] false) }
{
    let levels = levels_of(alloc, header.links.as_slice())?;
    match Covering::new(alloc, levels.as_slice(), header.may) {
        Ok(covering) => Ok(covering),
        Err(_) => Err(AllocError),
    }
}

/// Judges an event, and takes it if it is a beat that isn't at fault. A commit is never at fault.
fn take_beat_of<const W: usize>(
    covering: &mut Covering<W>,
    link: Link,
    event: &Event<W>,
) -> Result<Option<Fault>, AllocError>
    requires { IsWidth W }
    ensures { IfOk result (TakesBeatOf covering.old covering.new link event.now) }
{
    match event {
        Event::Beat(beat) => take(covering, link, beat),
        Event::Commit(_) => Ok(None),
    }
}

impl<const W: usize> EventCovering<W> {
    /// A covering of the links that a header names, which has judged no event. The error means that there is no memory
    /// left.
    pub fn new(alloc: Global, header: &CommitHeader) -> Result<Self, AllocError>
        requires { IsWidth W }
        ensures { IfOk result (λ c. CoversEvents c (links_in header.now) header.now.may []) }
    {
        let covering = follow_events(alloc, header)?;
        let mut rows = Vec::new(alloc);
        follow_rows(&mut rows, 1, covering.rows())?;
        Ok(EventCovering {
            covering,
            rows,
            line: 1,
        })
    }

    /// The situations with their counts. The first line of each is that of the beat that began the message.
    pub fn rows(&self) -> &[Row]
        ensures { result.now ≡ (events_found_in self.now).0 }
    {
        &self.rows
    }

    /// The counts of all bins on all links, link after link.
    pub fn cells(&self, alloc: Global) -> Result<Vec<Option<u64>>, AllocError>
        requires { IsWidth W }
        ensures { IfOk result (λ cells. cells.items ≡ (events_found_in self.now).1) }
    {
        self.covering.cells(alloc)
    }

    /// Judges the next event, and takes it if it isn't at fault. The error means that there is no memory left.
    fn push(&mut self, link: Link, event: &Event<W>) -> Result<Option<Fault>, AllocError>
        requires { IsWidth W }
        ensures { IfOk result (TakesEvent self.old self.new link event.now) }
    {
        if let Some(fault) = take_beat_of(&mut self.covering, link, event)? {
            return Ok(Some(fault));
        }
        self.line = one_more(self.line)?;
        follow_rows(&mut self.rows, self.line, self.covering.rows())?;
        Ok(None)
    }

    /// Judges the line of the next event, as `push` judges the event. A line that spells none is at fault.
    pub fn take_line(&mut self, line: &[u8]) -> Result<Option<Fault>, AllocError>
        requires { IsWidth W }
        ensures { IfOk result (ReadsEvent self.old self.new line.now) }
    {
        match read_event(line) {
            Ok((link, event)) => self.push(link, &event),
            Err(fault) => Ok(Some(Fault::Line(fault))),
        }
    }
}
