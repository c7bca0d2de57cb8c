//! Judges the events of a wide trace in turn, by the events that they become.

ghost use Rattle.std.specs.Prelude.{◌≡◌, IfOk};
ghost use Rattle.tl_beat.specs.statement.Width.{IsWidth};
ghost use Rattle.tl_commit_lines.specs.statement.MarkedHeader.{links_in};
ghost use Rattle.tl_wide.specs.statement.Pieces.{left_of};
ghost use Rattle.tl_wide.specs.statement.Width.{IsWideWidth, part_width};
ghost use Rattle.tl_wide_events.specs.declared.commit.WideEvent.TheVariants as wide;
ghost use Rattle.tl_wide_events.specs.statement.Narrowed.{as_events};
ghost use Rattle.tl_wide_events.specs.statement.WideCommitLine.{IsWideCommit};
ghost use Rattle.tl_wide_event_lines.specs.code.EventJudging.{IsValid, JudgesEvents, JudgesLineOf, JudgesWideEvent, KnowsNone};

use std::alloc::{AllocError, Global};
use tl_beat::beat::Link;
use tl_commit_lines::header::CommitHeader;
use tl_commit_lines::judge::EventJudge;
use tl_events::commit::Event;
use tl_lines::fault::Fault;
use tl_wide::beat::WideBeat;
use tl_wide::narrow::Narrower;
use tl_wide::parts::Parts;
use tl_wide_events::commit::{WideCommit, WideEvent};
use tl_wide_events::event::read_wide_event;
use tl_wide_events::narrow::narrow_commit;

/// A judge of the events of a wide trace: the numbers of their names, and a judge of the events that they become, whose
/// beats have `P` bytes.
#[derive(Drop)]
pub struct WideEventJudge<const P: usize> {
    narrower: Narrower,
    judge: EventJudge<P>,
}

/// Judges the parts of a wide beat in turn, up to the first that is at fault. The error means that there is no memory
/// left.
fn push_parts<const W: usize, const P: usize>(
    judge: &mut EventJudge<P>,
    link: Link,
    beat: &WideBeat<W>,
    parts: Parts,
) -> Result<Option<Fault>, AllocError>
    requires width { IsWideWidth W }
    requires part { P ≡ part_width W }
    ensures { IfOk result (JudgesEvents judge.old judge.new link (as_events (left_of beat.now parts))) }
{
    let mut left = parts;
    while let Some(part) = left.next::<W, P>(beat) {
        if let Some(fault) = judge.push(link, &Event::Beat(part))? {
            return Ok(Some(fault));
        }
    }
    Ok(None)
}

impl<const P: usize> WideEventJudge<P> {
    /// A judge of the links that a header names, which has seen no event. The error means that there is no memory left.
    pub fn new(alloc: Global, together: bool, header: &CommitHeader) -> Result<Self, AllocError>
        requires { IsWidth P }
        ensures { IfOk result (KnowsNone together (links_in header.now) header.now.may) }
    {
        let judge = EventJudge::new(alloc, together, header)?;
        Ok(WideEventJudge {
            narrower: Narrower::new(alloc),
            judge,
        })
    }

    /// Judges the next event, a wide beat.
    fn push_beat<const W: usize>(
        &mut self,
        link: Link,
        beat: &WideBeat<W>,
    ) -> Result<Option<Fault>, AllocError>
        requires width { IsWideWidth W }
        requires part { P ≡ part_width W }
        ensures { IfOk result (JudgesWideEvent self.old self.new link (wide.Beat beat.now)) }
    {
        let Some(parts) = self.narrower.narrow::<W, P>(link, beat)? else {
            return Ok(Some(Fault::Beyond));
        };
        push_parts(&mut self.judge, link, beat, parts)
    }

    /// Judges the next event, a commit.
    fn push_commit<const W: usize>(
        &mut self,
        link: Link,
        commit: WideCommit,
    ) -> Result<Option<Fault>, AllocError>
        requires width { IsWideWidth W }
        requires part { P ≡ part_width W }
        requires commit { IsWideCommit commit }
        ensures { IfOk result (JudgesWideEvent {w = W} self.old self.new link (wide.Commit commit)) }
    {
        let Some(commit) = narrow_commit(&mut self.narrower, link, commit)? else {
            return Ok(Some(Fault::Beyond));
        };
        self.judge.push(link, &Event::Commit(commit))
    }

    /// Judges the next event, and takes it if none of the events that it becomes is at fault. The first event beyond a
    /// limit of names is at fault by itself. `P` is the smaller of 16 and `W`. The error means that there is no memory left;
    /// then some of the events that it becomes may have been taken.
    pub fn push<const W: usize>(
        &mut self,
        link: Link,
        event: &WideEvent<W>,
    ) -> Result<Option<Fault>, AllocError>
        requires width { IsWideWidth W }
        requires part { P ≡ part_width W }
        requires event { IsValid event.now }
        ensures { IfOk result (JudgesWideEvent self.old self.new link event.now) }
    {
        match event {
            WideEvent::Beat(beat) => self.push_beat(link, beat),
            WideEvent::Commit(commit) => self.push_commit::<W>(link, *commit),
        }
    }

    /// Judges the line of the next event, as `push` judges the event. A line that spells none is at fault.
    pub fn judge_line<const W: usize>(&mut self, line: &[u8]) -> Result<Option<Fault>, AllocError>
        requires width { IsWideWidth W }
        requires part { P ≡ part_width W }
        ensures { IfOk result (JudgesLineOf W self.old self.new line.now) }
    {
        match read_wide_event::<W>(line) {
            Ok((link, event)) => self.push(link, &event),
            Err(fault) => Ok(Some(Fault::Line(fault))),
        }
    }
}
