//! Judges wide beats, and stores and loads of cores between them.

ghost use Rattle.std.specs.Prelude.{◌≡◌, IfOk};
ghost use Rattle.tl_report.specs.code.ValidEvents.{IsValid-prop};
ghost use Rattle.tl_report.specs.code.WideWidth.{IsWideWidth-prop};
ghost use Rattle.tl_wide.specs.statement.Width.{IsWideWidth, part_width};
ghost use Rattle.tl_wide_event_lines.specs.code.EventJudging.{IsValid};

use crate::kept::KeptLineJudge;
use crate::taken::wide_event_cell_of;
use crate::taker::Taker;
use std::alloc::{AllocError, Global};
use tl_beat::beat::Link;
use tl_beat::fault::LineFault;
use tl_commit_lines::header::CommitHeader;
use tl_lines::fault::Fault;
use tl_wide_event_lines::judge::WideEventJudge;
use tl_wide_events::commit::WideEvent;
use tl_wide_events::event::read_wide_event;

/// An event that a line can spell, with its link.
#[derive(Clone, Copy)]
pub struct SpelledEvent<const W: usize> {
    link: Link,
    event: WideEvent<W>,
    ghost valid: { IsValid event } by { IsValid-prop event },
}

/// A judge of wide beats of `W` bytes, which are 4, 8, 16, 32 or 64, and of commits. `P` is the smaller of 16 and `W`.
#[derive(Drop)]
pub struct WideEventTaker<const W: usize, const P: usize> {
    judge: WideEventJudge<P>,
    ghost width: { IsWideWidth W } by { IsWideWidth-prop W },
    ghost part: { P ≡ part_width W },
}

/// A judge of lines of wide beats and commits.
pub type WideEventLineJudge<const W: usize, const P: usize> = KeptLineJudge<
    WideEventTaker<W, P>,
    CommitHeader,
    SpelledEvent<W>,
>;

impl<const W: usize, const P: usize> WideEventTaker<W, P> {
    ghost use Rattle.tl_report.specs.code.Taking.{StartsTaking};
    ghost use Rattle.tl_report.specs.code.WideEventJudging.{wide_event_takings};

    /// A judge of the links that a header names, which has taken no event.
    pub fn new(alloc: Global, together: bool, links: &CommitHeader) -> Result<Self, AllocError>
        requires width { IsWideWidth W }
        requires part { P ≡ part_width W }
        ensures { IfOk result (StartsTaking (wide_event_takings W P) together links.now) }
    {
        let judge = WideEventJudge::new(alloc, together, links)?;
        Ok(WideEventTaker { judge })
    }
}

impl<const W: usize, const P: usize> Taker<CommitHeader, SpelledEvent<W>> for WideEventTaker<W, P> {
    ghost use Rattle.tl_beat.specs.declared.beat.Link.{Link};
    ghost use Rattle.tl_report.specs.code.WideEventJudging.{wide_event_takings};
    ghost use Rattle.tl_report.specs.statement.Form.{EventTerms};
    ghost use Rattle.tl_wide_events.specs.declared.commit.WideEvent.{WideEvent};

    ghost Kind = { Link × WideEvent W };

    ghost Given = { EventTerms };

    ghost takings = { wide_event_takings W P };

    fn anew(
        &self,
        alloc: Global,
        together: bool,
        links: &CommitHeader,
    ) -> Result<Self, AllocError> {
        WideEventTaker::new(alloc, together, links)
    }

    fn read(&self, line: &[u8]) -> Result<SpelledEvent<W>, LineFault> {
        let (link, event) = read_wide_event(line)?;
        Ok(SpelledEvent { link, event })
    }

    fn take(&mut self, item: SpelledEvent<W>) -> Result<Option<Fault>, AllocError> {
        self.judge.push(item.link, &item.event)
    }

    fn cell(&self, item: SpelledEvent<W>) -> usize {
        wide_event_cell_of(item.link, &item.event)
    }
}
