//! Judges lines of beats, and of stores and loads of cores between them.

ghost use Rattle.std.specs.Prelude.{[], IfOk};
ghost use Rattle.tl_beat.specs.statement.Width.{IsWidth, IsWidth-prop};

use crate::line_judge::{Judged, LineJudge};
use crate::taken::event_cell_of;
use std::alloc::{AllocError, Global};
use tl_commit_lines::header::CommitHeader;
use tl_commit_lines::judge::EventJudge;
use tl_events::event::read_event;
use tl_lines::fault::Fault;

/// A judge of lines of events: beats of `W` bytes, which are 4, 8 or 16, and commits.
#[derive(Drop)]
pub struct EventLineJudge<const W: usize> {
    judge: EventJudge<W>,
    ghost width: { IsWidth W } by { IsWidth-prop W },
}

impl<const W: usize> EventLineJudge<W> {
    ghost use Rattle.tl_report.specs.code.EventJudging.{KnowsTaken};
    ghost use Rattle.tl_commit_lines.specs.statement.MarkedHeader.{links_in};
    ghost use Rattle.tl_report.specs.statement.Found.{event_terms_of};

    /// A judge of the links that a header names, which has taken no event.
    pub fn new(alloc: Global, together: bool, header: &CommitHeader) -> Result<Self, AllocError>
        requires { IsWidth W }
        ensures { IfOk result (λ judge. KnowsTaken W judge
            (event_terms_of together header.now.may (links_in header.now)) []) }
    {
        Ok(EventLineJudge {
            judge: EventJudge::new(alloc, together, header)?,
        })
    }
}

impl<const W: usize> LineJudge for EventLineJudge<W> {
    ghost use Rattle.tl_beat.specs.declared.beat.Link.{Link};
    ghost use Rattle.tl_events.specs.declared.commit.Event.{Event};
    ghost use Rattle.tl_report.specs.code.EventJudging.{event_ways};
    ghost use Rattle.tl_report.specs.statement.Form.{EventTerms};

    ghost Kind = { Link × Event W };

    ghost Given = { EventTerms };

    ghost ways = { event_ways W };

    fn judge_line(&mut self, line: &[u8]) -> Result<Judged, AllocError> {
        match read_event(line) {
            Ok((link, event)) => match self.judge.push(link, &event)? {
                None => Ok(Judged::Taken(event_cell_of(link, &event))),
                Some(fault) => Ok(Judged::AtFault(fault)),
            },
            Err(fault) => Ok(Judged::AtFault(Fault::Line(fault))),
        }
    }
}
