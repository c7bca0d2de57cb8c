//! Judges lines of narrow beats.

ghost use Rattle.std.specs.Prelude.{[], IfOk};
ghost use Rattle.tl_beat.specs.statement.Width.{IsWidth, IsWidth-prop};

use crate::line_judge::{Judged, LineJudge};
use crate::taken::cell_of;
use std::alloc::{AllocError, Global};
use tl_beat::read::read_line;
use tl_lines::fault::Fault;
use tl_lines::links_header::LinksHeader;
use tl_lines::trace_judge::TraceJudge;

/// A judge of lines of beats of `W` bytes: 4, 8 or 16.
#[derive(Drop)]
pub struct NarrowLineJudge<const W: usize> {
    judge: TraceJudge<W>,
    ghost width: { IsWidth W } by { IsWidth-prop W },
}

impl<const W: usize> NarrowLineJudge<W> {
    ghost use Rattle.tl_report.specs.code.NarrowJudging.{KnowsNarrow};
    ghost use Rattle.tl_report.specs.statement.Found.{terms_of};

    /// A judge of the links that a header names, which has taken no beat.
    pub fn new(alloc: Global, together: bool, header: &LinksHeader) -> Result<Self, AllocError>
        requires { IsWidth W }
        ensures { IfOk result (λ judge. KnowsNarrow W judge
            (terms_of together header.now.may header.now.levels.items) []) }
    {
        Ok(NarrowLineJudge {
            judge: TraceJudge::new(alloc, together, header)?,
        })
    }
}

impl<const W: usize> LineJudge for NarrowLineJudge<W> {
    ghost use Rattle.tl_beat.specs.declared.beat.Beat.{Beat};
    ghost use Rattle.tl_beat.specs.declared.beat.Link.{Link};
    ghost use Rattle.tl_report.specs.code.NarrowJudging.{narrow_ways};
    ghost use Rattle.tl_report.specs.statement.Form.{Terms};

    ghost Kind = { Link × Beat W };

    ghost Given = { Terms };

    ghost ways = { narrow_ways W };

    fn judge_line(&mut self, line: &[u8]) -> Result<Judged, AllocError> {
        match read_line(line) {
            Ok((link, beat)) => match self.judge.push(link, &beat)? {
                None => Ok(Judged::Taken(cell_of(link, &beat))),
                Some(fault) => Ok(Judged::AtFault(fault)),
            },
            Err(fault) => Ok(Judged::AtFault(Fault::Line(fault))),
        }
    }
}
