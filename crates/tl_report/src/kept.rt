//! Judges lines of wide beats, or of wide beats and commits, and goes on after a line at fault.

ghost use Rattle.std.specs.Prelude.{◌≡◌, IfOk, OnOk};
ghost use Rattle.tl_report.specs.code.KeptJudging.{BeginsKept, JudgesAgain, Keeps, Restores, StartsKept, TakesLine};

use crate::line_judge::{Judged, LineJudge};
use crate::taker::Taker;
use std::alloc::{AllocError, Global};
use tl_command::search::Aim;
use tl_lines::fault::Fault;

/// The items that a judge has taken, in their order, and the links that their header names. A second judge that takes
/// them has the same knowledge.
#[derive(Drop)]
pub struct Kept<L, I> {
    alloc: Global,
    together: bool,
    links: L,
    taken: Vec<I>,
}

/// A judge of lines of items: wide beats, or wide beats and commits.
///
/// An item at fault leaves its names in the judge of items, and those of its parts that were taken. So a judge that goes
/// on after it is replaced by one that takes the items before it again.
#[derive(Drop)]
pub struct KeptLineJudge<J, L, I> {
    judge: J,
    /// None if nothing is judged after the first line at fault.
    kept: Option<Kept<L, I>>,
}

impl<L: Drop, I: Copy> Kept<L, I> {
    /// No item, if lines at fault are looked for after the first.
    fn start(alloc: Global, aim: Aim, links: L) -> Option<Kept<L, I>>
        ensures { StartsKept aim links result }
    {
        if aim.behind == 0 {
            return None;
        }
        Some(Kept {
            alloc,
            together: aim.together,
            links,
            taken: Vec::new(alloc),
        })
    }

    /// A judge like this one that has taken the items that were kept, and nothing else.
    fn judge_again<J: Taker<L, I>>(&self, like: &J) -> Result<J, AllocError>
        ensures { IfOk result (JudgesAgain J.takings self.now) }
    {
        let mut judge = like.anew(self.alloc, self.together, &self.links)?;
        for item in &self.taken {
            judge.take(*item)?;
        }
        Ok(judge)
    }
}

impl<L: Drop, I: Copy, J: Taker<L, I>> KeptLineJudge<J, L, I> {
    /// A judge of lines by this judge of items, which has taken none on these links. It goes on after a line at fault if
    /// more are looked for.
    pub fn new(alloc: Global, aim: Aim, judge: J, links: L) -> Self
        ensures { BeginsKept J.takings aim judge links result }
    {
        let kept = Kept::start(alloc, aim, links);
        KeptLineJudge { judge, kept }
    }

    /// Keeps an item that was taken, if the judge goes on after a line at fault.
    fn keep(&mut self, item: I) -> Result<(), AllocError>
        ensures { OnOk result (Keeps J.takings self.old self.new item) }
    {
        match &mut self.kept {
            None => Ok(()),
            Some(kept) => Ok(kept.taken.push(item)?),
        }
    }

    /// Replaces the judge of items by one that takes those that were kept.
    fn restore(&mut self) -> Result<(), AllocError>
        ensures { OnOk result (Restores J.takings self.old self.new) }
    {
        match &self.kept {
            None => Ok(()),
            Some(kept) => {
                self.judge = kept.judge_again(&self.judge)?;
                Ok(())
            }
        }
    }

    /// Judges an item, and takes it if it isn't at fault.
    fn take(&mut self, item: I) -> Result<Judged, AllocError>
        ensures { IfOk result (TakesLine J.takings self.old self.new item) }
    {
        match self.judge.take(item)? {
            None => {
                self.keep(item)?;
                Ok(Judged::Taken(self.judge.cell(item)))
            }
            Some(fault) => {
                self.restore()?;
                Ok(Judged::AtFault(fault))
            }
        }
    }
}

impl<L: Drop, I: Copy, J: Taker<L, I>> LineJudge for KeptLineJudge<J, L, I> {
    ghost use Rattle.tl_report.specs.code.KeptJudging.{kept_ways};

    ghost Kind = { J.Kind };

    ghost Given = { J.Given };

    ghost ways = { kept_ways J.takings };

    fn judge_line(&mut self, line: &[u8]) -> Result<Judged, AllocError> {
        match self.judge.read(line) {
            Ok(item) => self.take(item),
            Err(fault) => Ok(Judged::AtFault(Fault::Line(fault))),
        }
    }
}
