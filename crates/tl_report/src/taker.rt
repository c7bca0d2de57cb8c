//! Judges of wide beats, or of wide beats and commits, of which another can be begun.

ghost use Rattle.std.specs.Prelude.{◌<◌, IfOk};
ghost use Rattle.tl_report.specs.code.Taking.{IsCellOf, ReadsItem, StartsTaking, TakesItem, Takings};
ghost use Rattle.tl_report.specs.statement.Taken.{most_cells};

use std::alloc::{AllocError, Global};
use tl_beat::fault::LineFault;
use tl_lines::fault::Fault;

/// Judges the items of a wide trace in turn: beats, or beats and commits. `L` has the links that a header names. An item at
/// fault leaves its names in the judge, and those of its parts that were taken.
pub trait Taker<L, I>: Drop {
    /// A beat, or a beat or a commit, with its link.
    ghost Kind: { Type 0 };

    /// The terms of the links of a trace.
    ghost Given: { Type 0 };

    /// The items of the judge, and its knowledge of those that it has taken.
    ghost takings: { Takings Self L I Self.Given Self.Kind };

    /// A judge of these links that has taken no item.
    fn anew(&self, alloc: Global, together: bool, links: &L) -> Result<Self, AllocError>
        ensures { IfOk result (StartsTaking takings together links.now) };

    /// Reads the line of an item.
    fn read(&self, line: &[u8]) -> Result<I, LineFault>
        ensures { ReadsItem takings line.now result };

    /// Judges an item, and takes it if it isn't at fault.
    fn take(&mut self, item: I) -> Result<Option<Fault>, AllocError>
        ensures { IfOk result (TakesItem takings self.old self.new item) };

    /// The number of the cell in which an item counts.
    fn cell(&self, item: I) -> usize
        ensures cell { IsCellOf takings item result }
        ensures below { result < most_cells };
}
