//! The findings in a trace.

ghost use Rattle.std.specs.Prelude.{◌≡◌, ◌<◌, ◌∷◌, [], ℕ, List, IfOk, OnOk, OnErr};
ghost use Rattle.tl_report.specs.statement.Taken.{AreCounted, most_cells};

use crate::taken::CELLS;
use std::alloc::{AllocError, Global};
use tl_lines::fault::Fault;

/// A line at fault.
#[derive(Clone, Copy, Debug, PartialEq, Eq)]
pub struct Finding {
    /// Its number, counted from 1.
    pub line: u64,
    /// Its fault.
    pub fault: Fault,
}

/// The findings in a trace.
#[derive(Drop)]
pub struct Findings {
    /// The lines at fault, in their order.
    pub faults: Vec<Finding>,
    /// The number of beats and commits that were taken.
    pub beats: u64,
    /// The number of these in each cell, by link and message.
    pub cells: Vec<u64>,
}

impl Findings {
    /// No line at fault, and no beat.
    pub fn new(alloc: Global) -> Result<Findings, AllocError>
        ensures { IfOk result (λ f. (f.faults.items ≡ []) × AreCounted f.beats f.cells.items []) }
    {
        let mut cells = Vec::new(alloc);
        cells.resize(CELLS, 0)?;
        Ok(Findings {
            faults: Vec::new(alloc),
            beats: 0,
            cells,
        })
    }

    /// Counts a beat or a commit of this cell. The error comes after beat 2^64 - 1, and changes nothing.
    pub fn count(&mut self, cell: usize) -> Result<(), AllocError>
        requires { cell < most_cells }
        ensures same { self.new.faults.items ≡ self.old.faults.items }
        ensures counts { OnOk result ((taken : List ℕ) → AreCounted self.old.beats self.old.cells.items taken →
            AreCounted self.new.beats self.new.cells.items (cell ∷ taken)) }
        ensures left { OnErr result (self.new ≡ self.old) }
    {
        if cell >= self.cells.len() {
            return Err(AllocError);
        }
        let beats = self.beats.checked_add(1).ok_or(AllocError)?;
        let number = self.cells[cell].checked_add(1).ok_or(AllocError)?;
        self.beats = beats;
        self.cells[cell] = number;
        Ok(())
    }
}
