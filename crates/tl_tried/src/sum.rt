//! Adds up the counts of each situation over several traces.

ghost use Rattle.std.specs.Prelude.{◌≡◌, ◌+◌, OnOk, IfOk};
ghost use Rattle.tl_tried.specs.statement.Sums;

use crate::tried::Tried;
use std::alloc::{AllocError, Global};
use tl_cover::row::Row;
use tl_cover::situation::Situation;
use tl_tables::sum::cell_sum;

/// A line of one of several traces, which are numbered from 0.
#[derive(Clone, Copy, Debug, PartialEq, Eq)]
pub struct Place {
    pub trace: usize,
    pub line: u64,
}

/// The count of a situation over several traces, and its first place, if it came.
#[derive(Clone, Copy, Debug, PartialEq, Eq)]
pub struct Sum {
    pub situation: Situation,
    pub count: u64,
    pub first: Option<Place>,
}

/// The first place of a situation in the trace with this number, if it came.
fn place_of(trace: usize, row: &Row) -> Option<Place>
    ensures { result ≡ Sums.place_of trace row.now }
{
    Some(Place {
        trace,
        line: row.first?,
    })
}

impl Sum {
    /// The sum of a situation after its first trace, which has this number.
    fn of(trace: usize, row: &Row) -> Sum
        ensures { result ≡ Sums.sum_of trace row.now }
    {
        Sum {
            situation: row.situation,
            count: row.count,
            first: place_of(trace, row),
        }
    }

    /// Adds the count in a later trace, which has this number. A sum above 2^64 - 1 is an error.
    fn add(&mut self, trace: usize, row: &Row) -> Result<(), AllocError>
        ensures { OnOk result (self.new ≡ Sums.added trace self.old row.now) }
    {
        self.count = self.count.checked_add(row.count).ok_or(AllocError)?;
        self.first = self.first.or(place_of(trace, row));
        Ok(())
    }
}

/// Adds the counts of the trace with this number to those of earlier traces.
fn add_trace(sums: &mut Vec<Sum>, trace: usize, rows: &[Row]) -> Result<(), AllocError>
    ensures { OnOk result (sums.new.items ≡ Sums.with_trace trace sums.old.items rows.now) }
{
    for (i, row) in rows.iter().enumerate() {
        if i < sums.len() {
            sums[i].add(trace, row)?;
        } else {
            sums.push(Sum::of(trace, row))?;
        }
    }
    Ok(())
}

/// Adds the counts of all bins on the links of one more trace.
fn add_cells(sums: &mut Vec<Option<u64>>, cells: &[Option<u64>]) -> Result<(), AllocError>
    ensures { OnOk result (sums.new.items ≡ Sums.with_cells sums.old.items cells.now) }
{
    for (i, cell) in cells.iter().enumerate() {
        if i < sums.len() {
            sums[i] = cell_sum(sums[i], *cell)?;
        } else {
            sums.push(*cell)?;
        }
    }
    Ok(())
}

/// The counts of all bins on the links over all these traces: those of link 0, then those of link 1, and so on.
pub fn cells_of(alloc: Global, all: &[Tried]) -> Result<Vec<Option<u64>>, AllocError>
    ensures { IfOk result (λ cells. cells.items ≡ Sums.cells_of all.now) }
{
    let mut sums = Vec::new(alloc);
    for tried in all {
        add_cells(&mut sums, &tried.cells)?;
    }
    Ok(sums)
}

/// The counts of each situation over all these traces, and its first place.
pub fn sums_of(alloc: Global, all: &[Tried]) -> Result<Vec<Sum>, AllocError>
    ensures { IfOk result (λ sums. sums.items ≡ Sums.sums_of all.now) }
{
    let mut sums = Vec::new(alloc);
    for (trace, tried) in all.iter().enumerate() {
        add_trace(&mut sums, trace, &tried.rows)?;
    }
    Ok(sums)
}
