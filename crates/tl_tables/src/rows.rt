//! The rows of the tables whose bins are one after another.

ghost use Rattle.std.specs.Prelude.{◌≡◌, ◌<◌, ◌^◌, ◌++◌, IfOk, OnOk};
ghost use Rattle.tl_tables.specs.code.Walk;
ghost use Rattle.tl_tables.specs.statement.Tables.{rows_text};

use crate::grid::append_grid;
use crate::heads::head_of;
use crate::line::append_line;
use crate::sum::cell_at;
use crate::table::{Run, Table};
use std::alloc::{AllocError, Global};
use tl_cover::bins::BINS;
use tl_cover::situation::Situation;

/// The count in a column of a row whose first bin is at this place.
fn cell_in(run: Run, counts: &[Option<u64>], place: usize, column: u8) -> Option<u64>
    requires { place < 2 ^ 16 }
    ensures { result ≡ Walk.cell_in run counts.now place column }
{
    if column < run.before || column - run.before >= run.bins {
        return None;
    }
    cell_at(counts, place + usize::from(column - run.before))
}

/// The counts of a row whose first bin is at this place.
fn cells_of(
    alloc: Global,
    columns: u8,
    run: Run,
    counts: &[Option<u64>],
    place: usize,
) -> Result<Vec<Option<u64>>, AllocError>
    requires { place < 2 ^ 16 }
    ensures { IfOk result (λ cells. cells.items ≡ Walk.cells_from (Walk.cell_in run counts.now place) 0 columns) }
{
    let mut cells = Vec::new(alloc);
    for column in 0..columns {
        cells.push(cell_in(run, counts, place, column))?;
    }
    Ok(cells)
}

/// Appends the row that begins with the bin at this place, if one of the table does.
fn append_row(
    alloc: Global,
    table: Table,
    width: usize,
    counts: &[Option<u64>],
    place: usize,
    bin: Situation,
    out: &mut Vec<u8>,
) -> Result<(), AllocError>
    requires { place < 2 ^ 16 }
    ensures { OnOk result (out.new.items ≡ out.old.items ++ Walk.row_of table width counts.now place bin) }
{
    let Some(run) = table.run_of(bin) else {
        return Ok(());
    };
    let head = head_of(alloc, bin)?;
    let cells = cells_of(alloc, table.width(), run, counts, place)?;
    append_line(width, &head, &cells, out)
}

/// Appends the rows of a table.
fn append_runs(
    alloc: Global,
    table: Table,
    width: usize,
    counts: &[Option<u64>],
    out: &mut Vec<u8>,
) -> Result<(), AllocError>
    ensures { OnOk result (out.new.items ≡ out.old.items ++ Walk.rows_of table width counts.now) }
{
    for (place, bin) in BINS.iter().enumerate() {
        append_row(alloc, table, width, counts, place, *bin, out)?;
    }
    Ok(())
}

/// Appends the rows of a table, whichever it is.
pub fn append_rows(
    alloc: Global,
    table: Table,
    width: usize,
    counts: &[Option<u64>],
    out: &mut Vec<u8>,
) -> Result<(), AllocError>
    ensures { OnOk result (out.new.items ≡ out.old.items ++ rows_text width counts.now (Walk.table_of table)) }
{
    match table {
        Table::Permissions => append_grid(alloc, width, counts, out),
        _ => append_runs(alloc, table, width, counts, out),
    }
}
