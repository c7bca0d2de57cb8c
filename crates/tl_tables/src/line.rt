//! Appends a row of a table.

ghost use Rattle.std.specs.Prelude.{◌≡◌, ◌++◌, OnOk};
ghost use Rattle.tl_tables.specs.statement.Tables;

use crate::text::{append_cells, append_left};
use std::alloc::AllocError;

/// Whether there is a count among these.
fn has_count(cells: &[Option<u64>]) -> bool
    ensures { result ≡ Tables.has_count cells.now }
{
    for cell in cells {
        if cell.is_some() {
            return true;
        }
    }
    false
}

#[tactic(auto, unfolding(crate::specs::statement::Tables::row_text))]
/// Appends a row: its head and its counts. A row without counts is left out.
pub fn append_line(
    width: usize,
    head: &[u8],
    cells: &[Option<u64>],
    out: &mut Vec<u8>,
) -> Result<(), AllocError>
    ensures { OnOk result (out.new.items ≡ out.old.items ++ Tables.row_text width head.now cells.now) }
{
    if !has_count(cells) {
        return Ok(());
    }
    append_left(head, out)?;
    append_cells(width, cells, out)?;
    out.push(b'\n')?;
    Ok(())
}
