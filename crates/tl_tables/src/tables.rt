//! Writes the tables of links.

ghost use Rattle.std.specs.Prelude.{◌≡◌, ◌<◌, ◌++◌, ◌/◌, IfOk, OnOk, length, map};
ghost use Rattle.std.specs.List.{flat_map};
ghost use Rattle.tl_tables.specs.code.Walk;
ghost use Rattle.tl_tables.specs.statement.Counts.{bin_count};
ghost use Rattle.tl_tables.specs.statement.Tables;

use crate::rows::append_rows;
use crate::table::Table;
use crate::text::{append_left, append_right, append_with, width_of};
use std::alloc::{AllocError, Global};
use tl_cover::bins::BINS;

/// Appends the heads of columns.
fn append_columns(width: usize, columns: &[&str], out: &mut Vec<u8>) -> Result<(), AllocError>
    ensures { OnOk result (out.new.items
        ≡ out.old.items ++ flat_map (Tables.right width) (map (λ s. s.now) columns.now)) }
{
    for column in columns {
        append_right(width, column.as_bytes(), out)?;
    }
    Ok(())
}

/// The front of a table's first line: its title and its link.
fn front_of(alloc: Global, table: Table, link: u64) -> Result<Vec<u8>, AllocError>
    ensures { IfOk result (λ front. front.items ≡ Tables.front (Walk.table_of table) link) }
{
    let mut front = Vec::from_slice(alloc, table.title().as_bytes())?;
    append_with(" on link ", link, &mut front)?;
    Ok(front)
}

/// Appends an empty line, and the first line of a table: its title, its link, and the heads of its columns.
fn append_heading(
    alloc: Global,
    table: Table,
    width: usize,
    link: u64,
    out: &mut Vec<u8>,
) -> Result<(), AllocError>
    ensures { OnOk result (out.new.items ≡ out.old.items ++ Tables.heading width link (Walk.table_of table)) }
{
    let front = front_of(alloc, table, link)?;
    out.push(b'\n')?;
    append_left(&front, out)?;
    append_columns(width, table.columns(), out)?;
    out.push(b'\n')?;
    Ok(())
}

/// Appends a table of a link with these counts. A table without rows is left out.
fn append_table(
    alloc: Global,
    table: Table,
    width: usize,
    link: u64,
    counts: &[Option<u64>],
    out: &mut Vec<u8>,
) -> Result<(), AllocError>
    ensures { OnOk result (out.new.items
        ≡ out.old.items ++ Tables.table_text width link counts.now (Walk.table_of table)) }
{
    let mut rows = Vec::new(alloc);
    append_rows(alloc, table, width, counts, &mut rows)?;
    if rows.is_empty() {
        return Ok(());
    }
    append_heading(alloc, table, width, link, out)?;
    out.extend_from_slice(&rows)
}

/// Appends the tables of a link with these counts.
fn append_link(
    alloc: Global,
    width: usize,
    link: u64,
    counts: &[Option<u64>],
    out: &mut Vec<u8>,
) -> Result<(), AllocError>
    ensures { OnOk result (out.new.items ≡ out.old.items ++ Tables.link_text width link counts.now) }
{
    append_table(alloc, Table::Messages, width, link, counts, out)?;
    append_table(alloc, Table::Permissions, width, link, counts, out)?;
    append_table(alloc, Table::Waits, width, link, counts, out)?;
    append_table(alloc, Table::Alignments, width, link, counts, out)?;
    append_table(alloc, Table::Depths, width, link, counts, out)
}

/// The counts of all bins on a link, by those on all links.
#[tactic(auto, unfolding(crate::specs::statement::Counts::bin_count))]
fn counts_on(cells: &[Option<u64>], link: usize) -> &[Option<u64>]
    requires { link < length cells.now / bin_count }
    ensures { result.now ≡ Tables.counts_on cells.now link }
{
    let from = link * BINS.len();
    &cells[from..from + BINS.len()]
}

/// Appends the tables of each link. `cells` has the counts of all bins (`BINS`) on link 0, then those on link 1, and so
/// on; None for a bin that a link can't have, and that didn't come.
#[tactic(auto, unfolding(crate::specs::statement::Counts::bin_count))]
pub fn append_tables(
    alloc: Global,
    cells: &[Option<u64>],
    out: &mut Vec<u8>,
) -> Result<(), AllocError>
    ensures { OnOk result (out.new.items ≡ out.old.items ++ Tables.tables_text cells.now) }
{
    let width = width_of(cells);
    for link in 0..cells.len() / BINS.len() {
        append_link(alloc, width, link as u64, counts_on(cells, link), out)?;
    }
    Ok(())
}
