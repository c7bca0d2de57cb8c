//! Reports the tables of links as JSON.

ghost use Rattle.std.specs.Prelude.{◌≡◌, ◌++◌, OnOk, ◌%◌, ◌==◌};
ghost use Rattle.tl_tables.specs.statement.Counts.{bin_count};
ghost use Rattle.tl_tables.specs.statement.Numbered.{numbered};
ghost use Rattle.tl_tried.specs.statement.Told;

use std::alloc::AllocError;
use tl_cover::bins::BINS;
use tl_cover::situation::Situation;
use tl_tables::text::append_number;

/// Whether a place among the counts is one of the bin with this number. Each link has as many counts as there are bins.
#[tactic(auto, unfolding(tl_tables::specs::statement::Counts::bin_count))]
fn is_of(bin: usize, place: usize) -> bool
    ensures { result ≡ (place % bin_count == bin) }
{
    place % BINS.len() == bin
}

/// A comma, for the counts of links other than link 0.
#[tactic(auto, unfolding(tl_tables::specs::statement::Counts::bin_count))]
fn comma(place: usize) -> &'static str
    ensures { result.now ≡ Told.comma place }
{
    if place < BINS.len() { "" } else { ", " }
}

/// Appends a count, or null if there is none.
fn append_cell(cell: Option<u64>, out: &mut Vec<u8>) -> Result<(), AllocError>
    ensures { OnOk result (out.new.items ≡ out.old.items ++ Told.cell_json cell) }
{
    match cell {
        None => out.extend_from_slice(b"null"),
        Some(count) => append_number(count, out),
    }
}

/// Appends the count at a place, if it is one of the bin with this number.
fn append_count(
    bin: usize,
    place: usize,
    cell: Option<u64>,
    out: &mut Vec<u8>,
) -> Result<(), AllocError>
    ensures { OnOk result (out.new.items ≡ out.old.items ++ Told.cell_of_json bin place cell) }
{
    if !is_of(bin, place) {
        return Ok(());
    }
    out.extend_from_slice(comma(place).as_bytes())?;
    append_cell(cell, out)
}

/// Appends the counts of the bin with this number on all links.
fn append_counts(bin: usize, cells: &[Option<u64>], out: &mut Vec<u8>) -> Result<(), AllocError>
    ensures { OnOk result (out.new.items ≡ out.old.items ++ numbered (Told.cell_of_json bin) 0 cells.now) }
{
    for (place, cell) in cells.iter().enumerate() {
        append_count(bin, place, *cell, out)?;
    }
    Ok(())
}

/// A comma and a new line, for bins other than the first.
fn line_comma(i: usize) -> &'static str
    ensures { result.now ≡ Told.line_comma i }
{
    if i == 0 { "" } else { ",\n  " }
}

/// Appends the bin with this number: its name, and its counts on link 0, link 1 and so on.
fn append_bin(
    cells: &[Option<u64>],
    i: usize,
    bin: Situation,
    out: &mut Vec<u8>,
) -> Result<(), AllocError>
    ensures { OnOk result (out.new.items ≡ out.old.items ++ Told.bin_json cells.now i bin) }
{
    out.extend_from_slice(line_comma(i).as_bytes())?;
    out.extend_from_slice(b"{\"name\": \"")?;
    bin.append_name(out)?;
    out.extend_from_slice(b"\", \"counts\": [")?;
    append_counts(i, cells, out)?;
    out.extend_from_slice(b"]}")
}

/// Appends these bins.
fn append_all(
    cells: &[Option<u64>],
    bins: &[Situation],
    out: &mut Vec<u8>,
) -> Result<(), AllocError>
    ensures { OnOk result (out.new.items ≡ out.old.items ++ numbered (Told.bin_json cells.now) 0 bins.now) }
{
    for (i, bin) in bins.iter().enumerate() {
        append_bin(cells, i, *bin, out)?;
    }
    Ok(())
}

/// Appends the list of bins, and the end of the object.
pub fn append_bins(cells: &[Option<u64>], out: &mut Vec<u8>) -> Result<(), AllocError>
    ensures { OnOk result (out.new.items ≡ out.old.items ++ Told.bins_json cells.now) }
{
    out.extend_from_slice(b", \"bins\": [")?;
    append_all(cells, &BINS, out)?;
    out.extend_from_slice(b"]}\n")?;
    Ok(())
}
