//! Appends numbers and texts in columns.

ghost use Rattle.std.specs.Prelude.{◌≡◌, ◌≤◌, ◌++◌, OnOk, length, replicate};
ghost use Rattle.std.specs.Fmt.{decimal};
ghost use Rattle.std.specs.List.{flat_map};
ghost use Rattle.tl_tables.specs.statement.Tables;

use itoa::Buffer;
use std::alloc::AllocError;

/// Appends a number in decimal.
pub fn append_number(number: u64, out: &mut Vec<u8>) -> Result<(), AllocError>
    ensures { OnOk result (out.new.items ≡ out.old.items ++ decimal number) }
{
    let mut digits = Buffer::new();
    out.extend_from_slice(digits.format(number).as_bytes())
}

/// Appends a text, and a number after it.
pub fn append_with(text: &str, number: u64, out: &mut Vec<u8>) -> Result<(), AllocError>
    ensures { OnOk result (out.new.items ≡ out.old.items ++ (text.now ++ decimal number)) }
{
    out.extend_from_slice(text.as_bytes())?;
    append_number(number, out)
}

/// Appends so many spaces.
fn append_spaces(count: usize, out: &mut Vec<u8>) -> Result<(), AllocError>
    ensures { OnOk result (out.new.items ≡ out.old.items ++ replicate count 32) }
{
    for _ in 0..count {
        out.push(b' ')?;
    }
    Ok(())
}

/// Appends a text, and spaces up to the width of the column of heads.
pub(crate) fn append_left(text: &[u8], out: &mut Vec<u8>) -> Result<(), AllocError>
    ensures { OnOk result (out.new.items ≡ out.old.items ++ Tables.left text.now) }
{
    out.extend_from_slice(text)?;
    append_spaces(24usize.saturating_sub(text.len()), out)
}

/// Appends a text, after spaces up to the width of a column.
pub(crate) fn append_right(width: usize, text: &[u8], out: &mut Vec<u8>) -> Result<(), AllocError>
    ensures { OnOk result (out.new.items ≡ out.old.items ++ Tables.right width text.now) }
{
    append_spaces(width.saturating_sub(text.len()), out)?;
    out.extend_from_slice(text)
}

/// Appends a count, or a dash if there is none, as far to the right.
fn append_cell(width: usize, cell: Option<u64>, out: &mut Vec<u8>) -> Result<(), AllocError>
    ensures { OnOk result (out.new.items ≡ out.old.items ++ Tables.cell_text width cell) }
{
    match cell {
        None => append_right(width, b"-", out),
        Some(count) => {
            let mut digits = Buffer::new();
            append_right(width, digits.format(count).as_bytes(), out)
        }
    }
}

/// Appends counts, column by column.
pub(crate) fn append_cells(
    width: usize,
    cells: &[Option<u64>],
    out: &mut Vec<u8>,
) -> Result<(), AllocError>
    ensures { OnOk result (out.new.items ≡ out.old.items ++ flat_map (Tables.cell_text width) cells.now) }
{
    for cell in cells {
        append_cell(width, *cell, out)?;
    }
    Ok(())
}

/// The number of characters of a count, or of the dash if there is none.
fn length_of(cell: Option<u64>) -> usize
    ensures is { result ≡ length (Tables.cell_said cell) }
    ensures short { result ≤ 40 }
{
    match cell {
        None => 1,
        Some(count) => {
            let mut digits = Buffer::new();
            digits.format(count).len()
        }
    }
}

/// The number of characters of the longest count, and no less than those of the longest head of a column.
fn longest(cells: &[Option<u64>]) -> usize
    ensures is { result ≡ Tables.longest cells.now }
    ensures short { result ≤ 40 }
{
    let mut longest = 6;
    for cell in cells {
        longest = longest.max(length_of(*cell));
    }
    longest
}

/// The width of a column of counts.
pub(crate) fn width_of(cells: &[Option<u64>]) -> usize
    ensures { result ≡ Tables.width cells.now }
{
    longest(cells) + 2
}
