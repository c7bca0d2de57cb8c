//! The counts of situations in a wide trace, with the lines of wide beats.

ghost use Rattle.std.specs.Prelude.{◌≡◌, OnOk};
ghost use Rattle.tl_tried.specs.statement.Sums.{with_each};
ghost use Rattle.tl_tried.specs.code.WideRows as wide;

use std::alloc::AllocError;
use tl_cover::row::Row;

/// A row that came first in this line, if it came.
fn first_in(line: u64, row: &Row) -> Row
    ensures { result ≡ wide.first_in line row.now }
{
    Row {
        situation: row.situation,
        count: row.count,
        first: row.first.and(Some(line)),
    }
}

/// Takes the count of a row. If this is the first time that it came, it came in this line.
fn follow(seen: &mut Row, line: u64, row: &Row)
    ensures { seen.new ≡ wide.followed line seen.old row.now }
{
    seen.count = row.count;
    seen.first = seen.first.or(row.first.and(Some(line)));
}

/// Takes the counts of rows after the wide beat of this line. A row that hadn't come before came first in this line.
pub fn follow_rows(seen: &mut Vec<Row>, line: u64, rows: &[Row]) -> Result<(), AllocError>
    ensures { OnOk result (seen.new.items
        ≡ with_each (wide.followed line) (wide.first_in line) seen.old.items rows.now) }
{
    for (i, row) in rows.iter().enumerate() {
        if i < seen.len() {
            follow(&mut seen[i], line, row);
        } else {
            seen.push(first_in(line, row))?;
        }
    }
    Ok(())
}
