//! The table of permissions: messages by the permission that the link held before.

ghost use Rattle.std.specs.Prelude.{◌≡◌, ◌++◌, IfOk, OnOk};
ghost use Rattle.std.specs.List.{flat_map};
ghost use Rattle.tl_tables.specs.code.Grid;

use crate::line::append_line;
use crate::sum::{cell_at, cell_sum};
use std::alloc::{AllocError, Global};
use tl_beat::opcode::OpC;
use tl_cover::bins::BINS;
use tl_cover::message::{MessageKind, Param};
use tl_cover::situation::Situation;
use tl_params::param::{Cap, Grow, Report};
use tl_params::perm::Perm;

/// A row of the table: Grants with a cap, reports to Probes with a cap, or Releases that leave at most a permission.
#[derive(Clone, Copy)]
enum Line {
    Grant(Cap),
    Report(Cap),
    Release(Cap),
}

/// The rows of the table.
const LINES: [Line; 8] = [
    Line::Grant(Cap::ToT),
    Line::Grant(Cap::ToB),
    Line::Report(Cap::ToT),
    Line::Report(Cap::ToB),
    Line::Report(Cap::ToN),
    Line::Release(Cap::ToT),
    Line::Release(Cap::ToB),
    Line::Release(Cap::ToN),
];

/// Whether a growth by a Grant with this cap begins with this permission.
fn grows(grow: Grow, cap: Cap, held: Perm) -> bool
    ensures { result ≡ Grid.grows grow cap held }
{
    matches!(
        (grow, cap, held),
        (Grow::NtoB, Cap::ToB, Perm::None)
            | (Grow::NtoT, Cap::ToT, Perm::None)
            | (Grow::BtoT, Cap::ToT, Perm::Branch)
    )
}

/// Whether a report says that this permission was held.
fn is_from(report: Report, held: Perm) -> bool
    ensures { result ≡ Grid.is_from report held }
{
    matches!(
        (report, held),
        (Report::TtoT | Report::TtoB | Report::TtoN, Perm::Trunk)
            | (Report::BtoB | Report::BtoN, Perm::Branch)
            | (Report::NtoN, Perm::None)
    )
}

/// Whether a report says that the permission of this cap is left.
fn is_to(report: Report, cap: Cap) -> bool
    ensures { result ≡ Grid.is_to report cap }
{
    matches!(
        (report, cap),
        (Report::TtoT, Cap::ToT)
            | (Report::TtoB | Report::BtoB, Cap::ToB)
            | (Report::TtoN | Report::BtoN | Report::NtoN, Cap::ToN)
    )
}

/// Whether a bin is counted in this row, in the column of this permission.
fn is_in(line: Line, held: Perm, bin: Situation) -> bool
    ensures { result ≡ Grid.is_in line held bin }
{
    match (line, bin) {
        (Line::Grant(cap), Situation::Granted(grow)) => grows(grow, cap, held),
        (Line::Report(cap), Situation::Answered(report, asked)) => {
            cap.param() == asked.param() && is_from(report, held)
        }
        (
            Line::Release(cap),
            Situation::Sent(
                MessageKind::C(OpC::Release | OpC::ReleaseData, Param::Report(report), _),
            ),
        ) => is_to(report, cap) && is_from(report, held),
        _ => false,
    }
}

/// The sum so far, with the count of the bin at a place if it is counted in this row and column.
fn with_bin(
    sum: Option<u64>,
    line: Line,
    held: Perm,
    counts: &[Option<u64>],
    place: usize,
    bin: Situation,
) -> Result<Option<u64>, AllocError>
    ensures { IfOk result (λ more. more ≡ Grid.with_bin line held counts.now sum place bin) }
{
    if is_in(line, held, bin) {
        cell_sum(sum, cell_at(counts, place))
    } else {
        Ok(sum)
    }
}

/// The sum of the counts of the bins in this row and column.
fn cell(line: Line, held: Perm, counts: &[Option<u64>]) -> Result<Option<u64>, AllocError>
    ensures { IfOk result (λ sum. sum ≡ Grid.cell line held counts.now) }
{
    let mut sum = None;
    for (place, bin) in BINS.iter().enumerate() {
        sum = with_bin(sum, line, held, counts, place, *bin)?;
    }
    Ok(sum)
}

/// The head of a row.
fn append_head(line: Line, head: &mut Vec<u8>) -> Result<(), AllocError>
    ensures { OnOk result (head.new.items ≡ head.old.items ++ Grid.head_of line) }
{
    match line {
        Line::Grant(cap) => {
            head.extend_from_slice(b"grant-")?;
            head.extend_from_slice(cap.name().as_bytes())
        }
        Line::Report(cap) => {
            head.extend_from_slice(b"report-")?;
            head.extend_from_slice(cap.name().as_bytes())
        }
        Line::Release(cap) => {
            head.extend_from_slice(b"release-")?;
            head.extend_from_slice(cap.name().as_bytes())
        }
    }
}

/// Appends a row, if a link can have one of its bins.
fn append_row(
    alloc: Global,
    line: Line,
    width: usize,
    counts: &[Option<u64>],
    out: &mut Vec<u8>,
) -> Result<(), AllocError>
    ensures { OnOk result (out.new.items ≡ out.old.items ++ Grid.row_of width counts.now line) }
{
    let mut head = Vec::new(alloc);
    append_head(line, &mut head)?;
    let cells = [
        cell(line, Perm::None, counts)?,
        cell(line, Perm::Branch, counts)?,
        cell(line, Perm::Trunk, counts)?,
    ];
    append_line(width, &head, &cells, out)
}

/// Appends these rows.
fn append_lines(
    alloc: Global,
    lines: &[Line],
    width: usize,
    counts: &[Option<u64>],
    out: &mut Vec<u8>,
) -> Result<(), AllocError>
    ensures { OnOk result (out.new.items ≡ out.old.items ++ flat_map (Grid.row_of width counts.now) lines.now) }
{
    for line in lines {
        append_row(alloc, *line, width, counts, out)?;
    }
    Ok(())
}

/// Appends the rows of the table.
pub(crate) fn append_grid(
    alloc: Global,
    width: usize,
    counts: &[Option<u64>],
    out: &mut Vec<u8>,
) -> Result<(), AllocError>
    ensures { OnOk result (out.new.items ≡ out.old.items ++ Grid.rows_of width counts.now) }
{
    append_lines(alloc, &LINES, width, counts, out)
}
