//! Reports the situations of traces.

ghost use Rattle.std.specs.Prelude.{◌≡◌, ◌++◌, OnOk, IfErr, IfOk};
ghost use Rattle.std.specs.Io.KnownBytes.{Appends};
ghost use Rattle.tl_tried.specs.statement.Told.{shown, told, told_named};
ghost use Rattle.tl_tried.specs.statement.Tried.{GivesUpTelling, is_broken, status_of};

use crate::json::append_json;
use crate::sum::{Sum, cells_of, sums_of};
use crate::text::append_text;
use crate::tried::Tried;
use std::alloc::{AllocError, Global};
use std::io::Write;
use tl_command::cover::CoverForm;
use tl_lines::output::write_all;
use tl_lines::status::{Status, ToolFault};
use tl_tables::tables::append_tables;

/// Whether a line is at fault.
fn is_broken(status: Status) -> bool
    ensures { result ≡ is_broken status }
{
    matches!(status, Status::Broken)
}

/// `Broken` if a line of one of the traces is at fault.
fn status_of(all: &[Tried]) -> Status
    ensures { result ≡ status_of all.now }
{
    for tried in all {
        if is_broken(tried.status) {
            return Status::Broken;
        }
    }
    Status::Clean
}

/// The names in the report: none for one trace.
fn shown(names: &[String]) -> &[String]
    ensures { result.now ≡ shown names.now }
{
    if names.len() > 1 { names } else { &[] }
}

/// Appends the verdicts and the situations, and the tables of the links if the form has them, with these names of the
/// traces.
fn append_told(
    alloc: Global,
    form: CoverForm,
    names: &[String],
    all: &[Tried],
    sums: &[Sum],
    cells: &[Option<u64>],
    out: &mut Vec<u8>,
) -> Result<(), AllocError>
    ensures { OnOk result (out.new.items
        ≡ out.old.items ++ told_named form names.now all.now sums.now cells.now) }
{
    match form {
        CoverForm::Text => append_text(names, all, sums, out),
        CoverForm::Tables => {
            append_text(names, all, sums, out)?;
            append_tables(alloc, cells, out)
        }
        CoverForm::Json => append_json(!names.is_empty(), all, sums, cells, out),
    }
}

/// Writes the verdict of each trace and the situations of all: those that came, with their counts and first places,
/// their number, and those that never came. If the form has tables, it also writes the counts of all bins on each link.
/// The names are used for several traces. The status is `Broken` if a line of one of them is at fault.
///
/// The fault is `Memory`, and nothing was written, or `Write`, and some of the text is left.
pub fn tell<W: Write>(
    alloc: Global,
    form: CoverForm,
    names: &[String],
    all: &[Tried],
    writer: &mut W,
) -> Result<Status, ToolFault>
    ensures ok { IfOk result (λ status. (status ≡ status_of all.now)
        × Appends (W.contents writer.old) (W.contents writer.new) (told form names.now all.now)) }
    ensures fault { IfErr result (GivesUpTelling (W.contents writer.old) (W.contents writer.new)
        (told form names.now all.now)) }
{
    let sums = sums_of(alloc, all)?;
    let cells = cells_of(alloc, all)?;
    let mut text = Vec::new(alloc);
    append_told(alloc, form, shown(names), all, &sums, &cells, &mut text)?;
    write_all(writer, &text)?;
    Ok(status_of(all))
}
