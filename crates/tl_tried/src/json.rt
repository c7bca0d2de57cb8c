//! Reports the situations of traces as JSON.

ghost use Rattle.std.specs.Prelude.{◌≡◌, ◌++◌, ◌-◌, OnOk, length, take};
ghost use Rattle.std.specs.List.{flat_map};
ghost use Rattle.tl_tried.specs.statement.Told;

use crate::bins_json::append_bins;
use crate::sum::{Place, Sum};
use crate::text::{all, seen_in};
use crate::tried::Tried;
use std::alloc::AllocError;
use tl_tables::text::append_with;

/// Appends the first place of a situation: the line, and for several traces the number of the trace.
fn append_first(several: bool, place: Place, out: &mut Vec<u8>) -> Result<(), AllocError>
    ensures { OnOk result (out.new.items ≡ out.old.items ++ Told.first_json several place) }
{
    if several {
        append_with("\"trace\": ", place.trace as u64, out)?;
        append_with(", \"line\": ", place.line, out)
    } else {
        append_with("\"line\": ", place.line, out)
    }
}

/// Appends no place, for a situation that never came.
fn append_nowhere(several: bool, out: &mut Vec<u8>) -> Result<(), AllocError>
    ensures { OnOk result (out.new.items ≡ out.old.items ++ Told.nowhere_json several) }
{
    if several {
        out.extend_from_slice(b"\"trace\": null, \"line\": null")
    } else {
        out.extend_from_slice(b"\"line\": null")
    }
}

/// Appends the first place of a situation, if it came.
fn append_place(several: bool, place: Option<Place>, out: &mut Vec<u8>) -> Result<(), AllocError>
    ensures { OnOk result (out.new.items ≡ out.old.items ++ Told.place_json several place) }
{
    match place {
        None => append_nowhere(several, out),
        Some(place) => append_first(several, place, out),
    }
}

/// Appends the front of a situation: its name and its count.
fn append_count(sum: &Sum, out: &mut Vec<u8>) -> Result<(), AllocError>
    ensures { OnOk result (out.new.items ≡ out.old.items ++ Told.count_json sum.now) }
{
    out.extend_from_slice(b"{\"name\": \"")?;
    sum.situation.append_name(out)?;
    append_with("\", \"count\": ", sum.count, out)
}

/// Appends the end of a situation: its sentence.
fn append_said(sum: &Sum, out: &mut Vec<u8>) -> Result<(), AllocError>
    ensures { OnOk result (out.new.items ≡ out.old.items ++ Told.said_json sum.now) }
{
    out.extend_from_slice(b", \"text\": \"")?;
    out.extend_from_slice(sum.situation.sentence().as_bytes())?;
    out.extend_from_slice(b"\"}")
}

/// Appends a situation.
fn append_sum(several: bool, sum: &Sum, out: &mut Vec<u8>) -> Result<(), AllocError>
    ensures { OnOk result (out.new.items ≡ out.old.items ++ Told.sum_json several sum.now) }
{
    append_count(sum, out)?;
    out.extend_from_slice(b", ")?;
    append_place(several, sum.first, out)?;
    append_said(sum, out)
}

/// Appends situations, each after a comma.
fn append_others(several: bool, sums: &[Sum], out: &mut Vec<u8>) -> Result<(), AllocError>
    ensures { OnOk result (out.new.items ≡ out.old.items ++ flat_map (Told.next_json several) sums.now) }
{
    for sum in sums {
        out.extend_from_slice(b",\n  ")?;
        append_sum(several, sum, out)?;
    }
    Ok(())
}

/// Appends situations, with commas between them.
fn append_sums(several: bool, sums: &[Sum], out: &mut Vec<u8>) -> Result<(), AllocError>
    ensures { OnOk result (out.new.items ≡ out.old.items ++ Told.sums_json several sums.now) }
{
    match sums {
        [] => Ok(()),
        [first, others @ ..] => {
            append_sum(several, first, out)?;
            append_others(several, others, out)
        }
    }
}

/// A verdict without the LF at its end.
fn line_said(verdict: &[u8]) -> &[u8]
    ensures { result.now ≡ take (length verdict.now - 1) verdict.now }
{
    &verdict[..verdict.len().saturating_sub(1)]
}

/// Appends a verdict, without the LF at its end.
fn append_verdict(verdict: &[u8], out: &mut Vec<u8>) -> Result<(), AllocError>
    ensures { OnOk result (out.new.items ≡ out.old.items ++ Told.quoted verdict.now) }
{
    out.extend_from_slice(b"\"")?;
    out.extend_from_slice(line_said(verdict))?;
    out.extend_from_slice(b"\"")?;
    Ok(())
}

/// Appends verdicts, each after a comma.
fn append_other_verdicts(all: &[Tried], out: &mut Vec<u8>) -> Result<(), AllocError>
    ensures { OnOk result (out.new.items ≡ out.old.items ++ flat_map Told.next_verdict all.now) }
{
    for tried in all {
        out.extend_from_slice(b", ")?;
        append_verdict(&tried.verdict, out)?;
    }
    Ok(())
}

/// Appends verdicts, with commas between them.
fn append_verdicts(all: &[Tried], out: &mut Vec<u8>) -> Result<(), AllocError>
    ensures { OnOk result (out.new.items ≡ out.old.items ++ Told.verdicts_json all.now) }
{
    match all {
        [] => Ok(()),
        [first, others @ ..] => {
            append_verdict(&first.verdict, out)?;
            append_other_verdicts(others, out)
        }
    }
}

/// The text before the verdict, or before the verdicts of several traces.
fn before_verdicts(several: bool) -> &'static str
    ensures { result.now ≡ Told.before_verdicts several }
{
    if several {
        "{\"verdicts\": ["
    } else {
        "{\"verdict\": "
    }
}

/// The text after the verdict, or after the verdicts of several traces.
fn after_verdicts(several: bool) -> &'static str
    ensures { result.now ≡ Told.after_verdicts several }
{
    if several { "], " } else { ", " }
}

/// Appends the verdict, or the list of verdicts.
fn append_front(several: bool, all: &[Tried], out: &mut Vec<u8>) -> Result<(), AllocError>
    ensures { OnOk result (out.new.items ≡ out.old.items ++ Told.front_json several all.now) }
{
    out.extend_from_slice(before_verdicts(several).as_bytes())?;
    append_verdicts(all, out)?;
    out.extend_from_slice(after_verdicts(several).as_bytes())
}

/// Appends the number of situations that came, and of all.
fn append_summary(sums: &[Sum], out: &mut Vec<u8>) -> Result<(), AllocError>
    ensures { OnOk result (out.new.items ≡ out.old.items ++ Told.summary_json sums.now) }
{
    append_with("\"seen\": ", seen_in(sums), out)?;
    append_with(", \"of\": ", all(), out)
}

/// Appends the list of situations.
fn append_list(several: bool, sums: &[Sum], out: &mut Vec<u8>) -> Result<(), AllocError>
    ensures { OnOk result (out.new.items ≡ out.old.items ++ Told.list_json several sums.now) }
{
    out.extend_from_slice(b", \"situations\": [")?;
    append_sums(several, sums, out)?;
    out.extend_from_slice(b"]")?;
    Ok(())
}

/// Appends verdicts, situations and the tables of links as one object. For several traces each place has the number of
/// its trace.
pub fn append_json(
    several: bool,
    all: &[Tried],
    sums: &[Sum],
    cells: &[Option<u64>],
    out: &mut Vec<u8>,
) -> Result<(), AllocError>
    ensures { OnOk result (out.new.items ≡ out.old.items ++ Told.told_json several all.now sums.now cells.now) }
{
    append_front(several, all, out)?;
    append_summary(sums, out)?;
    append_list(several, sums, out)?;
    append_bins(cells, out)
}
