//! Reports the situations of traces as text.

ghost use Rattle.std.specs.Prelude.{◌≡◌, ◌++◌, OnOk, option_map};
ghost use Rattle.std.specs.List.{flat_map};
ghost use Rattle.tl_tried.specs.statement.Told;

use crate::sum::Sum;
use crate::tried::Tried;
use std::alloc::AllocError;
use tl_cover::situation::Situation;
use tl_tables::text::{append_number, append_with};

/// The number of situations that came.
pub fn seen_in(sums: &[Sum]) -> u64
    ensures { result ≡ Told.seen_in sums.now }
{
    sums.iter().filter(|sum| sum.first.is_some()).count() as u64
}

/// The number of all situations.
#[tactic(auto, unfolding(crate::specs::statement::Told::all_count))]
pub fn all() -> u64
    ensures { result ≡ Told.all_count }
{
    Situation::ALL.len() as u64
}

/// The name of the trace with this number, if it has one.
fn name_of(names: &[String], trace: usize) -> Option<&str>
    ensures { option_map (λ s. s.now) result ≡ Told.name_of names.now trace }
{
    Some(names.get(trace)?.as_str())
}

/// Appends the name before the verdict of a trace, if it has one.
fn append_name(name: Option<&str>, out: &mut Vec<u8>) -> Result<(), AllocError>
    ensures { OnOk result (out.new.items ≡ out.old.items
        ++ Told.before_verdict (option_map (λ s. s.now) name.entry)) }
{
    match name {
        None => Ok(()),
        Some(name) => {
            out.extend_from_slice(name.as_bytes())?;
            out.extend_from_slice(b": ")
        }
    }
}

/// Appends the verdict of the trace with this number, after its name if it has one.
fn append_verdict(
    names: &[String],
    trace: usize,
    tried: &Tried,
    out: &mut Vec<u8>,
) -> Result<(), AllocError>
    ensures { OnOk result (out.new.items ≡ out.old.items ++ Told.verdict_text names.now trace tried.now) }
{
    append_name(name_of(names, trace), out)?;
    out.extend_from_slice(&tried.verdict)
}

/// Appends the verdict of each trace.
fn append_verdicts(names: &[String], all: &[Tried], out: &mut Vec<u8>) -> Result<(), AllocError>
    ensures { OnOk result (out.new.items ≡ out.old.items ++ Told.verdicts_text names.now all.now) }
{
    for (trace, tried) in all.iter().enumerate() {
        append_verdict(names, trace, tried, out)?;
    }
    Ok(())
}

/// Appends a line of a trace: `line LINE`, or `NAME:LINE` if it has a name.
fn append_place(name: Option<&str>, line: u64, out: &mut Vec<u8>) -> Result<(), AllocError>
    ensures { OnOk result (out.new.items ≡ out.old.items
        ++ Told.place_of (option_map (λ s. s.now) name.entry) line) }
{
    match name {
        None => append_with("line ", line, out),
        Some(name) => {
            out.extend_from_slice(name.as_bytes())?;
            append_with(":", line, out)
        }
    }
}

/// Appends the end of a situation's line: its sentence.
fn append_sentence(sum: &Sum, out: &mut Vec<u8>) -> Result<(), AllocError>
    ensures { OnOk result (out.new.items ≡ out.old.items ++ Told.sentence_end sum.now) }
{
    out.extend_from_slice(b": ")?;
    out.extend_from_slice(sum.situation.sentence().as_bytes())?;
    out.push(b'\n')?;
    Ok(())
}

/// Appends the line of a situation, if it came.
fn append_seen(names: &[String], sum: &Sum, out: &mut Vec<u8>) -> Result<(), AllocError>
    ensures { OnOk result (out.new.items ≡ out.old.items ++ Told.seen_text names.now sum.now) }
{
    let Some(place) = sum.first else {
        return Ok(());
    };
    sum.situation.append_name(out)?;
    append_with(" ", sum.count, out)?;
    out.extend_from_slice(b", ")?;
    append_place(name_of(names, place.trace), place.line, out)?;
    append_sentence(sum, out)
}

/// Appends the line of a situation, if it never came.
fn append_unseen(sum: &Sum, out: &mut Vec<u8>) -> Result<(), AllocError>
    ensures { OnOk result (out.new.items ≡ out.old.items ++ Told.unseen_text sum.now) }
{
    if sum.first.is_some() {
        return Ok(());
    }
    sum.situation.append_name(out)?;
    out.extend_from_slice(b" never")?;
    append_sentence(sum, out)
}

/// Appends the lines of the situations that came.
fn append_all_seen(names: &[String], sums: &[Sum], out: &mut Vec<u8>) -> Result<(), AllocError>
    ensures { OnOk result (out.new.items ≡ out.old.items ++ flat_map (Told.seen_text names.now) sums.now) }
{
    for sum in sums {
        append_seen(names, sum, out)?;
    }
    Ok(())
}

/// Appends the lines of the situations that never came.
fn append_all_unseen(sums: &[Sum], out: &mut Vec<u8>) -> Result<(), AllocError>
    ensures { OnOk result (out.new.items ≡ out.old.items ++ flat_map Told.unseen_text sums.now) }
{
    for sum in sums {
        append_unseen(sum, out)?;
    }
    Ok(())
}

/// Appends the number of situations that came, and of all.
fn append_summary(sums: &[Sum], out: &mut Vec<u8>) -> Result<(), AllocError>
    ensures { OnOk result (out.new.items ≡ out.old.items ++ Told.summary sums.now) }
{
    append_number(seen_in(sums), out)?;
    append_with(" of ", all(), out)?;
    out.extend_from_slice(b" situations seen\n")?;
    Ok(())
}

/// Appends verdicts and situations as text.
pub fn append_text(
    names: &[String],
    all: &[Tried],
    sums: &[Sum],
    out: &mut Vec<u8>,
) -> Result<(), AllocError>
    ensures { OnOk result (out.new.items ≡ out.old.items ++ Told.told_text names.now all.now sums.now) }
{
    append_verdicts(names, all, out)?;
    append_all_seen(names, sums, out)?;
    append_summary(sums, out)?;
    append_all_unseen(sums, out)
}
