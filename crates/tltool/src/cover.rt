//! Reports the situations of traces.

ghost use Rattle.std.specs.Prelude.{◌≡◌, ◌+◌, length, ℕ, List, Option, Err, IfErr, IfOk, OnOk};
ghost use Rattle.tl_lines.specs.statement.Exit.{exit_status};
ghost use Rattle.tltool.specs.Covered.{AddsTried, EndsCovered, EndsCoveredIn, EndsTold};

use crate::input::{Input, open};
use crate::told;
use std::io;
use std::io::{Read, Write};
use tl_command::cover::CoverForm;
use tl_lines::status::ToolFault;
use tl_params::liberties::Liberties;
use tl_tried::tell::tell;
use tl_tried::tried::{Tried, try_trace};

/// Judges the input of a reader, and appends the result to the traces that were tried. If it can't be read or there is
/// no memory, prints the fault and returns the exit status.
fn try_over<R: Read>(rt: &HostRuntime, input: &mut R, all: &mut Vec<Tried>) -> Result<(), u8>
    ensures tried { OnOk result (AddsTried (R.remaining input.old) (R.remaining input.new) all.old.items
        all.new.items) }
    ensures refused { IfErr result (λ status. status ≡ exit_status (Err ToolFault.Read)) }
{
    let tried = match try_trace(rt.alloc(), Liberties::none(), input) {
        Ok(tried) => tried,
        Err(fault) => return Err(told(rt, Err(fault))),
    };
    let Ok(()) = all.push(tried) else {
        return Err(told(rt, Err(ToolFault::Memory)));
    };
    Ok(())
}

/// The same for an input that was opened. Otherwise the error is the exit status, and is returned.
fn try_opened<R: Read + Drop>(
    rt: &HostRuntime,
    opened: Result<R, u8>,
    all: &mut Vec<Tried>,
) -> Result<(), u8>
    ensures opened { IfOk opened (λ input. OnOk result ((left : Option (List ℕ))
        × AddsTried (R.remaining input) left all.old.items all.new.items)) }
    ensures unopened { IfErr opened (λ status. result ≡ Err status) }
    ensures refused { OnOk opened (IfErr result (λ status. status ≡ exit_status (Err ToolFault.Read))) }
    ensures counted { OnOk result (length all.new.items ≡ length all.old.items + 1) }
{
    try_over(rt, &mut opened?, all)
}

/// The same for the files of these names in turn, up to one that can't be opened or read.
fn try_files(rt: &HostRuntime, names: &[String], all: &mut Vec<Tried>) -> Result<(), u8>
    ensures refused { IfErr result (λ status. status ≡ exit_status (Err ToolFault.Read)) }
    ensures counted { OnOk result (length all.new.items ≡ length all.old.items + length names.now) }
{
    for name in names {
        try_opened(rt, open(rt, Some(name.as_str())), all)?;
    }
    Ok(())
}

/// Writes the verdicts and situations of the traces that were tried, in this form. These names are used for several
/// traces.
fn tell_over<W: Write>(
    rt: &HostRuntime,
    form: CoverForm,
    names: &[String],
    all: &[Tried],
    output: &mut W,
) -> u8
    ensures { EndsTold form names.now all.now (W.contents output.old) (W.contents output.new) result }
{
    told(rt, tell(rt.alloc(), form, names, all, output))
}

/// Reports the situations of the trace of a reader. Writes nothing if it can't be read or there is no memory.
fn cover_over<R: Read, W: Write>(
    rt: &HostRuntime,
    form: CoverForm,
    input: &mut R,
    output: &mut W,
) -> u8
    ensures { EndsCovered form (R.remaining input.old) (R.remaining input.new) (W.contents output.old)
        (W.contents output.new) result }
{
    let mut all = Vec::new(rt.alloc());
    match try_over(rt, input, &mut all) {
        Ok(()) => tell_over(rt, form, &[], &all, output),
        Err(status) => status,
    }
}

/// Reports the situations of the traces in the files of these names. Writes nothing if one of them can't be opened or
/// read.
fn cover_files<W: Write>(rt: &HostRuntime, form: CoverForm, names: &[String], output: &mut W) -> u8
    ensures { EndsCoveredIn form names.now (W.contents output.old) (W.contents output.new) result }
{
    let mut all = Vec::new(rt.alloc());
    match try_files(rt, names, &mut all) {
        Ok(()) => tell_over(rt, form, names, &all, output),
        Err(status) => status,
    }
}

/// Reports the situations of the traces in the files of these names, or of the one on standard input if there is no
/// name.
pub(crate) fn cover(rt: &HostRuntime, form: CoverForm, names: &[String]) -> u8 {
    let mut output = io::writer(rt);
    if names.is_empty() {
        cover_over(rt, form, &mut Input::Standard(rt.reader()), &mut output)
    } else {
        cover_files(rt, form, names, &mut output)
    }
}
