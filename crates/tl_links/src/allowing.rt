//! Names the liberties that would allow the first beat at fault of a trace.

ghost use Rattle.std.specs.Prelude.{◌≡◌, ◌≢◌, ◌++◌, List, IfErr, IfOk, OnOk};
ghost use Rattle.tl_lines.specs.declared.status.ToolFault.{ToolFault};
ghost use Rattle.tl_links.specs.statement.Allowed.{FindsAllowed, allowed_line};
ghost use Rattle.tl_params.specs.declared.liberties.Liberty.{Liberty};

use crate::allow_lines::AllowLines;
use std::alloc::{AllocError, Global};
use std::io::Read;
use tl_allowed::text::append_allowance;
use tl_lines::engine::judge_input;
use tl_lines::lines::Lines;
use tl_lines::status::ToolFault;
use tl_params::liberties::{Liberties, Liberty};

/// Appends the line that names these liberties; nothing if there are none. After an error only a front of it may be
/// appended.
pub fn append_line(liberties: &[Liberty], out: &mut Vec<u8>) -> Result<(), AllocError>
    ensures { OnOk result (out.new.items ≡ out.old.items ++ allowed_line liberties.now) }
{
    if liberties.is_empty() {
        return Ok(());
    }
    out.push(b' ')?;
    append_allowance(liberties, out)?;
    out.push(b'\n')?;
    Ok(())
}

/// Reads a trace to its first line at fault, or to its end. The links have the liberties that the header names and
/// those that are allowed. Appends the line that names each further liberty which alone would allow the beat at fault.
///
/// Nothing is appended if no liberty would, if no line is at fault, or if that line spells no beat. After an error a
/// front of the line may be appended.
pub fn append_allowed<R: Read>(
    alloc: Global,
    allow: Liberties,
    reader: &mut R,
    out: &mut Vec<u8>,
) -> Result<(), ToolFault>
    ensures ok { OnOk result ((allowing : List Liberty)
        × FindsAllowed allow (R.remaining reader.old) (R.remaining reader.new) allowing
        × (out.new.items ≡ out.old.items ++ allowed_line allowing)) }
    ensures fault { IfErr result (λ fault. fault ≢ ToolFault.Write) }
{
    let mut lines = Lines::new(AllowLines::new(alloc, allow));
    let mut said = Vec::new(alloc);
    match judge_input(alloc, &mut lines, reader, &mut said) {
        Ok(_) => {
            let appended = append_line(lines.handler().allowing(), out);
            drop(lines);
            Ok(appended?)
        }
        Err(fault) => {
            drop(lines);
            Err(fault)
        }
    }
}
