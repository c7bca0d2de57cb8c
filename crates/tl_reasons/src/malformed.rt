//! Explains a line that spells no header, or no beat.

ghost use Rattle.std.specs.Prelude.{◌≢◌, IfErr};
ghost use Rattle.tl_beat.specs.statement.Width.{IsWidth};

use crate::explain_fault::ExplainFault;
use crate::heading;
use crate::line_front::fetch;
use std::alloc::Global;
use std::io::Read;
use tl_beat::fault::LineFault;
use tl_beat::read::read_line;
use tl_explain::spelling;
use tl_lines::links_header::read_links;
use tl_lines::status::ToolFault;

/// Explains a first line that is no header. `Changed` if it is one.
pub(crate) fn explain_header<R: Read>(
    alloc: Global,
    reader: &mut R,
    out: &mut Vec<u8>,
) -> Result<(), ExplainFault>
    ensures fault { IfErr result (λ fault. fault ≢ ExplainFault.Tool ToolFault.Write) }
{
    let line = fetch(alloc, reader, 0)?;
    if line.len() <= 256 && read_links(&line).is_some() {
        return Err(ExplainFault::Changed);
    }
    heading::tell(&line, out)?;
    Ok(())
}

/// Explains the line after this many, which spells no beat.
pub(crate) fn explain_spelling<const W: usize, R: Read>(
    alloc: Global,
    reader: &mut R,
    good: u64,
    fault: LineFault,
    out: &mut Vec<u8>,
) -> Result<(), ExplainFault>
    requires { IsWidth W }
    ensures fault { IfErr result (λ fault. fault ≢ ExplainFault.Tool ToolFault.Write) }
{
    let line = fetch(alloc, reader, good)?;
    match read_line::<W>(&line) {
        Err(again) if again == fault => {
            spelling::tell(&line, fault, W, out)?;
            Ok(())
        }
        _ => Err(ExplainFault::Changed),
    }
}
