//! Judges traces of any version.

ghost use Rattle.std.specs.Prelude.{IfOk};
ghost use Rattle.tl_examples.specs.Told.{TellsTrace};

use std::alloc::Global;
use std::io::{Read, Write};
use std::{fs, io};
use tl_lines::output::write_all;
use tl_lines::status::{Status, ToolFault};
use tl_params::liberties::Liberties;
use tl_wide_event_lines::run::run_any;

/// Writes the name of a trace of any version, a separator, and its verdict. The errors are those of `run_any`.
fn judge<R: Read, W: Write>(
    alloc: Global,
    together: bool,
    name: &str,
    separator: &[u8],
    input: &mut R,
    output: &mut W,
) -> Result<Status, ToolFault>
    ensures { IfOk result (TellsTrace together name.now separator.now (R.remaining input.old) (R.remaining input.new)
        (W.contents output.old) (W.contents output.new)) }
{
    write_all(output, name.as_bytes())?;
    write_all(output, separator)?;
    run_any(alloc, together, Liberties::none(), input, output)
}

/// Judges each of the traces with these names. Answers whether all could be read and judged.
pub fn judge_all(rt: &HostRuntime, together: bool, names: &[&str], separator: &[u8]) -> bool {
    for name in names {
        let Ok(mut file) = fs::open(rt, *name) else {
            return false;
        };
        if judge(
            rt.alloc(),
            together,
            name,
            separator,
            &mut file,
            &mut io::writer(rt),
        )
        .is_err()
        {
            return false;
        }
    }
    true
}
