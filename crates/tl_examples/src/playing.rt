//! Writes the texts of a command for the examples.

ghost use Rattle.std.specs.Prelude.{IfOk};
ghost use Rattle.tl_examples.specs.Told.{Tells};

use std::alloc::Global;
use std::io::{Read, Write};
use std::{fs, io};
use tl_engine::command::Command;
use tl_engine::tool::run_tool;
use tl_lines::output::write_all;
use tl_lines::status::{Status, ToolFault};

/// Writes the name of a file, a separator, and the text of the command for the file. The errors are those of
/// `run_tool`.
fn tell<R: Read, W: Write>(
    alloc: Global,
    command: Command,
    name: &str,
    separator: &[u8],
    input: &mut R,
    output: &mut W,
) -> Result<Status, ToolFault>
    ensures { IfOk result (Tells command name.now separator.now (R.remaining input.old) (R.remaining input.new)
        (W.contents output.old) (W.contents output.new)) }
{
    write_all(output, name.as_bytes())?;
    write_all(output, separator)?;
    run_tool(alloc, command, input, output)
}

/// Writes that for each of the files with these names. Returns whether all could be read and written.
pub fn tell_all(rt: &HostRuntime, command: Command, names: &[&str], separator: &[u8]) -> bool {
    for name in names {
        let Ok(mut file) = fs::open(rt, *name) else {
            return false;
        };
        if tell(
            rt.alloc(),
            command,
            name,
            separator,
            &mut file,
            &mut io::writer(rt),
        )
        .is_err()
        {
            return false;
        }
    }
    true
}
