//! The input of a command.

ghost use Rattle.std.specs.Prelude.{◌≡◌, Err, IfErr};
ghost use Rattle.tl_lines.specs.declared.status.ToolFault.{ToolFault};
ghost use Rattle.tl_lines.specs.statement.Exit.{exit_status};

use crate::unopened;
use std::fs::File;
use std::io::{Read, StdinLock};
use std::{fs, io};

/// Standard input or a file. Both have one type, so that the compiler makes the loop over the lines of a command once.
#[derive(Drop)]
pub(crate) enum Input {
    Standard(StdinLock<'static>),
    File(File),
}

impl Read for Input {
    fn read(&mut self, buf: &mut [u8]) -> io::Result<usize> {
        match self {
            Input::Standard(reader) => reader.read(buf),
            Input::File(file) => file.read(buf),
        }
    }
}

/// The file of this name, or standard input if there is no name. If the file can't be opened, says so; the error is the
/// exit status.
pub(crate) fn open(rt: &HostRuntime, name: Option<&str>) -> Result<Input, u8>
    ensures { IfErr result (λ status. status ≡ exit_status (Err ToolFault.Read)) }
{
    match name {
        None => Ok(Input::Standard(rt.reader())),
        Some(name) => match fs::open(rt, name) {
            Ok(file) => Ok(Input::File(file)),
            Err(_) => Err(unopened(rt, name)),
        },
    }
}
