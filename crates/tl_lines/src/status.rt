//! The ends of a run of the command.

ghost use Rattle.std.specs.Prelude.{◌≡◌};
ghost use Rattle.tl_lines.specs.statement.Exit.{exit_status};

use thiserror::Error;

/// The end of a complete run: without a fault, or at a line at fault.
#[derive(Clone, Copy, Debug, PartialEq, Eq)]
pub enum Status {
    Clean,
    Broken,
}

/// The fault that ended a run. It displays as the line for standard error.
#[derive(Clone, Copy, Debug, PartialEq, Eq, Error)]
pub enum ToolFault {
    #[error("tltool: no memory")]
    Memory,
    #[error("tltool: read failed")]
    Read,
    #[error("tltool: write failed")]
    Write,
}

/// The exit status of the program: 0 for clean, 1 for a line at fault, 3 if memory, the reader or the writer failed.
pub fn exit_of(outcome: &Result<Status, ToolFault>) -> u8
    ensures { result ≡ exit_status outcome.now }
{
    match outcome {
        Ok(Status::Clean) => 0,
        Ok(Status::Broken) => 1,
        Err(_) => 3,
    }
}
