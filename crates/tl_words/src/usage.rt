//! Errors of usage, with the usage of a command.

ghost use Rattle.std.specs.Prelude.{◌≡◌, IfOk};
ghost use Rattle.clap.specs.Words.{kind_of};

use clap::error::ErrorKind;
use std::alloc::AllocError;

/// An error of this kind, with the usage of a command, which the usage calls by this name.
pub(crate) fn usage_error<'a>(
    command: Result<clap::Command<'a>, AllocError>,
    name: &'a str,
    kind: ErrorKind,
    message: &str,
) -> Result<clap::Error, AllocError>
    ensures { IfOk result (λ error. kind_of error ≡ kind) }
{
    let mut command = command?.bin_name(name)?;
    let error = command.error(kind, message);
    drop(command);
    error
}

/// The error of a word that has no meaning.
pub(crate) fn invalid_value<'a>(
    command: Result<clap::Command<'a>, AllocError>,
    name: &'a str,
    message: &str,
) -> Result<clap::Error, AllocError>
    ensures { IfOk result (λ error. kind_of error ≡ ErrorKind.InvalidValue) }
{
    usage_error(command, name, ErrorKind::InvalidValue, message)
}
