//! Reads the flags of `run`.

ghost use Rattle.std.specs.Prelude.{◌≡◌, IfOk};
ghost use Rattle.clap.specs.Words.{kind_of};
ghost use Rattle.tl_words.specs.Tool.{run_form};

use crate::commands::run;
use crate::usage::usage_error;
use clap::error::ErrorKind;
use std::alloc::{AllocError, Global};
use tl_command::command::RunForm;

/// The form of the output of `run`, by its flags; None for `--commits` without `--trace`.
pub(crate) fn run_form(trace: bool, commits: bool) -> Option<RunForm>
    ensures { result ≡ run_form trace commits }
{
    match (trace, commits) {
        (false, false) => Some(RunForm::Outcomes),
        (true, false) => Some(RunForm::Trace),
        (true, true) => Some(RunForm::TraceWithCommits),
        (false, true) => None,
    }
}

/// The error of `--commits` without `--trace`.
pub(crate) fn commits_alone(alloc: Global) -> Result<clap::Error, AllocError>
    ensures { IfOk result (λ error. kind_of error ≡ ErrorKind.MissingRequiredArgument) }
{
    usage_error(
        run(alloc),
        "tltool run",
        ErrorKind::MissingRequiredArgument,
        "the argument '--commits' cannot be used without '--trace', since it adds lines to the trace",
    )
}
