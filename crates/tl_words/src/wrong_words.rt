//! The errors of words that have no meaning, or of words that are missing.

ghost use Rattle.std.specs.Prelude.{◌≡◌, IfOk};
ghost use Rattle.clap.specs.Words.{kind_of};
ghost use Rattle.tl_words.specs.Refused.{status_of_usage};

use crate::commands::{chart, coherent, decode, explain, monitor, random};
use crate::run_words::commits_alone;
use crate::usage::{invalid_value, usage_error};
use clap::error::ErrorKind;
use std::alloc::{AllocError, Global};
use tl_command::liberties::LIBERTIES_WANTED;
use tl_command::random_words::RandomOption;
use tl_command::search::ALL_WANTED;

/// The error of a word that names no width, with the usage of `decode`.
pub(crate) fn wrong_width(alloc: Global, word: Option<&str>) -> Result<clap::Error, AllocError>
    ensures { IfOk result (λ error. kind_of error ≡ ErrorKind.InvalidValue) }
{
    let word = word.unwrap_or("");
    let message = format!(in alloc;
        "invalid value '{word}' for '--width <BYTES>': a beat carries 4, 8 or 16 bytes"
    )?;
    invalid_value(decode(alloc), "tltool decode", message.as_str())
}

/// The error of an `explain` without FILE.
fn missing_file(alloc: Global) -> Result<clap::Error, AllocError>
    ensures { IfOk result (λ error. kind_of error ≡ ErrorKind.MissingRequiredArgument) }
{
    usage_error(
        explain(alloc),
        "tltool explain",
        ErrorKind::MissingRequiredArgument,
        "explain reads FILE twice, so it can't read standard input: write the trace to a file, and name that file",
    )
}

/// The error of words that name no width, no file to explain, or no trace for commits.
pub(crate) fn wrong_words(
    alloc: Global,
    name: &str,
    width: Option<&str>,
) -> Result<clap::Error, AllocError>
    ensures { IfOk result (λ error. status_of_usage error ≡ 2) }
{
    match name {
        "explain" => missing_file(alloc),
        "run" => commits_alone(alloc),
        _ => wrong_width(alloc, width),
    }
}

/// The error of an option of `random` whose word has no meaning.
pub(crate) fn wrong_option(
    alloc: Global,
    option: RandomOption,
    word: Option<&str>,
) -> Result<clap::Error, AllocError>
    ensures { IfOk result (λ error. status_of_usage error ≡ 2) }
{
    let (word, name, wanted) = (word.unwrap_or(""), option.name(), option.wanted());
    let message = format!(in alloc; "invalid value '{word}' for '{name}': {wanted}")?;
    invalid_value(random(alloc), "tltool random", message.as_str())
}

/// The error of a word of the command that judges all links together, or each by itself.
fn wrong_search(alloc: Global, together: bool, message: &str) -> Result<clap::Error, AllocError>
    ensures { IfOk result (λ error. kind_of error ≡ ErrorKind.InvalidValue) }
{
    if together {
        invalid_value(coherent(alloc), "tltool coherent", message)
    } else {
        invalid_value(monitor(alloc), "tltool monitor", message)
    }
}

/// The error of a word of `--all` that is no number of lines.
pub(crate) fn wrong_number(
    alloc: Global,
    together: bool,
    word: &str,
) -> Result<clap::Error, AllocError>
    ensures { IfOk result (λ error. status_of_usage error ≡ 2) }
{
    let message = format!(in alloc; "invalid value '{word}' for '--all <N>': {ALL_WANTED}")?;
    wrong_search(alloc, together, message.as_str())
}

/// The error of a word of the command of this name, which has `--allow`.
fn wrong_allowance(alloc: Global, name: &str, message: &str) -> Result<clap::Error, AllocError>
    ensures { IfOk result (λ error. kind_of error ≡ ErrorKind.InvalidValue) }
{
    match name {
        "explain" => invalid_value(explain(alloc), "tltool explain", message),
        "chart" => invalid_value(chart(alloc), "tltool chart", message),
        "coherent" => wrong_search(alloc, true, message),
        _ => wrong_search(alloc, false, message),
    }
}

/// The error of a word of `--allow` that names no liberties.
pub(crate) fn wrong_liberties(
    alloc: Global,
    name: &str,
    word: Option<&str>,
) -> Result<clap::Error, AllocError>
    ensures { IfOk result (λ error. status_of_usage error ≡ 2) }
{
    let word = word.unwrap_or("");
    let wanted = LIBERTIES_WANTED;
    let message = format!(in alloc; "invalid value '{word}' for '--allow <LIBERTIES>': {wanted}")?;
    wrong_allowance(alloc, name, message.as_str())
}
