//! Reads the words that ask for the situations of traces.

ghost use Rattle.std.specs.Prelude.{◌≡◌, [], IfOk, IfErr, Some, codes, map, option_map, unwrap_or};
ghost use Rattle.std.specs.String.{string_bytes};
ghost use Rattle.clap.specs.Words.{found_of, rows_of};
ghost use Rattle.tl_words.specs.Refused.{IsFaultOf, status_of_usage};
ghost use Rattle.tl_words.specs.Tool.{IsTaskOf, form_in, form_of};

use crate::commands::cover;
use crate::usage::usage_error;
use crate::words::{WordsFault, flag_named};
use clap::ArgMatches;
use clap::error::ErrorKind;
use std::alloc::{AllocError, Global};
use tl_command::cover::CoverForm;
use tl_command::task::Task;

/// Copies texts.
fn copied_all(alloc: Global, texts: &[&str]) -> Result<Vec<String>, AllocError>
    ensures { IfOk result (λ r. map string_bytes r.items ≡ map (λ s. s.now) texts.entry.now) }
{
    let mut copies = Vec::new(alloc);
    for text in texts {
        copies.push(String::from_str(alloc, text)?)?;
    }
    Ok(copies)
}

/// Copies the words of an entry; none if there is no such entry.
fn copied_words(alloc: Global, words: Option<&[&str]>) -> Result<Vec<String>, AllocError>
    ensures { IfOk result (λ r. map string_bytes r.items
        ≡ unwrap_or (option_map (λ s. map (λ w. w.now) s.now) words.entry) []) }
{
    match words {
        None => Ok(Vec::new(alloc)),
        Some(words) => copied_all(alloc, words),
    }
}

/// The form of the report by its flags; None if both are given.
fn form_of(tables: bool, json: bool) -> Option<CoverForm>
    ensures { result ≡ form_of tables json }
{
    match (tables, json) {
        (false, false) => Some(CoverForm::Text),
        (true, false) => Some(CoverForm::Tables),
        (false, true) => Some(CoverForm::Json),
        (true, true) => None,
    }
}

/// The error of words that have both flags.
fn both_forms(alloc: Global) -> Result<clap::Error, AllocError>
    ensures { IfOk result (λ error. status_of_usage error ≡ 2) }
{
    usage_error(
        cover(alloc),
        "tltool cover",
        ErrorKind::ArgumentConflict,
        "the argument '--tables' cannot be used with '--json', which has the tables too",
    )
}

/// The form that the entries of `cover` ask for. Both flags are a `Usage`.
fn form_in(alloc: Global, found: &ArgMatches) -> Result<CoverForm, WordsFault>
    ensures formed { IfOk result (λ form. form_in (rows_of (found_of found.now)) ≡ Some form) }
    ensures wrong { IfErr result (IsFaultOf (codes "cover") (rows_of (found_of found.now))) }
{
    let tables = found.get_str("tables");
    let json = found.get_str("json");
    match form_of(flag_named(tables), flag_named(json)) {
        Some(form) => Ok(form),
        None => Err(WordsFault::Usage(both_forms(alloc)?)),
    }
}

/// The cover task of the entries of `cover`.
pub(crate) fn tell_covered(alloc: Global, found: &ArgMatches) -> Result<Task, WordsFault>
    ensures told { IfOk result (IsTaskOf (codes "cover") (rows_of (found_of found.now))) }
    ensures wrong { IfErr result (IsFaultOf (codes "cover") (rows_of (found_of found.now))) }
{
    let form = form_in(alloc, found)?;
    let names = found.get_strs("FILE");
    let files = copied_words(alloc, names)?;
    Ok(Task::Cover { form, files })
}
