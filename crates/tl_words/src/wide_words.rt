//! Reads the words of `decode` for wide beats.

ghost use Rattle.std.specs.Prelude.{◌≡◌, IfOk, IfErr, true, codes};
ghost use Rattle.clap.specs.Words.{first_of, found_of, rows_of};
ghost use Rattle.tl_words.specs.Refused.{IsFaultOf, status_of_usage};
ghost use Rattle.tl_words.specs.Tool.{IsTaskOf, flag_named, is_wide};

use crate::commands::decode;
use crate::usage::invalid_value;
use crate::words::{WordsFault, copied, flag_named};
use clap::ArgMatches;
use std::alloc::{AllocError, Global};
use tl_command::task::Task;
use tl_command::width_word::wide_width_named;

/// Whether the command of this name is `decode`, and reads wide beats.
pub(crate) fn is_wide(name: &str, found: &ArgMatches) -> bool
    ensures { result ≡ is_wide name.now (rows_of (found_of found.now)) }
{
    name == "decode" && flag_named(found.get_str("wide"))
}

/// The error of a word that names no width of wide beats.
fn wrong_wide_width(alloc: Global, word: Option<&str>) -> Result<clap::Error, AllocError>
    ensures { IfOk result (λ error. status_of_usage error ≡ 2) }
{
    let word = word.unwrap_or("");
    let message = format!(in alloc;
        "invalid value '{word}' for '--width <BYTES>': a wide beat carries 4, 8, 16, 32 or 64 bytes"
    )?;
    invalid_value(decode(alloc), "tltool decode", message.as_str())
}

/// The task of the entries of `decode` for wide beats. A word that names no width of them is a `Usage`.
pub(crate) fn decode_wide(alloc: Global, found: &ArgMatches) -> Result<Task, WordsFault>
    requires { flag_named (first_of (codes "wide") (rows_of (found_of found.now))) ≡ true }
    ensures read { IfOk result (IsTaskOf (codes "decode") (rows_of (found_of found.now))) }
    ensures wrong { IfErr result (IsFaultOf (codes "decode") (rows_of (found_of found.now))) }
{
    let word = found.get_str("width");
    let Some(width) = wide_width_named(word) else {
        return Err(WordsFault::Usage(wrong_wide_width(alloc, word)?));
    };
    let file = copied(alloc, found.get_str("FILE"))?;
    Ok(Task::DecodeWide { width, file })
}
