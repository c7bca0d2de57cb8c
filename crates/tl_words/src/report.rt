//! Reads the words of a judgement with a report.

ghost use Rattle.std.specs.Prelude.{◌≡◌, IfOk, IfErr, true, false, List, bytes_eq, codes, option_map};
ghost use Rattle.clap.specs.Words.{Row, first_of, found_of, rows_of};
ghost use Rattle.tl_words.specs.Refused.{IsFaultOf};
ghost use Rattle.tl_words.specs.Reports.{AreGiven};
ghost use Rattle.tl_words.specs.Tool.{AreAllowedIn, IsTaskOf, is_reported, is_wide};

use crate::words::{WordsFault, copied, together_named};
use crate::wrong_words::{wrong_number, wrong_words};
use clap::ArgMatches;
use std::alloc::Global;
use tl_command::search::inquiry_named;
use tl_command::task::Task;
use tl_params::liberties::Liberties;

/// The words of a judgement with a report.
#[derive(Clone, Copy)]
struct ReportWords<'a> {
    all: Option<&'a str>,
    file: Option<&'a str>,
    report: Option<&'a str>,
    junit: Option<&'a str>,
}

/// Whether a judgement is reported.
pub(crate) fn is_reported(found: &ArgMatches) -> bool
    ensures { result ≡ is_reported (rows_of (found_of found.now)) }
{
    found.get_str("report").is_some() || found.get_str("junit").is_some()
}

/// The report task of these words, with these liberties of the links beyond those of the header. A word of `--all` that
/// has no meaning is a `Usage`.
fn reported(
    alloc: Global,
    name: &str,
    allow: Liberties,
    words: &ReportWords,
) -> Result<Task, WordsFault>
    ensures read { IfOk result (λ task. (rows : List Row) → AreGiven rows words.now → is_reported rows ≡ true →
        AreAllowedIn rows allow → IsTaskOf name.now rows task) }
    ensures wrong { IfErr result (λ fault. (rows : List Row) → AreGiven rows words.now → is_reported rows ≡ true →
        bytes_eq name.now (codes "random") ≡ false → bytes_eq name.now (codes "chart") ≡ false →
        bytes_eq name.now (codes "cover") ≡ false → is_wide name.now rows ≡ false →
        IsFaultOf name.now rows fault) }
{
    let Some(together) = together_named(name) else {
        return Err(WordsFault::Usage(wrong_words(alloc, name, None)?));
    };
    let Some(inquiry) = inquiry_named(together, words.all, allow) else {
        let word = words.all.unwrap_or("");
        return Err(WordsFault::Usage(wrong_number(alloc, together, word)?));
    };
    let file = copied(alloc, words.file)?;
    let report = copied(alloc, words.report)?;
    let junit = copied(alloc, words.junit)?;
    Ok(Task::Report {
        inquiry,
        file,
        report,
        junit,
    })
}

/// The report task of the entries of a command, with these liberties of the links beyond those of the header.
pub(crate) fn report(
    alloc: Global,
    name: &str,
    allow: Liberties,
    found: &ArgMatches,
) -> Result<Task, WordsFault>
    requires random { bytes_eq name.now (codes "random") ≡ false }
    requires chart { bytes_eq name.now (codes "chart") ≡ false }
    requires cover { bytes_eq name.now (codes "cover") ≡ false }
    requires plain { is_wide name.now (rows_of (found_of found.now)) ≡ false }
    requires reported { is_reported (rows_of (found_of found.now)) ≡ true }
    requires allowed { AreAllowedIn (rows_of (found_of found.now)) allow }
    ensures read { IfOk result (IsTaskOf name.now (rows_of (found_of found.now))) }
    ensures wrong { IfErr result (IsFaultOf name.now (rows_of (found_of found.now))) }
{
    let words = ReportWords {
        all: found.get_str("all"),
        file: found.get_str("FILE"),
        report: found.get_str("report"),
        junit: found.get_str("junit"),
    };
    reported(alloc, name, allow, &words)
}
