//! Reads the words of a chart.

ghost use Rattle.std.specs.Prelude.{◌≡◌, IfOk, IfErr, codes};
ghost use Rattle.clap.specs.Words.{found_of, rows_of};
ghost use Rattle.tl_words.specs.Refused.{IsFaultOf, status_of_usage};
ghost use Rattle.tl_words.specs.Tool.{IsTaskOf};

use crate::commands::chart;
use crate::usage::invalid_value;
use crate::words::{WordsFault, copied};
use crate::wrong_words::wrong_liberties;
use clap::ArgMatches;
use std::alloc::{AllocError, Global};
use tl_command::chart::{ChartOption, range_named};
use tl_command::liberties::allowed_named;
use tl_command::task::Task;

/// The error of an option of `chart` whose word has no meaning.
fn wrong_range(
    alloc: Global,
    option: ChartOption,
    word: Option<&str>,
) -> Result<clap::Error, AllocError>
    ensures { IfOk result (λ error. status_of_usage error ≡ 2) }
{
    let (word, name, wanted) = (word.unwrap_or(""), option.name(), option.wanted());
    let message = format!(in alloc; "invalid value '{word}' for '{name}': {wanted}")?;
    invalid_value(chart(alloc), "tltool chart", message.as_str())
}

/// The word of an option of `chart`.
fn word_of<'a>(
    option: ChartOption,
    lines: Option<&'a str>,
    block: Option<&'a str>,
) -> Option<&'a str> {
    match option {
        ChartOption::Lines => lines,
        ChartOption::Block => block,
    }
}

/// The chart task of the entries of `chart`. A word that has no meaning is a `Usage`.
pub(crate) fn draw_chart(alloc: Global, found: &ArgMatches) -> Result<Task, WordsFault>
    ensures drawn { IfOk result (IsTaskOf (codes "chart") (rows_of (found_of found.now))) }
    ensures wrong { IfErr result (IsFaultOf (codes "chart") (rows_of (found_of found.now))) }
{
    let lines = found.get_str("lines");
    let block = found.get_str("block");
    let word = found.get_str("allow");
    let name_of_file = found.get_str("FILE");
    let Some(allow) = allowed_named(word) else {
        let error = wrong_liberties(alloc, "chart", word)?;
        return Err(WordsFault::Usage(error));
    };
    match range_named(lines, block) {
        Ok(range) => {
            let file = copied(alloc, name_of_file)?;
            Ok(Task::Chart { range, allow, file })
        }
        Err(option) => {
            let error = wrong_range(alloc, option, word_of(option, lines, block))?;
            Err(WordsFault::Usage(error))
        }
    }
}
