//! Reads the program's words: `tltool decode [--wide] [--width BYTES] [FILE]`, `tltool monitor [--allow LIBERTIES] [--all N]
//! [--report FILE] [--junit FILE] [FILE]`, `tltool coherent` with the same options, `tltool explain [--coherent]
//! [--allow LIBERTIES] [--times FILE] FILE`, `tltool chart [--lines A-B] [--block BBB] [--allow LIBERTIES]
//! [FILE]`, `tltool cover [--tables] [--json] [FILE..]`, `tltool run [--trace] [--commits] [FILE]`, `tltool random --seed N`
//! with its options, and those that ask for help or the version.

ghost use Rattle.std.specs.Prelude.{◌≡◌, IfOk, IfErr, true, false};
ghost use Rattle.std.specs.Prelude.{List, Some, bytes_eq, codes, map, option_map};
ghost use Rattle.std.specs.String.{string_bytes};
ghost use Rattle.clap.specs.Words.{Row, Text, app_of, first_of, found_of, is_simple_and_free};
ghost use Rattle.clap.specs.Words.{kind_of, rows_of, subcommand_of};
ghost use Rattle.tl_words.specs.Refused.{IsFaultOf, IsRefusal, usage_status, words_fault};
ghost use Rattle.tl_command.specs.statement.RandomWords.{words_of};
ghost use Rattle.tl_words.specs.Tool.{AreAllowedIn, IsTaskOf, command_named, flag_named, is_reported, is_wide};
ghost use Rattle.tl_words.specs.Tool.{together_named, tool_of, words_in};

use crate::chart_words::draw_chart;
use crate::commands::tool;
use crate::cover_words::tell_covered;
use crate::report::{is_reported, report};
use crate::run_words::run_form;
use crate::wide_words::{decode_wide, is_wide};
use crate::wrong_words::{wrong_liberties, wrong_number, wrong_option, wrong_width, wrong_words};
use clap::ArgMatches;
use clap::error::ErrorKind;
use std::alloc::{AllocError, Global};
use tl_command::command::Command;
use tl_command::liberties::allowed_named;
use tl_command::random_words::{RandomWords, options_named};
use tl_command::search::{Aim, behind_named};
use tl_command::task::Task;
use tl_command::width_word::width_named;
use tl_params::liberties::Liberties;

/// The reason why the words give no task: they have another form or ask for help, or there is no memory.
#[derive(Debug, Drop)]
pub enum WordsFault {
    Usage(clap::Error),
    Memory,
}

impl From<AllocError> for WordsFault {
    ghost use Rattle.tl_words.specs.declared.words.WordsFault.{WordsFault};

    ghost from_gives = { λ _ fault. fault ≡ WordsFault.Memory };

    fn from(_error: AllocError) -> WordsFault {
        WordsFault::Memory
    }
}

impl From<clap::Error> for WordsFault {
    ghost from_gives = { λ error fault. fault ≡ words_fault error };

    fn from(error: clap::Error) -> WordsFault {
        if matches!(error.kind(), ErrorKind::OutOfMemory) {
            WordsFault::Memory
        } else {
            WordsFault::Usage(error)
        }
    }
}

/// The exit status of a `Usage`: 0 if the words ask for help or the version, otherwise 2.
pub fn usage_status(error: &clap::Error) -> u8
    ensures { result ≡ usage_status (kind_of error.now) }
{
    match error.kind() {
        ErrorKind::DisplayHelp | ErrorKind::DisplayVersion => 0,
        _ => 2,
    }
}

/// Whether a flag is given, by its word.
pub(crate) fn flag_named(word: Option<&str>) -> bool
    ensures { result ≡ flag_named (option_map (λ s. s.now) word.entry) }
{
    match word {
        None => false,
        Some(word) => word == "true",
    }
}

/// The command of this name, by the words of its width, of its flags and of its file.
fn command_named(
    name: &str,
    width: Option<&str>,
    trace: Option<&str>,
    commits: Option<&str>,
    coherent: Option<&str>,
    file: Option<&str>,
) -> Option<Command>
    ensures { result ≡ command_named name.now (option_map (λ s. s.now) width.entry)
        (option_map (λ s. s.now) trace.entry) (option_map (λ s. s.now) commits.entry)
        (option_map (λ s. s.now) coherent.entry) (option_map (λ s. s.now) file.entry) }
{
    match name {
        "decode" => {
            let width = width_named(width)?;
            Some(Command::Decode { width })
        }
        "monitor" => Some(Command::Monitor),
        "coherent" => Some(Command::Coherent),
        "explain" => match file {
            None => None,
            Some(_) => Some(Command::Explain {
                coherent: flag_named(coherent),
            }),
        },
        "run" => {
            let form = run_form(flag_named(trace), flag_named(commits))?;
            Some(Command::Run { form })
        }
        _ => None,
    }
}

/// Copies a text, if there is one.
pub(crate) fn copied(alloc: Global, text: Option<&str>) -> Result<Option<String>, AllocError>
    ensures { IfOk result (λ r. option_map string_bytes r ≡ option_map (λ s. s.now) text.entry) }
{
    match text {
        None => Ok(None),
        Some(text) => Ok(Some(String::from_str(alloc, text)?)),
    }
}

/// `clap`'s statements on simple command lines hold for the program's.
pub fn is_simple_command()
    ensures { is_simple_and_free tool_of ≡ true }
{}

/// The words of the options of `random`.
fn random_words<'a>(found: &ArgMatches<'a>) -> RandomWords<'a>
    ensures { words_of result ≡ words_in (rows_of (found_of found.now)) }
{
    RandomWords {
        seed: found.get_str("seed"),
        events: found.get_str("events"),
        clients: found.get_str("clients"),
        blocks: found.get_str("blocks"),
        trackers: found.get_str("trackers"),
        width: found.get_str("width"),
        profile: found.get_str("profile"),
        contend: found.get_str("contend"),
    }
}

/// The draw task of the entries of `random`. A word that has no meaning is a `Usage`.
fn draw(alloc: Global, found: &ArgMatches) -> Result<Task, WordsFault>
    ensures drawn { IfOk result (IsTaskOf (codes "random") (rows_of (found_of found.now))) }
    ensures wrong { IfErr result (IsFaultOf (codes "random") (rows_of (found_of found.now))) }
{
    let words = random_words(found);
    match options_named(&words) {
        Ok(options) => Ok(Task::Draw { options }),
        Err(option) => {
            let error = wrong_option(alloc, option, words.word_of(option))?;
            Err(WordsFault::Usage(error))
        }
    }
}

/// Whether the command of this name judges all links together. None if it doesn't search.
pub(crate) fn together_named(name: &str) -> Option<bool>
    ensures { result ≡ together_named name.now }
{
    match name {
        "monitor" => Some(false),
        "coherent" => Some(true),
        _ => None,
    }
}

/// The search task of the word of `--all`, with these liberties of the links beyond those of the header.
fn search(
    alloc: Global,
    name: &str,
    allow: Liberties,
    word: &str,
    name_of_file: Option<&str>,
) -> Result<Task, WordsFault>
    ensures read { IfOk result (λ task. (rows : List Row) → first_of (codes "all") rows ≡ Some word.now →
        first_of (codes "FILE") rows ≡ option_map (λ s. s.now) name_of_file.entry → is_reported rows ≡ false →
        AreAllowedIn rows allow → IsTaskOf name.now rows task) }
    ensures wrong { IfErr result (λ fault. (rows : List Row) → first_of (codes "all") rows ≡ Some word.now →
        bytes_eq name.now (codes "random") ≡ false → bytes_eq name.now (codes "chart") ≡ false →
        bytes_eq name.now (codes "cover") ≡ false → is_wide name.now rows ≡ false →
        is_reported rows ≡ false → IsFaultOf name.now rows fault) }
{
    let Some(together) = together_named(name) else {
        return Err(WordsFault::Usage(wrong_width(alloc, None)?));
    };
    let Some(behind) = behind_named(word) else {
        return Err(WordsFault::Usage(wrong_number(alloc, together, word)?));
    };
    let file = copied(alloc, name_of_file)?;
    Ok(Task::Search {
        aim: Aim {
            together,
            behind,
            allow,
        },
        file,
    })
}

/// The task of the entries of a command that reads and reports nothing, with these liberties of the links beyond those
/// of the header.
fn read(alloc: Global, name: &str, allow: Liberties, found: &ArgMatches) -> Result<Task, WordsFault>
    requires random { bytes_eq name.now (codes "random") ≡ false }
    requires chart { bytes_eq name.now (codes "chart") ≡ false }
    requires cover { bytes_eq name.now (codes "cover") ≡ false }
    requires plain { is_wide name.now (rows_of (found_of found.now)) ≡ false }
    requires unreported { is_reported (rows_of (found_of found.now)) ≡ false }
    requires allowed { AreAllowedIn (rows_of (found_of found.now)) allow }
    ensures read { IfOk result (IsTaskOf name.now (rows_of (found_of found.now))) }
    ensures wrong { IfErr result (IsFaultOf name.now (rows_of (found_of found.now))) }
{
    let width = found.get_str("width");
    let trace = found.get_str("trace");
    let commits = found.get_str("commits");
    let coherent = found.get_str("coherent");
    let name_of_file = found.get_str("FILE");
    let name_of_times = found.get_str("times");
    if let Some(word) = found.get_str("all") {
        return search(alloc, name, allow, word, name_of_file);
    }
    let Some(command) = command_named(name, width, trace, commits, coherent, name_of_file) else {
        return Err(WordsFault::Usage(wrong_words(alloc, name, width)?));
    };
    let file = copied(alloc, name_of_file)?;
    let times = copied(alloc, name_of_times)?;
    Ok(Task::Read {
        command,
        allow,
        file,
        times,
    })
}

/// The task of the entries of a command that reads.
fn asked(alloc: Global, name: &str, found: &ArgMatches) -> Result<Task, WordsFault>
    requires random { bytes_eq name.now (codes "random") ≡ false }
    requires chart { bytes_eq name.now (codes "chart") ≡ false }
    requires cover { bytes_eq name.now (codes "cover") ≡ false }
    requires plain { is_wide name.now (rows_of (found_of found.now)) ≡ false }
    ensures read { IfOk result (IsTaskOf name.now (rows_of (found_of found.now))) }
    ensures wrong { IfErr result (IsFaultOf name.now (rows_of (found_of found.now))) }
{
    let word = found.get_str("allow");
    let Some(allow) = allowed_named(word) else {
        return Err(WordsFault::Usage(wrong_liberties(alloc, name, word)?));
    };
    if is_reported(found) {
        report(alloc, name, allow, found)
    } else {
        read(alloc, name, allow, found)
    }
}

/// The task of the subcommand of this name, with these entries.
fn task_named(alloc: Global, name: &str, found: &ArgMatches) -> Result<Task, WordsFault>
    ensures given { IfOk result (IsTaskOf name.now (rows_of (found_of found.now))) }
    ensures wrong { IfErr result (IsFaultOf name.now (rows_of (found_of found.now))) }
{
    if name == "random" {
        draw(alloc, found)
    } else if name == "chart" {
        draw_chart(alloc, found)
    } else if name == "cover" {
        tell_covered(alloc, found)
    } else if is_wide(name, found) {
        decode_wide(alloc, found)
    } else {
        asked(alloc, name, found)
    }
}

/// The task of the program's words, as `invocation` gives it, by the program's own commands.
fn task_by<'a>(
    alloc: Global,
    tool: &mut clap::Command<'a>,
    words: &'a [String],
) -> Result<Task, WordsFault>
    requires { app_of tool.old ≡ tool_of }
    ensures refused { IfErr result (IsRefusal (map string_bytes words.entry.now)) }
    ensures given { IfOk result (λ task. (name : Text) × (rows : List Row)
        × (subcommand_of tool_of (map string_bytes words.entry.now) ≡ Some (name, rows))
        × IsTaskOf name rows task) }
{
    let matches = tool.try_get_matches_from_mut(words)?;
    let Some((name, found)) = matches.subcommand() else {
        drop(matches);
        let error = tool.error(ErrorKind::MissingSubcommand, "a subcommand is required")?;
        return Err(WordsFault::Usage(error));
    };
    let task = task_named(alloc, name, found);
    drop(matches);
    task
}

/// The task of the program's words, its own name first. Words of another form and a request for help or the version are
/// a `Usage`, with the text of `clap`. Its exit status is 2 if `clap` takes the words.
pub fn invocation(alloc: Global, words: &[String]) -> Result<Task, WordsFault>
    ensures refused { IfErr result (IsRefusal (map string_bytes words.now)) }
    ensures given { IfOk result (λ task. (name : Text) × (rows : List Row)
        × (subcommand_of tool_of (map string_bytes words.now) ≡ Some (name, rows))
        × IsTaskOf name rows task) }
{
    let mut tool = tool(alloc)?;
    let task = task_by(alloc, &mut tool, words);
    drop(tool);
    task
}
