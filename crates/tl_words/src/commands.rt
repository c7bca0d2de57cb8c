//! The program's commands, with their options, as `clap` reads them.

ghost use Rattle.std.specs.Prelude.{◌≡◌, IfOk, codes, true, false};
ghost use Rattle.clap.specs.Words.{App, app_of, new_app, new_rule, rule_of, with_rule, with_subcommand};
ghost use Rattle.clap.specs.declared.builder.command.Command.TheViews.{out-Command};
ghost use Rattle.tl_words.specs.Tool.{chart_of, charting_of, coherent_of, cover_of};
ghost use Rattle.tl_words.specs.Tool.{covering_of, decode_of, drawing_of, explain_of, several_rule};
ghost use Rattle.tl_words.specs.Tool.{explaining_of, judging_of, monitor_of, playing_of, random_of, reading_of, run_of};
ghost use Rattle.tl_words.specs.Tool.{flag_rule, sizing_of, tool_of, valued_rule, with_reports};

use crate::help;
use clap::{Arg, ArgAction};
use std::alloc::{AllocError, Global};

/// The help on FILE.
const FILE_HELP: &str = "File to read [default: standard input]; `-` is an ordinary file name";

/// The help on FILE for a command that reads several.
const FILES_HELP: &str =
    "Files to read, whose counts are added [default: standard input]; `-` is an ordinary file name";

/// The help on FILE for `explain`.
const EXPLAINED_HELP: &str =
    "Trace to explain, which must not be a pipe, since it is read twice; or, if there is no such file, a code";

/// The version, with the logic of the toolchain that proved it.
const VERSION: &str = "1.0.0\nproved with Rattle, logic dac8208d650f15bf";

/// A command with its name, a sentence about it, and the help after its options.
fn named<'a>(
    alloc: Global,
    name: &'a str,
    about: &'static str,
    after_help: &'static str,
) -> clap::Command<'a>
    ensures app { app_of result ≡ new_app name.entry.now }
    ensures local { (out-Command result).has_globals ≡ false }
{
    clap::Command::new(alloc, name)
        .about(about)
        .after_help(after_help)
}

/// Adds an argument to a command.
fn with_argument<'a>(
    command: clap::Command<'a>,
    argument: Arg<'a>,
) -> Result<clap::Command<'a>, AllocError>
    requires { ((out-Command command).has_globals ≡ false) × (argument.global ≡ false) }
    ensures app { IfOk result (λ c. app_of c ≡ with_rule (app_of command.entry) (rule_of argument.entry)) }
    ensures local { IfOk result (λ c. (out-Command c).has_globals ≡ false) }
{
    command.arg(argument)
}

/// Adds three arguments to a command.
fn with_three<'a>(
    command: clap::Command<'a>,
    first: Arg<'a>,
    second: Arg<'a>,
    third: Arg<'a>,
) -> Result<clap::Command<'a>, AllocError>
    requires command { (out-Command command).has_globals ≡ false }
    requires first { first.global ≡ false }
    requires second { second.global ≡ false }
    requires third { third.global ≡ false }
    ensures app { IfOk result (λ c. app_of c ≡ with_rule (with_rule (with_rule (app_of command.entry)
        (rule_of first.entry)) (rule_of second.entry)) (rule_of third.entry)) }
    ensures local { IfOk result (λ c. (out-Command c).has_globals ≡ false) }
{
    let command = match with_argument(command, first) {
        Ok(command) => command,
        Err(error) => {
            drop(second);
            drop(third);
            return Err(error);
        }
    };
    match with_argument(command, second) {
        Ok(command) => with_argument(command, third),
        Err(error) => {
            drop(third);
            Err(error)
        }
    }
}

/// Adds a subcommand to a command, if there was memory for it.
fn with_subcommand<'a>(
    command: clap::Command<'a>,
    subcommand: Result<clap::Command<'a>, AllocError>,
) -> Result<clap::Command<'a>, AllocError>
    requires { IfOk subcommand (λ s. (out-Command s).has_globals ≡ false) }
    ensures { (above below : App) → app_of command.entry ≡ above → IfOk subcommand.entry (λ s. app_of s ≡ below) →
        IfOk result (λ c. app_of c ≡ with_subcommand above below.top) }
{
    match subcommand {
        Ok(subcommand) => command.subcommand(subcommand),
        Err(error) => {
            drop(command);
            Err(error)
        }
    }
}

/// `tltool decode`.
pub fn decode<'a>(alloc: Global) -> Result<clap::Command<'a>, AllocError>
    ensures app { IfOk result (λ c. app_of c ≡ decode_of) }
    ensures local { IfOk result (λ c. (out-Command c).has_globals ≡ false) }
{
    let wide = flag(alloc, "wide", help::WIDE);
    let width = valued(alloc, "width", "BYTES", help::DECODED_WIDTH);
    let decode = named(
        alloc,
        "decode",
        "Writes a readable line for each beat line of FILE",
        help::DECODE,
    );
    with_three(decode, wide, width, file(alloc, FILE_HELP))
}

/// Adds to a command that judges: its liberties, with this help on `--allow`, and its reports.
fn with_reports<'a>(
    alloc: Global,
    command: clap::Command<'a>,
    allow: &'static str,
) -> Result<clap::Command<'a>, AllocError>
    requires { (out-Command command).has_globals ≡ false }
    ensures app { IfOk result (λ c. app_of c ≡ with_reports (app_of command.entry)) }
    ensures local { IfOk result (λ c. (out-Command c).has_globals ≡ false) }
{
    let allow = valued(alloc, "allow", "LIBERTIES", allow);
    let all = valued(alloc, "all", "N", help::ALL);
    let report = valued(alloc, "report", "FILE", help::REPORT);
    let command = with_three(command, allow, all, report)?;
    with_argument(command, valued(alloc, "junit", "FILE", help::JUNIT))
}

/// `tltool monitor`.
pub fn monitor<'a>(alloc: Global) -> Result<clap::Command<'a>, AllocError>
    ensures app { IfOk result (λ c. app_of c ≡ monitor_of) }
    ensures local { IfOk result (λ c. (out-Command c).has_globals ≡ false) }
{
    let monitor = named(
        alloc,
        "monitor",
        "Checks each link of a recorded trace: writes `clean N` for N beats, or the first line at fault",
        help::TRACE,
    );
    let monitor = with_reports(alloc, monitor, help::ALLOW)?;
    with_argument(monitor, file(alloc, FILE_HELP))
}

/// `tltool coherent`.
pub fn coherent<'a>(alloc: Global) -> Result<clap::Command<'a>, AllocError>
    ensures app { IfOk result (λ c. app_of c ≡ coherent_of) }
    ensures local { IfOk result (λ c. (out-Command c).has_globals ≡ false) }
{
    let coherent = named(
        alloc,
        "coherent",
        "Checks all links of a manager together: writes `coherent N` for N beats, or the first line at fault",
        help::TOGETHER,
    );
    let coherent = with_reports(alloc, coherent, help::ALLOW)?;
    with_argument(coherent, file(alloc, FILE_HELP))
}

/// `tltool explain`.
pub fn explain<'a>(alloc: Global) -> Result<clap::Command<'a>, AllocError>
    ensures app { IfOk result (λ c. app_of c ≡ explain_of) }
    ensures local { IfOk result (λ c. (out-Command c).has_globals ≡ false) }
{
    let coherent = flag(alloc, "coherent", help::COHERENT);
    let allow = valued(alloc, "allow", "LIBERTIES", help::ALLOW);
    let explain = named(
        alloc,
        "explain",
        "Writes the verdict of `monitor` on FILE with its reasons, or says what a code means",
        help::EXPLAIN,
    );
    let times = valued(alloc, "times", "FILE", help::TIMES);
    let explain = with_three(explain, coherent, allow, times)?;
    with_argument(explain, file(alloc, EXPLAINED_HELP))
}

/// `tltool chart`.
pub fn chart<'a>(alloc: Global) -> Result<clap::Command<'a>, AllocError>
    ensures app { IfOk result (λ c. app_of c ≡ chart_of) }
    ensures local { IfOk result (λ c. (out-Command c).has_globals ≡ false) }
{
    let chart = named(
        alloc,
        "chart",
        "Draws the messages of a recorded trace as a sequence chart, in SVG",
        help::CHART,
    );
    let lines = valued(alloc, "lines", "A-B", help::LINES);
    let block = valued(alloc, "block", "BBB", help::BLOCK);
    let allow = valued(alloc, "allow", "LIBERTIES", help::ALLOW);
    let chart = with_three(chart, lines, block, allow)?;
    with_argument(chart, file(alloc, FILE_HELP))
}

/// `tltool cover`.
pub fn cover<'a>(alloc: Global) -> Result<clap::Command<'a>, AllocError>
    ensures app { IfOk result (λ c. app_of c ≡ cover_of) }
    ensures local { IfOk result (λ c. (out-Command c).has_globals ≡ false) }
{
    let tables = flag(alloc, "tables", help::TABLES);
    let json = flag(
        alloc,
        "json",
        "Write the counts and the tables as one JSON object",
    );
    let cover = named(
        alloc,
        "cover",
        "Counts the situations in which the messages of recorded traces begin",
        help::COVER,
    );
    with_three(cover, tables, json, files(alloc, FILES_HELP))
}

/// `tltool run`.
pub fn run<'a>(alloc: Global) -> Result<clap::Command<'a>, AllocError>
    ensures app { IfOk result (λ c. app_of c ≡ run_of) }
    ensures local { IfOk result (λ c. (out-Command c).has_globals ≡ false) }
{
    let trace = flag(
        alloc,
        "trace",
        "Write the beats that move as a trace, with its header",
    );
    let commits = flag(alloc, "commits", help::COMMITS);
    let run = named(
        alloc,
        "run",
        "Runs a schedule on a manager and its clients: writes the outcome of each event",
        help::RUN,
    );
    with_three(run, trace, commits, file(alloc, FILE_HELP))
}

/// The program with its commands that read traces.
fn reading<'a>(alloc: Global) -> Result<clap::Command<'a>, AllocError>
    ensures { IfOk result (λ c. app_of c ≡ reading_of) }
{
    let tool = clap::Command::new(alloc, "tltool")
        .about("Checks, explains and draws recorded TileLink traces, and runs schedules")
        .after_help(help::TOOL)
        .version(VERSION)
        .subcommand_required(true);
    let tool = with_subcommand(tool, decode(alloc))?;
    with_subcommand(tool, monitor(alloc))
}

/// The program with its commands that read traces, also all links together.
fn judging<'a>(alloc: Global) -> Result<clap::Command<'a>, AllocError>
    ensures { IfOk result (λ c. app_of c ≡ judging_of) }
{
    let tool = reading(alloc)?;
    with_subcommand(tool, coherent(alloc))
}

/// The program with its commands that read and explain traces.
fn explaining<'a>(alloc: Global) -> Result<clap::Command<'a>, AllocError>
    ensures { IfOk result (λ c. app_of c ≡ explaining_of) }
{
    let tool = judging(alloc)?;
    with_subcommand(tool, explain(alloc))
}

/// The program with its commands that read, explain and draw traces.
fn charting<'a>(alloc: Global) -> Result<clap::Command<'a>, AllocError>
    ensures { IfOk result (λ c. app_of c ≡ charting_of) }
{
    let tool = explaining(alloc)?;
    with_subcommand(tool, chart(alloc))
}

/// The program with its commands that read, explain and draw traces and report their situations.
fn covering<'a>(alloc: Global) -> Result<clap::Command<'a>, AllocError>
    ensures { IfOk result (λ c. app_of c ≡ covering_of) }
{
    let tool = charting(alloc)?;
    with_subcommand(tool, cover(alloc))
}

/// The program with its commands that read an input.
fn playing<'a>(alloc: Global) -> Result<clap::Command<'a>, AllocError>
    ensures { IfOk result (λ c. app_of c ≡ playing_of) }
{
    let tool = covering(alloc)?;
    with_subcommand(tool, run(alloc))
}

/// An option with a value.
fn valued<'a>(alloc: Global, name: &'a str, value: &'a str, help: &'a str) -> Arg<'a>
    ensures rule { rule_of result ≡ valued_rule name.entry.now }
    ensures local { result.global ≡ false }
{
    Arg::new(alloc, name)
        .long(name)
        .value_name(value)
        .help(help)
}

/// The argument FILE, with this help.
fn file<'a>(alloc: Global, help: &'static str) -> Arg<'a>
    ensures rule { rule_of result ≡ new_rule (codes "FILE") }
    ensures local { result.global ≡ false }
{
    Arg::new(alloc, "FILE").help(help)
}

/// The argument FILE, several times, with this help.
fn files<'a>(alloc: Global, help: &'static str) -> Arg<'a>
    ensures rule { rule_of result ≡ several_rule (codes "FILE") }
    ensures local { result.global ≡ false }
{
    file(alloc, help).action(ArgAction::Append)
}

/// An option without a value.
fn flag<'a>(alloc: Global, name: &'a str, help: &'a str) -> Arg<'a>
    ensures rule { rule_of result ≡ flag_rule name.entry.now }
    ensures local { result.global ≡ false }
{
    Arg::new(alloc, name)
        .long(name)
        .action(ArgAction::SetTrue)
        .help(help)
}

/// `random` with the options of its draw.
fn drawing<'a>(alloc: Global) -> Result<clap::Command<'a>, AllocError>
    ensures app { IfOk result (λ c. app_of c ≡ drawing_of) }
    ensures local { IfOk result (λ c. (out-Command c).has_globals ≡ false) }
{
    let seed = valued(
        alloc,
        "seed",
        "N",
        "Seed, 0 to 2^64 - 1: the same options write the same schedule",
    )
    .required(true);
    let events = valued(
        alloc,
        "events",
        "N",
        "Number of lines between the header and the last `drain` [default: 1000]",
    );
    let contend = valued(alloc, "contend", "N", help::CONTEND);
    let random = named(
        alloc,
        "random",
        "Writes a random schedule for `run`",
        help::RANDOM,
    );
    with_three(random, seed, events, contend)
}

/// The same with the options for the size of the world.
fn sizing<'a>(alloc: Global) -> Result<clap::Command<'a>, AllocError>
    ensures app { IfOk result (λ c. app_of c ≡ sizing_of) }
    ensures local { IfOk result (λ c. (out-Command c).has_globals ≡ false) }
{
    let drawing = drawing(alloc)?;
    let clients = valued(alloc, "clients", "LIST", help::CLIENTS);
    let blocks = valued(alloc, "blocks", "N", help::BLOCKS);
    let trackers = valued(alloc, "trackers", "N", help::TRACKERS);
    with_three(drawing, clients, blocks, trackers)
}

/// `tltool random`.
pub fn random<'a>(alloc: Global) -> Result<clap::Command<'a>, AllocError>
    ensures app { IfOk result (λ c. app_of c ≡ random_of) }
    ensures local { IfOk result (λ c. (out-Command c).has_globals ≡ false) }
{
    let sizing = sizing(alloc)?;
    let random = with_argument(sizing, valued(alloc, "width", "BYTES", help::WIDTH))?;
    with_argument(random, valued(alloc, "profile", "P", help::PROFILE))
}

/// The program with all its commands.
pub fn tool<'a>(alloc: Global) -> Result<clap::Command<'a>, AllocError>
    ensures { IfOk result (λ c. app_of c ≡ tool_of) }
{
    let tool = playing(alloc)?;
    with_subcommand(tool, random(alloc))
}
