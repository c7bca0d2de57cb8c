//! `tltool`: reads, judges and draws TileLink traces, and writes and plays schedules.
#![tactic(auto)]

ghost use Rattle.std.specs.Prelude.{◌≡◌, IfErr, IfOk, OnOk, OnErr, Err};
ghost use Rattle.tl_lines.specs.statement.Exit.{exit_status};
ghost use Rattle.tltool.specs.Ended.{EndsAllowed, EndsAs, EndsDrawn, EndsExplained, EndsFound, EndsOver, IsRefused};
ghost use Rattle.tltool.specs.Ended.{explain_status};

mod chart;
mod commits;
mod cover;
mod decode;
mod front;
mod input;
mod report;
mod times;
mod wide;
mod wide_commits;

use chart::chart;
use commits::{explain_commits_over, is_commits};
use cover::cover;
use decode::decode;
use front::front_of_file;
use input::{Input, open};
use report::report;
use std::fs::File;
use std::io::{Read, Write};
use std::process::ExitCode;
use std::{env, fs, io};
use times::explain_timed;
use tl_command::random::Options;
use tl_command::search::Aim;
use tl_command::task::Task;
use tl_engine::command::Command;
use tl_engine::tool::run_tool;
use tl_lines::output::{write_all, write_changed, write_once, write_open_fault};
use tl_lines::status::{Status, ToolFault, exit_of};
use tl_links::allowing::append_allowed;
use tl_links::run::run_links;
use tl_params::liberties::Liberties;
use tl_random::schedule::write_schedule;
use tl_reasons::explain::explain_input;
use tl_reasons::explain_fault::ExplainFault;
use tl_reasons::named::tell_named;
use tl_report::find::find_all;
use tl_wide_event_lines::run::run_any;
use tl_words::words::{WordsFault, invocation, usage_status};
use wide::{explain_wide_over, is_wide};
use wide_commits::{explain_wide_events_over, is_wide_commits};

/// The exit status of a run. Its fault is printed on standard error.
pub(crate) fn told(rt: &HostRuntime, outcome: Result<Status, ToolFault>) -> u8
    ensures { result ≡ exit_status outcome }
{
    if let Err(fault) = outcome {
        let _ = rt.eprintln(fault);
    }
    exit_of(&outcome)
}

/// The exit status of a usage text, which was printed or couldn't be.
fn printed(rt: &HostRuntime, status: u8, printing: io::Result<()>) -> u8
    ensures ok { OnOk printing (result ≡ status) }
    ensures err { OnErr printing (result ≡ exit_status (Err ToolFault.Write)) }
{
    match printing {
        Ok(()) => status,
        Err(_) => told(rt, Err(ToolFault::Write)),
    }
}

/// The exit status if the words give no command. The fault or the usage text is printed.
fn refused(rt: &HostRuntime, fault: WordsFault) -> u8
    ensures { IsRefused fault result }
{
    match fault {
        WordsFault::Memory => told(rt, Err(ToolFault::Memory)),
        WordsFault::Usage(error) => printed(rt, usage_status(&error), error.print(rt)),
    }
}

/// Runs a command over an input, and returns the exit status. For `monitor`, `coherent` and `explain` these liberties
/// are allowed beyond those that the header names. For `explain` only the verdict is written.
fn run_over<R: Read, W: Write>(
    rt: &HostRuntime,
    command: Command,
    allow: Liberties,
    input: &mut R,
    output: &mut W,
) -> u8
    ensures { EndsAs command allow (R.remaining input.old) (R.remaining input.new) (W.contents output.old)
        (W.contents output.new) result }
{
    match command {
        Command::Monitor => told(rt, run_any(rt.alloc(), false, allow, input, output)),
        Command::Coherent => told(rt, run_any(rt.alloc(), true, allow, input, output)),
        Command::Explain { coherent } => {
            told(rt, run_links(rt.alloc(), coherent, allow, input, output))
        }
        _ => told(rt, run_tool(rt.alloc(), command, input, output)),
    }
}

/// Says on standard error that a file can't be opened. Returns the exit status.
pub(crate) fn unopened(rt: &HostRuntime, name: &str) -> u8
    ensures { result ≡ exit_status (Err ToolFault.Read) }
{
    let _ = write_open_fault(name, &mut rt.stderr());
    exit_of(&Err(ToolFault::Read))
}

/// Runs a command over an input that was opened. Otherwise the error is the exit status. Returns the exit status.
fn run_opened<R: Read + Drop, W: Write>(
    rt: &HostRuntime,
    command: Command,
    allow: Liberties,
    opened: Result<R, u8>,
    output: &mut W,
) -> u8
    ensures opened { IfOk opened (λ input. EndsOver command allow (R.remaining input) (W.contents output.old)
        (W.contents output.new) result) }
    ensures unopened { IfErr opened (λ status. result ≡ status) }
{
    match opened {
        Ok(mut input) => run_over(rt, command, allow, &mut input, output),
        Err(status) => status,
    }
}

/// Writes the explanation of the rule or fault of this name, or says that there is no such file. Returns the exit
/// status.
fn explain_name<W: Write>(rt: &HostRuntime, name: &str, output: &mut W) -> u8 {
    let mut text = Vec::new(rt.alloc());
    match tell_named(name, &mut text) {
        Err(_) => told(rt, Err(ToolFault::Memory)),
        Ok(false) => unopened(rt, name),
        Ok(true) => match write_all(output, &text) {
            Ok(()) => 0,
            Err(fault) => told(rt, Err(fault)),
        },
    }
}

/// Whether a file can be read only once, such as a pipe or a terminal. A file on a disk can't, nor a directory, whose
/// reading fails.
fn is_read_once(file: &File) -> bool {
    match file.metadata() {
        Ok(metadata) => !metadata.is_file() && !metadata.is_dir(),
        Err(_) => false,
    }
}

/// The exit status of an explanation. Its fault is printed on standard error.
pub(crate) fn told_explained(
    rt: &HostRuntime,
    name: &str,
    outcome: Result<Status, ExplainFault>,
) -> u8
    ensures { result ≡ explain_status outcome }
{
    match outcome {
        Ok(status) => told(rt, Ok(status)),
        Err(ExplainFault::Tool(fault)) => told(rt, Err(fault)),
        Err(ExplainFault::Changed) => {
            let _ = write_changed(name, &mut rt.stderr());
            exit_of(&Err(ToolFault::Read))
        }
    }
}

/// Explains the file of this name, of which these are two readers. These liberties are allowed beyond those that its
/// header names. Returns the exit status.
fn explain_over<R: Read, S: Read, W: Write>(
    rt: &HostRuntime,
    coherent: bool,
    allow: Liberties,
    name: &str,
    first: &mut R,
    second: &mut S,
    output: &mut W,
) -> u8
    ensures { EndsExplained coherent allow (R.remaining first.old) (R.remaining first.new) (S.remaining second.old)
        (S.remaining second.new) (W.contents output.old) (W.contents output.new) result }
{
    let outcome = explain_input(rt.alloc(), coherent, allow, first, second, output);
    told_explained(rt, name, outcome)
}

/// Writes, after an explanation with this exit status, the further liberties that would allow the beat at fault.
/// Returns the exit status.
fn allow_over<R: Read, W: Write>(
    rt: &HostRuntime,
    explained: u8,
    allow: Liberties,
    input: &mut R,
    output: &mut W,
) -> u8
    ensures { EndsAllowed explained allow (R.remaining input.old) (R.remaining input.new) (W.contents output.old)
        (W.contents output.new) result }
{
    let mut text = Vec::new(rt.alloc());
    if let Err(fault) = append_allowed(rt.alloc(), allow, input, &mut text) {
        return told(rt, Err(fault));
    }
    match write_all(output, &text) {
        Ok(()) => explained,
        Err(fault) => told(rt, Err(fault)),
    }
}

/// Explains the file of this name, or the rule or fault of this name if there is no such file. These liberties are
/// allowed beyond those that the header names. Returns the exit status.
pub(crate) fn explain<W: Write>(
    rt: &HostRuntime,
    coherent: bool,
    allow: Liberties,
    name: &str,
    output: &mut W,
) -> u8 {
    let Ok(file) = fs::open(rt, name) else {
        return explain_name(rt, name, output);
    };
    if is_read_once(&file) {
        let _ = write_once(name, &mut rt.stderr());
        return exit_of(&Err(ToolFault::Read));
    }
    let mut first = Input::File(file);
    let mut second = match open(rt, Some(name)) {
        Ok(second) => second,
        Err(status) => return status,
    };
    let front = front_of_file(rt, name);
    if is_wide_commits(front.as_slice()) {
        return explain_wide_events_over(rt, coherent, allow, name, &mut first, &mut second, output);
    }
    if is_wide(front.as_slice()) {
        return explain_wide_over(rt, coherent, allow, name, &mut first, &mut second, output);
    }
    if is_commits(front.as_slice()) {
        return explain_commits_over(rt, coherent, allow, name, &mut first, &mut second, output);
    }
    let explained = explain_over(rt, coherent, allow, name, &mut first, &mut second, output);
    if explained != 1 || coherent {
        return explained;
    }
    match open(rt, Some(name)) {
        Ok(mut third) => allow_over(rt, explained, allow, &mut third, output),
        Err(status) => status,
    }
}

/// Runs a command over standard input, or over the file of this name. For `explain` the file of the name `times` has the
/// times of the trace's lines. Returns the exit status.
fn read(
    rt: &HostRuntime,
    command: Command,
    allow: Liberties,
    name: Option<String>,
    times: Option<String>,
) -> u8 {
    let mut output = io::writer(rt);
    match (command, name, times) {
        (Command::Explain { coherent }, Some(name), None) => {
            explain(rt, coherent, allow, name.as_str(), &mut output)
        }
        (Command::Explain { coherent }, Some(name), Some(times)) => {
            explain_timed(rt, coherent, allow, name.as_str(), times.as_str())
        }
        (_, name, _) => run_opened(rt, command, allow, open(rt, name.as_deref()), &mut output),
    }
}

/// Writes a random schedule, and returns the exit status.
fn draw<W: Write>(rt: &HostRuntime, options: &Options, output: &mut W) -> u8
    ensures { EndsDrawn options.now (W.contents output.old) (W.contents output.new) result }
{
    let written = write_schedule(rt.alloc(), options, output);
    told(rt, written.map(|_| Status::Clean))
}

/// Writes the lines at fault of a reader's input, and returns the exit status.
fn find_over<R: Read, W: Write>(rt: &HostRuntime, aim: Aim, input: &mut R, output: &mut W) -> u8
    ensures { EndsFound aim (R.remaining input.old) (R.remaining input.new) (W.contents output.old)
        (W.contents output.new) result }
{
    told(rt, find_all(rt.alloc(), aim, input, output))
}

/// Finds the lines at fault of the trace on standard input, or in the file of this name. Returns the exit status.
fn find(rt: &HostRuntime, aim: Aim, name: Option<String>) -> u8 {
    match open(rt, name.as_deref()) {
        Ok(mut input) => find_over(rt, aim, &mut input, &mut io::writer(rt)),
        Err(status) => status,
    }
}

/// Carries out the task of the program's words, and returns the exit status.
fn run(rt: &HostRuntime, task: Task) -> u8 {
    match task {
        Task::Read {
            command,
            allow,
            file,
            times,
        } => read(rt, command, allow, file, times),
        Task::DecodeWide { width, file } => decode(rt, width, file),
        Task::Search { aim, file } => find(rt, aim, file),
        Task::Report {
            inquiry,
            file,
            report: json,
            junit,
        } => report(rt, inquiry, file, json, junit),
        Task::Chart { range, allow, file } => chart(rt, range, allow, file),
        Task::Cover { form, files } => cover(rt, form, files.as_slice()),
        Task::Draw { options } => draw(rt, &options, &mut io::writer(rt)),
    }
}

/// The words of the program, its own name first.
fn words(rt: &HostRuntime) -> io::Result<Vec<String>> {
    Ok(env::args(rt)?.collect(rt.alloc())?)
}

fn main(rt: HostRuntime) -> ExitCode {
    let status = match words(&rt) {
        Err(_) => told(&rt, Err(ToolFault::Memory)),
        Ok(words) => match invocation(rt.alloc(), words.as_slice()) {
            Ok(task) => run(&rt, task),
            Err(fault) => refused(&rt, fault),
        },
    };
    ExitCode::from(status)
}
