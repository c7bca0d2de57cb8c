//! Plays files of sections. A section is a line `$ KIND` and the lines after it, for which the text of a command, or
//! the content of the lines, is written. In `$ unended KIND` the last LF is left out.

mod kind;
mod lines;

use crate::text::kind::{Kind, kind_of};
use std::alloc::Global;
use std::io::{ErrorKind, Write};
use std::{fs, io};
use tl_engine::command::Command;
use tl_engine::tool::run_tool;
use tl_lines::status::exit_of;
use tl_play::device::{Narrow, Slow};

/// The files, by their names in data/.
const FILES: [&str; 15] = [
    "text/beats.txt",
    "text/levels.txt",
    "text/checked.txt",
    "text/events.txt",
    "text/decode.txt",
    "text/headers.txt",
    "text/traces.txt",
    "text/together.txt",
    "text/bytes.txt",
    "text/legality.txt",
    "text/requests.txt",
    "text/grants.txt",
    "text/probes.txt",
    "text/order.txt",
    "text/runs.txt",
];

/// Writes the text and the exit status of a command for an input, which it reads and writes at once. If one byte a call
/// gives another text, writes that too.
fn tell_command(
    alloc: Global,
    command: Command,
    input: &[u8],
    out: &mut Vec<u8>,
) -> io::Result<()> {
    let mut reader = input;
    let mut text = Vec::new(alloc);
    let outcome = run_tool(alloc, command, &mut reader, &mut text);
    out.extend_from_slice(text.as_slice())?;
    writeln!(out, "exit {}", exit_of(&outcome))?;
    let mut slow = Slow::new(input, false);
    let mut narrow = Narrow::new(alloc, usize::MAX, false);
    let again = run_tool(alloc, command, &mut slow, &mut narrow);
    if again != outcome || narrow.taken.as_slice() != text.as_slice() {
        out.extend_from_slice(b"byte by byte\n")?;
        out.extend_from_slice(narrow.taken.as_slice())?;
        writeln!(out, "exit {}", exit_of(&again))?;
    }
    Ok(())
}

/// A section, without its `$ `.
fn tell_section(alloc: Global, section: &str, out: &mut Vec<u8>) -> io::Result<()> {
    let (name, input) = match section.split_once('\n') {
        None => (section, ""),
        Some((name, input)) => (name, input),
    };
    let (name, input) = match name.strip_prefix("unended ") {
        None => (name, input),
        Some(name) => (name, input.trim_end_matches('\n')),
    };
    writeln!(out, "$ {name}")?;
    match kind_of(name) {
        Some(Kind::Command(command)) => tell_command(alloc, command, input.as_bytes(), out),
        Some(Kind::Trace) => lines::tell_trace(alloc, input, out),
        Some(Kind::Lines(reading, width)) => lines::tell(reading, width, input, out),
        None => Err(io::Error::from(ErrorKind::InvalidData)),
    }
}

/// Plays the files one after the other.
pub fn play(rt: &HostRuntime) -> io::Result<()> {
    for name in FILES {
        let text = fs::read_to_string(rt, name)?;
        let mut out = Vec::new(rt.alloc());
        writeln!(&mut out, "{name}")?;
        let mut sections = text.split("$ ");
        let _ = sections.next();
        for section in sections {
            tell_section(rt.alloc(), section, &mut out)?;
        }
        io::writer(rt).write_all(out.as_slice())?;
    }
    Ok(())
}
