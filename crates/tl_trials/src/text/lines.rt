//! The content of lines, each by itself or as a whole trace.

ghost use Rattle.tl_beat.specs.statement.Width.{IsWidth};

use crate::text::kind::Reading;
use std::alloc::Global;
use std::io::{self, ErrorKind, Write};
use tl_beat::beat::{Beat, Link};
use tl_beat::channel::Channel;
use tl_beat::fault::LineFault;
use tl_beat::read::read_line;
use tl_beat::write::write_line;
use tl_lines::header::{Header, read_header};
use tl_monitor::fault::TraceFault;
use tl_monitor::trace::check_trace;
use tl_params::level::Level;
use tl_params::width::Width;
use tl_rules::legality::beat::check_beat;
use tl_schedule::header::read_schedule;
use tl_schedule::line::{EventFault, Line, read_event};

/// The beat that is read from a line, written again, or the line's fault.
fn tell_beat<const W: usize>(line: &[u8], out: &mut Vec<u8>) -> io::Result<()>
    requires { IsWidth W }
{
    let read: Result<(Link, Beat<W>), LineFault> = read_line(line);
    match read {
        Ok((link, beat)) => write_line(link, &beat, out)?,
        Err(fault) => writeln!(out, "{}", fault.name())?,
    }
    Ok(())
}

/// The rule that a beat breaks on a link of this level, or that it is legal.
fn tell_rule<const W: usize>(level: Level, line: &[u8], out: &mut Vec<u8>) -> io::Result<()>
    requires { IsWidth W }
{
    let read: Result<(Link, Beat<W>), LineFault> = read_line(line);
    let Ok((_, beat)) = read else {
        return Err(io::Error::from(ErrorKind::InvalidData));
    };
    match check_beat(level, beat.channel(), &beat) {
        Ok(()) => writeln!(out, "legal"),
        Err(rule) => writeln!(out, "{}", rule.name()),
    }
}

fn tell_event<const W: usize>(line: &[u8], out: &mut Vec<u8>) -> io::Result<()>
    requires { IsWidth W }
{
    let read: Result<Line<W>, EventFault> = read_event(line);
    match read {
        Ok(Line::Event(_)) => writeln!(out, "event"),
        Ok(Line::Drain) => writeln!(out, "drain"),
        Err(fault) => writeln!(out, "{fault:?}"),
    }
}

fn tell_header(line: &[u8], out: &mut Vec<u8>) -> io::Result<()> {
    match read_schedule(line) {
        Some(_) => writeln!(out, "header"),
        None => writeln!(out, "no header"),
    }
}

fn tell_line<const W: usize>(reading: Reading, line: &[u8], out: &mut Vec<u8>) -> io::Result<()>
    requires { IsWidth W }
{
    match reading {
        Reading::Beat => tell_beat::<W>(line, out),
        Reading::Level(level) => tell_rule::<W>(level, line, out),
        Reading::Event => tell_event::<W>(line, out),
        Reading::Header => tell_header(line, out),
    }
}

/// The content of each line; an empty input is one line.
fn tell_lines<const W: usize>(reading: Reading, input: &str, out: &mut Vec<u8>) -> io::Result<()>
    requires { IsWidth W }
{
    if input.is_empty() {
        return tell_line::<W>(reading, b"", out);
    }
    for line in input.split_inclusive('\n') {
        tell_line::<W>(reading, line.as_bytes(), out)?;
    }
    Ok(())
}

/// The content of each line, for beats of this width.
pub fn tell(reading: Reading, width: Width, input: &str, out: &mut Vec<u8>) -> io::Result<()> {
    match width {
        Width::Four => tell_lines::<4>(reading, input, out),
        Width::Eight => tell_lines::<8>(reading, input, out),
        Width::Sixteen => tell_lines::<16>(reading, input, out),
    }
}

/// The first fault of a whole trace, after its header.
fn tell_beats<const W: usize>(
    alloc: Global,
    header: &Header,
    input: &str,
    out: &mut Vec<u8>,
) -> io::Result<()>
    requires { IsWidth W }
{
    let mut beats: Vec<(Link, Beat<W>)> = Vec::new(alloc);
    for line in input.split_inclusive('\n') {
        match read_line(line.as_bytes()) {
            Ok(beat) => beats.push(beat)?,
            Err(_) => return Err(io::Error::from(ErrorKind::InvalidData)),
        }
    }
    let levels = header.levels.as_slice();
    match check_trace(alloc, levels, header.profile, beats.as_slice()) {
        Ok(()) => writeln!(out, "no fault"),
        Err(TraceFault::At(i, rule)) => writeln!(out, "{} at {i}", rule.name()),
        Err(_) => Err(io::Error::from(ErrorKind::OutOfMemory)),
    }
}

/// The first fault of a whole trace.
pub fn tell_trace(alloc: Global, input: &str, out: &mut Vec<u8>) -> io::Result<()> {
    let Some((line, beats)) = input.split_once('\n') else {
        return Err(io::Error::from(ErrorKind::InvalidData));
    };
    let line = format!(in alloc; "{line}\n")?;
    let Some(header) = read_header(line.as_bytes()) else {
        return Err(io::Error::from(ErrorKind::InvalidData));
    };
    match header.width {
        Width::Four => tell_beats::<4>(alloc, &header, beats, out),
        Width::Eight => tell_beats::<8>(alloc, &header, beats, out),
        Width::Sixteen => tell_beats::<16>(alloc, &header, beats, out),
    }
}
