//! Why a line is no header of a trace, in words.

use std::io;
use std::io::Write;
use tl_command::liberties::{LIBERTIES_WANTED, front_liberties};
use tl_explain::shown::{Span, append_line, shown};
use tl_params::config::MOST_CLIENTS;
use tl_params::header::{front_level, front_version};

/// The place in a header at which reading stopped, and the form that was expected there.
#[derive(Clone, Copy)]
struct Stop {
    at: usize,
    wanted: &'static str,
}

fn stop_at(at: usize, wanted: &'static str) -> Stop {
    Stop { at, wanted }
}

/// The length of the common front of two lines.
fn common(line: &[u8], word: &[u8]) -> usize {
    let mut count = 0usize;
    for (one, other) in line.iter().zip(word) {
        if one != other {
            return count;
        }
        count = count.saturating_add(1);
    }
    count
}

/// The place at which reading the levels stopped; the first level is at this place.
fn levels_stop(line: &[u8], from: usize, bytes: &[u8]) -> Stop {
    let mut rest = bytes;
    let mut at = from;
    for count in 0..=MOST_CLIENTS {
        match front_level(rest) {
            Some((_, after)) if count < MOST_CLIENTS => {
                at = line.len().saturating_sub(after.len());
                rest = after;
            }
            Some(_) => return stop_at(at, "a line feed, after 16 levels at most"),
            None if count == 0 => return stop_at(at, "a space and a level: UL, UH or C"),
            None => return stop_at(at, "a space and one more level, or a line feed"),
        }
    }
    stop_at(at, "a line feed")
}

/// The number of bytes before the rest of a line.
fn before(line: &[u8], rest: &[u8]) -> usize {
    line.len().saturating_sub(rest.len())
}

/// The rest of a header of the fourth form after the bytes of a beat; None for another form.
fn behind_width(bytes: &[u8]) -> Option<&[u8]> {
    match bytes {
        [b'4', b' ', b'4' | b'8', b' ', rest @ ..] => Some(rest),
        [b'4', b' ', b'1', b'6', b' ', rest @ ..] => Some(rest),
        _ => None,
    }
}

/// The place at which reading the liberties and the levels stopped; the word of the liberties is at the front of these
/// bytes.
fn liberties_stop(line: &[u8], bytes: &[u8]) -> Stop {
    match front_liberties(bytes) {
        None => stop_at(before(line, bytes), LIBERTIES_WANTED),
        Some((_, rest)) => levels_stop(line, before(line, rest), rest),
    }
}

/// The place at which reading stopped after the first word, if the version is none of the first three.
fn version_stop(line: &[u8], bytes: &[u8]) -> Stop {
    if let Some(rest) = behind_width(bytes) {
        return liberties_stop(line, rest);
    }
    let at = before(line, bytes);
    match bytes {
        [b'2', b' ', ..] => stop_at(at.saturating_add(2), "the bytes of a beat: 4, 8 or 16"),
        [b'3', b' ', b'1', b'6', ..] => stop_at(
            at.saturating_add(4),
            "a space and the profile: 1 or 2",
        ),
        [b'3', b' ', b'4' | b'8', ..] => {
            stop_at(at.saturating_add(3), "a space and the profile: 1 or 2")
        }
        [b'4', b' ', b'1', b'6', ..] => {
            stop_at(at.saturating_add(4), "a space and the liberties")
        }
        [b'4', b' ', b'4' | b'8', ..] => {
            stop_at(at.saturating_add(3), "a space and the liberties")
        }
        [b'3' | b'4', b' ', ..] => {
            stop_at(at.saturating_add(2), "the bytes of a beat: 4, 8 or 16")
        }
        [b'2' | b'3' | b'4', ..] => stop_at(at.saturating_add(1), "a space"),
        _ => stop_at(at, "the version: 1, 2, 3 or 4"),
    }
}

fn find_stop(line: &[u8]) -> Stop {
    let Some(bytes) = line.strip_prefix(b"tltrace ") else {
        return stop_at(common(line, b"tltrace "), "the word tltrace and a space");
    };
    match front_version(bytes) {
        None => version_stop(line, bytes),
        Some((_, rest)) => levels_stop(line, before(line, rest), rest),
    }
}

fn is_beat_like(line: &[u8]) -> bool {
    matches!(
        line,
        [_, _, b' ', b'A' | b'B' | b'C' | b'D' | b'E', b' ', ..]
    )
}

/// The kind of file that has this first line.
fn guess(line: &[u8]) -> Option<&'static str> {
    if line.is_empty() {
        return Some("the file is empty");
    }
    if line.starts_with(b"tlsched ") {
        return Some("this is a schedule: tltool run");
    }
    if line.starts_with(b"\x1f\x8b") {
        return Some("this is gzip: zcat FILE");
    }
    if line.starts_with(b"\xef\xbb\xbf") {
        return Some("the file begins with a byte-order mark");
    }
    if is_beat_like(line) {
        return Some("there is no header: the first line of a trace names the levels of its links");
    }
    match line {
        [.., b'\r', b'\n'] => Some("the line ends in CR and LF"),
        [.., b' ', b'\n'] => Some("there is a space before the line feed"),
        [.., b'\n'] => None,
        _ if line.len() > 256 => Some("the line has more than 256 bytes"),
        _ => Some("the line has no line feed"),
    }
}

/// Appends the line, the place at which reading stopped and the form that was expected there, the forms of a header,
/// and the probable kind of file.
pub fn tell(line: &[u8], out: &mut Vec<u8>) -> io::Result<()> {
    let stop = find_stop(line);
    let at = stop.at.min(shown(line).len());
    let column = at.saturating_add(1);
    let wanted = stop.wanted;
    append_line(
        line,
        Span {
            from: at,
            to: at.saturating_add(1),
        },
        out,
    )?;
    write!(out, "  column {column}: wanted {wanted}\n")?;
    out.write_all(
        b"  a header is one of: tltrace 1 LEVELS, tltrace 2 W LEVELS, tltrace 3 W P LEVELS, tltrace 4 W LIBERTIES LEVELS\n",
    )?;
    match guess(line) {
        None => Ok(()),
        Some(guess) => write!(out, "  {guess}\n"),
    }
}
