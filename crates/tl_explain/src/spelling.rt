//! Explains why a line spells no beat.

ghost use Rattle.std.specs.Prelude.{OnOk};
ghost use Rattle.tl_explain.specs.statement.Shown.{Grows, Shows};

use crate::shown::{Span, append_line, shown};
use std::io;
use std::io::Write;
use tl_beat::fault::LineFault;

/// The form that a field must have.
#[derive(Clone, Copy, PartialEq, Eq)]
enum Form {
    Digits(usize),
    Bit,
    Data,
    Letter,
}

/// A field of a channel's lines.
#[derive(Clone, Copy)]
struct Field {
    name: &'static str,
    form: Form,
}

fn field_with(name: &'static str, form: Form) -> Field {
    Field { name, form }
}

/// The number of fields of a channel.
fn count_of(letter: u8) -> usize {
    match letter {
        b'A' | b'B' | b'D' => 10,
        b'C' => 9,
        _ => 3,
    }
}

/// The field with this number, counted from 1, after those that all channels but E share.
fn late_field(letter: u8, number: usize, mask: usize) -> Field {
    match (letter, number) {
        (b'D', 7) => field_with("sink", Form::Digits(2)),
        (b'D', 8) => field_with("denied", Form::Bit),
        (_, 7) => field_with("address", Form::Digits(8)),
        (b'A' | b'B', 8) => field_with("mask", Form::Digits(mask)),
        (b'C', 8) => field_with("data", Form::Data),
        (b'C', 9) => field_with("corrupt", Form::Bit),
        (_, 9) => field_with("data", Form::Data),
        _ => field_with("corrupt", Form::Bit),
    }
}

/// The field with this number, counted from 1.
fn field_of(letter: u8, number: usize, mask: usize) -> Field {
    match (letter, number) {
        (_, 1) => field_with("link", Form::Digits(2)),
        (_, 2) => field_with("channel", Form::Letter),
        (b'E', _) => field_with("sink", Form::Digits(2)),
        (_, 3) => field_with("opcode", Form::Digits(1)),
        (_, 4) => field_with("param", Form::Digits(1)),
        (_, 5) => field_with("size", Form::Digits(1)),
        (_, 6) => field_with("source", Form::Digits(2)),
        _ => late_field(letter, number, mask),
    }
}

fn are_digits(bytes: &[u8]) -> bool {
    bytes
        .iter()
        .all(|b| matches!(*b, b'0'..=b'9' | b'a'..=b'f'))
}

fn fits(form: Form, bytes: &[u8], width: usize) -> bool {
    match form {
        Form::Digits(count) => bytes.len() == count && are_digits(bytes),
        Form::Bit => matches!(bytes, b"0" | b"1"),
        Form::Data => matches!(bytes, b"-")
            || bytes.len() == width.saturating_mul(2) && are_digits(bytes),
        Form::Letter => matches!(bytes, b"A" | b"B" | b"C" | b"D" | b"E"),
    }
}

/// The bytes of the field with this number, counted from 1, if the line has that many.
fn bytes_of(line: &[u8], number: usize) -> Option<&[u8]> {
    let mut at = 0usize;
    for bytes in line.split(|b| *b == b' ') {
        at = at.saturating_add(1);
        if at == number {
            return Some(bytes);
        }
    }
    None
}

/// The place of the field with this number; the end of the line if it hasn't that many.
fn span_of(line: &[u8], number: usize) -> Span {
    let mut at = 0usize;
    let mut from = 0usize;
    for bytes in line.split(|b| *b == b' ') {
        at = at.saturating_add(1);
        if at == number {
            return Span {
                from,
                to: from.saturating_add(bytes.len()),
            };
        }
        from = from.saturating_add(bytes.len()).saturating_add(1);
    }
    Span {
        from: line.len(),
        to: line.len(),
    }
}

fn fields_in(line: &[u8]) -> usize {
    let mut count = 0usize;
    for _bytes in line.split(|b| *b == b' ') {
        count = count.saturating_add(1);
    }
    count
}

/// The letter of a line's channel.
fn letter_of(line: &[u8]) -> u8 {
    match bytes_of(line, 2) {
        Some([letter]) => *letter,
        _ => b'?',
    }
}

/// Appends a form in words.
fn append_form(form: Form, width: usize, out: &mut Vec<u8>) -> io::Result<()>
    ensures { OnOk result (Grows out.old.items out.new.items) }
{
    match form {
        Form::Digits(1) => out.write_all(b"1 digit of 0 to 9 and a to f"),
        Form::Digits(count) => write!(out, "{count} digits of 0 to 9 and a to f"),
        Form::Bit => out.write_all(b"0 or 1"),
        Form::Data => {
            let count = width.saturating_mul(2);
            write!(out, "- or {count} digits of 0 to 9 and a to f")
        }
        Form::Letter => out.write_all(b"one of A, B, C, D, E"),
    }
}

/// Explains a fault in a line's length, end or number of fields.
fn tell_shape(line: &[u8], out: &mut Vec<u8>) -> io::Result<()>
    ensures { OnOk result (Shows line.now out.old.items out.new.items) }
{
    let end = shown(line).len();
    let at_end = Span { from: end, to: end };
    if line.len() > 256 {
        append_line(line, at_end, out)?;
        return out.write_all(b"  the line has more than 256 bytes\n");
    }
    if !matches!(line, [.., b'\n']) {
        append_line(line, at_end, out)?;
        return out.write_all(b"  the line doesn't end in a line feed\n");
    }
    let front = shown(line);
    let count = fields_in(front);
    let letter = letter_of(front);
    if !matches!(letter, b'A'..=b'E') {
        append_line(line, at_end, out)?;
        return write!(
            out,
            "  fields: {count}; a beat line has at least 3, with one space between each two\n"
        );
    }
    let wanted = count_of(letter);
    let from = span_of(front, wanted.saturating_add(1)).from;
    append_line(line, Span { from, to: end }, out)?;
    let channel = char::from(letter);
    write!(
        out,
        "  fields: {count}; a line of channel {channel} has {wanted}\n"
    )
}

/// The number of the first field that doesn't have its form; that of the last field if each has its form.
fn misfit(front: &[u8], letter: u8, width: usize) -> usize {
    let mut number = 0usize;
    for bytes in front.split(|b| *b == b' ') {
        number = number.saturating_add(1);
        if !fits(field_of(letter, number, width / 4).form, bytes, width) {
            return number;
        }
    }
    number
}

/// Explains the first field that doesn't have its form.
fn tell_form(line: &[u8], width: usize, out: &mut Vec<u8>) -> io::Result<()>
    ensures { OnOk result (Shows line.now out.old.items out.new.items) }
{
    let front = shown(line);
    let letter = letter_of(front);
    let number = misfit(front, letter, width);
    let field = field_of(letter, number, width / 4);
    append_line(line, span_of(front, number), out)?;
    let name = field.name;
    write!(out, "  field {number}, {name}: ")?;
    append_form(field.form, width, out)?;
    out.write_all(b"\n")
}

/// Appends the line, carets under the field with this number, and a sentence.
fn tell_field(line: &[u8], number: usize, sentence: &str, out: &mut Vec<u8>) -> io::Result<()>
    ensures { OnOk result (Shows line.now out.old.items out.new.items) }
{
    append_line(line, span_of(shown(line), number), out)?;
    write!(out, "  field {number}, {sentence}\n")
}

fn unused_opcodes(letter: u8) -> &'static str {
    match letter {
        b'C' => "opcode: channel C hasn't this one; in use are 0, 1, 2, 4, 5, 6, 7",
        b'D' => "opcode: channel D hasn't this one; in use are 0, 1, 2, 4, 5, 6",
        _ => "opcode: the channel hasn't this one; in use are 0 to 7",
    }
}

fn tell_data(line: &[u8], out: &mut Vec<u8>) -> io::Result<()>
    ensures { OnOk result (Shows line.now out.old.items out.new.items) }
{
    let front = shown(line);
    let number = if letter_of(front) == b'C' { 8 } else { 9 };
    let sentence = if matches!(bytes_of(front, number), Some(b"-")) {
        "data: the opcode carries data, and - stands there"
    } else {
        "data: the opcode carries none, and digits stand where - has to"
    };
    tell_field(line, number, sentence, out)
}

/// Appends the line, carets under the bytes at fault, and one sentence. Beats have `width` bytes.
pub fn tell(line: &[u8], fault: LineFault, width: usize, out: &mut Vec<u8>) -> io::Result<()>
    ensures { OnOk result (Shows line.now out.old.items out.new.items) }
{
    match fault {
        LineFault::F1 => tell_shape(line, out),
        LineFault::F2 => tell_field(line, 2, "channel: one of A, B, C, D, E", out),
        LineFault::F3 => tell_form(line, width, out),
        LineFault::F4 => tell_field(line, 3, unused_opcodes(letter_of(shown(line))), out),
        LineFault::F5 => {
            let sentence = match letter_of(shown(line)) {
                b'D' => "param: at most 3",
                _ => "param: at most 7",
            };
            tell_field(line, 4, sentence, out)
        }
        LineFault::F6 => tell_data(line, out),
    }
}
