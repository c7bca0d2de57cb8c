//! Shows a line that spells no event, with carets under the bytes at fault.

ghost use Rattle.std.specs.Prelude.{OnOk};
ghost use Rattle.tl_explain.specs.statement.Shown.{Grows, Shows};

use std::io;
use std::io::Write;
use tl_beat::fault::LineFault;
use tl_beat::read::{after_space, letter};
use tl_explain::shown::{Span, append_line, shown};
use tl_explain::spelling;

/// The form that a field of a commit's line must have.
#[derive(Clone, Copy, PartialEq, Eq)]
enum Form {
    Digits(usize),
    Letter,
    /// The size: 0 to 3.
    Size,
    /// An address that is a multiple of this number of bytes.
    Address(usize),
    /// The line has no such field.
    Surplus,
}

/// A field of a commit's line.
#[derive(Clone, Copy)]
struct Field {
    name: &'static str,
    form: Form,
}

fn field_with(name: &'static str, form: Form) -> Field {
    Field { name, form }
}

/// The field with this number, counted from 1, in the line of a commit of so many bytes.
fn field_of(letter: u8, number: usize, bytes: usize) -> Field {
    match (letter, number) {
        (_, 1) => field_with("link", Form::Digits(2)),
        (_, 2) => field_with("letter", Form::Letter),
        (_, 3) => field_with("n", Form::Size),
        (_, 4) => field_with("address", Form::Address(bytes)),
        (b'S' | b'L', 5) => field_with("data", Form::Digits(bytes.saturating_mul(2))),
        _ => field_with("", Form::Surplus),
    }
}

/// The value of a digit of 0 to 9 and a to f.
fn digit(byte: u8) -> Option<usize> {
    match byte {
        b'0'..=b'9' => Some(usize::from(byte.saturating_sub(b'0'))),
        b'a'..=b'f' => Some(usize::from(byte.saturating_sub(b'a')).saturating_add(10)),
        _ => None,
    }
}

/// Whether the bytes are so many digits.
fn are_digits(bytes: &[u8], count: usize) -> bool {
    bytes.len() == count
        && bytes
            .iter()
            .all(|b| matches!(*b, b'0'..=b'9' | b'a'..=b'f'))
}

/// The number of bytes of a commit of this size.
fn bytes_of(size: &[u8]) -> usize {
    match size {
        b"1" => 2,
        b"2" => 4,
        b"3" => 8,
        _ => 1,
    }
}

/// Whether the last digit is that of a multiple of 1, 2, 4 or 8 bytes.
fn ends_multiple(line: &[u8], bytes: usize) -> bool {
    let [.., last] = line else {
        return false;
    };
    let Some(last) = digit(*last) else {
        return false;
    };
    match bytes {
        1 => true,
        2 => last % 2 == 0,
        4 => last % 4 == 0,
        _ => last % 8 == 0,
    }
}

fn fits(form: Form, bytes: &[u8]) -> bool {
    match form {
        Form::Digits(count) => are_digits(bytes, count),
        Form::Letter => matches!(bytes, b"A" | b"B" | b"C" | b"D" | b"E" | b"S" | b"L" | b"I"),
        Form::Size => matches!(bytes, b"0" | b"1" | b"2" | b"3"),
        Form::Address(multiple) => are_digits(bytes, 8) && ends_multiple(bytes, multiple),
        Form::Surplus => false,
    }
}

/// Whether a field may have this fault.
fn may_have(fault: LineFault, form: Form) -> bool {
    match fault {
        LineFault::F1 => form == Form::Surplus,
        LineFault::F2 => form == Form::Letter,
        _ => true,
    }
}

/// Appends a form in words.
fn append_form(form: Form, out: &mut Vec<u8>) -> io::Result<()>
    ensures { OnOk result (Grows out.old.items out.new.items) }
{
    match form {
        Form::Digits(count) => write!(out, "{count} digits of 0 to 9 and a to f"),
        Form::Letter => out.write_all(b"one of A, B, C, D, E, S, L, I"),
        Form::Size => out.write_all(b"0, 1, 2 or 3"),
        Form::Address(bytes) => {
            write!(out, "8 digits of 0 to 9 and a to f, a multiple of {bytes}")
        }
        Form::Surplus => Ok(()),
    }
}

/// Appends the number of fields of a line, and how many one with this letter has.
fn append_count(front: &[u8], letter: u8, out: &mut Vec<u8>) -> io::Result<()>
    ensures { OnOk result (Grows out.old.items out.new.items) }
{
    let mut count = 0usize;
    for _bytes in front.split(|b| *b == b' ') {
        count = count.saturating_add(1);
    }
    let wanted = if letter == b'I' { 4 } else { 5 };
    let letter = char::from(letter);
    write!(out, "  fields: {count}; a line of {letter} has {wanted}\n")
}

/// Appends the form of a field, or the numbers of the fields that are there and that belong there.
fn append_wanted(
    front: &[u8],
    letter: u8,
    number: usize,
    field: Field,
    out: &mut Vec<u8>,
) -> io::Result<()>
    ensures { OnOk result (Grows out.old.items out.new.items) }
{
    if field.form == Form::Surplus {
        return append_count(front, letter, out);
    }
    let name = field.name;
    write!(out, "  field {number}, {name}: ")?;
    append_form(field.form, out)?;
    out.write_all(b"\n")
}

/// A field at fault, by its number, and its place in the line.
#[derive(Clone, Copy)]
struct Misfit {
    number: usize,
    field: Field,
    span: Span,
}

/// The first field with this fault.
fn first_misfit(front: &[u8], fault: LineFault, letter: u8) -> Option<Misfit> {
    let mut multiple = 1;
    let mut number = 0usize;
    let mut from = 0usize;
    for bytes in front.split(|b| *b == b' ') {
        number = number.saturating_add(1);
        let to = from.saturating_add(bytes.len());
        let field = field_of(letter, number, multiple);
        if may_have(fault, field.form) && !fits(field.form, bytes) {
            let span = Span { from, to };
            return Some(Misfit {
                number,
                field,
                span,
            });
        }
        if field.form == Form::Size {
            multiple = bytes_of(bytes);
        }
        from = to.saturating_add(1);
    }
    None
}

/// Appends the line, carets under its first field with this fault, and the form of that. If no field has it, one is
/// missing at the end.
fn tell_fields(line: &[u8], fault: LineFault, letter: u8, out: &mut Vec<u8>) -> io::Result<()>
    ensures { OnOk result (Shows line.now out.old.items out.new.items) }
{
    let front = shown(line);
    match first_misfit(front, fault, letter) {
        Some(misfit) => {
            append_line(line, misfit.span, out)?;
            append_wanted(front, letter, misfit.number, misfit.field, out)
        }
        None => {
            let end = front.len();
            append_line(line, Span { from: end, to: end }, out)?;
            append_count(front, letter, out)
        }
    }
}

/// Whether a line has an LF at its end, and not too many bytes.
fn is_closed(line: &[u8]) -> bool {
    line.len() <= 256 && matches!(line, [.., b'\n'])
}

/// Appends a line that spells no event, carets under the bytes at fault, and one sentence. Beats have `width` bytes.
pub fn tell(line: &[u8], fault: LineFault, width: usize, out: &mut Vec<u8>) -> io::Result<()>
    ensures { OnOk result (Shows line.now out.old.items out.new.items) }
{
    let letter = letter(after_space(shown(line))).unwrap_or(b'?');
    match (letter, fault) {
        (_, LineFault::F2) => tell_fields(line, fault, letter, out),
        (b'S' | b'L' | b'I', LineFault::F1 | LineFault::F3) if is_closed(line) => {
            tell_fields(line, fault, letter, out)
        }
        _ => spelling::tell(line, fault, width, out),
    }
}
