//! Shows a line, with carets under the bytes at fault.

ghost use Rattle.std.specs.Prelude.{◌≡◌, ◌<◌, ◌++◌, OnOk, drop, take};
ghost use Rattle.tl_beat.specs.statement.Digits.{digit_char};
ghost use Rattle.tl_explain.specs.statement.Shown;

use std::alloc::AllocError;

/// The most bytes of a line that are shown.
const SHOWN: usize = 256;

/// The digits of a byte that isn't printable.
const DIGITS: [u8; 16] = *b"0123456789abcdef";

/// A range of places in a line, from the first to before the second.
#[derive(Clone, Copy)]
pub struct Span {
    pub from: usize,
    pub to: usize,
}

fn is_printable(byte: u8) -> bool
    ensures { result ≡ Shown.is_printable byte }
{
    byte >= b' ' && byte <= b'~'
}

fn digit_byte(digit: u8) -> u8
    requires { digit < 16 }
    ensures { result ≡ digit_char digit }
{
    DIGITS[usize::from(digit)]
}

#[tactic(auto, using(crate::proofs::Marks::escaped))]
/// Appends a byte as it is shown.
fn append_byte(byte: u8, out: &mut Vec<u8>) -> Result<(), AllocError>
    ensures { OnOk result (out.new.items ≡ out.old.items ++ Shown.byte_text byte) }
{
    if is_printable(byte) {
        return out.extend_from_slice(&[byte]);
    }
    let high = digit_byte(byte / 16);
    let low = digit_byte(byte % 16);
    out.extend_from_slice(&[b'\\', b'x', high, low])
}

/// Appends bytes as they are shown.
fn append_bytes(bytes: &[u8], out: &mut Vec<u8>) -> Result<(), AllocError>
    ensures { OnOk result (out.new.items ≡ out.old.items ++ Shown.bytes_text bytes.now) }
{
    for byte in bytes {
        append_byte(*byte, out)?;
    }
    Ok(())
}

#[tactic(auto, using(crate::proofs::Marks::four_marks))]
/// Appends a mark under each character of a byte.
fn append_mark(mark: u8, byte: u8, out: &mut Vec<u8>) -> Result<(), AllocError>
    ensures { OnOk result (out.new.items ≡ out.old.items ++ Shown.under mark byte) }
{
    if is_printable(byte) {
        return out.extend_from_slice(&[mark]);
    }
    out.extend_from_slice(&[mark, mark, mark, mark])
}

/// Appends a mark under each character of these bytes.
fn append_marks(mark: u8, bytes: &[u8], out: &mut Vec<u8>) -> Result<(), AllocError>
    ensures { OnOk result (out.new.items ≡ out.old.items ++ Shown.marks mark bytes.now) }
{
    for byte in bytes {
        append_mark(mark, *byte, out)?;
    }
    Ok(())
}

/// Appends carets under the bytes at fault; one, if there are none.
fn append_carets(bytes: &[u8], out: &mut Vec<u8>) -> Result<(), AllocError>
    ensures { OnOk result (out.new.items ≡ out.old.items ++ Shown.carets bytes.now) }
{
    match bytes {
        [] => out.extend_from_slice(b"^"),
        _ => append_marks(b'^', bytes, out),
    }
}

/// The line without a line feed at its end.
fn without_lf(line: &[u8]) -> &[u8]
    ensures { result.now ≡ Shown.without_lf line.now }
{
    match line {
        [front @ .., b'\n'] => front,
        _ => line,
    }
}

/// The bytes before a place.
fn front_to(bytes: &[u8], place: usize) -> &[u8]
    ensures { result.now ≡ take place bytes.now }
{
    &bytes[..place.min(bytes.len())]
}

/// The part of a line that is shown: the first 256 bytes, without a line feed at the end.
pub fn shown(line: &[u8]) -> &[u8]
    ensures { result.now ≡ Shown.shown_of line.now }
{
    front_to(without_lf(line), SHOWN)
}

/// The bytes of a span.
fn bytes_in(bytes: &[u8], span: Span) -> &[u8]
    ensures { result.now ≡ drop span.from (take span.to bytes.now) }
{
    let front = front_to(bytes, span.to);
    &front[span.from.min(front.len())..]
}

#[tactic(auto, unfolding(crate::specs::statement::Shown::line_text))]
/// Appends a line, with bytes that aren't printable as `\xHH`, and below it carets under the bytes of a span; one caret
/// if the span is empty.
pub fn append_line(line: &[u8], span: Span, out: &mut Vec<u8>) -> Result<(), AllocError>
    ensures { OnOk result (out.new.items ≡ out.old.items ++ Shown.line_text line.now span.from span.to) }
{
    let bytes = shown(line);
    out.extend_from_slice(b"  ")?;
    append_bytes(bytes, out)?;
    out.extend_from_slice(b"\n  ")?;
    append_marks(b' ', front_to(bytes, span.from), out)?;
    append_carets(bytes_in(bytes, span), out)?;
    out.extend_from_slice(b"\n")
}
