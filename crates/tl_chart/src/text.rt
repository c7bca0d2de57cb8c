//! Appends text and numbers.

ghost use Rattle.std.specs.Prelude.{◌≡◌, ◌++◌, ◌<◌, ◌%◌, OnOk};
ghost use Rattle.std.specs.Fmt.{decimal};
ghost use Rattle.tl_beat.specs.statement.Digits.{digit_char, digits};
ghost use Rattle.tl_chart.specs.statement.Names.{block_digits, long_block_digits};
ghost use Rattle.tl_chart.specs.statement.Words.{escaped, escaped_byte};

use arrayvec::ArrayVec;
use itoa::Buffer;
use std::alloc::AllocError;
use tl_wide::text::append_long;

/// Appends a text.
pub fn append(text: &str, out: &mut Vec<u8>) -> Result<(), AllocError>
    ensures { OnOk result (out.new.items ≡ out.old.items ++ text.now) }
{
    out.extend_from_slice(text.as_bytes())
}

/// Appends a number in decimal.
pub fn append_number(number: u64, out: &mut Vec<u8>) -> Result<(), AllocError>
    ensures { OnOk result (out.new.items ≡ out.old.items ++ decimal number) }
{
    let mut digits = Buffer::new();
    out.extend_from_slice(digits.format(number).as_bytes())
}

/// Appends a text, and then a number.
pub fn append_with(text: &str, number: u64, out: &mut Vec<u8>) -> Result<(), AllocError>
    ensures { OnOk result (out.new.items ≡ out.old.items ++ (text.now ++ decimal number)) }
{
    out.extend_from_slice(text.as_bytes())?;
    append_number(number, out)
}

/// Appends a byte, escaped for SVG.
fn append_escaped_byte(byte: u8, out: &mut Vec<u8>) -> Result<(), AllocError>
    ensures { OnOk result (out.new.items ≡ out.old.items ++ escaped_byte byte) }
{
    if byte == b'&' {
        out.extend_from_slice(b"&amp;")
    } else if byte == b'<' {
        out.extend_from_slice(b"&lt;")
    } else if byte == b'>' {
        out.extend_from_slice(b"&gt;")
    } else {
        out.extend_from_slice(&[byte])
    }
}

/// Appends bytes, escaped for SVG.
pub fn append_escaped(bytes: &[u8], out: &mut Vec<u8>) -> Result<(), AllocError>
    ensures { OnOk result (out.new.items ≡ out.old.items ++ escaped bytes.now) }
{
    for byte in bytes {
        append_escaped_byte(*byte, out)?;
    }
    Ok(())
}

/// The last hexadecimal digit of a number.
fn digit(number: u32) -> u8
    ensures { result ≡ digit_char (number % 16) }
{
    let digit = (number % 16) as u8;
    if digit < 10 {
        b'0' + digit
    } else {
        b'a' - 10 + digit
    }
}

#[tactic(auto, unfolding(tl_beat::specs::statement::Digits::digits))]
/// Appends a byte in two hexadecimal digits.
pub fn append_byte(number: u8, out: &mut Vec<u8>) -> Result<(), AllocError>
    ensures { OnOk result (out.new.items ≡ out.old.items ++ digits 2 number) }
{
    let number = u32::from(number);
    out.extend_from_slice(&[digit(number / 16), digit(number)])
}

#[tactic(auto, unfolding(tl_beat::specs::statement::Digits::digits))]
/// Appends a number in three hexadecimal digits.
fn append_three(number: u32, out: &mut Vec<u8>) -> Result<(), AllocError>
    ensures { OnOk result (out.new.items ≡ out.old.items ++ digits 3 number) }
{
    out.extend_from_slice(&[digit(number / 256), digit(number / 16), digit(number)])
}

#[tactic(auto, unfolding(tl_beat::specs::statement::Digits::digits))]
/// Appends a number in seven hexadecimal digits.
fn append_seven(number: u32, out: &mut Vec<u8>) -> Result<(), AllocError>
    ensures { OnOk result (out.new.items ≡ out.old.items ++ digits 7 number) }
{
    out.extend_from_slice(&[
        digit(number / 16777216),
        digit(number / 1048576),
        digit(number / 65536),
        digit(number / 4096),
        digit(number / 256),
        digit(number / 16),
        digit(number),
    ])
}

/// Appends the number of a block in three hexadecimal digits, or in seven if it needs more.
pub fn append_block(block: u32, out: &mut Vec<u8>) -> Result<(), AllocError>
    ensures { OnOk result (out.new.items ≡ out.old.items ++ block_digits block) }
{
    if block < 4096 {
        append_three(block, out)
    } else {
        append_seven(block, out)
    }
}

/// Appends a number in fifteen hexadecimal digits.
fn append_fifteen(number: u64, out: &mut Vec<u8>) -> Result<(), AllocError>
    ensures { OnOk result (out.new.items ≡ out.old.items ++ digits 15 number) }
{
    let mut text = ArrayVec::new();
    append_long(&mut text, number, 15);
    out.extend_from_slice(text.as_slice())
}

/// Appends the number of a block in three hexadecimal digits, in seven, or in fifteen if it needs more.
pub fn append_long_block(block: u64, out: &mut Vec<u8>) -> Result<(), AllocError>
    ensures { OnOk result (out.new.items ≡ out.old.items ++ long_block_digits block) }
{
    if block < 268435456 {
        append_block(block as u32, out)
    } else {
        append_fifteen(block, out)
    }
}

/// Appends a number of two bytes in four hexadecimal digits.
pub fn append_two_bytes(number: u16, out: &mut Vec<u8>) -> Result<(), AllocError>
    ensures { OnOk result (out.new.items ≡ out.old.items ++ digits 4 number) }
{
    let mut text = ArrayVec::new();
    append_long(&mut text, u64::from(number), 4);
    out.extend_from_slice(text.as_slice())
}
