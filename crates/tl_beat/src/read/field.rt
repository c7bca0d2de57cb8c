//! Reads the fields of a line from left to right. A field of the wrong form is `F3`.

ghost use Rattle.std.specs.Prelude.{◌≡◌, ◌≤◌, ◌<◌, ◌^◌, ◌*◌, ◌/◌, ℕ, [], IfOk};
ghost use Rattle.std.specs.Prelude.{IfSome, Ok, ◌+◌, ◌++◌, length, take, drop};
ghost use Rattle.tl_beat.specs.code.FromLeft.{digit_of, digit_at, digits_at, space_at, field_at};
ghost use Rattle.tl_beat.specs.code.FromLeft.{bit_of_byte, bit_field_at, pair_at, lanes_at};
ghost use Rattle.tl_beat.specs.code.FromLeft.{value_or_16, data_at, tail_at, Gives, GivesRest};
ghost use Rattle.tl_beat.specs.code.Reading.{at_most};
ghost use Rattle.tl_beat.specs.statement.Width.{IsWidth};

use crate::fault::LineFault;
use crate::lanes::{eight_digit_number, eight_lanes};
use std::simd::u8x8;

/// The value of each byte as a digit, or 16 if it isn't one.
const VALUES: [u8; 256] = [
    16, 16, 16, 16, 16, 16, 16, 16, 16, 16, 16, 16, 16, 16, 16, 16, 16, 16, 16, 16, 16, 16, 16, 16,
    16, 16, 16, 16, 16, 16, 16, 16, 16, 16, 16, 16, 16, 16, 16, 16, 16, 16, 16, 16, 16, 16, 16, 16,
    0, 1, 2, 3, 4, 5, 6, 7, 8, 9, 16, 16, 16, 16, 16, 16, 16, 16, 16, 16, 16, 16, 16, 16, 16, 16,
    16, 16, 16, 16, 16, 16, 16, 16, 16, 16, 16, 16, 16, 16, 16, 16, 16, 16, 16, 16, 16, 16, 16, 10,
    11, 12, 13, 14, 15, 16, 16, 16, 16, 16, 16, 16, 16, 16, 16, 16, 16, 16, 16, 16, 16, 16, 16, 16,
    16, 16, 16, 16, 16, 16, 16, 16, 16, 16, 16, 16, 16, 16, 16, 16, 16, 16, 16, 16, 16, 16, 16, 16,
    16, 16, 16, 16, 16, 16, 16, 16, 16, 16, 16, 16, 16, 16, 16, 16, 16, 16, 16, 16, 16, 16, 16, 16,
    16, 16, 16, 16, 16, 16, 16, 16, 16, 16, 16, 16, 16, 16, 16, 16, 16, 16, 16, 16, 16, 16, 16, 16,
    16, 16, 16, 16, 16, 16, 16, 16, 16, 16, 16, 16, 16, 16, 16, 16, 16, 16, 16, 16, 16, 16, 16, 16,
    16, 16, 16, 16, 16, 16, 16, 16, 16, 16, 16, 16, 16, 16, 16, 16, 16, 16, 16, 16, 16, 16, 16, 16,
    16, 16, 16, 16, 16, 16, 16, 16, 16, 16, 16, 16, 16, 16,
];

/// The value of a digit, or 16.
#[inline(always)]
pub fn value(byte: u8) -> u8
    ensures { result ≡ value_or_16 byte }
{
    VALUES[usize::from(byte)]
}

#[inline(always)]
fn digit(byte: u8) -> Option<u8>
    ensures { result ≡ digit_of byte }
{
    let value = value(byte);
    if value < 16 { Some(value) } else { None }
}

#[inline(always)]
fn digit_front(bytes: &[u8]) -> Result<(u8, &[u8]), LineFault>
    ensures gives { Gives result (digit_at bytes.now) }
    ensures below { IfOk result (λ x. x.0 < 16) }
{
    match bytes {
        [] => Err(LineFault::F3),
        [c, rest @ ..] => match digit(*c) {
            None => Err(LineFault::F3),
            Some(d) => Ok((d, rest)),
        },
    }
}

/// A number of `count` digits at the front, and the rest.
#[inline(always)]
pub fn digits(bytes: &[u8], count: u8) -> Result<(u32, &[u8]), LineFault>
    requires { count ≤ 8 }
    ensures gives { Gives result (digits_at 0 count bytes.now) }
    ensures below { IfOk result (λ x. x.0 < 16 ^ count) }
{
    let mut number = 0u32;
    let mut rest = bytes;
    for _ in 0..count {
        let (d, after) = digit_front(rest)?;
        number = 16 * number + u32::from(d);
        rest = after;
    }
    Ok((number, rest))
}

/// The rest after a space at the front.
#[inline(always)]
pub fn space(bytes: &[u8]) -> Result<&[u8], LineFault>
    ensures { GivesRest result (space_at bytes.now) }
{
    match bytes {
        [b' ', rest @ ..] => Ok(rest),
        _ => Err(LineFault::F3),
    }
}

/// A number of `count` digits and a space at the front.
#[inline(always)]
pub fn number(bytes: &[u8], count: u8) -> Result<(u32, &[u8]), LineFault>
    requires { count ≤ 8 }
    ensures gives { Gives result (field_at count bytes.now) }
    ensures below { IfOk result (λ x. x.0 < 16 ^ count) }
{
    let (number, rest) = digits(bytes, count)?;
    let rest = space(rest)?;
    Ok((number, rest))
}

/// A number of one digit and a space.
pub fn nibble(bytes: &[u8]) -> Result<(u8, &[u8]), LineFault>
    ensures gives { Gives result (field_at 1 bytes.now) }
    ensures below { IfOk result (λ x. x.0 < 16) }
{
    let (number, rest) = number(bytes, 1)?;
    Ok((number as u8, rest))
}

/// A number of two digits and a space.
#[inline(always)]
pub fn byte(bytes: &[u8]) -> Result<(u8, &[u8]), LineFault>
    ensures { Gives result (field_at 2 bytes.now) }
{
    let (number, rest) = number(bytes, 2)?;
    Ok((number as u8, rest))
}

/// Eight digits and a space, each byte at its place.
#[inline(always)]
fn eight_digits(bytes: &[u8]) -> Option<(u32, &[u8])>
    ensures { IfSome result (λ read. field_at 8 bytes.now ≡ Ok (read.0, read.1.now)) }
{
    let (field, behind) = bytes.split_first_chunk::<8>()?;
    let [b' ', rest @ ..] = behind else {
        return None;
    };
    let number = eight_digit_number(field)?;
    Some((number, rest))
}

/// A number of eight digits and a space, from left to right.
#[cold]
#[inline(never)]
fn any_eight_digits(bytes: &[u8]) -> Result<(u32, &[u8]), LineFault>
    ensures { Gives result (field_at 8 bytes.now) }
{
    number(bytes, 8)
}

/// An address of eight digits and a space.
#[inline(always)]
pub fn address(bytes: &[u8]) -> Result<(u32, &[u8]), LineFault>
    ensures { Gives result (field_at 8 bytes.now) }
{
    match eight_digits(bytes) {
        Some(read) => Ok(read),
        None => any_eight_digits(bytes),
    }
}

/// A mask of `W` bits and a space.
#[inline(always)]
pub(crate) fn mask<const W: usize>(bytes: &[u8]) -> Result<(u16, &[u8]), LineFault>
    requires { IsWidth W }
    ensures gives { Gives result (field_at (W / 4) bytes.now) }
    ensures below { IfOk result (λ x. x.0 < 2 ^ W) }
{
    let (number, rest) = number(bytes, (W / 4) as u8)?;
    Ok((number as u16, rest))
}

/// The rest after the channel's letter and a space.
pub fn without_letter(bytes: &[u8]) -> &[u8]
    ensures { result.now ≡ drop 2 bytes.now }
{
    if bytes.len() < 2 { &[] } else { &bytes[2..] }
}

/// A param that fits into its channel's field, or else `F5`.
pub fn at_most(param: u8, greatest: u8) -> Result<u8, LineFault>
    ensures { result ≡ at_most greatest param }
{
    if param > greatest {
        return Err(LineFault::F5);
    }
    Ok(param)
}

fn bit(byte: u8) -> Result<bool, LineFault>
    ensures { result ≡ bit_of_byte byte }
{
    match byte {
        b'0' => Ok(false),
        b'1' => Ok(true),
        _ => Err(LineFault::F3),
    }
}

/// A bit and a space.
#[inline(always)]
pub fn bit_field(bytes: &[u8]) -> Result<(bool, &[u8]), LineFault>
    ensures { Gives result (bit_field_at bytes.now) }
{
    match bytes {
        [] => Err(LineFault::F3),
        [first, rest @ ..] => {
            let bit = bit(*first)?;
            let rest = space(rest)?;
            Ok((bit, rest))
        }
    }
}

#[inline(always)]
fn pair(bytes: &[u8]) -> Result<(u8, &[u8]), LineFault>
    ensures { Gives result (pair_at bytes.now) }
{
    match bytes {
        [high, low, rest @ ..] => {
            let (high, low) = (value(*high), value(*low));
            if high < 16 && low < 16 {
                return Ok((16 * high + low, rest));
            }
            Err(LineFault::F3)
        }
        _ => Err(LineFault::F3),
    }
}

/// Lanes from pairs of digits.
#[inline(never)]
fn any_lanes<const W: usize>(field: &[u8]) -> Result<[u8; W], LineFault>
    ensures { result ≡ lanes_at [] W field.now }
{
    let mut lanes = [0u8; W];
    let mut rest = field;
    for i in 0..W {
        let (lane, after) = pair(rest)?;
        lanes[W - 1 - i] = lane;
        rest = after;
    }
    if !rest.is_empty() {
        return Err(LineFault::F3);
    }
    Ok(lanes)
}

/// Copies eight lanes to a place.
#[inline(always)]
pub(crate) fn copy_eight(lanes: &mut [u8], at: usize, eight: &[u8; 8])
    requires { at + 8 ≤ length lanes.old }
    ensures { lanes.new ≡ take at lanes.old ++ (eight.now ++ drop (at + 8) lanes.old) }
{
    u8x8::from_array(*eight).copy_to_slice(&mut lanes[at..at + 8]);
}

/// Lanes, eight at a time.
#[inline(always)]
fn spelled_lanes<const W: usize>(field: &[u8]) -> Option<[u8; W]>
    ensures { IfSome result (λ lanes. lanes_at [] W field.now ≡ Ok lanes) }
{
    if W % 8 != 0 || field.len() % 2 != 0 || field.len() / 2 != W {
        return None;
    }
    let mut lanes = [0u8; W];
    for i in 0..W / 8 {
        let eight = eight_lanes(&field[16 * i..16 * i + 16])?;
        copy_eight(&mut lanes[..], W - 8 * (i + 1), &eight);
    }
    Some(lanes)
}

#[inline(always)]
fn lanes<const W: usize>(field: &[u8]) -> Result<[u8; W], LineFault>
    ensures { result ≡ lanes_at [] W field.now }
{
    match spelled_lanes(field) {
        Some(lanes) => Ok(lanes),
        None => any_lanes(field),
    }
}

#[inline(always)]
fn data<const W: usize>(field: &[u8]) -> Result<Option<[u8; W]>, LineFault>
    ensures { result ≡ data_at W field.now }
{
    match field {
        [b'-'] => Ok(None),
        _ => Ok(Some(lanes(field)?)),
    }
}

/// Data and the corrupt bit, the last two fields of a line.
#[tactic(auto, unfolding(crate::specs::code::FromLeft::tail_at))]
#[inline(always)]
pub fn tail<const W: usize>(bytes: &[u8]) -> Result<(Option<[u8; W]>, bool), LineFault>
    ensures { result ≡ tail_at W bytes.now }
{
    match bytes {
        [field @ .., b' ', last] => {
            let lanes = data(field)?;
            let corrupt = bit(*last)?;
            Ok((lanes, corrupt))
        }
        _ => Err(LineFault::F3),
    }
}
