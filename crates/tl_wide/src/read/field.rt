//! Reading the longer fields of wide lines.

ghost use Rattle.std.specs.Prelude.{◌≡◌, ◌<◌, ◌+◌, ◌*◌, ◌/◌, ◌^◌, IfSome, Ok};
ghost use Rattle.tl_beat.specs.code.FromLeft.{Gives, digits_at, field_at};
ghost use Rattle.tl_wide.specs.statement.Width.{IsWideWidth};

use tl_beat::fault::LineFault;
use tl_beat::lanes::eight_digit_number;
use tl_beat::read::field::{address as eight_digits, digits, number, space, value};

/// A number of four digits and a space, from left to right.
#[cold]
#[inline(never)]
fn any_id(bytes: &[u8]) -> Result<(u16, &[u8]), LineFault>
    ensures { Gives result (field_at 4 bytes.now) }
{
    let (number, rest) = number(bytes, 4)?;
    Ok((number as u16, rest))
}

/// A number of four digits and a space, each at its place.
#[inline(always)]
fn spelled_id(bytes: &[u8]) -> Option<(u16, &[u8])>
    ensures { IfSome result (λ read. field_at 4 bytes.now ≡ Ok (read.0, read.1.now)) }
{
    let [s3, s2, s1, s0, b' ', rest @ ..] = bytes else {
        return None;
    };
    let (s3, s2, s1, s0) = (value(*s3), value(*s2), value(*s1), value(*s0));
    if !(((s3 < 16) & (s2 < 16)) & ((s1 < 16) & (s0 < 16))) {
        return None;
    }
    let number = 256 * u16::from(16 * s3 + s2) + u16::from(16 * s1 + s0);
    Some((number, rest))
}

/// A number of four digits and a space.
#[inline(always)]
pub(crate) fn id(bytes: &[u8]) -> Result<(u16, &[u8]), LineFault>
    ensures { Gives result (field_at 4 bytes.now) }
{
    match spelled_id(bytes) {
        Some(read) => Ok(read),
        None => any_id(bytes),
    }
}

/// The number of two halves of eight digits each.
#[inline(always)]
fn joined(high: u32, low: u32) -> u64
    requires { low < 16 ^ 8 }
    ensures { result ≡ 16 ^ 8 * high + low }
{
    (u64::from(high) << 32) + u64::from(low)
}

/// Sixteen digits at the front, from left to right.
#[cold]
#[inline(never)]
fn any_sixteen_digits(bytes: &[u8]) -> Result<(u64, &[u8]), LineFault>
    ensures { Gives result (digits_at 0 16 bytes.now) }
{
    let (high, rest) = digits(bytes, 8)?;
    let (low, rest) = digits(rest, 8)?;
    Ok((joined(high, low), rest))
}

/// Eight digits at the front, each at its place.
#[inline(always)]
fn half(bytes: &[u8]) -> Option<(u32, &[u8])>
    ensures { IfSome result (λ read. digits_at 0 8 bytes.now ≡ Ok (read.0, read.1.now)) }
{
    let (field, rest) = bytes.split_first_chunk::<8>()?;
    let number = eight_digit_number(field)?;
    Some((number, rest))
}

/// Sixteen digits at the front, each at its place.
#[inline(always)]
fn sixteen_digits(bytes: &[u8]) -> Option<(u64, &[u8])>
    ensures { IfSome result (λ read. digits_at 0 16 bytes.now ≡ Ok (read.0, read.1.now)) }
{
    let (high, middle) = half(bytes)?;
    let (low, rest) = half(middle)?;
    Some((joined(high, low), rest))
}

/// A number of sixteen digits and a space.
#[inline(always)]
pub(crate) fn address(bytes: &[u8]) -> Result<(u64, &[u8]), LineFault>
    ensures { Gives result (field_at 16 bytes.now) }
{
    let (number, rest) = match sixteen_digits(bytes) {
        Some(read) => read,
        None => any_sixteen_digits(bytes)?,
    };
    let rest = space(rest)?;
    Ok((number, rest))
}

/// A mask of `W` bits and a space.
#[inline(always)]
pub(crate) fn mask<const W: usize>(bytes: &[u8]) -> Result<(u64, &[u8]), LineFault>
    requires { IsWideWidth W }
    ensures { Gives result (field_at (W / 4) bytes.now) }
{
    if W == 64 {
        return address(bytes);
    }
    if W == 32 {
        let (number, rest) = eight_digits(bytes)?;
        return Ok((u64::from(number), rest));
    }
    let (number, rest) = number(bytes, (W / 4) as u8)?;
    Ok((u64::from(number), rest))
}
