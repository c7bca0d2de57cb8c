//! Text of up to 64 bytes, built from digits, lanes and bits.

ghost use Rattle.std.specs.Prelude.{◌≡◌, ◌<◌, ◌≤◌, ◌+◌, ◌*◌, ◌++◌, ◌∷◌, [], length};
ghost use Rattle.tl_beat.specs.statement.Digits.{digit_char, digits, lane_digits, lanes_text, bit_text};
ghost use Rattle.tl_beat.specs.statement.Width.{IsWidth};

use crate::lanes::sixteen_digits;
use arrayvec::ArrayVec;

const DIGITS: [u8; 16] = *b"0123456789abcdef";

#[inline(always)]
fn digit_byte(digit: u8) -> u8
    requires { digit < 16 }
    ensures { result ≡ digit_char digit }
{
    DIGITS[usize::from(digit)]
}

/// Appends the lowest `count` hexadecimal digits of a number, from the highest on.
#[inline(always)]
pub fn append_digits(text: &mut ArrayVec<u8, 64>, number: u32, count: u8)
    requires count { count ≤ 8 }
    requires room { length text.old.items + count ≤ 64 }
    ensures text { text.new.items ≡ text.old.items ++ digits count number }
    ensures len { length text.new.items ≡ length text.old.items + count }
{
    for i in 0..count {
        let shift = 4 * (count - 1 - i);
        let digit = (number >> shift) % 16;
        text.push(digit_byte(digit as u8));
    }
}

/// Appends the digits of lanes, one lane at a time.
#[inline(always)]
fn append_each_lane<const W: usize>(text: &mut ArrayVec<u8, 64>, lanes: &[u8; W])
    requires width { IsWidth W }
    requires room { length text.old.items ≤ 32 }
    ensures text { text.new.items ≡ text.old.items ++ lane_digits lanes.now }
    ensures len { length text.new.items ≡ length text.old.items + 2 * W }
{
    for i in 0..W {
        append_digits(text, u32::from(lanes[W - 1 - i]), 2);
    }
}

/// Appends the digits of eight lanes.
#[inline(always)]
fn append_eight_lanes(text: &mut ArrayVec<u8, 64>, lanes: &[u8])
    requires eight { length lanes.now ≡ 8 }
    requires room { length text.old.items ≤ 48 }
    ensures text { text.new.items ≡ text.old.items ++ lane_digits lanes.now }
    ensures len { length text.new.items ≡ length text.old.items + 16 }
{
    let _ = text.try_extend_from_slice(&sixteen_digits(lanes));
}

#[inline(always)]
fn append_lanes<const W: usize>(text: &mut ArrayVec<u8, 64>, lanes: &[u8; W])
    requires width { IsWidth W }
    requires room { length text.old.items ≤ 32 }
    ensures text { text.new.items ≡ text.old.items ++ lane_digits lanes.now }
    ensures len { length text.new.items ≡ length text.old.items + 2 * W }
{
    if W < 8 {
        append_each_lane(text, lanes);
        return;
    }
    let lanes = &lanes[..];
    if W == 8 {
        append_eight_lanes(text, lanes);
    } else {
        append_eight_lanes(text, &lanes[8..]);
        append_eight_lanes(text, &lanes[..8]);
    }
}

/// Appends the data of a beat: the digits of its lanes, the last lane first, or a dash.
#[inline(always)]
pub fn append_data<const W: usize>(text: &mut ArrayVec<u8, 64>, lanes: &Option<[u8; W]>)
    requires width { IsWidth W }
    requires room { length text.old.items ≤ 32 }
    ensures text { text.new.items ≡ text.old.items ++ lanes_text lanes.now }
    ensures len { length text.new.items ≤ length text.old.items + 32 }
{
    match lanes {
        None => text.push(b'-'),
        Some(lanes) => append_lanes(text, lanes),
    }
}

/// Appends 0 or 1.
#[inline(always)]
pub fn append_bit(text: &mut ArrayVec<u8, 64>, bit: bool)
    requires { length text.old.items < 64 }
    ensures text { text.new.items ≡ text.old.items ++ bit_text bit }
    ensures len { length text.new.items ≡ length text.old.items + 1 }
{
    text.push(if bit { b'1' } else { b'0' });
}
