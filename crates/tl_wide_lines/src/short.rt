//! Reads the line of a wide beat as the line of a beat, which lacks the higher digits of its names.

ghost use Rattle.std.specs.Prelude.{◌≡◌, ◌≤◌, ◌+◌, ◌∷◌, [], length, take, drop, IfSome, Ok};
ghost use Rattle.tl_beat.specs.code.Reading.{number_in};
ghost use Rattle.tl_beat.specs.statement.Width.{IsWidth};
ghost use Rattle.tl_wide_lines.specs.code.ShortLine.{SpellsWidened, shortened, whole_address, whole_id};

use tl_beat::beat::{Beat, Link};
use tl_beat::lanes::eight_digit_number;
use tl_beat::read::field::value;
use tl_beat::read::read_into;

/// Eight bytes `0`, as a number.
const ZEROS: u64 = 0x3030_3030_3030_3030;

/// Two bytes `0`, as a number.
const TWO_ZEROS: u16 = 0x3030;

/// The higher halves of the names of a wide beat, 0 for a name that its channel doesn't have.
#[derive(Clone, Copy)]
pub(crate) struct High {
    source: u8,
    address: u32,
    sink: u8,
}

impl High {
    /// The source with this lower half.
    #[inline(always)]
    pub(crate) fn whole_source(self, low: u8) -> u16
        ensures { result ≡ whole_id self.source low }
    {
        256 * u16::from(self.source) + u16::from(low)
    }

    /// The sink with this lower half.
    #[inline(always)]
    pub(crate) fn whole_sink(self, low: u8) -> u16
        ensures { result ≡ whole_id self.sink low }
    {
        256 * u16::from(self.sink) + u16::from(low)
    }

    /// The address with this lower half.
    #[inline(always)]
    pub(crate) fn whole_address(self, low: u32) -> u64
        ensures { result ≡ whole_address self.address low }
    {
        (u64::from(self.address) << 32) + u64::from(low)
    }
}

/// The number of two digits, the high one first, which are mostly 0 in the higher half of a name.
#[inline(always)]
fn two_digits(high: u8, low: u8) -> Option<u8>
    ensures { IfSome result (λ number. number_in 2 (high ∷ low ∷ []) ≡ Ok number) }
{
    if u16::from_le_bytes([high, low]) == TWO_ZEROS {
        return Some(0);
    }
    let (high_value, low_value) = (value(high), value(low));
    if (high_value < 16) & (low_value < 16) {
        Some(16 * high_value + low_value)
    } else {
        None
    }
}

/// The number of the eight digits at a place, which are mostly 0 in the higher half of an address.
#[inline(always)]
fn eight_digits(line: &[u8], at: usize) -> Option<u32>
    requires { at + 8 ≤ length line.now }
    ensures { IfSome result (λ number. number_in 8 (take 8 (drop at line.now)) ≡ Ok number) }
{
    let field = line[at..at + 8].as_array::<8>()?;
    if u64::from_le_bytes(*field) == ZEROS {
        return Some(0);
    }
    eight_digit_number(field)
}

/// Copies a line of channel A to D without the two higher digits of its source and so many `more` of the field after
/// it.
#[inline(always)]
fn shorten(short: &mut [u8], line: &[u8], more: usize)
    requires long { length line.now ≡ length short.old + (2 + more) }
    requires some { 14 ≤ length short.old }
    ensures { short.new ≡ shortened line.now more }
{
    short[..11].copy_from_slice(&line[..11]);
    short[11..14].copy_from_slice(&line[13..16]);
    short[14..].copy_from_slice(&line[16 + more..]);
}

/// Reads a line of channel A, B or C, of which the shorter line has `N` bytes.
#[inline(always)]
fn message<const N: usize, const W: usize>(line: &[u8], beat: &mut Beat<W>) -> Option<(Link, High)>
    requires width { IsWidth W }
    requires long { length line.now ≡ N + 10 }
    requires some { 14 ≤ N }
    ensures { IfSome result (SpellsWidened line.now beat.new) }
{
    if line[3] > b'C' {
        return None;
    }
    let source = two_digits(line[11], line[12])?;
    let address = eight_digits(line, 16)?;
    let mut short = [0u8; N];
    shorten(&mut short[..], line, 8);
    let link = read_into(&short, beat).ok()?;
    let high = High {
        source,
        address,
        sink: 0,
    };
    Some((link, high))
}

/// Reads a line of channel D, of which the shorter line has `N` bytes.
#[inline(always)]
fn response<const N: usize, const W: usize>(line: &[u8], beat: &mut Beat<W>) -> Option<(Link, High)>
    requires width { IsWidth W }
    requires long { length line.now ≡ N + 4 }
    requires some { 14 ≤ N }
    ensures { IfSome result (SpellsWidened line.now beat.new) }
{
    if line[3] != b'D' {
        return None;
    }
    let source = two_digits(line[11], line[12])?;
    let sink = two_digits(line[16], line[17])?;
    let mut short = [0u8; N];
    shorten(&mut short[..], line, 2);
    let link = read_into(&short, beat).ok()?;
    let high = High {
        source,
        address: 0,
        sink,
    };
    Some((link, high))
}

/// Reads a line of channel E.
#[inline(always)]
fn acknowledgment<const W: usize>(line: &[u8], beat: &mut Beat<W>) -> Option<(Link, High)>
    requires width { IsWidth W }
    ensures { IfSome result (SpellsWidened line.now beat.new) }
{
    let [l1, l0, b1, b'E', b2, s3, s2, s1, s0, end] = line else {
        return None;
    };
    let sink = two_digits(*s3, *s2)?;
    let short = [*l1, *l0, *b1, b'E', *b2, *s1, *s0, *end];
    let link = read_into(&short, beat).ok()?;
    let high = High {
        source: 0,
        address: 0,
        sink,
    };
    Some((link, high))
}

/// Reads the line of a wide beat of `W` bytes (4, 8 or 16), with its line feed: `beat` gets the lower halves of its
/// names, and the answer has its link and their higher halves. `None` says nothing of the line: another length may be
/// that of a line too.
#[inline(always)]
pub(crate) fn read_short<const W: usize>(line: &[u8], beat: &mut Beat<W>) -> Option<(Link, High)>
    requires { IsWidth W }
    ensures { IfSome result (SpellsWidened line.now beat.new) }
{
    match line.len() {
        10 => acknowledgment(line, beat),
        27 => response::<23, W>(line, beat),
        37 => message::<27, W>(line, beat),
        40 if W == 8 => message::<30, W>(line, beat),
        42 if W == 8 => response::<38, W>(line, beat),
        52 if W == 8 => message::<42, W>(line, beat),
        55 if W == 8 => message::<45, W>(line, beat),
        42 if W == 16 => message::<32, W>(line, beat),
        58 if W == 16 => response::<54, W>(line, beat),
        68 if W == 16 => message::<58, W>(line, beat),
        73 if W == 16 => message::<63, W>(line, beat),
        _ => None,
    }
}
