//! Reads a line that has each byte at its place.

ghost use Rattle.std.specs.Prelude.{◌≡◌, ◌<◌, ◌≤◌, ◌+◌, ◌++◌, [], true, ℕ, List, length, take, drop, slice_index, IfSome, MatchOption, Ok};
ghost use Rattle.std.specs.Bool.{OnTrue};
ghost use Rattle.std.specs.List.{AllPass};
ghost use Rattle.tl_beat.specs.code.Form.{may_stand, Follow, head_in, lanes_two, two_digits, IsMasked};
ghost use Rattle.tl_beat.specs.code.FromLeft.{digits_at, lanes_at, body_at, line_at};
ghost use Rattle.tl_beat.specs.statement.Digits.{is_digit};

use crate::beat::{Beat, BeatE, Link};
use crate::lanes::{follow, front_numbers, lanes_of_digits, number_of_digits};
use crate::read::field::{copy_eight, value};
use crate::read::line::{Head, place_a, place_b, place_c, place_d};
use std::simd::{u8x8, u8x16};

/// The forms of the lines of channels A and B without data and with data, for beats of eight bytes: a digit at `#`, 0
/// or 1 at `?`, any byte at a dot, and otherwise that byte.
const MASKED: [u8; 30] = *b"## . # # # ## ######## ## - ?\n";

const MASKED_DATA: [u8; 45] = *b"## . # # # ## ######## ## ################ ?\n";

/// The same for channel C.
const REPORT: [u8; 27] = *b"## C # # # ## ######## - ?\n";

const REPORT_DATA: [u8; 42] = *b"## C # # # ## ######## ################ ?\n";

/// The same for channel D.
const RESPONSE: [u8; 23] = *b"## D # # # ## ## ? - ?\n";

const RESPONSE_DATA: [u8; 38] = *b"## D # # # ## ## ? ################ ?\n";

/// Whether a form allows sixteen bytes of a line, from a place on.
#[inline(always)]
fn sixteen_follow(line: &[u8], form: &[u8], at: usize) -> bool
    requires line { at + 16 ≤ length line.now }
    requires form { at + 16 ≤ length form.now }
    ensures { OnTrue result ((i : ℕ) → at ≤ i → i < at + 16 →
        may_stand (slice_index form.now i) (slice_index line.now i) ≡ true) }
{
    follow(
        u8x16::from_slice(&line[at..at + 16]),
        u8x16::from_slice(&form[at..at + 16]),
    )
}

/// The line, if it is as long as a form and the form allows each byte at its place.
#[inline(always)]
fn spelled<'a, const N: usize>(line: &'a [u8], form: &[u8; N]) -> Option<&'a [u8; N]>
    requires { (16 ≤ N) × (N ≤ 48) }
    ensures { IfSome result (λ whole. (whole.now ≡ line.now) × (length whole.now ≡ N) × Follow form.now whole.now) }
{
    let whole = line.as_array::<N>()?;
    let form = &form[..];
    let start = sixteen_follow(line, form, 0);
    let middle = N <= 32 || sixteen_follow(line, form, 16);
    let end = sixteen_follow(line, form, N - 16);
    if start & middle & end {
        Some(whole)
    } else {
        None
    }
}

/// The number of the two digits at a place.
#[inline(always)]
fn two_digits(line: &[u8], at: usize) -> u8
    requires { at + 1 < length line.now }
    ensures { result ≡ two_digits line.now at }
{
    value(line[at])
        .wrapping_mul(16)
        .wrapping_add(value(line[at + 1]))
}

/// The first fields of a line, each at its place, and the number of the two digits after them.
#[inline(always)]
fn front_of(line: &[u8]) -> (Head, u8)
    requires { 16 ≤ length line.now }
    ensures { result ≡ (head_in line.now, lanes_two line.now 14 15) }
{
    let [link, opcode, param, size, source, behind, _, _] = front_numbers(u8x16::from_slice(line));
    let head = Head {
        link,
        opcode,
        param,
        size,
        source,
    };
    (head, behind)
}

/// The address of a line, at its place.
#[inline(always)]
fn address_in(line: &[u8]) -> u32
    requires { 22 ≤ length line.now }
    ensures { AllPass is_digit (take 8 (drop 14 line.now)) → (rest : List ℕ) →
        digits_at 0 8 (take 8 (drop 14 line.now) ++ rest) ≡ Ok (result, rest) }
{
    number_of_digits(u8x8::from_slice(&line[14..22]))
}

/// The eight lanes of a line, whose digits begin at a place.
#[inline(always)]
fn lanes_in<const W: usize>(line: &[u8], at: usize) -> [u8; W]
    requires width { W ≡ 8 }
    requires within { at + 16 ≤ length line.now }
    ensures { AllPass is_digit (take 16 (drop at line.now)) → lanes_at [] W (take 16 (drop at line.now)) ≡ Ok result }
{
    let mut lanes = [0u8; W];
    let eight = lanes_of_digits(u8x16::from_slice(&line[at..at + 16]));
    copy_eight(&mut lanes[..], 0, &eight);
    lanes
}

/// Places the beat of a line of channel A or B, by its letter.
#[inline(always)]
fn place_masked<const W: usize>(
    letter: u8,
    head: Head,
    address: u32,
    mask: u16,
    tail: (Option<[u8; W]>, bool),
    beat: &mut Beat<W>,
) -> Option<Link>
    ensures { (body : List ℕ) → IsMasked W body letter head address mask tail.entry.0 tail.entry.1 →
        MatchOption result (beat.new ≡ beat.old) (λ link. body_at body ≡ Ok (link, beat.new)) }
{
    match letter {
        b'A' => place_a(head, address, mask, tail, beat).ok(),
        b'B' => place_b(head, address, mask, tail, beat).ok(),
        _ => None,
    }
}

/// A line of channel A or B without data.
#[inline(always)]
fn masked<const W: usize>(line: &[u8], beat: &mut Beat<W>) -> Option<Link>
    requires { W ≡ 8 }
    ensures { MatchOption result (beat.new ≡ beat.old) (λ link. line_at line.now ≡ Ok (link, beat.new)) }
{
    let line = spelled(line, &MASKED)?;
    let (address, mask) = (address_in(line), u16::from(two_digits(line, 23)));
    let tail = (None, line[28] == b'1');
    place_masked(line[3], front_of(line).0, address, mask, tail, beat)
}

/// A line of channel A or B with data.
#[inline(always)]
fn masked_data<const W: usize>(line: &[u8], beat: &mut Beat<W>) -> Option<Link>
    requires { W ≡ 8 }
    ensures { MatchOption result (beat.new ≡ beat.old) (λ link. line_at line.now ≡ Ok (link, beat.new)) }
{
    let line = spelled(line, &MASKED_DATA)?;
    let (address, mask) = (address_in(line), u16::from(two_digits(line, 23)));
    let tail = (Some(lanes_in(line, 26)), line[43] == b'1');
    place_masked(line[3], front_of(line).0, address, mask, tail, beat)
}

/// A line of channel C without data.
#[inline(always)]
fn report<const W: usize>(line: &[u8], beat: &mut Beat<W>) -> Option<Link>
    ensures { MatchOption result (beat.new ≡ beat.old) (λ link. line_at line.now ≡ Ok (link, beat.new)) }
{
    let line = spelled(line, &REPORT)?;
    let tail = (None, line[25] == b'1');
    place_c(front_of(line).0, address_in(line), tail, beat).ok()
}

/// A line of channel C with data.
#[inline(always)]
fn report_data<const W: usize>(line: &[u8], beat: &mut Beat<W>) -> Option<Link>
    requires { W ≡ 8 }
    ensures { MatchOption result (beat.new ≡ beat.old) (λ link. line_at line.now ≡ Ok (link, beat.new)) }
{
    let line = spelled(line, &REPORT_DATA)?;
    let tail = (Some(lanes_in(line, 23)), line[40] == b'1');
    place_c(front_of(line).0, address_in(line), tail, beat).ok()
}

/// A line of channel D without data.
#[inline(always)]
fn response<const W: usize>(line: &[u8], beat: &mut Beat<W>) -> Option<Link>
    ensures { MatchOption result (beat.new ≡ beat.old) (λ link. line_at line.now ≡ Ok (link, beat.new)) }
{
    let line = spelled(line, &RESPONSE)?;
    let (head, sink) = front_of(line);
    let tail = (None, line[21] == b'1');
    place_d(head, sink, line[17] == b'1', tail, beat).ok()
}

/// A line of channel D with data.
#[inline(always)]
fn response_data<const W: usize>(line: &[u8], beat: &mut Beat<W>) -> Option<Link>
    requires { W ≡ 8 }
    ensures { MatchOption result (beat.new ≡ beat.old) (λ link. line_at line.now ≡ Ok (link, beat.new)) }
{
    let line = spelled(line, &RESPONSE_DATA)?;
    let (head, sink) = front_of(line);
    let tail = (Some(lanes_in(line, 19)), line[36] == b'1');
    place_d(head, sink, line[17] == b'1', tail, beat).ok()
}

/// A line of channel E.
#[inline(always)]
fn acknowledgment<const W: usize>(line: &[u8], beat: &mut Beat<W>) -> Option<Link>
    ensures { MatchOption result (beat.new ≡ beat.old) (λ link. line_at line.now ≡ Ok (link, beat.new)) }
{
    let [l1, l0, b' ', b'E', b' ', s1, s0, b'\n'] = line else {
        return None;
    };
    let (l1, l0, s1, s0) = (value(*l1), value(*l0), value(*s1), value(*s0));
    if !((l1 < 16) & (l0 < 16) & (s1 < 16) & (s0 < 16)) {
        return None;
    }
    *beat = Beat::E(BeatE { sink: 16 * s1 + s0 });
    Some(Link(16 * l1 + l0))
}

/// Reads a line that has each byte at its place into `beat`, and returns its link. If the length of the line depends on
/// the width, it does so only for beats of eight bytes. `USE` has no meaning: the compiler makes the code of each use by
/// itself, and leaves out the fields that the use doesn't read.
#[inline(always)]
pub(crate) fn spelled_line<const W: usize, const USE: usize>(
    line: &[u8],
    beat: &mut Beat<W>,
) -> Option<Link>
    ensures { MatchOption result (beat.new ≡ beat.old) (λ link. line_at line.now ≡ Ok (link, beat.new)) }
{
    match line.len() {
        8 => acknowledgment(line, beat),
        23 => response(line, beat),
        27 => report(line, beat),
        30 if W == 8 => masked(line, beat),
        38 if W == 8 => response_data(line, beat),
        42 if W == 8 => report_data(line, beat),
        45 if W == 8 => masked_data(line, beat),
        _ => None,
    }
}
