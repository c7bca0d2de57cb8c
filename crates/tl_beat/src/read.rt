//! Reads a line of text as a beat.

pub mod field;
mod line;
mod whole;

ghost use Rattle.std.specs.Prelude.{◌≡◌, ◌==◌, ◌^◌, ◌<◌, ℕ, List, Some, Ok, IfErr, IfOk, MatchOption, position};
ghost use Rattle.std.specs.List.{after_first};
ghost use Rattle.std.specs.Result.{result_err};
ghost use Rattle.tl_beat.specs.declared.beat.Link.{Link};
ghost use Rattle.tl_beat.specs.declared.beat.Beat.{Beat};
ghost use Rattle.tl_beat.specs.code.FromLeft.{letter_in, spaces_in, body_at, line_at, line_with, placed};
ghost use Rattle.tl_beat.specs.statement.Line.{Spells, line_fault};
ghost use Rattle.tl_beat.specs.statement.Width.{IsWidth};

use crate::beat::{Beat, BeatE, Link};
use crate::fault::LineFault;
use crate::read::line::{any_head, line_a, line_b, line_c, line_d, line_e, spelled_head};
use crate::read::whole::spelled_line;

/// The uses of `spelled_line`: by `read_into` and `read_line`, and by `read_spelled`.
const ANY_USE: usize = 0;

const OWN_USE: usize = 1;

/// The byte after the first space, if it is a field of its own.
pub fn letter(bytes: &[u8]) -> Option<u8>
    ensures { result ≡ letter_in bytes.now }
{
    match bytes {
        [] => None,
        [c] => Some(*c),
        [c, b' ', ..] => Some(*c),
        [_, _, ..] => None,
    }
}

fn first_space(bytes: &[u8]) -> Option<usize>
    ensures { result ≡ position (λ b. b == 32) bytes.now }
{
    bytes.iter().position(|b| *b == b' ')
}

/// The rest after the first space.
pub fn after_space(bytes: &[u8]) -> &[u8]
    ensures { result.now ≡ after_first (λ b. b == 32) bytes.now }
{
    match first_space(bytes) {
        None => &[],
        Some(i) => &bytes[i + 1..],
    }
}

/// The number of spaces.
pub fn spaces(bytes: &[u8]) -> usize
    ensures { result ≡ spaces_in bytes.now }
{
    bytes.iter().filter(|b| **b == b' ').count()
}

/// Reads the line of a channel with this letter, which has this many spaces, into `beat`, and returns its link.
#[tactic(auto, unfolding(crate::specs::code::FromLeft::line_a_at, crate::specs::code::FromLeft::line_b_at, crate::specs::code::FromLeft::line_c_at, crate::specs::code::FromLeft::line_d_at))]
fn line_with<const W: usize>(
    letter: Option<u8>,
    spaces: usize,
    bytes: &[u8],
    beat: &mut Beat<W>,
) -> Result<Link, LineFault>
    requires { IsWidth W }
    ensures read { placed result beat.new ≡ line_with letter spaces bytes.now }
    ensures unchanged { IfErr result (λ _. beat.new ≡ beat.old) }
{
    match letter {
        Some(b'A') if spaces == 9 => {
            let (head, rest) = any_head(bytes)?;
            line_a(head, rest, beat)
        }
        Some(b'B') if spaces == 9 => {
            let (head, rest) = any_head(bytes)?;
            line_b(head, rest, beat)
        }
        Some(b'C') if spaces == 8 => {
            let (head, rest) = any_head(bytes)?;
            line_c(head, rest, beat)
        }
        Some(b'D') if spaces == 9 => {
            let (head, rest) = any_head(bytes)?;
            line_d(head, rest, beat)
        }
        Some(b'E') if spaces == 2 => line_e(bytes, beat),
        Some(b'A'..=b'E') => Err(LineFault::F1),
        _ => Err(LineFault::F2),
    }
}

/// A line without its line feed, by its letter and its spaces first.
#[cold]
#[inline(never)]
fn any_body<const W: usize>(bytes: &[u8], beat: &mut Beat<W>) -> Result<Link, LineFault>
    requires { IsWidth W }
    ensures read { placed result beat.new ≡ body_at bytes.now }
    ensures unchanged { IfErr result (λ _. beat.new ≡ beat.old) }
{
    let spaces = spaces(bytes);
    if spaces == 0 {
        return Err(LineFault::F1);
    }
    line_with(letter(after_space(bytes)), spaces, bytes, beat)
}

/// A line without its line feed, its letter at the fourth place.
#[inline(always)]
fn spelled_body<const W: usize>(bytes: &[u8], beat: &mut Beat<W>) -> Option<Link>
    requires { IsWidth W }
    ensures { MatchOption result (beat.new ≡ beat.old) (λ link. body_at bytes.now ≡ Ok (link, beat.new)) }
{
    let [_, _, _, letter, b' ', ..] = bytes else {
        return None;
    };
    if *letter == b'E' {
        return line_e(bytes, beat).ok();
    }
    let (head, rest) = spelled_head(bytes)?;
    match *letter {
        b'A' => line_a(head, rest, beat).ok(),
        b'B' => line_b(head, rest, beat).ok(),
        b'C' => line_c(head, rest, beat).ok(),
        b'D' => line_d(head, rest, beat).ok(),
        _ => None,
    }
}

/// A line without its line feed. If it spells no beat, its first fault is looked for.
#[inline(always)]
fn body<const W: usize>(bytes: &[u8], beat: &mut Beat<W>) -> Result<Link, LineFault>
    requires { IsWidth W }
    ensures read { placed result beat.new ≡ body_at bytes.now }
    ensures unchanged { IfErr result (λ _. beat.new ≡ beat.old) }
{
    match spelled_body(bytes, beat) {
        Some(link) => Ok(link),
        None => any_body(bytes, beat),
    }
}

/// A line, by its length and its line feed first.
#[inline(never)]
fn any_line<const W: usize>(line: &[u8], beat: &mut Beat<W>) -> Result<Link, LineFault>
    requires { IsWidth W }
    ensures read { placed result beat.new ≡ line_at line.now }
    ensures unchanged { IfErr result (λ _. beat.new ≡ beat.old) }
{
    if line.len() > 256 {
        return Err(LineFault::F1);
    }
    match line {
        [bytes @ .., b'\n'] => body(bytes, beat),
        _ => Err(LineFault::F1),
    }
}

/// A line. It is read from left to right unless each byte is at its place.
#[inline(always)]
fn place_line<const W: usize>(line: &[u8], beat: &mut Beat<W>) -> Result<Link, LineFault>
    requires { IsWidth W }
    ensures read { placed result beat.new ≡ line_at line.now }
    ensures unchanged { IfErr result (λ _. beat.new ≡ beat.old) }
{
    match spelled_line::<W, ANY_USE>(line, beat) {
        Some(link) => Ok(link),
        None => any_line(line, beat),
    }
}

/// The link and the beat that a line spells.
#[inline(always)]
fn whole_line<const W: usize>(line: &[u8]) -> Result<(Link, Beat<W>), LineFault>
    requires { IsWidth W }
    ensures { result ≡ line_at line.now }
{
    let mut beat = Beat::E(BeatE { sink: 0 });
    let link = place_line(line, &mut beat)?;
    Ok((link, beat))
}

/// Reads a line that has each byte at its place, as most lines of beats without data or of eight bytes have, into
/// `beat`, and returns its link. If there is no link, nothing is said of the line, and the beat stays as it was. The
/// compiler leaves out the fields that the caller doesn't use, if no other call takes the beat by reference.
#[inline(always)]
pub fn read_spelled<const W: usize>(line: &[u8], beat: &mut Beat<W>) -> Option<Link>
    requires { IsWidth W }
    ensures { MatchOption result (beat.new ≡ beat.old) (λ link. Spells line.now link beat.new) }
{
    spelled_line::<W, OWN_USE>(line, beat)
}

/// Reads a line of text, with its line feed, into a beat of `W` bytes (4, 8 or 16), and returns its link. The error for
/// a line that spells no beat is its first fault, and the beat stays as it was. It takes any bytes and allocates no
/// memory. A line of more than 256 bytes is refused by its length alone.
#[inline(always)]
pub fn read_into<const W: usize>(line: &[u8], beat: &mut Beat<W>) -> Result<Link, LineFault>
    requires { IsWidth W }

    // What is read is spelled by the line, whatever the line spells is read, and the fault of a line that
    // spells none is the first of the table.
    ensures spelled { IfOk result (λ link. Spells line.now link beat.new) }
    ensures every_spelling { (link : Link) (read : Beat W) → Spells line.now link read →
        (result ≡ Ok link) × (beat.new ≡ read) }
    ensures fault { result_err result ≡ line_fault W line.now }
    ensures unchanged { IfErr result (λ _. beat.new ≡ beat.old) }
{
    place_line(line, beat)
}

/// Reads a line of text, with its line feed, as a link and a beat of `W` bytes (4, 8 or 16). The error for a line that
/// spells no beat is its first fault. It takes any bytes and allocates no memory. A line of more than 256 bytes is
/// refused by its length alone.
#[inline(always)]
pub fn read_line<const W: usize>(line: &[u8]) -> Result<(Link, Beat<W>), LineFault>
    requires { IsWidth W }

    // What is read is spelled by the line, whatever the line spells is read, no two beats have one
    // line, and the fault of a line that spells none is the first of the table.
    ensures spelled { IfOk result (λ read. Spells line.now read.0 read.1) }
    ensures every_spelling { (link : Link) (beat : Beat W) → Spells line.now link beat → result ≡ Ok (link, beat) }
    ensures one_beat { (k l : Link) (b c : Beat W) → Spells line.now k b → Spells line.now l c → (k ≡ l) × (b ≡ c) }
    ensures fault { result_err result ≡ line_fault W line.now }
{
    whole_line(line)
}
