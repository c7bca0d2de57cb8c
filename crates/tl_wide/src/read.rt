//! Reading a line of text as a beat.

mod field;
mod line;

ghost use Rattle.std.specs.Prelude.{◌≡◌, ◌==◌, ◌^◌, ◌<◌, ℕ, List, Some, Ok, IfErr, IfOk, MatchOption, position};
ghost use Rattle.std.specs.List.{after_first};
ghost use Rattle.std.specs.Result.{result_err};
ghost use Rattle.tl_beat.specs.declared.beat.Link.{Link};
ghost use Rattle.tl_wide.specs.declared.beat.WideBeat.{WideBeat};
ghost use Rattle.tl_wide.specs.code.FromLeft.{body_at, line_at, line_with, placed};
ghost use Rattle.tl_wide.specs.statement.Line.{WideSpells, wide_line_fault};
ghost use Rattle.tl_wide.specs.statement.Width.{IsWideWidth};

use crate::beat::WideBeat;
use crate::read::line::{any_head, line_a, line_b, line_c, line_d, line_e, spelled_head};
use tl_beat::beat::Link;
use tl_beat::fault::LineFault;
use tl_beat::read::{after_space, letter, spaces};

/// Reads the line of a channel with this letter, which has this many spaces, into `beat`, and returns its link.
#[tactic(auto, unfolding(crate::specs::code::FromLeft::line_a_at, crate::specs::code::FromLeft::line_b_at, crate::specs::code::FromLeft::line_c_at, crate::specs::code::FromLeft::line_d_at))]
fn line_with<const W: usize>(
    letter: Option<u8>,
    spaces: usize,
    bytes: &[u8],
    beat: &mut WideBeat<W>,
) -> Result<Link, LineFault>
    requires { IsWideWidth W }
    ensures read { placed result beat.new ≡ line_with letter spaces bytes.now }
    ensures unchanged { IfErr result (λ _. beat.new ≡ beat.old) }
{
    match letter {
        Some(b'A') if spaces == 9 => {
            let (head, rest) = any_head(bytes)?;
            line_a(head, rest, beat)
        }
        Some(b'B') if spaces == 9 => {
            let (head, rest) = any_head(bytes)?;
            line_b(head, rest, beat)
        }
        Some(b'C') if spaces == 8 => {
            let (head, rest) = any_head(bytes)?;
            line_c(head, rest, beat)
        }
        Some(b'D') if spaces == 9 => {
            let (head, rest) = any_head(bytes)?;
            line_d(head, rest, beat)
        }
        Some(b'E') if spaces == 2 => line_e(bytes, beat),
        Some(b'A'..=b'E') => Err(LineFault::F1),
        _ => Err(LineFault::F2),
    }
}

/// A line without its line feed, by its letter and its spaces first.
#[cold]
#[inline(never)]
fn any_body<const W: usize>(bytes: &[u8], beat: &mut WideBeat<W>) -> Result<Link, LineFault>
    requires { IsWideWidth W }
    ensures read { placed result beat.new ≡ body_at bytes.now }
    ensures unchanged { IfErr result (λ _. beat.new ≡ beat.old) }
{
    let spaces = spaces(bytes);
    if spaces == 0 {
        return Err(LineFault::F1);
    }
    line_with(letter(after_space(bytes)), spaces, bytes, beat)
}

/// A line without its line feed, its letter at the fourth place.
#[inline(always)]
fn spelled_body<const W: usize>(bytes: &[u8], beat: &mut WideBeat<W>) -> Option<Link>
    requires { IsWideWidth W }
    ensures { MatchOption result (beat.new ≡ beat.old) (λ link. body_at bytes.now ≡ Ok (link, beat.new)) }
{
    let [_, _, _, letter, b' ', ..] = bytes else {
        return None;
    };
    if *letter == b'E' {
        return line_e(bytes, beat).ok();
    }
    let (head, rest) = spelled_head(bytes)?;
    match *letter {
        b'A' => line_a(head, rest, beat).ok(),
        b'B' => line_b(head, rest, beat).ok(),
        b'C' => line_c(head, rest, beat).ok(),
        b'D' => line_d(head, rest, beat).ok(),
        _ => None,
    }
}

/// A line without its line feed. If it spells no beat, its first fault is looked for.
#[inline(always)]
fn body<const W: usize>(bytes: &[u8], beat: &mut WideBeat<W>) -> Result<Link, LineFault>
    requires { IsWideWidth W }
    ensures read { placed result beat.new ≡ body_at bytes.now }
    ensures unchanged { IfErr result (λ _. beat.new ≡ beat.old) }
{
    match spelled_body(bytes, beat) {
        Some(link) => Ok(link),
        None => any_body(bytes, beat),
    }
}

/// A line, by its length and its line feed first.
#[inline(always)]
fn place_line<const W: usize>(line: &[u8], beat: &mut WideBeat<W>) -> Result<Link, LineFault>
    requires { IsWideWidth W }
    ensures read { placed result beat.new ≡ line_at line.now }
    ensures unchanged { IfErr result (λ _. beat.new ≡ beat.old) }
{
    if line.len() > 256 {
        return Err(LineFault::F1);
    }
    match line {
        [bytes @ .., b'\n'] => body(bytes, beat),
        _ => Err(LineFault::F1),
    }
}

/// Reads a line of text, with its line feed, into a wide beat, and returns its link. The error for a line that spells
/// no wide beat is its first fault, and the beat stays as it was. It takes any bytes and allocates no memory. A line of
/// more than 256 bytes is refused by its length alone.
#[inline(always)]
pub fn read_wide_into<const W: usize>(
    line: &[u8],
    beat: &mut WideBeat<W>,
) -> Result<Link, LineFault>
    requires { IsWideWidth W }

    // What is read is spelled by the line, whatever the line spells is read, and the fault of a line that
    // spells none is the first of the table.
    ensures spelled { IfOk result (λ link. WideSpells line.now link beat.new) }
    ensures every_spelling { (link : Link) (read : WideBeat W) → WideSpells line.now link read →
        (result ≡ Ok link) × (beat.new ≡ read) }
    ensures fault { result_err result ≡ wide_line_fault W line.now }
    ensures unchanged { IfErr result (λ _. beat.new ≡ beat.old) }
{
    place_line(line, beat)
}
