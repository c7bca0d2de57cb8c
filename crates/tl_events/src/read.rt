//! Reads a line of text as a commit.

ghost use Rattle.std.specs.Prelude.{◌≡◌, ◌≤◌, ◌<◌, ◌*◌, ◌+◌, ◌^◌, Ok, IfOk};
ghost use Rattle.std.specs.Result.{result_err};
ghost use Rattle.tl_beat.specs.code.FromLeft.{Gives, digits_at};
ghost use Rattle.tl_beat.specs.declared.beat.Link.{Link};
ghost use Rattle.tl_events.specs.code.CommitReading.{piece_of};
ghost use Rattle.tl_events.specs.code.FromLeft.{begin_at, body_at, last_number_at, line_at, line_with, valued_at};
ghost use Rattle.tl_events.specs.declared.commit.Commit.{Commit};
ghost use Rattle.tl_events.specs.statement.CommitLine.{SpellsCommit, commit_fault, value_digits};

use crate::commit::{Commit, Piece};
use tl_beat::beat::Link;
use tl_beat::fault::LineFault;
use tl_beat::read::field::{address, byte, digits, nibble, without_letter};
use tl_beat::read::{after_space, letter, spaces};

/// The fields of a store or a load.
#[derive(Clone, Copy)]
pub(crate) struct ValuedPiece {
    link: u8,
    piece: Piece,
    value: u64,
}

/// A piece of these numbers, or else `F3`: its size is at most 3, and its address a multiple of its number of bytes.
fn piece(size: u8, address: u32) -> Result<Piece, LineFault>
    ensures gives { result ≡ piece_of size address }
    ensures small { IfOk result (λ piece. size ≤ 3) }
{
    let piece = Piece { size, address };
    if piece.is_valid() {
        Ok(piece)
    } else {
        Err(LineFault::F3)
    }
}

/// The number of two halves of eight digits each.
fn joined(high: u32, low: u32) -> u64
    requires { low < 16 ^ 8 }
    ensures { result ≡ 16 ^ 8 * high + low }
{
    (u64::from(high) << 32) + u64::from(low)
}

/// Sixteen digits at the front.
fn sixteen_digits(bytes: &[u8]) -> Result<(u64, &[u8]), LineFault>
    ensures { Gives result (digits_at 0 16 bytes.now) }
{
    let (high, rest) = digits(bytes, 8)?;
    let (low, rest) = digits(rest, 8)?;
    Ok((joined(high, low), rest))
}

/// The number of digits of fewer than eight bytes.
fn few_digits(size: u8) -> u8
    requires { size < 3 }
    ensures count { result ≡ value_digits size }
    ensures few { result ≤ 8 }
{
    2 << size
}

/// The digits of the bytes of a piece of this size at the front.
fn value_front(bytes: &[u8], size: u8) -> Result<(u64, &[u8]), LineFault>
    requires { size ≤ 3 }
    ensures { Gives result (digits_at 0 (value_digits size) bytes.now) }
{
    if size >= 3 {
        return sixteen_digits(bytes);
    }
    let (number, rest) = digits(bytes, few_digits(size))?;
    Ok((u64::from(number), rest))
}

/// The digits of the bytes of a piece of this size, and nothing after them.
fn value(bytes: &[u8], size: u8) -> Result<u64, LineFault>
    requires { size ≤ 3 }
    ensures { result ≡ last_number_at (value_digits size) bytes.now }
{
    let (value, rest) = value_front(bytes, size)?;
    if !rest.is_empty() {
        return Err(LineFault::F3);
    }
    Ok(value)
}

/// The fields of a store or a load.
#[tactic(auto, unfolding(crate::specs::code::FromLeft::valued_at))]
fn valued(bytes: &[u8]) -> Result<ValuedPiece, LineFault>
    ensures { result ≡ valued_at bytes.now }
{
    let (link, rest) = byte(bytes)?;
    let (size, rest) = nibble(without_letter(rest))?;
    let (address, rest) = address(rest)?;
    let piece = piece(size, address)?;
    let value = value(rest, size)?;
    Ok(ValuedPiece { link, piece, value })
}

/// The digits of an address, and nothing after them.
fn last_address(bytes: &[u8]) -> Result<u32, LineFault>
    ensures { result ≡ last_number_at 8 bytes.now }
{
    let (address, rest) = digits(bytes, 8)?;
    if !rest.is_empty() {
        return Err(LineFault::F3);
    }
    Ok(address)
}

/// The beginning of a load.
#[tactic(auto, unfolding(crate::specs::code::FromLeft::begin_at))]
fn begin(bytes: &[u8]) -> Result<(Link, Commit), LineFault>
    ensures { result ≡ begin_at bytes.now }
{
    let (link, rest) = byte(bytes)?;
    let (size, rest) = nibble(without_letter(rest))?;
    let address = last_address(rest)?;
    let piece = piece(size, address)?;
    Ok((Link(link), Commit::Begin { piece }))
}

/// Reads the line with this letter, which has this many spaces.
fn line_with(letter: Option<u8>, spaces: usize, bytes: &[u8]) -> Result<(Link, Commit), LineFault>
    ensures { result ≡ line_with letter spaces bytes.now }
{
    match letter {
        Some(b'S') if spaces == 4 => {
            let ValuedPiece { link, piece, value } = valued(bytes)?;
            Ok((Link(link), Commit::Store { piece, value }))
        }
        Some(b'L') if spaces == 4 => {
            let ValuedPiece { link, piece, value } = valued(bytes)?;
            Ok((Link(link), Commit::Load { piece, value }))
        }
        Some(b'I') if spaces == 3 => begin(bytes),
        Some(b'S' | b'L' | b'I') => Err(LineFault::F1),
        _ => Err(LineFault::F2),
    }
}

/// A line without its line feed.
fn body(bytes: &[u8]) -> Result<(Link, Commit), LineFault>
    ensures { result ≡ body_at bytes.now }
{
    let spaces = spaces(bytes);
    if spaces == 0 {
        return Err(LineFault::F1);
    }
    line_with(letter(after_space(bytes)), spaces, bytes)
}

/// A line, by its length and its line feed first.
fn whole_line(line: &[u8]) -> Result<(Link, Commit), LineFault>
    ensures { result ≡ line_at line.now }
{
    if line.len() > 256 {
        return Err(LineFault::F1);
    }
    match line {
        [bytes @ .., b'\n'] => body(bytes),
        _ => Err(LineFault::F1),
    }
}

/// Reads a line of text, with its line feed, as a link and a commit. The error for a line that spells no commit is its
/// first fault. It takes any bytes and allocates no memory. A line of more than 256 bytes is refused by its length
/// alone.
pub fn read_commit(line: &[u8]) -> Result<(Link, Commit), LineFault>
    // What is read is spelled by the line, whatever the line spells is read, and the fault of a line that spells none
    // is the first of the table.
    ensures spelled { IfOk result (λ read. SpellsCommit line.now read.0 read.1) }
    ensures every_spelling { (link : Link) (x : Commit) → SpellsCommit line.now link x → result ≡ Ok (link, x) }
    ensures fault { result_err result ≡ commit_fault line.now }
{
    whole_line(line)
}
