//! Writes stores and loads in words.

ghost use Rattle.std.specs.Prelude.{◌≡◌, ◌≤◌, ◌+◌, ◌++◌, length};
ghost use Rattle.tl_beat.specs.statement.Digits.{digits};
ghost use Rattle.tl_commit_words.specs.statement.CommitWords;
ghost use Rattle.tl_commit_words.specs.statement.CommitWords.{action_words, commit_words, piece_in, piece_words, value_words};
ghost use Rattle.tl_commit_words.specs.statement.CommitWords.{wide_commit_words, wide_piece_in, widened, widened_piece};
ghost use Rattle.tl_events.specs.statement.CommitLine.{value_digits};

use arrayvec::ArrayVec;
use tl_beat::beat::Link;
use tl_events::commit::{Commit, Piece};
use tl_wide::text::append_long;
use tl_wide_events::commit::{WideCommit, WidePiece};

/// The number of digits of an address in a narrow trace.
const NARROW: u8 = 8;

/// That in a wide trace.
const WIDE: u8 = 16;

/// Appends a text.
fn append(words: &mut ArrayVec<u8, 64>, text: &str)
    requires room { length words.old.items + length text.now ≤ 64 }
    ensures text { words.new.items ≡ words.old.items ++ text.now }
    ensures len { length words.new.items ≡ length words.old.items + length text.now }
{
    let _ = words.try_extend_from_slice(text.as_bytes());
}

/// A number of bytes, `2^size` of them.
fn bytes_words(size: u8) -> &'static str
    ensures text { result.now ≡ CommitWords.bytes_words size }
    ensures few { length result.now ≤ 7 }
{
    match size {
        0 => "1 byte",
        1 => "2 bytes",
        2 => "4 bytes",
        _ => "8 bytes",
    }
}

/// The number of digits of the value of a piece.
fn value_digits(size: u8) -> u8
    requires { size ≤ 3 }
    ensures count { result ≡ value_digits size }
    ensures few { result ≤ 16 }
{
    2 << size
}

/// Appends the bytes of a piece, with this number of digits of their address.
fn append_piece(words: &mut ArrayVec<u8, 64>, piece: WidePiece, count: u8)
    requires count { count ≤ 16 }
    requires room { length words.old.items ≤ 18 }
    ensures text { words.new.items ≡ words.old.items ++ piece_words count piece }
    ensures len { length words.new.items ≤ length words.old.items + 27 }
{
    append(words, bytes_words(piece.size));
    append(words, " at ");
    append_long(words, piece.address, count);
}

/// Appends the bytes of a piece, and their value.
fn append_value(words: &mut ArrayVec<u8, 64>, piece: WidePiece, count: u8, value: u64)
    requires count { count ≤ 16 }
    requires size { piece.size ≤ 3 }
    requires room { length words.old.items ≤ 10 }
    ensures { words.new.items ≡ words.old.items ++ (piece_words count piece ++ value_words piece value) }
{
    append_piece(words, piece, count);
    append(words, ": ");
    append_long(words, value, value_digits(piece.size));
}

/// The words of a commit of a link, with this number of digits of the address.
fn action_of(link: Link, commit: WideCommit, count: u8) -> ArrayVec<u8, 64>
    requires count { count ≤ 16 }
    requires size { (wide_piece_in commit).size ≤ 3 }
    ensures { result.items ≡ digits 2 link.0 ++ action_words count commit }
{
    let mut words = ArrayVec::new();
    append_long(&mut words, u64::from(link.0), 2);
    match commit {
        WideCommit::Store { piece, value } => {
            append(&mut words, " stores ");
            append_value(&mut words, piece, count, value);
        }
        WideCommit::Load { piece, value } => {
            append(&mut words, " loads ");
            append_value(&mut words, piece, count, value);
        }
        WideCommit::Begin { piece } => {
            append(&mut words, " begins to load ");
            append_piece(&mut words, piece, count);
        }
    }
    words
}

/// The same bytes with an address of 64 bits.
fn widened_piece(piece: Piece) -> WidePiece
    ensures { result ≡ widened_piece piece }
{
    WidePiece {
        size: piece.size,
        address: u64::from(piece.address),
    }
}

/// The same commit with an address of 64 bits.
fn widened(commit: Commit) -> WideCommit
    ensures { result ≡ widened commit }
{
    match commit {
        Commit::Store { piece, value } => WideCommit::Store {
            piece: widened_piece(piece),
            value,
        },
        Commit::Load { piece, value } => WideCommit::Load {
            piece: widened_piece(piece),
            value,
        },
        Commit::Begin { piece } => WideCommit::Begin {
            piece: widened_piece(piece),
        },
    }
}

#[tactic(auto, using(crate::proofs::Sizes::same_size))]
/// The words of a commit of a link in a narrow trace.
pub fn words_of(link: Link, commit: Commit) -> ArrayVec<u8, 64>
    requires { (piece_in commit).size ≤ 3 }
    ensures { result.items ≡ digits 2 link.0 ++ commit_words commit }
{
    action_of(link, widened(commit), NARROW)
}

/// The words of a commit of a link in a wide trace.
pub fn wide_words_of(link: Link, commit: WideCommit) -> ArrayVec<u8, 64>
    requires { (wide_piece_in commit).size ≤ 3 }
    ensures { result.items ≡ digits 2 link.0 ++ wide_commit_words commit }
{
    action_of(link, commit, WIDE)
}
