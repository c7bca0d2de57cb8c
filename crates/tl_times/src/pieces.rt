//! Splits an explanation into pieces, at the lines that it cites.

ghost use Rattle.std.specs.Prelude.{◌≡◌, ◌⊎◌, ◌∷◌, ◌<◌, [], IfOk, OnOk, false, length};
ghost use Rattle.std.specs.List.{flat_map};
ghost use Rattle.tl_times.specs.code.Splitting.{AddsPieces, AreUntimed, are_cited};
ghost use Rattle.tl_times.specs.statement.Pieces.{after_digits, front_digits, is_digit, line_pieces};
ghost use Rattle.tl_times.specs.statement.Pieces.{line_shown, names_line_fault, parts_at, pieces, word_pieces, words_pieces};

use crate::piece::Piece;
use memchr::memchr;
use std::alloc::{AllocError, Global};

/// The part of a text up to the first of these bytes and with it, and the rest.
fn first_part(last: u8, text: &[u8]) -> (&[u8], &[u8])
    ensures part { (text.now ≡ []) ⊎ (parts_at last text.now ≡ result.0.now ∷ parts_at last result.1.now) }
    ensures shorter { (text.now ≡ []) ⊎ (length result.1.now < length text.now) }
{
    match memchr(last, text) {
        Some(end) => text.split_at(end + 1),
        None => (text, &[]),
    }
}

/// Whether a byte is a digit.
fn is_digit(b: u8) -> bool
    ensures { result ≡ is_digit b }
{
    b'0' <= b && b <= b'9'
}

/// The bytes after the digits at the front of a text.
fn after_digits(text: &[u8]) -> &[u8]
    ensures { result.now ≡ after_digits text.now }
{
    let mut rest = text;
    while let Some((b, after)) = rest.split_first() {
        if !is_digit(*b) {
            break;
        }
        rest = after;
    }
    rest
}

/// The digits at the front of a text, and the rest.
pub(crate) fn digits(text: &[u8]) -> (&[u8], &[u8])
    ensures { (result.0.now ≡ front_digits text.now) × (result.1.now ≡ after_digits text.now) }
{
    let rest = after_digits(text);
    let (number, _) = text.split_at(text.len().saturating_sub(rest.len()));
    (number, rest)
}

/// Appends a piece that cites this line.
fn push_piece<'a>(
    alloc: Global,
    text: &'a [u8],
    line: &'a [u8],
    pieces: &mut Vec<Piece<'a>>,
) -> Result<(), AllocError>
    ensures { OnOk result (AddsPieces pieces.old.items pieces.new.items
        (record { text = text.now; line = line.now } ∷ [])) }
{
    let time = Vec::new(alloc);
    pieces.push(Piece { text, line, time })?;
    Ok(())
}

/// Appends the pieces of a word. If it is `named`, it follows the word `line`.
fn push_word<'a>(
    alloc: Global,
    named: bool,
    word: &'a [u8],
    pieces: &mut Vec<Piece<'a>>,
) -> Result<(), AllocError>
    ensures { OnOk result (AddsPieces pieces.old.items pieces.new.items (word_pieces named word.now)) }
{
    if !named {
        return push_piece(alloc, word, &[], pieces);
    }
    let (number, rest) = digits(word);
    push_piece(alloc, number, number, pieces)?;
    push_piece(alloc, rest, &[], pieces)
}

/// Appends the pieces of a line's words.
fn push_words<'a>(
    alloc: Global,
    line: &'a [u8],
    pieces: &mut Vec<Piece<'a>>,
) -> Result<(), AllocError>
    ensures { OnOk result (AddsPieces pieces.old.items pieces.new.items (words_pieces false (parts_at 32 line.now))) }
{
    let mut rest = line;
    let mut named = false;
    while !rest.is_empty() {
        let (word, after) = first_part(b' ', rest);
        push_word(alloc, named, word, pieces)?;
        named = word == b"line ".as_slice();
        rest = after;
    }
    Ok(())
}

/// The digits of the number of the trace's line that a line shows; empty if it shows none.
fn line_shown(line: &[u8]) -> &[u8]
    ensures { result.now ≡ line_shown line.now }
{
    match line {
        [b' ', b' ', shown @ ..] => match digits(shown) {
            (number, [b':', ..]) => number,
            _ => &[],
        },
        _ => &[],
    }
}

/// Appends the pieces of a line, which is `plain` if it cites nothing.
fn push_line<'a>(
    alloc: Global,
    plain: bool,
    line: &'a [u8],
    pieces: &mut Vec<Piece<'a>>,
) -> Result<(), AllocError>
    ensures { OnOk result (AddsPieces pieces.old.items pieces.new.items (line_pieces plain line.now)) }
{
    if plain {
        return push_piece(alloc, line, &[], pieces);
    }
    let number = line_shown(line);
    if number.is_empty() {
        return push_words(alloc, line, pieces);
    }
    let (shown, end) = line.split_at(line.len().saturating_sub(1));
    push_piece(alloc, shown, number, pieces)?;
    push_piece(alloc, end, &[], pieces)
}

/// Appends the pieces of lines.
fn push_lines<'a>(
    alloc: Global,
    plain: bool,
    lines: &'a [u8],
    pieces: &mut Vec<Piece<'a>>,
) -> Result<(), AllocError>
    ensures { OnOk result (AddsPieces pieces.old.items pieces.new.items
        (flat_map (line_pieces plain) (parts_at 10 lines.now))) }
{
    let mut rest = lines;
    while !rest.is_empty() {
        let (line, after) = first_part(b'\n', rest);
        push_line(alloc, plain, line, pieces)?;
        rest = after;
    }
    Ok(())
}

/// Whether a verdict is of a line that is no beat.
fn names_line_fault(verdict: &[u8]) -> bool
    ensures { result ≡ names_line_fault verdict.now }
{
    verdict.iter().any(|b| *b == b'F')
}

/// The pieces of an explanation, without times.
pub(crate) fn pieces_of(alloc: Global, text: &[u8]) -> Result<Vec<Piece<'_>>, AllocError>
    ensures { IfOk result (λ all. (are_cited all.items ≡ pieces text.now) × AreUntimed all.items) }
{
    let mut pieces = Vec::new(alloc);
    if text.is_empty() {
        return Ok(pieces);
    }
    let (verdict, lines) = first_part(b'\n', text);
    push_piece(alloc, verdict, &[], &mut pieces)?;
    push_lines(alloc, names_line_fault(verdict), lines, &mut pieces)?;
    Ok(pieces)
}
