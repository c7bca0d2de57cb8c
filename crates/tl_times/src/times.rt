//! Writes an explanation with the times of the lines that it cites.

ghost use Rattle.std.specs.Prelude.{◌≡◌, ◌≢◌, ◌++◌, ⊤, ℕ, List, IfErr, OnOk};
ghost use Rattle.std.specs.List.{flat_map};
ghost use Rattle.tl_lines.specs.declared.status.ToolFault.{ToolFault};
ghost use Rattle.tl_times.specs.code.Timing.{AreNoted, EndsTimes, KnowsTimes, cites, said};
ghost use Rattle.tl_times.specs.statement.Timed.{ReadsTimes, number_in, timed};

use crate::piece::Piece;
use crate::pieces::{digits, pieces_of};
use itoa::Buffer;
use std::alloc::{AllocError, Global};
use std::io::Read;
use tl_lines::engine::judge_input;
use tl_lines::fault::Fault;
use tl_lines::line_handler::LineHandler;
use tl_lines::lines::Lines;
use tl_lines::status::ToolFault;

/// The number of the first line of a trace that has a time: the header has none.
const FIRST: u64 = 2;

/// The pieces of an explanation, which take the times of their lines, and the number of the trace's line whose time is
/// next.
#[derive(Drop)]
struct TimeLines<'a> {
    pieces: Vec<Piece<'a>>,
    next: u64,
}

/// The number that a line is, without its LF; empty if the line is no number.
fn number_in(line: &[u8]) -> &[u8]
    ensures { result.now ≡ number_in line.now }
{
    let (number, rest) = digits(line);
    if rest == b"\n".as_slice() {
        number
    } else {
        &[]
    }
}

/// Notes the time of the line of this number in each piece that cites it.
fn note_each(pieces: &mut Vec<Piece>, number: &[u8], time: &[u8]) -> Result<(), AllocError>
    ensures { OnOk result (AreNoted number.now time.now pieces.old.items pieces.new.items) }
{
    for n in 0..pieces.len() {
        pieces[n].note(number, time)?;
    }
    Ok(())
}

impl LineHandler for TimeLines<'_> {
    ghost use Rattle.std.specs.Prelude.{List};
    ghost use Rattle.tl_times.specs.statement.Pieces.{Cited};

    ghost knows = { KnowsTimes };

    ghost Purpose = { List Cited };

    ghost purpose = { cites };

    ghost tells = { λ _ _ _ _. ⊤ };

    ghost ends = { EndsTimes };

    fn handle_line(
        &mut self,
        line: &[u8],
        _out: &mut Vec<u8>,
    ) -> Result<Option<Fault>, AllocError> {
        let after = self.next.checked_add(1).ok_or(AllocError)?;
        let mut digits = Buffer::new();
        let number = digits.format(self.next);
        note_each(&mut self.pieces, number.as_bytes(), number_in(line))?;
        self.next = after;
        Ok(None)
    }

    fn open_fault(&self) -> Fault {
        Fault::Header
    }

    fn finish(&self, _count: u64, _out: &mut Vec<u8>) -> Result<Option<Fault>, AllocError> {
        Ok(None)
    }
}

/// Appends the pieces, each with the time of its line if that is known.
fn append_pieces(pieces: &[Piece], out: &mut Vec<u8>) -> Result<(), AllocError>
    ensures { OnOk result (out.new.items ≡ out.old.items ++ flat_map said pieces.now) }
{
    for piece in pieces {
        piece.append(out)?;
    }
    Ok(())
}

/// Appends an explanation with the time of each line that it cites. The reader has a number a line: the times of the
/// lines of the trace after its header. Lines of times up to the first that has no LF, or more than 256 bytes, are read. After
/// an error a part of the text may be appended. `Write` is no error of it.
pub fn append_timed<R: Read>(
    alloc: Global,
    explanation: &[u8],
    times: &mut R,
    out: &mut Vec<u8>,
) -> Result<(), ToolFault>
    ensures ok { OnOk result ((lines : List (List ℕ)) × ReadsTimes (R.remaining times.old) (R.remaining times.new) lines
        × (out.new.items ≡ out.old.items ++ timed lines explanation.now)) }
    ensures fault { IfErr result (λ fault. fault ≢ ToolFault.Write) }
{
    let pieces = pieces_of(alloc, explanation)?;
    let mut lines = Lines::new(TimeLines {
        pieces,
        next: FIRST,
    });
    let mut said = Vec::new(alloc);
    judge_input(alloc, &mut lines, times, &mut said)?;
    append_pieces(lines.handler().pieces.as_slice(), out)?;
    Ok(())
}
