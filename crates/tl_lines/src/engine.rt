//! Reads an input to its end, and writes the text of a handler for its lines.

ghost use Rattle.std.specs.Prelude.{◌≡◌, ◌≢◌, ◌⊎◌, ◌+◌, ◌++◌, [], ◌≤◌, ◌<◌, ℕ, List};
ghost use Rattle.std.specs.Prelude.{IfOk, OnOk, OnErr, IfErr, length, take, vec_len};
ghost use Rattle.std.specs.Io.KnownBytes.{Appends, Consumes, IsAtEnd, Keeps};
ghost use Rattle.tl_lines.specs.code.GivenUp.{GivesUpPiece, IsKnown};
ghost use Rattle.tl_lines.specs.statement.Run.{GivesUpFor, EndsAs, FailsAt, RunsTo};
ghost use Rattle.tl_lines.specs.code.Judging.{IsTotal, KnowsFor};
ghost use Rattle.tl_lines.specs.statement.Lines.{lines_of};
ghost use Rattle.tl_lines.specs.statement.Parts.{AppendsPart};
ghost use Rattle.tl_lines.specs.code.Progress.{FinishesInput, HasAll, Progress};
ghost use Rattle.tl_lines.specs.code.Run.{FailsAfter, Passes, Stands};
ghost use Rattle.tl_lines.specs.declared.status.Status.{Status};
ghost use Rattle.tl_lines.specs.declared.status.ToolFault.{ToolFault};

use crate::line_handler::LineHandler;
use crate::lines::Lines;
use crate::output::write_all;
use crate::status::{Status, ToolFault};
use std::alloc::{AllocError, Global};
use std::io::{Read, Write};

/// The number of bytes that the reader is asked for at once.
const CHUNK: usize = 65536;

/// Room for a piece of the input.
pub fn new_chunk(alloc: Global) -> Result<Vec<u8>, AllocError>
    ensures { IfOk result (λ chunk. 0 < vec_len chunk) }
{
    let mut chunk = Vec::new(alloc);
    chunk.resize(CHUNK, 0)?;
    Ok(chunk)
}

/// The next piece of the input; it is empty only at the end. The only fault is `Read`.
pub fn next_piece<R: Read>(reader: &mut R, chunk: &mut Vec<u8>) -> Result<usize, ToolFault>
    requires { 0 < vec_len chunk.old }
    ensures some { IfOk result (λ count. count ≤ vec_len chunk.new) }
    ensures room { vec_len chunk.new ≡ vec_len chunk.old }
    ensures ok { IfOk result (λ count. Consumes (R.remaining reader.old) (R.remaining reader.new)
        (take count chunk.new.items)) }
    ensures end { result ≡ Ok 0 → IsAtEnd (R.remaining reader.new) }
    ensures err { OnErr result (Keeps (R.remaining reader.old) (R.remaining reader.new)) }
    ensures fault { IfErr result (λ fault. fault ≡ ToolFault.Read) }
{
    reader
        .read(chunk.as_mut_slice())
        .map_err(|_| ToolFault::Read)
}

/// Judges a piece of the input, and writes its text.
fn pass<H: LineHandler, W: Write>(
    lines: &mut Lines<H>,
    piece: &[u8],
    out: &mut Vec<u8>,
    writer: &mut W,
) -> Result<Status, ToolFault>
    requires empty { out.old.items ≡ [] }
    requires total { IsTotal H.purpose H.knows H.tells }
    ensures empty { OnOk result (out.new.items ≡ []) }
    ensures ok { (m : H.Purpose) → IfOk result (λ status. (said : List ℕ)
        × Appends (W.contents writer.old) (W.contents writer.new) said
        × Passes (KnowsFor H.purpose m H.knows) (H.tells m) lines.old lines.new piece.now said status) }
    ensures err { (m : H.Purpose) → OnErr result (FailsAfter (KnowsFor H.purpose m H.knows) (H.tells m) lines.old
        piece.now (W.contents writer.old) (W.contents writer.new)) }
    ensures fault { (m : H.Purpose) → IfErr result (GivesUpPiece (KnowsFor H.purpose m H.knows) (H.tells m) lines.old
        piece.now (W.contents writer.old) (W.contents writer.new)) }
{
    let status = lines.feed(piece, out)?;
    write_all(writer, out)?;
    out.clear();
    Ok(status)
}

/// Judges the end of the input, and writes its text.
fn close<H: LineHandler, W: Write>(
    lines: &Lines<H>,
    out: &mut Vec<u8>,
    writer: &mut W,
) -> Result<Status, ToolFault>
    requires empty { out.old.items ≡ [] }
    requires total { IsTotal H.purpose H.knows H.tells }
    ensures ok { (m : H.Purpose) → IfOk result (λ status. (said : List ℕ)
        × Appends (W.contents writer.old) (W.contents writer.new) said
        × FinishesInput (KnowsFor H.purpose m H.knows) (H.tells m) lines.now [] said status) }
    ensures err { (m : H.Purpose) → OnErr result (FailsAfter (KnowsFor H.purpose m H.knows) (H.tells m) lines.now []
        (W.contents writer.old) (W.contents writer.new)) }
    ensures fault { (m : H.Purpose) → IfErr result (GivesUpPiece (KnowsFor H.purpose m H.knows) (H.tells m) lines.now []
        (W.contents writer.old) (W.contents writer.new)) }
{
    let status = lines.finish(out)?;
    write_all(writer, out)?;
    Ok(status)
}

#[tactic(auto, using(crate::proofs::GivenUp::unwritten_by, crate::proofs::GivenUp::unwritten_within))]
/// Judges the lines of an input in turn, up to the first at fault. The text stays in memory, and the handler keeps its
/// state after these lines. Any error of the reader is a `Read` fault.
pub fn judge_input<H: LineHandler, R: Read>(
    alloc: Global,
    lines: &mut Lines<H>,
    reader: &mut R,
    out: &mut Vec<u8>,
) -> Result<Status, ToolFault>
    requires { Progress H.knows lines.old [] out.old.items }
    ensures ok { IfOk result (λ status. (read : List ℕ) × Consumes (R.remaining reader.old) (R.remaining reader.new) read
        × H.tells (H.purpose lines.old.handler) (lines_of read) out.new.items status
        × EndsAs (H.tells (H.purpose lines.old.handler)) (R.remaining reader.new) read out.new.items status
        × HasAll H.knows H.ends lines.new.handler (lines_of read) status
        × Stands H.ends (R.remaining reader.new) read lines.new.handler) }
    ensures purpose { IfOk result (λ _. H.purpose lines.new.handler ≡ H.purpose lines.old.handler) }
    ensures fault { IfErr result (λ fault. fault ≢ ToolFault.Write) }
{
    let mut chunk = new_chunk(alloc)?;
    for _ in 0..u64::MAX {
        let count = next_piece(reader, &mut chunk)?;
        if count == 0 {
            return lines.finish(out);
        }
        match lines.feed(&chunk[..count], out)? {
            Status::Clean => {}
            Status::Broken => {
                return Ok(Status::Broken);
            }
        }
    }
    Err(ToolFault::Read)
}

/// Judges the lines of an input in turn, up to the first at fault. The text of each line is written before more of the
/// input is read. Apart from the handler's own memory, the memory doesn't grow with the input.
pub fn handle_input<H: LineHandler, R: Read, W: Write>(
    alloc: Global,
    handler: H,
    reader: &mut R,
    writer: &mut W,
) -> Result<Status, ToolFault>
    requires begins { H.knows handler [] [] }
    requires total { IsTotal H.purpose H.knows H.tells }
    ensures ok { IfOk result (RunsTo (H.tells (H.purpose handler)) (R.remaining reader.old) (R.remaining reader.new)
        (W.contents writer.old) (W.contents writer.new)) }
    ensures err { OnErr result (FailsAt (H.tells (H.purpose handler)) (R.remaining reader.old) (R.remaining reader.new)
        (W.contents writer.old) (W.contents writer.new)) }
    ensures fault { IfErr result (GivesUpFor (IsKnown (KnowsFor H.purpose (H.purpose handler) H.knows))
        (H.tells (H.purpose handler)) (R.remaining reader.old) (R.remaining reader.new) (W.contents writer.old)
        (W.contents writer.new)) }
{
    let mut chunk = new_chunk(alloc)?;
    let mut out = Vec::new(alloc);
    let mut lines = Lines::new(handler);
    for _ in 0..u64::MAX {
        let count = next_piece(reader, &mut chunk)?;
        if count == 0 {
            return close(&lines, &mut out, writer);
        }
        match pass(&mut lines, &chunk[..count], &mut out, writer)? {
            Status::Clean => {}
            Status::Broken => return Ok(Status::Broken),
        }
    }
    Err(ToolFault::Read)
}
