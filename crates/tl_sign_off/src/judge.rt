//! Judges an input to its end, and keeps the facts about it.

ghost use Rattle.std.specs.Prelude.{◌≡◌, ◌≢◌, ◌++◌, [], ℕ, List, IfErr, IfOk};
ghost use Rattle.std.specs.Io.KnownBytes.{Consumes, IsAtEnd};
ghost use Rattle.tl_lines.specs.declared.status.ToolFault.{ToolFault};
ghost use Rattle.tl_lines.specs.code.Progress.{Progress};
ghost use Rattle.tl_report.specs.code.Searching.{KnowsLines, aim_of};
ghost use Rattle.tl_sign_off.specs.code.Noting.{IsJudged, IsJudgedWhole, IsNoted};
ghost use Rattle.tl_sign_off.specs.statement.Account.{IsOf};

use crate::account::Account;
use crate::input::Notes;
use std::alloc::Global;
use std::io::Read;
use tl_command::search::Aim;
use tl_lines::engine::{new_chunk, next_piece};
use tl_lines::lines::Lines;
use tl_lines::status::{Status, ToolFault};
use tl_report::search_lines::SearchLines;

/// Judges the lines that end in a piece, unless an earlier line has ended the search.
fn go_on(
    lines: &mut Lines<SearchLines>,
    status: Status,
    piece: &[u8],
    out: &mut Vec<u8>,
) -> Result<Status, ToolFault>
    ensures judged { IfOk result (λ now. (input : List ℕ) → IsJudged status lines.old input out.old.items →
        IsJudged now lines.new (input ++ piece.now) out.new.items) }
    ensures aim { IfOk result (λ _. aim_of lines.new.handler ≡ aim_of lines.old.handler) }
    ensures fault { IfErr result (λ fault. fault ≢ ToolFault.Write) }
{
    match status {
        Status::Clean => lines.feed(piece, out),
        Status::Broken => Ok(Status::Broken),
    }
}

/// Judges the end of an input, unless an earlier line has ended the search.
fn close(lines: &Lines<SearchLines>, status: Status, out: &mut Vec<u8>) -> Result<Status, ToolFault>
    ensures judged { IfOk result (λ end. (input : List ℕ) → IsJudged status lines.now input out.old.items →
        IsJudgedWhole lines.now.handler input end) }
    ensures fault { IfErr result (λ fault. fault ≢ ToolFault.Write) }
{
    match status {
        Status::Clean => lines.finish(out),
        Status::Broken => Ok(Status::Broken),
    }
}

/// Reads an input to its end, judges its lines up to the last at fault that is looked for, and keeps the facts about
/// all bytes.
fn read_whole<R: Read>(
    alloc: Global,
    lines: &mut Lines<SearchLines>,
    notes: &mut Notes,
    reader: &mut R,
) -> Result<Status, ToolFault>
    requires begun { Progress KnowsLines lines.old [] [] }
    requires unread { IsNoted notes.old [] }
    ensures ok { IfOk result (λ status. (input : List ℕ)
        × Consumes (R.remaining reader.old) (R.remaining reader.new) input × IsAtEnd (R.remaining reader.new)
        × IsNoted notes.new input × IsJudgedWhole lines.new.handler input status) }
    ensures aim { IfOk result (λ _. aim_of lines.new.handler ≡ aim_of lines.old.handler) }
    ensures fault { IfErr result (λ fault. fault ≢ ToolFault.Write) }
{
    let mut chunk = new_chunk(alloc)?;
    let mut out = Vec::new(alloc);
    let mut status = Status::Clean;
    for _ in 0..u64::MAX {
        let count = next_piece(reader, &mut chunk)?;
        if count == 0 {
            return close(lines, status, &mut out);
        }
        notes.add(&chunk[..count])?;
        status = go_on(lines, status, &chunk[..count], &mut out)?;
    }
    Err(ToolFault::Read)
}

/// Reads an input to its end, and judges its lines up to the last at fault that is looked for. Later lines are read for
/// the sum alone. The error is `Read` or `Memory`.
pub fn judge_whole<R: Read>(alloc: Global, aim: Aim, reader: &mut R) -> Result<Account, ToolFault>
    ensures ok { IfOk result (λ account. (input : List ℕ)
        × Consumes (R.remaining reader.old) (R.remaining reader.new) input × IsAtEnd (R.remaining reader.new)
        × IsOf aim account input) }
    ensures fault { IfErr result (λ fault. fault ≢ ToolFault.Write) }
{
    let mut lines = Lines::new(SearchLines::Waiting(alloc, aim));
    let mut notes = Notes::new();
    let status = match read_whole(alloc, &mut lines, &mut notes, reader) {
        Ok(status) => status,
        Err(fault) => {
            drop(lines);
            return Err(fault);
        }
    };
    let findings = lines.into_handler().into_findings(status)?;
    Ok(Account {
        together: aim.together,
        findings,
        input: notes.into_input(),
    })
}
