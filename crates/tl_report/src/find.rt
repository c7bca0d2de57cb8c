//! Searches a recorded trace for its lines at fault.

ghost use Rattle.std.specs.Prelude.{◌≡◌, ◌≢◌, ℕ, List, IfErr, IfOk};
ghost use Rattle.std.specs.Io.KnownBytes.{Appends};
ghost use Rattle.tl_lines.specs.declared.status.ToolFault.{ToolFault};
ghost use Rattle.tl_report.specs.declared.findings.Finding.{Finding};
ghost use Rattle.tl_report.specs.statement.Said.{GivesUpSearching, Searches, all_text, status_of};

use crate::findings::Findings;
use crate::say::{append_all, status_of};
use crate::search_lines::SearchLines;
use std::alloc::Global;
use std::io::{Read, Write};
use tl_command::search::Aim;
use tl_lines::engine::judge_input;
use tl_lines::lines::Lines;
use tl_lines::output::write_all;
use tl_lines::status::{Status, ToolFault};

/// Searches the input of a reader, to its end or to the last line at fault that is looked for. A line of more than 256
/// bytes is the last that is read. The error is `Read` or `Memory`.
pub fn search<R: Read>(alloc: Global, aim: Aim, reader: &mut R) -> Result<Findings, ToolFault>
    ensures ok { IfOk result (λ f. Searches aim (R.remaining reader.old) (R.remaining reader.new) f.faults.items f.beats f.cells.items) }
    ensures fault { IfErr result (λ fault. fault ≢ ToolFault.Write) }
{
    let mut lines = Lines::new(SearchLines::Waiting(alloc, aim));
    let mut said = Vec::new(alloc);
    let status = match judge_input(alloc, &mut lines, reader, &mut said) {
        Ok(status) => status,
        Err(fault) => {
            drop(lines);
            return Err(fault);
        }
    };
    Ok(lines.into_handler().into_findings(status)?)
}

/// Writes `line N X` for each line of a trace that is at fault, at most as many as the aim asks for, and then `faults
/// N`, their number. If there is none, it writes what `monitor` or `coherent` writes. The beat or commit of a line at
/// fault isn't taken: later lines are judged after those that were taken.
///
/// Nothing is written before the search has come to its end. With the error `Write` it has, and a part of the text
/// isn't written.
pub fn find_all<R: Read, W: Write>(
    alloc: Global,
    aim: Aim,
    reader: &mut R,
    writer: &mut W,
) -> Result<Status, ToolFault>
    ensures ok { IfOk result (λ status. (found : List Finding) × (beats : ℕ) × (cells : List ℕ)
        × Searches aim (R.remaining reader.old) (R.remaining reader.new) found beats cells
        × Appends (W.contents writer.old) (W.contents writer.new) (all_text aim.together found beats)
        × (status ≡ status_of found)) }
    ensures fault { IfErr result (GivesUpSearching aim (R.remaining reader.old)
        (R.remaining reader.new) (W.contents writer.old) (W.contents writer.new)) }
{
    let findings = search(alloc, aim, reader)?;
    let mut text = Vec::new(alloc);
    append_all(aim.together, &findings, &mut text)?;
    write_all(writer, &text)?;
    Ok(status_of(&findings))
}
