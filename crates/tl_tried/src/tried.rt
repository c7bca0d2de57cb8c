//! Judges a recorded trace, and counts its situations.

ghost use Rattle.std.specs.Prelude.{◌≡◌, ◌≢◌, ◌++◌, [], ℕ, List, OnOk, IfErr, IfOk, false};
ghost use Rattle.std.specs.Io.KnownBytes.{Consumes};
ghost use Rattle.tl_lines.specs.statement.Lines.{lines_of};
ghost use Rattle.tl_lines.specs.statement.Run.{EndsAs};
ghost use Rattle.tl_lines.specs.declared.status.ToolFault.{ToolFault};
ghost use Rattle.tl_tried.specs.code.EventFollowing.{found_of_commits};
ghost use Rattle.tl_tried.specs.statement.Tried.{IsTried};
ghost use Rattle.tl_tried.specs.statement.WideEventCovered.{AnyCovered};
ghost use Rattle.tl_wide_event_lines.specs.statement.JudgedWideEvents.{JudgedAny};

use crate::cover_events::CoverEvents;
use std::alloc::{AllocError, Global};
use std::io::Read;
use tl_cover::row::Row;
use tl_lines::engine::judge_input;
use tl_lines::lines::Lines;
use tl_lines::status::{Status, ToolFault};
use tl_params::liberties::Liberties;

/// The result for a trace: its verdict, and its situations up to its first line at fault.
#[derive(Drop)]
pub struct Tried {
    /// The verdict of `monitor`.
    pub verdict: Vec<u8>,
    /// Whether a line is at fault.
    pub status: Status,
    /// The situations, each with its count and its first line; none without a header.
    pub rows: Vec<Row>,
    /// The counts of all bins (`BINS`) on link 0, then on link 1, and so on; None for one that a link can't have, by its
    /// level and its liberties, and that didn't come. None at all without a header.
    pub cells: Vec<Option<u64>>,
}

/// Judges the input of a reader. Returns the covering and the status; the verdict is appended.
fn gather<R: Read>(
    alloc: Global,
    allow: Liberties,
    reader: &mut R,
    verdict: &mut Vec<u8>,
) -> Result<(CoverEvents, Status), ToolFault>
    requires { verdict.old.items ≡ [] }
    ensures ok { IfOk result (λ both. (read : List ℕ) × Consumes (R.remaining reader.old) (R.remaining reader.new) read
        × JudgedAny false allow (lines_of read) verdict.new.items both.1
        × EndsAs (JudgedAny false allow) (R.remaining reader.new) read verdict.new.items both.1
        × AnyCovered allow (lines_of read) (found_of_commits both.0)) }
    ensures fault { IfErr result (λ fault. fault ≢ ToolFault.Write) }
{
    let mut lines = Lines::new(CoverEvents::new(alloc, allow));
    let status = match judge_input(alloc, &mut lines, reader, verdict) {
        Ok(status) => status,
        Err(fault) => {
            drop(lines);
            return Err(fault);
        }
    };
    Ok((lines.into_handler(), status))
}

/// The situations, each with its count and its first line, and the counts of all bins.
fn situations(
    alloc: Global,
    lines: &CoverEvents,
) -> Result<(Vec<Row>, Vec<Option<u64>>), AllocError>
    ensures { IfOk result (λ found. (found.0.items ≡ (found_of_commits lines.now).0)
        × (found.1.items ≡ (found_of_commits lines.now).1)) }
{
    let mut rows = Vec::new(alloc);
    rows.extend_from_slice(lines.rows())?;
    let cells = lines.cells(alloc)?;
    Ok((rows, cells))
}

/// Judges a recorded trace as `monitor` does, each link by itself, and counts the situations in which its messages
/// begin, up to the first line at fault. The links have the liberties that the header names and those that are allowed.
/// The reader has reached its end, or a line at fault that no continuation can mend. The fault is `Memory` or `Read`.
pub fn try_trace<R: Read>(
    alloc: Global,
    allow: Liberties,
    reader: &mut R,
) -> Result<Tried, ToolFault>
    ensures ok { IfOk result (IsTried allow (R.remaining reader.old) (R.remaining reader.new)) }
    ensures fault { IfErr result (λ fault. fault ≢ ToolFault.Write) }
{
    let mut verdict = Vec::new(alloc);
    let (lines, status) = gather(alloc, allow, reader, &mut verdict)?;
    let found = situations(alloc, &lines);
    drop(lines);
    let (rows, cells) = found?;
    Ok(Tried {
        verdict,
        status,
        rows,
        cells,
    })
}
