//! Draws a recorded trace, which is read once.

ghost use Rattle.std.specs.Prelude.{◌≡◌, ◌≢◌, ◌++◌, ◌-◌, [], ℕ, List, IfErr, IfOk, codes, false, length, take};
ghost use Rattle.std.specs.Io.KnownBytes.{Appends, Consumes};
ghost use Rattle.tl_engine.specs.code.Charting.{EndsChart};
ghost use Rattle.tl_lines.specs.statement.Lines.{lines_of};
ghost use Rattle.tl_lines.specs.statement.Run.{EndsAs};
ghost use Rattle.tl_engine.specs.statement.Charted.{Charts, GivesUpCharting, IsCharted, is_broken};
ghost use Rattle.tl_lines.specs.statement.JudgedLinks.{JudgedLinks};
ghost use Rattle.tl_lines.specs.declared.status.ToolFault.{ToolFault};

use crate::charting::ChartLines;
use std::alloc::{AllocError, Global};
use std::io::{Read, Write};
use tl_chart::chart::{Verdict, append_chart};
pub use tl_chart::window::Window;
use tl_command::chart::Range;
use tl_lines::engine::judge_input;
use tl_lines::lines::Lines;
use tl_lines::output::write_all;
use tl_lines::status::{Status, ToolFault};
use tl_params::liberties::Liberties;

/// The window of a chart: the first 200 messages if no lines are given, otherwise at most 2,000.
pub fn window_of(range: Range) -> Window {
    match range.lines {
        None => Window {
            first: 2,
            last: u64::MAX,
            most: 200,
            block: range.block,
        },
        Some((first, last)) => Window {
            first,
            last,
            most: 2000,
            block: range.block,
        },
    }
}

/// Judges the input of a reader. The links have the liberties that the header names and those that are allowed. Returns
/// the judge with the drawing, and the status; the verdict is appended.
fn gather<R: Read>(
    alloc: Global,
    allow: Liberties,
    window: Window,
    reader: &mut R,
    verdict: &mut Vec<u8>,
) -> Result<(ChartLines, Status), ToolFault>
    requires { verdict.old.items ≡ [] }
    ensures ok { IfOk result (λ both. (read : List ℕ) × Consumes (R.remaining reader.old) (R.remaining reader.new) read
        × JudgedLinks false allow (lines_of read) verdict.new.items both.1
        × EndsAs (JudgedLinks false allow) (R.remaining reader.new) read verdict.new.items both.1
        × EndsChart both.0 (lines_of read)) }
    ensures allow { IfOk result (λ both. both.0.allow ≡ allow) }
    ensures fault { IfErr result (λ fault. fault ≢ ToolFault.Write) }
{
    let mut lines = Lines::new(ChartLines::new(alloc, allow, window)?);
    match judge_input(alloc, &mut lines, reader, verdict) {
        Ok(status) => Ok((lines.into_handler(), status)),
        Err(fault) => {
            drop(lines);
            Err(fault)
        }
    }
}

/// A verdict without the LF at its end.
fn line_said(verdict: &[u8]) -> &[u8]
    ensures { result.now ≡ take (length verdict.now - 1) verdict.now }
{
    &verdict[..verdict.len().saturating_sub(1)]
}

/// Whether a line is at fault.
fn is_broken(status: Status) -> bool
    ensures { result ≡ is_broken status }
{
    match status {
        Status::Clean => false,
        Status::Broken => true,
    }
}

/// The chart of the drawing in this window, with the verdict.
fn drawn(
    alloc: Global,
    window: Window,
    lines: &ChartLines,
    status: Status,
    verdict: &[u8],
) -> Result<Vec<u8>, AllocError>
    ensures { IfOk result (λ chart. (trace : List (List ℕ)) → EndsChart lines.now trace →
        (said : List ℕ) → verdict.now ≡ said ++ codes "\n" →
        IsCharted lines.now.allow window trace verdict.now status chart.items) }
{
    let gatherer = lines.gatherer();
    if !gatherer.window.is(&window) {
        return Err(AllocError);
    }
    let verdict = Verdict {
        text: line_said(verdict),
        fault: lines.fault(),
        broken: is_broken(status),
    };
    let mut chart = Vec::new(alloc);
    append_chart(gatherer, &verdict, &mut chart)?;
    Ok(chart)
}

/// Writes a chart of a trace: the lines and the block of a window. The links have the liberties that the header names
/// and those that are allowed. The status and the verdict in the chart are those of `monitor`.
///
/// Nothing is written before the reader has reached its end or the line at fault. After that the only fault is `Write`:
/// the writer took only a front of the text.
pub fn chart_input<R: Read, W: Write>(
    alloc: Global,
    allow: Liberties,
    window: Window,
    reader: &mut R,
    writer: &mut W,
) -> Result<Status, ToolFault>
    ensures ok { IfOk result (λ status. (chart : List ℕ)
        × Charts allow window (R.remaining reader.old) (R.remaining reader.new) status chart
        × Appends (W.contents writer.old) (W.contents writer.new) chart) }
    ensures fault { IfErr result (GivesUpCharting allow window (R.remaining reader.old) (R.remaining reader.new)
        (W.contents writer.old) (W.contents writer.new)) }
{
    let mut verdict = Vec::new(alloc);
    let (lines, status) = gather(alloc, allow, window, reader, &mut verdict)?;
    let chart = drawn(alloc, window, &lines, status, &verdict);
    drop(lines);
    let chart = chart?;
    write_all(writer, &chart)?;
    Ok(status)
}
