//! Draws a recorded trace of wide beats, or one with stores and loads, which is read once.

ghost use Rattle.std.specs.Prelude.{◌≡◌, ◌≢◌, ◌++◌, ◌-◌, [], ℕ, List, IfErr, IfOk, codes, false, length, take};
ghost use Rattle.std.specs.Io.KnownBytes.{Appends, Consumes};
ghost use Rattle.tl_chart.specs.declared.window.Window.{Window};
ghost use Rattle.tl_lines.specs.code.Progress.{HasAll};
ghost use Rattle.tl_lines.specs.declared.status.ToolFault.{ToolFault};
ghost use Rattle.tl_engine.specs.statement.Charted.{is_broken};
ghost use Rattle.tl_lines.specs.statement.Lines.{lines_of};
ghost use Rattle.tl_lines.specs.statement.Run.{EndsAs};
ghost use Rattle.tl_event_chart.specs.statement.EventCharted.{ChartsEvents, GivesUpChartingEvents, IsChartedBeside};
ghost use Rattle.tl_event_chart.specs.code.Drawing.{HasNotes};
ghost use Rattle.tl_wide_event_lines.specs.statement.JudgedWideEvents.{JudgedAny};

use crate::canvas::Canvas;
use crate::lines::ChartedLines;
use std::alloc::{AllocError, Global};
use std::io::{Read, Write};
use tl_chart::chart::{Verdict, append_chart_beside};
use tl_chart::window::Window;
use tl_lines::engine::judge_input;
use tl_lines::line_handler::LineHandler;
use tl_lines::lines::Lines;
use tl_lines::output::write_all;
use tl_lines::status::{Status, ToolFault};
use tl_params::liberties::Liberties;

/// Judges the lines of a reader's input by a handler that has seen none. Returns the handler, and the status; the text
/// is appended.
fn judged<H: LineHandler, R: Read>(
    alloc: Global,
    handler: H,
    reader: &mut R,
    text: &mut Vec<u8>,
) -> Result<(H, Status), ToolFault>
    requires begins { H.knows handler [] [] }
    requires empty { text.old.items ≡ [] }
    ensures ok { IfOk result (λ both. (read : List ℕ) × Consumes (R.remaining reader.old) (R.remaining reader.new) read
        × H.tells (H.purpose handler) (lines_of read) text.new.items both.1
        × EndsAs (H.tells (H.purpose handler)) (R.remaining reader.new) read text.new.items both.1
        × HasAll H.knows H.ends both.0 (lines_of read) both.1) }
    ensures purpose { IfOk result (λ both. H.purpose both.0 ≡ H.purpose handler) }
    ensures fault { IfErr result (λ fault. fault ≢ ToolFault.Write) }
{
    let mut lines = Lines::new(handler);
    let status = judge_input(alloc, &mut lines, reader, text)?;
    Ok((lines.into_handler(), status))
}

/// Judges the input of a reader, each link by itself. Returns the judge with the picture, and the status; the verdict is
/// appended.
fn gather<R: Read>(
    alloc: Global,
    allow: Liberties,
    window: Window,
    reader: &mut R,
    verdict: &mut Vec<u8>,
) -> Result<(ChartedLines, Status), ToolFault>
    requires { verdict.old.items ≡ [] }
    ensures ok { IfOk result (λ both. (read : List ℕ) × Consumes (R.remaining reader.old) (R.remaining reader.new) read
        × JudgedAny false allow (lines_of read) verdict.new.items both.1
        × EndsAs (JudgedAny false allow) (R.remaining reader.new) read verdict.new.items both.1
        × HasNotes both.0.canvas window (lines_of read)) }
    ensures fault { IfErr result (λ fault. fault ≢ ToolFault.Write) }
{
    let handler = ChartedLines::new(alloc, allow, window)?;
    judged(alloc, handler, reader, verdict)
}

/// A verdict without the LF at its end.
fn line_said(verdict: &[u8]) -> &[u8]
    ensures { result.now ≡ take (length verdict.now - 1) verdict.now }
{
    &verdict[..verdict.len().saturating_sub(1)]
}

/// Whether a line is at fault.
fn is_broken(status: Status) -> bool
    ensures { result ≡ is_broken status }
{
    match status {
        Status::Clean => false,
        Status::Broken => true,
    }
}

/// The chart of a picture, with the verdict.
fn drawn(
    alloc: Global,
    canvas: &Canvas,
    status: Status,
    verdict: &[u8],
) -> Result<Vec<u8>, AllocError>
    ensures { IfOk result (λ chart. (win : Window) (lines : List (List ℕ)) (said : List ℕ) →
        HasNotes canvas.now win lines → verdict.now ≡ said ++ codes "\n" →
        IsChartedBeside win lines verdict.now status chart.items) }
{
    let verdict = Verdict {
        text: line_said(verdict),
        fault: canvas.fault,
        broken: is_broken(status),
    };
    let mut chart = Vec::new(alloc);
    append_chart_beside(&canvas.beside(), &canvas.gatherer, &verdict, &mut chart)?;
    Ok(chart)
}

/// Writes a chart of a trace of wide beats, or of one with stores and loads: the lines and the block of a window. The
/// links have the liberties that the header names and those that are allowed. The status and the verdict in the chart
/// are those of `monitor`. The blocks, sources and sinks have the names that the trace has.
///
/// Nothing is written before the reader has reached its end or the line at fault. After that the only fault is `Write`:
/// the writer took only a front of the text.
pub fn chart_events<R: Read, W: Write>(
    alloc: Global,
    allow: Liberties,
    window: Window,
    reader: &mut R,
    writer: &mut W,
) -> Result<Status, ToolFault>
    ensures ok { IfOk result (λ status. (chart : List ℕ)
        × ChartsEvents allow window (R.remaining reader.old) (R.remaining reader.new) status chart
        × Appends (W.contents writer.old) (W.contents writer.new) chart) }
    ensures fault { IfErr result (GivesUpChartingEvents allow window (R.remaining reader.old)
        (R.remaining reader.new) (W.contents writer.old) (W.contents writer.new)) }
{
    let mut verdict = Vec::new(alloc);
    let (lines, status) = gather(alloc, allow, window, reader, &mut verdict)?;
    let drawing = drawn(alloc, &lines.canvas, status, &verdict);
    drop(lines);
    let chart = drawing?;
    write_all(writer, &chart)?;
    Ok(status)
}
