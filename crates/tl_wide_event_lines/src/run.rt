//! Runs a monitor over a recorded trace of any version, with or without commits.

ghost use Rattle.std.specs.Prelude.{IfErr, IfOk, OnErr};
ghost use Rattle.tl_lines.specs.statement.Run.{GivesUpFor, FailsAt, RunsTo};
ghost use Rattle.tl_wide_event_lines.specs.statement.JudgedWideEvents.{AnySoFar, JudgedAny};

use crate::lines::WideEventLines;
use std::alloc::Global;
use std::io::{Read, Write};
use tl_lines::engine::handle_input;
use tl_lines::status::{Status, ToolFault};
use tl_params::liberties::Liberties;

/// Judges a recorded trace, each link by itself or all together: reads the input to its end or to the first line at
/// fault, and writes `clean N`, `coherent N` for links judged together, or `line N X`.
///
/// If the header is that of a wide trace, and names a link of level C+ or says that memory was zero, stores and loads
/// of cores may be between the wide beats. The verdict is that on the trace that the wide one becomes, at the line of
/// the wide event that becomes the event at fault, and N counts wide events. After another header the text is that of
/// `tl_commit_lines::run::run_events`. The status and the errors are those of `tl_engine::tool::run_tool`.
pub fn run_any<R: Read, W: Write>(
    alloc: Global,
    together: bool,
    allow: Liberties,
    reader: &mut R,
    writer: &mut W,
) -> Result<Status, ToolFault>
    ensures ok { IfOk result (RunsTo (JudgedAny together allow) (R.remaining reader.old) (R.remaining reader.new)
        (W.contents writer.old) (W.contents writer.new)) }
    ensures err { OnErr result (FailsAt (JudgedAny together allow) (R.remaining reader.old) (R.remaining reader.new)
        (W.contents writer.old) (W.contents writer.new)) }
    ensures fault { IfErr result (GivesUpFor (AnySoFar together allow) (JudgedAny together allow)
        (R.remaining reader.old) (R.remaining reader.new) (W.contents writer.old) (W.contents writer.new)) }
{
    handle_input(
        alloc,
        WideEventLines::new(alloc, together, allow),
        reader,
        writer,
    )
}
