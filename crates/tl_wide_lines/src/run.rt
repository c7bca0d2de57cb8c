//! Runs a monitor over an input whose header may be of any version.

ghost use Rattle.std.specs.Prelude.{IfErr, IfOk, OnErr};
ghost use Rattle.tl_lines.specs.statement.Run.{GivesUpFor, FailsAt, RunsTo};
ghost use Rattle.tl_wide_lines.specs.statement.JudgedTrace.{JudgedTrace, TraceSoFar};

use crate::lines::TraceLines;
use std::alloc::Global;
use std::io::{Read, Write};
use tl_lines::engine::handle_input;
use tl_lines::status::{Status, ToolFault};
use tl_params::liberties::Liberties;

/// Judges a recorded trace, each link by itself or all together: reads the input to its end or to the first line at
/// fault, and writes `clean N`, `coherent N` for links judged together, or `line N X`.
///
/// The header may be of any version. After one of the fifth version the beats are wide: they have the verdict on the
/// trace that they become, at the line of the wide beat whose part is at fault, or F9 at the first line that names more
/// than 2^26 blocks, 256 sources of its link or 256 sinks. After another header the text is that of
/// `tl_links::run::run_links`. The status and the errors are those of `tl_engine::tool::run_tool`.
pub fn run_trace<R: Read, W: Write>(
    alloc: Global,
    together: bool,
    allow: Liberties,
    reader: &mut R,
    writer: &mut W,
) -> Result<Status, ToolFault>
    ensures ok { IfOk result (RunsTo (JudgedTrace together allow) (R.remaining reader.old) (R.remaining reader.new)
        (W.contents writer.old) (W.contents writer.new)) }
    ensures err { OnErr result (FailsAt (JudgedTrace together allow) (R.remaining reader.old) (R.remaining reader.new)
        (W.contents writer.old) (W.contents writer.new)) }
    ensures fault { IfErr result (GivesUpFor (TraceSoFar together allow) (JudgedTrace together allow)
        (R.remaining reader.old) (R.remaining reader.new) (W.contents writer.old) (W.contents writer.new)) }
{
    handle_input(
        alloc,
        TraceLines::new(alloc, together, allow),
        reader,
        writer,
    )
}
