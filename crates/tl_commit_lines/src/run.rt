//! Runs a monitor over a recorded trace with or without commits.

ghost use Rattle.std.specs.Prelude.{IfErr, IfOk, OnErr};
ghost use Rattle.tl_lines.specs.statement.Run.{GivesUpFor, FailsAt, RunsTo};
ghost use Rattle.tl_commit_lines.specs.statement.JudgedEvents.{CommitsSoFar, JudgedCommits};

use crate::lines::EventLines;
use std::alloc::Global;
use std::io::{Read, Write};
use tl_lines::engine::handle_input;
use tl_lines::status::{Status, ToolFault};
use tl_params::liberties::Liberties;

/// Judges a recorded trace, each link by itself or all together: reads the input to its end or to the first line at
/// fault, and writes `clean N`, `coherent N` for links judged together, or `line N X`.
///
/// If the header names a link of level C+ or says that memory was zero, stores and loads of cores may be between the
/// beats, and N counts them too. With links judged together each is judged in its place, and its fault may be L1 or M5
/// to M7. With each link by itself only their lines are. After another header the text is that of
/// `tl_wide_lines::run::run_trace`. The status and the errors are those of `tl_engine::tool::run_tool`.
pub fn run_events<R: Read, W: Write>(
    alloc: Global,
    together: bool,
    allow: Liberties,
    reader: &mut R,
    writer: &mut W,
) -> Result<Status, ToolFault>
    ensures ok { IfOk result (RunsTo (JudgedCommits together allow) (R.remaining reader.old) (R.remaining reader.new)
        (W.contents writer.old) (W.contents writer.new)) }
    ensures err { OnErr result (FailsAt (JudgedCommits together allow) (R.remaining reader.old) (R.remaining reader.new)
        (W.contents writer.old) (W.contents writer.new)) }
    ensures fault { IfErr result (GivesUpFor (CommitsSoFar together allow) (JudgedCommits together allow)
        (R.remaining reader.old) (R.remaining reader.new) (W.contents writer.old) (W.contents writer.new)) }
{
    handle_input(
        alloc,
        EventLines::new(alloc, together, allow),
        reader,
        writer,
    )
}
