//! Runs a monitor over an input whose header names the liberties of the links.

ghost use Rattle.std.specs.Prelude.{IfErr, IfOk, OnErr};
ghost use Rattle.tl_lines.specs.statement.Run.{GivesUpFor, FailsAt, RunsTo};
ghost use Rattle.tl_lines.specs.statement.JudgedLinks.{JudgedLinks, LinksSoFar};

use std::alloc::Global;
use std::io::{Read, Write};
use tl_lines::engine::handle_input;
use tl_lines::link_lines::LinkLines;
use tl_lines::status::{Status, ToolFault};
use tl_params::liberties::Liberties;

/// Judges a recorded trace, each link by itself or all together. Reads the input to its end or to the first line at
/// fault, and writes `clean N`, for all together `coherent N`, or `line N X`.
///
/// The header may be of any version; the fourth names liberties. The links have those and the ones in `allow`. If `allow`
/// is empty and the header is of the first three versions, the text is that of `run_tool` with `Command::Monitor` or
/// `Command::Coherent`.
///
/// The status and the faults are those of `tl_engine::tool::run_tool`.
pub fn run_links<R: Read, W: Write>(
    alloc: Global,
    together: bool,
    allow: Liberties,
    reader: &mut R,
    writer: &mut W,
) -> Result<Status, ToolFault>
    ensures ok { IfOk result (RunsTo (JudgedLinks together allow) (R.remaining reader.old) (R.remaining reader.new)
        (W.contents writer.old) (W.contents writer.new)) }
    ensures err { OnErr result (FailsAt (JudgedLinks together allow) (R.remaining reader.old) (R.remaining reader.new)
        (W.contents writer.old) (W.contents writer.new)) }
    ensures fault { IfErr result (GivesUpFor (LinksSoFar together allow) (JudgedLinks together allow)
        (R.remaining reader.old) (R.remaining reader.new) (W.contents writer.old) (W.contents writer.new)) }
{
    handle_input(
        alloc,
        LinkLines::new(alloc, together, allow),
        reader,
        writer,
    )
}
