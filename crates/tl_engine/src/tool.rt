//! Runs a command over an input.

ghost use Rattle.std.specs.Prelude.{◌≡◌, ℕ, List, IfErr, IfOk, OnErr};
ghost use Rattle.tl_lines.specs.statement.Run.{GivesUpFor, FailsAt, RunsTo};
ghost use Rattle.tl_engine.specs.statement.Told.{text_so_far, text_told};

use crate::run_lines::RunLines;
use std::alloc::Global;
use std::io::{Read, Write};
use tl_command::command::{Command, RunForm, Width};
use tl_lines::decoder::Decoder;
use tl_lines::engine::handle_input;
use tl_lines::monitor_lines::MonitorLines;
use tl_lines::status::{Status, ToolFault};

/// Runs a command: reads the input to its end or to the first line at fault, and writes the command's text of it. For
/// `explain` that is only the verdict, since its reasons need a second reading. The memory of `decode` doesn't grow
/// with the input. `monitor` keeps the unfinished bursts, the pending messages and the held blocks of each link.
/// `coherent` also keeps, for each block that it has seen, when it was last free and the possible values of its bytes.
/// `run` keeps the world that the schedule's header names, and for a trace with commits the last request of each client
/// with each source.
///
/// `Broken` means that a `line N X` was written. It holds for every continuation of the input, unless line N is the
/// rest after the last LF at the end of the input: fewer than 256 bytes, or nothing. `Clean` comes only at the end of
/// the input. After a fault of memory or of a device, a front of the text of the input that was read has been written.
/// Any error of the reader is a `Read` fault, as is a line after line 2^64 - 1: all that was read has been judged and
/// written. A writer that fails or takes none of the bytes is a `Write` fault: some of them are left. `Memory` means
/// that the last piece that was read, or the end, couldn't be judged. The text of everything before it has been
/// written.
pub fn run_tool<R: Read, W: Write>(
    alloc: Global,
    command: Command,
    reader: &mut R,
    writer: &mut W,
) -> Result<Status, ToolFault>
    ensures ok { IfOk result (RunsTo (text_told command) (R.remaining reader.old) (R.remaining reader.new)
        (W.contents writer.old) (W.contents writer.new)) }
    ensures err { OnErr result (FailsAt (text_told command) (R.remaining reader.old) (R.remaining reader.new)
        (W.contents writer.old) (W.contents writer.new)) }
    ensures fault { IfErr result (GivesUpFor (text_so_far command) (text_told command) (R.remaining reader.old)
        (R.remaining reader.new) (W.contents writer.old) (W.contents writer.new)) }
{
    match command {
        Command::Decode { width } => match width {
            Width::Four => handle_input(alloc, Decoder::<4> {}, reader, writer),
            Width::Eight => handle_input(alloc, Decoder::<8> {}, reader, writer),
            Width::Sixteen => handle_input(alloc, Decoder::<16> {}, reader, writer),
        },
        Command::Monitor => {
            handle_input(alloc, MonitorLines::<0>::Waiting(alloc), reader, writer)
        }
        Command::Explain { coherent: false } => {
            handle_input(alloc, MonitorLines::<0>::Waiting(alloc), reader, writer)
        }
        Command::Explain { coherent: true } => {
            handle_input(alloc, MonitorLines::<1>::Waiting(alloc), reader, writer)
        }
        Command::Coherent => {
            handle_input(alloc, MonitorLines::<1>::Waiting(alloc), reader, writer)
        }
        Command::Run {
            form: RunForm::Outcomes,
        } => handle_input(alloc, RunLines::<0>::Waiting(alloc), reader, writer),
        Command::Run {
            form: RunForm::Trace,
        } => handle_input(alloc, RunLines::<1>::Waiting(alloc), reader, writer),
        Command::Run {
            form: RunForm::TraceWithCommits,
        } => handle_input(alloc, RunLines::<2>::Waiting(alloc), reader, writer),
    }
}
