//! Judges the lines of a schedule by playing them.

ghost use Rattle.std.specs.Prelude.{◌≡◌, IfOk, ⊤};
ghost use Rattle.tl_engine.specs.declared.run_lines.RunLines.{RunLines};
ghost use Rattle.tl_engine.specs.statement.Played.{Played};
ghost use Rattle.tl_lines.specs.code.Judging.{Judges};
ghost use Rattle.tl_engine.specs.code.Playing.{KnowsSchedule, Opens, form_of};

use crate::play::{Player, play, player_of};
use crate::trace_header::append_header;
use std::alloc::{AllocError, Global};
use std::mem;
use tl_command::command::RunForm;
use tl_lines::fault::Fault;
use tl_lines::line_handler::LineHandler;
use tl_params::width::Width;
use tl_schedule::header::read_schedule;
use tl_schedule::line::EventFault;

/// Plays the lines of a schedule: the header, and then the events of a world of the clients that it names. Writes the
/// outcomes if `FORM` is 0, the trace if it is 1, and the trace with commits if it is more.
#[derive(Drop)]
pub enum RunLines<const FORM: usize> {
    /// The header hasn't been read.
    Waiting(Global),
    Four(Player<4>),
    Eight(Player<8>),
    Sixteen(Player<16>),
}

/// The form that a number stands for.
#[inline(always)]
fn form_of(number: usize) -> RunForm
    ensures { result ≡ form_of number }
{
    match number {
        0 => RunForm::Outcomes,
        1 => RunForm::Trace,
        _ => RunForm::TraceWithCommits,
    }
}

/// A player of a world of the clients that a header names. None if the line is no header.
fn open<const FORM: usize>(
    alloc: Global,
    line: &[u8],
    out: &mut Vec<u8>,
) -> Result<Option<RunLines<FORM>>, AllocError>
    ensures { IfOk result (Opens line.now out.old.items out.new.items) }
{
    let Some(schedule) = read_schedule(line) else {
        return Ok(None);
    };
    append_header(form_of(FORM), schedule.version, &schedule.config, out)?;
    let run_lines = match schedule.version.width() {
        Width::Four => RunLines::Four(player_of(alloc, schedule.config)?),
        Width::Eight => RunLines::Eight(player_of(alloc, schedule.config)?),
        Width::Sixteen => RunLines::Sixteen(player_of(alloc, schedule.config)?),
    };
    Ok(Some(run_lines))
}

/// Continues with the world that the header names. A line that is no header is at fault.
#[cold]
#[inline(never)]
fn start<const FORM: usize>(
    run_lines: &mut RunLines<FORM>,
    alloc: Global,
    line: &[u8],
    out: &mut Vec<u8>,
) -> Result<Option<Fault>, AllocError>
    requires { run_lines.old ≡ RunLines.Waiting alloc }
    ensures { IfOk result (Judges KnowsSchedule (Played (form_of FORM)) run_lines.old run_lines.new line.now
        out.old.items out.new.items) }
{
    match open(alloc, line, out)? {
        None => Ok(Some(Fault::Header)),
        Some(opened) => {
            drop(mem::replace(run_lines, opened));
            Ok(None)
        }
    }
}

impl<const FORM: usize> LineHandler for RunLines<FORM> {
    ghost knows = { KnowsSchedule };

    ghost purpose = { λ _. tt };

    ghost tells = { λ _. Played (form_of FORM) };

    ghost ends = { λ _ _. ⊤ };

    #[inline(always)]
    fn handle_line(&mut self, line: &[u8], out: &mut Vec<u8>) -> Result<Option<Fault>, AllocError> {
        let form = form_of(FORM);
        match self {
            RunLines::Waiting(alloc) => {
                let alloc = *alloc;
                start(self, alloc, line, out)
            }
            RunLines::Four(player) => play(form, player, line, out),
            RunLines::Eight(player) => play(form, player, line, out),
            RunLines::Sixteen(player) => play(form, player, line, out),
        }
    }

    fn open_fault(&self) -> Fault {
        match self {
            RunLines::Waiting(_) => Fault::Header,
            _ => Fault::Event(EventFault::F1),
        }
    }

    fn finish(&self, _count: u64, _out: &mut Vec<u8>) -> Result<Option<Fault>, AllocError> {
        match self {
            RunLines::Waiting(_) => Ok(Some(Fault::Header)),
            _ => Ok(None),
        }
    }
}
