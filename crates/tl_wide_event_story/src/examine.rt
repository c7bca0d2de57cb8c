//! Judges a wide trace with stores and loads, and notes the facts from which the explanation of its first fault starts.

ghost use Rattle.std.specs.Prelude.{◌≡◌, [], IfErr, IfOk};
ghost use Rattle.tl_reasons.specs.statement.Unexplained.{IsUnjudged};
ghost use Rattle.tl_wide_event_lines.specs.code.EventWatching.{KnowsAnyLines, any_judged_for};
ghost use Rattle.tl_wide_event_lines.specs.statement.JudgedWideEvents.{AnySoFar, JudgedAny};
ghost use Rattle.tl_wide_event_story.specs.statement.WideEventsExplained.{ReachesAny};

use crate::names::TraceNames;
use std::alloc::{AllocError, Global};
use std::io::Read;
use tl_lines::engine::handle_input;
use tl_lines::fault::Fault;
use tl_lines::line_handler::LineHandler;
use tl_lines::status::Status;
use tl_params::liberties::Liberties;
use tl_reasons::explain::in_memory;
use tl_reasons::explain_fault::ExplainFault;
use tl_wide::width::WideWidth;
use tl_wide_event_lines::header::read_wide_marked;
use tl_wide_event_lines::lines::WideEventLines;
use tl_wide_lines::judge::Clue;

/// The facts that were found in a wide trace with stores and loads.
#[derive(Clone, Copy)]
pub struct Found {
    /// The number of lines without a fault, with the header.
    pub good: u64,
    /// The width of a beat, after the header.
    pub width: Option<WideWidth>,
    /// The fault of the next line, if that line has an LF and at most 256 bytes.
    pub fault: Option<Fault>,
    /// The names of the event of that line.
    pub clue: Option<Clue>,
}

impl Found {
    /// No line has been read.
    fn new() -> Self {
        Found {
            good: 0,
            width: None,
            fault: None,
            clue: None,
        }
    }

    /// Notes a line with its fault, if any, and the names of its event.
    fn note(&mut self, line: &[u8], fault: Option<Fault>, clue: Option<Clue>) {
        if fault.is_some() {
            self.fault = fault;
            self.clue = clue;
            return;
        }
        if self.good == 0 {
            self.width = read_wide_marked(line).map(|header| header.width);
        }
        self.good = self.good.saturating_add(1);
    }
}

/// Judges the lines of a trace, and notes the facts for an explanation.
#[derive(Drop)]
pub struct WideEventExaminer<'a> {
    lines: WideEventLines,
    names: TraceNames,
    found: &'a mut Found,
}

impl WideEventExaminer<'_> {
    /// Notes a line with its fault, if any.
    fn note(&mut self, line: &[u8], fault: Option<Fault>) -> Result<(), AllocError>
        ensures { self.new.lines ≡ self.old.lines }
    {
        let clue = self.names.take(self.found.width, line)?;
        self.found.note(line, fault, clue);
        Ok(())
    }
}

impl LineHandler for WideEventExaminer<'_> {
    ghost use Rattle.std.specs.Prelude.{Bool, ⊤};
    ghost use Rattle.tl_params.specs.declared.liberties.Liberties.{Liberties};

    ghost knows = { λ e lines text. KnowsAnyLines e.lines lines text };

    ghost Purpose = { Bool × Liberties };

    ghost purpose = { λ e. any_judged_for e.lines };

    ghost tells = { λ p. JudgedAny p.0 p.1 };

    ghost ends = { λ _ _. ⊤ };

    fn handle_line(&mut self, line: &[u8], out: &mut Vec<u8>) -> Result<Option<Fault>, AllocError> {
        let fault = self.lines.handle_line(line, out)?;
        self.note(line, fault)?;
        Ok(fault)
    }

    fn open_fault(&self) -> Fault {
        self.lines.open_fault()
    }

    fn finish(&self, count: u64, out: &mut Vec<u8>) -> Result<Option<Fault>, AllocError> {
        self.lines.finish(count, out)
    }
}

/// Judges the input of a reader, each link by itself or all together. The links have the liberties that the header
/// names and those that are allowed. Returns the facts and the status. The verdict is appended.
pub fn examine<R: Read>(
    alloc: Global,
    together: bool,
    allow: Liberties,
    reader: &mut R,
    verdict: &mut Vec<u8>,
) -> Result<(Found, Status), ExplainFault>
    requires { verdict.old.items ≡ [] }
    ensures ok { IfOk result (λ both. ReachesAny together allow (R.remaining reader.old) (R.remaining reader.new)
        verdict.new.items both.1) }
    ensures fault { IfErr result (IsUnjudged (AnySoFar together allow) (JudgedAny together allow)
        (R.remaining reader.old) (R.remaining reader.new)) }
{
    let mut found = Found::new();
    let examiner = WideEventExaminer {
        lines: WideEventLines::new(alloc, together, allow),
        names: TraceNames::new(alloc),
        found: &mut found,
    };
    let status = in_memory(handle_input(alloc, examiner, reader, verdict))?;
    Ok((found, status))
}
