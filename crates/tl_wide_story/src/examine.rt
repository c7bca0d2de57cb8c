//! Judges a wide trace, and notes the facts from which the explanation of its first fault starts.

ghost use Rattle.std.specs.Prelude.{◌≡◌, ◌≢◌, ◌+◌, [], IfErr, IfOk, None, OnOk, true, ⊤};
ghost use Rattle.tl_lines.specs.statement.Fault.{fault_text};
ghost use Rattle.tl_wide_lines.specs.code.WideWatching.{KnowsTraceLines, trace_judged_for};
ghost use Rattle.tl_reasons.specs.statement.Unexplained.{IsUnjudged};
ghost use Rattle.tl_wide_lines.specs.statement.JudgedTrace.{JudgedTrace, TraceSoFar};
ghost use Rattle.tl_wide_story.specs.statement.WideExplained.{ReachesWide};

use std::alloc::{AllocError, Global};
use std::io::Read;
use tl_lines::engine::handle_input;
use tl_lines::fault::{Fault, append_fault};
use tl_lines::line_handler::LineHandler;
use tl_lines::status::Status;
use tl_params::liberties::Liberties;
use tl_reasons::explain::in_memory;
use tl_reasons::explain_fault::ExplainFault;
use tl_wide::width::WideWidth;
use tl_wide_lines::header::read_wide_for;
use tl_wide_lines::judge::Clue;
use tl_wide_lines::lines::TraceLines;

/// The facts that were found in a wide trace.
#[derive(Clone, Copy)]
pub struct Found {
    /// The number of lines without a fault, with the header.
    pub good: u64,
    /// The width of a beat, after the header.
    pub width: Option<WideWidth>,
    /// The fault of the next line, if that line has an LF and at most 256 bytes.
    pub fault: Option<Fault>,
    /// The names of the beat of that line.
    pub clue: Option<Clue>,
}

impl Found {
    /// No line has been read.
    fn new() -> Self {
        Found {
            good: 0,
            width: None,
            fault: None,
            clue: None,
        }
    }

    /// Notes a line without a fault.
    fn note_good(&mut self, line: &[u8]) {
        if self.good == 0 {
            self.width = read_wide_for(Liberties::none(), line).map(|header| header.width);
        }
        self.good = self.good.saturating_add(1);
    }
}

/// Judges the lines of a trace, and notes the facts for an explanation.
#[derive(Drop)]
pub struct WideExaminer<'a> {
    trace: TraceLines,
    found: &'a mut Found,
}

impl WideExaminer<'_> {
    /// Notes a line with its fault, if any.
    fn note(&mut self, line: &[u8], fault: Option<Fault>) -> Result<(), AllocError>
        ensures good { fault ≡ None → self.new.trace ≡ self.old.trace }
        ensures purpose { trace_judged_for self.new.trace ≡ trace_judged_for self.old.trace }
    {
        if fault.is_none() {
            self.found.note_good(line);
            return Ok(());
        }
        self.found.fault = fault;
        self.found.clue = self.trace.clue(line)?;
        Ok(())
    }
}

impl LineHandler for WideExaminer<'_> {
    ghost use Rattle.std.specs.Prelude.{Bool};
    ghost use Rattle.tl_params.specs.declared.liberties.Liberties.{Liberties};

    ghost knows = { λ e lines text. KnowsTraceLines e.trace lines text };

    ghost Purpose = { Bool × Liberties };

    ghost purpose = { λ e. trace_judged_for e.trace };

    ghost tells = { λ p. JudgedTrace p.0 p.1 };

    ghost ends = { λ _ _. ⊤ };

    fn handle_line(&mut self, line: &[u8], out: &mut Vec<u8>) -> Result<Option<Fault>, AllocError> {
        let fault = self.trace.handle_line(line, out)?;
        self.note(line, fault)?;
        Ok(fault)
    }

    fn open_fault(&self) -> Fault {
        self.trace.open_fault()
    }

    fn finish(&self, count: u64, out: &mut Vec<u8>) -> Result<Option<Fault>, AllocError> {
        self.trace.finish(count, out)
    }
}

/// Whether the verdict is that the line after these has this fault.
pub fn is_verdict(
    alloc: Global,
    good: u64,
    fault: Fault,
    verdict: &[u8],
) -> Result<bool, AllocError>
    ensures { IfOk result (λ same. same ≡ true → verdict.now ≡ fault_text (good + 1) fault) }
{
    let Some(number) = good.checked_add(1) else {
        return Ok(false);
    };
    let mut text = Vec::new(alloc);
    append_fault(number, fault, &mut text)?;
    Ok(text.as_slice() == verdict)
}

/// Judges the input of a reader, each link by itself or all together. The links have the liberties that the header
/// names and those that are allowed. Returns the facts and the status. The verdict is appended.
pub fn examine<R: Read>(
    alloc: Global,
    together: bool,
    allow: Liberties,
    reader: &mut R,
    verdict: &mut Vec<u8>,
) -> Result<(Found, Status), ExplainFault>
    requires { verdict.old.items ≡ [] }
    ensures ok { IfOk result (λ both. ReachesWide together allow (R.remaining reader.old) (R.remaining reader.new)
        verdict.new.items both.1) }
    ensures fault { IfErr result (IsUnjudged (TraceSoFar together allow) (JudgedTrace together allow)
        (R.remaining reader.old) (R.remaining reader.new)) }
{
    let mut found = Found::new();
    let examiner = WideExaminer {
        trace: TraceLines::new(alloc, together, allow),
        found: &mut found,
    };
    let status = in_memory(handle_input(alloc, examiner, reader, verdict))?;
    Ok((found, status))
}
