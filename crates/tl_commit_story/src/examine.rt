//! Judges a trace with commits, and notes the facts from which the explanation of its first fault starts.

ghost use Rattle.std.specs.Prelude.{◌≡◌, [], IfErr, IfOk};
ghost use Rattle.tl_commit_lines.specs.code.EventWatching.{KnowsEventLines, events_judged_for};
ghost use Rattle.tl_commit_lines.specs.statement.JudgedEvents.{CommitsSoFar, JudgedCommits};
ghost use Rattle.tl_reasons.specs.statement.Unexplained.{IsUnjudged};
ghost use Rattle.tl_commit_story.specs.statement.Explained.{ReachesEvents};

use crate::asked::AskedBlocks;
use std::alloc::{AllocError, Global};
use std::io::Read;
use tl_commit_lines::header::read_marked_for;
use tl_commit_lines::lines::EventLines;
use tl_explain::told::Spelling;
use tl_lines::engine::handle_input;
use tl_lines::fault::Fault;
use tl_lines::line_handler::LineHandler;
use tl_lines::status::Status;
use tl_params::liberties::Liberties;
use tl_params::width::Width;
use tl_reasons::explain::in_memory;
use tl_reasons::explain_fault::ExplainFault;

/// The facts that were found in a trace with commits.
#[derive(Clone, Copy)]
pub struct Found {
    /// The number of lines without a fault, with the header.
    pub good: u64,
    /// The width of a beat, after the header.
    pub width: Option<Width>,
    /// The next line with its fault, if that line has an LF and at most 256 bytes.
    pub fault: Option<(Fault, Spelling)>,
    /// The block of the request that the event of that line answers, if it answers one.
    pub block: Option<u32>,
}

impl Found {
    /// No line has been read.
    fn new() -> Self {
        Found {
            good: 0,
            width: None,
            fault: None,
            block: None,
        }
    }

    /// Notes a line with its fault, if any.
    fn note(&mut self, line: &[u8], fault: Option<Fault>) {
        if let Some(fault) = fault {
            self.fault = Some((fault, Spelling::of(line)));
            return;
        }
        if self.good == 0 {
            self.width = read_marked_for(Liberties::none(), line).map(|header| header.width);
        }
        self.good = self.good.saturating_add(1);
    }
}

/// Judges the lines of a trace, and notes the facts for an explanation.
#[derive(Drop)]
pub struct EventExaminer<'a> {
    lines: EventLines,
    asked: AskedBlocks,
    found: &'a mut Found,
}

impl EventExaminer<'_> {
    /// Notes a line with its fault, if any.
    fn note(&mut self, line: &[u8], fault: Option<Fault>) -> Result<(), AllocError>
        ensures { self.new.lines ≡ self.old.lines }
    {
        match fault {
            None => self.asked.take(self.found.width, line)?,
            Some(_) => self.found.block = self.asked.answered(self.found.width, line),
        }
        self.found.note(line, fault);
        Ok(())
    }
}

impl LineHandler for EventExaminer<'_> {
    ghost use Rattle.std.specs.Prelude.{Bool, ⊤};
    ghost use Rattle.tl_params.specs.declared.liberties.Liberties.{Liberties};

    ghost knows = { λ e lines text. KnowsEventLines e.lines lines text };

    ghost Purpose = { Bool × Liberties };

    ghost purpose = { λ e. events_judged_for e.lines };

    ghost tells = { λ p. JudgedCommits p.0 p.1 };

    ghost ends = { λ _ _. ⊤ };

    fn handle_line(&mut self, line: &[u8], out: &mut Vec<u8>) -> Result<Option<Fault>, AllocError> {
        let fault = self.lines.handle_line(line, out)?;
        self.note(line, fault)?;
        Ok(fault)
    }

    fn open_fault(&self) -> Fault {
        self.lines.open_fault()
    }

    fn finish(&self, count: u64, out: &mut Vec<u8>) -> Result<Option<Fault>, AllocError> {
        self.lines.finish(count, out)
    }
}

/// Judges the input of a reader, each link by itself or all together. The links have the liberties that the header
/// names and those that are allowed. Returns the facts and the status. The verdict is appended.
pub fn examine<R: Read>(
    alloc: Global,
    together: bool,
    allow: Liberties,
    reader: &mut R,
    verdict: &mut Vec<u8>,
) -> Result<(Found, Status), ExplainFault>
    requires { verdict.old.items ≡ [] }
    ensures ok { IfOk result (λ both. ReachesEvents together allow (R.remaining reader.old) (R.remaining reader.new)
        verdict.new.items both.1) }
    ensures fault { IfErr result (IsUnjudged (CommitsSoFar together allow) (JudgedCommits together allow)
        (R.remaining reader.old) (R.remaining reader.new)) }
{
    let mut found = Found::new();
    let examiner = EventExaminer {
        lines: EventLines::new(alloc, together, allow),
        asked: AskedBlocks::new(alloc),
        found: &mut found,
    };
    let status = in_memory(handle_input(alloc, examiner, reader, verdict))?;
    Ok((found, status))
}
