//! Judges a recorded trace, and notes the facts from which the explanation of its first fault starts.

ghost use Rattle.std.specs.Prelude.{◌≡◌, ◌<◌, [], Bool, IfErr, IfOk, List, None, OnOk, Some, length, option_map, true};
ghost use Rattle.tl_beat.specs.statement.Width.{IsWidth};
ghost use Rattle.tl_reasons.specs.code.Explaining.{IsVerdict, fault_of};
ghost use Rattle.tl_reasons.specs.code.Examining.{EndsExaminer, KnowsExaminer};
ghost use Rattle.tl_reasons.specs.code.Answering as answering;
ghost use Rattle.tl_reasons.specs.code.Answering.{AnswersBy, AnswersIn, NotesLine};
ghost use Rattle.tl_lines.specs.code.LinkWatching.{judged_for};
ghost use Rattle.tl_lines.specs.code.TraceJudging.{KnowsBeats};
ghost use Rattle.tl_lines.specs.statement.JudgedLinks.{JudgedLinks, LinksSoFar};
ghost use Rattle.tl_memory.specs.code.Taking as taking;
ghost use Rattle.tl_params.specs.declared.level.Level.{Level};
ghost use Rattle.tl_params.specs.declared.liberties.Liberties.{Liberties};
ghost use Rattle.tl_rules.specs.statement.Conformance.{Trace, on_link};
ghost use Rattle.tl_reasons.specs.statement.Unexplained.{IsUnjudged, Reaches};

use crate::explain::in_memory;
use crate::explain_fault::ExplainFault;
use crate::testimony::block_asked;
use std::alloc::{AllocError, Global};
use std::io::Read;
use tl_beat::beat::{Beat, Link};
use tl_beat::fault::LineFault;
use tl_beat::read::read_line;
use tl_explain::ledger::Ledger;
use tl_explain::told::Spelling;
use tl_lines::engine::handle_input;
use tl_lines::fault::{Fault, append_fault};
use tl_lines::line_handler::LineHandler;
use tl_lines::link_lines::{LinkJudge, LinkLines};
use tl_lines::links_header::LinksHeader;
use tl_lines::status::Status;
use tl_lines::trace_judge::TraceJudge;
use tl_params::liberties::Liberties;
use tl_rules::past::Request;
use tl_rules::rule::Rule;

/// The facts that were found in a trace.
#[derive(Drop)]
pub struct Found {
    /// The number of lines without a fault, with the header.
    pub good: u64,
    pub header: Option<LinksHeader>,
    /// The line at fault and its fault, if the line has an LF and at most 256 bytes.
    pub fault: Option<(Fault, Spelling)>,
    /// The block of the request that is answered, by a Grant at fault or by a beat that breaks a rule of memory.
    pub block: Option<u32>,
}

/// The request that a beat answers, if it is a response to one.
fn request_answered<const W: usize>(
    judge: &TraceJudge<W>,
    link: Link,
    beat: &Beat<W>,
) -> Option<Request>
    ensures { (together : Bool) (levels : List Level) (may : Liberties) (t : Trace W) →
        KnowsBeats together judge.now levels may t → link.0 < length levels →
        result ≡ taking.request_answered beat.now (on_link link.0 t) }
{
    match beat {
        Beat::D(x) => judge.request(link, x.source),
        _ => None,
    }
}

/// The block of the request that a line's beat answers, if it is a response to one.
fn block_answered_in<const W: usize>(judge: &TraceJudge<W>, line: &[u8]) -> Option<u32>
    requires { IsWidth W }
    ensures { (together : Bool) → AnswersIn together judge.now line.now result }
{
    match read_line::<W>(line) {
        Ok((link, beat)) => block_asked(request_answered(judge, link, &beat)),
        Err(_) => None,
    }
}

/// The block of the request that a line's beat answers.
fn block_answered(judge: &LinkJudge, line: &[u8]) -> Option<u32>
    ensures { (together : Bool) → AnswersBy together judge.now line.now result }
{
    match judge {
        LinkJudge::Waiting(_) => None,
        LinkJudge::Four(judge) => block_answered_in(judge, line),
        LinkJudge::Eight(judge) => block_answered_in(judge, line),
        LinkJudge::Sixteen(judge) => block_answered_in(judge, line),
    }
}

/// The block of the request that the beat of a line at fault answers.
fn block_at_fault(judge: &LinkJudge, line: &[u8], fault: Option<Fault>) -> Option<u32>
    ensures { (together : Bool) (broken : Fault) → fault ≡ Some broken → AnswersBy together judge.now line.now result }
{
    match fault {
        None => None,
        Some(_) => block_answered(judge, line),
    }
}

/// Whether the explanation of the fault needs the block of the request that the beat answers: for H6, and for the rules
/// of memory.
fn needs_block(fault: Fault) -> bool
    ensures { result ≡ answering.needs_block fault }
{
    matches!(fault, Fault::Rule(Rule::H6) | Fault::MemoryRule(_))
}

impl Found {
    /// No line has been read.
    pub fn new() -> Self
        ensures { result.fault ≡ None }
    {
        Found {
            good: 0,
            header: None,
            fault: None,
            block: None,
        }
    }

    /// The fault of the line after the good ones, if there is one. A first line that is no header isn't noted, nor is a
    /// line that is too long or has no LF.
    pub fn at_fault(&self) -> Fault
        ensures { result ≡ fault_of self.now }
    {
        match (&self.header, &self.fault) {
            (None, _) => Fault::Header,
            (Some(_), None) => Fault::Line(LineFault::F1),
            (Some(_), Some((fault, _))) => *fault,
        }
    }

    /// Whether the verdict is the one of these facts: clean, or the fault of the line after the good ones.
    pub fn is_verdict(
        &self,
        alloc: Global,
        status: Status,
        verdict: &[u8],
    ) -> Result<bool, AllocError>
        ensures { IfOk result (λ same. same ≡ true → IsVerdict self.now status verdict.now) }
    {
        if status == Status::Clean {
            return Ok(true);
        }
        let Some(number) = self.good.checked_add(1) else {
            return Ok(false);
        };
        let mut text = Vec::new(alloc);
        append_fault(number, self.at_fault(), &mut text)?;
        Ok(text.as_slice() == verdict)
    }

    /// Notes a line without a fault. The header starts the list of pending messages.
    fn note_good(
        &mut self,
        link_lines: &LinkLines,
        ledger: &mut Ledger,
        line: &[u8],
    ) -> Result<(), AllocError>
        ensures { self.new.fault ≡ self.old.fault }
    {
        if self.good == 0 {
            self.header = link_lines.header(line);
            if let Some(header) = &self.header {
                ledger.begin(header.levels.len())?;
            }
        }
        self.good = self.good.saturating_add(1);
        Ok(())
    }

    /// Notes the line at fault, whose beat answers a request of this block.
    fn note_fault(&mut self, line: &[u8], fault: Fault, block: Option<u32>)
        ensures fault { option_map (λ noted. noted.0) self.new.fault ≡ Some fault }
        ensures block { answering.needs_block fault ≡ true → self.new.block ≡ block }
    {
        self.fault = Some((fault, Spelling::of(line)));
        if needs_block(fault) {
            self.block = block;
        }
    }

    /// Notes a line with its fault, if any. Its beat answers a request of this block.
    fn note(
        &mut self,
        link_lines: &LinkLines,
        ledger: &mut Ledger,
        line: &[u8],
        fault: Option<Fault>,
        block: Option<u32>,
    ) -> Result<(), AllocError>
        ensures { OnOk result (NotesLine self.old self.new fault block) }
    {
        match fault {
            None => self.note_good(link_lines, ledger, line),
            Some(fault) => {
                self.note_fault(line, fault, block);
                Ok(())
            }
        }
    }
}

/// Judges the lines of a trace, lists the pending messages, and notes the facts for an explanation.
#[derive(Drop)]
pub struct Examiner<'a> {
    pub link_lines: LinkLines,
    pub ledger: &'a mut Ledger,
    pub found: &'a mut Found,
}

impl LineHandler for Examiner<'_> {
    ghost use Rattle.std.specs.Prelude.{Bool};
    ghost use Rattle.tl_params.specs.declared.liberties.Liberties.{Liberties};

    ghost knows = { KnowsExaminer };

    ghost Purpose = { Bool × Liberties };

    ghost purpose = { λ e. judged_for e.link_lines };

    ghost tells = { λ p. JudgedLinks p.0 p.1 };

    ghost ends = { EndsExaminer };

    fn handle_line(
        &mut self,
        line: &[u8],
        _out: &mut Vec<u8>,
    ) -> Result<Option<Fault>, AllocError> {
        let fault = self.link_lines.judge_line(line, self.ledger)?;
        let block = block_at_fault(&self.link_lines.judge, line, fault);
        self.found
            .note(&self.link_lines, self.ledger, line, fault, block)?;
        Ok(fault)
    }

    fn open_fault(&self) -> Fault {
        self.link_lines.open_fault()
    }

    fn finish(&self, count: u64, out: &mut Vec<u8>) -> Result<Option<Fault>, AllocError> {
        self.link_lines.finish(count, out)
    }
}

/// Judges the input of a reader, each link by itself or all together. The links have the liberties that the header
/// names and those that are allowed. Returns the facts and the status. The verdict is appended, and the pending
/// messages are listed.
pub fn examine<R: Read>(
    alloc: Global,
    together: bool,
    allow: Liberties,
    reader: &mut R,
    ledger: &mut Ledger,
    verdict: &mut Vec<u8>,
) -> Result<(Found, Status), ExplainFault>
    requires { verdict.old.items ≡ [] }
    ensures ok { IfOk result (λ both. Reaches together allow (R.remaining reader.old) (R.remaining reader.new)
        verdict.new.items both.1 × IsVerdict both.0 both.1 verdict.new.items) }
    ensures fault { IfErr result (IsUnjudged (LinksSoFar together allow) (JudgedLinks together allow) (R.remaining reader.old)
        (R.remaining reader.new)) }
{
    let mut found = Found::new();
    let examiner = Examiner {
        link_lines: LinkLines {
            together,
            allow,
            judge: LinkJudge::Waiting(alloc),
        },
        ledger,
        found: &mut found,
    };
    let status = in_memory(handle_input(alloc, examiner, reader, verdict))?;
    if found.is_verdict(alloc, status, verdict.as_slice())? {
        Ok((found, status))
    } else {
        Err(ExplainFault::Changed)
    }
}
