//! Judges the lines of a trace and records those at fault, whose beats aren't taken.

ghost use Rattle.std.specs.Prelude.{◌≡◌, IfOk};
ghost use Rattle.tl_lines.specs.declared.status.Status.{Status};
ghost use Rattle.tl_report.specs.code.Searching.{EndsWith, IsBegun, IsElsewhereSame, Notes, SearchJudges, SearchesLine};
ghost use Rattle.tl_report.specs.statement.Found.{is_open};

use crate::findings::{Finding, Findings};
use crate::line_judge::{Judged, LineJudge};
use std::alloc::{AllocError, Global};
use tl_beat::fault::LineFault;
use tl_command::search::Aim;
use tl_lines::fault::Fault;
use tl_lines::status::Status;

/// A judge of the lines of a trace, and the findings so far.
#[derive(Drop)]
pub struct Search<J> {
    pub aim: Aim,
    judge: J,
    findings: Findings,
    /// The number of lines that were read, with the header.
    lines: u64,
    /// Whether the last line that was read ends the search and is recorded.
    over: bool,
}

/// Whether a line has no LF at its end, or more than 256 bytes.
fn is_open(line: &[u8]) -> bool
    ensures { result ≡ is_open line.now }
{
    !line.ends_with(b"\n") || line.len() > 256
}

impl<J: LineJudge> Search<J> {
    /// A search that begins after a header, whose lines this judge judges.
    pub fn new(alloc: Global, aim: Aim, judge: J) -> Result<Self, AllocError>
        ensures { IfOk result (λ search. IsBegun search aim judge) }
    {
        Ok(Search {
            aim,
            judge,
            findings: Findings::new(alloc)?,
            lines: 1,
            over: false,
        })
    }

    /// Judges the line of a beat or a commit, and counts it if the line isn't at fault.
    fn judge(&mut self, line: &[u8]) -> Result<Option<Fault>, AllocError>
        ensures judges { IfOk result (SearchJudges J.ways self.old self.new line.now) }
        ensures same { IfOk result (λ _. IsElsewhereSame J.ways self.old self.new) }
    {
        match self.judge.judge_line(line)? {
            Judged::Taken(cell) => {
                self.findings.count(cell)?;
                Ok(None)
            }
            Judged::AtFault(fault) => Ok(Some(fault)),
        }
    }

    /// Records a line at fault, and returns whether more lines are looked for after it.
    fn note(&mut self, line: &[u8], number: u64, fault: Fault) -> Result<bool, AllocError>
        ensures { IfOk result (Notes self.old self.new line.now number fault) }
    {
        self.findings.faults.push(Finding {
            line: number,
            fault,
        })?;
        self.over = is_open(line) || self.findings.faults.len() as u64 > self.aim.behind;
        Ok(!self.over)
    }

    /// Judges the line of the next beat, and records it if it is at fault. Returns the fault if it ends the search.
    #[inline(never)]
    pub fn read(&mut self, line: &[u8]) -> Result<Option<Fault>, AllocError>
        ensures reads { IfOk result (SearchesLine J.ways self.old self.new line.now) }
        ensures aim { IfOk result (λ _. self.new.aim ≡ self.old.aim) }
    {
        let number = self.lines.checked_add(1).ok_or(AllocError)?;
        match self.judge(line)? {
            None => {
                self.lines = number;
                Ok(None)
            }
            Some(fault) => {
                self.lines = number;
                if self.note(line, number, fault)? {
                    Ok(None)
                } else {
                    Ok(Some(fault))
                }
            }
        }
    }

    /// The findings, at the end of the input or at a line that ends the search.
    pub fn into_findings(self, status: Status) -> Result<Findings, AllocError>
        ensures { IfOk result (EndsWith status self.over self.findings self.lines) }
    {
        let line = self.lines.checked_add(1).ok_or(AllocError)?;
        let mut findings = self.findings;
        if status == Status::Broken && !self.over {
            findings.faults.push(Finding {
                line,
                fault: Fault::Line(LineFault::F1),
            })?;
        }
        Ok(findings)
    }
}
