//! Judges of the lines of a trace, which take the beats of those that aren't at fault.

ghost use Rattle.std.specs.Prelude.{◌≡◌, IfOk};
ghost use Rattle.tl_report.specs.code.LineJudging.{IsInTable, JudgesLine, Ways};

use std::alloc::AllocError;
use tl_lines::fault::Fault;

/// The answer of a judge to a line.
#[derive(Clone, Copy, Debug, PartialEq, Eq)]
pub enum Judged {
    /// The line isn't at fault, and its beat was taken. It counts in this cell.
    Taken(usize),
    /// The line is at fault for this.
    AtFault(Fault),
}

/// Judges the lines after the header of a trace in turn.
pub trait LineJudge: Drop {
    /// A beat, or a beat or a commit, with its link.
    ghost Kind: { Type 0 };

    /// The terms of the links of a trace.
    ghost Given: { Type 0 };

    /// The beats of the judge, and its knowledge of those that it has taken.
    ghost ways: { Ways Self Self.Given Self.Kind };

    /// Judges a line, and takes its beat if the line isn't at fault.
    fn judge_line(&mut self, line: &[u8]) -> Result<Judged, AllocError>
        ensures judges { IfOk result (JudgesLine ways self.old self.new line.now) }
        ensures within { IfOk result IsInTable }
        ensures goes_on { IfOk result (λ _. ways.goes_on self.new ≡ ways.goes_on self.old) };
}
