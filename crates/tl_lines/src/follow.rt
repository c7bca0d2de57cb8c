//! Followers of the judge of a trace.

ghost use Rattle.std.specs.Prelude.{Bool, List, IfOk};
ghost use Rattle.tl_beat.specs.statement.Width.{IsWidth};
ghost use Rattle.tl_lines.specs.code.TraceJudging.{JudgesBeat, KnowsBeats};
ghost use Rattle.tl_params.specs.declared.level.Level.{Level};
ghost use Rattle.tl_params.specs.declared.liberties.Liberties.{Liberties};
ghost use Rattle.tl_rules.specs.statement.Conformance.{Trace};

use crate::fault::Fault;
use crate::trace_judge::TraceJudge;
use std::alloc::AllocError;
use tl_beat::beat::{Beat, Link};
use tl_explain::ledger::Ledger;

/// Follows the judge of a trace, and may note the beats that it takes.
pub trait Follow<const W: usize> {
    /// Lets the judge judge the beat of a line, with the same result as alone. Notes the beat if it isn't at fault.
    fn push(
        &mut self,
        judge: &mut TraceJudge<W>,
        line: &[u8],
        link: Link,
        beat: &Beat<W>,
    ) -> Result<Option<Fault>, AllocError>
        requires { IsWidth W }
        ensures { IfOk result (λ fault. (together : Bool) (levels : List Level) (may : Liberties) (t : Trace W) →
            KnowsBeats together judge.old levels may t →
            JudgesBeat together judge.new levels may t (link, beat.now) fault) };
}

/// Follows a judge, and notes nothing.
#[derive(Drop)]
pub struct Alone;

impl<const W: usize> Follow<W> for Alone {
    #[inline(always)]
    fn push(
        &mut self,
        judge: &mut TraceJudge<W>,
        _line: &[u8],
        link: Link,
        beat: &Beat<W>,
    ) -> Result<Option<Fault>, AllocError> {
        judge.push(link, beat)
    }
}

impl<const W: usize> Follow<W> for Ledger {
    fn push(
        &mut self,
        judge: &mut TraceJudge<W>,
        line: &[u8],
        link: Link,
        beat: &Beat<W>,
    ) -> Result<Option<Fault>, AllocError> {
        let first = judge.begins(link, beat);
        let fault = judge.push(link, beat)?;
        if fault.is_none() {
            self.take(line, link, beat, first, judge.begins(link, beat))?;
        }
        Ok(fault)
    }
}
