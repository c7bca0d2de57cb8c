//! The verdict of a judge about a whole trace.

ghost use Rattle.tl_beat.specs.statement.Width.{IsWidth};
ghost use Rattle.std.specs.Prelude.{◌≡◌};
ghost use Rattle.tl_params.specs.statement.Liberties.{liberties_of};
ghost use Rattle.tl_together.specs.statement.Knows.{AnswersTrace, trace_fault_of};

use crate::fault::{JudgeFault, TraceFault};
use crate::judge::Judge;
use std::alloc::Global;
use tl_beat::beat::{Beat, Link};
use tl_rules::level::Level;
use tl_rules::profile::Profile;

/// The fault of a trace if a judge refuses beat `i` so, and no beat before it.
fn fault_at(i: usize, fault: JudgeFault) -> TraceFault
    ensures { result ≡ trace_fault_of i fault }
{
    match fault {
        JudgeFault::Broken(breach) => TraceFault::At(i, breach),
        _ => TraceFault::Memory,
    }
}

/// Judges a trace of all links of a manager. The error is the first beat that breaks a rule, `Levels` unless there are
/// 1 to 16 levels, or `Memory`.
pub fn check_together<const W: usize>(
    alloc: Global,
    levels: &[Level],
    profile: Profile,
    trace: &[(Link, Beat<W>)],
) -> Result<(), TraceFault>
    requires { IsWidth W }
    ensures { AnswersTrace levels.now (liberties_of profile) trace.now result }
{
    let mut judge = match Judge::new(alloc, levels, profile) {
        Ok(judge) => judge,
        Err(JudgeFault::Levels) => return Err(TraceFault::Levels),
        Err(_) => return Err(TraceFault::Memory),
    };
    for (i, (link, beat)) in trace.iter().enumerate() {
        match judge.push(*link, beat) {
            Ok(()) => {}
            Err(fault) => return Err(fault_at(i, fault)),
        }
    }
    Ok(())
}
