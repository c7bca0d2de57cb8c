//! The verdict of a monitor about a whole trace.

ghost use Rattle.tl_beat.specs.statement.Width.{IsWidth};
ghost use Rattle.std.specs.Prelude.{◌≡◌};
ghost use Rattle.tl_monitor.specs.statement.Knows.{AnswersTrace, AnswersTraceUnder, trace_fault_of};

use crate::fault::{MonitorFault, TraceFault};
use crate::monitor::Monitor;
use std::alloc::Global;
use tl_beat::beat::{Beat, Link};
use tl_rules::level::Level;
use tl_rules::liberties::Liberties;
use tl_rules::profile::Profile;

/// The fault of a trace if a monitor refuses beat `i` so, and no beat before it.
fn fault_at(i: usize, fault: MonitorFault) -> TraceFault
    ensures { result ≡ trace_fault_of i fault }
{
    match fault {
        MonitorFault::Broken(rule) => TraceFault::At(i, rule),
        _ => TraceFault::Memory,
    }
}

/// Judges a trace. The error is the first beat that breaks a rule after the earlier beats of its link, `Levels` unless
/// there are 1 to 16 levels, or `Memory`. An unfinished burst at the end breaks no rule.
pub fn check_trace<const W: usize>(
    alloc: Global,
    levels: &[Level],
    profile: Profile,
    trace: &[(Link, Beat<W>)],
) -> Result<(), TraceFault>
    requires { IsWidth W }
    ensures { AnswersTrace levels.now profile trace.now result }
{
    check_trace_under(alloc, levels, Liberties::of(profile), trace)
}

/// The same under these liberties, with the same errors.
pub fn check_trace_under<const W: usize>(
    alloc: Global,
    levels: &[Level],
    liberties: Liberties,
    trace: &[(Link, Beat<W>)],
) -> Result<(), TraceFault>
    requires { IsWidth W }
    ensures { AnswersTraceUnder levels.now liberties trace.now result }
{
    let mut monitor = match Monitor::with_liberties(alloc, levels, liberties) {
        Ok(monitor) => monitor,
        Err(MonitorFault::Levels) => return Err(TraceFault::Levels),
        Err(_) => return Err(TraceFault::Memory),
    };
    for (i, (link, beat)) in trace.iter().enumerate() {
        match monitor.push(*link, beat) {
            Ok(()) => {}
            Err(fault) => return Err(fault_at(i, fault)),
        }
    }
    Ok(())
}
