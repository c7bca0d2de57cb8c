//! Reasons why a judge refuses a beat or a trace.

ghost use Rattle.std.specs.Prelude.{Bool, Err, ◌≡◌};
ghost use Rattle.tl_together.specs.code.Windows.{fault_of_monitor};
ghost use Rattle.tl_together.specs.statement.Knows.{closed_after};

use crate::breach::Breach;
use tl_monitor::fault::MonitorFault;

/// The reason why a judge can't be made or refuses a beat.
#[derive(Clone, Copy, Debug, PartialEq, Eq)]
pub enum JudgeFault {
    /// There aren't 1 to 16 levels.
    Levels,
    /// The beat breaks a rule.
    Broken(Breach),
    /// There is no memory left, or 2^64 - 1 beats were taken. The judge is as before.
    Memory,
    /// An earlier beat broke a rule.
    Closed,
}

/// The reason why a trace is refused.
#[derive(Clone, Copy, Debug, PartialEq, Eq)]
pub enum TraceFault {
    /// The first beat that breaks a rule, counted from 0, and the rule.
    At(usize, Breach),
    /// There aren't 1 to 16 levels.
    Levels,
    /// There is no memory left.
    Memory,
}

/// The fault of a judge whose monitor refuses a beat.
pub(crate) fn of_monitor(fault: MonitorFault) -> JudgeFault
    ensures { result ≡ fault_of_monitor fault }
{
    match fault {
        MonitorFault::Levels => JudgeFault::Levels,
        MonitorFault::Broken(rule) => JudgeFault::Broken(Breach::OfLink(rule)),
        MonitorFault::Memory => JudgeFault::Memory,
        MonitorFault::Closed => JudgeFault::Closed,
    }
}

/// Whether a judge is closed after this refusal by `push`. `closed` says whether it was before.
pub(crate) fn is_closed_after(closed: bool, fault: JudgeFault) -> bool
    ensures { result ≡ closed_after closed (Err fault) }
{
    match fault {
        JudgeFault::Memory => closed,
        _ => true,
    }
}
