//! Reasons why a monitor refuses a beat or a trace.

ghost use Rattle.std.specs.Prelude.{◌≡◌};
ghost use Rattle.tl_monitor.specs.statement.Knows.{closed_after};

use tl_rules::rule::Rule;

/// The reason why a monitor can't be made or refuses a beat.
#[derive(Clone, Copy, Debug, PartialEq, Eq)]
pub enum MonitorFault {
    /// There aren't 1 to 16 levels.
    Levels,
    /// The beat breaks a rule.
    Broken(Rule),
    /// There is no memory left. The monitor is as before.
    Memory,
    /// An earlier beat broke a rule.
    Closed,
}

/// The reason why a trace is refused.
#[derive(Clone, Copy, Debug, PartialEq, Eq)]
pub enum TraceFault {
    /// The first beat that breaks a rule, counted from 0, and the rule.
    At(usize, Rule),
    /// There aren't 1 to 16 levels.
    Levels,
    /// There is no memory left.
    Memory,
}

/// Whether a monitor is closed after this answer of `push`.
#[inline(always)]
pub(crate) fn is_closed_after(answer: &Result<(), MonitorFault>) -> bool
    ensures { result ≡ closed_after answer.now }
{
    match answer {
        Ok(()) => false,
        Err(MonitorFault::Memory) => false,
        Err(_) => true,
    }
}
