//! Reasons why a judge refuses an event.

ghost use Rattle.std.specs.Prelude.{◌≡◌};
ghost use Rattle.tl_commits.specs.code.Judging as code;

use crate::rule::CommitBreach;
use tl_events::rule::CommitRule;
use tl_together::fault::JudgeFault;

/// The reason why a judge can't be made or refuses an event.
#[derive(Clone, Copy, Debug, PartialEq, Eq)]
pub enum CommitFault {
    /// There aren't 1 to 16 levels.
    Levels,
    /// The event breaks a rule.
    Broken(CommitBreach),
    /// There is no memory left, or 2^64 - 1 beats were taken. The judge is as before.
    Memory,
}

/// The fault of a judge whose judge of beats refuses a beat.
pub(crate) fn of_judge(fault: JudgeFault) -> CommitFault
    ensures { result ≡ code.of_judge fault }
{
    match fault {
        JudgeFault::Levels => CommitFault::Levels,
        JudgeFault::Broken(breach) => CommitFault::Broken(CommitBreach::OfBeats(breach)),
        JudgeFault::Memory | JudgeFault::Closed => CommitFault::Memory,
    }
}

/// The fault of an event that breaks this rule of commits.
pub(crate) fn of_rule(rule: CommitRule) -> CommitFault
    ensures { result ≡ code.of_rule rule }
{
    CommitFault::Broken(CommitBreach::OfCommits(rule))
}
