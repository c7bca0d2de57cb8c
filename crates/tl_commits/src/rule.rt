//! The rules that an event of a trace with stores and loads may break.

use tl_events::rule::CommitRule;
use tl_together::breach::Breach;

/// The first rule that an event breaks: one that beats alone break, or else one of stores and loads.
#[derive(Clone, Copy, Debug, PartialEq, Eq)]
pub enum CommitBreach {
    OfBeats(Breach),
    OfCommits(CommitRule),
}
