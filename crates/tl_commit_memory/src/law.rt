//! That the bytes of one memory are true by the stores and loads of cores, as laws.

ghost use Rattle.tl_commit_memory.specs.statement.KeptCopies.{KeptCopies};
ghost use Rattle.tl_commit_memory.specs.statement.TrueEvents.{TrueCommitRuns};

/// If the beats of all links and the stores and loads of their cores come of one memory, each beat of a GrantData has
/// bytes that may be granted, and each beat of an AccessAckData bytes that its request may bring, by beats and commits.
pub fn brings_true_bytes_with_commits<const W: usize>()
    ensures { TrueCommitRuns W }
{}

/// If they come of one memory, the cores store to copies that they may write and load bytes of copies, and the reports
/// of links whose stores are all in the trace give copies back, then no store, load or report breaks M5, M6 or M7.
pub fn keeps_rules_of_copies<const W: usize>()
    ensures { KeptCopies W }
{}
