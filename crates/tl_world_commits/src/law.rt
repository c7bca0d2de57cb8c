//! Laws: the stores and loads of a world keep the rules for commits, and come of one memory.

ghost use Rattle.tl_beat.specs.statement.Width.{IsWidth};
ghost use Rattle.tl_world_commits.specs.statement.CommitConcord.{CommitConcord};
ghost use Rattle.tl_world_commits.specs.statement.Unbroken.{UnbrokenCommits};
ghost use Rattle.tl_world_commits.specs.statement.WorldCommitRuns.{WorldCommitRuns};

/// Whatever happens to a manager and its clients, which are given bytes: with all stores and loads of the clients in
/// the trace of their links, no store and no load breaks L1, M5 or M6, and no beat breaks M7.
pub fn breaks_no_rule_of_commits<const W: usize>()
    requires { IsWidth W }
    ensures { UnbrokenCommits W }
{}

/// Whatever happens to a manager and its clients, which are given bytes, the beats of their links and the stores and
/// loads of the clients come of a run of one memory, whose copies are used rightly.
pub fn comes_of_one_memory_with_commits<const W: usize>()
    requires { IsWidth W }
    ensures { WorldCommitRuns W }
{}

/// Whatever happens to a manager and its clients, which are given bytes: with all stores and loads of the clients in
/// the trace, no event of it breaks a rule. A judge of beats and commits finds nothing, whatever liberties the links
/// have beyond those of their profile.
pub fn breaks_no_rule_with_commits<const W: usize>()
    requires { IsWidth W }
    ensures { CommitConcord W }
{}
