//! That the beats of a world's links come of one memory, and that no beat of it breaks a rule, as laws.

ghost use Rattle.tl_beat.specs.statement.Width.{IsWidth};
ghost use Rattle.tl_true_bytes.specs.statement.Concord.{Concord};
ghost use Rattle.tl_true_bytes.specs.statement.TrueWorlds.{TrueWorlds};
ghost use Rattle.tl_true_bytes.specs.statement.WorldRuns.{WorldRuns};

/// Whatever happens to a manager and its clients, the beats of their links come of a run of one memory.
pub fn comes_of_one_memory<const W: usize>()
    requires { IsWidth W }
    ensures { WorldRuns W }
{}

/// Whatever happens to a manager and its clients, each beat of a GrantData that their links carry has bytes that may be
/// granted, and each beat of an AccessAckData bytes that its request may bring.
pub fn carries_true_bytes<const W: usize>()
    requires { IsWidth W }
    ensures { TrueWorlds W }
{}

/// Whatever happens to a manager and its clients, no beat of their links, in the order of delivery, breaks a rule of
/// its link or of memory: a judge of all links finds nothing, whatever liberties the links have beyond those of their
/// profile.
pub fn breaks_no_rule_together<const W: usize>()
    requires { IsWidth W }
    ensures { Concord W }
{}
