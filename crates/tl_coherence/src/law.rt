//! Laws: a manager and its clients stay coherent.

ghost use Rattle.tl_beat.specs.statement.Width.{IsWidth};
ghost use Rattle.tl_coherence.specs.statement.AnsweredInTime.{AnsweredInTime};
ghost use Rattle.tl_coherence.specs.statement.Delivery.{Fifo, CapacityBound, Faultless, Flows, Stalls};
ghost use Rattle.tl_coherence.specs.statement.Draining.{LoneAcquire, LoneAcquireWhole, DeliveryBound};
ghost use Rattle.tl_coherence.specs.statement.Draining.{DrainsWithinLoad, GrantedIsHeld};
ghost use Rattle.tl_coherence.specs.statement.Headline.{Headline, OneMemory, Unrefused, Coherent, NoDeadlock};
ghost use Rattle.tl_coherence.specs.statement.HiddenStores.{HiddenStores};
ghost use Rattle.tl_coherence.specs.statement.OneWriter.{Apart};
ghost use Rattle.tl_coherence.specs.statement.PerformedFree.{PerformedFree};
ghost use Rattle.tl_coherence.specs.statement.Ranged.{AreInRange, HaveRoom};
ghost use Rattle.tl_coherence.specs.statement.Recorded.{Recorded};
ghost use Rattle.tl_coherence.specs.statement.Theorem.{Theorem};
ghost use Rattle.tl_coherence.specs.statement.TrueGrants.{TrueGrants};
ghost use Rattle.tl_coherence.specs.statement.TrueReads.{TrueReads};
ghost use Rattle.tl_coherence.specs.statement.TrueReturns.{TrueReturns};

/// Whatever happens, no client holds a higher permission of a block than the manager has recorded.
pub fn holds_at_most_what_is_recorded<const W: usize>()
    requires { IsWidth W }
    ensures { Recorded W }
{}

/// Whatever happens to a manager and its clients, no beat between them is refused.
pub fn refuses_no_beat<const W: usize>()
    requires { IsWidth W }
    ensures { Unrefused W }
{}

/// No channel ever holds more beats than it has room for.
pub fn fills_no_channel<const W: usize>()
    requires { IsWidth W }
    ensures { CapacityBound W }
{}

/// While one client holds Trunk of a block, no other has a copy. Each copy has the bytes of the one memory.
pub fn keeps_copies_coherent<const W: usize>()
    requires { IsWidth W }
    ensures { Coherent W }
{}

/// The deliveries that find an empty channel, those that stall, and those that move a beat.
pub fn stalls_exactly<const W: usize>()
    requires { IsWidth W }
    ensures { Stalls W }
{}

/// Channels lose no beat and keep their order.
pub fn loses_nothing<const W: usize>()
    requires { IsWidth W }
    ensures { Fifo W }
{}

/// When a Grant ends an Acquire, the client holds its permission.
pub fn holds_what_it_is_granted<const W: usize>()
    requires { IsWidth W }
    ensures { GrantedIsHeld W }
{}

/// A delivery can move a beat exactly while something is outstanding: there is no deadlock.
pub fn moves_while_outstanding<const W: usize>()
    requires { IsWidth W }
    ensures { NoDeadlock W }
{}

/// The outcomes are a run of the one-memory machine, and the machine can follow each next event.
pub fn is_a_run_of_one_memory<const W: usize>()
    requires { IsWidth W }
    ensures { OneMemory W }
{}

/// One memory, coherent copies, no beat refused, and a delivery that can move a beat exactly while something is
/// outstanding.
pub fn stays_sound<const W: usize>()
    requires { IsWidth W }
    ensures { Headline W }
{}

/// An Acquire that starts alone and is drained brings the permission that it asks for, an AcquireWhole brings Trunk.
pub fn brings_what_is_asked_alone<const W: usize>()
    requires { IsWidth W }
    ensures asked { LoneAcquire W }
    ensures whole { LoneAcquireWhole W }
{}

/// Deliveries move at most as many beats as the load before them.
pub fn moves_at_most_the_load<const W: usize>()
    requires { IsWidth W }
    ensures { DeliveryBound W }
{}

/// After at most as many deliveries as the load, each the next one, nothing is outstanding and no delivery can move a
/// beat.
pub fn drains_within_the_load<const W: usize>()
    requires { IsWidth W }
    ensures { DrainsWithinLoad W }
{}

/// The beats delivered on each link break no rule: a monitor finds no fault in them.
pub fn breaks_no_rule_on_a_link<const W: usize>()
    requires { IsWidth W }
    ensures { Flows W }
{}

/// The beats delivered on all links have no first fault.
pub fn has_no_fault_on_all_links<const W: usize>()
    requires { IsWidth W }
    ensures { Faultless W }
{}

/// By the beats that all links carry, no Grant conflicts with a permission on another link, and beside Trunk none is
/// held.
pub fn grants_beside_no_writer<const W: usize>()
    requires { IsWidth W }
    ensures { Apart W }
{}

/// Each access is answered after a moment, since its request was complete, at which no link held a conflicting
/// permission.
pub fn answers_after_a_window<const W: usize>()
    requires { IsWidth W }
    ensures { AnsweredInTime W }
{}

/// Each beat of a GrantData that is delivered has the bytes of the one memory at that moment.
pub fn grants_true_bytes<const W: usize>()
    requires { IsWidth W }
    ensures { TrueGrants W }
{}

/// Each beat of a ProbeAckData or ReleaseData that is delivered has the bytes of the one memory at that moment.
pub fn gives_back_true_bytes<const W: usize>()
    requires { IsWidth W }
    ensures { TrueReturns W }
{}

/// Each beat of an AccessAckData that is delivered has bytes that the one memory had at a moment, since the request was
/// complete, at which no link held a conflicting permission.
pub fn reads_true_bytes<const W: usize>()
    requires { IsWidth W }
    ensures { TrueReads W }
{}

/// A client stores to its copy, which no link carries, only while its link holds Trunk of the block.
pub fn stores_under_trunk<const W: usize>()
    requires { IsWidth W }
    ensures { HiddenStores W }
{}

/// An access is performed alone, at a moment at which no link holds a conflicting permission.
pub fn performs_where_free<const W: usize>()
    requires { IsWidth W }
    ensures { PerformedFree W }
{}

/// Each beat that is delivered fits its line. Its numbers are within their types if clients are given bytes to store,
/// and its line then reads back as that beat.
pub fn delivers_what_a_line_spells<const W: usize>()
    requires { IsWidth W }
    ensures room { HaveRoom W }
    ensures range { AreInRange W }
{}

/// All of these at once: for each manager and its clients, whatever requests and deliveries come.
pub fn holds<const W: usize>()
    requires { IsWidth W }
    ensures { Theorem W }
{}
