//! Promises of a caller about deliveries.

ghost use Rattle.std.specs.Prelude.{◌∷◌, ◌++◌, ◌≡◌, ◌≤◌, All, filter, length, true};
ghost use Rattle.tl_beat.specs.statement.Width.{IsWidth};
ghost use Rattle.tl_coherence.specs.declared.event.Event.TheVariants.{Deliver};
ghost use Rattle.tl_coherence.specs.statement.Draining.{beats_moved, is_delivery, is_moving};
ghost use Rattle.tl_coherence.specs.statement.Load.{load};
ghost use Rattle.tl_coherence.specs.statement.Log.{Log, logged};
ghost use Rattle.tl_world.specs.statement.World.{IsContinued, IsReached, OnEachLog};
ghost use Rattle.tl_caller.specs.Promised.{Delivered};

use tl_beat::beat::Link;
use tl_beat::channel::Channel;
use tl_client::agent::Agent;
use tl_coherence::event::{Event, Outcome};
use tl_manager::directory::Directory;
use tl_world::world::World;

/// Makes a delivery in any world.
pub fn deliver_once<const W: usize, A: Agent<W>, D: Directory>(
    world: &mut World<W, A, D>,
    link: Link,
    channel: Channel,
) -> Outcome<W>
    ensures { OnEachLog A.represents A.terms D.perm_of world.old (λ config log.
        Delivered config log link channel result) }
{
    world.step(Event::Deliver { link, channel })
}

/// Makes deliveries in one call, and returns the load before. At most that many of them move a beat.
pub fn deliver_all<const W: usize, A: Agent<W>, D: Directory>(
    world: &mut World<W, A, D>,
    deliveries: &[Event<W>],
    outcomes: &mut [Outcome<W>],
) -> u64
    requires deliveries { All (λ event. is_delivery event ≡ true) deliveries.now }
    requires number { length deliveries.now ≡ length outcomes.old }
    ensures load { OnEachLog A.represents A.terms D.perm_of world.old (λ config log. result ≡ load log) }
    ensures happened { IsContinued A.represents A.terms D.perm_of world.old world.new
        (λ _. logged deliveries.now outcomes.new) }
    ensures bound { length (filter is_moving outcomes.new) ≤ result }
{
    let load = world.load();
    world.run(deliveries, outcomes);
    load
}

/// Whether a delivery moved a beat.
fn is_moving<const W: usize>(outcome: &Outcome<W>) -> bool
    ensures { result ≡ is_moving outcome.now }
{
    matches!(outcome, Outcome::Moved { .. } | Outcome::Done { .. })
}

/// Makes a delivery, and returns whether it moved a beat.
fn moves<const W: usize, A: Agent<W>, D: Directory>(
    world: &mut World<W, A, D>,
    link: Link,
    channel: Channel,
) -> bool
    requires { IsWidth W }
    ensures { OnEachLog A.represents A.terms D.perm_of world.old (λ config log.
        (o : Outcome W) × (result ≡ is_moving o)
        × IsReached A.represents A.terms D.perm_of config world.new ((Deliver link channel, o) ∷ log)) }
{
    is_moving(&world.step(Event::Deliver { link, channel }))
}

/// Makes deliveries one by one. Returns the number of them that moved a beat, and the load before, which is at least
/// that number.
pub fn deliver_each<const W: usize, A: Agent<W>, D: Directory>(
    world: &mut World<W, A, D>,
    deliveries: &[(Link, Channel)],
) -> (u64, u64)
    requires { IsWidth W }
    ensures load { OnEachLog A.represents A.terms D.perm_of world.old (λ config log. result.1 ≡ load log) }
    ensures moved { OnEachLog A.represents A.terms D.perm_of world.old (λ config log.
        (more : Log W) × IsReached A.represents A.terms D.perm_of config world.new (more ++ log)
        × (length more ≡ length deliveries.now) × (result.0 ≡ beats_moved more)) }
    ensures bound { result.0 ≤ result.1 }
{
    let load = world.load();
    let mut moved = 0u64;
    for (link, channel) in deliveries {
        if moves(world, *link, *channel) {
            moved += 1;
        }
    }
    (moved, load)
}
