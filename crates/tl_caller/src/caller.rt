//! Promises of a caller about the worlds that it makes, and about those that it is given.

ghost use Rattle.std.specs.Prelude.{[], ◌∷◌, ◌≡◌, ◌≢◌, length, IfOk};
ghost use Rattle.tl_beat.specs.statement.Width.{IsWidth};
ghost use Rattle.tl_params.specs.declared.config.Config.{Config};
ghost use Rattle.tl_coherence.specs.statement.Log.{Log, logged};
ghost use Rattle.tl_world.specs.statement.World.{AreReady, IsEmpty};
ghost use Rattle.tl_caller.specs.Promised.{EndsDrained, Promised};

use std::alloc::Global;
use tl_client::agent::Agent;
use tl_coherence::event::{Event, Outcome};
use tl_manager::directory::Directory;
use tl_rules::config::{Config, NewFault};
use tl_rules::perm::Perm;
use tl_world::world::World;

/// Lets these events happen in a new world, and then drains it. The error is that of `World::new`.
pub fn play<const W: usize, A: Agent<W>, D: Directory>(
    alloc: Global,
    config: Config,
    clients: Vec<A>,
    directory: D,
    events: &[Event<W>],
    outcomes: &mut [Outcome<W>],
) -> Result<World<W, A, D>, NewFault>
    requires width { IsWidth W }
    requires clients { AreReady A.represents A.terms config clients.items }
    requires directory { IsEmpty D.perm_of D.blocks D.clients config directory }
    requires number { length events.now ≡ length outcomes.old }
    ensures happened { IfOk result (λ world. Promised config (logged events.now outcomes.new [])) }
    ensures drained { IfOk result (λ world. EndsDrained config (logged events.now outcomes.new [])) }
{
    let mut world = World::new(alloc, config, clients, directory)?;
    world.run(events, outcomes);
    world.drain();
    Ok(world)
}

/// Lets these events happen in a new world, in one call. The error is that of `World::new`.
pub fn play_at_once<const W: usize, A: Agent<W>, D: Directory>(
    alloc: Global,
    config: Config,
    clients: Vec<A>,
    directory: D,
    events: &[Event<W>],
    outcomes: &mut [Outcome<W>],
) -> Result<World<W, A, D>, NewFault>
    requires width { IsWidth W }
    requires clients { AreReady A.represents A.terms config clients.items }
    requires directory { IsEmpty D.perm_of D.blocks D.clients config directory }
    requires number { length events.now ≡ length outcomes.old }
    ensures { IfOk result (λ world. Promised config (logged events.now outcomes.new [])) }
{
    World::replay(alloc, config, clients, directory, events, outcomes)
}

/// Lets an event happen in a world about which nothing else is known.
pub fn step_once<const W: usize, A: Agent<W>, D: Directory>(
    world: &mut World<W, A, D>,
    event: Event<W>,
) -> Outcome<W>
    ensures { (config : Config) × (log : Log W) × Promised config ((event.entry, result) ∷ log) }
{
    world.step(event)
}

/// The permission that a client holds of a block while another client holds Trunk of it: None.
pub fn held_beside_a_writer<const W: usize, A: Agent<W>, D: Directory>(
    world: &World<W, A, D>,
    writer: u8,
    other: u8,
    block: u16,
) -> Perm
    requires { writer ≢ other }
    ensures { result ≡ Perm.None }
{
    match world.held(writer, block) {
        Perm::Trunk => world.held(other, block),
        Perm::None | Perm::Branch => Perm::None,
    }
}
