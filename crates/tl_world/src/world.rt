//! A world of a manager and its clients.

ghost use Rattle.std.specs.Prelude.{ℕ, [], ◌∷◌, ◌≡◌, ◌≤◌, ◌<◌, ◌+◌, ◌/◌, length, slice_set, is_some};
ghost use Rattle.tl_beat.specs.statement.Width.{IsWidth};
ghost use Rattle.tl_client.specs.statement.EndpointInvariant.{holds};
ghost use Rattle.tl_client.specs.declared.operation.Op.TheVariants.{Load, Store};
ghost use Rattle.tl_coherence.specs.declared.event.Event.TheVariants.{Ask, Deliver};
ghost use Rattle.tl_coherence.specs.statement.Delivery.{capacity, sources_of};
ghost use Rattle.tl_coherence.specs.statement.Load;
ghost use Rattle.tl_coherence.specs.statement.Load.{IsBalanced};
ghost use Rattle.tl_coherence.specs.statement.Log.{system_after, logged};
ghost use Rattle.tl_coherence.specs.statement.Step.{stepped};
ghost use Rattle.tl_coherence.specs.statement.System.{terms_at};
ghost use Rattle.tl_world.specs.statement.World.{IsContinued, IsNewWorld, IsReplayed, IsWorld, OnEachLog};
ghost use Rattle.tl_world.specs.statement.Answered.{answered};
ghost use Rattle.tl_world.specs.statement.World.{AreReady, IsEmpty, held_by, copy_by, deepest_by};
ghost use Rattle.tl_coherence.specs.statement.Movable;
ghost use Rattle.tl_coherence.specs.statement.Movable.{drained};
ghost use Rattle.tl_coherence.specs.statement.Draining.{IsDrained};

use crate::clients::{copy_at, held_at};
use crate::make::make_rings;
use crate::network::Network;
use crate::outstanding::Outstanding;
use crate::state::WorldState;
use crate::typed::prove_typed;
use std::alloc::Global;
use std::marker::Model;
use tl_beat::beat::Link;
use tl_beat::channel::Channel;
use tl_client::agent::Agent;
use tl_client::operation::Op;
use tl_client::reply::Reply;
use tl_coherence::event::{Event, Outcome};
use tl_manager::directory::Directory;
use tl_manager::manager::Manager;
use tl_rules::config::{Config, NewFault};
use tl_rules::perm::Perm;

/// Writes the outcome of an event.
fn set_outcome<const W: usize>(outcomes: &mut [Outcome<W>], i: usize, outcome: Outcome<W>)
    requires { i < length outcomes.old }
    ensures { outcomes.new ≡ slice_set outcomes.old i outcome.entry }
{
    outcomes[i] = outcome;
}

/// A manager and its clients, joined by the channels of their links. Some log of some configuration leads to its state,
/// since `new` made it and only its calls have changed it (`IsWorld`). A contract speaks of each such log (`OnEachLog`):
/// of all that can have happened to the world.
#[derive(Drop)]
pub struct World<const W: usize, A: Agent<W>, D: Directory> {
    state: WorldState<W, A, D>,
}

impl<const W: usize, A: Agent<W>, D: Directory> Model for World<W, A, D> {
    ghost use Rattle.tl_beat.specs.statement.Width.{IsWidth};
    ghost use Rattle.tl_world.specs.declared.state.WorldState.{WorldState};
    ghost use Rattle.tl_world.specs.statement.World.{IsWorld};

    ghost Value = { WorldState W A D };

    ghost view = { λ w. w.state };

    ghost invariant = { λ w. IsWidth W × IsWorld A.represents A.terms D.perm_of w.state };
}

impl<const W: usize, A: Agent<W>, D: Directory> World<W, A, D> {
    /// A new world with these clients and this directory, which must be new and fit the configuration. The error is the
    /// first limit that it breaks, in the order N1 to N4, or `Memory`.
    pub fn new(
        alloc: Global,
        config: Config,
        clients: Vec<A>,
        directory: D,
    ) -> Result<Self, NewFault>
        requires width { IsWidth W }
        requires clients { AreReady A.represents A.terms config clients.items }
        requires directory { IsEmpty D.perm_of D.blocks D.clients config directory }
        ensures { IsNewWorld A.represents A.terms D.perm_of config result }
    {
        let manager = Manager::new(alloc, &config, directory)?;
        let rings = make_rings(alloc, &config)?;
        let network = Network {
            clients,
            manager,
            rings,
        };
        let outstanding = Outstanding {
            requests: 0,
            releases: 0,
        };
        Ok(World {
            state: WorldState {
                network,
                outstanding,
            },
        })
    }

    /// Lets an event happen, and returns its outcome.
    pub fn step(&mut self, event: Event<W>) -> Outcome<W>
        ensures world { IsWorld A.represents A.terms D.perm_of self.old }
        ensures reached { IsContinued A.represents A.terms D.perm_of self.old self.new
            (λ _ log. (event.entry, result) ∷ log) }
        ensures outcome { OnEachLog A.represents A.terms D.perm_of self.old (λ config log.
            result ≡ (stepped config event.entry (system_after config log)).outcome) }
    {
        let mut outcome = Outcome::Empty;
        match event {
            Event::Ask { client, operation } => self.ask(client, &operation, &mut outcome),
            Event::Deliver { link, channel } => self.deliver(link, channel, &mut outcome),
        }
        outcome
    }

    /// Asks a client for an operation, as `step` does, and writes the outcome into `outcome`.
    fn ask(&mut self, client: u8, operation: &Op<W>, outcome: &mut Outcome<W>)
        ensures world { IsWorld A.represents A.terms D.perm_of self.old }
        ensures reached { IsContinued A.represents A.terms D.perm_of self.old self.new
            (λ _ log. (Ask client operation.now, outcome.new) ∷ log) }
        ensures outcome { OnEachLog A.represents A.terms D.perm_of self.old (λ config log.
            outcome.new ≡ (stepped config (Ask client operation.now) (system_after config log)).outcome) }
    {
        prove_typed(operation);
        self.state.network.ask_if_there(client, operation, outcome);
        self.state.outstanding.count_ask(operation, outcome);
    }

    /// Offers the first beat of a channel of a link to the end that takes it, as `step` does, and writes the outcome
    /// into `outcome`.
    pub fn deliver(&mut self, link: Link, channel: Channel, outcome: &mut Outcome<W>)
        ensures world { IsWorld A.represents A.terms D.perm_of self.old }
        ensures reached { IsContinued A.represents A.terms D.perm_of self.old self.new
            (λ _ log. (Deliver link channel, outcome.new) ∷ log) }
        ensures outcome { OnEachLog A.represents A.terms D.perm_of self.old (λ config log.
            outcome.new ≡ (stepped config (Deliver link channel) (system_after config log)).outcome) }
    {
        self.state.network.deliver(link, channel, outcome);
        self.state.outstanding.count_delivery(outcome);
    }

    /// Asks a client for a Load, as `step` does. Returns its reply, or None if there is no such client.
    pub fn ask_load(&mut self, client: u8, address: u32, size: u8) -> Option<Reply>
        ensures world { IsWorld A.represents A.terms D.perm_of self.old }
        ensures reached { IsContinued A.represents A.terms D.perm_of self.old self.new
            (λ _ log. (Ask client (Load address size), answered result) ∷ log) }
        ensures outcome { OnEachLog A.represents A.terms D.perm_of self.old (λ config log.
            answered result ≡ (stepped config (Ask client (Load address size)) (system_after config log)).outcome) }
    {
        self.state.network.ask_load(client, address, size)
    }

    /// Asks a client for a Store, as `step` does. Returns its reply, or None if there is no such client.
    pub fn ask_store(&mut self, client: u8, address: u32, size: u8, value: u64) -> Option<Reply>
        ensures world { IsWorld A.represents A.terms D.perm_of self.old }
        ensures reached { IsContinued A.represents A.terms D.perm_of self.old self.new
            (λ _ log. (Ask client (Store address size value), answered result) ∷ log) }
        ensures outcome { OnEachLog A.represents A.terms D.perm_of self.old (λ config log.
            answered result
            ≡ (stepped config (Ask client (Store address size value)) (system_after config log)).outcome) }
    {
        self.state.network.ask_store(client, address, size, value)
    }

    /// Lets the events happen one after the other, and writes their outcomes.
    pub fn run(&mut self, events: &[Event<W>], outcomes: &mut [Outcome<W>])
        requires { length events.now ≡ length outcomes.old }
        ensures world { IsWorld A.represents A.terms D.perm_of self.old }
        ensures reached { IsContinued A.represents A.terms D.perm_of self.old self.new
            (λ _. logged events.now outcomes.new) }
        ensures number { length outcomes.new ≡ length outcomes.old }
    {
        let _ = &self.state;
        for (i, event) in events.iter().enumerate() {
            set_outcome(outcomes, i, self.step(*event));
        }
    }

    /// A new world in which these events have happened, with their outcomes. The error is that of `new`; then the
    /// outcomes are as before.
    pub fn replay(
        alloc: Global,
        config: Config,
        clients: Vec<A>,
        directory: D,
        events: &[Event<W>],
        outcomes: &mut [Outcome<W>],
    ) -> Result<Self, NewFault>
        requires width { IsWidth W }
        requires clients { AreReady A.represents A.terms config clients.items }
        requires directory { IsEmpty D.perm_of D.blocks D.clients config directory }
        requires number { length events.now ≡ length outcomes.old }
        ensures { IsReplayed A.represents A.terms D.perm_of config events.now outcomes.old outcomes.new result }
    {
        let mut world = World::new(alloc, config, clients, directory)?;
        world.run(events, outcomes);
        Ok(world)
    }

    /// The next delivery: the first that can move a beat, in the order E, D, C, B, A of the channels, and of the links
    /// within a channel.
    pub fn next_delivery(&self) -> Option<(Link, Channel)>
        ensures world { IsWorld A.represents A.terms D.perm_of self.now }
        ensures next { OnEachLog A.represents A.terms D.perm_of self.now (λ config log.
            result ≡ Movable.next_delivery config (system_after config log)) }
    {
        self.state.network.next_delivery()
    }

    /// Makes the next delivery until there is none and nothing is outstanding. Returns the number of deliveries, which
    /// is at most the load before.
    pub fn drain(&mut self) -> u64
        ensures world { IsWorld A.represents A.terms D.perm_of self.old }
        ensures reached { IsContinued A.represents A.terms D.perm_of self.old self.new
            (λ config. drained config result) }
        ensures drained { OnEachLog A.represents A.terms D.perm_of self.old (λ config log.
            IsDrained config log result) }
    {
        // A field is named so that the prover has the invariant of the world here.
        let _ = &self.state;
        let load = self.load();
        let mut outcome = Outcome::Empty;
        for count in 0..load {
            match self.next_delivery() {
                None => return count,
                Some((link, channel)) => self.deliver(link, channel, &mut outcome),
            }
        }
        load
    }

    /// The permission that a client holds of a block; None if there is no such client.
    pub fn held(&self, client: u8, block: u16) -> Perm
        ensures world { IsWorld A.represents A.terms D.perm_of self.now }
        ensures held { OnEachLog A.represents A.terms D.perm_of self.now (λ config log.
            result ≡ held_by config client block (system_after config log)) }
    {
        held_at(&self.state.network.clients, usize::from(client), block)
    }

    /// The bytes of a client's copy of a block. There is a copy exactly if the client's permission isn't None.
    pub fn copy(&self, client: u8, block: u16) -> Option<[u8; 64]>
        ensures world { IsWorld A.represents A.terms D.perm_of self.now }
        ensures copy { OnEachLog A.represents A.terms D.perm_of self.now (λ config log.
            result ≡ copy_by config client block (system_after config log)) }
        ensures held { OnEachLog A.represents A.terms D.perm_of self.now (λ config log.
            is_some result ≡ holds (held_by config client block (system_after config log))) }
    {
        copy_at(&self.state.network.clients, usize::from(client), block)
    }

    /// The greatest number of beats that a channel has ever held, at most the number for which it has room; 0 for a
    /// link without a client.
    pub fn deepest(&self, link: Link, channel: Channel) -> u16
        ensures world { IsWorld A.represents A.terms D.perm_of self.now }
        ensures deepest { OnEachLog A.represents A.terms D.perm_of self.now (λ config log.
            result ≡ deepest_by config log link.0 channel) }
        ensures room { OnEachLog A.represents A.terms D.perm_of self.now (λ config log.
            result ≤ capacity (64 / W) (sources_of (terms_at config link.0)) config.trackers channel) }
    {
        self.state.network.rings.deepest(link, channel)
    }

    /// The number of deliveries that the operations outstanding can still need.
    pub fn load(&self) -> u64
        ensures world { IsWorld A.represents A.terms D.perm_of self.now }
        ensures load { OnEachLog A.represents A.terms D.perm_of self.now (λ config log.
            result ≡ Load.load log) }
        ensures balanced { OnEachLog A.represents A.terms D.perm_of self.now (λ config log.
            IsBalanced log) }
    {
        self.state.outstanding.load::<W>()
    }
}
