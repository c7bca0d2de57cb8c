//! Calls of the manager and of a world of two caches that contend for a block.

ghost use Rattle.std.specs.Prelude.{◌≡◌, length};

use crate::Came;
use arrayvec::ArrayVec;
use std::alloc::Global;
use tl_beat::beat::Link;
use tl_beat::channel::Channel;
use tl_client::any::AnyClient;
use tl_client::operation::Op;
use tl_coherence::event::{Event, Outcome};
use tl_manager::bits::BitDirectory;
use tl_manager::manager::Manager;
use tl_rules::config::{ClientConfig, Config, NewFault};
use tl_rules::level::Level;
use tl_rules::param::Grow;
use tl_rules::perm::Perm;
use tl_rules::profile::Profile;
use tl_world::agents::agents_of;
use tl_world::world::World;

type Caches = World<8, AnyClient<8>, BitDirectory>;

/// The number of events of the contention.
const EVENTS: usize = 31;

/// A caching client with one source.
fn client() -> ClientConfig {
    ClientConfig {
        level: Level::C,
        sources: 1,
    }
}

/// Two caching clients on one block.
pub fn contention() -> Config {
    let mut clients = ArrayVec::new();
    let _ = clients.try_push(client());
    let _ = clients.try_push(client());
    Config {
        blocks: 1,
        trackers: 1,
        clients,
        profile: Profile::One,
    }
}

fn acquire(client: u8, grow: Grow) -> Event<8> {
    let operation = Op::Acquire { block: 0, grow };
    Event::Ask { client, operation }
}

fn deliver(link: u8, channel: Channel) -> Event<8> {
    let link = Link(link);
    Event::Deliver { link, channel }
}

/// The events: client 0 acquires Trunk of the block, and then client 1 acquires Branch.
fn event(place: usize) -> Event<8> {
    match place {
        0 => acquire(0, Grow::NtoT),
        1 => deliver(0, Channel::A),
        2..=9 => deliver(0, Channel::D),
        10 => deliver(0, Channel::E),
        11 => acquire(1, Grow::NtoB),
        12 => deliver(1, Channel::A),
        13 => deliver(0, Channel::B),
        14..=21 => deliver(0, Channel::C),
        22..=29 => deliver(1, Channel::D),
        _ => deliver(1, Channel::E),
    }
}

fn events() -> [Event<8>; EVENTS] {
    let mut events = [event(0); EVENTS];
    for (place, it) in events.iter_mut().enumerate() {
        *it = event(place);
    }
    events
}

fn new_world(alloc: Global) -> Result<Caches, NewFault> {
    let config = contention();
    let clients = agents_of(alloc, &config)?;
    let directory = BitDirectory::new(alloc, config.blocks, config.clients.len() as u8)?;
    World::new(alloc, config, clients, directory)
}

/// Whether both clients hold Branch of the block, and nothing is outstanding.
fn is_shared(world: &Caches) -> bool {
    world.held(0, 0) == Perm::Branch && world.held(1, 0) == Perm::Branch && world.load() == 0
}

/// Makes a manager of the contention.
pub fn makes_a_manager(alloc: Global) -> Came {
    let config = contention();
    let Ok(directory) = BitDirectory::new(alloc, config.blocks, config.clients.len() as u8) else {
        return Came::Refused;
    };
    match Manager::<8, BitDirectory>::new(alloc, &config, directory) {
        Ok(_) => Came::Done,
        Err(NewFault::Memory) => Came::Refused,
        Err(_) => Came::Wrong,
    }
}

/// Makes a world of the contention.
pub fn makes_a_world(alloc: Global) -> Came {
    match new_world(alloc) {
        Ok(_) => Came::Done,
        Err(NewFault::Memory) => Came::Refused,
        Err(_) => Came::Wrong,
    }
}

fn replayed(
    alloc: Global,
    events: &[Event<8>],
    outcomes: &mut [Outcome<8>],
) -> Result<Caches, NewFault>
    requires { length events.now ≡ length outcomes.old }
{
    let config = contention();
    let clients = agents_of(alloc, &config)?;
    let directory = BitDirectory::new(alloc, config.blocks, config.clients.len() as u8)?;
    World::replay(alloc, config, clients, directory, events, outcomes)
}

/// Replays the contention. If that is refused, the outcomes must be as they were.
pub fn replays(alloc: Global) -> Came {
    let events = events();
    let mut outcomes = [Outcome::Stalled; EVENTS];
    match replayed(alloc, &events, &mut outcomes) {
        Ok(world) if is_shared(&world) && outcomes[0] != Outcome::Stalled => Came::Done,
        Err(NewFault::Memory) if outcomes == [Outcome::Stalled; EVENTS] => Came::Refused,
        _ => Came::Wrong,
    }
}

/// Runs the contention in a world that was made before. No call of it allocates memory.
pub fn runs(alloc: Global) -> Came {
    let Ok(mut world) = new_world(alloc) else {
        return Came::Refused;
    };
    let events = events();
    let mut outcomes = [Outcome::Stalled; EVENTS];
    world.run(&events, &mut outcomes);
    if is_shared(&world) {
        Came::Done
    } else {
        Came::Wrong
    }
}
