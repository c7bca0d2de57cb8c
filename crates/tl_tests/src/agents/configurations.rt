//! A world for each number of clients and sources, on few and on many blocks.

ghost use Rattle.tl_beat.specs.statement.Width.{IsWidth};

use crate::agents::worlds::config_of;
use crate::expect::same;
use std::alloc::Global;
use std::process::Abort;
use tl_client::agent::Agent;
use tl_client::any::AnyClient;
use tl_client::operation::Op;
use tl_client::reply::Reply;
use tl_coherence::event::{Event, Outcome};
use tl_manager::bits::BitDirectory;
use tl_manager::directory::Directory;
use tl_manager::table::TableDirectory;
use tl_play::replay::ran;
use tl_rules::config::NewFault;
use tl_rules::level::Level;
use tl_rules::param::Grow;
use tl_rules::perm::Perm;
use tl_world::world::World;

/// Each client acquires Branch of a block.
fn acquires(block: u16) -> [Event<8>; 16] {
    let grow = Grow::NtoB;
    let operation = Op::Acquire { block, grow };
    let mut events = [Event::Ask {
        client: 0,
        operation,
    }; 16];
    for (client, event) in (0..16u8).zip(events.iter_mut()) {
        *event = Event::Ask { client, operation };
    }
    events
}

fn world_in<D: Directory>(
    rt: &impl Abort,
    made: Result<World<8, AnyClient<8>, D>, NewFault>,
) -> World<8, AnyClient<8>, D> {
    match made {
        Ok(world) => world,
        Err(_) => panic!(rt; "no world"),
    }
}

/// This many clients hold Branch of the block.
fn all_read<const W: usize, A: Agent<W>, D: Directory>(
    rt: &impl Abort,
    world: &World<W, A, D>,
    count: u8,
    block: u16,
)
    requires { IsWidth W }
{
    for client in 0..count {
        same(rt, &world.held(client, block), &Perm::Branch);
    }
    same(rt, &world.held(count, block), &Perm::None);
}

fn all_started(rt: &impl Abort, outcomes: &[Outcome<8>], count: usize) {
    let reply = Reply::Started(0);
    for outcome in outcomes.iter().take(count) {
        same(rt, outcome, &Outcome::Replied { reply });
    }
}

/// The clients of a new world, with each kind of directory, read its last block.
fn reads(rt: &impl Abort, alloc: Global, blocks: u16, sources: &[u8]) {
    let block = blocks.saturating_sub(1);
    let all = acquires(block);
    let events = all.get(..sources.len()).unwrap_or(&[]);
    let count = events.len() as u8;
    let mut outcomes = [Outcome::Stalled; 16];
    let config = config_of(blocks, 1, Level::C, sources);
    let room = &mut outcomes[..events.len()];
    let made = ran::<8, AnyClient<8>, BitDirectory>(alloc, config, events, room);
    let mut world = world_in(rt, made);
    same(rt, &world.drain(), &(10 * u64::from(count)));
    all_read(rt, &world, count, block);
    all_started(rt, &outcomes, events.len());
    let mut outcomes = [Outcome::Stalled; 16];
    let config = config_of(blocks, 1, Level::C, sources);
    let room = &mut outcomes[..events.len()];
    let made = ran::<8, AnyClient<8>, TableDirectory>(alloc, config, events, room);
    let mut world = world_in(rt, made);
    same(rt, &world.drain(), &(10 * u64::from(count)));
    all_read(rt, &world, count, block);
    all_started(rt, &outcomes, events.len());
}

fn each_number_of_clients(rt: &impl Abort, alloc: Global, blocks: u16, sources: u8) {
    let all = [sources; 16];
    for count in 1..=16usize {
        reads(rt, alloc, blocks, &all[..count]);
    }
}

#[test]
fn each_configuration(rt: HostRuntime) {
    for sources in 1..=8u8 {
        for blocks in [1, 600, 1024] {
            each_number_of_clients(&rt, rt.alloc(), blocks, sources);
        }
    }
}
