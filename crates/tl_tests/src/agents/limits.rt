//! Limits of a configuration, broken one by one and several at once, in their order.

use crate::agents::worlds::config_of;
use crate::expect::same;
use std::alloc::Global;
use std::process::Abort;
use tl_beat::beat::Link;
use tl_beat::channel::Channel;
use tl_client::any::AnyClient;
use tl_client::caching::Caching;
use tl_client::plain::Plain;
use tl_coherence::event::{Event, Outcome};
use tl_manager::bits::BitDirectory;
use tl_manager::table::TableDirectory;
use tl_play::made::{Covers, Hires, make_manager, make_world};
use tl_play::replay::replayed;
use tl_rules::config::{ClientConfig, Config, NewFault};
use tl_rules::level::Level;
use tl_rules::profile::Profile;
use tl_world::agents::agents_of;
use tl_world::world::World;

/// Blocks, trackers, the sources of each client, and the first limit that is broken.
const BROKEN: [(u16, u8, &[u8], NewFault); 11] = [
    (1, 1, &[], NewFault::N1),
    (0, 1, &[1], NewFault::N2),
    (1025, 1, &[1], NewFault::N2),
    (1, 0, &[1], NewFault::N3),
    (1, 9, &[1], NewFault::N3),
    (1, 1, &[0], NewFault::N4),
    (1, 1, &[8, 9], NewFault::N4),
    (0, 9, &[], NewFault::N1),
    (1025, 0, &[0], NewFault::N2),
    (1024, 9, &[1, 9], NewFault::N3),
    (1024, 8, &[1, 0], NewFault::N4),
];

#[test]
fn limits_of_clients(rt: HostRuntime) {
    for (blocks, trackers, sources, fault) in &BROKEN {
        let config = config_of(*blocks, *trackers, Level::C, sources);
        let made = agents_of::<8>(rt.alloc(), &config);
        same(&rt, &made.err(), &Some(*fault));
    }
}

#[test]
fn limits_of_managers(rt: HostRuntime) {
    for (blocks, trackers, sources, fault) in &BROKEN {
        let config = config_of(*blocks, *trackers, Level::C, sources);
        let made = make_manager::<8, BitDirectory>(rt.alloc(), &config);
        same(&rt, &made.err(), &Some(*fault));
        let made = make_manager::<8, TableDirectory>(rt.alloc(), &config);
        same(&rt, &made.err(), &Some(*fault));
    }
}

fn is_refused<A: Hires<8>, D: Covers>(
    rt: &impl Abort,
    made: Result<World<8, A, D>, NewFault>,
    expected: NewFault,
) {
    match made {
        Ok(_) => panic!(rt; "a world"),
        Err(fault) => same(rt, &fault, &expected),
    }
}

/// With blocks or sources out of their limits there are no clients to make a world of. So a world is refused first for
/// its number of clients, or for its trackers.
const NO_WORLD: [(u16, u8, &[u8], NewFault); 4] = [
    (1, 1, &[], NewFault::N1),
    (0, 9, &[], NewFault::N1),
    (1, 0, &[1], NewFault::N3),
    (1, 9, &[1], NewFault::N3),
];

#[test]
fn limits_of_worlds(rt: HostRuntime) {
    let alloc = rt.alloc();
    for (blocks, trackers, sources, fault) in NO_WORLD {
        let config = |level| config_of(blocks, trackers, level, sources);
        let made = make_world::<8, AnyClient<8>, BitDirectory>(alloc, config(Level::C));
        is_refused(&rt, made, fault);
        let made = make_world::<8, Plain<8>, TableDirectory>(alloc, config(Level::UH));
        is_refused(&rt, made, fault);
        let made = make_world::<8, AnyClient<8>, TableDirectory>(alloc, config(Level::UL));
        is_refused(&rt, made, fault);
        let made = make_world::<8, Caching<8>, BitDirectory>(alloc, config(Level::C));
        is_refused(&rt, made, fault);
    }
}

/// The outcomes stay as they were.
#[test]
fn limits_of_replays(rt: HostRuntime) {
    let alloc = rt.alloc();
    let link = Link(0);
    let channel = Channel::A;
    let events = [Event::Deliver { link, channel }];
    for (blocks, trackers, sources, fault) in NO_WORLD {
        let config = |level| config_of(blocks, trackers, level, sources);
        let mut outcomes = [Outcome::Stalled];
        let made = replayed::<8, AnyClient<8>, BitDirectory>(
            alloc,
            config(Level::C),
            &events,
            &mut outcomes,
        );
        is_refused(&rt, made, fault);
        let made = replayed::<8, Caching<8>, TableDirectory>(
            alloc,
            config(Level::C),
            &events,
            &mut outcomes,
        );
        is_refused(&rt, made, fault);
        same(&rt, &outcomes, &[Outcome::Stalled]);
    }
}

/// The limits of one client: its blocks come before its sources.
fn limits_of<A: Hires<8>>(rt: &impl Abort, alloc: Global, level: Level) {
    let rows = [
        (1, 1, None),
        (8, 1024, None),
        (1, 0, Some(NewFault::N2)),
        (1, 1025, Some(NewFault::N2)),
        (0, 1, Some(NewFault::N4)),
        (9, 1, Some(NewFault::N4)),
        (0, 1024, Some(NewFault::N4)),
        (0, 0, Some(NewFault::N2)),
        (9, 0, Some(NewFault::N2)),
        (0, 1025, Some(NewFault::N2)),
    ];
    for (sources, blocks, fault) in rows {
        let config = ClientConfig { level, sources };
        let made = A::hire(alloc, config, blocks, Profile::One);
        same(rt, &made.err(), &fault);
    }
}

#[test]
fn limits_of_a_client(rt: HostRuntime) {
    limits_of::<Plain<8>>(&rt, rt.alloc(), Level::UH);
    limits_of::<Caching<8>>(&rt, rt.alloc(), Level::C);
    limits_of::<AnyClient<8>>(&rt, rt.alloc(), Level::UL);
    limits_of::<AnyClient<8>>(&rt, rt.alloc(), Level::C);
}
