//! Links with liberties: sets of them, and a monitor under each.

use crate::expect::same;
use std::test::Fail;
use tl_beat::beat::{Beat, Link};
use tl_beat::read::read_line;
use tl_monitor::fault::{MonitorFault, TraceFault};
use tl_monitor::monitor::Monitor;
use tl_monitor::trace::check_trace_under;
use tl_params::level::Level;
use tl_params::liberties::{Liberties, Liberty};
use tl_params::perm::Perm;
use tl_params::profile::Profile;
use tl_params::rule::Rule;

/// Trunk of a block, granted without data and acknowledged.
const HELD: [&str; 3] = [
    "00 A 7 1 6 00 00000000 ff - 0\n",
    "00 D 4 0 6 00 00 0 - 0\n",
    "00 E 00\n",
];

/// The first beat of a Put of sixteen bytes, and its answer.
const EARLY_ANSWER: [&str; 2] = [
    "00 A 0 0 4 00 00000000 ff 0000000000000000 0\n",
    "00 D 0 0 4 00 00 0 - 0\n",
];

/// A Grant toT for NtoB.
const LONE_READER: [&str; 2] = [
    "00 A 6 0 6 00 00000000 ff - 0\n",
    "00 D 5 0 6 00 00 0 0000000000000000 0\n",
];

/// A Grant that is denied.
const DENIED: [&str; 2] = [
    "00 A 6 0 6 00 00000000 ff - 0\n",
    "00 D 4 1 6 00 00 1 - 0\n",
];

/// An answer that grants nothing, with a sink.
const WITH_SINK: [&str; 2] = [
    "00 A 4 0 3 00 00000000 ff - 0\n",
    "00 D 1 0 3 00 07 0 0000000000000000 0\n",
];

/// A denied answer to a Get, whose data aren't corrupt.
const UNCORRUPT: [&str; 2] = [
    "00 A 4 0 3 00 00000000 ff - 0\n",
    "00 D 1 0 3 00 00 1 0000000000000000 0\n",
];

#[test]
fn sets_of_liberties(rt: HostRuntime) {
    let names = [
        "ids",
        "sinks",
        "writer",
        "early",
        "drops",
        "reports",
        "denied",
        "uncorrupt",
    ];
    for (liberty, name) in Liberty::ALL.iter().zip(names.iter()) {
        same(&rt, &liberty.name(), name);
        let own = Liberties::none().with(*liberty);
        for other in Liberty::ALL.iter() {
            same(&rt, &own.allows(*other), &(other == liberty));
        }
        same(
            &rt,
            &Liberties::standard().allows(*liberty),
            &(*liberty != Liberty::Uncorrupt),
        );
        same(&rt, &Liberties::none().union(own), &own);
    }
    same(&rt, &Liberties::of(Profile::One), &Liberties::none());
    same(
        &rt,
        &Liberties::of(Profile::Two),
        &Liberties::none().with(Liberty::Writer),
    );
}

#[test]
fn each_liberty_allows_its_trace(rt: HostRuntime) -> Result<(), Fail> {
    let rows: [(Liberty, &[&str], Rule); 7] = [
        (Liberty::Ids, &["00 B 6 2 6 05 00000000 ff - 0\n"], Rule::L2),
        (Liberty::Sinks, &WITH_SINK, Rule::L2),
        (Liberty::Writer, &LONE_READER, Rule::H6),
        (Liberty::Early, &EARLY_ANSWER, Rule::H2),
        (
            Liberty::Reports,
            &["00 C 6 5 6 00 00000000 - 0\n"],
            Rule::L2,
        ),
        (Liberty::Denied, &DENIED, Rule::L6),
        (Liberty::Uncorrupt, &UNCORRUPT, Rule::L6),
    ];
    for (liberty, lines, rule) in rows {
        let mut trace: Vec<(Link, Beat<8>)> = Vec::new(rt.alloc());
        for line in lines.iter() {
            trace.push(read_line(line.as_bytes())?)?;
        }
        let own = Liberties::none().with(liberty);
        let fault = Err(TraceFault::At(lines.len() - 1, rule));
        same(
            &rt,
            &check_trace_under(rt.alloc(), &[Level::C], Liberties::none(), trace.as_slice()),
            &fault,
        );
        same(
            &rt,
            &check_trace_under(rt.alloc(), &[Level::C], own, trace.as_slice()),
            &Ok(()),
        );
    }
    Ok(())
}

#[test]
fn a_client_that_gives_up_a_block_without_a_message(rt: HostRuntime) -> Result<(), Fail> {
    let (link, acquire) = read_line::<8>(b"00 A 6 0 6 01 00000000 ff - 0\n")?;
    for drops in [false, true] {
        let liberties = Liberties {
            drops,
            ..Liberties::none()
        };
        let mut monitor = Monitor::<8>::with_liberties(rt.alloc(), &[Level::C], liberties)?;
        for line in HELD {
            let (link, beat) = read_line(line.as_bytes())?;
            same(&rt, &monitor.push(link, &beat), &Ok(()));
        }
        same(&rt, &monitor.held_under(link, 0), &Perm::Trunk);
        let broken = if drops { None } else { Some(Rule::H5) };
        same(&rt, &monitor.broken_under(link, &acquire), &broken);
        if drops {
            same(&rt, &monitor.try_push(link, &acquire), &Ok(()));
            same(&rt, &monitor.held_under(link, 0), &Perm::None);
        } else {
            same(
                &rt,
                &monitor.try_push(link, &acquire),
                &Err(MonitorFault::Broken(Rule::H5)),
            );
            same(&rt, &monitor.held_under(link, 0), &Perm::Trunk);
        }
    }
    Ok(())
}
