//! Limits of configurations, versions and levels in headers, reports.

use crate::expect::{holds, same};
use arrayvec::ArrayVec;
use tl_params::config::{ClientConfig, Config, NewFault};
use tl_params::header::{Version, front_level, front_version, is_end};
use tl_params::level::Level;
use tl_params::param::{Cap, Report};
use tl_params::perm::Perm;
use tl_params::profile::Profile;
use tl_params::report::report_of;
use tl_params::width::Width;

fn config(clients: u8, blocks: u16, trackers: u8, sources: u8) -> Config {
    let mut all = ArrayVec::new();
    for _ in 0..clients {
        let client = ClientConfig {
            level: Level::C,
            sources,
        };
        let _ = all.try_push(client);
    }
    Config {
        blocks,
        trackers,
        clients: all,
        profile: Profile::One,
    }
}

#[test]
fn limits_of_a_configuration(rt: HostRuntime) {
    let rows = [
        (1, 1, 1, 1, Ok(())),
        (16, 1024, 8, 8, Ok(())),
        (0, 0, 0, 0, Err(NewFault::N1)),
        (1, 0, 0, 0, Err(NewFault::N2)),
        (1, 1025, 0, 0, Err(NewFault::N2)),
        (1, 1, 0, 0, Err(NewFault::N3)),
        (1, 1, 9, 0, Err(NewFault::N3)),
        (1, 1, 1, 0, Err(NewFault::N4)),
        (2, 1, 1, 9, Err(NewFault::N4)),
    ];
    for (clients, blocks, trackers, sources, verdict) in rows {
        same(
            &rt,
            &config(clients, blocks, trackers, sources).check(),
            &verdict,
        );
    }
    let client = ClientConfig {
        level: Level::UL,
        sources: 0,
    };
    same(&rt, &client.check(0), &Err(NewFault::N2));
    same(&rt, &client.check(4), &Err(NewFault::N4));
}

#[test]
fn reports_of_each_cap_and_permission(rt: HostRuntime) {
    let rows = [
        (Cap::ToN, [Report::TtoN, Report::BtoN, Report::NtoN]),
        (Cap::ToB, [Report::TtoB, Report::BtoB, Report::NtoN]),
        (Cap::ToT, [Report::TtoT, Report::BtoB, Report::NtoN]),
    ];
    for (cap, [trunk, branch, none]) in rows {
        same(&rt, &report_of(cap, Perm::Trunk), &trunk);
        same(&rt, &report_of(cap, Perm::Branch), &branch);
        same(&rt, &report_of(cap, Perm::None), &none);
    }
}

#[test]
fn what_a_version_leaves_out(rt: HostRuntime) {
    same(&rt, &Version::First.width(), &Width::Eight);
    same(&rt, &Version::First.profile(), &Profile::One);
    same(
        &rt,
        &Version::Second(Width::Sixteen).width(),
        &Width::Sixteen,
    );
    same(
        &rt,
        &Version::Second(Width::Sixteen).profile(),
        &Profile::One,
    );
    same(
        &rt,
        &Version::Third(Width::Four, Profile::Two).width(),
        &Width::Four,
    );
    same(
        &rt,
        &Version::Third(Width::Four, Profile::Two).profile(),
        &Profile::Two,
    );
}

#[test]
fn a_version_and_what_follows_it(rt: HostRuntime) {
    let rows: [(&[u8], Version); 3] = [
        (b"1 C", Version::First),
        (b"2 16 C", Version::Second(Width::Sixteen)),
        (b"3 4 2 C", Version::Third(Width::Four, Profile::Two)),
    ];
    for (bytes, version) in rows {
        holds(&rt, front_version(bytes) == Some((version, b" C")));
    }
    for bytes in [b"4 C", b"2 5", b"3 8"] {
        holds(&rt, front_version(bytes) == None);
    }
}

#[test]
fn levels_up_to_the_end(rt: HostRuntime) {
    holds(&rt, front_level(b" UL C\n") == Some((Level::UL, b" C\n")));
    holds(&rt, front_level(b" UH\n") == Some((Level::UH, b"\n")));
    holds(&rt, front_level(b" C\n") == Some((Level::C, b"\n")));
    holds(&rt, front_level(b" U\n") == None);
    holds(&rt, is_end(b"\n"));
    holds(&rt, !is_end(b" C\n"));
}
