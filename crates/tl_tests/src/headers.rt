//! The values of headers of schedules.

use crate::expect::{holds, same_in};
use std::test::Fail;
use tl_params::header::Version;
use tl_params::level::Level;
use tl_params::profile::Profile;
use tl_params::width::Width;
use tl_schedule::header::read_schedule;

/// A header: its version, blocks, trackers and number of clients, and the last client.
type Named = (&'static str, Version, u16, u8, usize, (Level, u8));

const HEADERS: [Named; 10] = [
    (
        "tlsched 1 1 1 UL:1\n",
        Version::First,
        1,
        1,
        1,
        (Level::UL, 1),
    ),
    (
        "tlsched 1 1 1 UH:1 UH:1\n",
        Version::First,
        1,
        1,
        2,
        (Level::UH, 1),
    ),
    (
        "tlsched 1 5 2 C:2 C:2\n",
        Version::First,
        5,
        2,
        2,
        (Level::C, 2),
    ),
    (
        "tlsched 1 1024 8 UL:1 UH:3 C:8\n",
        Version::First,
        1024,
        8,
        3,
        (Level::C, 8),
    ),
    (
        "tlsched 2 4 1 1 C:1 C:1\n",
        Version::Second(Width::Four),
        1,
        1,
        2,
        (Level::C, 1),
    ),
    (
        "tlsched 2 16 1 1 UH:1\n",
        Version::Second(Width::Sixteen),
        1,
        1,
        1,
        (Level::UH, 1),
    ),
    (
        "tlsched 3 8 2 1 1 C:1 C:1\n",
        Version::Third(Width::Eight, Profile::Two),
        1,
        1,
        2,
        (Level::C, 1),
    ),
    (
        "tlsched 3 8 1 10 1 C:1\n",
        Version::Third(Width::Eight, Profile::One),
        10,
        1,
        1,
        (Level::C, 1),
    ),
    (
        "tlsched 3 16 2 999 7 C:1 UH:2\n",
        Version::Third(Width::Sixteen, Profile::Two),
        999,
        7,
        2,
        (Level::UH, 2),
    ),
    (
        "tlsched 1 1 1 C:1 C:1 C:1 C:1 C:1 C:1 C:1 C:1 C:1 C:1 C:1 C:1 C:1 C:1 C:1 UL:4\n",
        Version::First,
        1,
        1,
        16,
        (Level::UL, 4),
    ),
];

#[test]
fn headers_of_each_version(rt: HostRuntime) -> Result<(), Fail> {
    for (line, version, blocks, trackers, count, last) in HEADERS {
        let schedule = read_schedule(line.as_bytes()).ok_or(line)?;
        let clients = schedule.config.clients.as_slice();
        same_in(&rt, &schedule.version, &version, &line);
        same_in(&rt, &schedule.config.profile, &version.profile(), &line);
        same_in(&rt, &schedule.config.blocks, &blocks, &line);
        same_in(&rt, &schedule.config.trackers, &trackers, &line);
        same_in(&rt, &clients.len(), &count, &line);
        let client = clients.last().map(|c| (c.level, c.sources));
        same_in(&rt, &client, &Some(last), &line);
    }
    // One end too many.
    holds(&rt, read_schedule(b"tlsched 1 1 1 C:1\n\n").is_none());
    Ok(())
}
