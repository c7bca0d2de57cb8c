//! Calls of lines, the monitor, clients and directories.

ghost use Rattle.tl_beat.specs.statement.Line.{IsWritable};

use crate::Came;
use crate::worlds::contention;
use std::alloc::{AllocError, Global};
use tl_beat::beat::{Beat, BeatA, Link};
use tl_beat::opcode::OpA;
use tl_beat::write::write_line;
use tl_client::any::AnyClient;
use tl_client::caching::Caching;
use tl_manager::bits::BitDirectory;
use tl_manager::table::TableDirectory;
use tl_monitor::fault::MonitorFault;
use tl_monitor::monitor::Monitor;
use tl_rules::config::{ClientConfig, NewFault};
use tl_rules::level::Level;
use tl_rules::profile::Profile;
use tl_world::agents::agents_of;

/// An AcquireBlock of a block, with its number as the source.
fn acquire_of(block: u8) -> Beat<8>
    ensures { IsWritable result }
{
    Beat::A(BeatA {
        opcode: OpA::AcquireBlock,
        param: 0,
        size: 6,
        source: block,
        address: 64 * u32::from(block),
        mask: 0xff,
        lanes: None,
        corrupt: false,
    })
}

/// The result of a constructor with errors of its own.
fn made<T: Drop>(answer: Result<T, NewFault>) -> Came {
    match answer {
        Ok(_) => Came::Done,
        Err(NewFault::Memory) => Came::Refused,
        Err(_) => Came::Wrong,
    }
}

/// The result of a constructor whose only error is `AllocError`.
fn had<T: Drop>(answer: Result<T, AllocError>) -> Came {
    match answer {
        Ok(_) => Came::Done,
        Err(_) => Came::Refused,
    }
}

/// Appends a hundred lines to a vector. A line that is refused must leave the vector as it was.
pub fn appends(alloc: Global) -> Came {
    let mut lines = Vec::new(alloc);
    for block in 0..100u8 {
        let length = lines.len();
        if write_line(Link(0), &acquire_of(block), &mut lines).is_err() {
            return if lines.len() == length {
                Came::Refused
            } else {
                Came::Wrong
            };
        }
    }
    Came::Done
}

/// Makes a monitor of two links.
pub fn makes_a_monitor(alloc: Global) -> Came {
    match Monitor::<8>::new(alloc, &[Level::C, Level::UL], Profile::One) {
        Ok(_) => Came::Done,
        Err(MonitorFault::Memory) => Came::Refused,
        Err(_) => Came::Wrong,
    }
}

/// Pushes a beat, and again if it is refused memory. Nothing may have changed then, and the second push must succeed.
fn pushes_again(monitor: &mut Monitor<8>, beat: &Beat<8>) -> Came {
    let before = monitor.entries(Link(0));
    match monitor.push(Link(0), beat) {
        Ok(()) => Came::Done,
        Err(MonitorFault::Memory) => {
            let unchanged = monitor.entries(Link(0)) == before;
            if unchanged && monitor.push(Link(0), beat) == Ok(()) {
                Came::Refused
            } else {
                Came::Wrong
            }
        }
        Err(_) => Came::Wrong,
    }
}

/// Pushes Acquires of 256 blocks. Then the source of the last must be pending.
pub fn pushes(alloc: Global) -> Came {
    let Ok(mut monitor) = Monitor::<8>::new(alloc, &[Level::C], Profile::One) else {
        return Came::Refused;
    };
    let mut all = Came::Done;
    for block in 0..=255u8 {
        match pushes_again(&mut monitor, &acquire_of(block)) {
            Came::Done => {}
            Came::Refused => all = Came::Refused,
            Came::Wrong => return Came::Wrong,
        }
    }
    let again = monitor.push(Link(0), &acquire_of(255));
    if monitor.entries(Link(0)) == 512 && again.is_err() {
        all
    } else {
        Came::Wrong
    }
}

/// Makes a caching client.
pub fn makes_a_cache(alloc: Global) -> Came {
    let config = ClientConfig {
        level: Level::C,
        sources: 1,
    };
    made(Caching::<8>::new(alloc, config, 16, Profile::One))
}

/// Makes the clients of the contention.
pub fn makes_clients(alloc: Global) -> Came {
    let clients: Result<Vec<AnyClient<8>>, NewFault> = agents_of(alloc, &contention());
    made(clients)
}

/// Makes a directory of words.
pub fn makes_words(alloc: Global) -> Came {
    had(BitDirectory::new(alloc, 1024, 16))
}

/// Makes a directory of entries.
pub fn makes_a_table(alloc: Global) -> Came {
    had(TableDirectory::new(alloc, 1024, 16))
}
