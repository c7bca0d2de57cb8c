//! Calls of the judge of all links.

use crate::Came;
use std::alloc::Global;
use tl_beat::beat::{Beat, BeatA, BeatD, Link};
use tl_beat::opcode::{OpA, OpD};
use tl_rules::level::Level;
use tl_rules::memory_rule::MemoryRule;
use tl_rules::profile::Profile;
use tl_together::breach::Breach;
use tl_together::fault::JudgeFault;
use tl_together::judge::Judge;

/// A Put of the first byte of a block.
fn put(block: u8, byte: u8) -> Beat<8> {
    Beat::A(BeatA {
        opcode: OpA::PutFullData,
        param: 0,
        size: 0,
        source: 0,
        address: 64 * u32::from(block),
        mask: 1,
        lanes: Some([byte, 0, 0, 0, 0, 0, 0, 0]),
        corrupt: false,
    })
}

/// A Get of this byte.
fn get(block: u8) -> Beat<8> {
    Beat::A(BeatA {
        opcode: OpA::Get,
        param: 0,
        size: 0,
        source: 0,
        address: 64 * u32::from(block),
        mask: 1,
        lanes: None,
        corrupt: false,
    })
}

/// The answer to a Put.
fn done() -> Beat<8> {
    Beat::D(BeatD {
        opcode: OpD::AccessAck,
        param: 0,
        size: 0,
        source: 0,
        sink: 0,
        denied: false,
        lanes: None,
        corrupt: false,
    })
}

/// The answer to a Get, with this byte.
fn found(byte: u8) -> Beat<8> {
    Beat::D(BeatD {
        opcode: OpD::AccessAckData,
        param: 0,
        size: 0,
        source: 0,
        sink: 0,
        denied: false,
        lanes: Some([byte, 0, 0, 0, 0, 0, 0, 0]),
        corrupt: false,
    })
}

/// Makes a judge of two links.
pub fn makes_a_judge(alloc: Global) -> Came {
    match Judge::<8>::new(alloc, &[Level::C, Level::UL], Profile::One) {
        Ok(_) => Came::Done,
        Err(JudgeFault::Memory) => Came::Refused,
        Err(_) => Came::Wrong,
    }
}

/// Pushes a beat and expects this answer. If it is refused memory, pushes it again; the answer must then be the
/// expected one.
fn pushes_again(
    judge: &mut Judge<8>,
    link: u8,
    beat: &Beat<8>,
    wanted: Result<(), JudgeFault>,
) -> Came {
    let answer = judge.push(Link(link), beat);
    if answer == wanted {
        Came::Done
    } else if answer == Err(JudgeFault::Memory) && judge.push(Link(link), beat) == wanted {
        Came::Refused
    } else {
        Came::Wrong
    }
}

/// The result of two calls.
fn both(one: Came, other: Came) -> Came {
    match (one, other) {
        (Came::Wrong, _) | (_, Came::Wrong) => Came::Wrong,
        (Came::Done, Came::Done) => Came::Done,
        _ => Came::Refused,
    }
}

/// Writes the first byte of each of these blocks on one link.
fn writes(judge: &mut Judge<8>, blocks: u8) -> Came {
    let mut all = Came::Done;
    for block in 0..blocks {
        all = both(all, pushes_again(judge, 0, &put(block, block), Ok(())));
        all = both(all, pushes_again(judge, 0, &done(), Ok(())));
    }
    all
}

/// Reads these bytes on another link.
fn reads(judge: &mut Judge<8>, blocks: u8) -> Came {
    let mut all = Came::Done;
    for block in 0..blocks {
        all = both(all, pushes_again(judge, 1, &get(block), Ok(())));
        all = both(all, pushes_again(judge, 1, &found(block), Ok(())));
    }
    all
}

/// Writes and reads twenty blocks. Then a Get that returns another byte must break M3.
pub fn judges(alloc: Global) -> Came {
    let Ok(mut judge) = Judge::<8>::new(alloc, &[Level::UL, Level::UL], Profile::One) else {
        return Came::Refused;
    };
    let mut all = both(writes(&mut judge, 20), reads(&mut judge, 20));
    all = both(all, pushes_again(&mut judge, 1, &get(7), Ok(())));
    let stale = Err(JudgeFault::Broken(Breach::OfMemory(MemoryRule::M3)));
    both(all, pushes_again(&mut judge, 1, &found(8), stale))
}
