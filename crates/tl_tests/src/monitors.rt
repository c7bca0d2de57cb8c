//! Monitors beat by beat: the number of entries, and refused memory.

ghost use Rattle.tl_beat.specs.statement.Width.{IsWidth};

use crate::expect::{holds, same};
use std::process::Abort;
use std::test::Fail;
use tl_beat::beat::{Beat, BeatA, BeatE, Link};
use tl_beat::fault::LineFault;
use tl_beat::opcode::OpA;
use tl_beat::read::read_line;
use tl_monitor::fault::{MonitorFault, TraceFault};
use tl_monitor::monitor::Monitor;
use tl_monitor::trace::check_trace;
use tl_params::level::Level;
use tl_params::profile::Profile;
use tl_params::rule::Rule;
use tl_rules::memory_rule::MemoryRule;
use tl_together::breach::Breach;
use tl_together::fault as together;
use tl_together::trace::check_together;

/// AcquireBlock NtoT of block 0, GrantData, GrantAck, a Probe toN, and its ProbeAck.
const LENT: [&str; 12] = [
    "00 A 6 1 6 00 00000000 ff - 0\n",
    "00 D 5 0 6 00 00 0 0000000000000000 0\n",
    "00 D 5 0 6 00 00 0 0000000000000000 0\n",
    "00 D 5 0 6 00 00 0 0000000000000000 0\n",
    "00 D 5 0 6 00 00 0 0000000000000000 0\n",
    "00 D 5 0 6 00 00 0 0000000000000000 0\n",
    "00 D 5 0 6 00 00 0 0000000000000000 0\n",
    "00 D 5 0 6 00 00 0 0000000000000000 0\n",
    "00 D 5 0 6 00 00 0 0000000000000000 0\n",
    "00 E 00\n",
    "00 B 6 2 6 00 00000000 ff - 0\n",
    "00 C 4 1 6 00 00000000 - 0\n",
];

/// The same with Branch.
const SHARED: [&str; 12] = [
    "00 A 6 0 6 00 00000000 ff - 0\n",
    "00 D 5 1 6 00 00 0 0000000000000000 0\n",
    "00 D 5 1 6 00 00 0 0000000000000000 0\n",
    "00 D 5 1 6 00 00 0 0000000000000000 0\n",
    "00 D 5 1 6 00 00 0 0000000000000000 0\n",
    "00 D 5 1 6 00 00 0 0000000000000000 0\n",
    "00 D 5 1 6 00 00 0 0000000000000000 0\n",
    "00 D 5 1 6 00 00 0 0000000000000000 0\n",
    "00 D 5 1 6 00 00 0 0000000000000000 0\n",
    "00 E 00\n",
    "00 B 6 2 6 00 00000000 ff - 0\n",
    "00 C 4 2 6 00 00000000 - 0\n",
];

/// A Get of eight bytes, and its answer.
const ANSWERED: [&str; 2] = [
    "00 A 4 0 3 00 00000040 ff - 0\n",
    "00 D 1 0 3 00 00 0 0000000000000000 0\n",
];

/// Trunk of a block for each of two links, and the Releases of both.
const GRANTED_IN_TURN: [&str; 10] = [
    "00 A 7 1 6 00 00000000 ff - 0\n",
    "01 A 7 1 6 00 00000040 ff - 0\n",
    "00 D 4 0 6 00 00 0 - 0\n",
    "01 D 4 0 6 00 01 0 - 0\n",
    "00 E 00\n",
    "01 E 01\n",
    "00 C 6 1 6 00 00000000 - 0\n",
    "01 C 6 1 6 00 00000040 - 0\n",
    "00 D 6 0 6 00 00 0 - 0\n",
    "01 D 6 0 6 00 00 0 - 0\n",
];

/// Trunk of one block for both links: the first beat of each GrantData.
const GRANTED_TO_BOTH: [&str; 4] = [
    "00 A 6 1 6 00 00000000 ff - 0\n",
    "01 A 6 1 6 00 00000000 ff - 0\n",
    "00 D 5 0 6 00 00 0 0000000000000000 0\n",
    "01 D 5 0 6 00 01 0 0000000000000000 0\n",
];

/// The answer of a monitor to the beat that a line spells.
fn pushed(monitor: &mut Monitor<8>, line: &str) -> Result<Result<(), MonitorFault>, LineFault> {
    let (link, beat) = read_line(line.as_bytes())?;
    Ok(monitor.push(link, &beat))
}

#[test]
fn numbers_of_levels_out_of_their_limits(rt: HostRuntime) {
    let trace = [(Link(1), Beat::<8>::E(BeatE { sink: 0 }))];
    for levels in [[].as_slice(), [Level::C; 17].as_slice()] {
        same(
            &rt,
            &check_trace(rt.alloc(), levels, Profile::One, &trace),
            &Err(TraceFault::Levels),
        );
        holds(
            &rt,
            matches!(
                Monitor::<8>::new(rt.alloc(), levels, Profile::One),
                Err(MonitorFault::Levels)
            ),
        );
    }
}

/// With each number of levels, the last link and the one after it.
fn begins_with_each_number<const W: usize>(rt: &(impl Abort + AllocGlobal)) -> Result<(), Fail>
    requires { IsWidth W }
{
    let beat = Beat::E(BeatE { sink: 0 });
    for count in 1..17u8 {
        let levels = [Level::C; 16];
        let levels = &levels[..usize::from(count)];
        let mut monitor = Monitor::<W>::new(rt.alloc(), levels, Profile::One)?;
        let last = Link(count - 1);
        same(rt, &monitor.entries(last), &0);
        same(
            rt,
            &monitor.push(last, &beat),
            &Err(MonitorFault::Broken(Rule::H8)),
        );
        let mut monitor = Monitor::<W>::new(rt.alloc(), levels, Profile::Two)?;
        same(
            rt,
            &monitor.push(Link(count), &beat),
            &Err(MonitorFault::Broken(Rule::L1)),
        );
    }
    Ok(())
}

#[test]
fn monitors_of_each_number_of_levels(rt: HostRuntime) -> Result<(), Fail> {
    begins_with_each_number::<4>(&rt)?;
    begins_with_each_number::<8>(&rt)?;
    begins_with_each_number::<16>(&rt)
}

#[test]
fn a_monitor_closes(rt: HostRuntime) -> Result<(), Fail> {
    let mut monitor = Monitor::<8>::new(rt.alloc(), &[Level::C], Profile::One)?;
    for line in SHARED {
        same(&rt, &pushed(&mut monitor, line)?, &Ok(()));
    }
    same(&rt, &pushed(&mut monitor, SHARED[0])?, &Ok(()));
    let other = "00 A 6 0 6 01 00000000 ff - 0\n";
    same(
        &rt,
        &pushed(&mut monitor, other)?,
        &Err(MonitorFault::Broken(Rule::H4)),
    );
    same(
        &rt,
        &pushed(&mut monitor, SHARED[1])?,
        &Err(MonitorFault::Closed),
    );
    Ok(())
}

#[test]
fn entries_after_each_beat(rt: HostRuntime) -> Result<(), Fail> {
    let mut monitor = Monitor::<8>::new(rt.alloc(), &[Level::C], Profile::One)?;
    let expected = [2, 4, 4, 4, 4, 4, 4, 4, 3, 1, 2, 0];
    for (line, count) in LENT.iter().zip(expected.iter()) {
        same(&rt, &pushed(&mut monitor, line)?, &Ok(()));
        same(&rt, &monitor.entries(Link(0)), count);
        same(&rt, &monitor.entries(Link(1)), &0);
    }
    Ok(())
}

/// Pushes a beat. If it is refused memory, nothing has changed, and it is pushed again.
fn pushes_again(rt: &impl Abort, monitor: &mut Monitor<8>, beat: &Beat<8>) {
    let before = monitor.entries(Link(0));
    match monitor.push(Link(0), beat) {
        Err(MonitorFault::Memory) => {
            same(rt, &monitor.entries(Link(0)), &before);
            same(rt, &monitor.push(Link(0), beat), &Ok(()));
        }
        answer => same(rt, &answer, &Ok(())),
    }
}

/// A beat of a client that acquires many blocks.
fn acquire_of(block: u8) -> Beat<8> {
    Beat::A(BeatA {
        opcode: OpA::AcquireBlock,
        param: 0,
        size: 6,
        source: block,
        address: 64 * u32::from(block),
        mask: 0xff,
        lanes: None,
        corrupt: false,
    })
}

/// For `rt try --test --fail-alloc N`.
#[test]
fn memory_that_is_refused_once(rt: HostRuntime) -> Result<(), Fail> {
    let mut monitor = match Monitor::<8>::new(rt.alloc(), &[Level::C], Profile::One) {
        Err(MonitorFault::Memory) => Monitor::<8>::new(rt.alloc(), &[Level::C], Profile::One)?,
        monitor => monitor?,
    };
    for line in LENT {
        let (_, beat) = read_line(line.as_bytes())?;
        pushes_again(&rt, &mut monitor, &beat);
    }
    for block in 0..=255u8 {
        pushes_again(&rt, &mut monitor, &acquire_of(block));
        same(
            &rt,
            &monitor.entries(Link(0)),
            &(2 * (usize::from(block) + 1)),
        );
    }
    Ok(())
}

/// Thousands of beats, which would show a body that stops early, and then one answer too many.
#[test]
fn many_beats_and_a_fault_at_the_end(rt: HostRuntime) -> Result<(), Fail> {
    let mut trace: Vec<(Link, Beat<8>)> = Vec::new(rt.alloc());
    let mut monitor = Monitor::<8>::new(rt.alloc(), &[Level::UL], Profile::One)?;
    for _ in 0..4000u16 {
        for line in ANSWERED {
            trace.push(read_line(line.as_bytes())?)?;
            same(&rt, &pushed(&mut monitor, line)?, &Ok(()));
        }
    }
    same(&rt, &monitor.entries(Link(0)), &0);
    let levels = [Level::UL];
    same(
        &rt,
        &check_trace(rt.alloc(), &levels, Profile::One, trace.as_slice()),
        &Ok(()),
    );
    trace.push(read_line(ANSWERED[1].as_bytes())?)?;
    same(
        &rt,
        &check_trace(rt.alloc(), &levels, Profile::One, trace.as_slice()),
        &Err(TraceFault::At(8000, Rule::H2)),
    );
    Ok(())
}

/// Thousands of beats of two links, each with a block of its own, and then one block for both.
#[test]
fn many_beats_of_all_links_and_a_fault_at_the_end(rt: HostRuntime) -> Result<(), Fail> {
    let levels = [Level::C, Level::C];
    let mut trace: Vec<(Link, Beat<8>)> = Vec::new(rt.alloc());
    for _ in 0..500u16 {
        for line in GRANTED_IN_TURN {
            trace.push(read_line(line.as_bytes())?)?;
        }
    }
    same(
        &rt,
        &check_together(rt.alloc(), &levels, Profile::One, trace.as_slice()),
        &Ok(()),
    );
    for line in GRANTED_TO_BOTH {
        trace.push(read_line(line.as_bytes())?)?;
    }
    same(
        &rt,
        &check_together(rt.alloc(), &levels, Profile::One, trace.as_slice()),
        &Err(together::TraceFault::At(5003, Breach::OfMemory(MemoryRule::M1))),
    );
    same(
        &rt,
        &check_together(rt.alloc(), &[], Profile::One, trace.as_slice()),
        &Err(together::TraceFault::Levels),
    );
    Ok(())
}
