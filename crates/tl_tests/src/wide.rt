//! Calls of tl_wide whose contracts a body that always fails would meet too.

use crate::expect::{holds, same};
use tl_beat::beat::{Beat, BeatA, Link};
use tl_beat::opcode::OpA;
use tl_wide::beat::{WideBeat, WideBeatA};
use tl_wide::narrow::Narrower;
use tl_wide::numbers::Numbers;
use tl_wide::read::read_wide_into;
use tl_wide::write::write_wide_line;

const LINE: &[u8] =
    b"01 A 0 0 5 01ff 0000000180000020 ffffffff 5a5a5a5a5a5a5a5a5a5a5a5a5a5a5a5a3c3c3c3c3c3c3c3c3c3c3c3c3c3c3c3c 0\n";

/// A Put of 32 bytes whose first sixteen differ from its last.
fn put() -> WideBeat<32> {
    let mut lanes = [0x5a; 32];
    lanes[..16].fill(0x3c);
    WideBeat::A(WideBeatA {
        opcode: OpA::PutFullData,
        param: 0,
        size: 5,
        source: 0x1ff,
        address: 0x1_8000_0020,
        mask: 0xffff_ffff,
        lanes: Some(lanes),
        corrupt: false,
    })
}

#[test]
fn writes_a_line(rt: HostRuntime) {
    let beat = WideBeat::A(WideBeatA {
        opcode: OpA::PutFullData,
        param: 0,
        size: 5,
        source: 0x1ff,
        address: 0x1_8000_0020,
        mask: 0xffff_ffff,
        lanes: Some([0x5a; 32]),
        corrupt: false,
    });
    let mut text = Vec::new(rt.alloc());
    holds(&rt, write_wide_line(Link(1), &beat, &mut text).is_ok());
    let line =
        b"01 A 0 0 5 01ff 0000000180000020 ffffffff 5a5a5a5a5a5a5a5a5a5a5a5a5a5a5a5a5a5a5a5a5a5a5a5a5a5a5a5a5a5a5a5a 0\n";
    same(&rt, &text.as_slice(), &line.as_slice());
}

#[test]
fn reads_a_line(rt: HostRuntime) {
    let mut beat = WideBeat::A(WideBeatA {
        opcode: OpA::Get,
        param: 0,
        size: 0,
        source: 0,
        address: 0,
        mask: 1,
        lanes: None,
        corrupt: false,
    });
    same(
        &rt,
        &read_wide_into::<32>(LINE, &mut beat).ok(),
        &Some(Link(1)),
    );
    holds(&rt, beat == put());
}

/// A part of that Put, with the first block and the second source of its link.
fn part_of_put(byte: u8) -> Option<Beat<16>> {
    Some(Beat::A(BeatA {
        opcode: OpA::PutFullData,
        param: 0,
        size: 5,
        source: 1,
        address: 0x20,
        mask: 0xffff,
        lanes: Some([byte; 16]),
        corrupt: false,
    }))
}

#[test]
fn cuts_a_beat_in_parts(rt: HostRuntime) {
    let beat = put();
    let mut narrower = Narrower::new(rt.alloc());
    match narrower.narrow::<32, 16>(Link(1), &beat) {
        Ok(Some(mut parts)) => {
            holds(&rt, parts.next::<32, 16>(&beat) == part_of_put(0x3c));
            holds(&rt, parts.next::<32, 16>(&beat) == part_of_put(0x5a));
            holds(&rt, parts.next::<32, 16>(&beat) == None);
        }
        _ => holds(&rt, false),
    }
}

#[test]
fn numbers_names(rt: HostRuntime) {
    let mut numbers = Numbers::new(rt.alloc());
    same(&rt, &numbers.number(0x1_8000_0000, 2).ok(), &Some(Some(0)));
    same(&rt, &numbers.number(7, 2).ok(), &Some(Some(1)));
    same(&rt, &numbers.number(8, 2).ok(), &Some(None));
    same(&rt, &numbers.number(0x1_8000_0000, 2).ok(), &Some(Some(0)));
}
