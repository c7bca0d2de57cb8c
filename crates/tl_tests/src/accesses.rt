//! The messages of lines of accesses, at each width.

ghost use Rattle.std.specs.Prelude.{◌≤◌};
ghost use Rattle.tl_beat.specs.statement.Width.{IsWidth};

use crate::expect::same_in;
use std::process::Abort;
use std::test::Fail;
use tl_beat::opcode::OpA;
use tl_burst::message::{Message, MessageA};
use tl_client::operation::Op;
use tl_coherence::event::Event;
use tl_schedule::line::{Line, read_event};

/// The digits of 64 bytes of ones.
pub const FULL: &str =
    "ffffffffffffffffffffffffffffffffffffffffffffffffffffffffffffffffffffffffffffffffffffffffffffffffffffffffffffffffffffffffffffffff";

/// The fields of an access without its address: opcode, param, size and mask.
type Access = (OpA, u8, u8, u64);

/// The line must spell an access of client 0 with this message, with source 0, with corrupt 0, and with these bytes
/// from a lane on.
fn sends<const W: usize>(
    rt: &impl Abort,
    line: &str,
    address: u32,
    access: Access,
    lane: usize,
    bytes: &[u8],
)
    requires width { IsWidth W }
    requires small { access.2 ≤ 6 }
{
    let (opcode, param, size, mask) = access;
    let mut payload = [0; 64];
    for (i, byte) in bytes.iter().enumerate() {
        if lane < 64 && i < 64 - lane {
            payload[lane + i] = *byte;
        }
    }
    let message: MessageA<W> = MessageA {
        opcode,
        param,
        size,
        source: 0,
        address,
        payload,
        mask,
        corrupt: 0,
    };
    let event = Event::Ask {
        client: 0,
        operation: Op::Access(Message::A(message)),
    };
    same_in(
        rt,
        &read_event(line.as_bytes()),
        &Ok(Line::Event(event)),
        &line,
    );
}

#[test]
fn gets_and_intents(rt: HostRuntime) {
    for (line, address, size, mask) in [
        ("00 get 3 00000000\n", 0, 3, 0xff),
        ("00 get 2 00000004\n", 4, 2, 0xf0),
        ("00 get 6 00000100\n", 0x100, 6, 0xff),
    ] {
        sends::<8>(&rt, line, address, (OpA::Get, 0, size, mask), 0, &[]);
    }
    for (line, address, param, size, mask) in [
        ("00 intent 6 00000000 PrefetchRead\n", 0, 0, 6, 0xff),
        ("00 intent 0 00000007 PrefetchWrite\n", 7, 1, 0, 0x80),
    ] {
        sends::<8>(&rt, line, address, (OpA::Intent, param, size, mask), 0, &[]);
    }
    let line = "00 get 6 00000040\n";
    sends::<4>(&rt, line, 0x40, (OpA::Get, 0, 6, 0x0f), 0, &[]);
    let line = "00 get 4 00000040\n";
    sends::<16>(&rt, line, 0x40, (OpA::Get, 0, 4, 0xffff), 0, &[]);
    let line = "00 get 3 00000048\n";
    sends::<16>(&rt, line, 0x48, (OpA::Get, 0, 3, 0xff00), 0, &[]);
}

#[test]
fn atomics_by_name(rt: HostRuntime) {
    for (line, opcode, param) in [
        ("00 arith 2 00000000 MIN 00000001\n", OpA::ArithmeticData, 0),
        ("00 arith 2 00000000 MAX 00000001\n", OpA::ArithmeticData, 1),
        (
            "00 arith 2 00000000 MINU 00000001\n",
            OpA::ArithmeticData,
            2,
        ),
        (
            "00 arith 2 00000000 MAXU 00000001\n",
            OpA::ArithmeticData,
            3,
        ),
        ("00 arith 2 00000000 ADD 00000001\n", OpA::ArithmeticData, 4),
        ("00 logic 2 00000000 XOR 00000001\n", OpA::LogicalData, 0),
        ("00 logic 2 00000000 OR 00000001\n", OpA::LogicalData, 1),
        ("00 logic 2 00000000 AND 00000001\n", OpA::LogicalData, 2),
        ("00 logic 2 00000000 SWAP 00000001\n", OpA::LogicalData, 3),
    ] {
        sends::<8>(&rt, line, 0, (opcode, param, 2, 0x0f), 0, &[1]);
    }
}

/// A mask has the last beat's lanes first, with one digit a beat of 4 bytes, and four of 16.
#[test]
fn puts_at_each_width(rt: HostRuntime) -> Result<(), Fail> {
    let line = format!(in rt.alloc(); "00 put 6 00000000 {FULL}\n")?;
    let access = (OpA::PutFullData, 0, 6, u64::MAX);
    sends::<8>(&rt, line.as_str(), 0, access, 0, &[0xff; 64]);
    let line = "00 part 2 00000004 50 44332211\n";
    let access = (OpA::PutPartialData, 0, 2, 0x50);
    sends::<8>(&rt, line, 4, access, 4, &[0x11, 0x22, 0x33, 0x44]);
    let bytes = [0x88, 0, 0, 0, 0, 0, 0, 0x11];
    let line = "00 put 3 00000000 1100000000000088\n";
    sends::<4>(&rt, line, 0, (OpA::PutFullData, 0, 3, 0xff), 0, &bytes);
    let line = "00 part 3 00000000 1f 1100000000000088\n";
    sends::<4>(&rt, line, 0, (OpA::PutPartialData, 0, 3, 0x1f), 0, &bytes);
    let line = "00 put 3 00000008 1100000000000088\n";
    sends::<16>(&rt, line, 8, (OpA::PutFullData, 0, 3, 0xff00), 8, &bytes);
    let line = "00 part 3 00000008 8001 1100000000000088\n";
    sends::<16>(&rt, line, 8, (OpA::PutPartialData, 0, 3, 0x8001), 8, &bytes);
    Ok(())
}

#[test]
fn bytes_past_the_last_lane_are_dropped(rt: HostRuntime) {
    let line = "00 part 1 00000007 80 2211\n";
    sends::<8>(&rt, line, 7, (OpA::PutPartialData, 0, 1, 0x80), 7, &[0x11]);
    let line = "00 put 1 00000007 2211\n";
    sends::<8>(&rt, line, 7, (OpA::PutFullData, 0, 1, 0x80), 7, &[0x11]);
    let line = "00 put 2 0000001d 44332211\n";
    let access = (OpA::PutFullData, 0, 2, 0xe000);
    sends::<16>(&rt, line, 0x1d, access, 13, &[0x11, 0x22, 0x33]);
}
