//! The effect of accesses on a block, blank messages, and legality that no line shows.

ghost use Rattle.std.specs.Prelude.{◌≡◌, ◌≤◌};
ghost use Rattle.tl_beat.specs.statement.Width.{IsWidth};

use crate::expect::{holds, same, same_in};
use std::process::Abort;
use tl_beat::beat::{Beat, BeatA};
use tl_beat::channel::Channel;
use tl_beat::opcode::{OpA, OpD};
use tl_burst::message::{Message, MessageA, MessageD};
use tl_params::level::Level;
use tl_params::rule::Rule;
use tl_rules::answer::Answer;
use tl_rules::blank::is_blank;
use tl_rules::legality::beat::check_beat;
use tl_rules::legality::message::check;
use tl_rules::merge::merge_masked;
use tl_rules::perform::perform;

/// A request of at most 8 bytes, with the operand's bytes from a place of the payload on.
fn request<const W: usize>(
    opcode: OpA,
    param: u8,
    size: u8,
    address: u32,
    place: usize,
    operand: u64,
    mask: u64,
) -> Message<W>
    requires small { size ≤ 6 }
    requires place { place ≤ 56 }
{
    let mut payload = [0; 64];
    payload[place..place + 8].copy_from_slice(&operand.to_le_bytes());
    Message::A(MessageA {
        opcode,
        param,
        size,
        source: 0,
        address,
        payload,
        mask,
        corrupt: 0,
    })
}

fn performed<const W: usize>(rt: &impl Abort, block: &mut [u8; 64], message: &Message<W>) -> Answer
    requires { IsWidth W }
{
    assert_eq!(rt; check(Level::UH, Channel::A, message), Ok(()));
    perform(block, message)
}

fn number(bytes: &[u8; 64], place: usize) -> u64
    requires { place ≤ 56 }
{
    let mut eight = [0; 8];
    eight.copy_from_slice(&bytes[place..place + 8]);
    u64::from_le_bytes(eight)
}

#[test]
fn logical_operations_on_four_bytes(rt: HostRuntime) {
    for (param, stored) in [
        (0, 0x00ff_ff00),
        (1, 0x00ff_ffff),
        (2, 0x0000_00ff),
        (3, 0x00ff_00ff),
    ] {
        let mut block = [0; 64];
        block[20] = 0xff;
        block[21] = 0xff;
        let message = request::<8>(OpA::LogicalData, param, 2, 20, 4, 0x00ff_00ff, 0xf0);
        let answer = performed(&rt, &mut block, &message);
        same(&rt, &number(&block, 20), &stored);
        holds(
            &rt,
            matches!(answer, Answer::Data(old) if number(&old, 4) == 0xffff),
        );
    }
}

#[test]
fn arithmetic_on_four_and_eight_bytes(rt: HostRuntime) {
    let top = 1u64 << 63;
    let rows: [(u8, u8, u64, u64, u64); 8] = [
        (1, 3, top, 0, 0),
        (3, 3, top, 0, top),
        (0, 3, top, 0, top),
        (2, 3, top, 0, 0),
        (0, 2, 0xffff_ffff, 1, 0xffff_ffff),
        (2, 2, 0xffff_ffff, 1, 1),
        (4, 3, u64::MAX, 1, 0),
        (4, 2, 0x5_ffff_ffff, 1, 0x5_0000_0000),
    ];
    for (param, size, old, operand, stored) in rows {
        let mask = if size == 3 { 0xff } else { 0x0f };
        let mut block = [0; 64];
        block[16..24].copy_from_slice(&old.to_le_bytes());
        let message = request::<8>(OpA::ArithmeticData, param, size, 16, 0, operand, mask);
        let answer = performed(&rt, &mut block, &message);
        same_in(&rt, &number(&block, 16), &stored, &(param, size));
        let reached = if size == 3 { old } else { old % (1 << 32) };
        holds(
            &rt,
            matches!(answer, Answer::Data(data) if number(&data, 0) == reached),
        );
    }
}

/// The operand of a narrow atomic is on the lanes of its address, at each width.
#[test]
fn atomics_at_widths_4_and_16(rt: HostRuntime) {
    let mut block = [0xff; 64];
    let message = request::<4>(OpA::ArithmeticData, 4, 3, 8, 0, 1, 0xff);
    let answer = performed(&rt, &mut block, &message);
    same(&rt, &number(&block, 8), &0);
    same(&rt, &number(&block, 16), &u64::MAX);
    holds(
        &rt,
        matches!(answer, Answer::Data(data) if number(&data, 0) == u64::MAX),
    );
    let message = request::<16>(OpA::LogicalData, 3, 2, 0x18, 8, 7, 0x0f00);
    let answer = performed(&rt, &mut block, &message);
    same(&rt, &number(&block, 24), &0xffff_ffff_0000_0007);
    holds(
        &rt,
        matches!(answer, Answer::Data(data) if number(&data, 8) == 0xffff_ffff),
    );
}

#[test]
fn puts_write_the_bytes_of_their_mask(rt: HostRuntime) {
    let mut block = [0; 64];
    let message = request::<8>(OpA::PutPartialData, 0, 3, 0x38, 0, u64::MAX, 0x81);
    same(&rt, &performed(&rt, &mut block, &message), &Answer::Ack);
    let mut wanted = [0; 64];
    wanted[56] = 0xff;
    wanted[63] = 0xff;
    same(&rt, &block, &wanted);
    let message = request::<16>(OpA::PutFullData, 0, 1, 0x2a, 10, 0xabcd, 0x0c00);
    same(&rt, &performed(&rt, &mut block, &message), &Answer::Ack);
    wanted[42] = 0xcd;
    wanted[43] = 0xab;
    same(&rt, &block, &wanted);
}

#[test]
fn a_get_reads_and_an_intent_hints(rt: HostRuntime) {
    let mut block = [9; 64];
    block[12] = 5;
    let before = block;
    let answer = performed(
        &rt,
        &mut block,
        &request::<4>(OpA::Get, 0, 2, 12, 0, 0, 0xf),
    );
    holds(
        &rt,
        matches!(answer, Answer::Data(data) if number(&data, 0) == 0x0909_0905),
    );
    let answer = performed(
        &rt,
        &mut block,
        &request::<16>(OpA::Get, 0, 6, 64, 0, 0, 0xffff),
    );
    same(&rt, &answer, &Answer::Data(before));
    let answer = performed(
        &rt,
        &mut block,
        &request::<8>(OpA::Intent, 1, 6, 64, 0, 0, 0xff),
    );
    same(&rt, &answer, &Answer::Hint);
    same(&rt, &block, &before);
}

#[test]
fn merges_of_64_bytes(rt: HostRuntime) {
    let mut ends = [0; 64];
    ends[0] = 0xff;
    ends[63] = 0xff;
    for (mask, wanted) in [(0, [0; 64]), (u64::MAX, [0xff; 64]), (1 << 63 | 1, ends)] {
        let mut bytes = [0; 64];
        merge_masked(&mut bytes, &[0xff; 64], mask);
        same(&rt, &bytes, &wanted);
    }
}

/// Two beats of 8 bytes, judged one after the other.
#[test]
fn the_first_beat_that_breaks_a_rule(rt: HostRuntime) {
    let whole = request::<8>(OpA::PutFullData, 0, 4, 0, 0, 0, 0xffff);
    same(&rt, &check(Level::UH, Channel::A, &whole), &Ok(()));
    same(&rt, &check(Level::UL, Channel::A, &whole), &Err(Rule::L3));
    same(&rt, &check(Level::UH, Channel::C, &whole), &Err(Rule::L1));
    let gap = request::<8>(OpA::PutFullData, 0, 4, 0, 0, 0, 0xfeff);
    same(&rt, &check(Level::UH, Channel::A, &gap), &Err(Rule::L5));
    let part = request::<8>(OpA::PutPartialData, 0, 4, 0, 0, 0, 0xfeff);
    same(&rt, &check(Level::UH, Channel::A, &part), &Ok(()));
    let mut answer = MessageD {
        opcode: OpD::AccessAckData,
        param: 0,
        size: 4,
        source: 0,
        sink: 0,
        denied: true,
        payload: [0; 64],
        corrupt: 1,
    };
    same(
        &rt,
        &check::<8>(Level::UH, Channel::D, &Message::D(answer)),
        &Err(Rule::L6),
    );
    answer.corrupt = 3;
    same(
        &rt,
        &check::<8>(Level::UH, Channel::D, &Message::D(answer)),
        &Ok(()),
    );
}

/// Payload, mask and corrupt bits after the beats of a message.
#[test]
fn blank_messages(rt: HostRuntime) {
    holds(
        &rt,
        is_blank(&request::<8>(OpA::PutFullData, 0, 3, 0, 0, u64::MAX, 0xff)),
    );
    holds(
        &rt,
        !is_blank(&request::<4>(OpA::PutFullData, 0, 2, 0, 0, u64::MAX, 0xf)),
    );
    holds(
        &rt,
        !is_blank(&request::<8>(OpA::PutFullData, 0, 3, 0, 0, 0, 0x1ff)),
    );
    holds(&rt, !is_blank(&request::<8>(OpA::Get, 0, 3, 0, 0, 1, 0xff)));
    holds(&rt, is_blank(&request::<8>(OpA::Get, 0, 6, 0, 0, 0, 0xff)));
}

/// A Get of size 2 or 3 at this address, as a beat.
fn get<const W: usize>(size: u8, address: u32, corrupt: bool) -> Beat<W> {
    Beat::A(BeatA {
        opcode: OpA::Get,
        param: 0,
        size,
        source: 0,
        address,
        mask: 0xff,
        lanes: None,
        corrupt,
    })
}

/// A mask with more lanes than a beat has, and a beat on another channel.
#[test]
fn beats_that_no_line_spells(rt: HostRuntime) {
    same(
        &rt,
        &check_beat::<4>(Level::UL, Channel::A, &get(2, 4, false)),
        &Err(Rule::L5),
    );
    same(
        &rt,
        &check_beat::<8>(Level::UL, Channel::B, &get(3, 8, true)),
        &Err(Rule::L1),
    );
}
