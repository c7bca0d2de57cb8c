//! Beats that are taken one after the other, and messages that are assembled from their beats.

ghost use Rattle.std.specs.Prelude.{◌≤◌};
ghost use Rattle.tl_beat.specs.statement.Width.{IsWidth};
ghost use Rattle.tl_burst.specs.statement.Part.{IsTakeable};

use crate::expect::{holds_in, same, same_in};
use std::process::Abort;
use tl_beat::beat::{Beat, BeatA, BeatE};
use tl_beat::opcode::{OpA, OpB, OpC, OpD};
use tl_burst::assembler::Assembler;
use tl_burst::burst::{beat_at, beats_of};
use tl_burst::message::{Message, MessageA, MessageB, MessageC, MessageD};
use tl_burst::part::{Broken, Part};

/// A PutFullData of this size, or a Get.
fn request<const W: usize>(put: bool, size: u8, source: u8) -> Beat<W>
    requires width { IsWidth W }
    requires small { size ≤ 6 }
    ensures { IsTakeable result }
{
    Beat::A(BeatA {
        opcode: if put { OpA::PutFullData } else { OpA::Get },
        param: 0,
        size,
        source,
        address: 0,
        mask: 15,
        lanes: if put { Some([0; W]) } else { None },
        corrupt: false,
    })
}

/// The beats of a PutFullData of this size, one after the other, have these places in their burst.
fn is_parted<const W: usize>(rt: &impl Abort, size: u8, parts: &[Part])
    requires width { IsWidth W }
    requires small { size ≤ 6 }
{
    let mut assembler = Assembler::<W>::new();
    let beat = request(true, size, 0);
    for part in parts {
        same_in(rt, &assembler.peek(&beat), &Ok(*part), &size);
        let taken = assembler.take(&beat);
        if matches!(part, Part::Last | Part::Only) {
            holds_in(rt, matches!(taken, Ok(Some(_))), &size);
        } else {
            same_in(rt, &taken, &Ok(None), &size);
        }
    }
    same_in(
        rt,
        &assembler.peek(&beat).ok(),
        &parts.first().copied(),
        &size,
    );
}

#[test]
fn beats_of_a_put_at_each_width(rt: HostRuntime) {
    let four = [Part::First, Part::Middle, Part::Middle, Part::Last];
    is_parted::<8>(&rt, 5, &four);
    is_parted::<4>(&rt, 3, &[Part::First, Part::Last]);
    is_parted::<16>(&rt, 6, &four);
    is_parted::<4>(&rt, 2, &[Part::Only]);
    is_parted::<8>(&rt, 3, &[Part::Only]);
    is_parted::<16>(&rt, 4, &[Part::Only]);
}

fn is_only<const W: usize>(rt: &impl Abort, beat: &Beat<W>)
    requires width { IsWidth W }
    requires takeable { IsTakeable beat.now }
{
    let assembler = Assembler::<W>::new();
    same(rt, &assembler.peek(beat), &Ok(Part::Only));
}

#[test]
fn messages_of_one_beat(rt: HostRuntime) {
    is_only(&rt, &request::<4>(false, 6, 0));
    is_only(&rt, &request::<8>(false, 6, 0));
    is_only(&rt, &request::<16>(false, 6, 0));
    is_only(&rt, &Beat::<8>::E(BeatE { sink: 3 }));
}

/// This many beats of a burst, one of another source, which is refused, and one more.
fn goes_on_after_a_refusal<const W: usize>(rt: &impl Abort, beats: u8)
    requires { IsWidth W }
{
    let mut assembler = Assembler::<W>::new();
    let beat = request(true, 6, 0);
    let other = request(true, 6, 1);
    for i in 0..beats {
        let part = if i == 0 { Part::First } else { Part::Middle };
        same(rt, &assembler.peek(&beat), &Ok(part));
        same(rt, &assembler.take(&beat), &Ok(None));
    }
    same(rt, &assembler.peek(&other), &Err(Broken::S1));
    same(rt, &assembler.take(&other), &Err(Broken::S1));
    same(rt, &assembler.peek(&beat), &Ok(Part::Middle));
    same(rt, &assembler.take(&beat), &Ok(None));
}

#[test]
fn a_beat_of_another_source_is_refused(rt: HostRuntime) {
    goes_on_after_a_refusal::<4>(&rt, 2);
    goes_on_after_a_refusal::<8>(&rt, 4);
    goes_on_after_a_refusal::<16>(&rt, 2);
}

/// Distinct bytes, all mask bits and every other corrupt bit of the beats with data of this size.
fn data_of<const W: usize>(size: u8) -> ([u8; 64], u64, u16)
    requires width { IsWidth W }
    requires small { size ≤ 6 }
{
    let bytes = 1usize << size;
    let mut payload = [0; 64];
    let mut mask = 0u64;
    let mut corrupt = 0u16;
    for i in 0..64usize {
        if i < bytes || i < W {
            payload[i] = i as u8 + 1;
            mask |= 1 << i;
        }
    }
    for i in 0..16usize {
        if i % 2 == 0 && (i == 0 || i < bytes / W) {
            corrupt |= 1 << i;
        }
    }
    (payload, mask, corrupt)
}

/// All beats of a message, taken one after the other, give the message with the last one.
fn comes_again<const W: usize>(rt: &impl Abort, message: &Message<W>)
    requires { IsWidth W }
{
    let mut assembler = Assembler::<W>::new();
    let count = beats_of(message);
    for i in 0..count {
        let answer = assembler.take(&beat_at(message, i));
        if i + 1 == count {
            same(rt, &answer, &Ok(Some(*message)));
        } else {
            same(rt, &answer, &Ok(None));
        }
    }
}

fn all_with_data<const W: usize>(rt: &impl Abort)
    requires { IsWidth W }
{
    for size in 0..7u8 {
        let (payload, mask, corrupt) = data_of::<W>(size);
        for opcode in [
            OpA::PutFullData,
            OpA::PutPartialData,
            OpA::ArithmeticData,
            OpA::LogicalData,
        ] {
            comes_again(
                rt,
                &Message::A(MessageA::<W> {
                    opcode,
                    param: 1,
                    size,
                    source: 2,
                    address: 64,
                    payload,
                    mask,
                    corrupt,
                }),
            );
        }
        for opcode in [
            OpB::PutFullData,
            OpB::PutPartialData,
            OpB::ArithmeticData,
            OpB::LogicalData,
        ] {
            comes_again(
                rt,
                &Message::B(MessageB::<W> {
                    opcode,
                    param: 1,
                    size,
                    source: 2,
                    address: 64,
                    payload,
                    mask,
                    corrupt,
                }),
            );
        }
        for opcode in [OpC::AccessAckData, OpC::ProbeAckData, OpC::ReleaseData] {
            comes_again(
                rt,
                &Message::C(MessageC::<W> {
                    opcode,
                    param: 1,
                    size,
                    source: 2,
                    address: 64,
                    payload,
                    corrupt,
                }),
            );
        }
        for opcode in [OpD::AccessAckData, OpD::GrantData] {
            comes_again(
                rt,
                &Message::D(MessageD::<W> {
                    opcode,
                    param: 1,
                    size,
                    source: 2,
                    sink: 3,
                    denied: true,
                    payload,
                    corrupt,
                }),
            );
        }
    }
}

#[test]
fn messages_with_data_come_again(rt: HostRuntime) {
    all_with_data::<4>(&rt);
    all_with_data::<8>(&rt);
    all_with_data::<16>(&rt);
}
