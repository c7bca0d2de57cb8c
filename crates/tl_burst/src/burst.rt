//! The beats of a message (SiFive TileLink Specification 1.8, "Bursts and ordering of beats").

ghost use Rattle.std.specs.Prelude.{IsTrue, ◌≡◌, ◌<◌, ◌≤◌, ◌+◌, ◌*◌, ◌==◌, is_some, slice_range, if◌then◌else◌};
ghost use Rattle.tl_beat.specs.statement.Width.{IsWidth};
ghost use Rattle.tl_burst.specs.statement.Burst;
ghost use Rattle.tl_beat.specs.declared.beat.Beat.TheVariants as beat;
ghost use Rattle.tl_burst.specs.statement.Messages;
ghost use Rattle.tl_burst.specs.statement.Messages.{same_control};
ghost use Rattle.tl_burst.specs.statement.Part.{IsTakeable, is_small};
ghost use Rattle.tl_burst.specs.statement.Burst.{data_beats, lanes_at, mask_at, bit, beat_of};
ghost use Rattle.tl_burst.specs.statement.Burst.{a_beat_of, b_beat_of, c_beat_of, d_beat_of};

use crate::message::{Message, MessageA, MessageB, MessageC, MessageD};
use tl_beat::beat::{Beat, BeatA, BeatB, BeatC, BeatD, BeatE};

/// The number of beats of `W` bytes in a burst of this size.
#[inline(always)]
fn beats_for<const W: usize>(carries_data: bool, size: u8) -> u8
    requires width { IsWidth W }
    requires small { size ≤ 6 }
    ensures { result ≡ (if carries_data then data_beats W size else 1) }
{
    let bytes = 1usize << size;
    if carries_data && bytes > W {
        (bytes / W) as u8
    } else {
        1
    }
}

/// The number of beats of a message: `2^size / W` if it carries data of more than `W` bytes, otherwise one.
pub fn beats_of<const W: usize>(message: &Message<W>) -> u8
    requires { IsWidth W }
    ensures { result ≡ Burst.beats_of message.now }
{
    match message {
        Message::A(m) => beats_for::<W>(m.opcode.carries_data(), m.size),
        Message::B(m) => beats_for::<W>(m.opcode.carries_data(), m.size),
        Message::C(m) => beats_for::<W>(m.opcode.carries_data(), m.size),
        Message::D(m) => beats_for::<W>(m.opcode.carries_data(), m.size),
        Message::E(_) => 1,
    }
}

/// The number of beats in the burst of this beat.
#[inline(always)]
pub fn burst_length<const W: usize>(beat: &Beat<W>) -> u8
    requires width { IsWidth W }
    requires small { IsTrue (is_small beat.now) }
    ensures { result ≡ Messages.burst_length beat.now }
{
    match beat {
        Beat::A(x) => beats_for::<W>(x.lanes.is_some(), x.size),
        Beat::B(x) => beats_for::<W>(x.lanes.is_some(), x.size),
        Beat::C(x) => beats_for::<W>(x.lanes.is_some(), x.size),
        Beat::D(x) => beats_for::<W>(x.lanes.is_some(), x.size),
        Beat::E(_) => 1,
    }
}

/// Copies the bytes of beat `i` of a payload into lanes.
fn copy_lanes<const W: usize>(lanes: &mut [u8; W], payload: &[u8; 64], i: u8)
    requires { W * i + W ≤ 64 }
    ensures { lanes.new ≡ slice_range payload.now (W * i) (W * i + W) }
{
    let from = W * i as usize;
    lanes.copy_from_slice(&payload[from..from + W]);
}

/// The lanes of beat `i`, if its message carries data.
fn lanes_of<const W: usize>(carries_data: bool, payload: &[u8; 64], i: u8) -> Option<[u8; W]>
    requires { W * i + W ≤ 64 }
    ensures { result ≡ lanes_at carries_data W payload.now i }
{
    if !carries_data {
        return None;
    }
    let mut lanes = [0; W];
    copy_lanes(&mut lanes, payload, i);
    Some(lanes)
}

/// Replaces the lanes of a beat, if it has any, by those of beat `i`.
fn change_lanes<const W: usize>(lanes: &mut Option<[u8; W]>, payload: &[u8; 64], i: u8)
    requires { W * i + W ≤ 64 }
    ensures here { lanes_at (is_some lanes.new) W payload.now i ≡ lanes.new }
    ensures some { is_some lanes.new ≡ is_some lanes.old }
{
    if let Some(lanes) = lanes {
        copy_lanes(lanes, payload, i);
    }
}

/// The part of a message's mask for beat `i`.
pub fn mask_of<const W: usize>(mask: u64, i: u8) -> u16
    requires width { IsWidth W }
    requires inside { W * i + W ≤ 64 }
    ensures { result ≡ mask_at W mask i }
{
    let lanes = (mask >> (W * i as usize)) % (1 << W);
    lanes as u16
}

/// Bit `i` of a message's corrupt bits.
pub fn bit_of(bits: u16, i: u8) -> bool
    requires { i < 16 }
    ensures { result ≡ bit bits i }
{
    (bits >> i) % 2 == 1
}

fn beat_of_a<const W: usize>(m: &MessageA<W>, i: u8) -> BeatA<W>
    requires width { IsWidth W }
    requires inside { W * i + W ≤ 64 }
    ensures { result ≡ a_beat_of m.now i }
{
    BeatA {
        opcode: m.opcode,
        param: m.param,
        size: m.size,
        source: m.source,
        address: m.address,
        mask: mask_of::<W>(m.mask, i),
        lanes: lanes_of(m.opcode.carries_data(), &m.payload, i),
        corrupt: bit_of(m.corrupt, i),
    }
}

fn beat_of_b<const W: usize>(m: &MessageB<W>, i: u8) -> BeatB<W>
    requires width { IsWidth W }
    requires inside { W * i + W ≤ 64 }
    ensures { result ≡ b_beat_of m.now i }
{
    BeatB {
        opcode: m.opcode,
        param: m.param,
        size: m.size,
        source: m.source,
        address: m.address,
        mask: mask_of::<W>(m.mask, i),
        lanes: lanes_of(m.opcode.carries_data(), &m.payload, i),
        corrupt: bit_of(m.corrupt, i),
    }
}

fn beat_of_c<const W: usize>(m: &MessageC<W>, i: u8) -> BeatC<W>
    requires width { IsWidth W }
    requires inside { W * i + W ≤ 64 }
    ensures { result ≡ c_beat_of m.now i }
{
    BeatC {
        opcode: m.opcode,
        param: m.param,
        size: m.size,
        source: m.source,
        address: m.address,
        lanes: lanes_of(m.opcode.carries_data(), &m.payload, i),
        corrupt: bit_of(m.corrupt, i),
    }
}

fn beat_of_d<const W: usize>(m: &MessageD<W>, i: u8) -> BeatD<W>
    requires width { IsWidth W }
    requires inside { W * i + W ≤ 64 }
    ensures { result ≡ d_beat_of m.now i }
{
    BeatD {
        opcode: m.opcode,
        param: m.param,
        size: m.size,
        source: m.source,
        sink: m.sink,
        denied: m.denied,
        lanes: lanes_of(m.opcode.carries_data(), &m.payload, i),
        corrupt: bit_of(m.corrupt, i),
    }
}

/// Beat `i` of the message: its control fields, its part of payload and mask, and its corrupt bit.
#[inline(always)]
pub fn beat_at<const W: usize>(message: &Message<W>, i: u8) -> Beat<W>
    requires width { IsWidth W }
    requires inside { i < Burst.beats_of message.now }
    ensures beat { result ≡ beat_of message.now i }
    ensures takeable { IsTakeable result }
{
    match message {
        Message::A(m) => Beat::A(beat_of_a(m, i)),
        Message::B(m) => Beat::B(beat_of_b(m, i)),
        Message::C(m) => Beat::C(beat_of_c(m, i)),
        Message::D(m) => Beat::D(beat_of_d(m, i)),
        Message::E(m) => Beat::E(BeatE { sink: m.sink }),
    }
}

fn change_a<const W: usize>(x: &mut BeatA<W>, m: &MessageA<W>, i: u8)
    requires width { IsWidth W }
    requires inside { W * i + W ≤ 64 }
    requires same { IsTrue (same_control (beat.A x.old) (beat.A (a_beat_of m.now 0))) }
    ensures { x.new ≡ a_beat_of m.now i }
{
    change_lanes(&mut x.lanes, &m.payload, i);
    x.mask = mask_of::<W>(m.mask, i);
    x.corrupt = bit_of(m.corrupt, i);
}

fn change_b<const W: usize>(x: &mut BeatB<W>, m: &MessageB<W>, i: u8)
    requires width { IsWidth W }
    requires inside { W * i + W ≤ 64 }
    requires same { IsTrue (same_control (beat.B x.old) (beat.B (b_beat_of m.now 0))) }
    ensures { x.new ≡ b_beat_of m.now i }
{
    change_lanes(&mut x.lanes, &m.payload, i);
    x.mask = mask_of::<W>(m.mask, i);
    x.corrupt = bit_of(m.corrupt, i);
}

fn change_c<const W: usize>(x: &mut BeatC<W>, m: &MessageC<W>, i: u8)
    requires width { IsWidth W }
    requires inside { W * i + W ≤ 64 }
    requires same { IsTrue (same_control (beat.C x.old) (beat.C (c_beat_of m.now 0))) }
    ensures { x.new ≡ c_beat_of m.now i }
{
    change_lanes(&mut x.lanes, &m.payload, i);
    x.corrupt = bit_of(m.corrupt, i);
}

fn change_d<const W: usize>(x: &mut BeatD<W>, m: &MessageD<W>, i: u8)
    requires width { IsWidth W }
    requires inside { W * i + W ≤ 64 }
    requires same { IsTrue (same_control (beat.D x.old) (beat.D (d_beat_of m.now 0))) }
    ensures { x.new ≡ d_beat_of m.now i }
{
    change_lanes(&mut x.lanes, &m.payload, i);
    x.corrupt = bit_of(m.corrupt, i);
}

/// Makes another beat of the same message its beat `i`: only lanes, mask and corrupt bit change.
pub fn change<const W: usize>(beat: &mut Beat<W>, message: &Message<W>, i: u8)
    requires width { IsWidth W }
    requires inside { W * i + W ≤ 64 }
    requires same { IsTrue (same_control beat.old (beat_of message.now 0)) }
    ensures { beat.new ≡ beat_of message.now i }
{
    match (beat, message) {
        (Beat::A(x), Message::A(m)) => change_a(x, m, i),
        (Beat::B(x), Message::B(m)) => change_b(x, m, i),
        (Beat::C(x), Message::C(m)) => change_c(x, m, i),
        (Beat::D(x), Message::D(m)) => change_d(x, m, i),
        _ => {}
    }
}
