//! Writes beats into the message that they carry.

ghost use Rattle.std.specs.Prelude.{ℕ, Bool, IsTrue, ◌≡◌, ◌<◌, ◌≤◌, ◌+◌, ◌*◌, ◌^◌, is_some, if◌then◌else◌, length};
ghost use Rattle.tl_beat.specs.statement.Width.{IsWidth};
ghost use Rattle.tl_beat.specs.declared.beat.Beat.TheVariants as beat;
ghost use Rattle.tl_burst.specs.declared.message.Message.TheVariants as message;
ghost use Rattle.tl_burst.specs.statement.Burst.{lanes_at, mask_at, bit, IsZeroFrom, IsBlankAfter, a_beat_of};
ghost use Rattle.tl_burst.specs.statement.Burst.{b_beat_of, c_beat_of, d_beat_of, beat_of, beats_of};
ghost use Rattle.tl_burst.specs.statement.Messages.{same_control};
ghost use Rattle.tl_burst.specs.statement.Part.{IsTakeable};

use crate::message::{Message, MessageA, MessageB, MessageC, MessageD, MessageE};
use std::simd::Simd;
use tl_beat::beat::{Beat, BeatA, BeatB, BeatC, BeatD};

/// Copies the lanes of a beat.
fn copy_lanes<const W: usize>(lanes: &[u8; W], place: &mut [u8])
    requires { length place.old ≡ W }
    ensures { place.new ≡ lanes.now }
{
    Simd::from_array(*lanes).copy_to_slice(place);
}

/// Writes the lanes of beat `i` into a payload.
fn write_lanes<const W: usize>(payload: &mut [u8; 64], i: u8, lanes: &Option<[u8; W]>)
    requires { W * i + W ≤ 64 }
    ensures here { lanes_at (is_some lanes.now) W payload.new i ≡ lanes.now }
    ensures earlier { (carries : Bool) (k : ℕ) → k < i →
        lanes_at carries W payload.new k ≡ lanes_at carries W payload.old k }
    ensures zero { IsZeroFrom (if is_some lanes.now then W * i else 0) payload.old →
        IsZeroFrom (if is_some lanes.now then W * (i + 1) else 0) payload.new }
{
    if let Some(lanes) = lanes {
        let from = W * i as usize;
        copy_lanes(lanes, &mut payload[from..from + W]);
    }
}

/// The mask with the bits of beat `i` too.
fn with_mask<const W: usize>(mask: u64, i: u8, bits: u16) -> u64
    requires width { IsWidth W }
    requires inside { W * i + W ≤ 64 }
    requires blank { mask < 2 ^ (W * i) }
    requires narrow { bits < 2 ^ W }
    ensures here { mask_at W result i ≡ bits }
    ensures earlier { (k : ℕ) → k < i → mask_at W result k ≡ mask_at W mask k }
    ensures blank { result < 2 ^ (W * (i + 1)) }
{
    mask + (u64::from(bits) << (W * i as usize))
}

/// The corrupt bits with that of beat `i` too.
fn with_corrupt(bits: u16, i: u8, set: bool) -> u16
    requires inside { i < 16 }
    requires blank { bits < 2 ^ i }
    ensures here { bit result i ≡ set }
    ensures earlier { (k : ℕ) → k < i → bit result k ≡ bit bits k }
    ensures blank { result < 2 ^ (i + 1) }
{
    bits + (u16::from(set) << i)
}

fn write_a<const W: usize>(m: &mut MessageA<W>, i: u8, x: &BeatA<W>)
    requires width { IsWidth W }
    requires inside { W * i + W ≤ 64 }
    requires same { IsTrue (same_control (beat.A x.now) (beat.A (a_beat_of m.old 0))) }
    requires narrow { x.now.mask < 2 ^ W }
    requires blank { IsBlankAfter i (message.A m.old) }
    ensures here { a_beat_of m.new i ≡ x.now }
    ensures earlier { (k : ℕ) → k < i → a_beat_of m.new k ≡ a_beat_of m.old k }
    ensures blank { IsBlankAfter (i + 1) (message.A m.new) }
    ensures count { beats_of (message.A m.new) ≡ beats_of (message.A m.old) }
{
    write_lanes(&mut m.payload, i, &x.lanes);
    m.mask = with_mask::<W>(m.mask, i, x.mask);
    m.corrupt = with_corrupt(m.corrupt, i, x.corrupt);
}

fn write_b<const W: usize>(m: &mut MessageB<W>, i: u8, x: &BeatB<W>)
    requires width { IsWidth W }
    requires inside { W * i + W ≤ 64 }
    requires same { IsTrue (same_control (beat.B x.now) (beat.B (b_beat_of m.old 0))) }
    requires narrow { x.now.mask < 2 ^ W }
    requires blank { IsBlankAfter i (message.B m.old) }
    ensures here { b_beat_of m.new i ≡ x.now }
    ensures earlier { (k : ℕ) → k < i → b_beat_of m.new k ≡ b_beat_of m.old k }
    ensures blank { IsBlankAfter (i + 1) (message.B m.new) }
    ensures count { beats_of (message.B m.new) ≡ beats_of (message.B m.old) }
{
    write_lanes(&mut m.payload, i, &x.lanes);
    m.mask = with_mask::<W>(m.mask, i, x.mask);
    m.corrupt = with_corrupt(m.corrupt, i, x.corrupt);
}

fn write_c<const W: usize>(m: &mut MessageC<W>, i: u8, x: &BeatC<W>)
    requires width { IsWidth W }
    requires inside { W * i + W ≤ 64 }
    requires same { IsTrue (same_control (beat.C x.now) (beat.C (c_beat_of m.old 0))) }
    requires blank { IsBlankAfter i (message.C m.old) }
    ensures here { c_beat_of m.new i ≡ x.now }
    ensures earlier { (k : ℕ) → k < i → c_beat_of m.new k ≡ c_beat_of m.old k }
    ensures blank { IsBlankAfter (i + 1) (message.C m.new) }
    ensures count { beats_of (message.C m.new) ≡ beats_of (message.C m.old) }
{
    write_lanes(&mut m.payload, i, &x.lanes);
    m.corrupt = with_corrupt(m.corrupt, i, x.corrupt);
}

fn write_d<const W: usize>(m: &mut MessageD<W>, i: u8, x: &BeatD<W>)
    requires width { IsWidth W }
    requires inside { W * i + W ≤ 64 }
    requires same { IsTrue (same_control (beat.D x.now) (beat.D (d_beat_of m.old 0))) }
    requires blank { IsBlankAfter i (message.D m.old) }
    ensures here { d_beat_of m.new i ≡ x.now }
    ensures earlier { (k : ℕ) → k < i → d_beat_of m.new k ≡ d_beat_of m.old k }
    ensures blank { IsBlankAfter (i + 1) (message.D m.new) }
    ensures count { beats_of (message.D m.new) ≡ beats_of (message.D m.old) }
{
    write_lanes(&mut m.payload, i, &x.lanes);
    m.corrupt = with_corrupt(m.corrupt, i, x.corrupt);
}

/// Writes a beat into its message, as beat `i`.
pub fn write_beat<const W: usize>(message: &mut Message<W>, i: u8, beat: &Beat<W>)
    requires width { IsWidth W }
    requires inside { W * i + W ≤ 64 }
    requires takeable { IsTakeable beat.now }
    requires same { IsTrue (same_control beat.now (beat_of message.old 0)) }
    requires blank { IsBlankAfter i message.old }
    ensures here { beat_of message.new i ≡ beat.now }
    ensures earlier { (k : ℕ) → k < i → beat_of message.new k ≡ beat_of message.old k }
    ensures blank { IsBlankAfter (i + 1) message.new }
    ensures count { beats_of message.new ≡ beats_of message.old }
{
    match (message, beat) {
        (Message::A(m), Beat::A(x)) => write_a(m, i, x),
        (Message::B(m), Beat::B(x)) => write_b(m, i, x),
        (Message::C(m), Beat::C(x)) => write_c(m, i, x),
        (Message::D(m), Beat::D(x)) => write_d(m, i, x),
        _ => {}
    }
}

/// The message of a beat, with its control fields and without any beat's data.
pub fn blank_for<const W: usize>(beat: &Beat<W>) -> Message<W>
    requires { IsTakeable beat.now }
    ensures same { IsTrue (same_control beat.now (beat_of result 0)) }
    ensures blank { IsBlankAfter 0 result }
{
    match beat {
        Beat::A(x) => Message::A(MessageA {
            opcode: x.opcode,
            param: x.param,
            size: x.size,
            source: x.source,
            address: x.address,
            payload: [0; 64],
            mask: 0,
            corrupt: 0,
        }),
        Beat::B(x) => Message::B(MessageB {
            opcode: x.opcode,
            param: x.param,
            size: x.size,
            source: x.source,
            address: x.address,
            payload: [0; 64],
            mask: 0,
            corrupt: 0,
        }),
        Beat::C(x) => Message::C(MessageC {
            opcode: x.opcode,
            param: x.param,
            size: x.size,
            source: x.source,
            address: x.address,
            payload: [0; 64],
            corrupt: 0,
        }),
        Beat::D(x) => Message::D(MessageD {
            opcode: x.opcode,
            param: x.param,
            size: x.size,
            source: x.source,
            sink: x.sink,
            denied: x.denied,
            payload: [0; 64],
            corrupt: 0,
        }),
        Beat::E(x) => Message::E(MessageE { sink: x.sink }),
    }
}

/// Whether a beat has the control fields of a message.
pub fn continues<const W: usize>(message: &Message<W>, beat: &Beat<W>) -> bool
    ensures { result ≡ same_control beat.now (beat_of message.now 0) }
{
    match (message, beat) {
        (Message::A(m), Beat::A(x)) => {
            x.opcode == m.opcode
                && x.param == m.param
                && x.size == m.size
                && x.source == m.source
                && x.address == m.address
        }
        (Message::B(m), Beat::B(x)) => {
            x.opcode == m.opcode
                && x.param == m.param
                && x.size == m.size
                && x.source == m.source
                && x.address == m.address
        }
        (Message::C(m), Beat::C(x)) => {
            x.opcode == m.opcode
                && x.param == m.param
                && x.size == m.size
                && x.source == m.source
                && x.address == m.address
        }
        (Message::D(m), Beat::D(x)) => {
            x.opcode == m.opcode
                && x.param == m.param
                && x.size == m.size
                && x.source == m.source
                && x.sink == m.sink
                && x.denied == m.denied
        }
        (Message::E(m), Beat::E(x)) => x.sink == m.sink,
        _ => false,
    }
}
