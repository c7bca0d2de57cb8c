//! Messages whose unused parts are zero.

ghost use Rattle.std.specs.Prelude.{◌≡◌, ◌<◌, ◌≤◌, ◌*◌, ◌^◌, ◌↔◌, IsTrue, if◌then◌else◌, replicate, take, drop, ◌++◌};
ghost use Rattle.tl_beat.specs.statement.Width.{IsWidth};
ghost use Rattle.tl_burst.specs.statement.Burst;
ghost use Rattle.tl_burst.specs.statement.Burst.{IsBlankAfter, IsZeroFrom};

use std::simd::u8x64;
use tl_burst::burst::beats_of;
use tl_burst::message::Message;

/// Whether the parts of a message that no beat carries are zero: the payload's bytes after its data, and the bits of
/// mask and corrupt after its beats.
pub fn is_blank<const W: usize>(message: &Message<W>) -> bool
    requires { IsWidth W }
    ensures { IsTrue result ↔ IsBlankAfter (Burst.beats_of message.now) message.now }
{
    let beats = beats_within(message);
    match message {
        Message::A(m) => {
            is_zero_from(&m.payload, data_of::<W>(m.opcode.carries_data(), beats))
                && has_bits(m.mask, W * beats as usize)
                && has_beats(m.corrupt, beats)
        }
        Message::B(m) => {
            is_zero_from(&m.payload, data_of::<W>(m.opcode.carries_data(), beats))
                && has_bits(m.mask, W * beats as usize)
                && has_beats(m.corrupt, beats)
        }
        Message::C(m) => {
            is_zero_from(&m.payload, data_of::<W>(m.opcode.carries_data(), beats))
                && has_beats(m.corrupt, beats)
        }
        Message::D(m) => {
            is_zero_from(&m.payload, data_of::<W>(m.opcode.carries_data(), beats))
                && has_beats(m.corrupt, beats)
        }
        Message::E(_) => true,
    }
}

/// The number of beats. They fill at most the payload.
fn beats_within<const W: usize>(message: &Message<W>) -> u8
    requires { IsWidth W }
    ensures value { result ≡ Burst.beats_of message.now }
    ensures room { W * result ≤ 64 }
    ensures few { result ≤ 16 }
{
    beats_of(message)
}

/// The number of bytes of data that these beats carry.
fn data_of<const W: usize>(carries_data: bool, beats: u8) -> usize
    requires { W * beats ≤ 64 }
    ensures value { result ≡ (if carries_data then W * beats else 0) }
    ensures room { result ≤ 64 }
{
    if carries_data { W * beats as usize } else { 0 }
}

/// Whether each byte from this one on is zero.
fn is_zero_from(payload: &[u8; 64], from: usize) -> bool
    requires { from ≤ 64 }
    ensures { IsTrue result ↔ IsZeroFrom from payload.now }
{
    is_zero(&past(payload, from))
}

/// The bytes from this one on, with zeros before them.
fn past(payload: &[u8; 64], from: usize) -> [u8; 64]
    requires { from ≤ 64 }
    ensures { result ≡ take from (replicate 64 0) ++ drop from payload.now }
{
    let mut bytes = [0; 64];
    bytes[from..].copy_from_slice(&payload[from..]);
    bytes
}

fn is_zero(bytes: &[u8; 64]) -> bool
    ensures { IsTrue result ↔ bytes.now ≡ replicate 64 0 }
{
    u8x64::from_array(*bytes).reduce_or() == 0
}

/// Whether the mask has no bit from this one on.
fn has_bits(mask: u64, bits: usize) -> bool
    requires { bits ≤ 64 }
    ensures { IsTrue result ↔ (mask < 2 ^ bits) }
{
    bits == 64 || mask >> bits == 0
}

/// Whether no beat from this one on is corrupt.
fn has_beats(corrupt: u16, beats: u8) -> bool
    requires { beats ≤ 16 }
    ensures { IsTrue result ↔ (corrupt < 2 ^ beats) }
{
    u32::from(corrupt) >> beats == 0
}
