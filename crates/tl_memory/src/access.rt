//! Pending accesses, as they were asked for.

ghost use Rattle.std.specs.Prelude.{ℕ, true, ◌∷◌, ◌+◌, ◌*◌, ◌<◌, ◌≤◌, ◌≡◌, List};
ghost use Rattle.std.specs.Prelude.{length, slice_index, unwrap_or};
ghost use Rattle.tl_beat.specs.declared.beat.Beat.{Beat};
ghost use Rattle.tl_beat.specs.declared.beat.Beat.TheVariants as beat;
ghost use Rattle.tl_beat.specs.statement.Opcode.{a_carries_data};
ghost use Rattle.tl_beat.specs.statement.Width.{IsWidth};
ghost use Rattle.tl_burst.specs.statement.Burst as burst;
ghost use Rattle.tl_rules.specs.statement.History.{block_at};
ghost use Rattle.tl_memory.specs.code.Writers.{names};
ghost use Rattle.tl_memory.specs.statement.Known.{IsAsked, is_atomic};
ghost use Rattle.tl_bytes.specs.statement.Bytes as bytes;
ghost use Rattle.tl_bytes.specs.statement.Bytes.{asked_by};
ghost use Rattle.tl_bytes.specs.statement.KnownBytes.{known_at};

use crate::message::CarriedMessage;
use tl_beat::beat::{BeatA, Link};
use tl_beat::opcode::OpA;
use tl_burst::message::MessageA;
use tl_bytes::known_bytes::KnownBytes;

/// A pending access: its link, its request, whether a beat of the request was corrupt, and the number of beats taken
/// when it was first asked for. If the request of a Put isn't complete, it has the beats that have come.
#[derive(Clone, Copy)]
pub struct Asked<const W: usize> {
    pub link: Link,
    pub request: MessageA<W>,
    pub spoiled: bool,
    pub moment: u64,
}

/// Whether the opcode is of an access.
pub fn is_access(opcode: OpA) -> bool
    ensures { result ≡ bytes.is_access opcode }
{
    !matches!(opcode, OpA::AcquireBlock | OpA::AcquirePerm | OpA::Intent)
}

/// The byte at a place, or 0 if it isn't known.
fn byte_or_zero(bytes: &KnownBytes, place: usize) -> u8
    ensures { result ≡ unwrap_or (known_at bytes.now place) 0 }
{
    match bytes.at(place) {
        Some(byte) => byte,
        None => 0,
    }
}

/// The known bytes, and zeros for the others.
pub fn payload_of(bytes: &KnownBytes) -> [u8; 64]
    ensures { (place : ℕ) → place < 64 →
        slice_index result place ≡ unwrap_or (known_at bytes.now place) 0 }
{
    let mut payload = [0; 64];
    for place in 0..64usize {
        payload[place] = byte_or_zero(bytes, place);
    }
    payload
}

/// The payload of a request with these bytes: for an atomic the known bytes and zeros.
fn payload_asked(opcode: OpA, bytes: &KnownBytes) -> [u8; 64]
    ensures { is_atomic opcode ≡ true → (place : ℕ) → place < 64 →
        slice_index result place ≡ unwrap_or (known_at bytes.now place) 0 }
{
    match opcode {
        OpA::ArithmeticData | OpA::LogicalData => payload_of(bytes),
        _ => [0; 64],
    }
}

/// Whether a request of this address and size reaches the byte at a place of its block.
pub fn reaches(address: u32, size: u8, place: usize) -> bool
    ensures { place < 64 → result ≡ burst.reaches address size (64 * block_at address + place) }
{
    let first = (address % 64) as usize;
    if place < first {
        return false;
    }
    size > 6 || place - first < 1 << size
}

impl<const W: usize> Asked<W> {
    ghost use Rattle.tl_memory.specs.statement.Known.{AreWide, KnowsMessage};

    /// The access of a request with this newest beat, which was first asked for at this moment. `brought` are the bytes
    /// of its beats.
    pub fn new(link: Link, x: &BeatA<W>, brought: &CarriedMessage, moment: u64) -> Self
        requires width { IsWidth W }
        requires small { x.now.size ≤ 6 }
        ensures { (older : List (Beat W)) → KnowsMessage brought.now (beat.A x.now ∷ older) →
            (a_carries_data x.now.opcode ≡ true → AreWide (beat.A x.now ∷ older)) →
            W * length (beat.A x.now ∷ older) ≤ 64 →
            IsAsked result (asked_by link.0 x.now (beat.A x.now ∷ older) moment) }
    {
        Asked {
            link,
            request: MessageA {
                opcode: x.opcode,
                param: x.param,
                size: x.size,
                source: x.source,
                address: x.address,
                payload: payload_asked(x.opcode, brought.bytes.bytes()),
                mask: brought.mask,
                corrupt: 0,
            },
            spoiled: brought.spoiled,
            moment,
        }
    }

    /// Whether this is the access with this source on a link.
    pub fn is_of(&self, link: Link, source: u8) -> bool
        ensures { result ≡ names link.0 source self.now }
    {
        self.link == link && self.request.source == source
    }
}
