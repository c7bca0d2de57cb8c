//! The writes of accesses to their blocks.

ghost use Rattle.std.specs.Prelude.{ℕ, true, false, ◌∷◌, ◌+◌, ◌*◌, ◌%◌, ◌^◌, ◌<◌, ◌≤◌, ◌≡◌, ◌==◌, List, None, Some};
ghost use Rattle.std.specs.Prelude.{find, if◌then◌else◌, is_some, length};
ghost use Rattle.tl_beat.specs.declared.beat.Beat.{Beat};
ghost use Rattle.tl_beat.specs.declared.beat.Beat.TheVariants as beat;
ghost use Rattle.tl_beat.specs.statement.Opcode.{a_carries_data};
ghost use Rattle.tl_beat.specs.statement.Width.{IsWidth};
ghost use Rattle.tl_rules.specs.statement.History.{block_at};
ghost use Rattle.tl_rules.specs.statement.Admission.{is_spoiled};
ghost use Rattle.tl_bytes.specs.statement.Bytes.{Access, access_writes, asked_by, carried_byte, is_put, value_written};
ghost use Rattle.tl_bytes.specs.statement.Known.{IsWrite};
ghost use Rattle.tl_bytes.specs.statement.KnownBytes.{known_at};
ghost use Rattle.tl_memory.specs.statement.Known.{AreWide, IsAsked, IsLawful, IsPendingWrite, KnowsMessage};
ghost use Rattle.tl_memory.specs.statement.Known.{is_atomic};

use crate::access::Asked;
use crate::message::{CarriedMessage, either};
use crate::performed::{is_put, performed};
use tl_beat::beat::{BeatA, Link};
use tl_beat::opcode::OpA;
use tl_bytes::known_bytes::KnownBytes;
use tl_bytes::write::Write;
use tl_rules::place::base;

/// The bytes that an atomic with this answer leaves in its block. None is known if a beat of the access or the answer
/// is corrupt.
fn values_written<const W: usize>(asked: &Asked<W>, answer: &CarriedMessage) -> KnownBytes
    requires { IsWidth W }
    ensures { (access : Access W) (burst : List (Beat W)) → IsAsked asked.now access →
        is_put access.request.opcode ≡ false → KnowsMessage answer.now burst → IsLawful access →
        (place : ℕ) → place < 64 →
        access_writes (64 * block_at access.request.address + place) access ≡ true →
        known_at result place
        ≡ value_written access burst (64 * block_at access.request.address + place) }
{
    if either(asked.spoiled, answer.spoiled) {
        return KnownBytes::none();
    }
    KnownBytes::all(&performed(asked, answer.bytes.bytes()))
}

/// The mask of the bytes that an access other than a Put reaches: for an atomic all its bytes, for a Get none.
fn mask_reached(opcode: OpA, size: u8, address: u32) -> u64
    ensures { result ≡ (if is_atomic opcode then (if size == 2 then 15 else 255) * 2 ^ (address % 64) % 2 ^ 64 else 0) }
{
    let lanes: u64 = if size == 2 { 0x0f } else { 0xff };
    match opcode {
        OpA::ArithmeticData | OpA::LogicalData => lanes << (address % 64),
        _ => 0,
    }
}

/// The values of a Put with these bytes. None is known if a beat of it was corrupt.
fn values_brought(brought: &CarriedMessage) -> KnownBytes
    ensures { (w : ℕ) (burst : List (Beat w)) → KnowsMessage brought.now burst → (place : ℕ) → place < 64 →
        known_at result place
        ≡ (if is_some (find is_spoiled burst) then None else carried_byte burst place) }
{
    if brought.spoiled {
        return KnownBytes::none();
    }
    *brought.bytes.bytes()
}

/// The write of a pending access whose request has these bytes: for a Put the bytes of its mask, for an atomic any
/// values.
fn pending_write<const W: usize>(asked: &Asked<W>, brought: &CarriedMessage) -> Write
    requires { IsWidth W }
    ensures { (link : ℕ) (x : BeatA W) (older : List (Beat W)) (moment : ℕ) →
        IsAsked asked.now (asked_by link x (beat.A x ∷ older) moment) →
        IsLawful (asked_by link x (beat.A x ∷ older) moment) → KnowsMessage brought.now (beat.A x ∷ older) →
        (a_carries_data x.opcode ≡ true → AreWide (beat.A x ∷ older)) →
        IsPendingWrite result (block_at x.address) (asked_by link x (beat.A x ∷ older) moment) }
{
    let request = &asked.request;
    if is_put(request.opcode) {
        return Write {
            first: base::<W>(request.address),
            mask: request.mask,
            values: values_brought(brought),
        };
    }
    Write {
        first: 0,
        mask: mask_reached(request.opcode, request.size, request.address),
        values: KnownBytes::none(),
    }
}

/// A pending access, and its write to its block.
#[derive(Clone, Copy)]
pub struct Writer<const W: usize> {
    pub asked: Asked<W>,
    pub write: Write,
}

impl<const W: usize> Writer<W> {
    ghost use Rattle.tl_memory.specs.code.Writers.{IsWriter};

    /// The writer of a request with this newest beat, which was first asked for at this moment. `brought` are the bytes
    /// of its beats.
    pub fn new(link: Link, y: &BeatA<W>, brought: &CarriedMessage, moment: u64) -> Self
        requires width { IsWidth W }
        requires small { y.now.size ≤ 6 }
        ensures { (older : List (Beat W)) → KnowsMessage brought.now (beat.A y.now ∷ older) →
            (a_carries_data y.now.opcode ≡ true → AreWide (beat.A y.now ∷ older)) →
            W * length (beat.A y.now ∷ older) ≤ 64 →
            IsLawful (asked_by link.0 y.now (beat.A y.now ∷ older) moment) →
            IsWriter result (asked_by link.0 y.now (beat.A y.now ∷ older) moment) }
    {
        let asked = Asked::new(link, y, brought, moment);
        Writer {
            asked,
            write: pending_write(&asked, brought),
        }
    }
}

/// The write of an access with this answer: for a Put its own bytes, for an atomic those that follow from the answer.
/// They may be any if a beat of the access or the answer is corrupt, or an atomic is denied.
pub fn written<const W: usize>(writer: &Writer<W>, answer: &CarriedMessage) -> Write
    requires { IsWidth W }
    ensures { (access : Access W) (burst : List (Beat W)) → IsAsked writer.now.asked access →
        IsPendingWrite writer.now.write (block_at access.request.address) access →
        KnowsMessage answer.now burst → IsLawful access →
        IsWrite result (block_at access.request.address) access burst }
{
    let request = &writer.asked.request;
    if is_put(request.opcode) {
        return writer.write;
    }
    Write {
        first: 0,
        mask: mask_reached(request.opcode, request.size, request.address),
        values: values_written(&writer.asked, answer),
    }
}
