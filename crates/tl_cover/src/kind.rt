//! The kinds of messages that a beat may be of.

ghost use Rattle.std.specs.Prelude.{◌≡◌, ◌≤◌};
ghost use Rattle.tl_beat.specs.statement.Width.{IsWidth};
ghost use Rattle.tl_cover.specs.statement.Kinds;

use crate::situation::{Bytes, Depth, Lanes, Pending, Wait};
use tl_beat::beat::{Beat, BeatA};
use tl_beat::opcode::{OpA, OpD};
use tl_params::param::{Arithmetic, Cap, Grow, Logical, Report};
use tl_rules::kind::{is_acquire, is_grant, is_probe, is_probe_ack, is_release};

/// Whether a beat is of a Probe.
pub fn is_probe_beat<const W: usize>(beat: &Beat<W>) -> bool
    ensures { result ≡ Kinds.is_probe_beat beat.now }
{
    match beat {
        Beat::B(x) => is_probe(x.opcode),
        _ => false,
    }
}

/// Whether a beat is of a Release.
pub fn is_release_beat<const W: usize>(beat: &Beat<W>) -> bool
    ensures { result ≡ Kinds.is_release_beat beat.now }
{
    match beat {
        Beat::C(x) => is_release(x.opcode),
        _ => false,
    }
}

/// Whether a beat is of an Acquire.
pub fn is_acquire_beat<const W: usize>(beat: &Beat<W>) -> bool
    ensures { result ≡ Kinds.is_acquire_beat beat.now }
{
    match beat {
        Beat::A(x) => is_acquire(x.opcode),
        _ => false,
    }
}

/// Whether a beat is of an access.
pub fn is_access_beat<const W: usize>(beat: &Beat<W>) -> bool
    ensures { result ≡ Kinds.is_access_beat beat.now }
{
    match beat {
        Beat::A(x) => !is_acquire(x.opcode),
        _ => false,
    }
}

/// Whether a beat is of a Grant, with data or without.
pub fn is_grant_beat<const W: usize>(beat: &Beat<W>) -> bool
    ensures { result ≡ Kinds.is_grant_beat beat.now }
{
    match beat {
        Beat::D(x) => is_grant(x.opcode),
        _ => false,
    }
}

/// Whether a beat is of a Grant with data, or of one without.
pub fn is_grant_with<const W: usize>(wanted: bool, beat: &Beat<W>) -> bool
    ensures { result ≡ Kinds.is_grant_with wanted beat.now }
{
    match beat {
        Beat::D(x) => is_grant(x.opcode) && x.opcode.carries_data() == wanted,
        _ => false,
    }
}

/// Whether a beat is of a GrantAck.
pub fn is_grant_ack_beat<const W: usize>(beat: &Beat<W>) -> bool
    ensures { result ≡ Kinds.is_grant_ack_beat beat.now }
{
    matches!(beat, Beat::E(_))
}

/// Whether a beat is of a Get.
pub fn is_get<const W: usize>(beat: &Beat<W>) -> bool
    ensures { result ≡ Kinds.is_get beat.now }
{
    match beat {
        Beat::A(x) => matches!(x.opcode, OpA::Get),
        _ => false,
    }
}

/// Whether a beat is of a Put.
pub fn is_put<const W: usize>(beat: &Beat<W>) -> bool
    ensures { result ≡ Kinds.is_put beat.now }
{
    match beat {
        Beat::A(x) => matches!(x.opcode, OpA::PutFullData | OpA::PutPartialData),
        _ => false,
    }
}

/// Whether a beat is of an atomic.
pub fn is_atomic<const W: usize>(beat: &Beat<W>) -> bool
    ensures { result ≡ Kinds.is_atomic beat.now }
{
    match beat {
        Beat::A(x) => matches!(x.opcode, OpA::ArithmeticData | OpA::LogicalData),
        _ => false,
    }
}

/// Whether a beat is of an Acquire with this grow.
pub fn has_grow<const W: usize>(grow: Grow, beat: &Beat<W>) -> bool
    ensures { result ≡ Kinds.has_grow grow beat.now }
{
    match beat {
        Beat::A(x) => is_acquire(x.opcode) && x.param == grow.param(),
        _ => false,
    }
}

/// The cap that answers this grow.
fn cap_for(grow: Grow) -> Cap
    ensures { result ≡ Kinds.cap_for grow }
{
    match grow {
        Grow::NtoB => Cap::ToB,
        Grow::NtoT | Grow::BtoT => Cap::ToT,
    }
}

/// Whether a beat is of a Grant with the cap that answers this grow.
pub fn gives<const W: usize>(grow: Grow, beat: &Beat<W>) -> bool
    ensures { result ≡ Kinds.gives grow beat.now }
{
    match beat {
        Beat::D(x) => is_grant(x.opcode) && x.param == cap_for(grow).param(),
        _ => false,
    }
}

/// Whether a beat is of a Probe with this cap.
pub fn has_cap<const W: usize>(cap: Cap, beat: &Beat<W>) -> bool
    ensures { result ≡ Kinds.has_cap cap beat.now }
{
    match beat {
        Beat::B(x) => is_probe(x.opcode) && x.param == cap.param(),
        _ => false,
    }
}

/// Whether a beat is of a Release with this report.
pub fn releases_with<const W: usize>(report: Report, beat: &Beat<W>) -> bool
    ensures { result ≡ Kinds.releases_with report beat.now }
{
    match beat {
        Beat::C(x) => is_release(x.opcode) && x.param == report.param(),
        _ => false,
    }
}

/// Whether a beat is of a ProbeAck with this report.
pub fn has_report<const W: usize>(report: Report, beat: &Beat<W>) -> bool
    ensures { result ≡ Kinds.has_report report beat.now }
{
    match beat {
        Beat::C(x) => is_probe_ack(x.opcode) && x.param == report.param(),
        _ => false,
    }
}

/// Whether a beat is of a ProbeAck, with data or without.
pub fn is_probe_ack_beat<const W: usize>(beat: &Beat<W>) -> bool
    ensures { result ≡ Kinds.is_probe_ack_beat beat.now }
{
    match beat {
        Beat::C(x) => is_probe_ack(x.opcode),
        _ => false,
    }
}

/// Whether a beat is of a ProbeAckData.
pub fn is_report_with_data<const W: usize>(beat: &Beat<W>) -> bool
    ensures { result ≡ Kinds.is_report_with_data beat.now }
{
    match beat {
        Beat::C(x) => is_probe_ack(x.opcode) && x.opcode.carries_data(),
        _ => false,
    }
}

/// Whether a beat is of an ArithmeticData of this operation.
pub fn has_arithmetic<const W: usize>(operation: Arithmetic, beat: &Beat<W>) -> bool
    ensures { result ≡ Kinds.has_arithmetic operation beat.now }
{
    match beat {
        Beat::A(x) => matches!(x.opcode, OpA::ArithmeticData) && x.param == operation.param(),
        _ => false,
    }
}

/// Whether a beat is of a LogicalData of this operation.
pub fn has_logical<const W: usize>(operation: Logical, beat: &Beat<W>) -> bool
    ensures { result ≡ Kinds.has_logical operation beat.now }
{
    match beat {
        Beat::A(x) => matches!(x.opcode, OpA::LogicalData) && x.param == operation.param(),
        _ => false,
    }
}

/// The size field for this many bytes.
pub fn size_of(bytes: Bytes) -> u8
    ensures { result ≡ Kinds.size_of bytes }
{
    match bytes {
        Bytes::One => 0,
        Bytes::Two => 1,
        Bytes::Four => 2,
        Bytes::Eight => 3,
        Bytes::Sixteen => 4,
        Bytes::ThirtyTwo => 5,
        Bytes::SixtyFour => 6,
    }
}

/// Whether a beat is of a request of this many bytes.
pub fn asks_for<const W: usize>(bytes: Bytes, beat: &Beat<W>) -> bool
    ensures { result ≡ Kinds.asks_for bytes beat.now }
{
    match beat {
        Beat::A(x) => x.size == size_of(bytes),
        _ => false,
    }
}

/// The number of bytes.
pub fn number_of(bytes: Bytes) -> u32
    ensures value { result ≡ Kinds.number_of bytes }
    ensures some { 1 ≤ result }
    ensures few { result ≤ 64 }
{
    match bytes {
        Bytes::One => 1,
        Bytes::Two => 2,
        Bytes::Four => 4,
        Bytes::Eight => 8,
        Bytes::Sixteen => 16,
        Bytes::ThirtyTwo => 32,
        Bytes::SixtyFour => 64,
    }
}

/// Whether this is the greatest number of bytes up to 64 that divides an address.
fn is_alignment(many: Bytes, address: u32) -> bool
    ensures { result ≡ Kinds.is_alignment many address }
{
    let number = number_of(many);
    address % number == 0 && (number == 64 || address % (2 * number) != 0)
}

/// Whether a beat is of a request whose address has this alignment.
pub fn is_aligned<const W: usize>(many: Bytes, beat: &Beat<W>) -> bool
    ensures { result ≡ Kinds.is_aligned many beat.now }
{
    match beat {
        Beat::A(x) => is_alignment(many, x.address),
        _ => false,
    }
}

/// Whether a number of beats is in this range.
pub fn is_wait(wait: Wait, beats: u64) -> bool
    ensures { result ≡ Kinds.is_wait wait beats }
{
    match wait {
        Wait::None => beats == 0,
        Wait::One => beats == 1,
        Wait::Two => beats >= 2 && beats < 4,
        Wait::Four => beats >= 4 && beats < 8,
        Wait::Eight => beats >= 8 && beats < 16,
        Wait::Sixteen => beats >= 16 && beats < 32,
        Wait::ThirtyTwo => beats >= 32 && beats < 64,
        Wait::SixtyFour => beats >= 64 && beats < 128,
        Wait::Longer => beats >= 128,
    }
}

/// Whether a beat is of a message of this kind.
pub fn is_pending_kind<const W: usize>(kind: Pending, beat: &Beat<W>) -> bool
    ensures { result ≡ Kinds.is_pending_kind kind beat.now }
{
    match kind {
        Pending::Acquire => is_acquire_beat(beat),
        Pending::Get => is_get(beat),
        Pending::Put => is_put(beat),
        Pending::Atomic => is_atomic(beat),
        Pending::Release => is_release_beat(beat),
        Pending::Probe => is_probe_beat(beat),
        Pending::Grant => is_grant_beat(beat),
    }
}

/// Whether a number of messages that are pending before another one is in this range, with that one.
pub fn is_depth(depth: Depth, before: usize) -> bool
    ensures { result ≡ Kinds.is_depth depth before }
{
    match depth {
        Depth::One => before == 0,
        Depth::Two => before == 1,
        Depth::Four => before >= 2 && before < 4,
        Depth::Eight => before >= 4 && before < 8,
        Depth::Sixteen => before >= 8 && before < 16,
        Depth::More => before >= 16,
    }
}

/// The lanes that the mask of a beat names.
fn lanes_named<const W: usize>(x: &BeatA<W>) -> Lanes
    requires { IsWidth W }
    ensures { result ≡ Kinds.lanes_named x.now }
{
    if x.mask == 0 {
        return Lanes::Empty;
    }
    if u32::from(x.mask) + 1 == 1u32 << W {
        return Lanes::Full;
    }
    Lanes::Partial
}

/// Whether a beat is of a PutPartialData whose mask names these lanes.
pub fn has_lanes<const W: usize>(lanes: Lanes, beat: &Beat<W>) -> bool
    requires { IsWidth W }
    ensures { result ≡ Kinds.has_lanes lanes beat.now }
{
    match beat {
        Beat::A(x) => matches!(x.opcode, OpA::PutPartialData) && lanes_named(x) == lanes,
        _ => false,
    }
}

/// Whether a beat is of a Probe whose source isn't 0.
pub fn is_probe_with_source<const W: usize>(beat: &Beat<W>) -> bool
    ensures { result ≡ Kinds.is_probe_with_source beat.now }
{
    match beat {
        Beat::B(x) => is_probe(x.opcode) && x.source != 0,
        _ => false,
    }
}

/// Whether a beat is of a response other than a Grant, with a sink that isn't 0.
pub fn has_sink_without_grant<const W: usize>(beat: &Beat<W>) -> bool
    ensures { result ≡ Kinds.has_sink_without_grant beat.now }
{
    match beat {
        Beat::D(x) => !is_grant(x.opcode) && x.sink != 0,
        _ => false,
    }
}

/// Whether a beat is of a Grant that is denied.
pub fn is_denied_grant<const W: usize>(beat: &Beat<W>) -> bool
    ensures { result ≡ Kinds.is_denied_grant beat.now }
{
    match beat {
        Beat::D(x) => is_grant(x.opcode) && x.denied,
        _ => false,
    }
}

/// Whether a beat is of an AccessAckData that is denied, and not corrupt.
pub fn is_denied_uncorrupt<const W: usize>(beat: &Beat<W>) -> bool
    ensures { result ≡ Kinds.is_denied_uncorrupt beat.now }
{
    match beat {
        Beat::D(x) => matches!(x.opcode, OpD::AccessAckData) && x.denied && !x.corrupt,
        _ => false,
    }
}

/// Whether a beat is of a message that a link without a permission sends.
pub fn says_nothing_held<const W: usize>(beat: &Beat<W>) -> bool
    ensures { result ≡ Kinds.says_nothing_held beat.now }
{
    has_grow(Grow::NtoB, beat)
        || has_grow(Grow::NtoT, beat)
        || has_report(Report::NtoN, beat)
        || releases_with(Report::NtoN, beat)
}
