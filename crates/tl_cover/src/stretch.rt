//! The lists of situations in stretches, each of which comes with messages of one group.

use crate::group::Group;
use crate::situation::Bytes;
use tl_beat::opcode::{OpA, OpB, OpC, OpD};

/// Situations that follow one another in a list, and come only with messages of this group. The number is the place
/// after the last of them.
#[derive(Clone, Copy)]
pub struct Stretch(pub Group, pub usize);

/// The stretches of `Situation::ALL`.
pub const OF_ALL: [Stretch; 33] = [
    Stretch(Group::Probe, 1),
    Stretch(Group::Release, 2),
    Stretch(Group::Probe, 5),
    Stretch(Group::Grant, 7),
    Stretch(Group::Release, 8),
    Stretch(Group::Grant, 10),
    Stretch(Group::Acquire, 13),
    Stretch(Group::Grant, 16),
    Stretch(Group::Probe, 19),
    Stretch(Group::ProbeAck, 25),
    Stretch(Group::Release, 31),
    Stretch(Group::Access, 33),
    Stretch(Group::Put, 36),
    Stretch(Group::Get, 43),
    Stretch(Group::Put, 50),
    Stretch(Group::Atomic, 61),
    Stretch(Group::Response, 62),
    Stretch(Group::GrantAck, 63),
    Stretch(Group::Acquire, 65),
    Stretch(Group::Get, 66),
    Stretch(Group::Put, 67),
    Stretch(Group::Atomic, 68),
    Stretch(Group::Put, 69),
    Stretch(Group::ProbeAck, 70),
    Stretch(Group::Any, 71),
    Stretch(Group::Response, 72),
    Stretch(Group::GrantAck, 73),
    Stretch(Group::Probe, 74),
    Stretch(Group::Response, 75),
    Stretch(Group::Grant, 76),
    Stretch(Group::Any, 77),
    Stretch(Group::Grant, 78),
    Stretch(Group::Response, 79),
];

/// The stretches of `BINS`.
pub const OF_BINS: [Stretch; 37] = [
    Stretch(Group::A(OpA::PutFullData), 7),
    Stretch(Group::A(OpA::PutPartialData), 14),
    Stretch(Group::A(OpA::ArithmeticData), 24),
    Stretch(Group::A(OpA::LogicalData), 32),
    Stretch(Group::A(OpA::Get), 39),
    Stretch(Group::A(OpA::Intent), 53),
    Stretch(Group::A(OpA::AcquireBlock), 56),
    Stretch(Group::A(OpA::AcquirePerm), 59),
    Stretch(Group::B(OpB::ProbeBlock), 62),
    Stretch(Group::B(OpB::ProbePerm), 65),
    Stretch(Group::C(OpC::ProbeAck), 71),
    Stretch(Group::C(OpC::ProbeAckData), 74),
    Stretch(Group::C(OpC::Release), 80),
    Stretch(Group::C(OpC::ReleaseData), 83),
    Stretch(Group::D(OpD::AccessAck), 90),
    Stretch(Group::D(OpD::AccessAckData), 97),
    Stretch(Group::D(OpD::HintAck), 104),
    Stretch(Group::D(OpD::Grant), 107),
    Stretch(Group::D(OpD::GrantData), 110),
    Stretch(Group::D(OpD::ReleaseAck), 111),
    Stretch(Group::GrantAck, 112),
    Stretch(Group::Grant, 115),
    Stretch(Group::ProbeAck, 133),
    Stretch(Group::AccessOf(Bytes::One), 140),
    Stretch(Group::AccessOf(Bytes::Two), 146),
    Stretch(Group::AccessOf(Bytes::Four), 151),
    Stretch(Group::AccessOf(Bytes::Eight), 155),
    Stretch(Group::AccessOf(Bytes::Sixteen), 158),
    Stretch(Group::AccessOf(Bytes::ThirtyTwo), 160),
    Stretch(Group::AccessOf(Bytes::SixtyFour), 161),
    Stretch(Group::Acquire, 167),
    Stretch(Group::Get, 173),
    Stretch(Group::Put, 179),
    Stretch(Group::Atomic, 185),
    Stretch(Group::Release, 191),
    Stretch(Group::Probe, 197),
    Stretch(Group::Grant, 203),
];
