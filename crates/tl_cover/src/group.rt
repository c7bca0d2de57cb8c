//! Groups of messages, for the situations that only come with messages of one group.

ghost use Rattle.std.specs.Prelude.{◌≡◌};
ghost use Rattle.tl_cover.specs.code.Groups;

use crate::kind::{
    asks_for, is_access_beat, is_acquire_beat, is_atomic, is_get, is_grant_ack_beat, is_grant_beat,
    is_probe_ack_beat, is_probe_beat, is_put, is_release_beat,
};
use crate::situation::Bytes;
use tl_beat::beat::Beat;
use tl_beat::opcode::{OpA, OpB, OpC, OpD};

/// A group of messages.
#[derive(Clone, Copy)]
pub enum Group {
    /// All messages.
    Any,
    Acquire,
    Access,
    /// Accesses of this many bytes.
    AccessOf(Bytes),
    Get,
    Put,
    Atomic,
    Probe,
    ProbeAck,
    Release,
    Grant,
    /// All messages of channel D.
    Response,
    GrantAck,
    /// Messages of channel A with this opcode.
    A(OpA),
    B(OpB),
    C(OpC),
    D(OpD),
}

/// Whether a beat is of channel A and has this opcode.
fn is_a<const W: usize>(opcode: OpA, beat: &Beat<W>) -> bool
    ensures { result ≡ Groups.is_a opcode beat.now }
{
    match beat {
        Beat::A(x) => opcode.code() == x.opcode.code(),
        _ => false,
    }
}

/// Whether a beat is of channel B and has this opcode.
fn is_b<const W: usize>(opcode: OpB, beat: &Beat<W>) -> bool
    ensures { result ≡ Groups.is_b opcode beat.now }
{
    match beat {
        Beat::B(x) => opcode.code() == x.opcode.code(),
        _ => false,
    }
}

/// Whether a beat is of channel C and has this opcode.
fn is_c<const W: usize>(opcode: OpC, beat: &Beat<W>) -> bool
    ensures { result ≡ Groups.is_c opcode beat.now }
{
    match beat {
        Beat::C(x) => opcode.code() == x.opcode.code(),
        _ => false,
    }
}

/// Whether a beat is of channel D and has this opcode.
fn is_d<const W: usize>(opcode: OpD, beat: &Beat<W>) -> bool
    ensures { result ≡ Groups.is_d opcode beat.now }
{
    match beat {
        Beat::D(x) => opcode.code() == x.opcode.code(),
        _ => false,
    }
}

impl Group {
    /// Whether a beat is of a message of this group.
    pub fn has<const W: usize>(self, beat: &Beat<W>) -> bool
        ensures { result ≡ Groups.has self beat.now }
    {
        match self {
            Group::Any => true,
            Group::Acquire => is_acquire_beat(beat),
            Group::Access => is_access_beat(beat),
            Group::AccessOf(bytes) => is_access_beat(beat) && asks_for(bytes, beat),
            Group::Get => is_get(beat),
            Group::Put => is_put(beat),
            Group::Atomic => is_atomic(beat),
            Group::Probe => is_probe_beat(beat),
            Group::ProbeAck => is_probe_ack_beat(beat),
            Group::Release => is_release_beat(beat),
            Group::Grant => is_grant_beat(beat),
            Group::Response => matches!(beat, Beat::D(_)),
            Group::GrantAck => is_grant_ack_beat(beat),
            Group::A(opcode) => is_a(opcode, beat),
            Group::B(opcode) => is_b(opcode, beat),
            Group::C(opcode) => is_c(opcode, beat),
            Group::D(opcode) => is_d(opcode, beat),
        }
    }
}
