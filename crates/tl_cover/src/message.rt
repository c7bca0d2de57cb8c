//! The kinds of messages: by channel, opcode, param and size.

ghost use Rattle.std.specs.Prelude.{◌≡◌, option_map};
ghost use Rattle.tl_cover.specs.statement.Messages;

use crate::kind::size_of;
use crate::situation::Bytes;
use tl_beat::beat::Beat;
use tl_beat::opcode::{OpA, OpB, OpC, OpD};
use tl_params::param::{Arithmetic, Cap, Grow, Intent, Logical, Report};

/// A param by name. Prunes are reports: those from Trunk to less and from Branch to None.
#[derive(Clone, Copy, Debug, PartialEq, Eq)]
pub enum Param {
    /// Param 0 of a message whose params have no names.
    Zero,
    Grow(Grow),
    Cap(Cap),
    Report(Report),
    Arithmetic(Arithmetic),
    Logical(Logical),
    Intent(Intent),
}

/// A kind of message: its opcode, its param and its bytes, by channel. A GrantAck has none of them.
#[derive(Clone, Copy, Debug, PartialEq, Eq)]
pub enum MessageKind {
    A(OpA, Param, Bytes),
    B(OpB, Param, Bytes),
    C(OpC, Param, Bytes),
    D(OpD, Param, Bytes),
    E,
}

impl Param {
    /// The param on the wires.
    fn code(self) -> u8
        ensures { result ≡ Messages.param_code self }
    {
        match self {
            Param::Zero => 0,
            Param::Grow(grow) => grow.param(),
            Param::Cap(cap) => cap.param(),
            Param::Report(report) => report.param(),
            Param::Arithmetic(operation) => operation.param(),
            Param::Logical(operation) => operation.param(),
            Param::Intent(intent) => intent.param(),
        }
    }

    /// The param's name in the specification, if it has one.
    pub fn name(self) -> Option<&'static str>
        ensures { option_map (λ s. s.now) result ≡ Messages.param_name self }
    {
        match self {
            Param::Zero => None,
            Param::Grow(grow) => Some(grow.name()),
            Param::Cap(cap) => Some(cap.name()),
            Param::Report(report) => Some(report.name()),
            Param::Arithmetic(operation) => Some(operation.name()),
            Param::Logical(operation) => Some(operation.name()),
            Param::Intent(intent) => Some(intent.name()),
        }
    }
}

impl MessageKind {
    /// Whether a beat is of a message of this kind.
    pub fn is_of<const W: usize>(self, beat: &Beat<W>) -> bool
        ensures { result ≡ Messages.is_of_kind self beat.now }
    {
        match (self, beat) {
            (MessageKind::A(opcode, param, bytes), Beat::A(x)) => {
                opcode.code() == x.opcode.code() && has(param, bytes, x.param, x.size)
            }
            (MessageKind::B(opcode, param, bytes), Beat::B(x)) => {
                opcode.code() == x.opcode.code() && has(param, bytes, x.param, x.size)
            }
            (MessageKind::C(opcode, param, bytes), Beat::C(x)) => {
                opcode.code() == x.opcode.code() && has(param, bytes, x.param, x.size)
            }
            (MessageKind::D(opcode, param, bytes), Beat::D(x)) => {
                opcode.code() == x.opcode.code() && has(param, bytes, x.param, x.size)
            }
            (MessageKind::E, Beat::E(_)) => true,
            _ => false,
        }
    }

    /// The letter of the channel.
    pub fn letter(self) -> &'static str
        ensures { result.now ≡ Messages.letter self }
    {
        match self {
            MessageKind::A(..) => "A",
            MessageKind::B(..) => "B",
            MessageKind::C(..) => "C",
            MessageKind::D(..) => "D",
            MessageKind::E => "E",
        }
    }

    /// The opcode's name in the specification.
    pub fn opcode_name(self) -> &'static str
        ensures { result.now ≡ Messages.opcode_name self }
    {
        match self {
            MessageKind::A(opcode, ..) => opcode.name(),
            MessageKind::B(opcode, ..) => opcode.name(),
            MessageKind::C(opcode, ..) => opcode.name(),
            MessageKind::D(opcode, ..) => opcode.name(),
            MessageKind::E => "GrantAck",
        }
    }

    /// The param, and the bytes; None for a GrantAck.
    pub fn fields(self) -> Option<(Param, Bytes)>
        ensures { result ≡ Messages.fields self }
    {
        match self {
            MessageKind::A(_, param, bytes)
            | MessageKind::B(_, param, bytes)
            | MessageKind::C(_, param, bytes)
            | MessageKind::D(_, param, bytes) => Some((param, bytes)),
            MessageKind::E => None,
        }
    }
}

/// Whether these are the numbers of a param and of a number of bytes.
fn has(param: Param, bytes: Bytes, number: u8, size: u8) -> bool
    ensures { result ≡ Messages.has param bytes number size }
{
    param.code() == number && size_of(bytes) == size
}
