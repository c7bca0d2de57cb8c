//! The control fields of a beat, which all beats of a burst have in common (SiFive TileLink Specification 1.8,
//! "Serialization").

ghost use Rattle.std.specs.Prelude.{◌≡◌};
ghost use Rattle.tl_beat.specs.statement.Control.{channel_of, control_of, has_control};

use crate::beat::Beat;
use crate::channel::Channel;
use crate::opcode::{OpA, OpB, OpC, OpD};

/// The control fields of channel A, with the units and ranges of a beat's.
#[derive(Clone, Copy, Debug, PartialEq, Eq)]
pub struct ControlA {
    pub opcode: OpA,
    pub param: u8,
    pub size: u8,
    pub source: u8,
    pub address: u32,
}

/// The control fields of channel B.
#[derive(Clone, Copy, Debug, PartialEq, Eq)]
pub struct ControlB {
    pub opcode: OpB,
    pub param: u8,
    pub size: u8,
    pub source: u8,
    pub address: u32,
}

/// The control fields of channel C.
#[derive(Clone, Copy, Debug, PartialEq, Eq)]
pub struct ControlC {
    pub opcode: OpC,
    pub param: u8,
    pub size: u8,
    pub source: u8,
    pub address: u32,
}

/// The control fields of channel D.
#[derive(Clone, Copy, Debug, PartialEq, Eq)]
pub struct ControlD {
    pub opcode: OpD,
    pub param: u8,
    pub size: u8,
    pub source: u8,
    pub sink: u8,
    pub denied: bool,
}

/// The control fields of a beat or a message, by channel. Channel E has only a sink.
#[derive(Clone, Copy, Debug, PartialEq, Eq)]
pub enum Control {
    A(ControlA),
    B(ControlB),
    C(ControlC),
    D(ControlD),
    E(u8),
}

impl<const W: usize> Beat<W> {
    /// The channel that carries the beat.
    pub fn channel(&self) -> Channel
        ensures { result ≡ channel_of self.now }
    {
        match self {
            Beat::A(_) => Channel::A,
            Beat::B(_) => Channel::B,
            Beat::C(_) => Channel::C,
            Beat::D(_) => Channel::D,
            Beat::E(_) => Channel::E,
        }
    }

    /// The beat's control fields.
    pub fn control(&self) -> Control
        ensures { result ≡ control_of self.now }
    {
        match self {
            Beat::A(x) => Control::A(ControlA {
                opcode: x.opcode,
                param: x.param,
                size: x.size,
                source: x.source,
                address: x.address,
            }),
            Beat::B(x) => Control::B(ControlB {
                opcode: x.opcode,
                param: x.param,
                size: x.size,
                source: x.source,
                address: x.address,
            }),
            Beat::C(x) => Control::C(ControlC {
                opcode: x.opcode,
                param: x.param,
                size: x.size,
                source: x.source,
                address: x.address,
            }),
            Beat::D(x) => Control::D(ControlD {
                opcode: x.opcode,
                param: x.param,
                size: x.size,
                source: x.source,
                sink: x.sink,
                denied: x.denied,
            }),
            Beat::E(x) => Control::E(x.sink),
        }
    }

    /// Whether these are the beat's control fields.
    #[inline(always)]
    pub fn has_control(&self, control: &Control) -> bool
        ensures { result ≡ has_control self.now control.now }
    {
        match (self, control) {
            (Beat::A(x), Control::A(y)) => {
                x.opcode == y.opcode
                    && x.param == y.param
                    && x.size == y.size
                    && x.source == y.source
                    && x.address == y.address
            }
            (Beat::B(x), Control::B(y)) => {
                x.opcode == y.opcode
                    && x.param == y.param
                    && x.size == y.size
                    && x.source == y.source
                    && x.address == y.address
            }
            (Beat::C(x), Control::C(y)) => {
                x.opcode == y.opcode
                    && x.param == y.param
                    && x.size == y.size
                    && x.source == y.source
                    && x.address == y.address
            }
            (Beat::D(x), Control::D(y)) => {
                x.opcode == y.opcode
                    && x.param == y.param
                    && x.size == y.size
                    && x.source == y.source
                    && x.sink == y.sink
                    && x.denied == y.denied
            }
            (Beat::E(x), Control::E(sink)) => x.sink == *sink,
            _ => false,
        }
    }
}
