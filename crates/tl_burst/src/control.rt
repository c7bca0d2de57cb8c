//! The control fields of a message, which its beats share (SiFive TileLink Specification 1.8, "Serialization").

ghost use Rattle.std.specs.Prelude.{◌≡◌};
ghost use Rattle.tl_beat.specs.statement.Control.{control_of};
ghost use Rattle.tl_burst.specs.statement.Burst.{beat_of};

use crate::message::Message;
use tl_beat::control::{Control, ControlA, ControlB, ControlC, ControlD};

impl<const W: usize> Message<W> {
    /// The message's control fields: those of each of its beats.
    pub fn control(&self) -> Control
        ensures { result ≡ control_of (beat_of self.now 0) }
    {
        match self {
            Message::A(m) => Control::A(ControlA {
                opcode: m.opcode,
                param: m.param,
                size: m.size,
                source: m.source,
                address: m.address,
            }),
            Message::B(m) => Control::B(ControlB {
                opcode: m.opcode,
                param: m.param,
                size: m.size,
                source: m.source,
                address: m.address,
            }),
            Message::C(m) => Control::C(ControlC {
                opcode: m.opcode,
                param: m.param,
                size: m.size,
                source: m.source,
                address: m.address,
            }),
            Message::D(m) => Control::D(ControlD {
                opcode: m.opcode,
                param: m.param,
                size: m.size,
                source: m.source,
                sink: m.sink,
                denied: m.denied,
            }),
            Message::E(m) => Control::E(m.sink),
        }
    }
}
