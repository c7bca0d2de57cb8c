//! Messages: the control fields of their channel, and the data of all of their beats (SiFive TileLink Specification
//! 1.8, "Operations and Messages"). Fields have the units and ranges of a beat's. A message carries at most a block, so
//! `size` is at most 6.

ghost use Rattle.std.specs.Prelude.{◌≤◌};

use tl_beat::opcode::{OpA, OpB, OpC, OpD};

/// A message of channel A.
#[derive(Clone, Copy, Debug, PartialEq, Eq)]
pub struct MessageA<const W: usize> {
    pub opcode: OpA,
    pub param: u8,
    pub size: u8,
    pub source: u8,
    pub address: u32,
    pub payload: [u8; 64],
    pub mask: u64,
    pub corrupt: u16,
    pub ghost small: { size ≤ 6 },
}

/// A message of channel B.
#[derive(Clone, Copy, Debug, PartialEq, Eq)]
pub struct MessageB<const W: usize> {
    pub opcode: OpB,
    pub param: u8,
    pub size: u8,
    pub source: u8,
    pub address: u32,
    pub payload: [u8; 64],
    pub mask: u64,
    pub corrupt: u16,
    pub ghost small: { size ≤ 6 },
}

/// A message of channel C.
#[derive(Clone, Copy, Debug, PartialEq, Eq)]
pub struct MessageC<const W: usize> {
    pub opcode: OpC,
    pub param: u8,
    pub size: u8,
    pub source: u8,
    pub address: u32,
    pub payload: [u8; 64],
    pub corrupt: u16,
    pub ghost small: { size ≤ 6 },
}

/// A message of channel D.
#[derive(Clone, Copy, Debug, PartialEq, Eq)]
pub struct MessageD<const W: usize> {
    pub opcode: OpD,
    pub param: u8,
    pub size: u8,
    pub source: u8,
    pub sink: u8,
    pub denied: bool,
    pub payload: [u8; 64],
    pub corrupt: u16,
    pub ghost small: { size ≤ 6 },
}

/// A message of channel E, the GrantAck.
#[derive(Clone, Copy, Debug, PartialEq, Eq)]
pub struct MessageE {
    pub sink: u8,
}

/// A message of any channel. Payload byte `W * i + j` is lane `j` of beat `i`. Mask bit `W * i + j` is that of the same
/// lane (channels A and B). Corrupt bit `i` is that of beat `i`.
#[derive(Clone, Copy, Debug, PartialEq, Eq)]
pub enum Message<const W: usize> {
    A(MessageA<W>),
    B(MessageB<W>),
    C(MessageC<W>),
    D(MessageD<W>),
    E(MessageE),
}

impl<const W: usize> Default for Message<W> {
    fn default() -> Self {
        Message::E(MessageE { sink: 0 })
    }
}
