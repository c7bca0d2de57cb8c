//! Beats of up to 64 bytes, with longer addresses, sources and sinks.

ghost use Rattle.std.specs.Prelude.{◌≡◌, is_some};
ghost use Rattle.tl_beat.specs.statement.Opcode.{a_carries_data, b_carries_data, c_carries_data, d_carries_data};

use tl_beat::opcode::{OpA, OpB, OpC, OpD};

/// A beat of channel A. `param` is 0 to 7, by opcode; `size`, 0 to 15, is the base-2 logarithm of the number of bytes;
/// `address` counts bytes. Lane `i` of `lanes` has the byte whose address is `i` modulo `W`, and bit `i` of `mask` says
/// whether it counts.
#[derive(Clone, Copy, Debug, PartialEq, Eq)]
pub struct WideBeatA<const W: usize> {
    pub opcode: OpA,
    pub param: u8,
    pub size: u8,
    pub source: u16,
    pub address: u64,
    pub mask: u64,
    pub lanes: Option<[u8; W]>,
    pub corrupt: bool,
    pub ghost carries: { is_some lanes ≡ a_carries_data opcode },
}

/// A beat of channel B, with fields as those of channel A.
#[derive(Clone, Copy, Debug, PartialEq, Eq)]
pub struct WideBeatB<const W: usize> {
    pub opcode: OpB,
    pub param: u8,
    pub size: u8,
    pub source: u16,
    pub address: u64,
    pub mask: u64,
    pub lanes: Option<[u8; W]>,
    pub corrupt: bool,
    pub ghost carries: { is_some lanes ≡ b_carries_data opcode },
}

/// A beat of channel C, with fields as those of channel A.
#[derive(Clone, Copy, Debug, PartialEq, Eq)]
pub struct WideBeatC<const W: usize> {
    pub opcode: OpC,
    pub param: u8,
    pub size: u8,
    pub source: u16,
    pub address: u64,
    pub lanes: Option<[u8; W]>,
    pub corrupt: bool,
    pub ghost carries: { is_some lanes ≡ c_carries_data opcode },
}

/// A beat of channel D. `param` is 0 to 3, `size` as on channel A; `source` is the number of the request, `sink` the
/// number that a GrantAck repeats, and `denied` says that the request wasn't served.
#[derive(Clone, Copy, Debug, PartialEq, Eq)]
pub struct WideBeatD<const W: usize> {
    pub opcode: OpD,
    pub param: u8,
    pub size: u8,
    pub source: u16,
    pub sink: u16,
    pub denied: bool,
    pub lanes: Option<[u8; W]>,
    pub corrupt: bool,
    pub ghost carries: { is_some lanes ≡ d_carries_data opcode },
}

/// A beat of channel E: a GrantAck.
#[derive(Clone, Copy, Debug, PartialEq, Eq)]
pub struct WideBeatE {
    pub sink: u16,
}

/// A beat of any channel. `lanes` is `Some` exactly if the opcode carries data.
#[derive(Clone, Copy, Debug, PartialEq, Eq)]
pub enum WideBeat<const W: usize> {
    A(WideBeatA<W>),
    B(WideBeatB<W>),
    C(WideBeatC<W>),
    D(WideBeatD<W>),
    E(WideBeatE),
}
