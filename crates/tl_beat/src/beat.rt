//! Beats: the content of one channel at one edge of the clock, with at most `W` bytes of data (SiFive TileLink
//! Specification 1.8, "Signal Descriptions").

ghost use Rattle.std.specs.Prelude.{◌≡◌, is_some};
ghost use Rattle.tl_beat.specs.statement.Opcode.{a_carries_data, b_carries_data, c_carries_data, d_carries_data};

use crate::opcode::{OpA, OpB, OpC, OpD};

/// The number of a link, counted from 0.
#[derive(Clone, Copy, Debug, Default, PartialEq, Eq)]
pub struct Link(pub u8);

/// A beat of channel A. `param` is 0 to 7, by opcode; `size`, 0 to 15, is the base-2 logarithm of the number of bytes;
/// `address` counts bytes. Lane `i` of `lanes` has the byte whose address is `i` modulo `W`, and bit `i` of `mask` says
/// whether it counts.
#[derive(Clone, Copy, Debug, PartialEq, Eq)]
pub struct BeatA<const W: usize> {
    pub opcode: OpA,
    pub param: u8,
    pub size: u8,
    pub source: u8,
    pub address: u32,
    pub mask: u16,
    pub lanes: Option<[u8; W]>,
    pub corrupt: bool,
    pub ghost carries: { is_some lanes ≡ a_carries_data opcode },
}

/// A beat of channel B, with fields as those of channel A.
#[derive(Clone, Copy, Debug, PartialEq, Eq)]
pub struct BeatB<const W: usize> {
    pub opcode: OpB,
    pub param: u8,
    pub size: u8,
    pub source: u8,
    pub address: u32,
    pub mask: u16,
    pub lanes: Option<[u8; W]>,
    pub corrupt: bool,
    pub ghost carries: { is_some lanes ≡ b_carries_data opcode },
}

/// A beat of channel C, with fields as those of channel A.
#[derive(Clone, Copy, Debug, PartialEq, Eq)]
pub struct BeatC<const W: usize> {
    pub opcode: OpC,
    pub param: u8,
    pub size: u8,
    pub source: u8,
    pub address: u32,
    pub lanes: Option<[u8; W]>,
    pub corrupt: bool,
    pub ghost carries: { is_some lanes ≡ c_carries_data opcode },
}

/// A beat of channel D. `param` is 0 to 3, `size` as on channel A; `source` is the number of the request, `sink` the
/// number that a GrantAck repeats, and `denied` says that the request wasn't served.
#[derive(Clone, Copy, Debug, PartialEq, Eq)]
pub struct BeatD<const W: usize> {
    pub opcode: OpD,
    pub param: u8,
    pub size: u8,
    pub source: u8,
    pub sink: u8,
    pub denied: bool,
    pub lanes: Option<[u8; W]>,
    pub corrupt: bool,
    pub ghost carries: { is_some lanes ≡ d_carries_data opcode },
}

/// A beat of channel E: a GrantAck.
#[derive(Clone, Copy, Debug, PartialEq, Eq)]
pub struct BeatE {
    pub sink: u8,
}

/// A beat of any channel. `lanes` is `Some` exactly if the opcode carries data.
#[derive(Clone, Copy, Debug, PartialEq, Eq)]
pub enum Beat<const W: usize> {
    A(BeatA<W>),
    B(BeatB<W>),
    C(BeatC<W>),
    D(BeatD<W>),
    E(BeatE),
}
