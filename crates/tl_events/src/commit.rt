//! Stores and loads of a core, to and from its cache's copy of a block.

ghost use Rattle.std.specs.Prelude.{◌≡◌, ◌<◌, ◌^◌};
ghost use Rattle.tl_events.specs.statement.CommitLine.{is_piece};

use tl_beat::beat::Beat;

/// The bytes that a store or a load reaches: `2^size` of them, from an address on that is a multiple of their number.
#[derive(Clone, Copy, Debug, PartialEq, Eq)]
pub struct Piece {
    pub size: u8,
    pub address: u32,
}

impl Piece {
    /// Whether it has at most 8 bytes, at a multiple of their number.
    pub fn is_valid(self) -> bool
        ensures { result ≡ is_piece self.size self.address }
    {
        self.size <= 3 && self.address % (1u32 << self.size) == 0
    }

    /// Its address has 32 bits.
    pub fn prove_addressed(self)
        ensures { self.address < 2 ^ 32 }
    {
        let _address = self.address;
    }
}

/// A store or a load of the core of a link.
#[derive(Clone, Copy, Debug, PartialEq, Eq)]
pub enum Commit {
    /// The bytes of `value`, the lowest byte first, were stored into the cache's copy.
    Store { piece: Piece, value: u64 },
    /// They were loaded from it.
    Load { piece: Piece, value: u64 },
    /// A load began that may end later.
    Begin { piece: Piece },
}

/// An event of a link: a beat, or a commit of its core.
#[derive(Clone, Copy, Debug, PartialEq, Eq)]
pub enum Event<const W: usize> {
    Beat(Beat<W>),
    Commit(Commit),
}
