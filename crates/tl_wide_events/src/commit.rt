//! Stores and loads of a core with addresses of 64 bits.

ghost use Rattle.std.specs.Prelude.{◌≡◌, ◌%◌, ◌<◌, ◌^◌};
ghost use Rattle.tl_events.specs.statement.CommitLine.{IsCommit};
ghost use Rattle.tl_wide_events.specs.code.Halves.{widened, widened_piece};
ghost use Rattle.tl_wide_events.specs.statement.Narrowed.{address_of, commit_at};
ghost use Rattle.tl_wide_events.specs.statement.WideCommitLine.{IsWideCommit};

use tl_events::commit::{Commit, Piece};
use tl_wide::beat::WideBeat;

/// The bytes that a store or a load reaches: `2^size` of them, from an address on that is a multiple of their number.
#[derive(Clone, Copy, Debug, PartialEq, Eq)]
pub struct WidePiece {
    pub size: u8,
    pub address: u64,
}

/// A store or a load of the core of a link.
#[derive(Clone, Copy, Debug, PartialEq, Eq)]
pub enum WideCommit {
    /// The bytes of `value`, the lowest byte first, were stored into the cache's copy.
    Store { piece: WidePiece, value: u64 },
    /// They were loaded from it.
    Load { piece: WidePiece, value: u64 },
    /// A load began that may end later.
    Begin { piece: WidePiece },
}

/// An event of a link of wide beats: a beat, or a commit of its core.
#[derive(Clone, Copy, Debug, PartialEq, Eq)]
pub enum WideEvent<const W: usize> {
    Beat(WideBeat<W>),
    Commit(WideCommit),
}

/// A piece with this higher half of its address.
fn widened_piece(piece: Piece, high: u32) -> WidePiece
    ensures { result ≡ widened_piece piece high }
{
    WidePiece {
        size: piece.size,
        address: (u64::from(high) << 32) + u64::from(piece.address),
    }
}

impl WideCommit {
    /// The commit with this higher half of its address.
    pub(crate) fn widened(commit: Commit, high: u32) -> WideCommit
        ensures { result ≡ widened commit high }
    {
        match commit {
            Commit::Store { piece, value } => WideCommit::Store {
                piece: widened_piece(piece, high),
                value,
            },
            Commit::Load { piece, value } => WideCommit::Load {
                piece: widened_piece(piece, high),
                value,
            },
            Commit::Begin { piece } => WideCommit::Begin {
                piece: widened_piece(piece, high),
            },
        }
    }

    /// The address of its first byte.
    pub fn address(self) -> u64
        ensures { result ≡ address_of self }
    {
        match self {
            WideCommit::Store { piece, .. } => piece.address,
            WideCommit::Load { piece, .. } => piece.address,
            WideCommit::Begin { piece } => piece.address,
        }
    }

    /// The same commit at this address, whose place in its block is the same.
    pub fn at(self, address: u32) -> Commit
        ensures same { result ≡ commit_at self address }
        ensures valid { IsWideCommit self → address % 64 ≡ address_of self % 64 → IsCommit result }
    {
        match self {
            WideCommit::Store { piece, value } => Commit::Store {
                piece: Piece {
                    size: piece.size,
                    address,
                },
                value,
            },
            WideCommit::Load { piece, value } => Commit::Load {
                piece: Piece {
                    size: piece.size,
                    address,
                },
                value,
            },
            WideCommit::Begin { piece } => Commit::Begin {
                piece: Piece {
                    size: piece.size,
                    address,
                },
            },
        }
    }
}
