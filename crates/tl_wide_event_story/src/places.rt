//! The bytes of a block that an event of a wide trace is about.

ghost use Rattle.std.specs.Prelude.{◌≡◌, ◌≤◌, ◌+◌};
ghost use Rattle.tl_commit_words.specs.statement.CommitWords.{wide_piece_in};

use std::alloc::AllocError;
use tl_beat::beat::Beat;
use tl_wide_events::commit::{WideCommit, WidePiece};
use tl_witness::text::append_hex;

/// The number of bytes in a block.
pub const BYTES: usize = 64;

/// Bytes of a block: the place of the first, and their number.
#[derive(Clone, Copy)]
pub struct Places {
    pub first: usize,
    pub count: usize,
    ghost within: { first + count ≤ 64 },
}

/// Bytes of a block, if they are within it.
fn within(first: usize, count: usize) -> Option<Places> {
    if first > BYTES || count > BYTES - first {
        return None;
    }
    Some(Places { first, count })
}

/// The bytes that a commit reaches.
pub fn piece_of(commit: WideCommit) -> WidePiece
    ensures { result ≡ wide_piece_in commit }
{
    match commit {
        WideCommit::Store { piece, .. } => piece,
        WideCommit::Load { piece, .. } => piece,
        WideCommit::Begin { piece } => piece,
    }
}

/// The places of the bytes that a commit reaches. None if they aren't within a block.
pub fn places_of_commit(commit: WideCommit) -> Option<Places> {
    let piece = piece_of(commit);
    if piece.size > 3 {
        return None;
    }
    within((piece.address % 64) as usize, 1 << piece.size)
}

/// The places of the bytes that a part of a wide beat is about, if `came` parts of its message came before it: those that it
/// gives back, or the whole block. None if they aren't within the block.
pub fn places_of_part<const P: usize>(came: u64, part: &Beat<P>) -> Option<Places> {
    match part {
        Beat::C(x) if x.opcode.carries_data() => {
            if came > 64 {
                return None;
            }
            within(P.saturating_mul(came as usize), P)
        }
        _ => within(0, BYTES),
    }
}

/// Appends an address of 64 bits.
pub fn append_address(address: u64, out: &mut Vec<u8>) -> Result<(), AllocError> {
    append_hex((address / 4_294_967_296) as u32, 8, out)?;
    append_hex((address % 4_294_967_296) as u32, 8, out)
}
