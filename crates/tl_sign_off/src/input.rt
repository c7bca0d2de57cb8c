//! Facts about an input that comes in pieces: its number of bytes, the first of them, and its SHA-256.

ghost use Rattle.std.specs.Prelude.{◌≡◌, ◌++◌, ℕ, [], List, OnOk, IfErr, length, take};
ghost use Rattle.sha2.specs.Sha256.{sha256};
ghost use Rattle.tl_lines.specs.declared.status.ToolFault.{ToolFault};
ghost use Rattle.tl_sign_off.specs.code.Noting.{IsNoted};

use arrayvec::ArrayVec;
use sha2::{Digest, Sha256};
use tl_lines::status::ToolFault;

/// The number of bytes that are kept from the front of an input: as many as a line of a trace may have.
const FRONT: usize = 256;

/// Facts about an input.
#[derive(Drop)]
pub struct Input {
    /// The number of its bytes.
    pub bytes: u64,
    /// The first 256 of them.
    pub front: ArrayVec<u8, 256>,
    /// Their SHA-256.
    pub sum: [u8; 32],
}

/// Facts about the bytes that have come so far.
#[derive(Drop)]
pub struct Notes {
    hasher: Sha256,
    bytes: u64,
    front: ArrayVec<u8, 256>,
}

/// The first bytes of a piece, at most this many.
fn at_most(piece: &[u8], most: usize) -> &[u8]
    ensures { result.now ≡ take most piece.now }
{
    if piece.len() <= most {
        piece
    } else {
        &piece[..most]
    }
}

impl Notes {
    /// No byte has come.
    pub fn new() -> Notes
        ensures { IsNoted result [] }
    {
        Notes {
            hasher: Sha256::new(),
            bytes: 0,
            front: ArrayVec::new(),
        }
    }

    /// Takes a piece. The error is `Read` after byte 2^64 - 1.
    pub fn add(&mut self, piece: &[u8]) -> Result<(), ToolFault>
        ensures notes { OnOk result ((input : List ℕ) → IsNoted self.old input → IsNoted self.new (input ++ piece.now)) }
        ensures fault { IfErr result (λ fault. fault ≡ ToolFault.Read) }
    {
        let bytes = self
            .bytes
            .checked_add(piece.len() as u64)
            .ok_or(ToolFault::Read)?;
        let room = FRONT.saturating_sub(self.front.len());
        self.front
            .try_extend_from_slice(at_most(piece, room))
            .map_err(|_| ToolFault::Read)?;
        self.bytes = bytes;
        self.hasher.update(piece);
        Ok(())
    }

    /// The facts about the whole input.
    pub fn into_input(self) -> Input
        ensures { (input : List ℕ) → IsNoted self input → (result.bytes ≡ length input)
            × (result.front.items ≡ take 256 input) × (result.sum ≡ sha256 input) }
    {
        Input {
            bytes: self.bytes,
            front: self.front,
            sum: self.hasher.finalize(),
        }
    }
}
