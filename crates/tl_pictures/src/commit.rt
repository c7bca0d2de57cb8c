//! A store or a load of a core in C.

ghost use Rattle.std.specs.Prelude.{◌≡◌, ◌≤◌, ◌<◌, ◌^◌, IfSome};
ghost use Rattle.tl_events.specs.statement.CommitLine.{IsCommit, is_piece};
ghost use Rattle.tl_pictures.specs.statement.CommitPicture.{commit_shown, fits_bytes, wide_commit_shown};
ghost use Rattle.tl_wide_events.specs.statement.WideCommitLine.{IsWideCommit};

use tl_events::commit::Commit;
use tl_wide_events::commit::{WideCommit, WidePiece};

/// The fields of a commit. `kind` is 0 for a store, 1 for a load and 2 for the beginning of a load, whose value is 0.
/// It reaches `2^size` bytes, at most 8, and `value` has those, the lowest first.
#[repr(C)]
#[derive(Clone, Copy, Debug, PartialEq, Eq)]
pub struct CommitPicture {
    pub value: u64,
    pub address: u64,
    pub kind: u8,
    pub size: u8,
}

/// Whether a value has at most `2^size` bytes.
fn fits_bytes(value: u64, size: u8) -> bool
    requires { size ≤ 3 }
    ensures { result ≡ fits_bytes value size }
{
    match size {
        0 => value < 1 << 8,
        1 => value < 1 << 16,
        2 => value < 1 << 32,
        _ => true,
    }
}

/// Whether `2^size` bytes are at most 8, and the address is a multiple of their number.
fn is_piece(size: u8, address: u64) -> bool
    ensures piece { result ≡ is_piece size address }
    ensures range { address < 2 ^ 64 }
{
    size <= 3 && address % (1u64 << size) == 0
}

impl CommitPicture {
    /// The commit with these fields, if there is one.
    pub fn wide_commit(&self) -> Option<WideCommit>
        ensures shown { result ≡ wide_commit_shown self.now }
        ensures valid { IfSome result IsWideCommit }
    {
        if !is_piece(self.size, self.address) {
            return None;
        }
        let piece = WidePiece {
            size: self.size,
            address: self.address,
        };
        let value = self.value;
        match self.kind {
            0 if fits_bytes(value, self.size) => Some(WideCommit::Store { piece, value }),
            1 if fits_bytes(value, self.size) => Some(WideCommit::Load { piece, value }),
            2 if value == 0 => Some(WideCommit::Begin { piece }),
            _ => None,
        }
    }

    /// The commit with these fields, if there is one whose address has 32 bits.
    pub fn commit(&self) -> Option<Commit>
        ensures shown { result ≡ commit_shown self.now }
        ensures valid { IfSome result IsCommit }
    {
        let Ok(address) = u32::try_from(self.address) else {
            return None;
        };
        let commit = self.wide_commit()?;
        Some(commit.at(address))
    }
}
