//! Whether a block is free for an access.

ghost use Rattle.std.specs.Prelude.{◌≡◌};
ghost use Rattle.tl_rules.specs.statement.Windows as window;
ghost use Rattle.tl_memory.specs.statement.Known.{free_for, open_for};

use tl_beat::opcode::OpA;
use tl_rules::perm::Perm;

/// The permission that an access needs of its block.
pub fn needs(opcode: OpA) -> Perm
    ensures { result ≡ window.needs opcode }
{
    match opcode {
        OpA::Get => Perm::Branch,
        OpA::Intent => Perm::None,
        _ => Perm::Trunk,
    }
}

/// Whether a block is free with a beat.
#[derive(Clone, Copy, Debug, PartialEq, Eq)]
pub struct Freedom {
    /// No link may hold Trunk: it is free for reading.
    pub reading: bool,
    /// No link may hold a permission: it is free for writing.
    pub writing: bool,
    /// The beat shows its bytes, and leaves its sender Trunk.
    pub shown: bool,
}

impl Freedom {
    /// Whether the block is free for this permission.
    pub fn is_free_for(self, given: Perm) -> bool
        ensures { result ≡ free_for self given }
    {
        match given {
            Perm::Trunk => self.writing,
            Perm::Branch => self.reading,
            Perm::None => true,
        }
    }

    /// Whether an access that needs this permission of the block may be performed.
    pub fn is_open_for(self, given: Perm) -> bool
        ensures { result ≡ open_for self given }
    {
        match given {
            Perm::Trunk => self.writing,
            Perm::Branch => self.reading || self.shown,
            Perm::None => true,
        }
    }
}
