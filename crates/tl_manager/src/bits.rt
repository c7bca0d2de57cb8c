//! A directory of two words a block, one bit for each client.

ghost use Rattle.std.specs.Prelude.{◌≡◌, ◌≤◌, ◌<◌, ◌^◌, ◌≢◌, ℕ, IfOk, bit_and, if◌then◌else◌};
ghost use Rattle.std.specs.Int.{bit_at};
ghost use Rattle.tl_manager.specs.code.Bits.{perm_in};
ghost use Rattle.tl_manager.specs.code.Word.{trunk_bit, branch_bit, copy_bit};

use crate::directory::Directory;
use crate::word::with_bit;
use std::alloc::{AllocError, Global};
use tl_rules::perm::Perm;

/// The clients that hold a block: bit `c` of `owners` for Trunk of client `c`, of `sharers` for Branch.
#[derive(Clone, Copy)]
pub struct Words {
    pub owners: u16,
    pub sharers: u16,
    pub ghost apart: { bit_and owners sharers ≡ 0 },
}

impl Words {
    /// The words of a block that no client holds.
    pub const NONE: Words = Words {
        owners: 0,
        sharers: 0,
    };

    /// The words after a client's permission is recorded.
    pub(crate) fn with(self, client: u8, perm: Perm) -> Words
        requires { client < 16 }
        ensures here { perm_in result.owners result.sharers client ≡ perm }
        ensures others { (c : ℕ) → c ≢ client → perm_in result.owners result.sharers c
            ≡ perm_in self.owners self.sharers c }
    {
        let owners = with_bit(self.owners, client, perm == Perm::Trunk);
        let sharers = with_bit(self.sharers, client, perm == Perm::Branch);
        Words { owners, sharers }
    }

    /// The permission of a client.
    fn perm(self, client: u8) -> Perm
        requires { client < 16 }
        ensures { result ≡ perm_in self.owners self.sharers client }
    {
        if (self.owners >> client) % 2 == 1 {
            Perm::Trunk
        } else if (self.sharers >> client) % 2 == 1 {
            Perm::Branch
        } else {
            Perm::None
        }
    }

    /// A word whose bit `c` is set exactly if client `c` holds Branch or Trunk.
    pub(crate) fn holders(self) -> u16
        ensures { (c : ℕ) → bit_at result c ≡ copy_bit (perm_in self.owners self.sharers c) }
    {
        self.owners | self.sharers
    }
}

/// A directory with two words for each block: owners (Trunk) and sharers (Branch), which have no bit in common.
#[derive(Drop)]
pub struct BitDirectory {
    words: Vec<Words>,
    clients: u8,
    ghost few: { clients ≤ 16 },
}

impl BitDirectory {
    ghost use Rattle.std.specs.Prelude.{length};
    ghost use Rattle.tl_manager.specs.code.Directories.{perm_of_bits, blocks_of_bits, clients_of_bits};

    /// A directory of this many blocks and clients, at most 16, with no permission recorded. The error means that there
    /// is no memory left.
    pub fn new(alloc: Global, blocks: u16, clients: u8) -> Result<BitDirectory, AllocError>
        requires { clients ≤ 16 }
        ensures none { IfOk result (λ d. (b c : ℕ) → perm_of_bits d b c ≡ Perm.None) }
        ensures covers { IfOk result (λ d. (blocks_of_bits d ≡ blocks) × (clients_of_bits d ≡ clients)) }
    {
        let mut words = Vec::new(alloc);
        words.resize(usize::from(blocks), Words::NONE)?;
        Ok(BitDirectory { words, clients })
    }
}

impl Directory for BitDirectory {
    ghost use Rattle.tl_manager.specs.code.Directories.{perm_of_bits, blocks_of_bits, clients_of_bits};
    ghost use Rattle.std.specs.Prelude.{length};

    ghost perm_of = { perm_of_bits };

    ghost blocks = { blocks_of_bits };

    ghost clients = { clients_of_bits };

    fn get(&self, block: u16, client: u8) -> Perm {
        self.words[usize::from(block)].perm(client)
    }

    fn set(&mut self, block: u16, client: u8, perm: Perm) {
        let block = usize::from(block);
        self.words[block] = self.words[block].with(client, perm);
    }

    fn owners(&self, block: u16) -> u16 {
        self.words[usize::from(block)].owners
    }

    fn holders(&self, block: u16) -> u16 {
        self.words[usize::from(block)].holders()
    }
}
