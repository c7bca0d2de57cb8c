//! The directory: a map from block and client to permission (SiFive TileLink Specification 1.8, chapter on TL-C: None,
//! Branch and Trunk).

ghost use Rattle.std.specs.Prelude.{◌≡◌, ◌≤◌, ◌<◌, ◌⊎◌, ◌≢◌, ℕ};
ghost use Rattle.std.specs.Int.{bit_at};
ghost use Rattle.tl_params.specs.declared.perm.Perm.{Perm};
ghost use Rattle.tl_manager.specs.code.Word.{trunk_bit, copy_bit};

use tl_rules::perm::Perm;

/// A map from block and client to the permission that is recorded. It covers blocks and clients from 0 on, at most 16
/// clients.
pub trait Directory: Drop {
    /// The permission recorded of a block and a client.
    ghost perm_of: { Self → ℕ → ℕ → Perm };

    /// The number of blocks.
    ghost blocks: { Self → ℕ };

    /// The number of clients.
    ghost clients: { Self → ℕ };

    /// The permission recorded of a block and a client.
    fn get(&self, block: u16, client: u8) -> Perm
        requires block { block < blocks self.now }
        requires client { client < clients self.now }
        ensures { result ≡ perm_of self.now block client };

    /// Records a permission, and changes no other entry.
    fn set(&mut self, block: u16, client: u8, perm: Perm)
        requires block { block < blocks self.old }
        requires client { client < clients self.old }
        ensures here { perm_of self.new block client ≡ perm }
        ensures others { (b c : ℕ) → (b ≢ block) ⊎ (c ≢ client) → perm_of self.new b c ≡ perm_of self.old b c }
        ensures blocks { blocks self.new ≡ blocks self.old }
        ensures clients { clients self.new ≡ clients self.old };

    /// A word whose bit `c` is set exactly if client `c` is recorded with Trunk of the block.
    fn owners(&self, block: u16) -> u16
        requires { block < blocks self.now }
        ensures bits { (c : ℕ) → bit_at result c ≡ trunk_bit (perm_of self.now block c) }
        ensures few { clients self.now ≤ 16 };

    /// A word whose bit `c` is set exactly if client `c` is recorded with Branch or Trunk of the block.
    fn holders(&self, block: u16) -> u16
        requires { block < blocks self.now }
        ensures bits { (c : ℕ) → bit_at result c ≡ copy_bit (perm_of self.now block c) }
        ensures few { clients self.now ≤ 16 };
}
