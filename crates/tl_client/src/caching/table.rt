//! The state of a client's blocks.

ghost use Rattle.std.specs.Prelude.{ℕ, ◌≡◌, ◌<◌, ◌==◌, ◌&&◌, not, if◌then◌else◌, length, IfOk, Option};
ghost use Rattle.std.specs.Option.{option_copied};
ghost use Rattle.tl_client.specs.statement.EndpointInvariant.{holds};
ghost use Rattle.tl_client.specs.code.Table.{held_in, copy_in, waiting_in, block_count};
ghost use Rattle.tl_params.specs.declared.perm.Perm.TheVariants as perm;

use std::alloc::{AllocError, Global};
use tl_rules::perm::Perm;

/// The state of one block.
#[derive(Clone, Copy)]
pub struct Block {
    pub held: Perm,
    /// The bytes of its copy. There is a copy exactly if the permission held isn't None.
    pub copy: Option<[u8; 64]>,
    /// The bytes that an AcquirePerm will store when it is granted.
    pub waiting: Option<[u8; 64]>,
}

/// The blocks of a client.
#[derive(Drop)]
pub struct Table {
    blocks: Vec<Block>,
}

impl Table {
    /// This many blocks, with None held of each. The error means that there is no memory left.
    pub fn new(alloc: Global, count: u16) -> Result<Self, AllocError>
        ensures count { IfOk result (λ t. block_count t ≡ count) }
        ensures held { IfOk result (λ t. (k : ℕ) → held_in t k ≡ perm.None) }
        ensures copies { IfOk result (λ t. (k : ℕ) → copy_in t k ≡ None) }
        ensures waiting { IfOk result (λ t. (k : ℕ) → waiting_in t k ≡ None) }
    {
        let empty = Block {
            held: Perm::None,
            copy: None,
            waiting: None,
        };
        let blocks = vec![in alloc; empty; usize::from(count)]?;
        Ok(Table { blocks })
    }

    /// The permission held of a block.
    pub fn held(&self, block: u32) -> Perm
        ensures { result ≡ held_in self.now block }
    {
        match self.blocks.get(block as usize) {
            Some(block) => block.held,
            None => Perm::None,
        }
    }

    /// The bytes of the copy of a block.
    pub fn copy(&self, block: u32) -> Option<[u8; 64]>
        ensures { result ≡ copy_in self.now block }
    {
        match self.blocks.get(block as usize) {
            Some(block) => block.copy,
            None => None,
        }
    }

    /// The copy of a block, by reference.
    pub fn copy_of(&self, block: u32) -> Option<&[u8; 64]>
        ensures { option_copied result ≡ copy_in self.now block }
    {
        match self.blocks.get(block as usize) {
            Some(block) => block.copy.as_ref(),
            None => None,
        }
    }

    /// The bytes that wait for a Grant of a block.
    pub fn waiting(&self, block: u32) -> Option<[u8; 64]>
        ensures { result ≡ waiting_in self.now block }
    {
        match self.blocks.get(block as usize) {
            Some(block) => block.waiting,
            None => None,
        }
    }

    /// Sets the permission held of a block.
    pub fn hold(&mut self, block: u32, perm: Perm)
        ensures held { block < block_count self.old → (k : ℕ) →
            held_in self.new k ≡ (if k == block then perm else held_in self.old k) }
        ensures copies { (k : ℕ) → copy_in self.new k ≡ copy_in self.old k }
        ensures waiting { (k : ℕ) → waiting_in self.new k ≡ waiting_in self.old k }
        ensures count { block_count self.new ≡ block_count self.old }
    {
        if let Some(block) = self.blocks.get_mut(block as usize) {
            block.held = perm;
        }
    }

    /// Sets the copy of a block.
    pub fn set_copy(&mut self, block: u32, bytes: Option<[u8; 64]>)
        ensures copies { block < block_count self.old → (k : ℕ) →
            copy_in self.new k ≡ (if k == block then bytes else copy_in self.old k) }
        ensures held { (k : ℕ) → held_in self.new k ≡ held_in self.old k }
        ensures waiting { (k : ℕ) → waiting_in self.new k ≡ waiting_in self.old k }
        ensures count { block_count self.new ≡ block_count self.old }
    {
        if let Some(block) = self.blocks.get_mut(block as usize) {
            block.copy = bytes;
        }
    }

    /// Sets the bytes that wait for a Grant of a block.
    pub fn set_waiting(&mut self, block: u32, bytes: Option<[u8; 64]>)
        ensures waiting { block < block_count self.old → (k : ℕ) →
            waiting_in self.new k ≡ (if k == block then bytes else waiting_in self.old k) }
        ensures held { (k : ℕ) → held_in self.new k ≡ held_in self.old k }
        ensures copies { (k : ℕ) → copy_in self.new k ≡ copy_in self.old k }
        ensures count { block_count self.new ≡ block_count self.old }
    {
        if let Some(block) = self.blocks.get_mut(block as usize) {
            block.waiting = bytes;
        }
    }

    /// Sets the permission held of a block, and drops the copy if it is None.
    pub fn lower(&mut self, block: u32, perm: Perm)
        requires { block < block_count self.old }
        ensures held { (k : ℕ) → held_in self.new k ≡ (if k == block then perm else held_in self.old k) }
        ensures copies { (k : ℕ) →
            copy_in self.new k ≡ (if (k == block) && not (holds perm) then None else copy_in self.old k) }
        ensures waiting { (k : ℕ) → waiting_in self.new k ≡ waiting_in self.old k }
        ensures count { block_count self.new ≡ block_count self.old }
    {
        self.hold(block, perm);
        if perm == Perm::None {
            self.set_copy(block, None);
        }
    }

    /// Makes the bytes that wait for a Grant of a block its copy.
    pub fn store_waiting(&mut self, block: u32)
        ensures copies { block < block_count self.old → (k : ℕ) →
            copy_in self.new k ≡ (if k == block then waiting_in self.old k else copy_in self.old k) }
        ensures waiting { block < block_count self.old → (k : ℕ) →
            waiting_in self.new k ≡ (if k == block then None else waiting_in self.old k) }
        ensures held { (k : ℕ) → held_in self.new k ≡ held_in self.old k }
        ensures count { block_count self.new ≡ block_count self.old }
    {
        let bytes = self.waiting(block);
        self.set_copy(block, bytes);
        self.set_waiting(block, None);
    }
}
