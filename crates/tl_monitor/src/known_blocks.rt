//! A table of blocks that keeps the newest one by itself.

ghost use Rattle.std.specs.Prelude.{ℕ, OnOk, OnErr, if◌then◌else◌, ◌==◌, ◌≡◌, ◌≢◌, ◌<◌, ◌≤◌, ◌^◌, ◌*◌};
ghost use Rattle.tl_rules.specs.code.Tables.{block_next, empty_block};
ghost use Rattle.tl_monitor.specs.statement.Count.{sum_below};
ghost use Rattle.tl_monitor.specs.code.Blocks.{block_in, open_of};
ghost use Rattle.tl_monitor.specs.code.KnownBlocks.{Known, known_in};

use crate::blocks::{Blocks, EMPTY, open_of};
use crate::change::change_block;
use std::alloc::{AllocError, Global};
use std::marker::Model;
use tl_beat::beat::Beat;
use tl_rules::liberties::Liberties;
use tl_rules::perm::Perm;
use tl_rules::table::Block;

/// The states of blocks. The newest block is stored only when another one comes: many are empty again before that.
#[derive(Drop)]
pub struct KnownBlocks {
    stored: Blocks,
    /// The newest block. It isn't stored.
    newest: u32,
    /// Its state.
    value: Block,
}

impl Model for KnownBlocks {
    ghost Value = { Known };

    ghost view = { λ b. record { stored = b.stored; newest = b.newest; value = b.value } };

    ghost invariant = { λ b. (block_in b.stored b.newest ≡ empty_block) × (b.newest < 2 ^ 32) };
}

impl KnownBlocks {
    /// A table of empty blocks.
    pub fn new(alloc: Global) -> Self
        ensures { (k : ℕ) → known_in result k ≡ empty_block }
    {
        KnownBlocks {
            stored: Blocks::new(alloc),
            newest: 0,
            value: EMPTY,
        }
    }

    /// The state of a block.
    pub fn get(&self, block: u32) -> &Block
        ensures { result.now ≡ known_in self.now block }
    {
        if block == self.newest {
            &self.value
        } else {
            self.stored.get(block)
        }
    }

    /// Looks a block up, so that `get` of it doesn't search.
    pub fn cache_block(&mut self, block: u32)
        ensures { self.new ≡ self.old }
    {
        if block != self.newest {
            self.stored.cache_block(block);
        }
    }

    /// Makes the change by a beat to a block other than the newest, as `change` does.
    #[inline(never)]
    fn change_other<const W: usize>(
        &mut self,
        liberties: Liberties,
        block: u32,
        first: bool,
        last: bool,
        came: Option<Perm>,
        beat: &Beat<W>,
    ) -> Result<(), AllocError>
        requires { block ≢ self.old.newest }
        ensures changed { OnOk result ((k : ℕ) → known_in self.new k ≡
            (if k == block then block_next liberties first last came beat.now (known_in self.old k) else known_in self.old k)) }
        ensures unchanged { OnErr result (self.new ≡ self.old) }
        ensures new { OnErr result ((known_in self.old block ≡ empty_block)
            × (0 < open_of (block_next liberties first last came beat.now (known_in self.old block)))) }
    {
        let old = *self.stored.get(block);
        let mut value = old;
        change_block(liberties, first, last, came, beat, &mut value);
        if open_of(&value) == 0 || open_of(&old) > 0 {
            return self.stored.set(block, value);
        }
        self.stored.add(self.newest, self.value)?;
        self.newest = block;
        self.value = value;
        Ok(())
    }

    /// Makes the change by a beat to the block that it concerns. The error means that there is no memory left. Then
    /// nothing changes; the block was empty, and would not be empty any more.
    #[inline(always)]
    pub fn change<const W: usize>(
        &mut self,
        liberties: Liberties,
        block: u32,
        first: bool,
        last: bool,
        came: Option<Perm>,
        beat: &Beat<W>,
    ) -> Result<(), AllocError>
        ensures changed { OnOk result ((k : ℕ) → known_in self.new k ≡
            (if k == block then block_next liberties first last came beat.now (known_in self.old k) else known_in self.old k)) }
        ensures unchanged { OnErr result (self.new ≡ self.old) }
        ensures new { OnErr result ((known_in self.old block ≡ empty_block)
            × (0 < open_of (block_next liberties first last came beat.now (known_in self.old block)))) }
    {
        if block == self.newest {
            change_block(liberties, first, last, came, beat, &mut self.value);
            return Ok(());
        }
        self.change_other(liberties, block, first, last, came, beat)
    }

    /// The number of pending keys of blocks, and of blocks held.
    pub fn len(&self) -> usize
        ensures counted { result ≡ sum_below (2 ^ 32) (λ k. open_of (known_in self.now k)) }
        ensures few { result ≤ 5 * 2 ^ 32 }
    {
        self.stored.len() + open_of(&self.value)
    }
}
