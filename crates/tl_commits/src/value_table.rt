//! The possible values of the bytes of all blocks.

ghost use Rattle.std.specs.Prelude.{ℕ, Some, true, if◌then◌else◌, ◌==◌, ◌+◌, ◌*◌, ◌<◌, ◌≡◌, option_copied, IfOk};
ghost use Rattle.std.specs.Prelude.{OnErr, OnOk, ◌||◌};
ghost use Rattle.tl_memory.specs.code.ByteSet.{has_at};
ghost use Rattle.tl_rules.specs.statement.History.{block_at};
ghost use Rattle.tl_commits.specs.code.GivingBack.{is_seen};
ghost use Rattle.tl_commits.specs.code.BlockValues.{IsLoaded, IsStored};
ghost use Rattle.tl_commits.specs.code.Reached.{is_reached};
ghost use Rattle.tl_commits.specs.code.ValueTable.{AreFirstKept, IsChanged, IsFirstTable, IsFresh, KnowsTable};
ghost use Rattle.tl_commits.specs.code.ValueTable.{has_own, values_in};
ghost use Rattle.tl_commits.specs.statement.Completeness.{Completeness};
ghost use Rattle.tl_commits.specs.statement.Commits;
ghost use Rattle.tl_commits.specs.statement.Events.{Events};

use crate::block_values::BlockValues;
use crate::reached::{add_told, put_reached};
use crate::tellings::{Places, allows};
use std::alloc::{AllocError, Global};
use std::collections::BTreeMap;
use std::marker::Model;
use tl_bytes::write::Write;
use tl_memory::byte_set::{ByteSet, with_told};
use tl_rules::key::block_at;

/// The possible values of the bytes of blocks. A block without values of its own is as before the trace.
#[derive(Drop)]
pub struct ValueTable {
    blocks: BTreeMap<u32, BlockValues>,
    /// The values of each other block. None if they may be any.
    first: Option<BlockValues>,
}

impl Model for ValueTable {
    ghost use Rattle.tl_commits.specs.code.ValueTable.{Table};

    ghost Value = { Table };

    ghost view = { λ t. record { entries = t.blocks.entries; first = t.first } };
}

/// The values of each block before the trace, if they aren't any: `zero` says whether memory was zero. The error means
/// that there is no memory left.
fn first_values(alloc: Global, zero: bool) -> Result<Option<BlockValues>, AllocError>
    ensures { IfOk result (λ first. AreFirstKept first zero) }
{
    if zero {
        return Ok(Some(BlockValues::new(alloc, zero)?));
    }
    Ok(None)
}

impl ValueTable {
    /// The values before the trace: `zero` says whether memory was zero then. The error means that there is no memory
    /// left.
    pub fn new(alloc: Global, zero: bool) -> Result<Self, AllocError>
        ensures { IfOk result (λ table. IsFirstTable table zero) }
    {
        let first = first_values(alloc, zero)?;
        Ok(ValueTable {
            blocks: BTreeMap::new(alloc),
            first,
        })
    }

    /// The values of a block, if they aren't any.
    pub fn get(&self, block: u32) -> Option<&BlockValues>
        ensures { option_copied result ≡ values_in self.now block }
    {
        match self.blocks.get(&block) {
            None => self.first.as_ref(),
            own => own,
        }
    }

    /// A copy of the values of a block that has none of its own. The error means that there is no memory left.
    fn fresh(&self, alloc: Global) -> Result<BlockValues, AllocError>
        ensures { IfOk result (λ v. IsFresh self.now.first v) }
    {
        match &self.first {
            None => BlockValues::new(alloc, false),
            Some(first) => first.copied(alloc),
        }
    }

    /// Makes sure that a block has values of its own. The error means that there is no memory left. All that is known
    /// stays true in either case.
    pub fn meet(&mut self, alloc: Global, block: u32) -> Result<(), AllocError>
        ensures knows { (w : ℕ) (complete : Completeness) (n : ℕ) (e : Events w) → KnowsTable self.old complete n e →
            KnowsTable self.new complete n e }
        ensures met { OnOk result (has_own self.new block ≡ true) }
    {
        if self.blocks.get(&block).is_some() {
            return Ok(());
        }
        let fresh = self.fresh(alloc)?;
        match self.blocks.insert(block, fresh) {
            Ok(_) => Ok(()),
            Err(_) => Err(AllocError),
        }
    }

    /// Replaces the values of a block that has some of its own.
    pub fn put(&mut self, block: u32, values: BlockValues)
        ensures { has_own self.old block ≡ true → (k : ℕ) → values_in self.new k
            ≡ (if k == block then Some values else values_in self.old k) }
    {
        if let Some(there) = self.blocks.get_mut(&block) {
            *there = values;
        }
    }

    /// Takes a store to a block that has values of its own, which writes these places; `moment` is the number of beats
    /// before it. The error means that there is no memory left; then the values are as before.
    pub fn store(
        &mut self,
        alloc: Global,
        block: u32,
        write: &Write,
        moment: u64,
    ) -> Result<(), AllocError>
        ensures stored { OnOk result (has_own self.old block ≡ true →
            IsChanged (λ was now. IsStored was now write.now moment) block self.old self.new) }
        ensures kept { OnErr result ((k : ℕ) → values_in self.new k ≡ values_in self.old k) }
    {
        match self.blocks.get_mut(&block) {
            None => Ok(()),
            Some(there) => there.store(alloc, write, moment),
        }
    }

    /// Takes a load of a block that has values of its own, which says the bytes of these places; `moment` is the number
    /// of beats before it. The error is the same.
    pub fn load(
        &mut self,
        alloc: Global,
        block: u32,
        places: &Places,
        write: &Write,
        moment: u64,
    ) -> Result<(), AllocError>
        ensures loaded { OnOk result (has_own self.old block ≡ true →
            IsChanged (λ was now. IsLoaded was now places.now write.now moment) block self.old self.new) }
        ensures kept { OnErr result ((k : ℕ) → values_in self.new k ≡ values_in self.old k) }
    {
        match self.blocks.get_mut(&block) {
            None => Ok(()),
            Some(there) => there.load(alloc, places, write, moment),
        }
    }

    /// Whether each byte of a block that was stored may have a value that memory may have.
    pub fn is_clean(&self, block: u32) -> bool
        ensures { (w : ℕ) (complete : Completeness) (n : ℕ) (e : Events w) → KnowsTable self.now complete n e →
            result ≡ Commits.is_clean complete n block e }
    {
        match self.get(block) {
            None => true,
            Some(values) => values.is_clean(),
        }
    }

    /// Whether this byte is a possible value of the byte at a place of a block.
    pub fn is_seen(&self, block: u32, place: usize, byte: u8) -> bool
        ensures { (w : ℕ) (complete : Completeness) (n : ℕ) (e : Events w) → KnowsTable self.now complete n e →
            place < 64 → result ≡ is_seen complete n e (64 * block + place) byte }
    {
        if place >= 64 {
            return true;
        }
        match self.get(block) {
            None => true,
            Some(values) => allows(values.seen.as_slice(), place as u8, byte),
        }
    }

    /// These sets, each with the values that its byte of a block may have. The first is of this place, and the others of
    /// those after it.
    pub(crate) fn with_seen<const N: usize>(
        &self,
        sets: [ByteSet; N],
        block: u32,
        first: u8,
    ) -> [ByteSet; N]
        ensures { (w : ℕ) (complete : Completeness) (n : ℕ) (e : Events w) → KnowsTable self.now complete n e →
            (i v : ℕ) → i < N → first + i < 64 → v < 256 →
            has_at result i v ≡ (has_at sets.entry i v || is_seen complete n e (64 * block + (first + i)) v) }
    {
        match self.get(block) {
            None => [ByteSet::all(); N],
            Some(kept) => with_told(sets, kept.seen.as_slice(), first),
        }
    }

    /// Adds to the set of each place of its block that an access of this address and size reaches the values that its byte
    /// may have.
    pub(crate) fn add_seen(&self, sets: &mut [ByteSet; 64], address: u32, size: u8)
        ensures { (w : ℕ) (complete : Completeness) (n : ℕ) (e : Events w) → KnowsTable self.now complete n e →
            (place v : ℕ) → place < 64 → v < 256 → is_reached address size place ≡ true → has_at sets.new place v
            ≡ (has_at sets.old place v || is_seen complete n e (64 * block_at address + place) v) }
    {
        match self.get(block_at(address)) {
            None => put_reached(sets, address, size, ByteSet::all()),
            Some(kept) => add_told(sets, address, size, kept.seen.as_slice()),
        }
    }
}
