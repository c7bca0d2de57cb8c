//! The last store to each byte of a block.

ghost use Rattle.std.specs.Prelude.{◌≡◌, ◌+◌, ◌<◌, ◌≤◌, ◌++◌, ℕ, IfOk, None, OnOk, option_map};
ghost use Rattle.tl_commit_story.specs.code.Stored.{last_in, stored_of};
ghost use Rattle.tl_commit_story.specs.statement.Cached;
ghost use Rattle.tl_commit_story.specs.statement.Grounds.{number_or, store_words, stored_words, stores_from};

use crate::store_line::StoreLine;
use crate::words::append_commit;
use std::alloc::{AllocError, Global};
use tl_events::commit::{Commit, Piece};
use tl_memory::access::reaches;
use tl_rules::key::block_at;

/// The last store to each byte of a block.
#[derive(Drop)]
pub struct Stores {
    last: [Option<StoreLine>; 64],
}

/// Whether a piece has the byte at a place of a block.
fn has_place(block: u32, place: usize, piece: Piece) -> bool
    requires { place < 64 }
    ensures { result ≡ Cached.has_place block place piece }
{
    block_at(piece.address) == block && reaches(piece.address, piece.size, place)
}

/// The last store to the byte at a place, after a newer one.
fn newer(block: u32, place: usize, store: StoreLine, before: Option<StoreLine>) -> Option<StoreLine>
    requires { place < 64 }
    ensures { option_map stored_of result ≡ Cached.newer block place (stored_of store) (option_map stored_of before) }
{
    if has_place(block, place, store.piece) {
        Some(store)
    } else {
        before
    }
}

/// Appends the words of a store, unless it is the one of line `told`. Returns the number of its line.
fn append_store(store: Option<StoreLine>, told: u64, out: &mut Vec<u8>) -> Result<u64, AllocError>
    ensures number { IfOk result (λ number. number ≡ number_or told (option_map stored_of store)) }
    ensures text { OnOk result (out.new.items ≡ out.old.items ++ store_words told (option_map stored_of store)) }
{
    let Some(store) = store else {
        return Ok(told);
    };
    if store.number != told {
        let commit = Commit::Store {
            piece: store.piece,
            value: store.value,
        };
        append_commit(store.number, store.link, commit, out)?;
    }
    Ok(store.number)
}

impl Stores {
    /// No byte was stored.
    pub fn new() -> Stores
        ensures { (place : ℕ) → place < 64 → last_in result.last place ≡ None }
    {
        Stores { last: [None; 64] }
    }

    /// Takes the next store, of the bytes that it has of this block.
    pub fn take(&mut self, block: u32, store: StoreLine)
        ensures { (place : ℕ) → place < 64 → last_in self.new.last place
            ≡ Cached.newer block place (stored_of store) (last_in self.old.last place) }
    {
        for place in 0..64usize {
            self.last[place] = newer(block, place, store, self.last[place]);
        }
    }

    /// Appends the last stores to `count` bytes from a place on, one that reached several in a row once.
    fn append(&self, first: usize, count: usize, out: &mut Vec<u8>) -> Result<(), AllocError>
        requires { first + count ≤ 64 }
        ensures { OnOk result (out.new.items ≡ out.old.items ++ stores_from (last_in self.now.last) first count 0) }
    {
        let mut told = 0;
        for place in first..first + count {
            told = append_store(self.last[place], told, out)?;
        }
        Ok(())
    }

    /// Appends the last stores to `count` bytes from a place on, or that there is none.
    pub fn tell(
        &self,
        alloc: Global,
        first: usize,
        count: usize,
        out: &mut Vec<u8>,
    ) -> Result<(), AllocError>
        requires { first + count ≤ 64 }
        ensures { OnOk result (out.new.items
            ≡ out.old.items ++ stored_words (stores_from (last_in self.now.last) first count 0)) }
    {
        let mut lines = Vec::new(alloc);
        self.append(first, count, &mut lines)?;
        append_stored(lines.as_slice(), out)
    }
}

/// Appends these stores after their heading, or that there is none.
fn append_stored(stores: &[u8], out: &mut Vec<u8>) -> Result<(), AllocError>
    ensures { OnOk result (out.new.items ≡ out.old.items ++ stored_words stores.now) }
{
    match stores {
        [] => out.extend_from_slice(b"  no store before it reached these bytes\n"),
        [_, ..] => {
            out.extend_from_slice(b"  the last stores to these bytes:\n")?;
            out.extend_from_slice(stores)
        }
    }
}
