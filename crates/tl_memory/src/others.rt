//! The bytes that the accesses to a block may write which are pending or whose answers outran their requests.

ghost use Rattle.std.specs.Prelude.{ℕ, is_some, find, ◌+◌, ◌*◌, ◌<◌, ◌≡◌, ◌||◌};
ghost use Rattle.tl_bytes.specs.code.Tellings.{left_as};
ghost use Rattle.tl_bytes.specs.statement.Bytes.{all_but, is_of, may_write, pending_accesses};
ghost use Rattle.tl_bytes.specs.statement.Early.{outrun_accesses};
ghost use Rattle.tl_memory.specs.code.ByteSet.{has_at};
ghost use Rattle.tl_memory.specs.code.Writers.{writes_but, writes_outrun};
ghost use Rattle.tl_memory.specs.statement.Known.{AnyIsTo, KnowsState};
ghost use Rattle.tl_memory.specs.statement.Memory.{KnowsMemory};
ghost use Rattle.tl_rules.specs.statement.Conformance.{Trace};

use crate::accesses::find;
use crate::block::BlockState;
use crate::byte_set::{ByteSet, add_write};
use crate::early::OutrunAccess;
use crate::memory::Memory;
use crate::pending::PendingAccess;
use tl_beat::beat::Link;

/// Adds to the set of each place of a block the values that the accesses may leave there but the one with this source on a
/// link.
fn add_writes_but<const W: usize>(
    sets: &mut [ByteSet; 64],
    accesses: &[PendingAccess<W>],
    link: Link,
    source: u8,
)
    ensures { (place v : ℕ) → place < 64 → v < 256 → has_at sets.new place v
        ≡ (has_at sets.old place v || left_as place v (writes_but link.0 source accesses.now)) }
{
    for access in accesses {
        if !access.writer.asked.is_of(link, source) {
            add_write(sets, &access.writer.write);
        }
    }
}

/// Adds the values that those may leave whose answers outran their requests.
fn add_outrun(sets: &mut [ByteSet; 64], outrun: &[OutrunAccess])
    ensures { (place v : ℕ) → place < 64 → v < 256 → has_at sets.new place v
        ≡ (has_at sets.old place v || left_as place v (writes_outrun outrun.now)) }
{
    for access in outrun {
        add_write(sets, &access.write);
    }
}

impl<const W: usize> BlockState<W> {
    /// Adds to the set of each place the values that accesses other than the one with this source on a link may write
    /// there.
    pub fn add_others(&self, sets: &mut [ByteSet; 64], link: Link, source: u8)
        ensures { (n block : ℕ) (t : Trace W) → KnowsState self.now n block t → (place v : ℕ) → place < 64 →
            v < 256 → has_at sets.new place v ≡ (has_at sets.old place v
            || may_write (64 * block + place) v (all_but link.0 source (pending_accesses t)) (outrun_accesses t)) }
    {
        add_writes_but(sets, self.accesses.as_slice(), link, source);
        add_outrun(sets, self.outrun.as_slice());
    }

    /// Whether the access with this source on a link is pending, if it is to this block.
    pub fn is_pending(&self, link: Link, source: u8) -> bool
        ensures { (n block : ℕ) (t : Trace W) → KnowsState self.now n block t →
            AnyIsTo block (find (is_of link.0 source) (pending_accesses t)) →
            result ≡ is_some (find (is_of link.0 source) (pending_accesses t)) }
    {
        find(self.accesses.as_slice(), link, source).is_some()
    }
}

impl<const W: usize> Memory<W> {
    /// Adds to the set of each place of a block the values that accesses other than the one with this source on a link may
    /// write there.
    pub fn add_others(&self, sets: &mut [ByteSet; 64], block: u32, link: Link, source: u8)
        ensures { (n : ℕ) (t : Trace W) → KnowsMemory self.now n t → (place v : ℕ) → place < 64 → v < 256 →
            has_at sets.new place v ≡ (has_at sets.old place v
            || may_write (64 * block + place) v (all_but link.0 source (pending_accesses t)) (outrun_accesses t)) }
    {
        match self.blocks.get(block) {
            Some(state) => state.add_others(sets, link, source),
            None => BlockState::<W>::new(self.alloc).add_others(sets, link, source),
        }
    }

    /// Whether the access with this source on a link is pending, if it is to this block.
    pub fn is_pending(&self, block: u32, link: Link, source: u8) -> bool
        ensures { (n : ℕ) (t : Trace W) → KnowsMemory self.now n t →
            AnyIsTo block (find (is_of link.0 source) (pending_accesses t)) →
            result ≡ is_some (find (is_of link.0 source) (pending_accesses t)) }
    {
        match self.blocks.get(block) {
            Some(state) => state.is_pending(link, source),
            None => BlockState::<W>::new(self.alloc).is_pending(link, source),
        }
    }
}
