//! A table of blocks: the pending transfers and the permission held of each.

ghost use Rattle.std.specs.Prelude.{ℕ, List, [], Some, None, length, slice_index_or, IfOk, OnOk};
ghost use Rattle.std.specs.Prelude.{OnErr, if◌then◌else◌, ◌==◌, ◌≡◌, ◌<◌, ◌≤◌, ◌^◌, ◌*◌};
ghost use Rattle.std.specs.Option.{option_copied};
ghost use Rattle.tl_rules.specs.declared.table.Block.{Block};
ghost use Rattle.tl_rules.specs.code.Tables.{empty_block};
ghost use Rattle.tl_monitor.specs.statement.Count.{sum_below};
ghost use Rattle.tl_monitor.specs.code.Blocks.{block_or_empty, block_in, entries_of, open_of, tree_of};
ghost use Rattle.tl_monitor.specs.statement.Numbers.{is_held};
ghost use Rattle.tl_monitor.specs.code.Blocks.{value_found, value_in, with_seen, with_value, AllOpen, AreOpen, IsSeen, IsValue};

use std::alloc::{AllocError, Global};
use std::array;
use std::collections::BTreeMap;
use std::marker::Model;
use tl_rules::perm::Perm;
use tl_rules::table::Block;

/// The number of trees that keep the blocks, by the low bits of their numbers.
const TREES: usize = 1024;

/// An empty block: None is held, and no transfer is pending.
pub const EMPTY: Block = Block {
    held: Perm::None,
    acquire: false,
    release: false,
    probe: None,
    grant: None,
};

/// An empty block, to refer to.
static NOTHING: Block = EMPTY;

fn is_held(perm: Perm) -> bool
    ensures { result ≡ is_held perm }
{
    perm != Perm::None
}

/// The number of pending keys of a block, and one more unless None is held.
pub fn open_of(block: &Block) -> usize
    ensures counted { result ≡ open_of block.now }
    ensures few { result ≤ 5 }
{
    usize::from(is_held(block.held))
        + usize::from(block.acquire)
        + usize::from(block.release)
        + usize::from(block.probe.is_some())
        + usize::from(block.grant.is_some())
}

/// The block that a look-up found, or an empty one.
#[inline(always)]
fn or_empty(found: Option<&Block>) -> &Block
    ensures { result.now ≡ block_or_empty (option_copied found.entry) }
{
    match found {
        None => &NOTHING,
        Some(block) => block,
    }
}

/// Trees without blocks.
fn new_trees(alloc: Global) -> [BTreeMap<u32, Block>; TREES]
    ensures empty { (i : ℕ) → slice_index_or (entries_of result) i [] ≡ [] }
    ensures long { length result ≡ 1024 }
{
    array::from_fn(
        |_|
            ensures { result.entries ≡ [] }
        { BTreeMap::new(alloc) },
    )
}

/// The tree of a block.
fn tree_of(block: u32) -> usize
    ensures own { result ≡ tree_of block }
    ensures below { result < 1024 }
{
    block as usize % TREES
}

/// Writes the state of a block, if there is one, to its entry in the tree, if there is one.
fn store(tree: &mut BTreeMap<u32, Block>, block: u32, seen: Option<Block>)
    ensures { tree.new.entries ≡ with_value tree.old.entries block seen }
{
    if let Some(value) = seen {
        if let Some(stored) = tree.get_mut(&block) {
            *stored = value;
        }
    }
}

/// Writes the state of the block `last`, and looks up another.
fn seek(
    trees: &mut [BTreeMap<u32, Block>; TREES],
    last: u32,
    seen: Option<Block>,
    block: u32,
) -> Option<Block>
    requires stands { IsSeen (entries_of trees.old) last seen }
    requires open { AreOpen (entries_of trees.old) }
    ensures same { with_seen (entries_of trees.new) block result ≡ with_seen (entries_of trees.old) last seen }
    ensures stands { IsSeen (entries_of trees.new) block result }
    ensures open { AreOpen (entries_of trees.new) }
    ensures long { length trees.new ≡ 1024 }
{
    store(&mut trees[tree_of(last)], last, seen);
    trees[tree_of(block)].get(&block).copied()
}

/// The state of a block. It searches only if this isn't the block `last`, whose state is `seen`.
fn turn(
    trees: &mut [BTreeMap<u32, Block>; TREES],
    last: u32,
    seen: Option<Block>,
    block: u32,
) -> Option<Block>
    requires stands { IsSeen (entries_of trees.old) last seen }
    requires open { AreOpen (entries_of trees.old) }
    ensures same { with_seen (entries_of trees.new) block result ≡ with_seen (entries_of trees.old) last seen }
    ensures stands { IsSeen (entries_of trees.new) block result }
    ensures open { AreOpen (entries_of trees.new) }
    ensures long { length trees.new ≡ 1024 }
{
    if block == last {
        seen
    } else {
        seek(trees, last, seen, block)
    }
}

/// Makes an entry for a block that isn't empty now, and removes the entry of one that is. Returns its state then. The
/// error means that there is no memory left.
fn make_room_in(
    tree: &mut BTreeMap<u32, Block>,
    block: u32,
    seen: Option<Block>,
    value: Block,
) -> Result<Option<Block>, AllocError>
    requires stands { IsValue tree.old.entries block seen }
    requires open { AllOpen tree.old.entries }
    ensures changed { IfOk result (λ new. (k : ℕ) → value_in (with_value tree.new.entries block new) k
        ≡ (if k == block then value else value_in tree.old.entries k)) }
    ensures stands { IfOk result (λ new. IsValue tree.new.entries block new) }
    ensures open { AllOpen tree.new.entries }
    ensures unchanged { OnErr result (tree.new.entries ≡ tree.old.entries) }
    ensures new { OnErr result ((seen ≡ None) × (0 < open_of value)) }
{
    if open_of(&value) == 0 {
        tree.remove(&block);
        return Ok(None);
    }
    match seen {
        Some(_) => Ok(Some(value)),
        None => match tree.insert(block, value) {
            Ok(_) => Ok(Some(value)),
            Err(_) => Err(AllocError),
        },
    }
}

/// The same for all trees.
fn make_room(
    trees: &mut [BTreeMap<u32, Block>; TREES],
    block: u32,
    seen: Option<Block>,
    value: Block,
) -> Result<Option<Block>, AllocError>
    requires stands { IsSeen (entries_of trees.old) block seen }
    requires open { AreOpen (entries_of trees.old) }
    ensures changed { IfOk result (λ new. (k : ℕ) → block_in (with_seen (entries_of trees.new) block new) k
        ≡ (if k == block then value else block_in (entries_of trees.old) k)) }
    ensures stands { IfOk result (λ new. IsSeen (entries_of trees.new) block new) }
    ensures open { AreOpen (entries_of trees.new) }
    ensures long { length trees.new ≡ 1024 }
    ensures unchanged { OnErr result (entries_of trees.new ≡ entries_of trees.old) }
    ensures new { OnErr result ((seen ≡ None) × (0 < open_of value)) }
{
    make_room_in(&mut trees[tree_of(block)], block, seen, value)
}

/// Stores a block in its tree. The error means that there is no memory left; then nothing changes.
fn insert_in(tree: &mut BTreeMap<u32, Block>, block: u32, value: Block) -> Result<(), AllocError>
    requires some { 0 < open_of value }
    requires open { AllOpen tree.old.entries }
    ensures changed { OnOk result ((k : ℕ) → value_found tree.new.entries k
        ≡ (if k == block then Some value else value_found tree.old.entries k)) }
    ensures open { AllOpen tree.new.entries }
    ensures unchanged { OnErr result (tree.new.entries ≡ tree.old.entries) }
{
    match tree.insert(block, value) {
        Ok(_) => Ok(()),
        Err(_) => Err(AllocError),
    }
}

/// The same for all trees. `seen` is the state of the block `last`. Returns the state of `block` then.
fn insert(
    trees: &mut [BTreeMap<u32, Block>; TREES],
    last: u32,
    seen: Option<Block>,
    block: u32,
    value: Block,
) -> Result<Option<Block>, AllocError>
    requires stands { IsSeen (entries_of trees.old) last seen }
    requires open { AreOpen (entries_of trees.old) }
    requires some { 0 < open_of value }
    ensures changed { IfOk result (λ new. (k : ℕ) → block_in (with_seen (entries_of trees.new) last new) k
        ≡ (if k == block then value else block_in (with_seen (entries_of trees.old) last seen) k)) }
    ensures stands { IfOk result (λ new. IsSeen (entries_of trees.new) last new) }
    ensures open { AreOpen (entries_of trees.new) }
    ensures long { length trees.new ≡ 1024 }
    ensures unchanged { OnErr result (entries_of trees.new ≡ entries_of trees.old) }
{
    insert_in(&mut trees[tree_of(block)], block, value)?;
    if block == last {
        return Ok(Some(value));
    }
    Ok(seen)
}

/// The states of blocks. Empty blocks aren't kept. A contract sees the trees, each with the blocks that aren't empty,
/// in rising order, and with their numbers. The block of a beat is looked up once, however often the rules ask for it,
/// and written once, when the next one is looked up.
#[derive(Drop)]
pub struct Blocks {
    trees: [BTreeMap<u32, Block>; TREES],
    len: usize,
    /// The block that was looked up or changed last.
    last: u32,
    /// Its state, unless it is empty. The map then has an entry for it, perhaps with an earlier state.
    seen: Option<Block>,
}

impl Model for Blocks {
    ghost Value = { List (List (ℕ × Block)) };

    ghost view = { λ b. with_seen (entries_of b.trees) b.last b.seen };

    ghost invariant = { λ b. (b.len
        ≡ sum_below (2 ^ 32) (λ k. open_of (block_in (with_seen (entries_of b.trees) b.last b.seen) k)))
        × AreOpen (entries_of b.trees)
        × IsSeen (entries_of b.trees) b.last b.seen
        × (length b.trees ≡ 1024) };
}

impl Blocks {
    /// A table of empty blocks.
    pub fn new(alloc: Global) -> Self
        ensures { (k : ℕ) → block_in result k ≡ empty_block }
    {
        Blocks {
            trees: new_trees(alloc),
            len: 0,
            last: 0,
            seen: None,
        }
    }

    /// The state of a block.
    pub fn get(&self, block: u32) -> &Block
        ensures { result.now ≡ block_in self.now block }
    {
        if block == self.last {
            or_empty(self.seen.as_ref())
        } else {
            or_empty(self.trees[tree_of(block)].get(&block))
        }
    }

    /// Looks a block up, so that `get` of it doesn't search.
    pub fn cache_block(&mut self, block: u32)
        ensures { self.new ≡ self.old }
    {
        self.seen = turn(&mut self.trees, self.last, self.seen, block);
        self.last = block;
    }

    /// Sets the state of a block. The error means that there is no memory left. Then nothing changes; the block was
    /// empty, and would not be empty any more.
    pub fn set(&mut self, block: u32, value: Block) -> Result<(), AllocError>
        ensures changed { OnOk result ((k : ℕ) →
            block_in self.new k ≡ (if k == block then value else block_in self.old k)) }
        ensures unchanged { OnErr result (self.new ≡ self.old) }
        ensures new { OnErr result ((block_in self.old block ≡ empty_block) × (0 < open_of value)) }
    {
        let old = turn(&mut self.trees, self.last, self.seen, block);
        self.last = block;
        self.seen = old;
        self.seen = make_room(&mut self.trees, block, old, value)?;
        self.len = self.len - open_of(or_empty(old.as_ref())) + open_of(&value);
        Ok(())
    }

    /// Sets the state of an empty block, without a search for it. The error means that there is no memory left; then
    /// nothing changes.
    pub fn add(&mut self, block: u32, value: Block) -> Result<(), AllocError>
        requires { block_in self.old block ≡ empty_block }
        ensures changed { OnOk result ((k : ℕ) →
            block_in self.new k ≡ (if k == block then value else block_in self.old k)) }
        ensures unchanged { OnErr result (self.new ≡ self.old) }
    {
        let open = open_of(&value);
        if open == 0 {
            return Ok(());
        }
        self.seen = insert(&mut self.trees, self.last, self.seen, block, value)?;
        self.len += open;
        Ok(())
    }

    /// The number of pending keys of blocks, and of blocks held.
    pub fn len(&self) -> usize
        ensures counted { result ≡ sum_below (2 ^ 32) (λ k. open_of (block_in self.now k)) }
        ensures few { result ≤ 5 * 2 ^ 32 }
    {
        self.len
    }
}
