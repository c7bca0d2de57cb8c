//! Values of blocks, in trees by the low bits of the blocks' numbers.

ghost use Rattle.std.specs.Prelude.{ℕ, List, Some, ◌≡◌, ◌==◌, ◌&&◌, ◌+◌, ◌<◌, ◌≤◌, ◌%◌, if◌then◌else◌, length, None};
ghost use Rattle.std.specs.Prelude.{OnErr, OnOk};
ghost use Rattle.tl_memory.specs.code.BlockMap.{replaced, tree_at, trees_in};
ghost use Rattle.tl_memory.specs.statement.BlockMap.{found_in, value_in};

use std::alloc::{AllocError, Global};
use std::collections::BTreeMap;
use std::marker::Model;

/// The number of trees.
const TREES: usize = 1024;

/// The tree of a block.
fn tree_of(block: u32) -> usize
    ensures own { result ≡ block % 1024 }
    ensures below { result < 1024 }
{
    block as usize % TREES
}

/// Makes one more tree. The error means that there is no memory left.
fn push_tree<V: Copy>(trees: &mut Vec<BTreeMap<u32, V>>, alloc: Global) -> Result<(), AllocError>
    ensures same { (i : ℕ) → tree_at trees.new.items i ≡ tree_at trees.old.items i }
    ensures more { OnOk result (length trees.new.items ≡ length trees.old.items + 1) }
{
    match trees.push(BTreeMap::new(alloc)) {
        Ok(()) => Ok(()),
        Err(_) => Err(AllocError),
    }
}

/// Makes the trees that there aren't yet. The error means that there is no memory left.
fn make_trees<V: Copy>(trees: &mut Vec<BTreeMap<u32, V>>, alloc: Global) -> Result<(), AllocError>
    ensures same { (i : ℕ) → tree_at trees.new.items i ≡ tree_at trees.old.items i }
    ensures room { OnOk result (1024 ≤ length trees.new.items) }
{
    for _ in trees.len()..TREES {
        push_tree(trees, alloc)?;
    }
    Ok(())
}

/// The value of a block in this tree.
fn find_in<V: Copy>(trees: &Vec<BTreeMap<u32, V>>, tree: usize, block: u32) -> Option<V>
    ensures { result ≡ found_in (tree_at trees.now.items tree) block }
{
    match trees.get(tree) {
        None => None,
        Some(entries) => match entries.get(&block) {
            None => None,
            Some(value) => Some(*value),
        },
    }
}

/// Keeps the value of a block in a tree. The error means that there is no memory left; then nothing changes.
fn insert_in<V: Copy>(tree: &mut BTreeMap<u32, V>, block: u32, value: V) -> Result<(), AllocError>
    ensures same { OnErr result (tree.new.entries ≡ tree.old.entries) }
    ensures kept { OnOk result ((k : ℕ) → found_in tree.new.entries k
        ≡ (if k == block then Some value else found_in tree.old.entries k)) }
{
    match tree.insert(block, value) {
        Ok(_) => Ok(()),
        Err(_) => Err(AllocError),
    }
}

/// The same in this one of some trees.
fn insert_at<V: Copy>(
    trees: &mut Vec<BTreeMap<u32, V>>,
    tree: usize,
    block: u32,
    value: V,
) -> Result<(), AllocError>
    requires { tree < length trees.old.items }
    ensures same { OnErr result ((i : ℕ) → tree_at trees.new.items i ≡ tree_at trees.old.items i) }
    ensures kept { OnOk result ((i k : ℕ) → found_in (tree_at trees.new.items i) k
        ≡ (if (i == tree) && (k == block) then Some value else found_in (tree_at trees.old.items i) k)) }
{
    insert_in(&mut trees[tree], block, value)
}

/// Replaces the value of a block in a tree, if it has one.
fn replace_in<V: Copy>(tree: &mut BTreeMap<u32, V>, block: u32, value: V)
    ensures { (k : ℕ) → found_in tree.new.entries k
        ≡ (if k == block then replaced value (found_in tree.old.entries k) else found_in tree.old.entries k) }
{
    if let Some(stored) = tree.get_mut(&block) {
        *stored = value;
    }
}

/// The same in this one of some trees, if there is such a tree.
fn replace_at<V: Copy>(trees: &mut Vec<BTreeMap<u32, V>>, tree: usize, block: u32, value: V)
    ensures { (i k : ℕ) → found_in (tree_at trees.new.items i) k
        ≡ (if (i == tree) && (k == block) then replaced value (found_in (tree_at trees.old.items i) k)
        else found_in (tree_at trees.old.items i) k) }
{
    if tree < trees.len() {
        replace_in(&mut trees[tree], block, value);
    }
}

/// Values of blocks. Each is in the tree of its block's low bits, so that no tree is large. A contract sees the entries of
/// each tree, in rising order; a tree that isn't made yet has none.
#[derive(Drop)]
pub struct BlockMap<V> {
    alloc: Global,
    /// The trees, which are made when a first value is kept.
    trees: Vec<BTreeMap<u32, V>>,
}

impl<V> Model for BlockMap<V> {
    ghost Value = { List (List (ℕ × V)) };

    ghost view = { λ m. trees_in m.trees.items };
}

impl<V: Copy> BlockMap<V> {
    /// No value of any block.
    pub fn new(alloc: Global) -> Self
        ensures { (k : ℕ) → value_in result k ≡ None }
    {
        BlockMap {
            alloc,
            trees: Vec::new(alloc),
        }
    }

    /// The value of a block, if it has one.
    pub fn get(&self, block: u32) -> Option<V>
        ensures { result ≡ value_in self.now block }
    {
        find_in(&self.trees, tree_of(block), block)
    }

    /// Keeps the value of a block. The error means that there is no memory left; then nothing changes.
    pub fn insert(&mut self, block: u32, value: V) -> Result<(), AllocError>
        ensures unchanged { OnErr result (self.new ≡ self.old) }
        ensures kept { OnOk result ((k : ℕ) → value_in self.new k
            ≡ (if k == block then Some value else value_in self.old k)) }
    {
        make_trees(&mut self.trees, self.alloc)?;
        insert_at(&mut self.trees, tree_of(block), block, value)
    }

    /// Replaces the value of a block, if it has one.
    pub fn replace(&mut self, block: u32, value: V)
        ensures { (k : ℕ) → value_in self.new k
            ≡ (if k == block then replaced value (value_in self.old k) else value_in self.old k) }
    {
        replace_at(&mut self.trees, tree_of(block), block, value);
    }
}
