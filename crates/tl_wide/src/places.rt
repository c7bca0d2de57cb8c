//! Numbers under names, in trees by the low bits of the names.

ghost use Rattle.std.specs.Prelude.{ℕ, ◌≡◌, ◌+◌, ◌<◌, ◌≤◌, ◌==◌, ◌&&◌, bit_and, if◌then◌else◌, length, Some, None, OnOk, OnErr};
ghost use Rattle.tl_wide.specs.statement.Numbers.{place_found, place_under, tree_at};

use std::alloc::{AllocError, Global};
use std::collections::BTreeMap;

/// The tree of a name.
fn tree_of(name: u64, low: u16) -> usize
    ensures own { result ≡ bit_and name low }
    ensures below { result ≤ low }
{
    (name & u64::from(low)) as usize
}

/// Makes one more tree. The error means that there is no memory left.
fn push_tree(trees: &mut Vec<BTreeMap<u64, u32>>, alloc: Global) -> Result<(), AllocError>
    ensures same { (i : ℕ) → tree_at trees.new.items i ≡ tree_at trees.old.items i }
    ensures more { OnOk result (length trees.new.items ≡ length trees.old.items + 1) }
{
    match trees.push(BTreeMap::new(alloc)) {
        Ok(()) => Ok(()),
        Err(_) => Err(AllocError),
    }
}

/// Makes the trees of names with these low bits, if there are fewer. The error means that there is no memory left.
fn make_trees(
    trees: &mut Vec<BTreeMap<u64, u32>>,
    alloc: Global,
    low: u16,
) -> Result<(), AllocError>
    ensures same { (i : ℕ) → tree_at trees.new.items i ≡ tree_at trees.old.items i }
    ensures room { OnOk result (low < length trees.new.items) }
{
    for _ in trees.len()..usize::from(low) + 1 {
        push_tree(trees, alloc)?;
    }
    Ok(())
}

/// The number under a name in this tree.
fn find_in(trees: &Vec<BTreeMap<u64, u32>>, tree: usize, name: u64) -> Option<u32>
    ensures { result ≡ place_found (tree_at trees.now.items tree) name }
{
    match trees.get(tree) {
        None => None,
        Some(entries) => match entries.get(&name) {
            None => None,
            Some(place) => Some(*place),
        },
    }
}

/// Keeps a number under a name in a tree. The error means that there is no memory left; then no number changes.
fn insert_in(tree: &mut BTreeMap<u64, u32>, name: u64, place: u32) -> Result<(), AllocError>
    ensures same { OnErr result ((k : ℕ) → place_found tree.new.entries k ≡ place_found tree.old.entries k) }
    ensures more { OnOk result ((k : ℕ) → place_found tree.new.entries k
        ≡ (if k == name then Some place else place_found tree.old.entries k)) }
{
    match tree.insert(name, place) {
        Ok(_) => Ok(()),
        Err(_) => Err(AllocError),
    }
}

/// The same in this one of some trees.
fn insert_at(
    trees: &mut Vec<BTreeMap<u64, u32>>,
    tree: usize,
    name: u64,
    place: u32,
) -> Result<(), AllocError>
    requires { tree < length trees.old.items }
    ensures same { OnErr result ((i k : ℕ) → place_found (tree_at trees.new.items i) k
        ≡ place_found (tree_at trees.old.items i) k) }
    ensures more { OnOk result ((i k : ℕ) → place_found (tree_at trees.new.items i) k
        ≡ (if (i == tree) && (k == name) then Some place else place_found (tree_at trees.old.items i) k)) }
{
    insert_in(&mut trees[tree], name, place)
}

/// Removes the number under a name from a tree.
fn remove_in(tree: &mut BTreeMap<u64, u32>, name: u64)
    ensures { (k : ℕ) → place_found tree.new.entries k
        ≡ (if k == name then None else place_found tree.old.entries k) }
{
    let _ = tree.remove(&name);
}

/// The same from this one of some trees, if there is such a tree.
fn remove_at(trees: &mut Vec<BTreeMap<u64, u32>>, tree: usize, name: u64)
    ensures { (i k : ℕ) → place_found (tree_at trees.new.items i) k
        ≡ (if (i == tree) && (k == name) then None else place_found (tree_at trees.old.items i) k) }
{
    if tree < trees.len() {
        remove_in(&mut trees[tree], name);
    }
}

/// Numbers under names. Each is in the tree of its name's low bits, so that no tree is large.
#[derive(Drop)]
pub(crate) struct Places {
    alloc: Global,
    trees: Vec<BTreeMap<u64, u32>>,
    /// These bits, as a mask. The number of trees is one more.
    low: u16,
}

impl Places {
    /// No numbers. `low` is one less than the number of trees, a power of two.
    pub(crate) fn new(alloc: Global, low: u16) -> Self
        ensures { (k : ℕ) → place_under result k ≡ None }
    {
        Places {
            alloc,
            trees: Vec::new(alloc),
            low,
        }
    }

    /// The number under a name, if there is one.
    pub(crate) fn get(&self, name: u64) -> Option<u32>
        ensures { result ≡ place_under self.now name }
    {
        find_in(&self.trees, tree_of(name, self.low), name)
    }

    /// Keeps a number under a name. The error means that there is no memory left; then no number changes.
    pub(crate) fn insert(&mut self, name: u64, place: u32) -> Result<(), AllocError>
        ensures same { OnErr result ((k : ℕ) → place_under self.new k ≡ place_under self.old k) }
        ensures more { OnOk result ((k : ℕ) → place_under self.new k
            ≡ (if k == name then Some place else place_under self.old k)) }
    {
        make_trees(&mut self.trees, self.alloc, self.low)?;
        insert_at(&mut self.trees, tree_of(name, self.low), name, place)
    }

    /// Removes the number under a name.
    pub(crate) fn remove(&mut self, name: u64)
        ensures { (k : ℕ) → place_under self.new k ≡ (if k == name then None else place_under self.old k) }
    {
        remove_at(&mut self.trees, tree_of(name, self.low), name);
    }
}
