//! The blocks that have a pending message, as a list.

ghost use Rattle.std.specs.Prelude.{ℕ, OnOk, false, ◌≡◌, ◌==◌};
ghost use Rattle.tl_cover.specs.code.Past.{has, is_of, turned};

use std::alloc::AllocError;

/// Whether the list has a block.
pub fn has(blocks: &Vec<u32>, block: u32) -> bool
    ensures { result ≡ has block blocks.now.items }
{
    blocks.iter().any(|other| *other == block)
}

/// Removes a block.
fn remove(blocks: &mut Vec<u32>, block: u32)
    ensures { (k : ℕ) → has k blocks.new.items ≡ turned false (block == k) (has k blocks.old.items) }
{
    blocks.retain(|other| *other != block);
}

/// Removes the block whose message is answered, if there is one, and adds the block whose message begins.
pub fn turn(
    blocks: &mut Vec<u32>,
    opened: Option<u32>,
    closed: Option<u32>,
) -> Result<(), AllocError>
    ensures { OnOk result ((k : ℕ) → has k blocks.new.items
        ≡ turned (is_of k opened) (is_of k closed) (has k blocks.old.items)) }
{
    if let Some(block) = closed {
        remove(blocks, block);
    }
    if let Some(block) = opened {
        blocks.push(block)?;
    }
    Ok(())
}
