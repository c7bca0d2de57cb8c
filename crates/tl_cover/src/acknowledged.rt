//! The granted blocks whose GrantAcks are pending.

ghost use Rattle.std.specs.Prelude.{ℕ, OnOk, false, not, ◌≡◌, ◌&&◌, ◌==◌, if◌then◌else◌};
ghost use Rattle.tl_cover.specs.code.Past.{awaits, awaits_any};

use std::alloc::AllocError;

/// A granted block, and the sink of its Grant.
#[derive(Clone, Copy)]
pub struct Awaited {
    pub block: u32,
    pub sink: u8,
}

/// Whether the GrantAck of a block is pending.
pub fn awaits_any(all: &Vec<Awaited>, block: u32) -> bool
    ensures { result ≡ awaits_any block all.now.items }
{
    all.iter().any(|awaited| awaited.block == block)
}

/// Adds a granted block with its sink, in place of any earlier sink of the block.
pub fn await_ack(all: &mut Vec<Awaited>, block: u32, sink: u8) -> Result<(), AllocError>
    ensures { OnOk result ((k s : ℕ) → awaits k s all.new.items
        ≡ (if block == k then sink == s else awaits k s all.old.items)) }
{
    all.retain(|awaited| awaited.block != block);
    all.push(Awaited { block, sink })?;
    Ok(())
}

/// Removes the blocks whose Grants have this sink.
pub fn acknowledge(all: &mut Vec<Awaited>, sink: u8)
    ensures { (k s : ℕ) → awaits k s all.new.items ≡ (awaits k s all.old.items && not (sink == s)) }
{
    all.retain(|awaited| awaited.sink != sink);
}
