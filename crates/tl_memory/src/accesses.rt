//! The pending accesses to a block.

ghost use Rattle.std.specs.Box.{box_value};
ghost use Rattle.std.specs.Prelude.{◌++◌, ◌≡◌, List, find, OnOk, option_copied};
ghost use Rattle.tl_memory.specs.code.Writers.{AreRenewed, AreWatched, found_by, is_named, staying};
ghost use Rattle.tl_memory.specs.code.Writers as writers;
ghost use Rattle.tl_memory.specs.declared.pending.PendingAccess.{PendingAccess};

use crate::early::OutrunAccess;
use crate::free::Freedom;
use crate::pending::PendingAccess;
use crate::performed::is_put;
use crate::writer::Writer;
use std::alloc::{AllocError, Global};
use tl_beat::beat::Link;
use tl_bytes::block_bytes::BlockBytes;

/// The access with this source on a link.
pub fn find<const W: usize>(
    accesses: &[PendingAccess<W>],
    link: Link,
    source: u8,
) -> Option<&PendingAccess<W>>
    ensures { option_copied result ≡ find (is_named link.0 source) accesses.now }
{
    for access in accesses {
        if access.writer.asked.is_of(link, source) {
            return Some(access);
        }
    }
    None
}

/// Whether an access stays pending. `gone` is the access that ends, if one does.
fn stays<const W: usize>(access: &PendingAccess<W>, gone: Option<(Link, u8)>) -> bool
    ensures { result ≡ writers.stays gone access.now }
{
    match gone {
        None => true,
        Some((link, source)) => !access.writer.asked.is_of(link, source),
    }
}

/// Appends copies of the accesses that stay, with the bytes that they may find now by the block's freedom and bytes.
/// The error means that there is no memory left.
#[inline(always)]
pub fn append_renewed<const W: usize>(
    alloc: Global,
    copies: &mut Vec<PendingAccess<W>>,
    accesses: &[PendingAccess<W>],
    gone: Option<(Link, u8)>,
    free: Freedom,
    bytes: &BlockBytes,
    outrun: &[OutrunAccess],
) -> Result<(), AllocError>
    ensures { OnOk result ((more : List (PendingAccess W)) × (copies.new.items ≡ copies.old.items ++ more)
        × AreRenewed (found_by free bytes.now accesses.now outrun.now) (staying gone accesses.now) more) }
{
    for access in accesses {
        if stays(access, gone) {
            copies.push(access.renewed(alloc, free, bytes, accesses, outrun)?)?;
        }
    }
    Ok(())
}

/// Whether one of the accesses is no Put, and finds bytes.
pub fn has_reader<const W: usize>(accesses: &[PendingAccess<W>]) -> bool
    ensures { result ≡ writers.has_reader accesses.now }
{
    for access in accesses {
        if !is_put(access.writer.asked.request.opcode) {
            return true;
        }
    }
    false
}

/// Gives the newest access, if there is one, this writer.
pub fn grow<const W: usize>(accesses: &mut Vec<PendingAccess<W>>, writer: Box<Writer<W>>)
    ensures { accesses.new ≡ writers.grown_in (box_value writer.entry) accesses.old accesses.old.items }
{
    if let Some(newest) = accesses.get_mut(0) {
        newest.writer = Box::into_inner(writer);
    }
}

/// Adds one more beat, at this moment. `free` says whether the block is free for writing with it.
pub fn watch<const W: usize>(accesses: &mut Vec<PendingAccess<W>>, free: bool, moment: u64)
    ensures { AreWatched free moment accesses.old.items accesses.new.items }
{
    for n in 0..accesses.len() {
        accesses[n].watch(free, moment);
    }
}
