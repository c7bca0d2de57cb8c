//! The states of pending accesses.

ghost use Rattle.std.specs.Prelude.{ℕ, false, ◌++◌, ◌≡◌, IfOk, OnOk};
ghost use Rattle.tl_bytes.specs.statement.Known.{may_bring};
ghost use Rattle.tl_memory.specs.code.Writers.{writes_but, writes_outrun};

use crate::early::OutrunAccess;
use crate::free::{Freedom, needs};
use crate::message::both;
use crate::performed::is_put;
use crate::writer::Writer;
use std::alloc::{AllocError, Global};
use tl_beat::beat::Link;
use tl_bytes::block_bytes::BlockBytes;
use tl_bytes::read_bytes::ReadBytes;
use tl_bytes::windows::WritingWindows;
use tl_bytes::write::Write;

/// The state of a pending access: its write, its windows for writing, and the bytes that it may have found.
#[derive(Drop)]
pub struct PendingAccess<const W: usize> {
    pub writer: Writer<W>,
    pub windows: WritingWindows,
    pub read: ReadBytes,
}

/// Appends the writes of the accesses whose answers outran their requests.
pub fn append_outrun(writes: &mut Vec<Write>, outrun: &[OutrunAccess]) -> Result<(), AllocError>
    ensures { OnOk result (writes.new.items ≡ writes.old.items ++ writes_outrun outrun.now) }
{
    for access in outrun {
        writes.push(access.write)?;
    }
    Ok(())
}

/// The writes of all accesses but the one with this source on a link, and of those whose answers outran their requests.
fn writes_of_others<const W: usize>(
    alloc: Global,
    accesses: &[PendingAccess<W>],
    outrun: &[OutrunAccess],
    link: Link,
    source: u8,
) -> Result<Vec<Write>, AllocError>
    ensures { IfOk result (λ writes. writes.items ≡ writes_but link.0 source accesses.now
        ++ writes_outrun outrun.now) }
{
    let mut writes = Vec::new(alloc);
    for access in accesses {
        if !access.writer.asked.is_of(link, source) {
            writes.push(access.writer.write)?;
        }
    }
    append_outrun(&mut writes, outrun)?;
    Ok(writes)
}

impl<const W: usize> PendingAccess<W> {
    ghost use Rattle.tl_memory.specs.code.Writers.{IsGrown, IsReading, IsRenewed, IsWatched, found_by};

    /// An access whose first beat this is, with these windows.
    pub fn new(alloc: Global, writer: &Writer<W>, windows: WritingWindows) -> Self
        ensures writer { result.writer ≡ writer.now }
        ensures windows { result.windows ≡ windows }
        ensures read { (place byte : ℕ) → may_bring result.read place byte ≡ false }
    {
        PendingAccess {
            writer: *writer,
            windows,
            read: ReadBytes::none(alloc),
        }
    }

    /// The bytes that the access may have found, and those that it may find now, if it isn't a Put and may be performed
    /// now. `free`, `bytes` and `accesses` are those of its block. The error means that there is no memory left.
    #[inline(always)]
    pub fn reading(
        &self,
        alloc: Global,
        free: Freedom,
        bytes: &BlockBytes,
        accesses: &[PendingAccess<W>],
        outrun: &[OutrunAccess],
    ) -> Result<ReadBytes, AllocError>
        ensures { IfOk result (IsReading (found_by free bytes.now accesses.now outrun.now) self.now) }
    {
        let asked = &self.writer.asked;
        let opcode = asked.request.opcode;
        let mut read = self.read.copy(alloc)?;
        if both(!is_put(opcode), free.is_open_for(needs(opcode))) {
            let writes = writes_of_others(
                alloc,
                accesses,
                outrun,
                asked.link,
                asked.request.source,
            )?;
            read.find(bytes, writes.as_slice())?;
        }
        Ok(read)
    }

    /// A copy with the bytes that the access may find now added, as `reading` finds them. The error is the same.
    #[inline(always)]
    pub fn renewed(
        &self,
        alloc: Global,
        free: Freedom,
        bytes: &BlockBytes,
        accesses: &[PendingAccess<W>],
        outrun: &[OutrunAccess],
    ) -> Result<Self, AllocError>
        ensures { IfOk result (λ pending. IsRenewed (found_by free bytes.now accesses.now outrun.now) self.now pending) }
    {
        let read = self.reading(alloc, free, bytes, accesses, outrun)?;
        Ok(PendingAccess {
            writer: self.writer,
            windows: self.windows,
            read,
        })
    }

    /// The same for an access with one more beat of its request, so that this is its writer. The error is the same.
    pub fn grown(
        &self,
        alloc: Global,
        writer: &Writer<W>,
        free: Freedom,
        bytes: &BlockBytes,
        accesses: &[PendingAccess<W>],
        outrun: &[OutrunAccess],
    ) -> Result<Self, AllocError>
        ensures { IfOk result (λ grown. IsGrown writer.now (found_by free bytes.now accesses.now outrun.now) self.now
            grown) }
    {
        let mut grown = self.renewed(alloc, free, bytes, accesses, outrun)?;
        grown.writer = *writer;
        Ok(grown)
    }

    /// Notes whether the block is free for writing with one more beat, at this moment.
    pub fn watch(&mut self, free: bool, moment: u64)
        ensures { IsWatched free moment self.old self.new }
    {
        self.windows = self.windows.after(free, moment);
    }
}
