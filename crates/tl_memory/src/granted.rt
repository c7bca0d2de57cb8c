//! The bytes that may be granted of a block.

ghost use Rattle.std.specs.Prelude.{ℕ, Bool, ◌≡◌, IfOk};
ghost use Rattle.tl_params.specs.declared.perm.Perm.{Perm};
ghost use Rattle.tl_rules.specs.statement.Conformance.{Trace};
ghost use Rattle.tl_bytes.specs.statement.Known.{KnowsBlock, KnowsGrant, MayWrite, windowed};
ghost use Rattle.tl_memory.specs.code.Writers.{some_window, writes_windowed};
ghost use Rattle.tl_bytes.specs.statement.Early.{outrun_accesses};
ghost use Rattle.tl_memory.specs.statement.Known.{KnowsAccesses, KnowsOutrun};

use crate::early::OutrunAccess;
use crate::pending::{PendingAccess, append_outrun};
use std::alloc::{AllocError, Global};
use tl_bytes::block_bytes::BlockBytes;
use tl_bytes::read_bytes::ReadBytes;
use tl_bytes::windows::WindowCount;
use tl_bytes::write::Write;

/// Whether there was a window.
fn some_window(count: WindowCount) -> bool
    ensures { result ≡ some_window count }
{
    match count {
        WindowCount::Zero => false,
        _ => true,
    }
}

/// The writes of the accesses that have had a window. The error means that there is no memory left.
#[inline(always)]
fn writes_in_windows<const W: usize>(
    alloc: Global,
    accesses: &[PendingAccess<W>],
) -> Result<Vec<Write>, AllocError>
    ensures { IfOk result (λ writes. writes.items ≡ writes_windowed accesses.now) }
{
    let mut writes = Vec::new(alloc);
    for access in accesses {
        if some_window(access.windows.count) {
            writes.push(access.writer.write)?;
        }
    }
    Ok(writes)
}

/// The writes that may be in the bytes of a Grant of a block with these pending accesses: those of accesses that have had a
/// window, and of `outrun`, the accesses whose answers outran their requests. The error means that there is no memory left.
#[inline(always)]
pub fn grant_writes<const W: usize>(
    alloc: Global,
    accesses: &[PendingAccess<W>],
    outrun: &[OutrunAccess],
) -> Result<Vec<Write>, AllocError>
    ensures { IfOk result (λ writes. (n block : ℕ) (admits : Perm → Bool) (t : Trace W) →
        KnowsAccesses accesses.now admits n block t t → KnowsOutrun outrun.now block (outrun_accesses t) →
        MayWrite writes.items block (windowed n block t) (outrun_accesses t)) }
{
    let mut writes = writes_in_windows(alloc, accesses)?;
    append_outrun(&mut writes, outrun)?;
    Ok(writes)
}

/// The bytes that may be granted of a block with these bytes and these pending accesses; `outrun` are those whose answers
/// outran their requests. The error means that there is no memory left.
pub fn granted<const W: usize>(
    alloc: Global,
    bytes: &BlockBytes,
    accesses: &[PendingAccess<W>],
    outrun: &[OutrunAccess],
) -> Result<ReadBytes, AllocError>
    ensures { IfOk result (λ read. (n block : ℕ) (admits : Perm → Bool) (t : Trace W) → KnowsBlock bytes.now n block t →
        KnowsAccesses accesses.now admits n block t t → KnowsOutrun outrun.now block (outrun_accesses t) →
        KnowsGrant read n block t) }
{
    let writes = grant_writes(alloc, accesses, outrun)?;
    let read = ReadBytes::granted(alloc, bytes, writes.as_slice())?;
    Ok(read)
}
