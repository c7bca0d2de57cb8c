//! The change that a beat makes to the state of a block.

ghost use Rattle.std.specs.Box.{box_value};
ghost use Rattle.std.specs.Prelude.{◌≡◌, option_map, unwrap_or};
ghost use Rattle.tl_memory.specs.code.Taking.{next_accesses, put_next};

use crate::accesses::grow;
use crate::block::BlockState;
use crate::boxed::BoxedList;
use crate::early::OutrunAccess;
use crate::pending::PendingAccess;
use crate::writer::Writer;
use tl_bytes::block_bytes::BlockBytes;

/// The change that a beat makes to the pending accesses to a block.
#[derive(Drop)]
pub enum NextAccesses<const W: usize> {
    /// None.
    Same,
    /// The request of the newest access has one more beat, and the access this writer.
    Grown(Box<Writer<W>>),
    /// The accesses are these.
    Renewed(Vec<PendingAccess<W>>),
}

/// The change that a beat makes to the state of a block: its bytes, if the beat changes them, the pending accesses, and
/// those whose answers outran their requests, if the beat changes them. The bytes are on the heap, since the change is
/// moved often.
#[derive(Drop)]
pub struct NextState<const W: usize> {
    pub(crate) bytes: Option<Box<BlockBytes>>,
    pub(crate) accesses: NextAccesses<W>,
    pub(crate) outrun: Option<BoxedList<OutrunAccess>>,
}

impl<const W: usize> BlockState<W> {
    /// Puts these bytes, if there are any.
    fn put_bytes(&mut self, bytes: Option<Box<BlockBytes>>)
        ensures bytes { self.new.bytes ≡ unwrap_or (option_map box_value bytes) self.old.bytes }
        ensures accesses { self.new.accesses ≡ self.old.accesses }
        ensures outrun { self.new.outrun ≡ self.old.outrun }
        ensures free { self.new.free ≡ self.old.free }
        ensures last_free { self.new.last_free ≡ self.old.last_free }
    {
        if let Some(bytes) = bytes {
            self.bytes = Box::into_inner(bytes);
        }
    }

    /// Makes this change to the pending accesses.
    fn put_accesses(&mut self, accesses: NextAccesses<W>)
        ensures bytes { self.new.bytes ≡ self.old.bytes }
        ensures accesses { self.new.accesses ≡ next_accesses self.old.accesses accesses.entry }
        ensures outrun { self.new.outrun ≡ self.old.outrun }
        ensures free { self.new.free ≡ self.old.free }
        ensures last_free { self.new.last_free ≡ self.old.last_free }
    {
        match accesses {
            NextAccesses::Same => {}
            NextAccesses::Grown(writer) => grow(&mut self.accesses, writer),
            NextAccesses::Renewed(renewed) => self.accesses = renewed,
        }
    }

    /// Puts these accesses whose answers outran their requests, if there are any.
    fn put_outrun(&mut self, outrun: Option<BoxedList<OutrunAccess>>)
        ensures bytes { self.new.bytes ≡ self.old.bytes }
        ensures accesses { self.new.accesses ≡ self.old.accesses }
        ensures outrun { self.new.outrun ≡ unwrap_or outrun self.old.outrun }
        ensures free { self.new.free ≡ self.old.free }
        ensures last_free { self.new.last_free ≡ self.old.last_free }
    {
        if let Some(outrun) = outrun {
            self.outrun = outrun;
        }
    }

    /// Makes the change of a beat, if there is one.
    pub(crate) fn put(&mut self, next: Option<NextState<W>>)
        ensures { self.new ≡ put_next self.old next.entry }
    {
        if let Some(
            NextState {
                bytes,
                accesses,
                outrun,
            },
        ) = next
        {
            self.put_bytes(bytes);
            self.put_outrun(outrun);
            self.put_accesses(accesses);
            self.free.shown = false;
        }
    }
}
