//! The state of a block.

ghost use Rattle.std.specs.Prelude.{ℕ, suc, true, false, not, None, [], ◌∷◌, ◌≡◌, ◌&&◌, ◌-◌, length, find, IfOk};
ghost use Rattle.std.specs.Box.{box_value};
ghost use Rattle.std.specs.Prelude.{if◌then◌else◌, filter, option_map, unwrap_or};
ghost use Rattle.tl_beat.specs.declared.beat.Beat.{Beat};
ghost use Rattle.tl_beat.specs.declared.beat.Beat.TheVariants as beat;
ghost use Rattle.tl_beat.specs.declared.beat.BeatD.{BeatD};
ghost use Rattle.tl_beat.specs.declared.beat.Link.{Link};
ghost use Rattle.tl_beat.specs.declared.channel.Channel.TheVariants as channel;
ghost use Rattle.tl_beat.specs.statement.Width.{IsWidth};
ghost use Rattle.tl_burst.specs.statement.Messages.{unfinished};
ghost use Rattle.tl_params.specs.declared.perm.Perm.{Perm};
ghost use Rattle.tl_rules.specs.statement.Conformance.{Trace, on_link};
ghost use Rattle.tl_bytes.specs.statement.Bytes.{ends_request, is_of, pending_accesses, tells};
ghost use Rattle.tl_bytes.specs.statement.Free.{is_free};
ghost use Rattle.tl_bytes.specs.statement.Known.{AreCarried, KnowsBlock, KnowsGrant, NoneSettled};
ghost use Rattle.tl_memory.specs.code.Elsewhere.{IsElsewhere};
ghost use Rattle.tl_memory.specs.code.Writers.{AreRenewed, found_by, keeps, staying};
ghost use Rattle.tl_bytes.specs.statement.Known.{tellings_of};
ghost use Rattle.tl_bytes.specs.statement.Lines.{told_moment};

use crate::accesses::{append_renewed, find, has_reader, watch};
use crate::boxed::BoxedList;
use crate::early::OutrunAccess;
use crate::expected::Expected;
use crate::free::Freedom;
use crate::granted::{grant_writes, granted};
use crate::message::CarriedMessage;
use crate::next_state::{NextAccesses, NextState};
use crate::pending::PendingAccess;
use crate::writer::{Writer, written};
use std::alloc::{AllocError, Global};
use tl_beat::beat::{Beat, BeatD, Link};
use tl_beat::opcode::OpA;
use tl_bytes::block_bytes::BlockBytes;
use tl_bytes::known_bytes::KnownBytes;
use tl_bytes::read_bytes::ReadBytes;
use tl_bytes::windows::WritingWindows;
use tl_bytes::write::Write;

/// The state of a block: the possible values of its bytes, the pending accesses to it, the newest first, and whether it
/// is free. Before that changes, each access gets the bytes that it may find.
#[derive(Drop)]
pub struct BlockState<const W: usize> {
    pub(crate) bytes: BlockBytes,
    pub(crate) accesses: Vec<PendingAccess<W>>,
    /// The accesses whose answers began before their requests were complete, until both are complete.
    pub(crate) outrun: BoxedList<OutrunAccess>,
    pub(crate) free: Freedom,
    /// The last moment at which it was free for writing, if it isn't now.
    pub(crate) last_free: u64,
}

/// The last moment at which a block was free, if it isn't free with one more beat, at this moment.
fn last_free(was: bool, free: bool, last: u64, moment: u64) -> u64
    ensures { result ≡ (if was && not free then moment - 1 else last) }
{
    if was && !free {
        moment.saturating_sub(1)
    } else {
        last
    }
}

impl<const W: usize> BlockState<W> {
    ghost use Rattle.tl_memory.specs.code.Taking.{IsNext, next_accesses, with_next};
    ghost use Rattle.tl_memory.specs.statement.Known.{AnyIsTo, Expects, HasRoom, IsNoPut, KnowsMessage};
    ghost use Rattle.tl_memory.specs.statement.Expecting.{ExpectsAgain};
    ghost use Rattle.tl_memory.specs.statement.Known.{AllWriteInside, KnowsState, KnowsUnseen, free_for, freedom};
    ghost use Rattle.tl_bytes.specs.statement.Early.{outrun_accesses};
    ghost use Rattle.tl_memory.specs.code.Elsewhere.{LeavesOutrun};
    ghost use Rattle.tl_memory.specs.statement.Known.{KnowsOutrun, is_to};
    ghost use Rattle.tl_bytes.specs.statement.Known.{MayWrite, windowed};

    /// A block before the trace: its bytes may have any value, no access to it is pending, and it is free.
    pub fn new(alloc: Global) -> Self
        ensures { (n block : ℕ) → KnowsState result n block [] }
    {
        BlockState {
            bytes: BlockBytes::new(alloc),
            accesses: Vec::new(alloc),
            outrun: BoxedList::new(),
            free: Freedom {
                reading: true,
                writing: true,
                shown: false,
            },
            last_free: 0,
        }
    }

    /// Whether the block is free for reading and for writing.
    pub fn freedom(&self) -> Freedom
        ensures { (n block : ℕ) (t : Trace W) → KnowsState self.now n block t →
            (given : Perm) → free_for result given ≡ is_free n given block t }
    {
        self.free
    }

    /// The number of beats before the one that made this value of the byte at a place possible, if it still is.
    pub fn told_at(&self, place: u8, byte: u8) -> Option<u64>
        ensures { result ≡ told_moment byte (tellings_of self.now.bytes place) }
    {
        self.bytes.told_at(place, byte)
    }

    /// The bytes that may be granted. The error means that there is no memory left.
    pub fn granted(&self, alloc: Global) -> Result<ReadBytes, AllocError>
        ensures { IfOk result (λ read. (n block : ℕ) (t : Trace W) → KnowsState self.now n block t →
            KnowsGrant read n block t) }
    {
        granted(
            alloc,
            &self.bytes,
            self.accesses.as_slice(),
            self.outrun.as_slice(),
        )
    }

    /// The writes of accesses that may be in the bytes of a Grant. The error means that there is no memory left.
    pub fn grant_writes(&self, alloc: Global) -> Result<Vec<Write>, AllocError>
        ensures { IfOk result (λ writes. (n block : ℕ) (t : Trace W) → KnowsState self.now n block t →
            MayWrite writes.items block (windowed n block t) (outrun_accesses t)) }
    {
        grant_writes(alloc, self.accesses.as_slice(), self.outrun.as_slice())
    }

    /// The bytes that the answer to the pending access with this source on a link, which is no Put, may bring now. The
    /// error means that there is no memory left.
    pub fn read(
        &self,
        alloc: Global,
        link: Link,
        source: u8,
    ) -> Result<Option<Box<Expected>>, AllocError>
        ensures { IfOk result (λ expected. (n block : ℕ) (t : Trace W) → KnowsState self.now n block t →
            AnyIsTo block (find (is_of link.0 source) (pending_accesses t)) →
            IsNoPut (find (is_of link.0 source) (pending_accesses t)) →
            Expects (option_map box_value expected) n block (find (is_of link.0 source) (pending_accesses t)) t) }
    {
        let accesses = self.accesses.as_slice();
        let Some(access) = find(accesses, link, source) else {
            return Ok(None);
        };
        let bytes = access.reading(
            alloc,
            self.free,
            &self.bytes,
            accesses,
            self.outrun.as_slice(),
        )?;
        let expected = Expected {
            address: access.writer.asked.request.address,
            size: access.writer.asked.request.size,
            bytes,
        };
        Ok(Some(Box::new(alloc, expected)?))
    }

    /// The same if the access is a Get, and none if it isn't. The error means that there is no memory left.
    pub fn read_again(
        &self,
        alloc: Global,
        link: Link,
        source: u8,
    ) -> Result<Option<Box<Expected>>, AllocError>
        ensures { IfOk result (λ expected. (n block : ℕ) (t : Trace W) → KnowsState self.now n block t →
            AnyIsTo block (find (is_of link.0 source) (pending_accesses t)) →
            ExpectsAgain (option_map box_value expected) n (find (is_of link.0 source) (pending_accesses t)) t) }
    {
        let Some(access) = find(self.accesses.as_slice(), link, source) else {
            return Ok(None);
        };
        if access.writer.asked.request.opcode != OpA::Get {
            return Ok(None);
        }
        self.read(alloc, link, source)
    }

    /// Copies of the pending accesses, with the bytes that they may find now. `gone` is the access that ends, if one
    /// does.
    fn renewed(
        &self,
        alloc: Global,
        gone: Option<(Link, u8)>,
    ) -> Result<Vec<PendingAccess<W>>, AllocError>
        ensures { IfOk result (λ copies. AreRenewed (found_by self.now.free self.now.bytes self.now.accesses.items
            self.now.outrun)
            (staying gone self.now.accesses.items) copies.items) }
    {
        let mut copies = Vec::new(alloc);
        append_renewed(
            alloc,
            &mut copies,
            self.accesses.as_slice(),
            gone,
            self.free,
            &self.bytes,
            self.outrun.as_slice(),
        )?;
        Ok(copies)
    }

    /// The change to the pending accesses: copies with the bytes that they may find now, or none if no access is gone and
    /// all are Puts, which find no bytes. `gone` is the access that ends, if one does.
    fn next_accesses(
        &self,
        alloc: Global,
        gone: Option<(Link, u8)>,
    ) -> Result<NextAccesses<W>, AllocError>
        ensures { IfOk result (λ next. AreRenewed (found_by self.now.free self.now.bytes self.now.accesses.items
            self.now.outrun)
            (staying gone self.now.accesses.items) (next_accesses self.now.accesses next).items) }
    {
        match gone {
            None if !has_reader(self.accesses.as_slice()) => Ok(NextAccesses::Same),
            _ => Ok(NextAccesses::Renewed(self.renewed(alloc, gone)?)),
        }
    }

    /// The change by a beat that sets these bytes, if there are any. `gone` is the access that ends, if one does.
    #[inline(always)]
    pub(crate) fn with_bytes(
        &self,
        alloc: Global,
        bytes: Option<Box<BlockBytes>>,
        outrun: Option<BoxedList<OutrunAccess>>,
        gone: Option<(Link, u8)>,
    ) -> Result<NextState<W>, AllocError>
        ensures { IfOk result (λ next. (n block : ℕ) (x : Link × Beat W) (t : Trace W) →
            KnowsState self.now n block t →
            KnowsBlock (unwrap_or (option_map box_value bytes) self.now.bytes) n block (x ∷ t) →
            filter (is_to block) (pending_accesses (x ∷ t))
            ≡ filter (keeps gone) (filter (is_to block) (pending_accesses t)) →
            AllWriteInside (pending_accesses (x ∷ t)) →
            KnowsOutrun (unwrap_or outrun self.now.outrun) block (outrun_accesses (x ∷ t)) →
            KnowsUnseen (with_next self.now next) n block x t) }
    {
        let accesses = self.next_accesses(alloc, gone)?;
        Ok(NextState {
            bytes,
            accesses,
            outrun,
        })
    }

    /// The change by a beat that changes at most whether the block is free. The error means that there is no memory
    /// left.
    pub fn passed(&self, alloc: Global) -> Result<NextState<W>, AllocError>
        ensures { IfOk result (λ next. (n block : ℕ) (x : Link × Beat W) (t : Trace W) →
            KnowsState self.now n block t → IsElsewhere block x t →
            KnowsUnseen (with_next self.now next) n block x t) }
    {
        self.with_bytes(alloc, None, None, None)
    }

    /// The change by a beat that sets these bytes; `moment` is the number of beats before it. The error means that
    /// there is no memory left, or that `moment` is 2^64 - 1.
    pub fn told(
        &self,
        alloc: Global,
        values: &KnownBytes,
        moment: u64,
    ) -> Result<NextState<W>, AllocError>
        ensures { IfOk result (λ next. (n block : ℕ) (x : Link × Beat W) (t : Trace W) →
            KnowsState self.now n block t → tells block x.1 (on_link x.0.0 t) ≡ true →
            pending_accesses (x ∷ t) ≡ pending_accesses t → LeavesOutrun block x t → moment ≡ length t → AreCarried values.now x t →
            KnowsUnseen (with_next self.now next) n block x t) }
    {
        let told = BlockBytes::told(alloc, values, moment)?;
        let bytes = Box::new(alloc, told)?;
        self.with_bytes(alloc, Some(bytes), None, None)
    }

    /// The bytes after a beat that completes the answer to an access, if it changes them. `moment` is the number of
    /// beats before it, `brought` are the bytes of the answer's beats before it.
    fn bytes_answered(
        &self,
        alloc: Global,
        link: Link,
        y: &BeatD<W>,
        brought: &CarriedMessage,
        moment: u64,
    ) -> Result<Option<Box<BlockBytes>>, AllocError>
        requires { IsWidth W }
        ensures { IfOk result (λ bytes. (n block : ℕ) (t : Trace W) →
            KnowsState self.now n block t → tells block (beat.D y.now) (on_link link.0 t) ≡ false →
            ends_request y.now (on_link link.0 t) ≡ true →
            AnyIsTo block (find (is_of link.0 y.now.source) (pending_accesses t)) →
            NoneSettled block (link, beat.D y.now) t →
            KnowsMessage brought.now (unfinished channel.D (on_link link.0 t)) →
            HasRoom (beat.D y.now) (unfinished channel.D (on_link link.0 t)) → moment ≡ length t →
            KnowsBlock (unwrap_or (option_map box_value bytes) self.now.bytes) n block ((link, beat.D y.now) ∷ t)) }
    {
        let Some(access) = find(self.accesses.as_slice(), link, y.source) else {
            return Ok(None);
        };
        if !access.writer.asked.request.opcode.carries_data() {
            return Ok(None);
        }
        let standing = self.bytes.standing(&access.windows, y.denied);
        let write = written(&access.writer, &brought.with(&Beat::D(*y)));
        let after = self.bytes.with(alloc, &write, standing, moment)?;
        Ok(Some(Box::new(alloc, after)?))
    }

    /// The change by a beat that completes the answer to an access on a link, if one is pending. `moment` is the number
    /// of beats before it, `brought` are the bytes of the answer's beats before it. The error means that there is no
    /// memory left.
    pub fn answered(
        &self,
        alloc: Global,
        link: Link,
        y: &BeatD<W>,
        brought: &CarriedMessage,
        moment: u64,
    ) -> Result<NextState<W>, AllocError>
        requires { IsWidth W }
        ensures { IfOk result (λ next. (n block : ℕ) (t : Trace W) →
            KnowsState self.now n block t → tells block (beat.D y.now) (on_link link.0 t) ≡ false →
            ends_request y.now (on_link link.0 t) ≡ true →
            AnyIsTo block (find (is_of link.0 y.now.source) (pending_accesses t)) →
            NoneSettled block (link, beat.D y.now) t → LeavesOutrun block (link, beat.D y.now) t →
            KnowsMessage brought.now (unfinished channel.D (on_link link.0 t)) →
            HasRoom (beat.D y.now) (unfinished channel.D (on_link link.0 t)) → moment ≡ length t →
            KnowsUnseen (with_next self.now next) n block (link, beat.D y.now) t) }
    {
        let bytes = self.bytes_answered(alloc, link, y, brought, moment)?;
        self.with_bytes(alloc, bytes, None, Some((link, y.source)))
    }

    /// Notes whether the block is free with a beat, at this moment.
    pub fn watch(&mut self, free: Freedom, moment: u64)
        ensures { (n block : ℕ) (x : Link × Beat W) (t : Trace W) → KnowsUnseen self.old n block x t →
            free ≡ freedom n block x t → moment ≡ suc (length t) →
            KnowsState self.new n block (x ∷ t) }
    {
        self.last_free = last_free(self.free.writing, free.writing, self.last_free, moment);
        self.free = free;
        watch(&mut self.accesses, free.writing, moment);
    }

    /// Takes a beat, at this moment, that makes this change or none. `free` says whether the block is free with the
    /// beat, if the beat may change that.
    #[inline(always)]
    pub fn take(&mut self, next: Option<NextState<W>>, free: Option<Freedom>, moment: u64)
        ensures { (n block : ℕ) (x : Link × Beat W) (t : Trace W) → KnowsState self.old n block t →
            moment ≡ suc (length t) → IsNext next.entry free self.old n block x t →
            KnowsState self.new n block (x ∷ t) }
    {
        self.put(next);
        if let Some(free) = free {
            self.watch(free, moment);
        }
    }
}
