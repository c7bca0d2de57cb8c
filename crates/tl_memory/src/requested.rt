//! The accesses to a block that are asked for.

ghost use Rattle.std.specs.Box.{box_value};
ghost use Rattle.std.specs.Prelude.{ℕ, suc, true, false, None, ◌∷◌, ◌≡◌, ◌≤◌, find, is_some, length, IfOk, IfSome};
ghost use Rattle.std.specs.Prelude.{option_map};
ghost use Rattle.tl_beat.specs.declared.beat.Beat.TheVariants as beat;
ghost use Rattle.tl_beat.specs.declared.channel.Channel.TheVariants as channel;
ghost use Rattle.tl_beat.specs.statement.Width.{IsWidth};
ghost use Rattle.tl_burst.specs.statement.Messages.{unfinished};
ghost use Rattle.tl_bytes.specs.statement.Bytes.{asks};
ghost use Rattle.tl_bytes.specs.statement.Early.{is_outrun_of, outrun_accesses};
ghost use Rattle.tl_memory.specs.code.Taking.{IsRequested, asked_now, next_accesses, none_shown, with_next};
ghost use Rattle.tl_memory.specs.code.Writers.{grown_in};
ghost use Rattle.tl_memory.specs.declared.next_state.NextState.{NextState};
ghost use Rattle.tl_memory.specs.statement.Known.{KnowsAccess, KnowsMessage, KnowsState, open_for};
ghost use Rattle.tl_rules.specs.statement.Conformance.{Trace, on_link};
ghost use Rattle.tl_rules.specs.statement.History.{block_at};

use crate::accesses::{append_renewed, find};
use crate::block::BlockState;
use crate::message::CarriedMessage;
use crate::next_state::{NextAccesses, NextState};
use crate::pending::PendingAccess;
use crate::performed::is_put;
use crate::writer::Writer;
use std::alloc::{AllocError, Global};
use tl_beat::beat::{BeatA, Link};
use tl_bytes::windows::WritingWindows;

impl<const W: usize> BlockState<W> {
    /// The state of the access to the block whose request has this newest beat, at this moment. `brought` are the bytes
    /// of the request's beats.
    fn asked_access(
        &self,
        alloc: Global,
        link: Link,
        y: &BeatA<W>,
        brought: &CarriedMessage,
        moment: u64,
    ) -> Result<PendingAccess<W>, AllocError>
        requires width { IsWidth W }
        requires small { y.now.size ≤ 6 }
        ensures { IfOk result (λ own. (n block : ℕ) (t : Trace W) → KnowsState self.now n block t →
            KnowsMessage brought.now (beat.A y.now ∷ unfinished channel.A (on_link link.0 t)) →
            IsRequested link.0 y.now t → asks y.now (on_link link.0 t) ≡ true → block_at y.now.address ≡ block →
            moment ≡ suc (length t) →
            KnowsAccess own (open_for (none_shown self.now.free)) n block (asked_now link.0 y.now t)
            ((link, beat.A y.now) ∷ t)) }
    {
        let accesses = self.accesses.as_slice();
        let Some(first) = find(accesses, link, y.source) else {
            let writer = Writer::new(link, y, brought, moment);
            let windows = WritingWindows::new(self.free.writing, moment, self.last_free);
            return Ok(PendingAccess::new(alloc, &writer, windows));
        };
        let writer = Writer::new(link, y, brought, first.writer.asked.moment);
        first.grown(
            alloc,
            &writer,
            self.free,
            &self.bytes,
            accesses,
            self.outrun.as_slice(),
        )
    }

    /// The writer of the only pending access with one more beat of its request, if this is one and the access a Put.
    /// `brought` are the bytes of the request's beats. The error means that there is no memory left.
    fn grown_writer(
        &self,
        alloc: Global,
        link: Link,
        y: &BeatA<W>,
        brought: &CarriedMessage,
    ) -> Result<Option<Box<Writer<W>>>, AllocError>
        requires width { IsWidth W }
        requires small { y.now.size ≤ 6 }
        ensures { IfOk result (λ kept. IfSome (option_map box_value kept) (λ writer. (n block : ℕ) (t : Trace W) → KnowsState self.now n block t →
            KnowsMessage brought.now (beat.A y.now ∷ unfinished channel.A (on_link link.0 t)) →
            IsRequested link.0 y.now t → asks y.now (on_link link.0 t) ≡ true →
            is_some (find (is_outrun_of link.0 y.now.source) (outrun_accesses t)) ≡ false → block_at y.now.address ≡ block →
            (next : NextState W) → next.bytes ≡ None → next.outrun ≡ None →
            next_accesses self.now.accesses next.accesses ≡ grown_in writer self.now.accesses self.now.accesses.items →
            KnowsState (with_next self.now next) n block ((link, beat.A y.now) ∷ t))) }
    {
        let accesses = self.accesses.as_slice();
        if accesses.len() != 1 {
            return Ok(None);
        }
        let only = &accesses[0];
        let asked = &only.writer.asked;
        if !asked.is_of(link, y.source) || !is_put(asked.request.opcode) {
            return Ok(None);
        }
        let writer = Writer::new(link, y, brought, asked.moment);
        Ok(Some(Box::new(alloc, writer)?))
    }

    /// The change by a beat of the request of an access to the block, at this moment. `brought` are the bytes of the
    /// request's beats. The error means that there is no memory left.
    pub fn asked(
        &self,
        alloc: Global,
        link: Link,
        y: &BeatA<W>,
        brought: &CarriedMessage,
        moment: u64,
    ) -> Result<NextState<W>, AllocError>
        requires width { IsWidth W }
        requires small { y.now.size ≤ 6 }
        ensures { IfOk result (λ next. (n block : ℕ) (t : Trace W) → KnowsState self.now n block t →
            KnowsMessage brought.now (beat.A y.now ∷ unfinished channel.A (on_link link.0 t)) →
            IsRequested link.0 y.now t → asks y.now (on_link link.0 t) ≡ true →
            is_some (find (is_outrun_of link.0 y.now.source) (outrun_accesses t)) ≡ false → block_at y.now.address ≡ block →
            moment ≡ suc (length t) →
            KnowsState (with_next self.now next) n block ((link, beat.A y.now) ∷ t)) }
    {
        if let Some(writer) = self.grown_writer(alloc, link, y, brought)? {
            return Ok(NextState {
                bytes: None,
                accesses: NextAccesses::Grown(writer),
                outrun: None,
            });
        }
        let own = self.asked_access(alloc, link, y, brought, moment)?;
        let before = self.accesses.as_slice();
        let gone = Some((link, y.source));
        let mut accesses = Vec::with_capacity(alloc, before.len().saturating_add(1))?;
        accesses.push(own)?;
        append_renewed(
            alloc,
            &mut accesses,
            before,
            gone,
            self.free,
            &self.bytes,
            self.outrun.as_slice(),
        )?;
        Ok(NextState {
            bytes: None,
            accesses: NextAccesses::Renewed(accesses),
            outrun: None,
        })
    }
}
