//! Questions to a judge about the trace so far.

ghost use Rattle.std.specs.Prelude.{ℕ, Bool, true, false, List, Some, IfOk, IfSome, length, is_some, option_copied, find};
ghost use Rattle.std.specs.Prelude.{◌∷◌, ◌≡◌, ◌<◌, ◌+◌, ◌*◌, ◌||◌};
ghost use Rattle.tl_beat.specs.declared.beat.Beat.TheVariants as beat;
ghost use Rattle.tl_beat.specs.declared.beat.BeatD.{BeatD};
ghost use Rattle.tl_beat.specs.declared.channel.Channel.TheVariants as channel;
ghost use Rattle.tl_beat.specs.statement.Width.{IsWidth};
ghost use Rattle.tl_burst.specs.statement.Messages.{unfinished};
ghost use Rattle.tl_bytes.specs.statement.Bytes.{all_but, is_of, may_be, may_write, pending_accesses};
ghost use Rattle.tl_bytes.specs.statement.Free.{is_free, may_hold};
ghost use Rattle.tl_bytes.specs.statement.Lines.{told_moment};
ghost use Rattle.tl_bytes.specs.statement.Shown;
ghost use Rattle.tl_memory.specs.code.ByteSet.{has_at};
ghost use Rattle.tl_memory.specs.code.Changing.{IsChange, KnowsFree};
ghost use Rattle.tl_memory.specs.code.Lines.{told_by};
ghost use Rattle.tl_memory.specs.statement.Blocks.{state_in};
ghost use Rattle.tl_memory.specs.statement.ByteChanges.{AreByteChanges};
ghost use Rattle.tl_memory.specs.statement.Expecting.{ExpectsBeat};
ghost use Rattle.tl_memory.specs.statement.Known.{AnyIsTo};
ghost use Rattle.tl_memory.specs.statement.Links.{KeepsRules, KnowsMessages};
ghost use Rattle.tl_params.specs.declared.level.Level.{Level};
ghost use Rattle.tl_params.specs.declared.liberties.Liberties.{Liberties};
ghost use Rattle.tl_rules.specs.code.Open.{open_request};
ghost use Rattle.tl_rules.specs.statement.Conformance.{Trace, on_link};
ghost use Rattle.tl_monitor.specs.statement.Granting.{coming_on};
ghost use Rattle.tl_monitor.specs.statement.Knows.{begins_on, probe_on, request_on};
ghost use Rattle.tl_monitor.specs.statement.Reporting.{report_on};
ghost use Rattle.tl_together.specs.code.Windows.{MayShow};
ghost use Rattle.tl_together.specs.statement.Asked.{asked_at};
ghost use Rattle.tl_together.specs.statement.Coherence.{broken_together};

use crate::breach::Breach;
use crate::fault::JudgeFault;
use crate::free::is_free;
use crate::judge::{Judge, answered, asked_in};
use crate::shown::{is_shown, shown_by};
use std::alloc::AllocError;
use tl_beat::beat::{Beat, Link};
use tl_beat::control::ControlC;
use tl_bytes::write::Write;
use tl_memory::byte_change::ByteChange;
use tl_memory::byte_set::ByteSet;
use tl_memory::expected::Expected;
use tl_memory::link::LinkMessages;
use tl_memory::memory::Change;
use tl_rules::past::{Probe, Request};
use tl_rules::perm::Perm;

impl<const W: usize> Judge<W> {
    ghost use Rattle.tl_bytes.specs.statement.Early.{outrun_accesses};
    ghost use Rattle.tl_bytes.specs.statement.Known.{MayWrite, windowed};
    ghost use Rattle.tl_together.specs.statement.Knows.{Knows};

    /// The request with this source that is pending and complete on a link. None on a link without a level.
    pub fn request(&self, link: Link, source: u8) -> Option<Request>
        ensures { (levels : List Level) (l : Liberties) (t : Trace W) → Knows self.now levels l t false →
            result ≡ request_on levels link source t }
    {
        self.monitor.request(link, source)
    }

    /// Whether a beat begins a message on its link. On a link without a level none does.
    pub fn begins(&self, link: Link, beat: &Beat<W>) -> bool
        ensures { (levels : List Level) (l : Liberties) (t : Trace W) → Knows self.now levels l t false →
            result ≡ begins_on levels link beat.now t }
    {
        self.monitor.begins(link, beat)
    }

    /// The permission that the unfinished Grant of a block gives on a link, if one has begun that isn't denied. None on
    /// a link without a level.
    pub fn coming(&self, link: Link, block: u32) -> Option<Perm>
        ensures { (levels : List Level) (l : Liberties) (t : Trace W) → Knows self.now levels l t false →
            result ≡ coming_on levels link block t }
    {
        self.monitor.coming(link, block)
    }

    /// The most that a link may hold of a block, by its complete messages.
    pub fn held(&self, link: Link, block: u32) -> Perm
        ensures { (levels : List Level) (l : Liberties) (t : Trace W) → Knows self.now levels l t false →
            link.0 < length levels → result ≡ may_hold block (on_link link.0 t) }
    {
        self.monitor.held_under(link, block)
    }

    /// The control fields of the unfinished message on channel C of a link, if there is one. None on a link without a
    /// level.
    pub fn report(&self, link: Link) -> Option<ControlC>
        ensures { (levels : List Level) (l : Liberties) (t : Trace W) → Knows self.now levels l t false →
            result ≡ report_on levels link t }
    {
        self.monitor.report(link)
    }

    /// The pending Probe of a block on a link. None on a link without a level.
    pub fn probe(&self, link: Link, block: u32) -> Option<Probe>
        ensures { (levels : List Level) (l : Liberties) (t : Trace W) → Knows self.now levels l t false →
            result ≡ probe_on levels link block t }
    {
        self.monitor.probe(link, block)
    }

    /// The unfinished messages on channels A, C and D of a link. None if there is no such link.
    pub fn messages(&self, link: Link) -> Option<&LinkMessages>
        ensures { (levels : List Level) (l : Liberties) (t : Trace W) → Knows self.now levels l t false →
            link.0 < length levels →
            IfSome result (λ m. KnowsMessages m.now (on_link link.0 t)) × (is_some result ≡ true) }
    {
        self.memory.messages(link)
    }

    /// The number of beats that had been taken with the last beat of the request with this source that is pending on a
    /// link.
    pub fn asked(&self, link: Link, source: u8) -> Option<u64>
        ensures { (levels : List Level) (l : Liberties) (t : Trace W) → Knows self.now levels l t false →
            link.0 < length levels → is_some (open_request source (on_link link.0 t)) ≡ true →
            result ≡ Some (asked_at link.0 source t) }
    {
        asked_in(&self.asked, usize::from(link.0), source)
    }

    /// The change to the state of memory that a beat makes. The judge still knows its trace. The error is `Memory`:
    /// there is no memory left, or 2^64 - 1 beats were taken.
    pub fn change(&mut self, link: Link, beat: &Beat<W>) -> Result<Change<W>, JudgeFault>
        requires { IsWidth W }
        ensures knows { (levels : List Level) (l : Liberties) (t : Trace W) (closed : Bool) →
            Knows self.old levels l t closed → Knows self.new levels l t closed }
        ensures change { IfOk result (λ change. (levels : List Level) (l : Liberties) (t : Trace W) →
            Knows self.old levels l t false → KeepsRules l levels (link, beat.now) t →
            IsChange change self.new.memory (length levels) (link, beat.now) t) }
        ensures free { IfOk result (λ change. (levels : List Level) (l : Liberties) (t : Trace W) →
            Knows self.old levels l t false → KnowsFree change (length levels) t) }
    {
        let Some(next) = self.moment.checked_add(1) else {
            return Err(JudgeFault::Memory);
        };
        let asked = answered(&self.monitor, link, beat);
        match self.memory.change(link, beat, asked, next) {
            Ok(change) => Ok(change),
            Err(_) => Err(JudgeFault::Memory),
        }
    }

    /// The first rule that a beat breaks. The judge still knows its trace. The error is as that of `change`.
    pub fn broken(&mut self, link: Link, beat: &Beat<W>) -> Result<Option<Breach>, JudgeFault>
        requires { IsWidth W }
        ensures knows { (levels : List Level) (l : Liberties) (t : Trace W) (closed : Bool) →
            Knows self.old levels l t closed → Knows self.new levels l t closed }
        ensures broken { IfOk result (λ breach. (levels : List Level) (l : Liberties) (t : Trace W) →
            Knows self.old levels l t false → breach ≡ broken_together levels l (link, beat.now) t) }
    {
        if let Some(rule) = self.monitor.broken_under(link, beat) {
            return Ok(Some(Breach::OfLink(rule)));
        }
        let change = self.change(link, beat)?;
        match self.broken_memory(&change, link, beat) {
            Some(rule) => Ok(Some(Breach::OfMemory(rule))),
            None => Ok(None),
        }
    }

    /// The change that a beat makes to the possible values of the bytes of a block, whatever they were before it, and
    /// that block. None if it concerns no block.
    pub fn byte_change(&self, link: Link, beat: &Beat<W>) -> Option<(u32, ByteChange)>
        requires { IsWidth W }
        ensures { (levels : List Level) (l : Liberties) (t : Trace W) → Knows self.now levels l t false →
            KeepsRules l levels (link, beat.now) t → AreByteChanges result (length levels) (link, beat.now) t }
    {
        let asked = answered(&self.monitor, link, beat);
        self.memory.byte_change(link, beat, asked)
    }

    /// The writes of accesses to a block that may be in the bytes of a Grant which begins now: those of pending accesses
    /// that have had a window, and of accesses whose answers outran their requests. The error means that there is no memory
    /// left.
    pub fn grant_writes(&self, block: u32) -> Result<Vec<Write>, AllocError>
        ensures { IfOk result (λ writes. (levels : List Level) (l : Liberties) (t : Trace W) →
            Knows self.now levels l t false →
            MayWrite writes.items block (windowed (length levels) block t) (outrun_accesses t)) }
    {
        self.memory.grant_writes(block)
    }

    /// Adds to the set of each place of a block the values that accesses other than the one with this source on a link may
    /// write there.
    pub fn add_others(&self, sets: &mut [ByteSet; 64], block: u32, link: Link, source: u8)
        ensures { (levels : List Level) (l : Liberties) (t : Trace W) → Knows self.now levels l t false →
            (place v : ℕ) → place < 64 → v < 256 → has_at sets.new place v ≡ (has_at sets.old place v
            || may_write (64 * block + place) v (all_but link.0 source (pending_accesses t)) (outrun_accesses t)) }
    {
        self.memory.add_others(sets, block, link, source);
    }

    /// Whether the access with this source on a link is pending, if it is to this block.
    pub fn is_pending(&self, block: u32, link: Link, source: u8) -> bool
        ensures { (levels : List Level) (l : Liberties) (t : Trace W) → Knows self.now levels l t false →
            AnyIsTo block (find (is_of link.0 source) (pending_accesses t)) →
            result ≡ is_some (find (is_of link.0 source) (pending_accesses t)) }
    {
        self.memory.is_pending(block, link, source)
    }

    /// Whether no link may hold a permission of a block that conflicts with this one.
    pub fn is_free(&self, given: Perm, block: u32) -> bool
        ensures { (levels : List Level) (l : Liberties) (t : Trace W) → Knows self.now levels l t false →
            result ≡ is_free (length levels) given block t }
    {
        is_free(&self.monitor, self.links, given, block)
    }

    /// The block whose bytes a beat shows, if it completes its message.
    pub fn shown(&self, link: Link, beat: &Beat<W>) -> Option<u32>
        ensures { (levels : List Level) (l : Liberties) (t : Trace W) → Knows self.now levels l t false →
            link.0 < length levels → MayShow result beat.now (on_link link.0 t) }
    {
        shown_by(&self.monitor, link, beat)
    }

    /// Whether the beat that was taken last shows the bytes of this block. `shown` is the block whose bytes it shows if it
    /// completes its message.
    pub fn shows(&self, link: Link, beat: &Beat<W>, shown: Option<u32>, block: u32) -> bool
        ensures { (levels : List Level) (l : Liberties) (t : Trace W) →
            Knows self.now levels l ((link, beat.now) ∷ t) false → link.0 < length levels →
            MayShow shown beat.now (on_link link.0 t) → result ≡ Shown.shows block beat.now (on_link link.0 t) }
    {
        is_shown(&self.monitor, link, beat, shown, block)
    }

    /// The bytes that the response whose beat is next on a link may bring, if the beat makes this change.
    pub fn expected<'a>(&'a self, change: &'a Change<W>, link: Link) -> Option<&'a Expected>
        ensures { (levels : List Level) (l : Liberties) (x : BeatD W) (t : Trace W) → Knows self.now levels l t false →
            KeepsRules l levels (link, beat.D x) t →
            IsChange change.now self.now.memory (length levels) (link, beat.D x) t →
            ExpectsBeat (option_copied result) (length levels) link.0 x.opcode x.source
            (length (unfinished channel.D (on_link link.0 t))) t }
    {
        self.memory.expected(change, link)
    }

    /// The number of beats that were taken.
    pub fn moment(&self) -> u64
        ensures { (levels : List Level) (l : Liberties) (t : Trace W) → Knows self.now levels l t false →
            result ≡ length t }
    {
        self.moment
    }

    /// The number of beats that have come of the unfinished message on channel D of a link.
    pub fn beats_come(&self, link: Link) -> usize
        ensures { (levels : List Level) (l : Liberties) (t : Trace W) → Knows self.now levels l t false →
            link.0 < length levels → result ≡ length (unfinished channel.D (on_link link.0 t)) }
    {
        self.memory.beats_come(link)
    }

    /// The number of beats before the one that gave the byte at a place of a block this possible value, if it may still
    /// have it.
    pub fn told_at(&self, block: u32, place: u8, byte: u8) -> Option<u64>
        ensures kept { result ≡ told_by (state_in self.now.memory.blocks block) place byte }
        ensures told { (levels : List Level) (l : Liberties) (t : Trace W) → Knows self.now levels l t false →
            place < 64 → result ≡ told_moment byte (may_be (length levels) (64 * block + place) t) }
    {
        self.memory.told_at(block, place, byte)
    }
}
