//! The state of the bytes of memory.

ghost use Rattle.std.specs.Prelude.{ℕ, suc, true, [], ◌∷◌, ◌<◌, ◌≡◌, if◌then◌else◌, List, length, is_some, option_map};
ghost use Rattle.std.specs.Prelude.{None, Some, IfOk, IfSome, IsTrue, option_copied, ◌+◌, ◌*◌};
ghost use Rattle.tl_beat.specs.declared.beat.Beat.TheVariants as beat;
ghost use Rattle.tl_beat.specs.declared.beat.BeatD.{BeatD};
ghost use Rattle.tl_beat.specs.declared.beat.Link.{Link};
ghost use Rattle.tl_beat.specs.declared.channel.Channel.TheVariants as channel;
ghost use Rattle.tl_beat.specs.statement.Width.{IsWidth};
ghost use Rattle.tl_burst.specs.statement.Messages.{unfinished};
ghost use Rattle.tl_burst.specs.statement.Part;
ghost use Rattle.tl_params.specs.declared.level.Level.{Level};
ghost use Rattle.tl_rules.specs.statement.Conformance.{Trace, on_link};
ghost use Rattle.tl_bytes.specs.statement.Bytes as bytes;
ghost use Rattle.tl_bytes.specs.statement.Lines.{told_moment};
ghost use Rattle.tl_memory.specs.code.Elsewhere as elsewhere;
ghost use Rattle.tl_memory.specs.code.Lines.{told_by};
ghost use Rattle.tl_memory.specs.code.Taking.{IsLegalBeat, request_answered};
ghost use Rattle.tl_memory.specs.statement.ByteChanges.{AreByteChanges, IsByteChange};
ghost use Rattle.tl_memory.specs.statement.Links.{KnowsMessages};

use crate::begun::begun_with;
use crate::block::BlockState;
use crate::blocks::Blocks;
use crate::boxed::value_of;
use crate::byte_change::{ByteChange, byte_change};
use crate::concerned::block_borne;
use crate::expected::Expected;
use crate::free::Freedom;
use crate::link::LinkMessages;
use crate::links::Links;
use crate::message::is_small;
use crate::next::after_beat;
use crate::next_state::NextState;
use crate::passing::changes_held;
use crate::typed::prove_typed;
use std::alloc::{AllocError, Global};
use tl_beat::beat::{Beat, BeatD, Link};
use tl_bytes::write::Write;
use tl_rules::past::Request;
use tl_rules::perm::Perm;

/// The block that a beat concerns, if the beat may change the permission that its link holds of it.
fn held_of(block: u32, changes: bool) -> Option<u32>
    ensures { result ≡ (if changes then Some block else None) }
{
    if changes { Some(block) } else { None }
}

/// The change to the state of memory that a beat makes.
#[derive(Drop)]
pub struct Change<const W: usize> {
    /// The block that the beat concerns. None if it changes no block.
    block: Option<u32>,
    /// That block, if the beat may change the permission that its link holds of it.
    pub held: Option<u32>,
    /// Whether that block was free for reading and for writing before the beat.
    reading: bool,
    writing: bool,
    /// The place of that block among the states.
    place: usize,
    /// The change to the state of that block, if more than its freedom changes.
    next: Option<NextState<W>>,
    /// The bytes that the response may bring that begins with the beat, or that answers a Get. They are on the heap, since
    /// a change is moved often.
    expected: Option<Box<Expected>>,
}

impl<const W: usize> Change<W> {
    ghost use Rattle.tl_bytes.specs.statement.Free.{is_free};
    ghost use Rattle.tl_memory.specs.code.Changing.{KnowsFree, expected_by};
    ghost use Rattle.tl_memory.specs.statement.Known.{free_for};
    ghost use Rattle.tl_params.specs.declared.perm.Perm.{Perm};

    /// The change by a beat that changes no block.
    fn none() -> Self
        ensures block { result.block ≡ None }
        ensures held { result.held ≡ None }
        ensures expected { expected_by result ≡ None }
    {
        Change {
            block: None,
            held: None,
            reading: false,
            writing: false,
            place: 0,
            next: None,
            expected: None,
        }
    }

    /// Whether the block was free for reading and for writing before the beat.
    pub fn freedom(&self) -> Freedom
        ensures { (n block : ℕ) (t : Trace W) → KnowsFree self.now n t → self.now.block ≡ Some block →
            (given : Perm) → free_for result given ≡ is_free n given block t }
    {
        Freedom {
            reading: self.reading,
            writing: self.writing,
            shown: false,
        }
    }

    /// The bytes that the response may bring that begins with the beat, or that answers a Get.
    fn begun(&self) -> Option<&Expected>
        ensures { option_copied result ≡ expected_by self.now }
    {
        value_of(&self.expected)
    }

    /// Whether this block is known to be free for this permission. It isn't if the beat doesn't concern it.
    pub fn says_free(&self, block: u32, given: Perm) -> bool
        ensures { (n : ℕ) (t : Trace W) → KnowsFree self.now n t → result ≡ true → is_free n given block t ≡ true }
    {
        let Some(own) = self.block else {
            return false;
        };
        if own != block {
            return false;
        }
        self.freedom().is_free_for(given)
    }
}

/// The state of the bytes of memory: of all links of a manager, and of all blocks.
#[derive(Drop)]
pub struct Memory<const W: usize> {
    pub(crate) alloc: Global,
    links: Links,
    pub(crate) blocks: Blocks<W>,
}

impl<const W: usize> Memory<W> {
    ghost use Rattle.tl_memory.specs.code.Changing.{IsChange, KnowsFree};
    ghost use Rattle.tl_memory.specs.statement.Blocks.{place_in, state_in};
    ghost use Rattle.tl_memory.specs.statement.Expecting.{ExpectsBeat};
    ghost use Rattle.tl_memory.specs.statement.Known.{freedom};
    ghost use Rattle.tl_memory.specs.statement.Links.{AreLegal, IsLegal};
    ghost use Rattle.tl_memory.specs.statement.Memory.{KnowsMemory};
    ghost use Rattle.tl_bytes.specs.statement.Early.{outrun_accesses};
    ghost use Rattle.tl_bytes.specs.statement.Known.{MayWrite, windowed};

    /// The state of this many links, which have carried nothing. The error means that there is no memory left.
    pub fn new(alloc: Global, count: u8) -> Result<Self, AllocError>
        ensures { IfOk result (λ m. KnowsMemory m count []) }
    {
        Ok(Memory {
            alloc,
            links: Links::new(alloc, count)?,
            blocks: Blocks::new(alloc),
        })
    }

    /// The change by a beat that concerns this block, which has a state at this place. The error means that there is no
    /// memory left.
    fn changed(
        &self,
        block: u32,
        place: usize,
        link: Link,
        x: &Beat<W>,
        asked: Option<Request>,
        moment: u64,
    ) -> Result<Change<W>, AllocError>
        requires width { IsWidth W }
        requires small { IsTrue (Part.is_small x.now) }
        ensures free { IfOk result (λ change. (n : ℕ) (t : Trace W) → KnowsMemory self.now n t →
            place_in self.now.blocks block ≡ Some place → KnowsFree change n t) }
        ensures change { IfOk result (λ change. (levels : List Level) (t : Trace W) →
            KnowsMemory self.now (length levels) t → AreLegal levels t →
            IsLegal levels (link, x.now) t → asked ≡ request_answered x.now (on_link link.0 t) →
            moment ≡ suc (length t) → elsewhere.block_borne x.now (on_link link.0 t) ≡ Some block →
            place_in self.now.blocks block ≡ Some place →
            IsChange change self.now (length levels) (link, x.now) t) }
    {
        prove_typed(x);
        let Some(state) = self.blocks.at(place) else {
            return Ok(Change::none());
        };
        let Some(known) = self.links.get(link) else {
            return Ok(Change::none());
        };
        let free = state.freedom();
        let next = after_beat(self.alloc, state, link, x, asked, &known.messages, moment)?;
        let expected = begun_with(self.alloc, state, link, x, &known.messages.d, block)?;
        Ok(Change {
            block: Some(block),
            held: held_of(block, changes_held(x, &known.messages)),
            reading: free.reading,
            writing: free.writing,
            place,
            next,
            expected,
        })
    }

    /// The change by a beat, at this moment. `asked` is the request that it answers, if it is a response to one. The
    /// error means that there is no memory left. All that is known stays true in either case.
    pub fn change(
        &mut self,
        link: Link,
        x: &Beat<W>,
        asked: Option<Request>,
        moment: u64,
    ) -> Result<Change<W>, AllocError>
        requires { IsWidth W }
        ensures known { (n : ℕ) (t : Trace W) → KnowsMemory self.old n t → KnowsMemory self.new n t }
        ensures free { IfOk result (λ change. (n : ℕ) (t : Trace W) → KnowsMemory self.old n t → KnowsFree change n t) }
        ensures change { IfOk result (λ change. (levels : List Level) (t : Trace W) →
            KnowsMemory self.old (length levels) t → AreLegal levels t →
            IsLegal levels (link, x.now) t → asked ≡ request_answered x.now (on_link link.0 t) →
            moment ≡ suc (length t) → IsChange change self.new (length levels) (link, x.now) t) }
    {
        prove_typed(x);
        if !is_small(x) {
            return Ok(Change::none());
        }
        if self.links.passes_by(link, x) {
            return Ok(Change::none());
        }
        let Some(known) = self.links.get(link) else {
            return Ok(Change::none());
        };
        let Some(block) = block_borne(x, asked, &known.messages) else {
            return Ok(Change::none());
        };
        let place = self.blocks.meet(self.alloc, block)?;
        self.changed(block, place, link, x, asked, moment)
    }

    /// Whether the bytes of a response's beat are true. `change` is the change by the beat.
    pub fn is_true(&self, change: &Change<W>, link: Link, x: &BeatD<W>) -> bool
        requires { IsWidth W }
        ensures { (levels : List Level) (t : Trace W) → KnowsMemory self.now (length levels) t →
            AreLegal levels t → IsLegal levels (link, beat.D x.now) t →
            IsChange change.now self.now (length levels) (link, beat.D x.now) t →
            result ≡ bytes.is_true x.now.opcode (length levels) link.0 x.now t }
    {
        match self.links.get(link) {
            Some(state) => state.is_true(change.begun(), x),
            None => true,
        }
    }

    /// Takes a beat, at this moment, that makes this change. `free` says whether the block whose permission the beat
    /// may change is free with it.
    #[inline(always)]
    pub fn take(
        &mut self,
        change: Change<W>,
        link: Link,
        x: &Beat<W>,
        free: Option<Freedom>,
        moment: u64,
    )
        requires { IsWidth W }
        ensures { (levels : List Level) (t : Trace W) → KnowsMemory self.old (length levels) t →
            AreLegal levels t → IsLegal levels (link, x.now) t → moment ≡ suc (length t) →
            IsChange change.entry self.old (length levels) (link, x.now) t →
            free ≡ option_map (λ block. freedom (length levels) block (link, x.now) t) change.entry.held →
            KnowsMemory self.new (length levels) ((link, x.now) ∷ t) }
    {
        prove_typed(x);
        self.links.take(change.expected, change.block, link, x);
        if change.block.is_some() {
            self.blocks.take(change.place, change.next, free, moment);
        }
    }

    /// The bytes that the response whose beat is next on a link may bring. `change` is the change by the beat.
    pub fn expected<'a>(&'a self, change: &'a Change<W>, link: Link) -> Option<&'a Expected>
        ensures { (levels : List Level) (x : BeatD W) (t : Trace W) →
            KnowsMemory self.now (length levels) t → AreLegal levels t →
            IsLegal levels (link, beat.D x) t →
            IsChange change.now self.now (length levels) (link, beat.D x) t →
            ExpectsBeat (option_copied result) (length levels) link.0 x.opcode x.source
            (length (unfinished channel.D (on_link link.0 t))) t }
    {
        match self.links.get(link) {
            None => None,
            Some(state) => state.expected(change.begun()),
        }
    }

    /// The unfinished messages on channels A, C and D of a link. None if there is no such link.
    pub fn messages(&self, link: Link) -> Option<&LinkMessages>
        ensures { (n : ℕ) (t : Trace W) → KnowsMemory self.now n t → link.0 < n →
            IfSome result (λ m. KnowsMessages m.now (on_link link.0 t)) × (is_some result ≡ true) }
    {
        match self.links.get(link) {
            None => None,
            Some(state) => Some(&state.messages),
        }
    }

    /// The change that a beat makes to the bytes of this block, which it concerns. `messages` are the unfinished messages
    /// of its link.
    fn change_in(
        &self,
        block: u32,
        link: Link,
        x: &Beat<W>,
        asked: Option<Request>,
        messages: &LinkMessages,
    ) -> ByteChange
        requires width { IsWidth W }
        requires small { IsTrue (Part.is_small x.now) }
        ensures { (n : ℕ) (t : Trace W) → KnowsMemory self.now n t → KnowsMessages messages.now (on_link link.0 t) →
            IsLegalBeat link.0 x.now t → asked ≡ request_answered x.now (on_link link.0 t) →
            elsewhere.block_borne x.now (on_link link.0 t) ≡ Some block →
            IsByteChange result n block (link, x.now) t }
    {
        match self.blocks.get(block) {
            Some(state) => byte_change(state, link, x, asked, messages),
            None => byte_change(&BlockState::new(self.alloc), link, x, asked, messages),
        }
    }

    /// The change that a beat makes to the possible values of the bytes of a block, whatever they were before it, and
    /// that block. None if it concerns no block. `asked` is the request that it answers, if it is a response to one.
    pub fn byte_change(
        &self,
        link: Link,
        x: &Beat<W>,
        asked: Option<Request>,
    ) -> Option<(u32, ByteChange)>
        requires { IsWidth W }
        ensures { (levels : List Level) (t : Trace W) → KnowsMemory self.now (length levels) t → AreLegal levels t →
            IsLegal levels (link, x.now) t → asked ≡ request_answered x.now (on_link link.0 t) →
            AreByteChanges result (length levels) (link, x.now) t }
    {
        prove_typed(x);
        if !is_small(x) {
            return None;
        }
        let Some(known) = self.links.get(link) else {
            return None;
        };
        let Some(block) = block_borne(x, asked, &known.messages) else {
            return None;
        };
        let change = self.change_in(block, link, x, asked, &known.messages);
        Some((block, change))
    }

    /// The writes of accesses to a block that may be in the bytes of a Grant which begins now: those of pending accesses
    /// that have had a window, and of accesses whose answers outran their requests. The error means that there is no memory
    /// left.
    pub fn grant_writes(&self, block: u32) -> Result<Vec<Write>, AllocError>
        ensures { IfOk result (λ writes. (n : ℕ) (t : Trace W) → KnowsMemory self.now n t →
            MayWrite writes.items block (windowed n block t) (outrun_accesses t)) }
    {
        match self.blocks.get(block) {
            Some(state) => state.grant_writes(self.alloc),
            None => BlockState::<W>::new(self.alloc).grant_writes(self.alloc),
        }
    }

    /// The number of beats that have come of the unfinished message on channel D of a link.
    pub fn beats_come(&self, link: Link) -> usize
        ensures { (n : ℕ) (t : Trace W) → KnowsMemory self.now n t → link.0 < n →
            result ≡ length (unfinished channel.D (on_link link.0 t)) }
    {
        match self.links.get(link) {
            None => 0,
            Some(state) => state.messages.d.bytes.count(),
        }
    }

    /// The number of beats before the one that made this value of the byte at a place of a block possible, if it still
    /// is.
    pub fn told_at(&self, block: u32, place: u8, byte: u8) -> Option<u64>
        ensures kept { result ≡ told_by (state_in self.now.blocks block) place byte }
        ensures told { (n : ℕ) (t : Trace W) → KnowsMemory self.now n t → place < 64 →
            result ≡ told_moment byte (bytes.may_be n (64 * block + place) t) }
    {
        match self.blocks.get(block) {
            None => None,
            Some(state) => state.told_at(place, byte),
        }
    }
}
