//! The bytes that a pending Get or atomic may have found.

ghost use Rattle.std.specs.Prelude.{ℕ, Bool, false, List, None, Some, ◌∷◌, ◌+◌, ◌*◌, ◌<◌, ◌≤◌, ◌≡◌, length, option_copied};
ghost use Rattle.tl_beat.specs.declared.beat.Beat.{Beat};
ghost use Rattle.tl_bytes.specs.statement.Bytes.{each_from};
ghost use Rattle.tl_params.specs.declared.level.Level.{Level};
ghost use Rattle.tl_params.specs.declared.liberties.Liberties.{Liberties};
ghost use Rattle.tl_rules.specs.statement.Conformance.{Trace, on_link};
ghost use Rattle.tl_rules.specs.statement.History.{block_at};
ghost use Rattle.tl_together.specs.code.Windows.{MayShow};
ghost use Rattle.tl_together.specs.statement.Knows.{Knows};
ghost use Rattle.tl_memory.specs.code.ByteSet.{has_at};
ghost use Rattle.tl_commits.specs.code.Reading as code;
ghost use Rattle.tl_commits.specs.code.Reading.{AllowsAs, IsAnswered, IsAsked, IsFound, IsFresh, IsNoted, IsReader, IsTakenBy};
ghost use Rattle.tl_commits.specs.code.ValueTable.{KnowsTable};
ghost use Rattle.tl_commits.specs.statement.Completeness.{Completeness};
ghost use Rattle.tl_commits.specs.statement.Events.{Events, beats_of};

use crate::reached::put_reached;
use crate::value_table::ValueTable;
use tl_beat::beat::{Beat, BeatA, BeatD, Link};
use tl_beat::opcode::OpA;
use tl_memory::access::{is_access, reaches};
use tl_memory::byte_set::ByteSet;
use tl_memory::free::needs;
use tl_memory::message::{both, either};
use tl_memory::performed::is_put;
use tl_rules::key::block_at;
use tl_rules::perm::Perm;
use tl_together::judge::Judge;

/// A Get or an atomic, and the bytes that it may have found. One that isn't pending any more, or not yet, does no harm.
#[derive(Clone, Copy, Debug, PartialEq, Eq)]
pub struct Reading {
    pub(crate) link: Link,
    pub(crate) source: u8,
    pub(crate) opcode: OpA,
    pub(crate) address: u32,
    pub(crate) size: u8,
    /// Whether its answer has begun, and isn't complete.
    pub(crate) begun: bool,
    /// For each byte of its block that it reaches the values that it may have found.
    pub(crate) found: [ByteSet; 64],
}

/// Whether a request is a Get or an atomic, which finds bytes.
fn finds(opcode: OpA) -> bool
    ensures { result ≡ code.finds opcode }
{
    both(is_access(opcode), !is_put(opcode))
}

/// The beat, if it is of the request of a Get or an atomic.
pub(crate) fn reader<const W: usize>(beat: &Beat<W>) -> Option<&BeatA<W>>
    ensures { IsReader (option_copied result) beat.now }
{
    match beat {
        Beat::A(x) if finds(x.opcode) => Some(x),
        _ => None,
    }
}

impl Reading {
    /// The reading of an access that is asked for with this beat.
    pub(crate) fn new<const W: usize>(link: Link, x: &BeatA<W>) -> Self
        ensures { IsFresh result link x.now }
    {
        Reading {
            link,
            source: x.source,
            opcode: x.opcode,
            address: x.address,
            size: x.size.min(6),
            begun: false,
            found: [ByteSet::none(); 64],
        }
    }

    /// Whether it is of the access with this source on a link.
    pub(crate) fn is_of(&self, link: Link, source: u8) -> bool
        ensures { result ≡ code.is_of link.0 source self.now }
    {
        self.link.0 == link.0 && self.source == source
    }

    /// Begins the reading of the access that is asked for with this beat.
    fn begin<const W: usize>(&mut self, link: Link, x: &BeatA<W>)
        ensures { IsFresh self.new link x.now }
    {
        self.link = link;
        self.source = x.source;
        self.opcode = x.opcode;
        self.address = x.address;
        self.size = x.size.min(6);
        self.begun = false;
        put_reached(&mut self.found, self.address, self.size, ByteSet::none());
    }

    /// Begins the reading, if this beat of a request asks for its access.
    fn ask<const W: usize>(&mut self, link: Link, x: &BeatA<W>)
        ensures { IsAsked link x.now self.old self.new }
    {
        if both(finds(x.opcode), self.is_of(link, x.source)) {
            self.begin(link, x);
        }
    }

    /// Notes a beat of channel D, which may be of the answer. `more` says whether it leaves its message unfinished.
    fn answer<const W: usize>(&mut self, link: Link, x: &BeatD<W>, more: bool)
        ensures { IsAnswered link x.now more self.old self.new }
    {
        if self.is_of(link, x.source) {
            self.begun = more;
        }
    }

    /// Notes a beat that was taken. `more` says whether it leaves a message of channel D unfinished.
    fn note<const W: usize>(&mut self, link: Link, beat: &Beat<W>, more: bool)
        ensures { IsNoted link beat.now more self.old self.new }
    {
        match beat {
            Beat::A(x) => self.ask(link, x),
            Beat::D(x) => self.answer(link, x, more),
            _ => {}
        }
    }

    /// Whether the access may still find bytes: it is a Get, or its answer hasn't begun.
    fn goes_on(&self) -> bool
        ensures { result ≡ code.goes_on self.now }
    {
        either(self.opcode == OpA::Get, !self.begun)
    }

    /// Whether the beat that was taken last shows that the access may be performed. `shown` is the block whose bytes the beat
    /// shows if it completes its message.
    fn is_open<const W: usize>(
        &self,
        judge: &Judge<W>,
        link: Link,
        beat: &Beat<W>,
        shown: Option<u32>,
    ) -> bool
        ensures { (levels : List Level) (l : Liberties) (t : Trace W) →
            Knows judge.now levels l ((link, beat.now) ∷ t) false → link.0 < length levels →
            MayShow shown beat.now (on_link link.0 t) →
            result ≡ code.is_open (length levels) self.now (link, beat.now) t }
    {
        let given = needs(self.opcode);
        let block = block_at(self.address);
        let shows = judge.shows(link, beat, shown, block);
        either(
            judge.is_free(given, block),
            both(given == Perm::Branch, shows),
        )
    }

    /// Adds the bytes that the access may find now, if it finds some.
    fn find<const W: usize>(&mut self, judge: &Judge<W>, table: &ValueTable, now: bool)
        ensures { (levels : List Level) (l : Liberties) (complete : Completeness) (e : Events W) →
            Knows judge.now levels l (beats_of e) false → KnowsTable table.now complete (length levels) e →
            IsFound complete (length levels) now e self.old self.new }
    {
        if !now {
            return;
        }
        table.add_seen(&mut self.found, self.address, self.size);
        let block = block_at(self.address);
        judge.add_others(&mut self.found, block, self.link, self.source);
    }

    /// Takes a beat that the judge of beats took last, by the values of blocks after it. `shown` is the block whose bytes the
    /// beat shows if it completes its message.
    pub(crate) fn take<const W: usize>(
        &mut self,
        judge: &Judge<W>,
        table: &ValueTable,
        link: Link,
        beat: &Beat<W>,
        shown: Option<u32>,
    )
        ensures { IsTakenBy judge.now table.now link beat.now shown self.old self.new }
    {
        self.note(link, beat, judge.beats_come(link) > 0);
        let now = both(self.goes_on(), self.is_open(judge, link, beat, shown));
        self.find(judge, table, now);
    }

    /// Whether the answer may bring this byte at a place of its block. It may bring any that the access doesn't reach.
    fn allows(&self, place: usize, byte: u8) -> bool
        ensures allows { place < 64 → result ≡ code.allows self.now place byte }
        ensures small { byte < 256 }
    {
        if place >= 64 || !reaches(self.address, self.size, place) {
            return true;
        }
        self.found[place].has(byte)
    }

    /// The values that the answer may bring at each place of its block: all at a place that the access doesn't reach.
    pub(crate) fn sets(&self) -> [ByteSet; 64]
        ensures { (place v : ℕ) → place < 64 → v < 256 → has_at result place v ≡ code.allows self.now place v }
    {
        let mut sets = self.found;
        for place in 0..64usize {
            if !reaches(self.address, self.size, place) {
                sets[place] = ByteSet::all();
            }
        }
        sets
    }

    /// Whether the answer may bring each of these bytes, from a place on.
    pub(crate) fn allows_each<const W: usize>(&self, first: usize, lanes: &[u8; W]) -> bool
        ensures { (block : ℕ) (test : ℕ → ℕ → Bool) → AllowsAs self.now block test → first + W ≤ 64 →
            result ≡ each_from test (64 * block + first) lanes.now }
    {
        for lane in 0..W {
            if !self.allows(first.saturating_add(lane), lanes[lane]) {
                return false;
            }
        }
        true
    }
}
