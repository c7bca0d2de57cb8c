//! Follows a block in the cache of a link through the events of a trace.

ghost use Rattle.std.specs.Prelude.{◌≡◌, ◌+◌, ◌≤◌, ◌++◌, ◌∷◌, [], false, true, IfOk, IsTrue, List, OnOk, if◌then◌else◌};
ghost use Rattle.std.specs.Prelude.{length};
ghost use Rattle.tl_beat.specs.declared.beat.Beat.{Beat};
ghost use Rattle.tl_beat.specs.declared.beat.Beat.TheVariants as beat;
ghost use Rattle.tl_beat.specs.declared.beat.Link.{Link};
ghost use Rattle.tl_beat.specs.statement.Line.{Spells};
ghost use Rattle.tl_beat.specs.statement.Width.{IsWidth};
ghost use Rattle.tl_burst.specs.statement.Part.{is_small};
ghost use Rattle.tl_commits.specs.statement.Events.{Events, beats_of};
ghost use Rattle.tl_events.specs.declared.commit.Event.TheVariants as event;
ghost use Rattle.tl_events.specs.statement.EventLine.{SpellsEvent};
ghost use Rattle.tl_explain.specs.statement.Sentences.{beat_line};
ghost use Rattle.tl_monitor.specs.statement.Knows.{KnowsUnder, held_on_under};
ghost use Rattle.tl_params.specs.declared.level.Level.{Level};
ghost use Rattle.tl_params.specs.declared.liberties.Liberties.{Liberties};
ghost use Rattle.tl_rules.specs.statement.Conformance.{Trace, same_perm};
ghost use Rattle.tl_commit_story.specs.code.Following.{FollowsBeat, IsSameBut, KnowsGrounds, TakesEvent};
ghost use Rattle.tl_commit_words.specs.statement.CommitWords.{piece_in};
ghost use Rattle.tl_commit_story.specs.statement.Cached.{is_asked, moves};
ghost use Rattle.tl_commit_story.specs.statement.Grounds.{begun_words, grounds_at, holds_words, since_words};

use crate::cached::Cached;
use crate::store_line::StoreLine;
use crate::stores::Stores;
use crate::under_way::UnderWay;
use crate::words::append_digits;
use std::alloc::{AllocError, Global};
use tl_beat::beat::{Beat, BeatD, Link};
use tl_events::commit::{Commit, Event};
use tl_explain::bursts::is_small;
use tl_explain::words::{append_beat_line, perm_name};
use tl_memory::message::both;
use tl_monitor::fault::MonitorFault;
use tl_monitor::monitor::Monitor;
use tl_rules::key::block_at;
use tl_rules::kind::is_grant;
use tl_rules::past::Request;
use tl_rules::perm::Perm;

/// A block in the cache of a link: the permission held and the event at which it changed, the data
/// under way, and the last store to each byte.
#[derive(Drop)]
pub struct Grounds<const W: usize> {
    pub cached: Cached,
    pub monitor: Monitor<W>,
    /// The words of the last event at which the permission held changed; empty if it never has.
    pub since: Vec<u8>,
    /// The unfinished message on channel D of the link.
    pub granting: UnderWay,
    /// That on channel C.
    pub giving: UnderWay,
    pub stores: Stores,
}

/// Whether there is a request, of this block.
fn is_asked(asked: Option<Request>, block: u32) -> bool
    ensures { result ≡ is_asked asked block }
{
    match asked {
        None => false,
        Some(asked) => asked.block == block,
    }
}

/// Pushes a beat to a monitor. Returns true if it took the beat.
pub fn push<const W: usize>(
    monitor: &mut Monitor<W>,
    link: Link,
    beat: &Beat<W>,
) -> Result<bool, AllocError>
    requires { IsWidth W }
    ensures { IfOk result (λ on. on ≡ true → (levels : List Level) (may : Liberties) (t : Trace W) →
        KnowsUnder monitor.old levels may t false → KnowsUnder monitor.new levels may ((link, beat.now) ∷ t) false) }
{
    match monitor.try_push(link, beat) {
        Ok(()) => Ok(true),
        Err(MonitorFault::Memory) => Err(AllocError),
        Err(_) => Ok(false),
    }
}

/// Notes the beat of a line, if with it the permission held changed from `before` to `after`.
fn note<const W: usize>(
    since: &mut Vec<u8>,
    before: Perm,
    after: Perm,
    number: u64,
    line: &[u8],
) -> Result<(), AllocError>
    requires { IsWidth W }
    ensures { OnOk result ((link : Link) (beat : Beat W) → Spells line.now link beat → since.new.items
        ≡ (if same_perm after before then since.old.items else beat_line number link beat)) }
{
    if after == before {
        return Ok(());
    }
    since.clear();
    append_beat_line::<W>(number, line, since)
}

/// Appends the permission that a link holds of a block.
fn append_holds(cached: Cached, perm: Perm, out: &mut Vec<u8>) -> Result<(), AllocError>
    ensures { OnOk result (out.new.items ≡ out.old.items ++ holds_words cached perm) }
{
    out.extend_from_slice(b"  link ")?;
    append_digits(u64::from(cached.link.0), 2, out)?;
    out.extend_from_slice(b" holds ")?;
    out.extend_from_slice(perm_name(perm).as_bytes())?;
    out.extend_from_slice(b" of block ")?;
    append_digits(64 * u64::from(cached.block), 8, out)
}

/// Appends since when it holds that.
fn append_since(since: &[u8], out: &mut Vec<u8>) -> Result<(), AllocError>
    ensures { OnOk result (out.new.items ≡ out.old.items ++ since_words since.now) }
{
    match since {
        [] => out.extend_from_slice(b" since the start of the trace\n"),
        [_, ..] => {
            out.extend_from_slice(b" since:\n")?;
            out.extend_from_slice(since)
        }
    }
}

/// Appends the first beat of an unfinished message, if there is one.
fn append_begun(label: &str, begun: &[u8], out: &mut Vec<u8>) -> Result<(), AllocError>
    ensures { OnOk result (out.new.items ≡ out.old.items ++ begun_words label.now begun.now) }
{
    match begun {
        [] => Ok(()),
        [_, ..] => {
            out.extend_from_slice(label.as_bytes())?;
            out.extend_from_slice(begun)
        }
    }
}

impl<const W: usize> Grounds<W> {
    /// Nothing is known. The monitor has seen no beat.
    pub fn new(alloc: Global, cached: Cached, monitor: Monitor<W>) -> Grounds<W>
        ensures { (levels : List Level) (may : Liberties) → KnowsUnder monitor.entry levels may [] false →
            KnowsGrounds result may levels [] }
    {
        Grounds {
            cached,
            monitor,
            since: Vec::new(alloc),
            granting: UnderWay::new(alloc),
            giving: UnderWay::new(alloc),
            stores: Stores::new(),
        }
    }

    /// The permission held.
    fn held(&self) -> Perm
        ensures { (levels : List Level) (may : Liberties) (t : Trace W) → KnowsUnder self.now.monitor levels may t false →
            result ≡ held_on_under may levels self.now.cached.link self.now.cached.block t }
    {
        self.monitor.held_under(self.cached.link, self.cached.block)
    }

    /// Whether a response of the link is a Grant of the block.
    fn grants(&self, x: &BeatD<W>) -> bool
        ensures { (levels : List Level) (may : Liberties) (e : Events W) →
            KnowsUnder self.now.monitor levels may (beats_of e) false →
            result ≡ moves levels self.now.cached (beat.D x.now) e }
    {
        let asked = self.monitor.request(self.cached.link, x.source);
        both(is_grant(x.opcode), is_asked(asked, self.cached.block))
    }

    /// Follows the messages of the link through a beat.
    fn follow(
        &mut self,
        number: u64,
        line: &[u8],
        link: Link,
        beat: &Beat<W>,
    ) -> Result<(), AllocError>
        requires width { IsWidth W }
        requires small { IsTrue (is_small beat.now) }
        requires spelled { Spells line.now link beat.now }
        ensures same { IsSameBut self.old self.new }
        ensures follows { OnOk result (FollowsBeat self.old self.new number link beat.now) }
    {
        if link != self.cached.link {
            return Ok(());
        }
        match beat {
            Beat::C(x) => {
                let moves = block_at(x.address) == self.cached.block;
                self.giving.take(moves, number, line, beat)
            }
            Beat::D(x) => {
                let moves = self.grants(x);
                self.granting.take(moves, number, line, beat)
            }
            _ => Ok(()),
        }
    }

    /// Takes the beat of the line with this number. Returns true if a monitor takes it.
    fn take_beat(
        &mut self,
        number: u64,
        line: &[u8],
        link: Link,
        beat: &Beat<W>,
    ) -> Result<bool, AllocError>
        requires width { IsWidth W }
        requires spelled { Spells line.now link beat.now }
        ensures { IfOk result (λ on. on ≡ true → TakesEvent self.old self.new number link (event.Beat beat.now)) }
    {
        if !is_small(beat) {
            return Ok(false);
        }
        self.follow(number, line, link, beat)?;
        let before = self.held();
        if !push(&mut self.monitor, link, beat)? {
            return Ok(false);
        }
        let after = self.held();
        note::<W>(&mut self.since, before, after, number, line)?;
        Ok(true)
    }

    /// Takes the commit of the line with this number.
    fn take_commit(&mut self, number: u64, link: Link, commit: Commit)
        requires { (piece_in commit).size ≤ 3 }
        ensures { TakesEvent self.old self.new number link (event.Commit commit) }
    {
        if let Commit::Store { piece, value } = commit {
            let store = StoreLine {
                number,
                link,
                piece,
                value,
            };
            self.stores.take(self.cached.block, store);
        }
    }

    /// Takes the event of the line with this number. Returns true if a monitor takes it.
    pub fn take(
        &mut self,
        number: u64,
        line: &[u8],
        link: Link,
        event: &Event<W>,
    ) -> Result<bool, AllocError>
        requires width { IsWidth W }
        requires spelled { SpellsEvent line.now link event.now }
        ensures { IfOk result (λ on. on ≡ true → TakesEvent self.old self.new number link event.now) }
    {
        match event {
            Event::Beat(beat) => self.take_beat(number, line, link, beat),
            Event::Commit(commit) => {
                self.take_commit(number, link, *commit);
                Ok(true)
            }
        }
    }

    #[tactic(auto, unfolding(crate::specs::statement::Grounds::grounds_at))]
    /// Appends the grounds for the fault of an event that is about `count` bytes of the block from a place on.
    pub fn tell(
        &self,
        alloc: Global,
        first: usize,
        count: usize,
        out: &mut Vec<u8>,
    ) -> Result<(), AllocError>
        requires { first + count ≤ 64 }
        ensures { OnOk result ((may : Liberties) (levels : List Level) (e : Events W) →
            KnowsGrounds self.now may levels e → out.new.items
            ≡ out.old.items ++ grounds_at may levels self.now.cached (first, count) e) }
    {
        append_holds(self.cached, self.held(), out)?;
        append_since(&self.since, out)?;
        append_begun(
            "  a GrantData of the block is under way since:\n",
            &self.granting.begun,
            out,
        )?;
        append_begun(
            "  a ProbeAckData or ReleaseData of the block is under way since:\n",
            &self.giving.begun,
            out,
        )?;
        self.stores.tell(alloc, first, count, out)
    }
}
