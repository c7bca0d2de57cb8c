//! Follows the permissions that all links hold of a block, for a breach of M1 or M4.

ghost use Rattle.std.specs.Prelude.{ℕ, List, [], ◌∷◌, true, false, length, IfOk, IfSome, ◌≡◌};
ghost use Rattle.tl_beat.specs.statement.Width.{IsWidth};
ghost use Rattle.tl_commit_story.specs.code.Placing.{FollowsLinks, IsAnswered, KnowsLinks, TellsLinks, is_of_links};
ghost use Rattle.tl_commits.specs.statement.Events.{Events};
ghost use Rattle.tl_events.specs.declared.commit.Commit.{Commit};
ghost use Rattle.tl_events.specs.declared.commit.Event.TheVariants as event;
ghost use Rattle.tl_params.specs.declared.level.Level.{Level};
ghost use Rattle.tl_params.specs.declared.liberties.Liberties.{Liberties};
ghost use Rattle.tl_rules.specs.statement.Conformance.{Trace};
ghost use Rattle.tl_together.specs.statement.Knows.{Knows};

use crate::beat_lines::{BeatLines, BeatPlaces};
use std::alloc::{AllocError, Global};
use tl_beat::beat::{Beat, BeatD, Link};
use tl_events::commit::Event;
use tl_params::level::Level;
use tl_params::liberties::Liberties;
use tl_rules::memory_rule::MemoryRule;
use tl_together::fault::JudgeFault;
use tl_together::judge::Judge;
use tl_witness::grounds;
use tl_witness::places::Places;
use tl_witness::witness::Witness;

/// The number of blocks: an address has 32 bits.
const BLOCKS: u32 = 1 << 26;

/// The permissions that all links hold of a block, by the beats alone, with the lines of the trace.
#[derive(Drop)]
pub struct LinksRecord<const W: usize> {
    pub block: u32,
    pub judge: Judge<W>,
    pub witness: Witness,
    pub lines: BeatLines,
}

/// Gives a beat to a judge, which judges its bytes by no rule. Returns true if the judge takes it.
fn push<const W: usize>(
    judge: &mut Judge<W>,
    link: Link,
    beat: &Beat<W>,
) -> Result<bool, AllocError>
    requires { IsWidth W }
    ensures { IfOk result (λ on. on ≡ true → (levels : List Level) (may : Liberties) (t : Trace W) →
        Knows judge.old levels may t false → Knows judge.new levels may ((link, beat.now) ∷ t) false) }
{
    match judge.try_push_but_bytes(link, beat) {
        Ok(()) => Ok(true),
        Err(JudgeFault::Memory) => Err(AllocError),
        Err(_) => Ok(false),
    }
}

/// Whether the rule is about the permissions that links hold.
pub fn is_of_links(rule: MemoryRule) -> bool
    ensures { result ≡ is_of_links rule }
{
    matches!(rule, MemoryRule::M1 | MemoryRule::M4)
}

impl<const W: usize> LinksRecord<W> {
    /// The record of a block, on links of these levels and with these liberties, before any event. None if there is no
    /// such block.
    pub fn new(
        alloc: Global,
        block: u32,
        levels: &[Level],
        may: Liberties,
    ) -> Result<Option<Self>, AllocError>
        requires { IsWidth W }
        ensures { IfOk result (λ kept. IfSome kept (λ r. KnowsLinks r may levels.now [])) }
    {
        if block >= BLOCKS {
            return Ok(None);
        }
        let Ok(judge) = Judge::with_liberties(alloc, levels, may) else {
            return Err(AllocError);
        };
        match Witness::new(alloc, levels.len() as u8, block) {
            Ok(witness) => Ok(Some(LinksRecord {
                block,
                judge,
                witness,
                lines: BeatLines::new(alloc),
            })),
            Err(error) => {
                drop(judge);
                Err(error)
            }
        }
    }

    /// Takes the beat of a line. Returns true if it breaks no rule.
    fn take_beat(&mut self, line: &[u8], link: Link, beat: &Beat<W>) -> Result<bool, AllocError>
        requires { IsWidth W }
        ensures { IfOk result (λ on. on ≡ true → FollowsLinks self.old self.new link (event.Beat beat.now)) }
    {
        let number = self.lines.last.checked_add(1).ok_or(AllocError)?;
        match self.witness.take(number, line, link, beat) {
            Ok(()) => {}
            Err(_) => return Ok(false),
        }
        self.lines.last = number;
        push(&mut self.judge, link, beat)
    }

    /// Takes a commit.
    fn take_commit(&mut self) -> Result<bool, AllocError>
        ensures { IfOk result (λ on. on ≡ true → (link : Link) (commit : Commit) →
            FollowsLinks self.old self.new link (event.Commit commit)) }
    {
        self.lines.note_commit()?;
        Ok(true)
    }

    /// Takes the event of a line. Returns true if it breaks no rule.
    pub fn take(&mut self, line: &[u8], link: Link, event: &Event<W>) -> Result<bool, AllocError>
        requires { IsWidth W }
        ensures { IfOk result (λ on. on ≡ true → FollowsLinks self.old self.new link event.now) }
    {
        match event {
            Event::Beat(beat) => self.take_beat(line, link, beat),
            Event::Commit(_) => self.take_commit(),
        }
    }

    /// Whether a response answers a request of the block.
    fn is_answered(&self, link: Link, source: u8) -> bool
        ensures { result ≡ true → (levels : List Level) (may : Liberties) (t : Trace W) →
            Knows self.now.judge levels may t false →
            IsAnswered levels link source self.now.block t }
    {
        match self.judge.request(link, source) {
            None => false,
            Some(asked) => asked.block == self.block,
        }
    }

    /// Appends the links that hold, or are being granted, a permission which conflicts with a response that breaks M1 or
    /// M4, and for M4 the line in which its request was complete, with the lines of events and addresses named so. Returns
    /// true if they are for it. All that is known stays true.
    pub fn tell<X: Places>(
        &mut self,
        places: &X,
        rule: MemoryRule,
        link: Link,
        x: &BeatD<W>,
        out: &mut Vec<u8>,
    ) -> Result<bool, AllocError>
        requires { IsWidth W }
        ensures knows { (may : Liberties) (levels : List Level) (e : Events W) → KnowsLinks self.old may levels e →
            KnowsLinks self.new may levels e }
        ensures tells { IfOk result (λ told. told ≡ true →
            TellsLinks self.old (X.names places.now) rule link x.now out.old.items out.new.items) }
    {
        if !is_of_links(rule) || !self.is_answered(link, x.source) {
            return Ok(false);
        }
        let places = BeatPlaces {
            lines: &self.lines,
            places,
        };
        grounds::tell(&places, &self.witness, &mut self.judge, rule, link, x, out)?;
        Ok(true)
    }
}
