//! Follows the events of a trace for a response that breaks a rule of memory.

ghost use Rattle.std.specs.Prelude.{◌≡◌, [], List, true, not, IfOk, IfSome};
ghost use Rattle.tl_beat.specs.statement.Width.{IsWidth};
ghost use Rattle.tl_commits.specs.statement.Completeness.{Completeness};
ghost use Rattle.tl_commits.specs.statement.Events.{Events};
ghost use Rattle.tl_commits.specs.statement.Knows.{IsEvent};
ghost use Rattle.tl_commit_story.specs.code.Placing.{is_of_links};
ghost use Rattle.tl_commit_story.specs.code.Responses.{FollowsResponses, KeepsResponses, KnowsResponses};
ghost use Rattle.tl_commit_story.specs.code.Responses.{TellsBytes, TellsResponse};
ghost use Rattle.tl_evidence.specs.code.Following.{KnowsCopy};
ghost use Rattle.tl_params.specs.declared.level.Level.{Level};
ghost use Rattle.tl_params.specs.declared.liberties.Liberties.{Liberties};

use crate::links_record::{LinksRecord, is_of_links};
use std::alloc::{AllocError, Global};
use tl_beat::beat::{BeatD, Link};
use tl_commit_lines::header::MarkedLevel;
use tl_commit_lines::judge::{complete_of, levels_of};
use tl_events::commit::Event;
use tl_evidence::copy_record::CopyRecord;
use tl_explain::turns::Subject;
use tl_params::liberties::Liberties;
use tl_rules::memory_rule::MemoryRule;
use tl_witness::places::Places;

/// Keeps the facts of a trace's events that the grounds for a breach of a rule of memory need.
#[derive(Drop)]
pub enum ResponseFollower<const W: usize> {
    /// For M1 and M4.
    OfLinks(LinksRecord<W>),
    /// For M2 and M3.
    OfBytes(CopyRecord<W>),
}

/// Whether the rule is about the bytes of responses.
fn is_of_bytes(rule: MemoryRule) -> bool
    ensures { result ≡ not (is_of_links rule) }
{
    matches!(rule, MemoryRule::M2 | MemoryRule::M3)
}

/// Appends the bytes of a response that it can't have, for a breach of M2 or M3. Returns true if they are for it. All
/// that is known stays true.
fn tell_bytes<const W: usize, X: Places>(
    places: &X,
    kept: &mut CopyRecord<W>,
    rule: MemoryRule,
    link: Link,
    x: &BeatD<W>,
    out: &mut Vec<u8>,
) -> Result<bool, AllocError>
    requires { IsWidth W }
    ensures knows { (may : Liberties) (levels : List Level) (complete : Completeness) (e : Events W) →
        KnowsCopy kept.old may levels complete e → KnowsCopy kept.new may levels complete e }
    ensures tells { IfOk result (λ told. told ≡ true →
        TellsBytes kept.old (X.names places.now) rule link x.now out.old.items out.new.items) }
{
    if !is_of_bytes(rule) || link != kept.link {
        return Ok(false);
    }
    kept.tell_response(places, x, out)
}

impl<const W: usize> ResponseFollower<W> {
    /// Follows the permissions that all links hold of a block.
    fn of_links(
        alloc: Global,
        block: u32,
        links: &[MarkedLevel],
        zero: bool,
        may: Liberties,
    ) -> Result<Option<Self>, AllocError>
        requires { IsWidth W }
        ensures { IfOk result (λ kept. IfSome kept (λ f. KnowsResponses f may
            (record { zero = zero; levels = links.now }) [])) }
    {
        let levels = levels_of(alloc, links)?;
        let kept = LinksRecord::new(alloc, block, levels.as_slice(), may)?;
        match kept {
            None => Ok(None),
            Some(kept) => Ok(Some(ResponseFollower::OfLinks(kept))),
        }
    }

    /// Follows the values of a block's bytes for a response of this subject.
    fn of_bytes(
        alloc: Global,
        subject: Subject,
        links: &[MarkedLevel],
        zero: bool,
        may: Liberties,
    ) -> Result<Option<Self>, AllocError>
        requires { IsWidth W }
        ensures { IfOk result (λ kept. IfSome kept (λ f. KnowsResponses f may
            (record { zero = zero; levels = links.now }) [])) }
    {
        let levels = levels_of(alloc, links)?;
        let levels = levels.as_slice();
        let complete = complete_of(alloc, links)?;
        let complete = complete.as_slice();
        let (link, block) = (subject.link, subject.block);
        let kept = CopyRecord::new(alloc, link, block, levels, complete, zero, may)?;
        match kept {
            None => Ok(None),
            Some(kept) => Ok(Some(ResponseFollower::OfBytes(kept))),
        }
    }

    /// Follows these links, which have these liberties, for a breach of the rule by a response of this subject. `zero` says
    /// whether memory was zero before the trace. None if there is no such block or link.
    pub fn new(
        alloc: Global,
        rule: MemoryRule,
        subject: Subject,
        links: &[MarkedLevel],
        zero: bool,
        may: Liberties,
    ) -> Result<Option<Self>, AllocError>
        requires { IsWidth W }
        ensures { IfOk result (λ kept. IfSome kept (λ f. KnowsResponses f may
            (record { zero = zero; levels = links.now }) [])) }
    {
        if is_of_links(rule) {
            Self::of_links(alloc, subject.block, links, zero, may)
        } else {
            Self::of_bytes(alloc, subject, links, zero, may)
        }
    }

    /// Takes the event of the line with this number. Returns true if it could be taken.
    pub fn take(
        &mut self,
        number: u64,
        line: &[u8],
        link: Link,
        event: &Event<W>,
    ) -> Result<bool, AllocError>
        requires width { IsWidth W }
        requires valid { IsEvent event.now }
        ensures { IfOk result (λ on. on ≡ true → FollowsResponses self.old self.new number link event.now) }
    {
        match self {
            ResponseFollower::OfLinks(kept) => kept.take(line, link, event),
            ResponseFollower::OfBytes(kept) => kept.take(number, link, event),
        }
    }

    /// Appends the grounds for a breach of the rule by a response, with lines and addresses that are named so. Returns true
    /// if they are for it. All that is known stays true.
    pub fn tell<X: Places>(
        &mut self,
        places: &X,
        rule: MemoryRule,
        link: Link,
        x: &BeatD<W>,
        out: &mut Vec<u8>,
    ) -> Result<bool, AllocError>
        requires { IsWidth W }
        ensures knows { KeepsResponses self.old self.new }
        ensures tells { IfOk result (λ told. told ≡ true →
            TellsResponse self.old (X.names places.now) rule link x.now out.old.items out.new.items) }
    {
        match self {
            ResponseFollower::OfLinks(kept) => kept.tell(places, rule, link, x, out),
            ResponseFollower::OfBytes(kept) => tell_bytes(places, kept, rule, link, x, out),
        }
    }
}
