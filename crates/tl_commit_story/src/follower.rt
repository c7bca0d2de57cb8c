//! Follows the events of a trace for the reasons of its first fault.

ghost use Rattle.std.specs.Prelude.{◌≡◌, [], true, IfOk, IfSome};
ghost use Rattle.tl_beat.specs.declared.beat.Beat.TheVariants as beat;
ghost use Rattle.tl_beat.specs.statement.Width.{IsWidth};
ghost use Rattle.tl_commit_story.specs.code.Followers.{FollowsEvent, KnowsFollower, TellsGrounds};
ghost use Rattle.tl_lines.specs.declared.fault.Fault.{Fault};
ghost use Rattle.tl_events.specs.declared.commit.Event.TheVariants as event;
ghost use Rattle.tl_events.specs.statement.EventLine.{SpellsEvent};

use crate::copy_follower::CopyFollower;
use crate::link_record::LinkRecord;
use crate::response_follower::ResponseFollower;
use std::alloc::{AllocError, Global};
use tl_beat::beat::{Beat, BeatD, Link};
use tl_commit_lines::header::MarkedLevel;
use tl_commit_lines::judge::{complete_of, levels_of};
use tl_events::commit::Event;
use tl_events::rule::CommitRule;
use tl_explain::turns::Subject;
use tl_explain::wording::AsRecorded;
use tl_lines::fault::Fault;
use tl_params::liberties::Liberties;
use tl_rules::memory_rule::MemoryRule;
use tl_rules::rule::Rule;

/// Keeps the facts of a trace's events that the grounds for its first fault need.
#[derive(Drop)]
pub enum Follower<const W: usize> {
    /// For a rule of a link.
    OfLink(LinkRecord<W>),
    /// For a rule of stores and loads.
    OfCopy(CopyFollower<W>),
    /// For a rule of memory.
    OfResponse(ResponseFollower<W>),
    /// For another fault.
    OfNothing,
}

impl<const W: usize> Follower<W> {
    /// Follows these links, which have these liberties, for the fault of an event of this subject. `zero` says whether
    /// memory was zero before the trace. None if there is no such block or link.
    pub fn new(
        alloc: Global,
        together: bool,
        fault: Fault,
        subject: Subject,
        links: &[MarkedLevel],
        zero: bool,
        may: Liberties,
    ) -> Result<Option<Self>, AllocError>
        requires { IsWidth W }
        ensures { IfOk result (λ follower. IfSome follower (λ f. KnowsFollower together f may
            (record { zero = zero; levels = links.now }) [])) }
    {
        let levels = levels_of(alloc, links)?;
        let levels = levels.as_slice();
        match fault {
            Fault::Rule(_) => {
                let kept = LinkRecord::new(alloc, together, subject, levels, may)?;
                Ok(Some(Follower::OfLink(kept)))
            }
            Fault::MemoryRule(rule) => {
                let kept = ResponseFollower::new(alloc, rule, subject, links, zero, may)?;
                match kept {
                    None => Ok(None),
                    Some(kept) => Ok(Some(Follower::OfResponse(kept))),
                }
            }
            Fault::CommitRule(_) => {
                let complete = complete_of(alloc, links)?;
                let complete = complete.as_slice();
                let kept = CopyFollower::new(alloc, subject, levels, complete, zero, may)?;
                match kept {
                    None => Ok(None),
                    Some(kept) => Ok(Some(Follower::OfCopy(kept))),
                }
            }
            _ => Ok(Some(Follower::OfNothing)),
        }
    }

    /// Takes the event of the line with this number. Returns true if it could be taken.
    pub fn take(
        &mut self,
        number: u64,
        line: &[u8],
        link: Link,
        event: &Event<W>,
    ) -> Result<bool, AllocError>
        requires width { IsWidth W }
        requires spelled { SpellsEvent line.now link event.now }
        ensures { IfOk result (λ on. on ≡ true → FollowsEvent self.old self.new number link event.now) }
    {
        match self {
            Follower::OfLink(kept) => kept.take(number, line, link, event),
            Follower::OfCopy(kept) => kept.take(number, line, link, event),
            Follower::OfResponse(kept) => kept.take(number, line, link, event),
            Follower::OfNothing => Ok(true),
        }
    }

    /// Appends the grounds for a breach of a rule of its link by an event. Returns true if they are for it.
    fn tell_link(
        &self,
        rule: Rule,
        link: Link,
        event: &Event<W>,
        out: &mut Vec<u8>,
    ) -> Result<bool, AllocError>
        requires { IsWidth W }
        ensures { IfOk result (λ told. told ≡ true →
            TellsGrounds self.now (Fault.Rule rule) link event.now out.old.items out.new.items) }
    {
        match self {
            Follower::OfLink(kept) => kept.tell(rule, link, event, out),
            _ => Ok(false),
        }
    }

    /// Appends the grounds for a breach of a rule of memory by a response. Returns true if they are for it.
    fn tell_response(
        &mut self,
        rule: MemoryRule,
        link: Link,
        x: &BeatD<W>,
        out: &mut Vec<u8>,
    ) -> Result<bool, AllocError>
        requires { IsWidth W }
        ensures { IfOk result (λ told. told ≡ true →
            TellsGrounds self.old (Fault.MemoryRule rule) link (event.Beat (beat.D x.now)) out.old.items
            out.new.items) }
    {
        match self {
            Follower::OfResponse(kept) => kept.tell(&AsRecorded, rule, link, x, out),
            _ => Ok(false),
        }
    }

    /// Appends the grounds for a breach of a rule of stores and loads by an event. Returns true if they are for it.
    fn tell_copy(
        &self,
        alloc: Global,
        rule: CommitRule,
        link: Link,
        event: &Event<W>,
        out: &mut Vec<u8>,
    ) -> Result<bool, AllocError>
        requires { IsWidth W }
        ensures { IfOk result (λ told. told ≡ true →
            TellsGrounds self.now (Fault.CommitRule rule) link event.now out.old.items out.new.items) }
    {
        match self {
            Follower::OfCopy(kept) => kept.tell(alloc, rule, link, event, out),
            _ => Ok(false),
        }
    }

    /// Appends the grounds for the fault of an event. Returns true if they are for it.
    pub fn tell(
        &mut self,
        alloc: Global,
        fault: Fault,
        link: Link,
        event: &Event<W>,
        out: &mut Vec<u8>,
    ) -> Result<bool, AllocError>
        requires { IsWidth W }
        ensures { IfOk result (λ told. told ≡ true →
            TellsGrounds self.old fault link event.now out.old.items out.new.items) }
    {
        match (fault, event) {
            (Fault::Rule(rule), _) => self.tell_link(rule, link, event, out),
            (Fault::MemoryRule(rule), Event::Beat(Beat::D(x))) => {
                self.tell_response(rule, link, x, out)
            }
            (Fault::CommitRule(rule), _) => self.tell_copy(alloc, rule, link, event, out),
            _ => Ok(false),
        }
    }
}
