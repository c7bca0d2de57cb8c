//! Follows the events of a wide trace for a response that breaks a rule of memory.

ghost use Rattle.std.specs.Prelude.{◌≡◌, [], true, IfOk, IfSome};
ghost use Rattle.tl_beat.specs.statement.Width.{IsWidth};
ghost use Rattle.tl_commit_lines.specs.statement.MarkedHeader.{links_in};
ghost use Rattle.tl_commit_story.specs.code.Responses.{FollowsResponses, KnowsResponses};
ghost use Rattle.tl_events.specs.declared.commit.Event.TheVariants as event;
ghost use Rattle.tl_events.specs.statement.CommitLine.{IsCommit};
ghost use Rattle.tl_wide.specs.statement.Width.{IsWideWidth};
ghost use Rattle.tl_wide_event_story.specs.code.Guiding.{FollowsResponse, IsResponse, MeetsResponse, NotesRequest, asked_after};

use crate::passing::{Met, Passing};
use std::alloc::{AllocError, Global};
use tl_beat::beat::{Beat, Link};
use tl_commit_lines::header::CommitHeader;
use tl_commit_story::response_follower::ResponseFollower;
use tl_events::commit::{Commit, Event};
use tl_rules::memory_rule::MemoryRule;
use tl_wide::beat::WideBeat;
use tl_wide_lines::judge::Clue;
use tl_wide_story::numbering::Numbering;
use tl_wide_story::places::WidePlaces;

/// The facts for a response that breaks a rule of memory, and the request that it answers.
#[derive(Drop)]
pub struct ResponseGuide<const P: usize> {
    pub link: Link,
    /// The source of the response.
    pub source: u16,
    pub follower: ResponseFollower<P>,
    /// The address of the last request with this source on the link; 0 if there is none.
    pub asked: u64,
}

/// The address of the last request with a source on a link: that of a wide beat, or the one before it.
fn asked_after<const W: usize>(
    own: Link,
    source: u16,
    link: Link,
    beat: &WideBeat<W>,
    before: u64,
) -> u64
    ensures { result ≡ asked_after own source link beat.now before }
{
    match beat {
        WideBeat::A(x) => {
            if link.0 == own.0 && x.source == source {
                x.address
            } else {
                before
            }
        }
        WideBeat::B(_) | WideBeat::C(_) | WideBeat::D(_) | WideBeat::E(_) => before,
    }
}

/// Whether a wide beat is a response with a source on a link.
fn is_response<const W: usize>(own: Link, source: u16, link: Link, beat: &WideBeat<W>) -> bool
    ensures { result ≡ true → IsResponse own source link beat.now }
{
    match beat {
        WideBeat::D(x) => link == own && x.source == source,
        _ => false,
    }
}

impl<const P: usize> ResponseGuide<P> {
    /// Follows the links that a header names, for a response of these names that breaks the rule, before any event. None if
    /// there is no such block or link.
    pub fn new(
        alloc: Global,
        rule: MemoryRule,
        clue: &Clue,
        header: &CommitHeader,
    ) -> Result<Option<Self>, AllocError>
        requires { IsWidth P }
        ensures { IfOk result (λ kept. IfSome kept (λ g. KnowsResponses g.follower header.now.may (links_in header.now) []
            × (g.asked ≡ 0))) }
    {
        let (subject, links) = (clue.subject, header.links.as_slice());
        let follower = ResponseFollower::new(alloc, rule, subject, links, header.zero, header.may)?;
        match follower {
            None => Ok(None),
            Some(follower) => Ok(Some(ResponseGuide {
                link: subject.link,
                source: clue.source,
                follower,
                asked: 0,
            })),
        }
    }

    /// Keeps the address of a request that the response may answer.
    pub fn note_address<const W: usize>(&mut self, link: Link, beat: &WideBeat<W>)
        ensures { NotesRequest self.old self.new link beat.now }
    {
        self.asked = asked_after(self.link, self.source, link, beat, self.asked);
    }

    /// Takes a part of a wide beat, which is recorded with this number. Returns true if it breaks no rule.
    pub fn take_part<const W: usize>(
        &mut self,
        number: u64,
        passing: Passing<'_, W>,
        part: &Beat<P>,
    ) -> Result<bool, AllocError>
        requires { IsWidth P }
        ensures { IfOk result (λ on. on ≡ true →
            FollowsResponse self.old self.new number passing.entry.link (event.Beat part.now)) }
    {
        let event = Event::Beat(*part);
        self.follower
            .take(number, passing.cited, passing.link, &event)
    }

    /// Takes a commit, which is recorded with this number. Returns true if it breaks no rule.
    pub fn take_commit(
        &mut self,
        number: u64,
        link: Link,
        narrow: Commit,
    ) -> Result<bool, AllocError>
        requires width { IsWidth P }
        requires commit { IsCommit narrow }
        ensures { IfOk result (λ on. on ≡ true → FollowsResponse self.old self.new number link (event.Commit narrow)) }
    {
        self.follower
            .take(number, &[], link, &Event::Commit(narrow))
    }

    /// Meets a part of the wide beat at fault: appends the grounds if the part is at fault, and takes it if it isn't. Then
    /// the text is of no use.
    pub fn meet_part<const W: usize>(
        &mut self,
        numbering: &Numbering,
        rule: MemoryRule,
        number: u64,
        passing: Passing<'_, W>,
        part: &Beat<P>,
        out: &mut Vec<u8>,
    ) -> Result<Met, AllocError>
        requires wide { IsWideWidth W }
        requires width { IsWidth P }
        ensures { IfOk result (MeetsResponse self.old self.new numbering.now.later.items number rule passing.entry.link
            passing.entry.beat.now part.now out.old.items out.new.items) }
    {
        let Beat::D(x) = part else {
            return Ok(Met::Strange);
        };
        if !is_response(self.link, self.source, passing.link, passing.beat) {
            return Ok(Met::Strange);
        }
        let places = WidePlaces {
            numbering,
            address: self.asked,
        };
        if !self.follower.tell(&places, rule, passing.link, x, out)? {
            return Ok(Met::Strange);
        }
        if self.take_part(number, passing, part)? {
            return Ok(Met::Taken);
        }
        Ok(Met::AtFault)
    }
}
