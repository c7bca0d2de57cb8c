//! Records the beats of a link, for a breach of one of its rules.

ghost use Rattle.std.specs.Prelude.{◌≡◌, ◌++◌, Bool, [], ◌∷◌, List, IfOk, OnOk, true, slice_get};
ghost use Rattle.tl_allowed.specs.code.Known.{Knows};
ghost use Rattle.tl_beat.specs.declared.beat.Link.{Link};
ghost use Rattle.tl_beat.specs.statement.Width.{IsWidth};
ghost use Rattle.tl_commit_story.specs.code.Recording.{KnowsAllowances, KnowsLink, RecordsEvent, TellsLink};
ghost use Rattle.tl_commit_story.specs.statement.Grounds.{allowance};
ghost use Rattle.tl_commits.specs.statement.Events.{Events, beats_of};
ghost use Rattle.tl_events.specs.declared.commit.Commit.{Commit};
ghost use Rattle.tl_events.specs.declared.commit.Event.TheVariants as event;
ghost use Rattle.tl_params.specs.declared.level.Level.{Level};
ghost use Rattle.tl_params.specs.declared.liberties.Liberties.{Liberties};
ghost use Rattle.tl_params.specs.declared.rule.Rule.{Rule};
ghost use Rattle.tl_rules.specs.statement.Conformance.{Trace};

use crate::numbered::{no_beat, no_link};
use crate::sentences::no_cache_words;
use std::alloc::{AllocError, Global};
use tl_allowed::allowances::Allowances;
use tl_beat::beat::{Beat, Link};
use tl_events::commit::Event;
use tl_evidence::conviction::tell_conviction;
use tl_explain::recorder::Recorder;
use tl_explain::turns::Subject;
use tl_explain::wording::AsRecorded;
use tl_links::allowing::append_line;
use tl_monitor::fault::MonitorFault;
use tl_params::level::Level;
use tl_params::liberties::Liberties;
use tl_rules::rule::Rule;

/// The record of a link, with the numbers of the trace's lines, and the liberties that each alone would allow an event.
#[derive(Drop)]
pub struct LinkRecord<const W: usize> {
    alloc: Global,
    recorder: Recorder,
    /// The liberties of the links.
    may: Liberties,
    /// The level of the link. None if the header names no such link.
    level: Option<Level>,
    /// None if all links are judged together.
    allowances: Option<Allowances<W>>,
}

/// The further liberties of links of these levels that are looked at, before any beat: none if all links are judged
/// together.
fn allowances_of<const W: usize>(
    alloc: Global,
    together: bool,
    levels: &[Level],
    may: Liberties,
) -> Result<Option<Allowances<W>>, AllocError>
    requires { IsWidth W }
    ensures { IfOk result (λ allowances. KnowsAllowances together allowances levels.now may []) }
{
    if together {
        return Ok(None);
    }
    match Allowances::new(alloc, levels, may) {
        Ok(allowances) => Ok(Some(allowances)),
        Err(_) => Err(AllocError),
    }
}

/// Takes a beat. Returns true if it could be taken.
fn take_allowed<const W: usize>(
    allowances: &mut Allowances<W>,
    link: Link,
    beat: &Beat<W>,
) -> Result<bool, AllocError>
    requires { IsWidth W }
    ensures { IfOk result (λ on. on ≡ true → (levels : List Level) (may : Liberties) (t : Trace W) →
        Knows allowances.old levels may t → Knows allowances.new levels may ((link, beat.now) ∷ t)) }
{
    match allowances.take(link, beat) {
        Ok(()) => Ok(true),
        Err(MonitorFault::Memory) => Err(AllocError),
        Err(_) => Ok(false),
    }
}

/// Takes a beat, if further liberties are looked at. Returns true if it could be taken.
fn take_if_any<const W: usize>(
    allowances: &mut Option<Allowances<W>>,
    link: Link,
    beat: &Beat<W>,
) -> Result<bool, AllocError>
    requires { IsWidth W }
    ensures { IfOk result (λ on. on ≡ true → (together : Bool) (levels : List Level) (may : Liberties) (t : Trace W) →
        KnowsAllowances together allowances.old levels may t →
        KnowsAllowances together allowances.new levels may ((link, beat.now) ∷ t)) }
{
    match allowances {
        None => Ok(true),
        Some(allowances) => take_allowed(allowances, link, beat),
    }
}

/// The level of a link, if there is such a link.
fn level_at(levels: &[Level], link: Link) -> Option<Level>
    ensures { result ≡ slice_get levels.now link.0 }
{
    match levels.get(usize::from(link.0)) {
        None => None,
        Some(level) => Some(*level),
    }
}

impl<const W: usize> LinkRecord<W> {
    /// The record of the subject's link, one of links of these levels and with these liberties, before any event.
    pub fn new(
        alloc: Global,
        together: bool,
        subject: Subject,
        levels: &[Level],
        may: Liberties,
    ) -> Result<Self, AllocError>
        requires { IsWidth W }
        ensures { IfOk result (λ kept. KnowsLink together kept may levels.now []) }
    {
        let allowances = allowances_of(alloc, together, levels, may)?;
        Ok(LinkRecord {
            alloc,
            recorder: Recorder::with_liberties(may, subject),
            may,
            level: level_at(levels, subject.link),
            allowances,
        })
    }

    /// Takes the beat of the line with this number. Returns true if it could be taken.
    fn take_beat(
        &mut self,
        number: u64,
        line: &[u8],
        link: Link,
        beat: &Beat<W>,
    ) -> Result<bool, AllocError>
        requires { IsWidth W }
        ensures { IfOk result (λ on. on ≡ true → RecordsEvent self.old self.new number link (event.Beat beat.now)) }
    {
        match self.recorder.take(number, line, link, beat) {
            Err(_) => Ok(false),
            Ok(()) => take_if_any(&mut self.allowances, link, beat),
        }
    }

    /// Counts the commit of the line with this number. Returns true if it could be counted.
    fn take_commit(&mut self, number: u64, line: &[u8]) -> bool
        requires { IsWidth W }
        ensures { result ≡ true → (link : Link) (commit : Commit) →
            RecordsEvent self.old self.new number link (event.Commit commit) }
    {
        match self.recorder.take(number, line, no_link(), &no_beat::<W>()) {
            Err(_) => false,
            Ok(()) => true,
        }
    }

    /// Takes the event of the line with this number. Returns true if it could be taken.
    pub fn take(
        &mut self,
        number: u64,
        line: &[u8],
        link: Link,
        event: &Event<W>,
    ) -> Result<bool, AllocError>
        requires { IsWidth W }
        ensures { IfOk result (λ on. on ≡ true → RecordsEvent self.old self.new number link event.now) }
    {
        match event {
            Event::Beat(beat) => self.take_beat(number, line, link, beat),
            Event::Commit(_) => Ok(self.take_commit(number, line)),
        }
    }

    /// Appends the line that names the liberties of which each alone would allow a beat.
    fn tell_allowance(
        &self,
        link: Link,
        beat: &Beat<W>,
        out: &mut Vec<u8>,
    ) -> Result<(), AllocError>
        requires { IsWidth W }
        ensures { OnOk result ((together : Bool) (levels : List Level) (may : Liberties) (e : Events W) →
            KnowsAllowances together self.now.allowances levels may (beats_of e) →
            out.new.items ≡ out.old.items ++ allowance together levels may link beat.now e) }
    {
        match &self.allowances {
            None => Ok(()),
            Some(allowances) => {
                let allowing = allowances.allowing(self.alloc, link, beat)?;
                append_line(&allowing, out)
            }
        }
    }

    /// Appends the grounds, if a beat breaks this rule of its link. Returns true if it does.
    fn tell_beat(
        &self,
        rule: Rule,
        link: Link,
        beat: &Beat<W>,
        out: &mut Vec<u8>,
    ) -> Result<bool, AllocError>
        requires { IsWidth W }
        ensures { IfOk result (λ told. told ≡ true →
            TellsLink self.now rule link (event.Beat beat.now) out.old.items out.new.items) }
    {
        let mut evidence = Vec::new(self.alloc);
        if !tell_conviction(
            &AsRecorded,
            self.may,
            self.level,
            &self.recorder,
            rule,
            link,
            beat,
            &mut evidence,
        )? {
            return Ok(false);
        }
        out.extend_from_slice(&evidence)?;
        self.tell_allowance(link, beat, out)?;
        Ok(true)
    }

    /// Appends the grounds for a commit of a link without a cache. Returns true if it is of the recorded link.
    fn tell_commit(&self, link: Link, out: &mut Vec<u8>) -> Result<bool, AllocError>
        ensures { IfOk result (λ told. told ≡ true → (rule : Rule) (commit : Commit) →
            TellsLink self.now rule link (event.Commit commit) out.old.items out.new.items) }
    {
        if link != self.recorder.subject.link {
            return Ok(false);
        }
        out.extend_from_slice(no_cache_words(self.level).as_bytes())?;
        Ok(true)
    }

    /// Appends the grounds, if an event breaks this rule of its link. Returns true if they are for it.
    pub fn tell(
        &self,
        rule: Rule,
        link: Link,
        event: &Event<W>,
        out: &mut Vec<u8>,
    ) -> Result<bool, AllocError>
        requires { IsWidth W }
        ensures { IfOk result (λ told. told ≡ true →
            TellsLink self.now rule link event.now out.old.items out.new.items) }
    {
        match event {
            Event::Beat(beat) => self.tell_beat(rule, link, beat, out),
            Event::Commit(_) => self.tell_commit(link, out),
        }
    }
}
