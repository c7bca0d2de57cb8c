//! Follows the events of a wide trace by the events that they become, for the grounds of its first fault.

ghost use Rattle.std.specs.Prelude.{◌≡◌, ◌+◌, [], ◌∷◌, ℕ, List, true, IfOk, IfSome, OnOk};
ghost use Rattle.tl_beat.specs.statement.Width.{IsWidth};
ghost use Rattle.tl_commit_lines.specs.statement.MarkedHeader.{levels_of, links_in};
ghost use Rattle.tl_commits.specs.statement.Events.{Events};
ghost use Rattle.tl_events.specs.declared.commit.Event.TheVariants as event;
ghost use Rattle.tl_events.specs.statement.CommitLine.{IsCommit};
ghost use Rattle.tl_wide.specs.statement.Pieces.{left_of};
ghost use Rattle.tl_wide.specs.statement.Width.{IsWideWidth, part_width};
ghost use Rattle.tl_wide_event_story.specs.code.Guiding.{FollowsEvent, KnowsGuide, KnowsKind, NotesBeat, TakesEvent};
ghost use Rattle.tl_wide_event_story.specs.code.Guiding.{TakesEvents, TakesWide, with_later};
ghost use Rattle.tl_wide_events.specs.declared.commit.WideEvent.TheVariants as wide_event;
ghost use Rattle.tl_wide_events.specs.statement.Narrowed.{as_events};
ghost use Rattle.tl_wide_event_lines.specs.code.EventJudging.{IsValid};
ghost use Rattle.tl_wide_events.specs.statement.WideCommitLine.{IsWideCommit};

use crate::copy_guide::CopyGuide;
use crate::link_guide::LinkGuide;
use crate::passing::Passing;
use crate::response_guide::ResponseGuide;
use arrayvec::ArrayVec;
use std::alloc::{AllocError, Global};
use tl_beat::beat::{Beat, Link};
use tl_commit_lines::header::CommitHeader;
use tl_commit_lines::judge::{complete_of, levels_of};
use tl_events::commit::Commit;
use tl_lines::fault::Fault;
use tl_lines::links_header::LinksHeader;
use tl_wide::beat::WideBeat;
use tl_wide::narrow::Narrower;
use tl_wide::parts::Parts;
use tl_wide_events::commit::{WideCommit, WideEvent};
use tl_wide_events::narrow::narrow_commit;
use tl_wide_lines::judge::Clue;
use tl_wide_story::citation::citation;
use tl_wide_story::numbering::Numbering;

/// Follows events for the grounds of a fault.
#[derive(Drop)]
pub enum Kind<const W: usize, const P: usize> {
    /// For a rule of a link.
    OfLink(LinkGuide<W, P>),
    /// For a rule of stores and loads.
    OfCopy(CopyGuide<P>),
    /// For a rule of memory.
    OfResponse(ResponseGuide<P>),
    /// For another fault.
    OfNothing,
}

/// The numbers of the names of a wide trace, and the facts of its events that the grounds need.
#[derive(Drop)]
pub struct Guide<const W: usize, const P: usize> {
    pub alloc: Global,
    pub narrower: Narrower,
    pub kind: Kind<W, P>,
    /// The number with which the last event that a wide event became was recorded. That of the header is 1.
    pub recorded: u64,
    pub numbering: Numbering,
}

/// The header without the marks of its links.
pub fn plain_of(alloc: Global, header: &CommitHeader) -> Result<LinksHeader, AllocError>
    ensures { IfOk result (λ plain. (plain.may ≡ header.now.may)
        × (plain.levels.items ≡ levels_of (links_in header.now))) }
{
    let own = levels_of(alloc, header.links.as_slice())?;
    let mut levels = ArrayVec::new();
    if levels.try_extend_from_slice(&own).is_err() {
        return Err(AllocError);
    }
    Ok(LinksHeader {
        width: header.width,
        may: header.may,
        levels,
    })
}

/// Follows events for a fault, before any event of the links that a header names. None if the header has no such link.
fn kind_of<const W: usize, const P: usize>(
    alloc: Global,
    together: bool,
    fault: Fault,
    clue: &Clue,
    header: &CommitHeader,
) -> Result<Option<Kind<W, P>>, AllocError>
    requires wide { IsWideWidth W }
    requires width { IsWidth P }
    ensures { IfOk result (λ kind. IfSome kind (λ k. KnowsKind k header.now.may (links_in header.now) [] [])) }
{
    let links = plain_of(alloc, header)?;
    match fault {
        Fault::Rule(_) => {
            let guide = LinkGuide::new(alloc, together, clue, &links)?;
            Ok(Some(Kind::OfLink(guide)))
        }
        Fault::CommitRule(_) => {
            let complete = complete_of(alloc, header.links.as_slice())?;
            match CopyGuide::new(
                alloc,
                clue.subject,
                &links,
                complete.as_slice(),
                header.zero,
            )? {
                None => Ok(None),
                Some(guide) => Ok(Some(Kind::OfCopy(guide))),
            }
        }
        Fault::MemoryRule(rule) => match ResponseGuide::new(alloc, rule, clue, header)? {
            None => Ok(None),
            Some(guide) => Ok(Some(Kind::OfResponse(guide))),
        },
        _ => Ok(Some(Kind::OfNothing)),
    }
}

impl<const W: usize, const P: usize> Kind<W, P> {
    /// Keeps the address of a wide beat, if the verdict may be about its block.
    pub fn note_address(&mut self, at_fault: bool, link: Link, beat: &WideBeat<W>)
        ensures { NotesBeat self.old self.new link beat.now }
    {
        match self {
            Kind::OfLink(guide) => guide.note_address(at_fault, link, beat),
            Kind::OfResponse(guide) => guide.note_address(link, beat),
            Kind::OfCopy(_) | Kind::OfNothing => {}
        }
    }

    /// Takes a part of a wide beat, which is recorded with this number. Returns true if it could be taken.
    fn take_part(
        &mut self,
        number: u64,
        passing: Passing<'_, W>,
        part: &Beat<P>,
    ) -> Result<bool, AllocError>
        requires wide { IsWideWidth W }
        requires width { IsWidth P }
        ensures { IfOk result (λ on. on ≡ true →
            FollowsEvent self.old self.new number passing.entry.link (event.Beat part.now)) }
    {
        match self {
            Kind::OfNothing => Ok(true),
            Kind::OfCopy(guide) => guide.take_part(number, passing, part),
            Kind::OfResponse(guide) => guide.take_part(number, passing, part),
            Kind::OfLink(guide) => {
                guide.allow(passing.link, part)?;
                Ok(guide.record(passing.cited, passing.link, part))
            }
        }
    }

    /// Takes the commit in this line, which becomes a narrow one that is recorded with this number. Returns true if it could
    /// be taken.
    fn take_commit(
        &mut self,
        line: u64,
        number: u64,
        link: Link,
        commit: WideCommit,
        narrow: Commit,
    ) -> Result<bool, AllocError>
        requires width { IsWidth P }
        requires commit { IsCommit narrow }
        ensures { IfOk result (λ on. on ≡ true → FollowsEvent self.old self.new number link (event.Commit narrow)) }
    {
        match self {
            Kind::OfCopy(guide) => guide.take_commit(line, number, link, commit, narrow),
            Kind::OfResponse(guide) => guide.take_commit(number, link, narrow),
            Kind::OfLink(_) => Ok(true),
            Kind::OfNothing => Ok(true),
        }
    }
}

impl<const W: usize, const P: usize> Guide<W, P> {
    /// Follows events for a fault of an event of these names, before any event of the links that a header names. None if the
    /// header has no such link.
    pub fn new(
        alloc: Global,
        together: bool,
        fault: Fault,
        clue: &Clue,
        header: &CommitHeader,
    ) -> Result<Option<Self>, AllocError>
        requires wide { IsWideWidth W }
        requires width { IsWidth P }
        ensures { IfOk result (λ guide. IfSome guide (λ g. KnowsGuide g header.now.may (links_in header.now) []
            (λ q. []))) }
    {
        match kind_of(alloc, together, fault, clue, header)? {
            None => Ok(None),
            Some(kind) => Ok(Some(Guide {
                alloc,
                narrower: Narrower::new(alloc),
                kind,
                recorded: 1,
                numbering: Numbering::new(alloc),
            })),
        }
    }

    /// The number with which the next event is recorded. The error is that there is none.
    pub fn next_number(&self) -> Result<u64, AllocError>
        ensures { IfOk result (λ number. number ≡ self.now.recorded + 1) }
    {
        self.recorded.checked_add(1).ok_or(AllocError)
    }

    /// Notes that an event was recorded with this number, and whether it is a later part of its wide beat.
    pub fn note_number(&mut self, number: u64, is_later: bool) -> Result<(), AllocError>
        ensures recorded { OnOk result (self.new.recorded ≡ number) }
        ensures later { OnOk result (self.new.numbering.later.items
            ≡ with_later is_later number self.old.numbering.later.items) }
        ensures same { OnOk result ((self.new.kind ≡ self.old.kind) × (self.new.narrower ≡ self.old.narrower)) }
    {
        if is_later {
            self.numbering.note_later(number)?;
        }
        self.recorded = number;
        Ok(())
    }

    /// Takes a part of a wide beat, and whether others came before it. Returns true if it could be taken.
    fn take_part(
        &mut self,
        passing: Passing<'_, W>,
        is_later: bool,
        part: &Beat<P>,
    ) -> Result<bool, AllocError>
        requires wide { IsWideWidth W }
        requires width { IsWidth P }
        ensures { IfOk result (λ on. on ≡ true →
            TakesEvent self.old self.new passing.entry.link is_later (event.Beat part.now)) }
    {
        let number = self.next_number()?;
        if !self.kind.take_part(number, passing, part)? {
            return Ok(false);
        }
        self.note_number(number, is_later)?;
        Ok(true)
    }

    /// Takes the parts of a wide beat. Returns true if each could be taken.
    fn take_parts(&mut self, passing: Passing<'_, W>, parts: Parts) -> Result<bool, AllocError>
        requires wide { IsWideWidth W }
        requires width { IsWidth P }
        requires part { P ≡ part_width W }
        ensures { IfOk result (λ on. on ≡ true →
            TakesEvents self.old self.new passing.entry.link (as_events (left_of passing.entry.beat.now parts))) }
    {
        let mut is_later = false;
        let mut left = parts;
        while let Some(part) = left.next::<W, P>(passing.beat) {
            if !self.take_part(passing, is_later, &part)? {
                return Ok(false);
            }
            is_later = true;
        }
        Ok(true)
    }

    /// Takes a wide beat. Returns true if it could be taken.
    fn take_beat(&mut self, passing: Passing<'_, W>) -> Result<bool, AllocError>
        requires wide { IsWideWidth W }
        requires width { IsWidth P }
        requires part { P ≡ part_width W }
        ensures { IfOk result (λ on. on ≡ true →
            TakesWide self.old self.new passing.entry.link (wide_event.Beat passing.entry.beat.now)) }
    {
        let narrowed = self.narrower.narrow::<W, P>(passing.link, passing.beat)?;
        let Some(parts) = narrowed else {
            return Ok(false);
        };
        self.kind.note_address(false, passing.link, passing.beat);
        self.take_parts(passing, parts)
    }

    /// Takes the commit in the line of this number. Returns true if it could be taken.
    fn take_commit(&mut self, line: u64, link: Link, commit: WideCommit) -> Result<bool, AllocError>
        requires width { IsWidth P }
        requires commit { IsWideCommit commit }
        requires part { P ≡ part_width W }
        ensures { IfOk result (λ on. on ≡ true → TakesWide self.old self.new link (wide_event.Commit commit)) }
    {
        let Some(narrow) = narrow_commit(&mut self.narrower, link, commit)? else {
            return Ok(false);
        };
        let number = self.next_number()?;
        if !self.kind.take_commit(line, number, link, commit, narrow)? {
            return Ok(false);
        }
        self.note_number(number, false)?;
        Ok(true)
    }

    /// Takes the event of the line with this number. Returns true if it could be taken.
    pub fn take(
        &mut self,
        number: u64,
        line: &[u8],
        link: Link,
        event: &WideEvent<W>,
    ) -> Result<bool, AllocError>
        requires wide { IsWideWidth W }
        requires width { IsWidth P }
        requires part { P ≡ part_width W }
        requires event { IsValid event.now }
        ensures { IfOk result (λ on. on ≡ true → TakesWide self.old self.new link event.now) }
    {
        match event {
            WideEvent::Beat(beat) => {
                let cited = citation(number, line);
                self.take_beat(Passing {
                    link,
                    beat,
                    cited: cited.as_slice(),
                })
            }
            WideEvent::Commit(commit) => self.take_commit(number, link, *commit),
        }
    }
}
