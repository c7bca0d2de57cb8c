//! The grounds for the fault of an event of a wide trace.

ghost use Rattle.std.specs.Prelude.{◌≡◌, [], ℕ, List, true, IfOk, IfSome, OnOk};
ghost use Rattle.tl_beat.specs.declared.beat.Beat.{Beat};
ghost use Rattle.tl_beat.specs.declared.beat.Link.{Link};
ghost use Rattle.tl_beat.specs.statement.Width.{IsWidth};
ghost use Rattle.tl_wide.specs.statement.Naming.{WideTrace};
ghost use Rattle.tl_wide.specs.statement.Pieces.{left_of};
ghost use Rattle.tl_wide.specs.statement.Width.{IsWideWidth, part_width};
ghost use Rattle.tl_wide_event_story.specs.code.Guiding.{Meets, MeetsBeat, MeetsPart, TellsCommit, TellsFirst, TellsMore};
ghost use Rattle.tl_wide_event_story.specs.code.Guiding.{TellsWide};
ghost use Rattle.tl_wide_event_story.specs.statement.WideGrounds.{beat_address};
ghost use Rattle.tl_wide_events.specs.declared.commit.WideEvent.TheVariants as wide_event;

use crate::guide::{Guide, Kind};
use crate::passing::{Met, Passing};
use std::alloc::{AllocError, Global};
use tl_beat::beat::{Beat, Link};
use tl_events::commit::Commit;
use tl_lines::fault::Fault;
use tl_wide::beat::WideBeat;
use tl_wide::parts::Parts;
use tl_wide_events::commit::{WideCommit, WideEvent};
use tl_wide_events::narrow::narrow_commit;
use tl_wide_story::citation::citation;
use tl_wide_story::numbering::Numbering;

/// The address of a wide beat, if it has one.
fn address_of<const W: usize>(beat: &WideBeat<W>) -> Option<u64>
    ensures { IfSome result (λ address. (link : Link) (t : WideTrace W) → address ≡ beat_address link beat.now t) }
{
    match beat {
        WideBeat::A(x) => Some(x.address),
        WideBeat::B(x) => Some(x.address),
        WideBeat::C(x) => Some(x.address),
        _ => None,
    }
}

impl<const W: usize, const P: usize> Kind<W, P> {
    /// Meets a part of the wide beat at fault: appends the grounds if the part is at fault, and takes it if it isn't. Then the
    /// text is of no use.
    fn meet(
        &mut self,
        numbering: &Numbering,
        fault: Fault,
        number: u64,
        passing: Passing<'_, W>,
        part: &Beat<P>,
        out: &mut Vec<u8>,
    ) -> Result<Met, AllocError>
        requires wide { IsWideWidth W }
        requires width { IsWidth P }
        requires empty { out.old.items ≡ [] }
        ensures { IfOk result (Meets self.old self.new numbering.now.later.items number fault passing.entry.link
            passing.entry.beat.now part.now out.new.items) }
    {
        match self {
            Kind::OfNothing => Ok(Met::Strange),
            Kind::OfLink(guide) => {
                let Fault::Rule(rule) = fault else {
                    return Ok(Met::Strange);
                };
                guide.meet_part(rule, passing, part, out)
            }
            Kind::OfCopy(guide) => {
                let Fault::CommitRule(rule) = fault else {
                    return Ok(Met::Strange);
                };
                let Some(address) = address_of(passing.beat) else {
                    return Ok(Met::Strange);
                };
                guide.meet_part(numbering, rule, number, passing, address, part, out)
            }
            Kind::OfResponse(guide) => {
                let Fault::MemoryRule(rule) = fault else {
                    return Ok(Met::Strange);
                };
                guide.meet_part(numbering, rule, number, passing, part, out)
            }
        }
    }

    /// Meets a part of the wide beat at fault: appends the grounds if the part is at fault, and takes it if it isn't.
    fn meet_part(
        &mut self,
        alloc: Global,
        numbering: &Numbering,
        fault: Fault,
        number: u64,
        passing: Passing<'_, W>,
        part: &Beat<P>,
        out: &mut Vec<u8>,
    ) -> Result<Met, AllocError>
        requires wide { IsWideWidth W }
        requires width { IsWidth P }
        ensures { IfOk result (MeetsPart self.old self.new numbering.now.later.items number fault passing.entry.link
            passing.entry.beat.now part.now out.old.items out.new.items) }
    {
        let mut grounds = Vec::new(alloc);
        match self.meet(numbering, fault, number, passing, part, &mut grounds)? {
            Met::Strange => Ok(Met::Strange),
            Met::Taken => Ok(Met::Taken),
            Met::AtFault => {
                out.extend_from_slice(&grounds)?;
                Ok(Met::AtFault)
            }
        }
    }

    /// Takes a part of the wide beat at fault after the one that is at fault, for the liberties that would allow the beat.
    fn pass_part(&mut self, link: Link, part: &Beat<P>) -> Result<(), AllocError>
        requires { IsWidth P }
    {
        match self {
            Kind::OfLink(guide) => guide.allow(link, part),
            _ => Ok(()),
        }
    }

    /// Appends the line that names the liberties of which each alone would allow the wide beat at fault, for a breach of a
    /// rule of its link.
    fn tell_allowed(&self, alloc: Global, fault: Fault, out: &mut Vec<u8>) -> Result<(), AllocError>
        ensures { OnOk result (TellsMore fault out.old.items out.new.items) }
    {
        let Fault::Rule(_) = fault else {
            return Ok(());
        };
        match self {
            Kind::OfLink(guide) => guide.tell_allowed(alloc, out),
            _ => Ok(()),
        }
    }

    /// Appends the grounds for the fault of a commit, which becomes this narrow one. Returns true if they are for it.
    fn tell_commit(
        &self,
        numbering: &Numbering,
        fault: Fault,
        link: Link,
        commit: WideCommit,
        narrow: Commit,
        out: &mut Vec<u8>,
    ) -> Result<bool, AllocError>
        requires { IsWidth P }
        ensures { IfOk result (λ told. told ≡ true → TellsCommit self.now numbering.now.later.items fault link commit
            narrow out.old.items out.new.items) }
    {
        match self {
            Kind::OfLink(guide) => {
                let Fault::Rule(_) = fault else {
                    return Ok(false);
                };
                guide.tell_commit(link, out)
            }
            Kind::OfCopy(guide) => {
                let Fault::CommitRule(rule) = fault else {
                    return Ok(false);
                };
                guide.tell_commit(numbering, rule, link, commit, narrow, out)
            }
            _ => Ok(false),
        }
    }
}

impl<const W: usize, const P: usize> Guide<W, P> {
    /// Meets a part of the wide beat that is at fault for this, and whether others came before it.
    fn meet_part(
        &mut self,
        fault: Fault,
        passing: Passing<'_, W>,
        is_later: bool,
        part: &Beat<P>,
        out: &mut Vec<u8>,
    ) -> Result<Met, AllocError>
        requires wide { IsWideWidth W }
        requires width { IsWidth P }
        ensures { IfOk result (MeetsBeat self.old self.new fault passing.entry.link passing.entry.beat.now is_later part.now
            out.old.items out.new.items) }
    {
        let number = self.next_number()?;
        let (alloc, numbering) = (self.alloc, &self.numbering);
        let met = self
            .kind
            .meet_part(alloc, numbering, fault, number, passing, part, out)?;
        match met {
            Met::Strange => Ok(Met::Strange),
            Met::AtFault => Ok(Met::AtFault),
            Met::Taken => {
                self.note_number(number, is_later)?;
                Ok(Met::Taken)
            }
        }
    }

    /// Appends the grounds for the first part of a wide beat that is at fault. Returns the parts after it. None if no part is at
    /// fault, or one before it can't be taken.
    fn tell_first(
        &mut self,
        fault: Fault,
        passing: Passing<'_, W>,
        parts: Parts,
        out: &mut Vec<u8>,
    ) -> Result<Option<Parts>, AllocError>
        requires wide { IsWideWidth W }
        requires width { IsWidth P }
        requires part { P ≡ part_width W }
        ensures { IfOk result (λ left. IfSome left (λ _. TellsFirst self.old fault passing.entry.link passing.entry.beat.now
            (left_of passing.entry.beat.now parts) out.old.items out.new.items)) }
    {
        let mut is_later = false;
        let mut left = parts;
        while let Some(part) = left.next::<W, P>(passing.beat) {
            match self.meet_part(fault, passing, is_later, &part, out)? {
                Met::AtFault => return Ok(Some(left)),
                Met::Strange => return Ok(None),
                Met::Taken => is_later = true,
            }
        }
        Ok(None)
    }

    /// Takes the parts of a wide beat after the one that is at fault.
    fn pass_parts(&mut self, passing: Passing<'_, W>, parts: Parts) -> Result<(), AllocError>
        requires wide { IsWideWidth W }
        requires width { IsWidth P }
        requires part { P ≡ part_width W }
    {
        let mut left = parts;
        while let Some(part) = left.next::<W, P>(passing.beat) {
            self.kind.pass_part(passing.link, &part)?;
        }
        Ok(())
    }

    /// Appends the grounds for the fault of a wide beat. Returns true if they are for it.
    fn tell_beat(
        &mut self,
        fault: Fault,
        passing: Passing<'_, W>,
        out: &mut Vec<u8>,
    ) -> Result<bool, AllocError>
        requires wide { IsWideWidth W }
        requires width { IsWidth P }
        requires part { P ≡ part_width W }
        ensures { IfOk result (λ told. told ≡ true → TellsWide self.old fault passing.entry.link
            (wide_event.Beat passing.entry.beat.now) out.old.items out.new.items) }
    {
        let narrowed = self.narrower.narrow::<W, P>(passing.link, passing.beat)?;
        let Some(parts) = narrowed else {
            return Ok(false);
        };
        self.kind.note_address(true, passing.link, passing.beat);
        let Some(left) = self.tell_first(fault, passing, parts, out)? else {
            return Ok(false);
        };
        self.pass_parts(passing, left)?;
        self.kind.tell_allowed(self.alloc, fault, out)?;
        Ok(true)
    }

    /// Appends the grounds for the fault of a commit. Returns true if they are for it.
    fn tell_commit(
        &mut self,
        fault: Fault,
        link: Link,
        commit: WideCommit,
        out: &mut Vec<u8>,
    ) -> Result<bool, AllocError>
        requires width { IsWidth P }
        requires part { P ≡ part_width W }
        ensures { IfOk result (λ told. told ≡ true → TellsWide self.old fault link (wide_event.Commit commit)
            out.old.items out.new.items) }
    {
        match narrow_commit(&mut self.narrower, link, commit)? {
            None => Ok(false),
            Some(narrow) => {
                let numbering = &self.numbering;
                self.kind
                    .tell_commit(numbering, fault, link, commit, narrow, out)
            }
        }
    }

    /// Appends the grounds for this fault of the event of the line with this number. Returns true if they are for it.
    pub fn tell(
        &mut self,
        fault: Fault,
        number: u64,
        line: &[u8],
        link: Link,
        event: &WideEvent<W>,
        out: &mut Vec<u8>,
    ) -> Result<bool, AllocError>
        requires wide { IsWideWidth W }
        requires width { IsWidth P }
        requires part { P ≡ part_width W }
        ensures { IfOk result (λ told. told ≡ true → TellsWide self.old fault link event.now out.old.items
            out.new.items) }
    {
        match event {
            WideEvent::Beat(beat) => {
                let cited = citation(number, line);
                let passing = Passing {
                    link,
                    beat,
                    cited: cited.as_slice(),
                };
                self.tell_beat(fault, passing, out)
            }
            WideEvent::Commit(commit) => self.tell_commit(fault, link, *commit, out),
        }
    }
}
