//! Follows a block in the cache of a link of a wide trace, for a breach of a rule of stores and loads.

ghost use Rattle.std.specs.Prelude.{◌≡◌, ◌∷◌, [], true, IfOk, IfSome, IsTrue, length, OnOk};
ghost use Rattle.tl_beat.specs.declared.channel.Channel.TheVariants as channel;
ghost use Rattle.tl_beat.specs.statement.Width.{IsWidth};
ghost use Rattle.tl_burst.specs.statement.Messages.{unfinished};
ghost use Rattle.tl_burst.specs.statement.Part.{is_small};
ghost use Rattle.tl_commits.specs.statement.Copies.{link_beats};
ghost use Rattle.tl_commits.specs.statement.Events.{Events};
ghost use Rattle.tl_events.specs.declared.commit.Event.TheVariants as event;
ghost use Rattle.tl_events.specs.statement.CommitLine.{IsCommit};
ghost use Rattle.tl_wide.specs.statement.Width.{IsWideWidth};
ghost use Rattle.tl_wide_event_story.specs.code.Guiding.{FollowsCopy, KnowsCopyGuide, MeetsCopy, TellsCopy};
ghost use Rattle.tl_wide_events.specs.statement.Narrowed.{address_of};
ghost use Rattle.tl_wide_story.specs.statement.WideNaming as naming;

use crate::names::first_byte;
use crate::passing::{Met, Passing, append_passing};
use crate::places::{Places, append_address, places_of_commit, places_of_part};
use crate::stores::{StoreLine, Stores};
use crate::transfer::Transfer;
use std::alloc::{AllocError, Global};
use tl_beat::beat::{Beat, Link};
use tl_events::commit::{Commit, Event};
use tl_events::rule::CommitRule;
use tl_evidence::copy_record::CopyRecord;
use tl_explain::bursts::is_small;
use tl_explain::turns::Subject;
use tl_explain::words::perm_name;
use tl_lines::links_header::LinksHeader;
use tl_monitor::fault::MonitorFault;
use tl_monitor::monitor::Monitor;
use tl_rules::key::block_at;
use tl_rules::kind::is_grant;
use tl_rules::perm::Perm;
use tl_wide_events::commit::WideCommit;
use tl_wide_story::numbering::Numbering;
use tl_wide_story::places::WidePlaces;
use tl_witness::text::append_hex;

/// A block in the cache of a link: the permission held and the wide beat at which it changed, the data under way, and the
/// last store to each byte.
#[derive(Drop)]
pub struct CopyGuide<const P: usize> {
    alloc: Global,
    link: Link,
    /// The number of the block.
    block: u32,
    monitor: Monitor<P>,
    /// The values of the block's bytes.
    record: CopyRecord<P>,
    /// The words of the last wide beat at which the permission held changed; empty if it never has.
    since: Vec<u8>,
    /// The unfinished message on channel D of the link.
    granting: Transfer,
    /// That on channel C.
    giving: Transfer,
    stores: Stores,
}

/// Appends the words of the first wide beat of an unfinished message, if there is one.
fn append_begun(label: &str, begun: &[u8], out: &mut Vec<u8>) -> Result<(), AllocError> {
    if begun.is_empty() {
        return Ok(());
    }
    out.extend_from_slice(label.as_bytes())?;
    out.extend_from_slice(begun)
}

/// Gives a part of a wide beat to a monitor. Returns true if it breaks no rule of its link.
fn push<const P: usize>(
    monitor: &mut Monitor<P>,
    link: Link,
    part: &Beat<P>,
) -> Result<bool, AllocError>
    requires { IsWidth P }
{
    match monitor.try_push(link, part) {
        Ok(()) => Ok(true),
        Err(MonitorFault::Memory) => Err(AllocError),
        Err(_) => Ok(false),
    }
}

/// Notes a wide beat, if with a part of it the permission held changed from `before` to `after`.
fn note<const W: usize>(
    since: &mut Vec<u8>,
    before: Perm,
    after: Perm,
    passing: Passing<'_, W>,
) -> Result<(), AllocError>
    requires { IsWideWidth W }
{
    if after == before {
        return Ok(());
    }
    since.clear();
    append_passing(passing, since)
}

impl<const P: usize> CopyGuide<P> {
    /// Follows the block of a subject in the cache of its link, before any event of the links that a header names. `zero` says
    /// whether memory was zero before the trace. None if there is no such block or link.
    pub fn new(
        alloc: Global,
        subject: Subject,
        links: &LinksHeader,
        complete: &[bool],
        zero: bool,
    ) -> Result<Option<Self>, AllocError>
        requires { IsWidth P }
        ensures { IfOk result (λ kept. IfSome kept (λ g. KnowsCopyGuide g links.now.may links.now.levels.items
            (record { stores = complete.now; zero = zero }) [])) }
    {
        let levels = links.levels.as_slice();
        let Ok(monitor) = Monitor::with_liberties(alloc, levels, links.may) else {
            return Err(AllocError);
        };
        let (link, block) = (subject.link, subject.block);
        match CopyRecord::new(alloc, link, block, levels, complete, zero, links.may) {
            Err(error) => {
                drop(monitor);
                Err(error)
            }
            Ok(None) => {
                drop(monitor);
                Ok(None)
            }
            Ok(Some(record)) => Ok(Some(CopyGuide {
                alloc,
                link,
                block,
                monitor,
                record,
                since: Vec::new(alloc),
                granting: Transfer::new(alloc),
                giving: Transfer::new(alloc),
                stores: Stores::new(),
            })),
        }
    }

    /// The permission held.
    fn held(&self) -> Perm {
        self.monitor.held_under(self.link, self.block)
    }

    /// Whether a part of a wide beat of the link moves data of the block.
    fn moves(&self, part: &Beat<P>) -> bool {
        match part {
            Beat::C(x) => block_at(x.address) == self.block,
            Beat::D(x) if is_grant(x.opcode) => match self.monitor.request(self.link, x.source) {
                None => false,
                Some(asked) => asked.block == self.block,
            },
            _ => false,
        }
    }

    /// Takes a part of a wide beat, as one of a message on a channel of the link if it is of the link.
    fn follow<const W: usize>(
        &mut self,
        passing: Passing<'_, W>,
        part: &Beat<P>,
    ) -> Result<(), AllocError>
        requires wide { IsWideWidth W }
        requires width { IsWidth P }
        requires small { IsTrue (is_small part.now) }
        ensures record { self.new.record ≡ self.old.record }
        ensures link { self.new.link ≡ self.old.link }
        ensures counts { OnOk result ((e : Events P) →
            self.old.giving.came ≡ length (unfinished channel.C (link_beats self.old.link.0 e)) →
            self.new.giving.came ≡ length (unfinished channel.C
            (link_beats self.old.link.0 ((passing.entry.link, event.Beat part.now) ∷ e)))) }
    {
        if passing.link != self.link {
            return Ok(());
        }
        let mut words = Vec::new(self.alloc);
        if self.moves(part) {
            append_passing(passing, &mut words)?;
        }
        match part {
            Beat::C(_) => self.giving.take(words.as_slice(), part),
            Beat::D(_) => self.granting.take(words.as_slice(), part),
            _ => Ok(()),
        }
    }

    /// Takes a part of a wide beat, which is recorded with this number. Returns true if it breaks no rule.
    pub fn take_part<const W: usize>(
        &mut self,
        number: u64,
        passing: Passing<'_, W>,
        part: &Beat<P>,
    ) -> Result<bool, AllocError>
        requires wide { IsWideWidth W }
        requires width { IsWidth P }
        ensures { IfOk result (λ on. on ≡ true →
            FollowsCopy self.old self.new number passing.entry.link (event.Beat part.now)) }
    {
        if !is_small(part) {
            return Ok(false);
        }
        let event = Event::Beat(*part);
        if !self.record.take(number, passing.link, &event)? {
            return Ok(false);
        }
        self.follow(passing, part)?;
        let before = self.held();
        if !push(&mut self.monitor, passing.link, part)? {
            return Ok(false);
        }
        let after = self.held();
        note::<W>(&mut self.since, before, after, passing)?;
        Ok(true)
    }

    /// Keeps the commit in this line, if it is a store to bytes of the block. It becomes this narrow one.
    fn note_store(&mut self, number: u64, link: Link, commit: WideCommit, narrow: Commit)
        ensures record { self.new.record ≡ self.old.record }
        ensures link { self.new.link ≡ self.old.link }
        ensures giving { self.new.giving ≡ self.old.giving }
    {
        if let (Commit::Store { .. }, Some(places)) = (narrow, places_of_commit(commit))
            && block_at(first_byte(narrow)) == self.block
        {
            let store = StoreLine {
                number,
                link,
                commit,
            };
            self.stores.keep(store, places);
        }
    }

    /// Takes the commit in this line, which becomes a narrow one that is recorded with this number. Returns true if it breaks
    /// no rule.
    pub fn take_commit(
        &mut self,
        line: u64,
        number: u64,
        link: Link,
        commit: WideCommit,
        narrow: Commit,
    ) -> Result<bool, AllocError>
        requires width { IsWidth P }
        requires commit { IsCommit narrow }
        ensures { IfOk result (λ on. on ≡ true → FollowsCopy self.old self.new number link (event.Commit narrow)) }
    {
        if !self.record.take(number, link, &Event::Commit(narrow))? {
            return Ok(false);
        }
        self.note_store(line, link, commit, narrow);
        Ok(true)
    }

    /// Appends the permission that the link holds of the block at this address, and since when.
    fn tell_held(&self, address: u64, out: &mut Vec<u8>) -> Result<(), AllocError> {
        out.extend_from_slice(b"  link ")?;
        append_hex(u32::from(self.link.0), 2, out)?;
        out.extend_from_slice(b" holds ")?;
        out.extend_from_slice(perm_name(self.held()).as_bytes())?;
        out.extend_from_slice(b" of block ")?;
        append_address(address / 64 * 64, out)?;
        if self.since.is_empty() {
            return out.extend_from_slice(b" since the start of the trace\n");
        }
        out.extend_from_slice(b" since:\n")?;
        out.extend_from_slice(&self.since)
    }

    /// Appends the permission held of the block at this address, data under way and the last stores, for an event that is
    /// about these bytes.
    fn tell_all(&self, address: u64, places: Places, out: &mut Vec<u8>) -> Result<(), AllocError> {
        self.tell_held(address, out)?;
        append_begun(
            "  a GrantData of the block is under way since:\n",
            &self.granting.begun,
            out,
        )?;
        append_begun(
            "  a ProbeAckData or ReleaseData of the block is under way since:\n",
            &self.giving.begun,
            out,
        )?;
        self.stores.tell(self.alloc, places, out)
    }

    /// Appends the grounds for the breach of a rule of stores and loads by an event of the link that is about these bytes of the
    /// block at this address. Returns true if they are for it.
    fn tell(
        &self,
        numbering: &Numbering,
        rule: CommitRule,
        address: u64,
        places: Places,
        event: &Event<P>,
        out: &mut Vec<u8>,
    ) -> Result<bool, AllocError>
        requires { IsWidth P }
        ensures { IfOk result (λ told. told ≡ true →
            TellsCopy self.now (naming.names_of numbering.now.later.items address) rule self.now.link event.now
            out.old.items out.new.items) }
    {
        let mut held = Vec::new(self.alloc);
        self.tell_all(address, places, &mut held)?;
        out.extend_from_slice(&held)?;
        let names = WidePlaces { numbering, address };
        self.record.tell(&names, rule, event, self.giving.came, out)
    }

    /// Appends the grounds for the fault of a commit, which becomes this narrow one. Returns true if they are for it.
    pub fn tell_commit(
        &self,
        numbering: &Numbering,
        rule: CommitRule,
        link: Link,
        commit: WideCommit,
        narrow: Commit,
        out: &mut Vec<u8>,
    ) -> Result<bool, AllocError>
        requires { IsWidth P }
        ensures { IfOk result (λ told. told ≡ true →
            TellsCopy self.now (naming.names_of numbering.now.later.items (address_of commit)) rule link
            (event.Commit narrow) out.old.items out.new.items) }
    {
        if link != self.link || block_at(first_byte(narrow)) != self.block {
            return Ok(false);
        }
        let Some(places) = places_of_commit(commit) else {
            return Ok(false);
        };
        let event = Event::Commit(narrow);
        self.tell(numbering, rule, commit.address(), places, &event, out)
    }

    /// Appends the grounds for the fault of a part of a wide beat, which has this address. Returns true if they are for it.
    fn tell_part(
        &self,
        numbering: &Numbering,
        rule: CommitRule,
        link: Link,
        address: u64,
        part: &Beat<P>,
        out: &mut Vec<u8>,
    ) -> Result<bool, AllocError>
        requires { IsWidth P }
        ensures { IfOk result (λ told. told ≡ true →
            TellsCopy self.now (naming.names_of numbering.now.later.items address) rule link (event.Beat part.now)
            out.old.items out.new.items) }
    {
        let block = match part {
            Beat::A(x) => block_at(x.address),
            Beat::C(x) => block_at(x.address),
            _ => return Ok(false),
        };
        if link != self.link || block != self.block {
            return Ok(false);
        }
        let Some(places) = places_of_part(self.giving.came, part) else {
            return Ok(false);
        };
        self.tell(numbering, rule, address, places, &Event::Beat(*part), out)
    }

    /// Meets a part of the wide beat at fault, which has this address: appends the grounds if the part is at fault, and takes
    /// it if it isn't. Then the text is of no use.
    pub fn meet_part<const W: usize>(
        &mut self,
        numbering: &Numbering,
        rule: CommitRule,
        number: u64,
        passing: Passing<'_, W>,
        address: u64,
        part: &Beat<P>,
        out: &mut Vec<u8>,
    ) -> Result<Met, AllocError>
        requires wide { IsWideWidth W }
        requires width { IsWidth P }
        ensures { IfOk result (MeetsCopy self.old self.new number
            (naming.names_of numbering.now.later.items address) rule passing.entry.link part.now out.old.items out.new.items) }
    {
        if !self.tell_part(numbering, rule, passing.link, address, part, out)? {
            return Ok(Met::Strange);
        }
        if self.take_part(number, passing, part)? {
            return Ok(Met::Taken);
        }
        Ok(Met::AtFault)
    }
}
