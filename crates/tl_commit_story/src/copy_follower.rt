//! Follows a block in the cache of a link, for a breach of a rule of stores and loads.

ghost use Rattle.std.specs.Prelude.{[], true, IfOk, IfSome, ◌≡◌};
ghost use Rattle.tl_beat.specs.statement.Width.{IsWidth};
ghost use Rattle.tl_commit_story.specs.code.Followers.{FollowsCopy, TellsCopy, TellsHeld};
ghost use Rattle.tl_commit_story.specs.code.Following.{KnowsGrounds};
ghost use Rattle.tl_events.specs.statement.EventLine.{SpellsEvent};
ghost use Rattle.tl_evidence.specs.code.Following.{KnowsCopy};

use crate::cached::Cached;
use crate::grounds::Grounds;
use crate::places::{block_of, places_of};
use std::alloc::{AllocError, Global};
use tl_beat::beat::Link;
use tl_events::commit::Event;
use tl_events::rule::CommitRule;
use tl_evidence::copy_record::CopyRecord;
use tl_explain::turns::Subject;
use tl_explain::wording::AsRecorded;
use tl_monitor::monitor::Monitor;
use tl_params::level::Level;
use tl_params::liberties::Liberties;

/// A block in the cache of a link: the permission held, the messages and the stores, and the values of its bytes.
#[derive(Drop)]
pub struct CopyFollower<const W: usize> {
    pub grounds: Grounds<W>,
    pub record: CopyRecord<W>,
}

/// Follows a block in the cache of a link, before any event.
fn grounds_of<const W: usize>(
    alloc: Global,
    subject: Subject,
    levels: &[Level],
    may: Liberties,
) -> Result<Grounds<W>, AllocError>
    requires { IsWidth W }
    ensures { IfOk result (λ grounds. KnowsGrounds grounds may levels.now []) }
{
    let cached = Cached {
        link: subject.link,
        block: subject.block,
    };
    match Monitor::with_liberties(alloc, levels, may) {
        Ok(monitor) => Ok(Grounds::new(alloc, cached, monitor)),
        Err(_) => Err(AllocError),
    }
}

/// Appends the permission that the link of an event holds of its block, data under way and the last stores. Returns true if
/// these are for the event.
fn tell_grounds<const W: usize>(
    alloc: Global,
    grounds: &Grounds<W>,
    link: Link,
    event: &Event<W>,
    out: &mut Vec<u8>,
) -> Result<bool, AllocError>
    ensures { IfOk result (λ told. told ≡ true →
        TellsHeld grounds.now link event.now out.old.items out.new.items) }
{
    if link != grounds.cached.link || block_of(event) != grounds.cached.block {
        return Ok(false);
    }
    let Some((first, count)) = places_of(grounds.giving.came, event) else {
        return Ok(false);
    };
    grounds.tell(alloc, first, count, out)?;
    Ok(true)
}

impl<const W: usize> CopyFollower<W> {
    /// Follows links of these levels, of those with all their stores in the trace, and with these liberties, for the fault of an
    /// event of this subject. `zero` says whether memory was zero before the trace. None if there is no such block or
    /// link.
    pub fn new(
        alloc: Global,
        subject: Subject,
        levels: &[Level],
        complete: &[bool],
        zero: bool,
        may: Liberties,
    ) -> Result<Option<Self>, AllocError>
        requires { IsWidth W }
        ensures grounds { IfOk result (λ kept. IfSome kept (λ f. KnowsGrounds f.grounds may levels.now [])) }
        ensures values { IfOk result (λ kept. IfSome kept (λ f. KnowsCopy f.record may levels.now
            (record { stores = complete.now; zero = zero }) [])) }
        ensures subject { IfOk result (λ kept. IfSome kept (λ f. (f.record.link ≡ subject.link)
            × (f.record.block ≡ subject.block))) }
    {
        let (link, block) = (subject.link, subject.block);
        let record = CopyRecord::new(alloc, link, block, levels, complete, zero, may)?;
        let Some(record) = record else {
            return Ok(None);
        };
        match grounds_of(alloc, subject, levels, may) {
            Ok(grounds) => Ok(Some(CopyFollower { grounds, record })),
            Err(error) => {
                drop(record);
                Err(error)
            }
        }
    }

    /// Takes the event of the line with this number. Returns true if it could be taken.
    pub fn take(
        &mut self,
        number: u64,
        line: &[u8],
        link: Link,
        event: &Event<W>,
    ) -> Result<bool, AllocError>
        requires width { IsWidth W }
        requires spelled { SpellsEvent line.now link event.now }
        ensures { IfOk result (λ on. on ≡ true → FollowsCopy self.old self.new number link event.now) }
    {
        if !self.grounds.take(number, line, link, event)? {
            return Ok(false);
        }
        self.record.take(number, link, event)
    }

    /// Appends the grounds for a breach of a rule of stores and loads by an event. Returns true if they are for it.
    pub fn tell(
        &self,
        alloc: Global,
        rule: CommitRule,
        link: Link,
        event: &Event<W>,
        out: &mut Vec<u8>,
    ) -> Result<bool, AllocError>
        requires { IsWidth W }
        ensures { IfOk result (λ told. told ≡ true →
            TellsCopy self.now rule link event.now out.old.items out.new.items) }
    {
        if link != self.grounds.cached.link || link != self.record.link {
            return Ok(false);
        }
        if !tell_grounds(alloc, &self.grounds, link, event, out)? {
            return Ok(false);
        }
        self.record
            .tell(&AsRecorded, rule, event, self.grounds.giving.came, out)
    }
}
