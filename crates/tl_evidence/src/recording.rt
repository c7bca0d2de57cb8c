//! Follows the values of a block's bytes through the events of a trace.

ghost use Rattle.std.specs.Prelude.{List, [], ◌∷◌, true, length, IfOk, IfSome, ◌+◌, ◌*◌, ◌<◌, ◌≡◌};
ghost use Rattle.tl_beat.specs.statement.Width.{IsWidth};
ghost use Rattle.tl_evidence.specs.code.Following.{KnowsCopy, KnowsSet, RecordsCopy};
ghost use Rattle.tl_commits.specs.statement.Completeness.{Completeness};
ghost use Rattle.tl_commits.specs.statement.Copied.{copy_values};
ghost use Rattle.tl_commits.specs.statement.Events.{Events, beats_of};
ghost use Rattle.tl_commits.specs.statement.Knows.{IsEvent, KnowsCommits};
ghost use Rattle.tl_commits.specs.statement.Seen.{memory_may};
ghost use Rattle.tl_params.specs.declared.level.Level.{Level};
ghost use Rattle.tl_params.specs.declared.liberties.Liberties.{Liberties};

use crate::copy_record::CopyRecord;
use crate::set_lines::SetLines;
use std::alloc::{AllocError, Global};
use tl_beat::beat::Link;
use tl_commits::fault::CommitFault;
use tl_commits::judge::CommitJudge;
use tl_events::commit::Event;
use tl_params::level::Level;
use tl_params::liberties::Liberties;

/// The number of blocks: an address has 32 bits.
const BLOCKS: u32 = 1 << 26;

/// A judge of links of these levels, of those with all their stores in the trace, and with these liberties. `zero` says
/// whether memory was zero before the trace. None unless there are 1 to 16 levels.
fn judge_of<const W: usize>(
    alloc: Global,
    levels: &[Level],
    complete: &[bool],
    zero: bool,
    may: Liberties,
) -> Result<Option<CommitJudge<W>>, AllocError>
    requires { IsWidth W }
    ensures { IfOk result (λ judge. IfSome judge (λ j. KnowsCommits j levels.now
        (record { stores = complete.now; zero = zero }) may [])) }
{
    match CommitJudge::with_liberties(alloc, levels, complete, zero, may) {
        Ok(judge) => Ok(Some(judge)),
        Err(CommitFault::Memory) => Err(AllocError),
        Err(_) => Ok(None),
    }
}

/// Gives an event to a judge. Returns true if the judge takes it.
fn push<const W: usize>(
    judge: &mut CommitJudge<W>,
    link: Link,
    event: &Event<W>,
) -> Result<bool, AllocError>
    requires width { IsWidth W }
    requires valid { IsEvent event.now }
    ensures { IfOk result (λ on. on ≡ true → (levels : List Level) (complete : Completeness) (may : Liberties)
        (e : Events W) → KnowsCommits judge.old levels complete may e →
        KnowsCommits judge.new levels complete may ((link, event.now) ∷ e)) }
{
    match judge.try_push(link, event) {
        Ok(()) => Ok(true),
        Err(CommitFault::Memory) => Err(AllocError),
        Err(_) => Ok(false),
    }
}

/// The values of a block's bytes in the copy of a link, and in memory, before any event.
fn sets_of<const W: usize>(
    alloc: Global,
    judge: &CommitJudge<W>,
    link: Link,
    block: u32,
) -> Result<(SetLines, SetLines), AllocError>
    requires { IsWidth W }
    ensures { IfOk result (λ sets. (may : Liberties) (levels : List Level) (complete : Completeness) →
        KnowsCommits judge.now levels complete may [] → link.0 < length levels →
        KnowsSet {w = W} sets.0 (λ place. copy_values complete (length levels) link.0 (64 * block + place)) []
        × KnowsSet {w = W} sets.1
        (λ place e. memory_may complete.zero (length levels) (64 * block + place) (beats_of e)) []) }
{
    let copy = judge.copy_of(alloc, link, block)?;
    let memory = judge.memory_of(alloc, block)?;
    let copy = SetLines::new(alloc, copy)?;
    let memory = SetLines::new(alloc, memory)?;
    Ok((copy, memory))
}

impl<const W: usize> CopyRecord<W> {
    /// The record of a block in the cache of a link, before any event. `zero` says whether memory was zero then. None
    /// if there is no such link or block.
    pub fn new(
        alloc: Global,
        link: Link,
        block: u32,
        levels: &[Level],
        complete: &[bool],
        zero: bool,
        may: Liberties,
    ) -> Result<Option<Self>, AllocError>
        requires { IsWidth W }
        ensures { IfOk result (λ kept. IfSome kept (λ r. KnowsCopy r may levels.now
            (record { stores = complete.now; zero = zero }) [] × (r.link ≡ link) × (r.block ≡ block))) }
    {
        if block >= BLOCKS {
            return Ok(None);
        }
        let Some(judge) = judge_of(alloc, levels, complete, zero, may)? else {
            return Ok(None);
        };
        if !judge.has_link(link) {
            drop(judge);
            return Ok(None);
        }
        match sets_of(alloc, &judge, link, block) {
            Ok((copy, memory)) => Ok(Some(CopyRecord {
                alloc,
                link,
                block,
                judge,
                copy,
                memory,
            })),
            Err(error) => {
                drop(judge);
                Err(error)
            }
        }
    }

    /// Takes the event of the line with this number. Returns true if the judge takes it.
    pub fn take(&mut self, number: u64, link: Link, event: &Event<W>) -> Result<bool, AllocError>
        requires width { IsWidth W }
        requires valid { IsEvent event.now }
        ensures same { self.new.link ≡ self.old.link }
        ensures block { self.new.block ≡ self.old.block }
        ensures takes { IfOk result (λ on. on ≡ true → RecordsCopy self.old self.new number link event.now) }
    {
        if !push(&mut self.judge, link, event)? {
            return Ok(false);
        }
        let count = number.saturating_sub(2);
        let copy = self.judge.copy_of(self.alloc, self.link, self.block)?;
        let memory = self.judge.memory_of(self.alloc, self.block)?;
        self.copy.take(copy, count);
        self.memory.take(memory, count);
        Ok(true)
    }
}
