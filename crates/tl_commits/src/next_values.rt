//! The values of a block after a beat.

ghost use Rattle.std.specs.Prelude.{ℕ, true, false, List, Some, ◌≡◌, ◌<◌, length, IfOk};
ghost use Rattle.tl_beat.specs.statement.Width.{IsWidth};
ghost use Rattle.tl_memory.specs.code.Elsewhere.{block_borne};
ghost use Rattle.tl_memory.specs.declared.byte_change.ByteChange.TheVariants as changes;
ghost use Rattle.tl_memory.specs.statement.Links.{KeepsRules};
ghost use Rattle.tl_params.specs.declared.level.Level.{Level};
ghost use Rattle.tl_params.specs.declared.liberties.Liberties.{Liberties};
ghost use Rattle.tl_together.specs.statement.Knows.{Knows};
ghost use Rattle.tl_commits.specs.code.ValueTable.{IsNext, KnowsTable};
ghost use Rattle.tl_events.specs.declared.commit.Event.TheVariants as event;
ghost use Rattle.tl_commits.specs.statement.Completeness.{Completeness};
ghost use Rattle.tl_commits.specs.statement.Copies.{link_beats};
ghost use Rattle.tl_commits.specs.statement.Events.{Events, beats_of};
ghost use Rattle.tl_commits.specs.statement.Seen;

use crate::block_values::BlockValues;
use crate::giving_up::loses_stores;
use crate::value_table::ValueTable;
use std::alloc::{AllocError, Global};
use tl_beat::beat::{Beat, Link};
use tl_memory::byte_change::ByteChange;
use tl_together::judge::Judge;

/// Whether with a beat the stored bytes of the block that it concerns are lost, as the manager wants it.
fn loses<const W: usize>(judge: &Judge<W>, link: Link, beat: &Beat<W>) -> bool
    ensures { (levels : List Level) (l : Liberties) (block : ℕ) (e : Events W) →
        Knows judge.now levels l (beats_of e) false → link.0 < length levels →
        block_borne beat.now (link_beats link.0 e) ≡ Some block →
        result ≡ Seen.loses_stores block beat.now (link_beats link.0 e) }
{
    match beat {
        Beat::C(x) => loses_stores(judge, link, x),
        _ => false,
    }
}

/// Whether a beat that makes this change sets no values.
fn is_same(change: &ByteChange) -> bool
    ensures { result ≡ true → change.now ≡ changes.Same }
{
    matches!(change, ByteChange::Same)
}

/// The values after a beat of the block that it concerns, if they change. The error means that there is no memory
/// left. All that is known stays true in either case.
pub(crate) fn next_values<const W: usize>(
    alloc: Global,
    judge: &Judge<W>,
    table: &mut ValueTable,
    link: Link,
    beat: &Beat<W>,
) -> Result<Option<(u32, BlockValues)>, AllocError>
    requires { IsWidth W }
    ensures knows { (complete : Completeness) (n : ℕ) (e : Events W) → KnowsTable table.old complete n e →
        KnowsTable table.new complete n e }
    ensures next { IfOk result (λ next. (levels : List Level) (l : Liberties) (complete : Completeness) (e : Events W) →
        Knows judge.now levels l (beats_of e) false → KeepsRules l levels (link, beat.now) (beats_of e) →
        KnowsTable table.old complete (length levels) e →
        IsNext next table.new complete (length levels) (link, event.Beat beat.now) e) }
{
    let Some((block, change)) = judge.byte_change(link, beat) else {
        return Ok(None);
    };
    let lost = loses(judge, link, beat);
    if !lost && is_same(&change) {
        return Ok(None);
    }
    table.meet(alloc, block)?;
    let Some(values) = table.get(block) else {
        return Ok(None);
    };
    let next = values.after_beat(alloc, &change, lost, judge.moment())?;
    Ok(Some((block, next)))
}
