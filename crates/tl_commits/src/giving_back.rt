//! Reports that give back the bytes of a block.

ghost use Rattle.std.specs.Prelude.{ℕ, false, List, ◌+◌, ◌*◌, ◌<◌, ◌≤◌, ◌≡◌, length, option_copied};
ghost use Rattle.tl_beat.specs.declared.beat.Beat.TheVariants as beat;
ghost use Rattle.tl_beat.specs.statement.Width.{IsWidth};
ghost use Rattle.tl_bytes.specs.statement.Bytes.{each_from};
ghost use Rattle.tl_memory.specs.statement.Links.{KeepsRules, KnowsMessages};
ghost use Rattle.tl_params.specs.declared.level.Level.{Level};
ghost use Rattle.tl_params.specs.declared.liberties.Liberties.{Liberties};
ghost use Rattle.tl_together.specs.statement.Knows.{Knows};
ghost use Rattle.tl_commits.specs.code.GivingBack.{IsCarrier};
ghost use Rattle.tl_commits.specs.code.ValueTable.{KnowsTable};
ghost use Rattle.tl_commits.specs.statement.Completeness.{Completeness, is_complete};
ghost use Rattle.tl_commits.specs.statement.Commits;
ghost use Rattle.tl_commits.specs.statement.Copies.{link_beats};
ghost use Rattle.tl_commits.specs.statement.Events.{Events, beats_of};

use crate::copies::has_brought_at;
use crate::value_table::ValueTable;
use tl_beat::beat::{Beat, BeatC, Link};
use tl_bytes::telling::could_be;
use tl_memory::link::LinkMessages;
use tl_memory::message::either;
use tl_rules::admission::is_spoiled;
use tl_rules::key::block_at;
use tl_together::judge::Judge;

/// The beat, if it has data on channel C.
pub(crate) fn carrier<const W: usize>(beat: &Beat<W>) -> Option<&BeatC<W>>
    ensures { IsCarrier (option_copied result) beat.now }
{
    match beat {
        Beat::C(x) if x.opcode.carries_data() => Some(x),
        _ => None,
    }
}

/// Whether a report may give back this byte of a block: the one that a Grant under way has brought, or a possible one.
fn may_give<const W: usize>(
    messages: &LinkMessages,
    table: &ValueTable,
    block: u32,
    place: usize,
    byte: u8,
) -> bool
    requires { IsWidth W }
    ensures { (complete : Completeness) (n link : ℕ) (e : Events W) → KnowsTable table.now complete n e →
        KnowsMessages messages.now (link_beats link e) → place < 64 →
        result ≡ Commits.may_give complete n link e (64 * block + place) byte }
{
    if has_brought_at::<W>(messages, block, place) {
        return could_be(byte, messages.d.bytes.bytes().at(place));
    }
    table.is_seen(block, place, byte)
}

/// Whether a report may give back each of these bytes of a block, from a place on.
fn gives_each<const W: usize>(
    messages: &LinkMessages,
    table: &ValueTable,
    block: u32,
    first: usize,
    lanes: &[u8; W],
) -> bool
    requires { IsWidth W }
    ensures { (complete : Completeness) (n link : ℕ) (e : Events W) → KnowsTable table.now complete n e →
        KnowsMessages messages.now (link_beats link e) → first + W ≤ 64 →
        result ≡ each_from (Commits.may_give complete n link e) (64 * block + first) lanes.now }
{
    for lane in 0..W {
        let place = first.saturating_add(lane);
        if !may_give::<W>(messages, table, block, place, lanes[lane]) {
            return false;
        }
    }
    true
}

/// Whether a beat of a report gives back bytes that the copy may have. `complete` says whether all stores of its link are
/// in the trace.
pub(crate) fn gives_truly<const W: usize>(
    judge: &Judge<W>,
    table: &ValueTable,
    complete: bool,
    link: Link,
    x: &BeatC<W>,
) -> bool
    requires { IsWidth W }
    ensures { (levels : List Level) (l : Liberties) (of_links : Completeness) (e : Events W) →
        Knows judge.now levels l (beats_of e) false → KeepsRules l levels (link, beat.C x.now) (beats_of e) →
        KnowsTable table.now of_links (length levels) e → complete ≡ is_complete of_links link.0 →
        result ≡ Commits.gives_truly of_links (length levels) link.0 x.now e }
{
    if !complete {
        return true;
    }
    let Some(messages) = judge.messages(link) else {
        return true;
    };
    if either(messages.is_released(), is_spoiled(&Beat::C(*x))) {
        return true;
    }
    match &x.lanes {
        None => true,
        Some(lanes) => {
            let first = W.saturating_mul(messages.c.bytes.count());
            gives_each(messages, table, block_at(x.address), first, lanes)
        }
    }
}
