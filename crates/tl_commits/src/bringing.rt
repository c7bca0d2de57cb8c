//! The bytes that a load may bring now.

ghost use Rattle.std.specs.Prelude.{ℕ, false, List, ◌+◌, ◌*◌, ◌%◌, ◌<◌, ◌≡◌, ◌||◌, length};
ghost use Rattle.tl_beat.specs.statement.Width.{IsWidth};
ghost use Rattle.tl_params.specs.declared.level.Level.{Level};
ghost use Rattle.tl_params.specs.declared.liberties.Liberties.{Liberties};
ghost use Rattle.tl_together.specs.statement.Knows.{Knows};
ghost use Rattle.tl_burst.specs.statement.Messages.{History};
ghost use Rattle.tl_memory.specs.statement.Links.{KnowsMessages};
ghost use Rattle.tl_memory.specs.code.ByteSet.{has, has_at};
ghost use Rattle.tl_commits.specs.code.Filling.{filled};
ghost use Rattle.tl_commits.specs.code.ValueTable.{KnowsTable};
ghost use Rattle.tl_commits.specs.statement.Completeness.{Completeness, is_complete};
ghost use Rattle.tl_commits.specs.statement.Commits;
ghost use Rattle.tl_commits.specs.statement.Copies.{brought, holds, link_beats};
ghost use Rattle.tl_commits.specs.statement.Events.{Events, beats_of};

use crate::copies::has_brought_at;
use crate::giving_up::holds_trunk;
use crate::value_table::ValueTable;
use tl_beat::beat::Link;
use tl_memory::byte_set::ByteSet;
use tl_memory::link::LinkMessages;
use tl_memory::message::either;
use tl_rules::key::block_at;
use tl_rules::perm::Perm;
use tl_together::judge::Judge;

/// Whether a link holds a permission of a block.
fn holds<const W: usize>(judge: &Judge<W>, link: Link, block: u32) -> bool
    ensures { (levels : List Level) (l : Liberties) (e : Events W) → Knows judge.now levels l (beats_of e) false →
        link.0 < length levels → result ≡ holds block (link_beats link.0 e) }
{
    judge.held(link, block) != Perm::None
}

/// These sets, each with the values of its byte in the copy that a link holds. The first is of the byte at this address, and
/// the others of those after it. `complete` says whether all stores of the link are in the trace.
fn with_held<const W: usize>(
    judge: &Judge<W>,
    table: &ValueTable,
    complete: bool,
    link: Link,
    address: u32,
    sets: [ByteSet; 8],
) -> [ByteSet; 8]
    ensures { (levels : List Level) (l : Liberties) (of_links : Completeness) (e : Events W) →
        Knows judge.now levels l (beats_of e) false → link.0 < length levels →
        KnowsTable table.now of_links (length levels) e → complete ≡ is_complete of_links link.0 →
        (i v : ℕ) → i < 8 → address % 64 + i < 64 → v < 256 → has_at result i v
        ≡ (has_at sets i v || Commits.may_have of_links (length levels) link.0 (address + i) v e) }
{
    let block = block_at(address);
    if !holds(judge, link, block) {
        return sets;
    }
    let known = either(complete, !holds_trunk(judge, link, block));
    if !known {
        return [ByteSet::all(); 8];
    }
    table.with_seen(sets, block, (address % 64) as u8)
}

/// The values of the byte at a place of a block: `own` with the one that a Grant under way has brought, or `held` if it has
/// brought none.
fn filled_at<const W: usize>(
    messages: &LinkMessages,
    block: u32,
    place: usize,
    own: ByteSet,
    held: ByteSet,
) -> ByteSet
    requires { IsWidth W }
    ensures { (t : History W) → KnowsMessages messages.now t → place < 64 → (v : ℕ) → v < 256 →
        has result v ≡ filled (brought (64 * block + place) t) (has own v) (has held v) v }
{
    if has_brought_at::<W>(messages, block, place) {
        return own.with(messages.d.bytes.bytes().at(place));
    }
    held
}

/// The same for the bytes of a block from this place on.
fn with_filled<const W: usize>(
    messages: &LinkMessages,
    block: u32,
    first: usize,
    sets: &[ByteSet; 8],
    held: [ByteSet; 8],
) -> [ByteSet; 8]
    requires { IsWidth W }
    ensures { (t : History W) → KnowsMessages messages.now t → (i v : ℕ) → i < 8 → first + i < 64 → v < 256 →
        has_at result i v ≡ filled (brought (64 * block + (first + i)) t) (has_at sets.now i v) (has_at held i v) v }
{
    let mut all = held;
    for i in 0..8usize {
        let place = first.saturating_add(i);
        all[i] = filled_at::<W>(messages, block, place, sets[i], held[i]);
    }
    all
}

/// These sets, each with the values of its byte that a load may bring now. The first is of the byte at this address, and the
/// others of those after it. `complete` says whether all stores of the link are in the trace.
pub(crate) fn with_brought<const W: usize>(
    judge: &Judge<W>,
    table: &ValueTable,
    complete: bool,
    link: Link,
    address: u32,
    sets: [ByteSet; 8],
) -> [ByteSet; 8]
    requires { IsWidth W }
    ensures { (levels : List Level) (l : Liberties) (of_links : Completeness) (e : Events W) →
        Knows judge.now levels l (beats_of e) false → link.0 < length levels →
        KnowsTable table.now of_links (length levels) e → complete ≡ is_complete of_links link.0 →
        (i v : ℕ) → i < 8 → address % 64 + i < 64 → v < 256 → has_at result i v
        ≡ (has_at sets i v || Commits.may_bring of_links (length levels) link.0 (address + i) v e) }
{
    let Some(messages) = judge.messages(link) else {
        return sets;
    };
    let held = with_held(judge, table, complete, link, address, sets);
    let first = (address % 64) as usize;
    with_filled::<W>(messages, block_at(address), first, &sets, held)
}
