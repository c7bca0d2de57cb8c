//! The block and the bytes of it that an event of a rule of stores and loads is about.

ghost use Rattle.std.specs.Prelude.{◌≡◌, ◌+◌, ◌≤◌, ◌%◌, ◌^◌, IfSome};
ghost use Rattle.tl_commit_story.specs.statement.Cached;

use tl_beat::beat::{Beat, Link};
use tl_events::commit::{Commit, Event, Piece};
use tl_explain::turns::Subject;
use tl_lines::subject::subject_of;
use tl_rules::key::block_at;

/// The number of bytes in a block.
pub const BYTES: usize = 64;

/// The block that an event is about. 0 for a beat that breaks none of these rules.
pub fn block_of<const W: usize>(event: &Event<W>) -> u32
    ensures { result ≡ Cached.block_of event.now }
{
    match event {
        Event::Beat(Beat::A(x)) => block_at(x.address),
        Event::Beat(Beat::C(x)) => block_at(x.address),
        Event::Beat(_) => 0,
        Event::Commit(Commit::Store { piece, .. }) => block_at(piece.address),
        Event::Commit(Commit::Load { piece, .. }) => block_at(piece.address),
        Event::Commit(Commit::Begin { piece }) => block_at(piece.address),
    }
}

/// The subject of a verdict on an event of a link. The block of a response is that of the request that it answers.
pub fn subject_of_event<const W: usize>(
    link: Link,
    event: &Event<W>,
    block: Option<u32>,
) -> Subject {
    match event {
        Event::Beat(beat) => subject_of(link, beat, block),
        Event::Commit(_) => Subject {
            link,
            block: block_of(event),
            source: 0,
            sink: 0,
        },
    }
}

/// The first place, and the number, of bytes of a block, if they are within it.
fn within(first: usize, count: usize) -> Option<(usize, usize)>
    ensures { IfSome result (λ r. (r ≡ (first, count)) × (first + count ≤ 64)) }
{
    if first > BYTES || count > BYTES - first {
        return None;
    }
    Some((first, count))
}

/// The bytes of a piece, by their first place in the block and their number.
fn places_of_piece(piece: Piece) -> Option<(usize, usize)>
    ensures { IfSome result (λ r. (r ≡ (piece.address % 64, 2 ^ piece.size)) × (r.0 + r.1 ≤ 64)) }
{
    if piece.size > 3 {
        return None;
    }
    within((piece.address % 64) as usize, 1 << piece.size)
}

/// The bytes that an event is about, by their first place in the block and their number, if `came` beats of its message
/// came before it. None if they aren't within the block.
pub fn places_of<const W: usize>(came: u64, event: &Event<W>) -> Option<(usize, usize)>
    ensures { IfSome result (λ r. (r ≡ Cached.places_of came event.now) × (r.0 + r.1 ≤ 64)) }
{
    match event {
        Event::Commit(Commit::Store { piece, .. }) => places_of_piece(*piece),
        Event::Commit(Commit::Load { piece, .. }) => places_of_piece(*piece),
        Event::Commit(Commit::Begin { piece }) => places_of_piece(*piece),
        Event::Beat(Beat::C(x)) if x.opcode.carries_data() => {
            if came > 64 {
                return None;
            }
            within(W.saturating_mul(came as usize), W)
        }
        Event::Beat(_) => Some((0, BYTES)),
    }
}
