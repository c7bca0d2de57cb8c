//! The possible values of the bytes of a link's copy, with those that a Grant under way has brought.

ghost use Rattle.std.specs.Prelude.{ℕ, is_some, IfOk, ◌+◌, ◌*◌, ◌<◌, ◌≡◌};
ghost use Rattle.tl_beat.specs.statement.Width.{IsWidth};
ghost use Rattle.tl_burst.specs.statement.Messages.{History};
ghost use Rattle.tl_bytes.specs.statement.Known.{tellings_at};
ghost use Rattle.tl_memory.specs.statement.Links.{KnowsMessages};
ghost use Rattle.tl_commits.specs.code.Tellings.{is_in};
ghost use Rattle.tl_commits.specs.statement.Copied;
ghost use Rattle.tl_commits.specs.statement.Copies.{brought};

use crate::copies::has_brought_at;
use crate::tellings::{Places, replaced};
use std::alloc::{AllocError, Global};
use tl_bytes::known_bytes::BLOCK_BYTES;
use tl_bytes::telling::Told;
use tl_bytes::write::Write;
use tl_memory::link::LinkMessages;

/// The places of a block whose bytes an unfinished Grant has brought.
fn brought_places<const W: usize>(messages: &LinkMessages, block: u32) -> Places
    requires { IsWidth W }
    ensures { (t : History W) → KnowsMessages messages.now t → (place : ℕ) → place < 64 →
        is_in result place ≡ is_some (brought (64 * block + place) t) }
{
    let mut places = [false; 64];
    for place in 0..BLOCK_BYTES {
        let at = usize::from(place);
        places[at] = has_brought_at::<W>(messages, block, at);
    }
    places
}

/// These values of the bytes of a block, with those that an unfinished Grant has brought in their place. The error means
/// that there is no memory left.
pub(crate) fn copied<const W: usize>(
    alloc: Global,
    messages: &LinkMessages,
    seen: &[Told],
    block: u32,
) -> Result<Vec<Told>, AllocError>
    requires { IsWidth W }
    ensures { IfOk result (λ told. (t : History W) → KnowsMessages messages.now t → (place : ℕ) → place < 64 →
        tellings_at place told.items
        ≡ Copied.copied (brought (64 * block + place) t) (tellings_at place seen.now)) }
{
    let places = brought_places::<W>(messages, block);
    let values = Write {
        first: 0,
        mask: u64::MAX,
        values: *messages.d.bytes.bytes(),
    };
    replaced(alloc, seen, &places, &values, 0)
}
