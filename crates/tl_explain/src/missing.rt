//! Reasons about a key that is pending and must be free, or the reverse.

ghost use Rattle.std.specs.Prelude.{◌≡◌};
ghost use Rattle.tl_explain.specs.code.Chosen;
ghost use Rattle.tl_explain.specs.code.Recorded.{begun_by};

use crate::bursts::{Begun, begun_of};
use crate::held::Held;
use crate::key::comes;
use crate::reason::Reason;
use crate::told::Told;
use crate::turn::Turn;
use crate::turns::Moment;
use tl_monitor::bursts::Unfinished;
use tl_params::key::Key;
use tl_params::liberties::Liberties;

/// The reason if the key is pending.
pub fn where_pending(key: Key, turn: &Turn) -> Option<Reason>
    ensures { result ≡ Chosen.where_pending key turn.now }
{
    let told = turn.pending()?;
    Some(Reason::Pending(key, told))
}

/// The burst of a message that must be complete before its answer.
pub fn awaited(liberties: Liberties, burst: &Option<Unfinished<Moment>>) -> Option<Begun>
    ensures { result ≡ Chosen.awaited liberties (begun_by burst.now) }
{
    if liberties.early {
        None
    } else {
        begun_of(burst)
    }
}

/// The reason if no complete message has the key pending. `burst` is the unfinished one on the channel whose messages
/// open the key.
pub fn where_not_pending(key: Key, turn: &Turn, burst: Option<Begun>) -> Option<Reason>
    ensures { result ≡ Chosen.where_missing key turn.now burst }
{
    let Some(opening) = turn.opening else {
        return Some(Reason::Never(key));
    };
    match turn.pending() {
        None => {
            let closing = turn.closing?;
            Some(Reason::Closed(key, opening, closing))
        }
        Some(_) => where_unfinished(key, opening, burst),
    }
}

/// The reason if the burst is that of the message that opened the key.
fn where_unfinished(key: Key, opening: Told, burst: Option<Begun>) -> Option<Reason>
    ensures { result ≡ Chosen.unfinished_by key opening burst }
{
    let begun = burst?;
    if begun.first.mention.line == opening.mention.line && comes(key, &begun.newest) {
        Some(Reason::Unfinished(key, opening, begun.came))
    } else {
        None
    }
}

/// The first reason, or else the other.
pub fn first_of(one: Option<Reason>, other: Option<Reason>) -> Option<Reason>
    ensures { result ≡ Chosen.first_reason one other }
{
    match one {
        None => other,
        Some(reason) => Some(reason),
    }
}

/// The permission held, unless it fits.
pub fn unless_held(fits: bool, held: Held) -> Option<Reason>
    ensures { result ≡ Chosen.unless_held fits held }
{
    if fits {
        None
    } else {
        Some(Reason::Holds(held))
    }
}
