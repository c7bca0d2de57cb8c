//! Possible values that two lists have in common.

ghost use Rattle.std.specs.Prelude.{◌≡◌, find, is_some};
ghost use Rattle.tl_bytes.specs.statement.Known.{tellings_at};
ghost use Rattle.tl_commits.specs.statement.Commits;

use tl_bytes::telling::{Told, could_be};

/// Whether two possible values have one in common.
fn agree(one: Option<u8>, other: Option<u8>) -> bool
    ensures { result ≡ Commits.agree one other }
{
    match one {
        None => true,
        Some(one) => could_be(one, other),
    }
}

/// Whether one of these values of a place has one in common with this possible value.
fn agrees(value: Option<u8>, told: &[Told], place: u8) -> bool
    ensures { result ≡ is_some (find (λ y. Commits.agree value y.value) (tellings_at place told.now)) }
{
    for telling in told {
        if telling.place == place && agree(value, telling.telling.value) {
            return true;
        }
    }
    false
}

/// Whether a place may have one value by both lists.
pub(crate) fn have_common(these: &[Told], those: &[Told], place: u8) -> bool
    ensures { result ≡ Commits.have_common (tellings_at place these.now) (tellings_at place those.now) }
{
    for telling in these {
        if telling.place == place && agrees(telling.telling.value, those, place) {
            return true;
        }
    }
    false
}
