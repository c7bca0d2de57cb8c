//! The beat that made a value of a byte possible.

ghost use Rattle.std.specs.Prelude.{ℕ, ◌+◌, ◌*◌, ◌<◌, ◌≡◌};
ghost use Rattle.tl_bytes.specs.statement.Bytes as bytes;
ghost use Rattle.tl_bytes.specs.statement.Known.{KnowsBlock, tellings_at, tellings_of};
ghost use Rattle.tl_bytes.specs.statement.Lines.{told_moment};
ghost use Rattle.tl_rules.specs.statement.Conformance.{Trace};

use crate::block_bytes::BlockBytes;
use crate::telling::{Told, same_value};

/// The number of beats before the one that made this value of the byte at a place possible, by these.
fn moment_in(told: &[Told], place: u8, byte: u8) -> Option<u64>
    ensures { result ≡ told_moment byte (tellings_at place told.now) }
{
    for telling in told {
        if telling.place == place && same_value(telling.telling.value, Some(byte)) {
            return Some(telling.telling.moment);
        }
    }
    None
}

impl BlockBytes {
    /// The number of beats before the one that made this value of the byte at a place possible, if it still is.
    pub fn told_at(&self, place: u8, byte: u8) -> Option<u64>
        ensures kept { result ≡ told_moment byte (tellings_of self.now place) }
        ensures told { (w n block : ℕ) (t : Trace w) → KnowsBlock self.now n block t → place < 64 →
            result ≡ told_moment byte (bytes.may_be n (64 * block + place) t) }
    {
        let last = self.latest.at(place);
        if same_value(last.value, Some(byte)) {
            return Some(last.moment);
        }
        moment_in(self.earlier.as_slice(), place, byte)
    }
}
