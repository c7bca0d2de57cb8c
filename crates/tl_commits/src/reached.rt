//! Sets of values of the bytes of a block that an access reaches.

ghost use Rattle.std.specs.Prelude.{ℕ, true, ◌<◌, ◌≡◌, ◌||◌};
ghost use Rattle.tl_bytes.specs.statement.Bytes.{told_as};
ghost use Rattle.tl_bytes.specs.statement.Known.{tellings_at};
ghost use Rattle.tl_memory.specs.code.ByteSet.{has, has_at};
ghost use Rattle.tl_commits.specs.code.Reached.{is_reached};

use tl_bytes::telling::Told;
use tl_memory::access::reaches;
use tl_memory::byte_set::ByteSet;

/// Replaces the set of each place of a block that an access of this address and size reaches.
pub(crate) fn put_reached(sets: &mut [ByteSet; 64], address: u32, size: u8, set: ByteSet)
    ensures { (place v : ℕ) → place < 64 → is_reached address size place ≡ true →
        has_at sets.new place v ≡ has set v }
{
    let first = (address % 64) as usize;
    for place in first..64 {
        if !reaches(address, size, place) {
            return;
        }
        sets[place] = set;
    }
}

/// Adds to the set of each place that an access of this address and size reaches the possible values of the place.
pub(crate) fn add_told(sets: &mut [ByteSet; 64], address: u32, size: u8, told: &[Told])
    ensures { (place v : ℕ) → place < 64 → v < 256 → is_reached address size place ≡ true →
        has_at sets.new place v ≡ (has_at sets.old place v || told_as v (tellings_at place told.now)) }
{
    for telling in told {
        let place = usize::from(telling.place);
        if place < 64 && reaches(address, size, place) {
            sets[place] = sets[place].with(telling.telling.value);
        }
    }
}
