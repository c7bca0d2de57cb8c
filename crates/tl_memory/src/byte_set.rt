//! Sets of values of a byte.

ghost use Rattle.std.specs.Prelude.{ℕ, false, true, ◌+◌, ◌<◌, ◌==◌, ◌≡◌, ◌||◌};
ghost use Rattle.tl_bytes.specs.code.Tellings.{leaves};
ghost use Rattle.tl_bytes.specs.statement.Bytes.{could_be, told_as};
ghost use Rattle.tl_bytes.specs.statement.Known.{tellings_at};
ghost use Rattle.tl_memory.specs.code.ByteSet.{has, has_at};

use tl_bytes::known_bytes::BLOCK_BYTES;
use tl_bytes::telling::Told;
use tl_bytes::write::Write;

/// A set of values of a byte: a bit for each, those of the lowest values in the first word.
#[derive(Clone, Copy, Debug, PartialEq, Eq)]
pub struct ByteSet {
    words: [u64; 4],
}

impl ByteSet {
    /// No value.
    pub fn none() -> Self
        ensures { (v : ℕ) → v < 256 → has result v ≡ false }
    {
        ByteSet { words: [0; 4] }
    }

    /// Each value.
    pub fn all() -> Self
        ensures { (v : ℕ) → v < 256 → has result v ≡ true }
    {
        ByteSet {
            words: [u64::MAX; 4],
        }
    }

    /// Whether a value is one of these.
    pub fn has(&self, byte: u8) -> bool
        ensures { result ≡ has self.now byte }
    {
        (self.words[usize::from(byte / 64)] >> (byte % 64)) % 2 == 1
    }

    /// These values, and one more.
    fn with_one(self, byte: u8) -> Self
        ensures { (v : ℕ) → v < 256 → has result v ≡ (has self v || v == byte) }
    {
        let mut words = self.words;
        words[usize::from(byte / 64)] |= 1 << (byte % 64);
        ByteSet { words }
    }

    /// These values, and one more, or any.
    pub fn with(self, value: Option<u8>) -> Self
        ensures { (v : ℕ) → v < 256 → has result v ≡ (has self v || could_be v value) }
    {
        match value {
            None => Self::all(),
            Some(byte) => self.with_one(byte),
        }
    }
}

/// These sets, each with the possible values of its place. The first is of this place, and the others of those after it.
pub fn with_told<const N: usize>(sets: [ByteSet; N], told: &[Told], first: u8) -> [ByteSet; N]
    ensures { (i v : ℕ) → i < N → v < 256 → has_at result i v
        ≡ (has_at sets.entry i v || told_as v (tellings_at (first + i) told.now)) }
{
    let mut all = sets;
    for telling in told {
        if let Some(at) = telling.place.checked_sub(first) {
            let at = usize::from(at);
            if at < N {
                all[at] = all[at].with(telling.telling.value);
            }
        }
    }
    all
}

/// Adds to the set of each place of a block the value that a write leaves there, if it writes the place.
pub fn add_write(sets: &mut [ByteSet; 64], write: &Write)
    ensures { (place v : ℕ) → place < 64 → v < 256 →
        has_at sets.new place v ≡ (has_at sets.old place v || leaves place v write.now) }
{
    for place in 0..BLOCK_BYTES {
        if write.writes(place) {
            let at = usize::from(place);
            sets[at] = sets[at].with(write.value(place));
        }
    }
}
