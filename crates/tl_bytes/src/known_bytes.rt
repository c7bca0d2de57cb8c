//! Bytes of a block by their places, some of them known.

ghost use Rattle.std.specs.Prelude.{ℕ, None, Some, true, ◌==◌, ◌<◌, ◌≤◌, ◌≡◌, ◌&&◌, ◌+◌, ◌-◌, ◌++◌, if◌then◌else◌};
ghost use Rattle.std.specs.Prelude.{drop, nat_le, nat_lt, slice_get, slice_index, take};
ghost use Rattle.tl_beat.specs.statement.Width.{IsWidth};
ghost use Rattle.tl_burst.specs.statement.Burst.{bit};
ghost use Rattle.tl_bytes.specs.statement.KnownBytes.{known_at};

/// Puts these bytes into a block's from a place on.
fn put_all<const W: usize>(bytes: &mut [u8; 64], first: usize, lanes: &[u8; W])
    requires { first + W ≤ 64 }
    ensures { bytes.new ≡ take first bytes.old ++ (lanes.now ++ drop (first + W) bytes.old) }
{
    bytes[first..first + W].copy_from_slice(lanes);
}

/// The mask of the places of a beat's lanes, for the place of the first.
fn lanes_from<const W: usize>(first: usize) -> u64
    requires width { IsWidth W }
    requires room { first + W ≤ 64 }
    ensures { (place : ℕ) → place < 64 → bit result place ≡ (nat_le first place && nat_lt place (first + W)) }
{
    (u64::MAX >> (64 - W)) << first
}

/// The number of bytes of a block.
pub const BLOCK_BYTES: u8 = 64;

/// The bytes of a block by their places, some of them known.
#[derive(Clone, Copy)]
pub struct KnownBytes {
    bytes: [u8; 64],
    /// The places of the known bytes: the lowest bit is that of the first place.
    known: u64,
}

impl KnownBytes {
    /// No byte is known.
    pub fn none() -> Self
        ensures { (place : ℕ) → known_at result place ≡ None }
    {
        KnownBytes {
            bytes: [0; 64],
            known: 0,
        }
    }

    /// All bytes are known.
    pub fn all(bytes: &[u8; 64]) -> Self
        ensures { (place : ℕ) → place < 64 → known_at result place ≡ Some (slice_index bytes.now place) }
    {
        KnownBytes {
            bytes: *bytes,
            known: u64::MAX,
        }
    }

    /// The byte at a place, if it is known.
    pub fn at(&self, place: usize) -> Option<u8>
        ensures { result ≡ known_at self.now place }
    {
        if place < 64 && (self.known >> place) % 2 == 1 {
            Some(self.bytes[place])
        } else {
            None
        }
    }

    /// Whether no byte is known.
    pub(crate) fn is_none(&self) -> bool
        ensures { result ≡ true → (place : ℕ) → known_at self.now place ≡ None }
    {
        self.known == 0
    }

    /// Makes the byte at a place of the block known.
    pub(crate) fn set(&mut self, place: usize, byte: u8)
        ensures { place < 64 → (at : ℕ) →
            known_at self.new at ≡ (if at == place then Some byte else known_at self.old at) }
    {
        if place < 64 {
            self.bytes[place] = byte;
            self.known |= 1 << place;
        }
    }

    /// Makes the bytes of a beat known, from a place of the block on.
    pub(crate) fn set_all<const W: usize>(&mut self, first: usize, lanes: &[u8; W])
        requires width { IsWidth W }
        requires room { first + W ≤ 64 }
        ensures { (at : ℕ) → known_at self.new at ≡ (if nat_le first at && nat_lt at (first + W)
            then slice_get lanes.now (at - first) else known_at self.old at) }
    {
        put_all(&mut self.bytes, first, lanes);
        self.known |= lanes_from::<W>(first);
    }

    /// Makes the byte at a place of the block known, if there is one.
    pub(crate) fn set_known(&mut self, place: usize, byte: Option<u8>)
        ensures { place < 64 → known_at self.old place ≡ None → (at : ℕ) →
            known_at self.new at ≡ (if at == place then byte else known_at self.old at) }
    {
        if let Some(byte) = byte {
            self.set(place, byte);
        }
    }
}
