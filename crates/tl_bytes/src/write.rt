//! The bytes that an access writes in a block.

ghost use Rattle.std.specs.Prelude.{ℕ, true, ◌&&◌, ◌<◌, ◌≡◌, nat_lt};
ghost use Rattle.tl_burst.specs.statement.Burst as burst;
ghost use Rattle.tl_bytes.specs.code.Tellings.{is_written, leaves, left_as, value_at};
ghost use Rattle.tl_bytes.specs.statement.KnownBytes.{known_at};

use crate::known_bytes::KnownBytes;
use crate::telling::could_be;

/// The places of a block that an access writes, and the value of each, or any. The lowest bit of the mask and the first
/// of the values belong to the place `first`, and the others to the places after it.
#[derive(Clone, Copy)]
pub struct Write {
    pub first: usize,
    pub mask: u64,
    pub values: KnownBytes,
}

/// Whether a bit of a mask is set.
fn is_set(mask: u64, bit: usize) -> bool
    ensures { result ≡ (nat_lt bit 64 && burst.bit mask bit) }
{
    bit < 64 && (mask >> bit) % 2 == 1
}

impl Write {
    /// Whether the access writes a place.
    pub fn writes(&self, place: u8) -> bool
        ensures { result ≡ is_written self.now place }
    {
        match usize::from(place).checked_sub(self.first) {
            None => false,
            Some(at) => is_set(self.mask, at),
        }
    }

    /// The value written to a place, if it isn't any.
    pub fn value(&self, place: u8) -> Option<u8>
        ensures { result ≡ value_at self.now place }
    {
        self.values
            .at(usize::from(place).saturating_sub(self.first))
    }

    /// Whether the access writes each place of a block, and the first value belongs to the first place.
    pub(crate) fn is_whole(&self) -> bool
        ensures { result ≡ true → (place : ℕ) → place < 64 →
            (is_written self.now place ≡ true) × (value_at self.now place ≡ known_at self.now.values place) }
    {
        self.first == 0 && self.mask == u64::MAX
    }

    /// Whether the access may leave this byte at a place.
    pub fn may_leave(&self, place: u8, byte: u8) -> bool
        ensures { result ≡ leaves place byte self.now }
    {
        self.writes(place) && could_be(byte, self.value(place))
    }
}

/// Whether one of these may leave this byte at a place.
pub fn is_left_as(writes: &[Write], place: u8, byte: u8) -> bool
    ensures { result ≡ left_as place byte writes.now }
{
    for write in writes {
        if write.may_leave(place, byte) {
            return true;
        }
    }
    false
}
