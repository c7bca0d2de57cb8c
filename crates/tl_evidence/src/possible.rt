//! The values that the bytes of a block may have in a copy, in memory, by a load or in a response.

ghost use Rattle.std.specs.Prelude.{slice_get, ◌^◌, ◌<◌, ◌≡◌};

use crate::byte_values::ByteValues;
use crate::set_lines::SetLines;
use tl_bytes::tellings::is_told_as;
use tl_memory::byte_set::ByteSet;

/// The values that the bytes of a block may have now.
#[derive(Drop)]
pub struct Possible<'a> {
    pub block: u32,
    pub set: &'a SetLines,
    pub ghost addressed: { block < 2 ^ 26 },
}

impl ByteValues for Possible<'_> {
    ghost use Rattle.std.specs.Prelude.{◌-◌, ◌*◌};
    ghost use Rattle.tl_bytes.specs.statement.Bytes.{told_as};
    ghost use Rattle.tl_bytes.specs.statement.Known.{tellings_at};
    ghost use Rattle.tl_evidence.specs.code.Following.{set_in};

    ghost block = { λ p. p.block };

    ghost test = { λ p address v. told_as v (tellings_at (address - 64 * p.block) p.set.now.values.items) };

    ghost told = { λ p address v. set_in p.set.now (address - 64 * p.block) v };

    fn address(&self, place: u8) -> u32 {
        64 * self.block + u32::from(place)
    }

    fn allows(&self, place: u8, value: u8) -> bool {
        is_told_as(self.set.values.as_slice(), place, value)
    }

    fn told(&self, place: u8, value: u8) -> Option<u64> {
        self.set.set_at(place, value)
    }
}

/// The set at this place of a list, if there is one.
fn set_at(sets: &[ByteSet], at: usize) -> Option<ByteSet>
    ensures { result ≡ slice_get sets.now at }
{
    match sets.get(at) {
        None => None,
        Some(set) => Some(*set),
    }
}

/// The values that the bytes from a place of a block on may have in a load or a response: a set for each.
#[derive(Drop)]
pub struct Allowed<'a> {
    pub first: u8,
    pub sets: &'a [ByteSet],
    pub possible: Possible<'a>,
}

impl ByteValues for Allowed<'_> {
    ghost use Rattle.std.specs.Prelude.{◌-◌, ◌+◌, ◌*◌, slice_get};
    ghost use Rattle.tl_evidence.specs.code.Following.{is_in_set, set_in};

    ghost block = { λ p. p.possible.block };

    ghost test = { λ p address v. is_in_set (slice_get p.sets.now (address - (64 * p.possible.block + p.first))) v };

    ghost told = { λ p address v. set_in p.possible.set.now (address - 64 * p.possible.block) v };

    fn address(&self, place: u8) -> u32 {
        self.possible.address(place)
    }

    fn allows(&self, place: u8, value: u8) -> bool {
        match set_at(self.sets, usize::from(place.saturating_sub(self.first))) {
            None => false,
            Some(set) => set.has(value),
        }
    }

    fn told(&self, place: u8, value: u8) -> Option<u64> {
        self.possible.told(place, value)
    }
}
