//! The newest possible value of each byte of a block.

ghost use Rattle.std.specs.Prelude.{ℕ, true, ◌<◌, ◌≡◌, None, IfOk, slice_index_or};
ghost use Rattle.tl_bytes.specs.code.Tellings.{moment_at, moment_of_known, telling_at, written_at};
ghost use Rattle.tl_bytes.specs.statement.KnownBytes.{known_at};

use crate::known_bytes::{BLOCK_BYTES, KnownBytes};
use crate::telling::Telling;
use crate::write::Write;
use std::alloc::{AllocError, Global};

/// The newest possible value of each byte of a block: a value, or any, and its moment.
#[derive(Drop)]
pub struct Latest {
    /// The values by their places. A byte that isn't known may have any value.
    pub(crate) values: KnownBytes,
    moments: Moments,
}

/// The moments of the newest possible values.
#[derive(Drop)]
pub enum Moments {
    /// This moment for the known bytes, and 0 for the others.
    OfKnown(u64),
    /// This moment for all.
    OfAll(u64),
    /// A moment for each byte, by its place. Few blocks have them, so they are on the heap.
    OfEach(Box<[u64; 64]>),
}

/// The moment of the byte at a place, if that of the known bytes is this one, and that of the others 0.
fn moment_of_known(values: &KnownBytes, moment: u64, place: u8) -> u64
    ensures { result ≡ moment_of_known values.now moment place }
{
    match values.at(usize::from(place)) {
        None => 0,
        Some(_) => moment,
    }
}

/// Whether these are the moments of all bytes, if that of the known ones is this one, and that of the others 0.
fn are_of_known(values: &KnownBytes, moments: &[u64; 64], moment: u64) -> bool
    ensures { result ≡ true → (place : ℕ) → place < 64 →
        slice_index_or moments.now place 0 ≡ moment_of_known values.now moment place }
{
    for place in 0..BLOCK_BYTES {
        if moments[usize::from(place)] != moment_of_known(values, moment, place) {
            return false;
        }
    }
    true
}

impl Latest {
    /// Any value for each byte, since before the trace.
    pub fn new() -> Self
        ensures { (place : ℕ) → telling_at result place ≡ record { value = None; moment = 0 } }
    {
        Latest {
            values: KnownBytes::none(),
            moments: Moments::OfKnown(0),
        }
    }

    /// These values with these moments. `moment` is the newest of them. The error means that there is no memory left.
    fn of(
        alloc: Global,
        values: KnownBytes,
        moments: &[u64; 64],
        moment: u64,
    ) -> Result<Self, AllocError>
        ensures { IfOk result (λ latest. (place : ℕ) → place < 64 → telling_at latest place
            ≡ record { value = known_at values place; moment = slice_index_or moments.now place 0 }) }
    {
        if are_of_known(&values, moments, moment) {
            return Ok(Latest {
                values,
                moments: Moments::OfKnown(moment),
            });
        }
        Ok(Latest {
            values,
            moments: Moments::OfEach(Box::new(alloc, *moments)?),
        })
    }

    /// These values, all with this moment.
    pub fn told(values: &KnownBytes, moment: u64) -> Self
        ensures { (place : ℕ) → telling_at result place
            ≡ record { value = known_at values.now place; moment = moment } }
    {
        Latest {
            values: *values,
            moments: Moments::OfAll(moment),
        }
    }

    /// The moment of the newest possible value of a byte.
    fn moment(&self, place: u8) -> u64
        ensures { result ≡ moment_at self.now.moments self.now.values place }
    {
        match &self.moments {
            Moments::OfKnown(moment) => moment_of_known(&self.values, *moment, place),
            Moments::OfAll(moment) => *moment,
            Moments::OfEach(moments) => match moments.get(usize::from(place)) {
                Some(moment) => *moment,
                None => 0,
            },
        }
    }

    /// Whether the moment of each byte is before this one. If each byte has a moment of its own, it is false without a
    /// search.
    pub(crate) fn is_before(&self, moment: u64) -> bool
        ensures { result ≡ true → (place : ℕ) → (telling_at self.now place).moment < moment }
    {
        match &self.moments {
            Moments::OfKnown(told) | Moments::OfAll(told) => *told < moment,
            Moments::OfEach(_) => false,
        }
    }

    /// The newest possible value of a byte.
    pub fn at(&self, place: u8) -> Telling
        ensures { result ≡ telling_at self.now place }
    {
        Telling {
            value: self.values.at(usize::from(place)),
            moment: self.moment(place),
        }
    }

    /// A copy. The error means that there is no memory left.
    pub fn copy(&self, alloc: Global) -> Result<Self, AllocError>
        ensures { IfOk result (λ latest. (place : ℕ) → telling_at latest place ≡ telling_at self.now place) }
    {
        let moments = match &self.moments {
            Moments::OfKnown(moment) => Moments::OfKnown(*moment),
            Moments::OfAll(moment) => Moments::OfAll(*moment),
            Moments::OfEach(moments) => Moments::OfEach(Box::new(alloc, **moments)?),
        };
        Ok(Latest {
            values: self.values,
            moments,
        })
    }

    /// The newest possible value of a byte after a write at this moment.
    fn with_at(&self, write: &Write, moment: u64, place: u8) -> Telling
        ensures { result ≡ written_at self.now write.now moment place }
    {
        if write.writes(place) {
            Telling {
                value: write.value(place),
                moment,
            }
        } else {
            self.at(place)
        }
    }

    /// The values after a write at this moment.
    fn values_with(&self, write: &Write, moment: u64) -> KnownBytes
        ensures { (place : ℕ) → place < 64 →
            known_at result place ≡ (written_at self.now write.now moment place).value }
    {
        let mut values = KnownBytes::none();
        for place in 0..BLOCK_BYTES {
            let telling = self.with_at(write, moment, place);
            values.set_known(usize::from(place), telling.value);
        }
        values
    }

    /// The moments after a write at this moment.
    fn moments_with(&self, write: &Write, moment: u64) -> [u64; 64]
        ensures { (place : ℕ) → place < 64 →
            slice_index_or result place 0 ≡ (written_at self.now write.now moment place).moment }
    {
        let mut moments = [0; 64];
        for place in 0..BLOCK_BYTES {
            moments[usize::from(place)] = self.with_at(write, moment, place).moment;
        }
        moments
    }

    /// The newest possible values after a write at this moment. The error means that there is no memory left.
    pub fn with(&self, alloc: Global, write: &Write, moment: u64) -> Result<Self, AllocError>
        ensures { IfOk result (λ latest. (place : ℕ) → place < 64 →
            telling_at latest place ≡ written_at self.now write.now moment place) }
    {
        if write.is_whole() {
            return Ok(Latest::told(&write.values, moment));
        }
        let values = self.values_with(write, moment);
        let moments = self.moments_with(write, moment);
        Latest::of(alloc, values, &moments, moment)
    }
}
