//! The lines that set the values of a block's bytes.

ghost use Rattle.std.specs.Prelude.{ℕ, Bool, List, None, Some, true, [], ◌∷◌, if◌then◌else◌, length, slice_get, slice_index_or, ◌&&◌, ◌==◌, ◌<◌, ◌≡◌, IfOk};
ghost use Rattle.tl_beat.specs.declared.beat.Link.{Link};
ghost use Rattle.tl_bytes.specs.declared.telling.Telling.{Telling};
ghost use Rattle.tl_bytes.specs.statement.Known.{tellings_at};
ghost use Rattle.tl_commits.specs.statement.Events.{Events};
ghost use Rattle.tl_events.specs.declared.commit.Event.{Event};
ghost use Rattle.tl_evidence.specs.code.Following.{COUNTS, kept_in, set_in};
ghost use Rattle.tl_evidence.specs.statement.SetLines.{comes, is_one, same_telling};

use std::alloc::{AllocError, Global};
use tl_bytes::telling::{Told, same_value};

/// The number of values of a byte.
const VALUES: usize = 256;

/// The number of bytes in a block.
const BYTES: usize = 64;

/// The possible values of the bytes of a block, and which event set each.
#[derive(Drop)]
pub struct SetLines {
    /// The values, those of each byte the newest first.
    pub(crate) values: Vec<Told>,
    /// For each value of the first byte, then of the second and so on, the number of events before the last one that set it.
    pub(crate) counts: Vec<Option<u64>>,
}

/// Whether two possible values are the same, of the same place and from the same moment on.
fn is_same(one: Told, other: Told) -> bool
    ensures { result ≡ (other.place == one.place && same_telling one.telling other.telling) }
{
    other.place == one.place
        && same_value(one.telling.value, other.telling.value)
        && one.telling.moment == other.telling.moment
}

/// The value at this place of a list, if there is one.
fn told_at(before: &[Told], at: usize) -> Option<Told>
    ensures { result ≡ slice_get before.now at }
{
    match before.get(at) {
        None => None,
        Some(there) => Some(*there),
    }
}

/// Whether the value at this place of a list is the same.
fn is_at(told: Told, before: &[Told], at: usize) -> bool
    ensures { result ≡ true → is_one told.telling (tellings_at told.place before.now) ≡ true }
{
    match told_at(before, at) {
        None => false,
        Some(there) => is_same(told, there),
    }
}

/// Whether a value is one of these, from the same moment on. The one at this place of the list is looked at first.
fn is_one(told: Told, before: &[Told], at: usize) -> bool
    ensures { result ≡ is_one told.telling (tellings_at told.place before.now) }
{
    if is_at(told, before, at) {
        return true;
    }
    for one in before {
        if is_same(told, *one) {
            return true;
        }
    }
    false
}

/// No event has set a value.
fn no_counts(alloc: Global) -> Result<Vec<Option<u64>>, AllocError>
    ensures long { IfOk result (λ counts. length counts.items ≡ COUNTS) }
    ensures none { IfOk result (λ counts. (at : ℕ) → slice_index_or counts.items at None ≡ None) }
{
    let mut counts = Vec::new(alloc);
    for _ in 0..BYTES * VALUES {
        counts.push(None)?;
    }
    Ok(counts)
}

/// Keeps the number of events before the one that set this value of the byte at a place.
fn keep(counts: &mut Vec<Option<u64>>, place: u8, value: u8, count: u64)
    requires { length counts.old.items ≡ COUNTS }
    ensures long { length counts.new.items ≡ COUNTS }
    ensures kept { (p v : ℕ) → p < 64 → v < 256 → kept_in counts.new.items p v
        ≡ (if p == place && v == value then Some count else kept_in counts.old.items p v) }
{
    let at = VALUES * usize::from(place) + usize::from(value);
    if at < counts.len() {
        counts[at] = Some(count);
    }
}

/// Keeps the number of events before the one that set this value, if it isn't one of those before. The one at this place of
/// the list is looked at first.
fn keep_new(counts: &mut Vec<Option<u64>>, told: Told, before: &[Told], at: usize, count: u64)
    requires { length counts.old.items ≡ COUNTS }
    ensures long { length counts.new.items ≡ COUNTS }
    ensures kept { (p v : ℕ) → p < 64 → v < 256 → kept_in counts.new.items p v
        ≡ (if comes v (tellings_at p before.now) (tellings_at p (told ∷ [])) then Some count
        else kept_in counts.old.items p v) }
{
    let Some(value) = told.telling.value else {
        return;
    };
    if !is_one(told, before, at) {
        keep(counts, told.place, value, count);
    }
}

/// Keeps the number of events before the one that set those of these values that aren't among those before.
fn keep_all(counts: &mut Vec<Option<u64>>, now: &[Told], before: &[Told], count: u64)
    requires { length counts.old.items ≡ COUNTS }
    ensures long { length counts.new.items ≡ COUNTS }
    ensures kept { (p v : ℕ) → p < 64 → v < 256 → kept_in counts.new.items p v
        ≡ (if comes v (tellings_at p before.now) (tellings_at p now.now) then Some count
        else kept_in counts.old.items p v) }
{
    for at in 0..now.len() {
        keep_new(counts, now[at], before, at, count);
    }
}

impl SetLines {
    ghost use Rattle.tl_evidence.specs.code.Following.{KnowsSet};

    /// The values that bytes have before any event.
    pub fn new(alloc: Global, now: Vec<Told>) -> Result<Self, AllocError>
        ensures { IfOk result (λ s. (w : ℕ) (values : ℕ → Events w → List Telling) →
            ((place : ℕ) → place < 64 → tellings_at place now.items ≡ values place []) → KnowsSet s values []) }
    {
        let counts = no_counts(alloc)?;
        Ok(SetLines {
            values: now,
            counts,
        })
    }

    /// Keeps the number of events before the one that set those of these values that the bytes didn't have.
    fn renew(&mut self, now: &[Told], count: u64)
        ensures same { self.new.values ≡ self.old.values }
        ensures kept { length self.old.counts.items ≡ COUNTS → (length self.new.counts.items ≡ COUNTS)
            × ((p v : ℕ) → p < 64 → v < 256 → set_in self.new p v
            ≡ (if comes v (tellings_at p self.old.values.items) (tellings_at p now.now) then Some count
            else set_in self.old p v)) }
    {
        if self.counts.len() != BYTES * VALUES {
            return;
        }
        keep_all(&mut self.counts, now, self.values.as_slice(), count);
    }

    /// Takes the values that the bytes have after one more event; `count` is the number of events before it.
    pub fn take(&mut self, now: Vec<Told>, count: u64)
        ensures { (w : ℕ) (values : ℕ → Events w → List Telling) (x : Link × Event w) (e : Events w) →
            KnowsSet self.old values e → count ≡ length e →
            ((place : ℕ) → place < 64 → tellings_at place now.items ≡ values place (x ∷ e)) →
            KnowsSet self.new values (x ∷ e) }
    {
        self.renew(now.as_slice(), count);
        self.values = now;
    }

    /// The number of events before the last one that set this value of the byte at a place, if one did.
    pub fn set_at(&self, place: u8, value: u8) -> Option<u64>
        ensures { result ≡ set_in self.now place value }
    {
        let at = VALUES * usize::from(place) + usize::from(value);
        match self.counts.get(at) {
            None => None,
            Some(count) => *count,
        }
    }
}
