//! Numbers of names, by their first appearance.

ghost use Rattle.std.specs.Prelude.{ℕ, List, Option, [], ◌∷◌, ◌++◌, ◌≡◌, ◌≤◌, ◌==◌, ◌&&◌};
ghost use Rattle.std.specs.Prelude.{false, if◌then◌else◌, length, slice_index_or, slice_set, Some, None, IfSome, ◌%◌};
ghost use Rattle.tl_wide.specs.statement.Numbers.{IsNumbered, KnowsNumbers, found_in};
ghost use Rattle.tl_wide.specs.code.Numbers.{AreNumbered};
ghost use Rattle.tl_rules.specs.statement.Legality.{is_one_of};
ghost use Rattle.tl_wide.specs.statement.Naming.{place_in};

use crate::places::Places;
use std::alloc::{AllocError, Global};

/// The number of slots for names that were asked for of late.
const SLOTS: usize = 256;

/// The slot of a name.
#[inline(always)]
fn slot_of(name: u64) -> usize
    ensures value { result ≡ name % 256 }
{
    name as usize % SLOTS
}

/// Makes empty slots, if there are none. The error means that there is no memory left.
fn make_slots(slots: &mut Vec<Option<(u64, u32)>>) -> Result<(), AllocError>
    ensures { (i : ℕ) → slice_index_or slots.new.items i None ≡ slice_index_or slots.old.items i None }
{
    if slots.is_empty() {
        slots.resize(SLOTS, None)?;
    }
    Ok(())
}

/// Keeps a name with its number in its slot, if there are slots.
fn fill_slot(slots: &mut Vec<Option<(u64, u32)>>, name: u64, place: u32)
    ensures { slots.new.items ≡ slice_set slots.old.items (name % 256) (Some (name, place)) }
{
    let slot = slot_of(name);
    if slot < slots.len() {
        slots[slot] = Some((name, place));
    }
}

/// Numbers of names by their first appearance: 0, 1, 2 and so on. Names that were asked for of late are in slots beside
/// the table, by their low bits, since later beats often have them too.
#[derive(Drop)]
pub struct Numbers {
    places: Places,
    count: u32,
    has_zero: bool,
    recent: Vec<Option<(u64, u32)>>,
}

impl Numbers {
    /// A table without names, for many of them.
    pub fn new(alloc: Global) -> Self
        ensures { KnowsNumbers result [] }
    {
        Numbers {
            places: Places::new(alloc, 1023),
            count: 0,
            has_zero: false,
            recent: Vec::new(alloc),
        }
    }

    /// A table whose first name is 0, for few names.
    pub fn from_zero(alloc: Global) -> Self
        ensures { KnowsNumbers result (0 ∷ []) }
    {
        Numbers {
            places: Places::new(alloc, 0),
            count: 1,
            has_zero: true,
            recent: Vec::new(alloc),
        }
    }

    /// The number of a name, if it is in its slot.
    #[inline(always)]
    fn recent_place(&self, name: u64) -> Option<u32>
        ensures { IfSome result (λ place. slice_index_or self.now.recent.items (name % 256) None ≡ Some (name, place)) }
    {
        match self.recent.get(slot_of(name)) {
            Some(Some((recent, place))) if *recent == name => Some(*place),
            _ => None,
        }
    }

    /// Whether a name is 0, and has the number 0 from the start.
    #[inline(always)]
    fn is_first_zero(&self, name: u64) -> bool
        ensures { result ≡ (self.now.has_zero && (name == 0)) }
    {
        self.has_zero && name == 0
    }

    /// The number of a name in the table, if it has one.
    fn kept_place(&self, name: u64) -> Option<u32>
        ensures { result ≡ found_in self.now name }
    {
        if self.is_first_zero(name) {
            return Some(0);
        }
        self.places.get(name)
    }

    /// The number of a name that isn't in its slot, if it has one.
    #[inline(never)]
    fn seek(&mut self, name: u64) -> Option<u32>
        ensures { (names : List ℕ) → KnowsNumbers self.old names →
            KnowsNumbers self.new names × (result ≡ found_in self.new name)
            × (found_in self.new name ≡ found_in self.old name) }
    {
        let place = self.kept_place(name)?;
        fill_slot(&mut self.recent, name, place);
        Some(place)
    }

    /// The number of a name, if it has one.
    #[inline(always)]
    fn place(&mut self, name: u64) -> Option<u32>
        ensures { (names : List ℕ) → KnowsNumbers self.old names →
            KnowsNumbers self.new names × (result ≡ found_in self.new name)
            × (found_in self.new name ≡ found_in self.old name) }
    {
        match self.recent_place(name) {
            Some(place) => Some(place),
            None if self.is_first_zero(name) => Some(0),
            None => self.seek(name),
        }
    }

    /// Gives the next number to a name that has none, if fewer than `limit` names have one, and otherwise answers `None`.
    /// The error means that there is no memory left; then no number changes.
    #[inline(never)]
    fn add(&mut self, name: u64, limit: u32) -> Result<Option<u32>, AllocError>
        ensures zero { self.new.has_zero ≡ self.old.has_zero }
        ensures numbered { (names : List ℕ) → KnowsNumbers self.old names → found_in self.old name ≡ None →
            length names ≤ limit → IsNumbered limit names name result self.new }
    {
        if self.count >= limit {
            return Ok(None);
        }
        make_slots(&mut self.recent)?;
        let place = self.count;
        self.places.insert(name, place)?;
        self.count = place.wrapping_add(1);
        fill_slot(&mut self.recent, name, place);
        Ok(Some(place))
    }

    /// Takes the newest number back from its name.
    fn take_back(&mut self, name: u64, number: u32)
        ensures { (names : List ℕ) → KnowsNumbers self.old (names ++ name ∷ []) → is_one_of name names ≡ false →
            (self.old.has_zero && (name == 0)) ≡ false → number ≡ length names → KnowsNumbers self.new names }
    {
        self.places.remove(name);
        self.count = number;
        self.recent.clear();
    }

    /// The number of a name. One that has none yet gets the next, if fewer than `limit` names have one, and otherwise
    /// the answer is `None`. The error means that there is no memory left; then no number changes.
    #[inline(always)]
    pub fn number(&mut self, name: u64, limit: u32) -> Result<Option<u32>, AllocError>
        ensures { (names : List ℕ) → KnowsNumbers self.old names → length names ≤ limit →
            IsNumbered limit names name result self.new }
    {
        match self.place(name) {
            Some(place) => Ok(Some(place)),
            None => self.add(name, limit),
        }
    }
}

/// Gives numbers to two names in two tables that have none. `None` if too many names have one. The error means that
/// there is no memory left. In both cases no number changes.
fn add_both(
    first: &mut Numbers,
    name: u64,
    limit: u32,
    second: &mut Numbers,
    second_name: u64,
    second_limit: u32,
) -> Result<Option<(u32, u32)>, AllocError>
    ensures { (names others : List ℕ) → KnowsNumbers first.old names → KnowsNumbers second.old others →
        found_in first.old name ≡ None → found_in second.old second_name ≡ None →
        length names ≤ limit → length others ≤ second_limit →
        AreNumbered limit names name second_limit others second_name result first.new second.new }
{
    let Some(place) = first.add(name, limit)? else {
        return Ok(None);
    };
    match second.add(second_name, second_limit) {
        Ok(Some(other)) => Ok(Some((place, other))),
        Ok(None) => {
            first.take_back(name, place);
            Ok(None)
        }
        Err(error) => {
            first.take_back(name, place);
            Err(error)
        }
    }
}

/// The numbers of two names in two tables, of which one has none yet. `None` if one of them has none and too many names
/// have one. The error means that there is no memory left. In both cases no number changes.
#[inline(never)]
fn number_new(
    first: &mut Numbers,
    name: u64,
    limit: u32,
    second: &mut Numbers,
    second_name: u64,
    second_limit: u32,
    found: (Option<u32>, Option<u32>),
) -> Result<Option<(u32, u32)>, AllocError>
    ensures { (names others : List ℕ) → KnowsNumbers first.old names → KnowsNumbers second.old others →
        found.0 ≡ found_in first.old name → found.1 ≡ found_in second.old second_name →
        length names ≤ limit → length others ≤ second_limit →
        AreNumbered limit names name second_limit others second_name result first.new second.new }
{
    match found {
        (Some(place), Some(other)) => Ok(Some((place, other))),
        (Some(place), None) => match second.add(second_name, second_limit)? {
            Some(other) => Ok(Some((place, other))),
            None => Ok(None),
        },
        (None, Some(other)) => match first.add(name, limit)? {
            Some(place) => Ok(Some((place, other))),
            None => Ok(None),
        },
        (None, None) => add_both(first, name, limit, second, second_name, second_limit),
    }
}

/// The numbers of two names in two tables. `None` if one of them has none and too many names have one. The error means
/// that there is no memory left. In both cases no number changes.
#[inline(always)]
pub(crate) fn number_both(
    first: &mut Numbers,
    name: u64,
    limit: u32,
    second: &mut Numbers,
    second_name: u64,
    second_limit: u32,
) -> Result<Option<(u32, u32)>, AllocError>
    ensures { (names others : List ℕ) → KnowsNumbers first.old names → KnowsNumbers second.old others →
        length names ≤ limit → length others ≤ second_limit →
        AreNumbered limit names name second_limit others second_name result first.new second.new }
{
    match (first.place(name), second.place(second_name)) {
        (Some(place), Some(other)) => Ok(Some((place, other))),
        found => number_new(first, name, limit, second, second_name, second_limit, found),
    }
}
