//! Lists of the possible values of a block's bytes, with one more write or store.

ghost use Rattle.std.specs.Prelude.{ℕ, [], ◌∷◌, ◌++◌, ◌*◌, ◌+◌, ◌<◌, ◌≡◌, ◌==◌, ◌&&◌, ◌||◌, if◌then◌else◌, filter};
ghost use Rattle.std.specs.Prelude.{IfOk, OnErr, OnOk, false, true};
ghost use Rattle.tl_bytes.specs.code.Tellings.{is_written, with_write};
ghost use Rattle.tl_bytes.specs.statement.Bytes.{told_as};
ghost use Rattle.tl_bytes.specs.statement.Known.{tellings_at};
ghost use Rattle.tl_bytes.specs.statement.KnownBytes.{known_at};
ghost use Rattle.tl_commits.specs.code.Tellings as code;
ghost use Rattle.tl_commits.specs.code.Tellings.{is_in};

use std::alloc::{AllocError, Global};
use tl_bytes::known_bytes::{BLOCK_BYTES, KnownBytes};
use tl_bytes::standing::Standing;
use tl_bytes::telling::{Telling, Told, could_be};
use tl_bytes::tellings::{is_told_as, keep};
use tl_bytes::write::Write;

/// Some of the places of a block.
pub(crate) type Places = [bool; 64];

/// Whether a place is one of these.
pub(crate) fn is_in(places: &Places, place: u8) -> bool
    ensures { result ≡ is_in places.now place }
{
    match places.get(usize::from(place)) {
        Some(there) => *there,
        None => false,
    }
}

/// These places, and those that are written.
pub(crate) fn with_written(places: &Places, write: &Write) -> Places
    ensures { (place : ℕ) → place < 64 →
        is_in result place ≡ (is_in places.now place || is_written write.now place) }
{
    let mut all = *places;
    for place in 0..BLOCK_BYTES {
        if write.writes(place) {
            all[usize::from(place)] = true;
        }
    }
    all
}

/// Appends the values that are written to these places, which became possible at this moment.
fn append_written(
    told: &mut Vec<Told>,
    places: &Places,
    write: &Write,
    moment: u64,
) -> Result<(), AllocError>
    ensures { OnOk result (told.new.items ≡ told.old.items ++ code.written 64 places.now write.now moment) }
{
    for place in 0..BLOCK_BYTES {
        if is_in(places, place) {
            told.push(written_there(write, place, moment))?;
        }
    }
    Ok(())
}

/// Appends the values of these places, or of the others.
fn append_at(
    told: &mut Vec<Told>,
    before: &[Told],
    places: &Places,
    there: bool,
) -> Result<(), AllocError>
    ensures { OnOk result (told.new.items ≡ told.old.items ++ filter (code.stands places.now there) before.now) }
{
    for telling in before {
        if is_in(places, telling.place) == there {
            told.push(*telling)?;
        }
    }
    Ok(())
}

/// Whether this byte is a possible value of a place, or any is. A message says the places in their order, so the value that
/// has the place's number is looked at first.
pub(crate) fn allows(told: &[Told], place: u8, byte: u8) -> bool
    ensures { result ≡ told_as byte (tellings_at place told.now) }
{
    match told.get(usize::from(place)) {
        Some(there) if there.place == place && could_be(byte, there.telling.value) => true,
        _ => is_told_as(told, place, byte),
    }
}

/// The values after a message that sets the bytes to these. The error means that there is no memory left.
pub(crate) fn told(alloc: Global, values: &KnownBytes, moment: u64) -> Result<Vec<Told>, AllocError>
    ensures { IfOk result (λ told. (place : ℕ) → place < 64 →
        tellings_at place told.items ≡ record { value = known_at values.now place; moment = moment } ∷ []) }
{
    let all = Write {
        first: 0,
        mask: u64::MAX,
        values: *values,
    };
    let mut told = Vec::new(alloc);
    append_written(&mut told, &[true; 64], &all, moment)?;
    Ok(told)
}

/// Whether the list has one value for each place, in the order of the places.
fn is_plain(told: &[Told]) -> bool
    ensures { result ≡ true → code.IsPlain told.now }
{
    if told.len() != 64 {
        return false;
    }
    for place in 0..BLOCK_BYTES {
        if told[usize::from(place)].place != place {
            return false;
        }
    }
    true
}

/// The value that is written to a place, from this moment on.
fn written_there(write: &Write, place: u8, moment: u64) -> Told
    ensures { result ≡ code.written_there write.now moment place }
{
    Told {
        place,
        telling: Telling {
            value: write.value(place),
            moment,
        },
    }
}

/// Sets the values of these places in a list that has one value for each place.
fn set_each(told: &mut Vec<Told>, places: &Places, write: &Write, moment: u64)
    ensures { code.IsPlain told.old.items → (place : ℕ) → place < 64 → tellings_at place told.new.items
        ≡ code.with_set (is_in places.now place) write.now moment place (tellings_at place told.old.items) }
{
    for place in 0..BLOCK_BYTES {
        let at = usize::from(place);
        if is_in(places, place) && at < told.len() {
            told[at] = written_there(write, place, moment);
        }
    }
}

/// A list with the values of these places set. The error means that there is no memory left.
pub(crate) fn replaced(
    alloc: Global,
    before: &[Told],
    places: &Places,
    write: &Write,
    moment: u64,
) -> Result<Vec<Told>, AllocError>
    ensures { IfOk result (λ told. (place : ℕ) → place < 64 → tellings_at place told.items
        ≡ code.with_set (is_in places.now place) write.now moment place (tellings_at place before.now)) }
{
    let mut told = Vec::new(alloc);
    append_written(&mut told, places, write, moment)?;
    append_at(&mut told, before, places, false)?;
    Ok(told)
}

/// Sets the values of these places, as a store or a load does. The error means that there is no memory left; then nothing
/// changes.
pub(crate) fn set(
    alloc: Global,
    told: &mut Vec<Told>,
    places: &Places,
    write: &Write,
    moment: u64,
) -> Result<(), AllocError>
    ensures set { OnOk result ((place : ℕ) → place < 64 → tellings_at place told.new.items
        ≡ code.with_set (is_in places.now place) write.now moment place (tellings_at place told.old.items)) }
    ensures kept { OnErr result (told.new ≡ told.old) }
{
    if is_plain(told.as_slice()) {
        set_each(told, places, write, moment);
        return Ok(());
    }
    let next = replaced(alloc, told.as_slice(), places, write, moment)?;
    *told = next;
    Ok(())
}

/// The values after an access with this write, which has this relation to the block. The error means that there is no
/// memory left.
pub(crate) fn written(
    alloc: Global,
    before: &[Told],
    write: &Write,
    standing: Standing,
    moment: u64,
) -> Result<Vec<Told>, AllocError>
    ensures { IfOk result (λ told. (place : ℕ) → place < 64 → tellings_at place told.items
        ≡ with_write write.now standing moment place (tellings_at place before.now)) }
{
    let since = match standing {
        Standing::Told => return Vec::from_slice(alloc, before),
        Standing::Within(began) => began,
        Standing::Anywhere => 0,
    };
    let places = with_written(&[false; 64], write);
    let mut told = Vec::new(alloc);
    append_written(&mut told, &places, write, moment)?;
    keep(&mut told, write, since, before)?;
    Ok(told)
}

/// Those values at these places, and the others elsewhere. The error means that there is no memory left.
pub(crate) fn chosen(
    alloc: Global,
    places: &Places,
    those: &[Told],
    others: &[Told],
) -> Result<Vec<Told>, AllocError>
    ensures { IfOk result (λ told. (place : ℕ) → place < 64 → tellings_at place told.items
        ≡ (if is_in places.now place then tellings_at place those.now else tellings_at place others.now)) }
{
    let mut told = Vec::new(alloc);
    append_at(&mut told, those, places, true)?;
    append_at(&mut told, others, places, false)?;
    Ok(told)
}
