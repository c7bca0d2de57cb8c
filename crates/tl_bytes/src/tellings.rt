//! The possible values of a block's bytes other than the newest.

ghost use Rattle.std.specs.Prelude.{◌++◌, ◌≡◌, IfOk, OnOk, filter};
ghost use Rattle.tl_bytes.specs.code.Tellings.{displaced, is_displaced, outlived, outlives, stays};
ghost use Rattle.tl_bytes.specs.statement.Bytes.{told_as};
ghost use Rattle.tl_bytes.specs.statement.Known.{tellings_at};

use crate::known_bytes::BLOCK_BYTES;
use crate::latest::Latest;
use crate::telling::{Told, could_be, same_value};
use crate::write::Write;
use std::alloc::{AllocError, Global};

/// Whether a possible value of a place that is written stays: it isn't older than `since`, and isn't the value written.
fn outlives(write: &Write, since: u64, told: &Told) -> bool
    ensures { result ≡ outlives write.now since told.now }
{
    since <= told.telling.moment && !same_value(told.telling.value, write.value(told.place))
}

/// Whether a possible value of a place stays. It does if the place isn't written.
fn stays(write: &Write, since: u64, told: &Told) -> bool
    ensures { result ≡ stays write.now since told.now }
{
    if write.writes(told.place) {
        outlives(write, since, told)
    } else {
        true
    }
}

/// Whether the newest possible value of a place stays, and isn't the newest any more.
fn is_displaced(write: &Write, since: u64, told: &Told) -> bool
    ensures { result ≡ is_displaced write.now since told.now }
{
    if write.writes(told.place) {
        outlives(write, since, told)
    } else {
        false
    }
}

/// Appends the newest possible values that stay, of the places that are written.
fn displace(
    told: &mut Vec<Told>,
    latest: &Latest,
    write: &Write,
    since: u64,
) -> Result<(), AllocError>
    ensures { OnOk result (told.new.items ≡ told.old.items ++ displaced 64 latest.now write.now since) }
{
    for place in 0..BLOCK_BYTES {
        let last = Told {
            place,
            telling: latest.at(place),
        };
        if is_displaced(write, since, &last) {
            told.push(last)?;
        }
    }
    Ok(())
}

/// Appends those of these possible values that stay after a write. The error means that there is no memory left.
pub fn keep(
    told: &mut Vec<Told>,
    write: &Write,
    since: u64,
    before: &[Told],
) -> Result<(), AllocError>
    ensures { OnOk result (told.new.items ≡ told.old.items ++ filter (stays write.now since) before.now) }
{
    for telling in before {
        if stays(write, since, telling) {
            told.push(*telling)?;
        }
    }
    Ok(())
}

/// The possible values other than the newest, after a write. The error means that there is no memory left.
pub fn outlived(
    alloc: Global,
    latest: &Latest,
    earlier: &[Told],
    write: &Write,
    since: u64,
) -> Result<Vec<Told>, AllocError>
    ensures { IfOk result (λ told. told.items ≡ outlived latest.now earlier.now write.now since) }
{
    let mut told = Vec::new(alloc);
    if !latest.is_before(since) {
        displace(&mut told, latest, write, since)?;
    }
    keep(&mut told, write, since, earlier)?;
    Ok(told)
}

/// Whether one of these allows this byte at a place.
pub fn is_told_as(told: &[Told], place: u8, byte: u8) -> bool
    ensures { result ≡ told_as byte (tellings_at place told.now) }
{
    for telling in told {
        if telling.place == place && could_be(byte, telling.telling.value) {
            return true;
        }
    }
    false
}
