//! Bytes that a response has and may not have, and the values that they may have.

ghost use Rattle.std.specs.Prelude.{ℕ, suc, Bool, false, ◌+◌, ◌*◌, ◌<◌, ◌≤◌, ◌≡◌, ◌++◌, ◌∷◌, List, Option, IfOk, OnOk};
ghost use Rattle.tl_beat.specs.statement.Width.{IsWidth};
ghost use Rattle.tl_memory.specs.code.Expected.{allows};
ghost use Rattle.tl_rules.specs.code.Place.{base_of};
ghost use Rattle.tl_rules.specs.statement.History as history;
ghost use Rattle.tl_witness.specs.code.Strays.{told_of};
ghost use Rattle.tl_witness.specs.statement.Naming.{Naming};
ghost use Rattle.tl_witness.specs.statement.Strays.{lead_text, more_text, next_line, stray_line, strays_text};
ghost use Rattle.tl_witness.specs.statement.Strays.{told_text, value_text, values_text};

use crate::places::Places;
use crate::text::{append_hex, append_number};
use std::alloc::AllocError;
use tl_memory::expected::Expected;
use tl_rules::key::block_at;
use tl_rules::place::base;
use tl_together::judge::Judge;

/// The most bytes that are listed.
const TOLD: u8 = 8;

/// The number of values of a byte.
const VALUES: u16 = 256;

/// The words before a value: the first differ from those after other values.
fn lead(any: bool) -> &'static str
    ensures { result.now ≡ lead_text any }
{
    if any { ", or " } else { ", and may be " }
}

/// Appends the line that showed a value, if the byte may still have it. `moment` is the number of beats before that
/// line's.
fn append_told<X: Places>(
    places: &X,
    moment: Option<u64>,
    out: &mut Vec<u8>,
) -> Result<(), AllocError>
    ensures { OnOk result (out.new.items ≡ out.old.items ++ told_text (X.names places.now) moment) }
{
    let Some(moment) = moment else {
        return Ok(());
    };
    out.extend_from_slice(b", set in line ")?;
    append_number(places.line_at(u128::from(moment) + 2), out)
}

/// Appends a value, and the line that showed it.
fn append_value<X: Places>(
    places: &X,
    value: u8,
    moment: Option<u64>,
    out: &mut Vec<u8>,
) -> Result<(), AllocError>
    ensures { OnOk result (out.new.items ≡ out.old.items ++ value_text (X.names places.now) value moment) }
{
    append_hex(u32::from(value), 2, out)?;
    append_told(places, moment, out)
}

/// Appends a value if the byte at a place may have it. Returns whether any value has been appended.
fn append_allowed<const W: usize, X: Places>(
    places: &X,
    expected: &Expected,
    judge: &Judge<W>,
    place: u8,
    value: u8,
    any: bool,
    out: &mut Vec<u8>,
) -> Result<bool, AllocError>
    requires { place < 64 }
    ensures { IfOk result (λ now. (n : ℕ) →
        out.new.items ++ values_text (X.names places.now)
        (allows expected.now (64 * history.block_at expected.now.address + place))
        (told_of judge.now (64 * history.block_at expected.now.address + place)) now n (value + 1)
        ≡ out.old.items ++ values_text (X.names places.now)
        (allows expected.now (64 * history.block_at expected.now.address + place))
        (told_of judge.now (64 * history.block_at expected.now.address + place)) any (suc n) value) }
{
    if !expected.allows(usize::from(place), value) {
        return Ok(any);
    }
    let moment = judge.told_at(block_at(expected.address), place, value);
    out.extend_from_slice(lead(any).as_bytes())?;
    append_value(places, value, moment, out)?;
    Ok(true)
}

#[tactic(auto, unfolding(crate::specs::statement::Strays::values_text))]
/// Appends that no value is known, if `any` is false.
fn append_nothing(any: bool, out: &mut Vec<u8>) -> Result<(), AllocError>
    ensures { OnOk result ((names : Naming) (test : ℕ → Bool) (told : ℕ → Option ℕ) (v : ℕ) →
        out.new.items ≡ out.old.items ++ values_text names test told any 0 v) }
{
    if any {
        return Ok(());
    }
    out.extend_from_slice(b", and no value of it was seen")
}

/// Appends the values that the byte at a place may have.
fn append_values<const W: usize, X: Places>(
    places: &X,
    expected: &Expected,
    judge: &Judge<W>,
    place: u8,
    out: &mut Vec<u8>,
) -> Result<(), AllocError>
    requires { place < 64 }
    ensures { OnOk result (out.new.items ≡ out.old.items ++ values_text (X.names places.now)
        (allows expected.now (64 * history.block_at expected.now.address + place))
        (told_of judge.now (64 * history.block_at expected.now.address + place)) false 256 0) }
{
    let mut any = false;
    for value in 0..VALUES {
        any = append_allowed(places, expected, judge, place, value as u8, any, out)?;
    }
    append_nothing(any, out)
}

/// The address of a place in the block of an address.
fn address_at(address: u32, place: u8) -> u32
    requires { place < 64 }
    ensures { result ≡ 64 * history.block_at address + place }
{
    address - address % 64 + u32::from(place)
}

#[tactic(auto, unfolding(crate::specs::statement::Strays::stray_line))]
/// Appends the byte at a place of its block, and the values that it may have.
fn append_stray<const W: usize, X: Places>(
    places: &X,
    expected: &Expected,
    judge: &Judge<W>,
    place: u8,
    byte: u8,
    out: &mut Vec<u8>,
) -> Result<(), AllocError>
    requires { place < 64 }
    ensures { OnOk result (out.new.items ≡ out.old.items
        ++ stray_line (X.names places.now) (64 * history.block_at expected.now.address + place) byte
        (allows expected.now (64 * history.block_at expected.now.address + place))
        (told_of judge.now (64 * history.block_at expected.now.address + place))) }
{
    out.extend_from_slice(b"  byte ")?;
    places.append_place(address_at(expected.address, place), out)?;
    out.extend_from_slice(b" is ")?;
    append_hex(u32::from(byte), 2, out)?;
    append_values(places, expected, judge, place, out)?;
    out.push(b'\n')?;
    Ok(())
}

/// Appends a line for the byte at a place of its block, after `count` others, if it is one of the first eight.
fn append_counted<const W: usize, X: Places>(
    places: &X,
    expected: &Expected,
    judge: &Judge<W>,
    place: u8,
    byte: u8,
    count: u8,
    out: &mut Vec<u8>,
) -> Result<(), AllocError>
    requires { place < 64 }
    ensures { OnOk result (out.new.items ≡ out.old.items
        ++ next_line (X.names places.now) count (64 * history.block_at expected.now.address + place) byte
        (allows expected.now (64 * history.block_at expected.now.address + place))
        (told_of judge.now (64 * history.block_at expected.now.address + place))) }
{
    if count >= TOLD {
        return Ok(());
    }
    append_stray(places, expected, judge, place, byte, out)
}

/// Appends a line for the byte at a place of its block, after `count` others, if the response may not have it. Returns
/// the number of such bytes.
fn tell_lane<const W: usize, X: Places>(
    places: &X,
    expected: &Expected,
    judge: &Judge<W>,
    place: u8,
    byte: u8,
    count: u8,
    out: &mut Vec<u8>,
) -> Result<u8, AllocError>
    requires place { place < 64 }
    requires count { count < 64 }
    ensures told { IfOk result (λ now. (rest : List ℕ) → out.new.items
        ++ strays_text (X.names places.now) (allows expected.now) (told_of judge.now) now
        (64 * history.block_at expected.now.address + place + 1) rest
        ≡ out.old.items ++ strays_text (X.names places.now) (allows expected.now) (told_of judge.now) count
        (64 * history.block_at expected.now.address + place) (byte ∷ rest)) }
    ensures few { IfOk result (λ now. now ≤ count + 1) }
{
    if expected.allows(usize::from(place), byte) {
        return Ok(count);
    }
    append_counted(places, expected, judge, place, byte, count, out)?;
    Ok(count + 1)
}

/// Appends the number of bytes after those that are listed.
fn append_more(count: u8, out: &mut Vec<u8>) -> Result<(), AllocError>
    ensures { OnOk result (out.new.items ≡ out.old.items ++ more_text count) }
{
    if count <= TOLD {
        return Ok(());
    }
    out.extend_from_slice(b"  and ")?;
    append_number(u128::from(count - TOLD), out)?;
    out.extend_from_slice(b" more\n")
}

/// Appends a line for each of these bytes, from a place of their block on, that the response may not have: for the
/// first eight, and then the number of the others.
fn tell_lanes<const W: usize, X: Places>(
    places: &X,
    expected: &Expected,
    judge: &Judge<W>,
    first: usize,
    lanes: &[u8; W],
    out: &mut Vec<u8>,
) -> Result<(), AllocError>
    requires width { IsWidth W }
    requires inside { first + W ≤ 64 }
    ensures { OnOk result (out.new.items ≡ out.old.items
        ++ strays_text (X.names places.now) (allows expected.now) (told_of judge.now) 0
        (64 * history.block_at expected.now.address + first) lanes.now) }
{
    let mut count = 0u8;
    for lane in 0..W {
        count = tell_lane(
            places,
            expected,
            judge,
            (first + lane) as u8,
            lanes[lane],
            count,
            out,
        )?;
    }
    append_more(count, out)
}

/// Appends a line for each byte of a beat, the one after `beats` others of the response, that it may not have: for the
/// first eight, and then the number of the others.
pub(crate) fn tell_strays<const W: usize, X: Places>(
    places: &X,
    expected: &Expected,
    judge: &Judge<W>,
    beats: usize,
    lanes: &[u8; W],
    out: &mut Vec<u8>,
) -> Result<(), AllocError>
    requires { IsWidth W }
    ensures { OnOk result (base_of W expected.now.address + W * beats + W ≤ 64 →
        out.new.items ≡ out.old.items ++ strays_text (X.names places.now) (allows expected.now) (told_of judge.now) 0
        (64 * history.block_at expected.now.address + (base_of W expected.now.address + W * beats)) lanes.now) }
{
    let first = base::<W>(expected.address).saturating_add(W.saturating_mul(beats));
    if first.saturating_add(W) > 64 {
        return Ok(());
    }
    tell_lanes(places, expected, judge, first, lanes, out)
}
