//! Lists bytes that a report or a load has and may not have, and the values that they may have.

ghost use Rattle.std.specs.Prelude.{ℕ, suc, Bool, false, ◌+◌, ◌*◌, ◌<◌, ◌≤◌, ◌≡◌, ◌++◌, ◌∷◌, List, Option, IfOk, OnOk, length};
ghost use Rattle.std.specs.Fmt.{decimal};
ghost use Rattle.tl_witness.specs.statement.Naming.{Naming};
ghost use Rattle.tl_witness.specs.statement.Strays.{lead_text, more_text, next_line, stray_line, strays_text};
ghost use Rattle.tl_witness.specs.statement.Strays.{told_text, value_text, values_text};

use crate::byte_values::ByteValues;
use itoa::Buffer;
use std::alloc::AllocError;
use tl_witness::places::Places;
use tl_witness::text::append_hex;

/// The most bytes that are listed.
const TOLD: u8 = 8;

/// The number of values of a byte.
const VALUES: u16 = 256;

/// Appends a number.
fn append_number(number: u128, out: &mut Vec<u8>) -> Result<(), AllocError>
    ensures { OnOk result (out.new.items ≡ out.old.items ++ decimal number) }
{
    let mut digits = Buffer::new();
    out.extend_from_slice(digits.format(number).as_bytes())
}

/// The words before a value: the first differ from those after other values.
fn lead(any: bool) -> &'static str
    ensures { result.now ≡ lead_text any }
{
    if any { ", or " } else { ", and may be " }
}

/// Appends the line that showed a value, if the byte may still have it. `moment` is the number of beats before that
/// line's.
fn append_told<X: Places>(
    places: &X,
    moment: Option<u64>,
    out: &mut Vec<u8>,
) -> Result<(), AllocError>
    ensures { OnOk result (out.new.items ≡ out.old.items ++ told_text (X.names places.now) moment) }
{
    let Some(moment) = moment else {
        return Ok(());
    };
    out.extend_from_slice(b", set in line ")?;
    append_number(places.line_at(u128::from(moment) + 2), out)
}

/// Appends a value, and the line that showed it.
fn append_value<X: Places>(
    places: &X,
    value: u8,
    moment: Option<u64>,
    out: &mut Vec<u8>,
) -> Result<(), AllocError>
    ensures { OnOk result (out.new.items ≡ out.old.items ++ value_text (X.names places.now) value moment) }
{
    append_hex(u32::from(value), 2, out)?;
    append_told(places, moment, out)
}

/// Appends a value if the byte at a place may have it. Returns whether any value has been appended.
fn append_allowed<V: ByteValues, X: Places>(
    places: &X,
    values: &V,
    place: u8,
    value: u8,
    any: bool,
    out: &mut Vec<u8>,
) -> Result<bool, AllocError>
    requires { place < 64 }
    ensures { IfOk result (λ now. (n : ℕ) →
        out.new.items ++ values_text (X.names places.now)
        (V.test values.now (64 * V.block values.now + place))
        (V.told values.now (64 * V.block values.now + place)) now n (value + 1)
        ≡ out.old.items ++ values_text (X.names places.now)
        (V.test values.now (64 * V.block values.now + place))
        (V.told values.now (64 * V.block values.now + place)) any (suc n) value) }
{
    if !values.allows(place, value) {
        return Ok(any);
    }
    let moment = values.told(place, value);
    out.extend_from_slice(lead(any).as_bytes())?;
    append_value(places, value, moment, out)?;
    Ok(true)
}

#[tactic(auto, unfolding(tl_witness::specs::statement::Strays::values_text))]
/// Appends that no value is known, if `any` is false.
fn append_nothing(any: bool, out: &mut Vec<u8>) -> Result<(), AllocError>
    ensures { OnOk result ((names : Naming) (test : ℕ → Bool) (told : ℕ → Option ℕ) (v : ℕ) →
        out.new.items ≡ out.old.items ++ values_text names test told any 0 v) }
{
    if any {
        return Ok(());
    }
    out.extend_from_slice(b", and no value of it was seen")
}

/// Appends the values that the byte at a place may have.
pub fn append_values<V: ByteValues, X: Places>(
    places: &X,
    values: &V,
    place: u8,
    out: &mut Vec<u8>,
) -> Result<(), AllocError>
    requires { place < 64 }
    ensures { OnOk result (out.new.items ≡ out.old.items ++ values_text (X.names places.now)
        (V.test values.now (64 * V.block values.now + place))
        (V.told values.now (64 * V.block values.now + place)) false 256 0) }
{
    let mut any = false;
    for value in 0..VALUES {
        any = append_allowed(places, values, place, value as u8, any, out)?;
    }
    append_nothing(any, out)
}

#[tactic(auto, unfolding(tl_witness::specs::statement::Strays::stray_line))]
/// Appends the byte at a place of its block, and the values that it may have.
fn append_stray<V: ByteValues, X: Places>(
    places: &X,
    values: &V,
    place: u8,
    byte: u8,
    out: &mut Vec<u8>,
) -> Result<(), AllocError>
    requires { place < 64 }
    ensures { OnOk result (out.new.items ≡ out.old.items
        ++ stray_line (X.names places.now) (64 * V.block values.now + place) byte
        (V.test values.now (64 * V.block values.now + place))
        (V.told values.now (64 * V.block values.now + place))) }
{
    out.extend_from_slice(b"  byte ")?;
    places.append_place(values.address(place), out)?;
    out.extend_from_slice(b" is ")?;
    append_hex(u32::from(byte), 2, out)?;
    append_values(places, values, place, out)?;
    out.push(b'\n')?;
    Ok(())
}

/// Appends a line for the byte at a place of its block, after `count` others, if it is one of the first eight.
fn append_counted<V: ByteValues, X: Places>(
    places: &X,
    values: &V,
    place: u8,
    byte: u8,
    count: u8,
    out: &mut Vec<u8>,
) -> Result<(), AllocError>
    requires { place < 64 }
    ensures { OnOk result (out.new.items ≡ out.old.items
        ++ next_line (X.names places.now) count (64 * V.block values.now + place) byte
        (V.test values.now (64 * V.block values.now + place))
        (V.told values.now (64 * V.block values.now + place))) }
{
    if count >= TOLD {
        return Ok(());
    }
    append_stray(places, values, place, byte, out)
}

/// Appends a line for the byte at a place of its block, after `count` others, if it may not be this one. Returns the number of
/// such bytes.
fn tell_lane<V: ByteValues, X: Places>(
    places: &X,
    values: &V,
    place: u8,
    byte: u8,
    count: u8,
    out: &mut Vec<u8>,
) -> Result<u8, AllocError>
    requires place { place < 64 }
    requires count { count < 64 }
    ensures told { IfOk result (λ now. (rest : List ℕ) → out.new.items
        ++ strays_text (X.names places.now) (V.test values.now) (V.told values.now) now
        (64 * V.block values.now + place + 1) rest
        ≡ out.old.items ++ strays_text (X.names places.now) (V.test values.now) (V.told values.now) count
        (64 * V.block values.now + place) (byte ∷ rest)) }
    ensures few { IfOk result (λ now. now ≤ count + 1) }
{
    if values.allows(place, byte) {
        return Ok(count);
    }
    append_counted(places, values, place, byte, count, out)?;
    Ok(count + 1)
}

/// Appends the number of bytes after those that are listed.
pub fn append_more(count: u8, out: &mut Vec<u8>) -> Result<(), AllocError>
    ensures { OnOk result (out.new.items ≡ out.old.items ++ more_text count) }
{
    if count <= TOLD {
        return Ok(());
    }
    out.extend_from_slice(b"  and ")?;
    append_number(u128::from(count - TOLD), out)?;
    out.extend_from_slice(b" more\n")
}

/// Appends a line for each of these bytes, from a place of their block on, that may not be this one: for the first eight, and
/// then the number of the others.
pub fn tell_lanes<V: ByteValues, X: Places>(
    places: &X,
    values: &V,
    first: usize,
    lanes: &[u8],
    out: &mut Vec<u8>,
) -> Result<(), AllocError>
    requires { first + length lanes.now ≤ 64 }
    ensures { OnOk result (out.new.items ≡ out.old.items
        ++ strays_text (X.names places.now) (V.test values.now) (V.told values.now) 0
        (64 * V.block values.now + first) lanes.now) }
{
    let mut count = 0u8;
    for lane in 0..lanes.len() {
        count = tell_lane(
            places,
            values,
            (first + lane) as u8,
            lanes[lane],
            count,
            out,
        )?;
    }
    append_more(count, out)
}
