//! Lanes from digits and digits from lanes, sixteen digits at a time.

ghost use Rattle.std.specs.Prelude.{◌≡◌, ◌+◌, ◌++◌, ℕ, List, length, map, IfSome, Ok};
ghost use Rattle.std.specs.Bool.{OnTrue};
ghost use Rattle.std.specs.List.{AllPass};
ghost use Rattle.tl_beat.specs.code.Form.{each_beyond, front_numbers, lane_value, Follow};
ghost use Rattle.tl_beat.specs.code.FromLeft.{digits_at, lanes_at, value_or_16};
ghost use Rattle.tl_beat.specs.statement.Digits.{is_digit, lane_digits};

use std::simd::prelude::*;

/// The value of each byte as a digit, or 16 if it isn't one.
#[inline(always)]
fn values<const N: usize>(bytes: Simd<u8, N>) -> Simd<u8, N>
    ensures { result ≡ map value_or_16 bytes.entry }
{
    let numbers = bytes - Simd::splat(b'0');
    let letters = bytes - Simd::splat(b'a');
    let others = letters
        .simd_lt(Simd::splat(6))
        .select(letters + Simd::splat(10), Simd::splat(16));
    numbers.simd_lt(Simd::splat(10)).select(numbers, others)
}

/// The distance of each byte from those that the form allows at its place: at `#` the `more` + 1 digits from `first`
/// on, at `?` 0 and 1, at a dot any byte, and otherwise the form's byte.
#[inline(always)]
fn beyond<const N: usize>(bytes: Simd<u8, N>, form: Simd<u8, N>, first: u8, more: u8) -> Simd<u8, N>
    ensures { result ≡ each_beyond first more form.entry bytes.entry }
{
    let digit = form.simd_eq(Simd::splat(b'#'));
    let bit = form.simd_eq(Simd::splat(b'?'));
    let any = form.simd_eq(Simd::splat(b'.'));
    let others = bit.select(Simd::splat(b'0'), form);
    let more_others = bit.select(Simd::splat(1), any.select(Simd::splat(255), Simd::splat(0)));
    let low = digit.select(Simd::splat(first), others);
    (bytes - low).saturating_sub(digit.select(Simd::splat(more), more_others))
}

/// Whether the form allows each byte at its place: at `#` a digit, at `?` 0 or 1, at a dot any byte, and otherwise the
/// form's byte. If the form is a constant, this compiles to two ranges of bytes for each place.
#[inline(always)]
pub(crate) fn follow(bytes: u8x16, form: u8x16) -> bool
    ensures { OnTrue result (Follow form bytes) }
{
    let numbers = beyond(bytes, form, b'0', 9);
    let letters = beyond(bytes, form, b'a', 5);
    numbers.simd_min(letters).simd_eq(u8x16::splat(0)).all()
}

/// The value of each digit. For another byte it has no meaning.
#[inline(always)]
fn digit_values<const N: usize>(digits: Simd<u8, N>) -> Simd<u8, N>
    ensures { result ≡ map lane_value digits.entry }
{
    let letters = digits
        .simd_gt(Simd::splat(b'9'))
        .select(Simd::splat(39), Simd::splat(0));
    digits - Simd::splat(b'0') - letters
}

/// The numbers of the first fields of a line, which are its link, opcode, param, size and source, and of the two digits
/// after them.
#[inline(always)]
pub(crate) fn front_numbers(front: u8x16) -> [u8; 8]
    ensures { result ≡ front_numbers front }
{
    let values = digit_values(front);
    let none = u8x16::splat(0);
    let high: u8x8 = values.shuffle(none, [0, 16, 16, 16, 11, 14, 16, 16]);
    let low: u8x8 = values.shuffle(none, [1, 5, 7, 9, 12, 15, 16, 16]);
    (high * u8x8::splat(16) + low).to_array()
}

/// The number that eight digits spell.
#[inline(always)]
pub(crate) fn number_of_digits(digits: u8x8) -> u32
    ensures { AllPass is_digit digits → (rest : List ℕ) → digits_at 0 8 (digits ++ rest) ≡ Ok (result, rest) }
{
    let values = digit_values(digits);
    let high = values.swizzle([0, 2, 4, 6]);
    let low = values.swizzle([1, 3, 5, 7]);
    let bytes = high * u8x4::splat(16) + low;
    u32::from_be_bytes(bytes.to_array())
}

/// The eight lanes that sixteen digits spell, the last lane first.
#[inline(always)]
pub(crate) fn lanes_of_digits(digits: u8x16) -> [u8; 8]
    ensures { AllPass is_digit digits → (before rest : List ℕ) (n : ℕ) →
        lanes_at before (8 + n) (digits ++ rest) ≡ lanes_at (result ++ before) n rest }
{
    let values = digit_values(digits);
    let high = values.swizzle([0, 2, 4, 6, 8, 10, 12, 14]);
    let low = values.swizzle([1, 3, 5, 7, 9, 11, 13, 15]);
    let lanes = high * u8x8::splat(16) + low;
    lanes.reverse().to_array()
}

/// The number that eight digits spell.
#[inline(always)]
pub fn eight_digit_number(field: &[u8; 8]) -> Option<u32>
    ensures { IfSome result (λ number. (rest : List ℕ) → digits_at 0 8 (field.now ++ rest) ≡ Ok (number, rest)) }
{
    let digits = u8x8::from_array(*field);
    if !values(digits).simd_lt(u8x8::splat(16)).all() {
        return None;
    }
    Some(number_of_digits(digits))
}

/// The eight lanes that sixteen digits spell, the last lane first.
#[inline(always)]
pub(crate) fn eight_lanes(field: &[u8]) -> Option<[u8; 8]>
    ensures { IfSome result (λ lanes. (before rest : List ℕ) (n : ℕ) → lanes_at before (8 + n) (field.now ++ rest)
        ≡ lanes_at (lanes ++ before) n rest) }
{
    let field = field.as_array::<16>()?;
    let digits = u8x16::from_array(*field);
    if !follow(digits, u8x16::splat(b'#')) {
        return None;
    }
    Some(lanes_of_digits(digits))
}

/// The sixteen digits of eight lanes, from the last lane on.
#[inline(always)]
pub fn sixteen_digits(lanes: &[u8]) -> [u8; 16]
    requires { length lanes.now ≡ 8 }
    ensures { result ≡ lane_digits lanes.now }
{
    let lanes = u8x8::from_array([
        lanes[0], lanes[1], lanes[2], lanes[3], lanes[4], lanes[5], lanes[6], lanes[7],
    ]);
    let high = lanes >> 4;
    let low = (lanes << 4) >> 4;
    let values: u8x16 = high.shuffle(low, [7, 15, 6, 14, 5, 13, 4, 12, 3, 11, 2, 10, 1, 9, 0, 8]);
    let numbers = values + u8x16::splat(b'0');
    let letters = values + u8x16::splat(87);
    values
        .simd_lt(u8x16::splat(10))
        .select(numbers, letters)
        .to_array()
}
