//! Atomic operations on the bytes of a block.

ghost use Rattle.std.specs.Prelude.{◌≡◌, ◌<◌, ◌≤◌, ◌*◌, ◌%◌, ◌^◌, ℕ, int_lt, length, slice_index};
ghost use Rattle.std.specs.Simd.Lanes.{zip2};
ghost use Rattle.tl_rules.specs.statement.Effect.{arithmetic_result, logical_result, signed};

use std::simd::Simd;
use tl_params::param::{Arithmetic, Logical};

/// Whether one number of `count` bytes is less than another, both with sign.
fn less_with_sign(count: usize, left: u64, right: u64) -> bool
    requires some { 0 < count }
    requires count { count ≤ 8 }
    requires left { left < 2 ^ (8 * count) }
    requires right { right < 2 ^ (8 * count) }
    ensures { result ≡ int_lt (signed (8 * count) left) (signed (8 * count) right) }
{
    let half = 1u64 << (8 * count - 1);
    match (left < half, right < half) {
        (true, false) => false,
        (false, true) => true,
        _ => left < right,
    }
}

/// The result of an ArithmeticData operation on two numbers of `count` bytes, in its lowest `count` bytes.
pub fn arithmetic(operation: Arithmetic, count: usize, old: u64, operand: u64) -> u64
    requires some { 0 < count }
    requires count { count ≤ 8 }
    requires old { old < 2 ^ (8 * count) }
    requires operand { operand < 2 ^ (8 * count) }
    ensures { result % 2 ^ (8 * count) ≡ arithmetic_result operation (8 * count) old operand }
{
    match operation {
        Arithmetic::Min => {
            if less_with_sign(count, operand, old) {
                operand
            } else {
                old
            }
        }
        Arithmetic::Max => {
            if less_with_sign(count, old, operand) {
                operand
            } else {
                old
            }
        }
        Arithmetic::MinU => old.min(operand),
        Arithmetic::MaxU => old.max(operand),
        Arithmetic::Add => old.wrapping_add(operand),
    }
}

/// Performs an operation of LogicalData on N bytes.
fn logical_lanes<const N: usize>(operation: Logical, bytes: &mut [u8], operand: &[u8])
    requires count { length bytes.old ≡ N }
    requires same { length operand.now ≡ N }
    ensures { bytes.new ≡ zip2 (logical_result operation) bytes.old operand.now }
{
    let old = Simd::<u8, N>::from_slice(bytes);
    let lanes = Simd::<u8, N>::from_slice(operand);
    let new = match operation {
        Logical::Xor => old ^ lanes,
        Logical::Or => old | lanes,
        Logical::And => old & lanes,
        Logical::Swap => lanes,
    };
    new.copy_to_slice(bytes);
}

/// Performs an operation of LogicalData on `2^size` bytes.
pub fn logical(operation: Logical, size: u8, bytes: &mut [u8], operand: &[u8])
    requires small { size ≤ 3 }
    requires count { length bytes.old ≡ 2 ^ size }
    requires same { length operand.now ≡ 2 ^ size }
    ensures value { bytes.new ≡ zip2 (logical_result operation) bytes.old operand.now }
    ensures old_fits { (i : ℕ) → slice_index bytes.old i < 256 }
    ensures operand_fits { (i : ℕ) → slice_index operand.now i < 256 }
{
    match size {
        0 => logical_lanes::<1>(operation, bytes, operand),
        1 => logical_lanes::<2>(operation, bytes, operand),
        2 => logical_lanes::<4>(operation, bytes, operand),
        _ => logical_lanes::<8>(operation, bytes, operand),
    }
}
