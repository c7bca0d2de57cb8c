//! A masked merge of the bytes of a block, by lanes.

ghost use Rattle.std.specs.Prelude.{◌≡◌, ◌≤◌, ◌+◌, ◌++◌, take, drop};
ghost use Rattle.tl_rules.specs.code.Merge.{merged};

use std::simd::u8x8;

const BITS: [u8; 8] = [1, 2, 4, 8, 16, 32, 64, 128];

/// Replaces each of eight bytes whose bit of the mask is set.
fn merge_eight(old: &mut [u8; 8], new: &[u8; 8], mask: u8)
    ensures { old.new ≡ merged mask 0 old.old new.now }
{
    let bits = u8x8::splat(mask) & u8x8::from_array(BITS);
    let chosen = bits.simd_ne(u8x8::splat(0));
    let lanes = chosen.select(u8x8::from_array(*new), u8x8::from_array(*old));
    *old = lanes.to_array();
}

/// The eight bytes from this place on.
fn eight_at(bytes: &[u8; 64], at: usize) -> [u8; 8]
    requires { at + 8 ≤ 64 }
    ensures { result ≡ take 8 (drop at bytes.now) }
{
    let mut eight = [0u8; 8];
    eight.copy_from_slice(&bytes[at..at + 8]);
    eight
}

fn write_eight(bytes: &mut [u8; 64], at: usize, eight: &[u8; 8])
    requires { at + 8 ≤ 64 }
    ensures { bytes.new ≡ take at bytes.old ++ eight.now ++ drop (at + 8) bytes.old }
{
    bytes[at..at + 8].copy_from_slice(eight);
}

/// Replaces byte `i` of `old` by that of `new` if bit `i` of the mask is set, for each `i`.
pub fn merge_masked(old: &mut [u8; 64], new: &[u8; 64], mask: u64)
    ensures { old.new ≡ merged mask 0 old.old new.now }
{
    for i in 0..8usize {
        let at = 8 * i;
        let mut eight = eight_at(old, at);
        let other = eight_at(new, at);
        merge_eight(&mut eight, &other, ((mask >> at) % 256) as u8);
        write_eight(old, at, &eight);
    }
}
