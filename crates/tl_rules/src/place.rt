//! The places of a message's bytes in a block and in a payload.

ghost use Rattle.std.specs.Prelude.{◌≡◌, ◌<◌, ◌≤◌, ◌+◌, ◌*◌, ◌%◌, ◌^◌, ◌++◌, ℕ, IsTrue};
ghost use Rattle.std.specs.Prelude.{length, take, drop, slice_index, ◌&&◌, nat_le, nat_lt};
ghost use Rattle.std.specs.Int.{to_le_bytes, w64};
ghost use Rattle.tl_beat.specs.statement.Width.{IsWidth};
ghost use Rattle.tl_burst.specs.statement.Burst.{bit};
ghost use Rattle.tl_rules.specs.statement.Effect.{as_payload, number_from};
ghost use Rattle.tl_rules.specs.code.Place.{base_of, moved_up};

/// The place of a request's bytes in its block and in its payload, and their number.
#[derive(Clone, Copy)]
pub struct Span {
    pub in_block: usize,
    pub in_payload: usize,
    pub count: usize,
    pub ghost some: { 0 < count },
    pub ghost within_block: { in_block + count ≤ 64 },
    pub ghost within_payload: { in_payload + count ≤ 64 },
}

impl Span {
    ghost use Rattle.tl_rules.specs.statement.Legality.{is_aligned};

    /// The place of the `2^size` bytes from an address on.
    pub fn new<const W: usize>(address: u32, size: u8) -> Self
        requires width { IsWidth W }
        requires small { size ≤ 6 }
        requires aligned { IsTrue (is_aligned address size) }
        ensures block { result.in_block ≡ address % 64 }
        ensures payload { result.in_payload ≡ address % W }
        ensures count { result.count ≡ 2 ^ size }
        ensures few { size ≤ 3 → result.count ≤ 8 }
    {
        Self {
            in_block: (address % 64) as usize,
            in_payload: address as usize % W,
            count: 1 << size,
        }
    }
}

/// The place, in its block, of payload byte 0 of a message at this address.
pub fn base<const W: usize>(address: u32) -> usize
    requires { IsWidth W }
    ensures value { result ≡ base_of W address }
    ensures inside { result + W ≤ 64 }
{
    (address % 64) as usize / W * W
}

/// Writes bytes from a place on.
fn write_at(bytes: &mut [u8; 64], at: usize, new: &[u8])
    requires { at + length new.now ≤ 64 }
    ensures { bytes.new ≡ take at bytes.old ++ new.now ++ drop (at + length new.now) bytes.old }
{
    bytes[at..at + new.len()].copy_from_slice(new);
}

/// The bytes moved up by this many places, with zeros below them.
pub fn move_up(bytes: &[u8; 64], by: usize) -> [u8; 64]
    requires { by ≤ 64 }
    ensures value { result ≡ moved_up by bytes.now }
    ensures len { length result ≡ 64 }
    ensures fits { (i : ℕ) → slice_index result i < 256 }
    ensures long { length bytes.now ≡ 64 }
{
    let mut moved = [0; 64];
    write_at(&mut moved, by, &bytes[..64 - by]);
    moved
}

/// The bytes of a request in its block, as a payload.
pub fn payload_at(block: &[u8; 64], span: Span) -> [u8; 64]
    ensures { result ≡ as_payload span.in_payload (take span.count (drop span.in_block block.now)) }
{
    let mut payload = [0; 64];
    let bytes = &block[span.in_block..span.in_block + span.count];
    write_at(&mut payload, span.in_payload, bytes);
    payload
}

/// Replaces the first of eight bytes.
fn write_low(eight: &mut [u8; 8], low: &[u8])
    requires { length low.now ≤ 8 }
    ensures { eight.new ≡ low.now ++ drop (length low.now) eight.old }
{
    eight[..low.len()].copy_from_slice(low);
}

/// The number that `count` bytes from a place on spell, the lowest first.
pub fn number_at(bytes: &[u8; 64], at: usize, count: usize) -> u64
    requires count { count ≤ 8 }
    requires inside { at + count ≤ 64 }
    ensures value { result ≡ number_from (λ i. slice_index bytes.now i) at count }
    ensures below { result < 2 ^ (8 * count) }
{
    let mut eight = [0; 8];
    write_low(&mut eight, &bytes[at..at + count]);
    u64::from_le_bytes(eight)
}

/// Writes the lowest `count` bytes of a number from a place on.
pub fn write_number(bytes: &mut [u8; 64], at: usize, count: usize, number: u64)
    requires count { count ≤ 8 }
    requires inside { at + count ≤ 64 }
    ensures { bytes.new ≡ take at bytes.old ++ take count (to_le_bytes w64 number) ++ drop (at + count) bytes.old }
{
    write_at(bytes, at, &number.to_le_bytes()[..count]);
}
