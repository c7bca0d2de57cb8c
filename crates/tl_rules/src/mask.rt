//! Masks: which lanes of a beat carry a byte of its message (SiFive TileLink Specification 1.8,
//! "Serialization" on byte lanes). Addresses count bytes.

ghost use Rattle.std.specs.Prelude.{◌≡◌, ◌<◌, ◌≤◌, ◌^◌, ℕ, IsTrue};
ghost use Rattle.std.specs.Bool.{OnTrue};
ghost use Rattle.tl_beat.specs.statement.Width.{IsWidth};
ghost use Rattle.tl_burst.specs.statement.Burst.{bit};
ghost use Rattle.tl_rules.specs.statement.Legality.{is_aligned, is_lane, is_full_mask, is_part_mask};

/// The lanes that carry a byte of a message of this size and address, as the bits of a mask.
fn lanes<const W: usize>(size: u8, address: u32) -> u16
    requires width { IsWidth W }
    requires small { size ≤ 6 }
    ensures { (lane : ℕ) → lane < 16 → bit result lane ≡ is_lane W size address lane }
{
    let bytes = 1usize << size;
    let (first, count) = if bytes >= W {
        (0, W)
    } else {
        (address as usize % W, bytes)
    };
    (u16::MAX >> (16 - count)) << first
}

/// Whether the mask has all of these lanes and no others.
pub fn is_full<const W: usize>(size: u8, address: u32, mask: u16) -> bool
    requires width { IsWidth W }
    requires small { size ≤ 6 }
    ensures value { result ≡ is_full_mask W size address mask }
    ensures narrow { IsTrue (is_aligned address size) → OnTrue result (mask < 2 ^ W) }
{
    mask == lanes::<W>(size, address)
}

/// Whether the mask has only lanes that carry a byte of the message.
pub fn is_part<const W: usize>(size: u8, address: u32, mask: u16) -> bool
    requires width { IsWidth W }
    requires small { size ≤ 6 }
    ensures value { result ≡ is_part_mask W size address mask }
    ensures narrow { IsTrue (is_aligned address size) → OnTrue result (mask < 2 ^ W) }
{
    mask & !lanes::<W>(size, address) == 0
}
