//! Words of sixteen bits, one for each client or link.

ghost use Rattle.std.specs.Prelude.{◌≡◌, ◌≢◌, ◌≤◌, ◌<◌, ℕ, false};
ghost use Rattle.std.specs.Int.{bit_at};
ghost use Rattle.tl_manager.specs.code.Bit.{bit_if};

/// A word with a bit set or cleared.
pub fn with_bit(word: u16, place: u8, is_set: bool) -> u16
    requires { place < 16 }
    ensures here { bit_at result place ≡ bit_if is_set }
    ensures others { (k : ℕ) → k ≢ place → bit_at result k ≡ bit_at word k }
    ensures fewer { is_set ≡ false → result ≤ word }
{
    let bit = 1u16 << place;
    if is_set { word | bit } else { word & !bit }
}
