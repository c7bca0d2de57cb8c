//! The values that the bytes of a block may have, each with the line that set it.

ghost use Rattle.std.specs.Prelude.{ℕ, Bool, Option, ◌+◌, ◌*◌, ◌<◌, ◌≡◌};

/// The values that the bytes of a block may have, each with the line that set it.
pub trait ByteValues {
    /// The block.
    ghost block: { Self → ℕ };

    /// Whether the byte at an address may have a value.
    ghost test: { Self → ℕ → ℕ → Bool };

    /// The number of lines between the header and the one that set this value of the byte at an address, if one did.
    ghost told: { Self → ℕ → ℕ → Option ℕ };

    /// The address of a place of the block.
    fn address(&self, place: u8) -> u32
        requires { place < 64 }
        ensures { result ≡ 64 * block self.now + place };

    /// Whether the byte at a place may have this value.
    fn allows(&self, place: u8, value: u8) -> bool
        requires { place < 64 }
        ensures { result ≡ test self.now (64 * block self.now + place) value };

    /// The number of lines between the header and the one that set this value of the byte at a place, if one did.
    fn told(&self, place: u8, value: u8) -> Option<u64>
        requires { place < 64 }
        ensures { result ≡ told self.now (64 * block self.now + place) value };
}
