//! How an explanation names lines and addresses.

ghost use Rattle.std.specs.Prelude.{ℕ, List, ◌≡◌, ◌++◌, OnOk};
ghost use Rattle.tl_witness.specs.statement.Naming.{Naming};

use crate::text::append_hex;
use std::alloc::AllocError;
use tl_explain::wording::AsRecorded;

/// Names lines and addresses as the trace has them.
pub trait Places {
    /// The numbers of the lines, and the words of the addresses.
    ghost names: { Self → Naming };

    /// The number of the line from which a recorded line came.
    fn line_at(&self, recorded: u128) -> u128
        ensures { result ≡ (names self.now).line recorded };

    /// Appends an address.
    fn append_place(&self, address: u32, out: &mut Vec<u8>) -> Result<(), AllocError>
        ensures { OnOk result (out.new.items ≡ out.old.items ++ (names self.now).address address) };
}

impl Places for AsRecorded {
    ghost use Rattle.tl_witness.specs.statement.Naming.{as_recorded};

    ghost names = { λ _. as_recorded };

    fn line_at(&self, recorded: u128) -> u128 {
        recorded
    }

    fn append_place(&self, address: u32, out: &mut Vec<u8>) -> Result<(), AllocError> {
        append_hex(address, 8, out)
    }
}
