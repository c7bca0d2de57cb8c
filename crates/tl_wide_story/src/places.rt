//! How the grounds for a breach of a rule of memory name the lines and the addresses of a wide trace.

ghost use Rattle.std.specs.Prelude.{◌≡◌, ◌++◌, OnOk};

use crate::numbering::Numbering;
use std::alloc::AllocError;
use tl_witness::places::Places;
use tl_witness::text::append_hex;

/// Names lines as a numbering has them, and addresses in the block of one that was written.
#[derive(Drop)]
pub struct WidePlaces<'a> {
    pub numbering: &'a Numbering,
    /// An address in the block of the verdict.
    pub address: u64,
}

impl Places for WidePlaces<'_> {
    ghost use Rattle.tl_wide_story.specs.statement.WideNaming.{names_of};

    ghost names = { λ p. names_of p.numbering.now.later.items p.address };

    fn line_at(&self, recorded: u128) -> u128 {
        self.numbering.line_of(recorded)
    }

    fn append_place(&self, address: u32, out: &mut Vec<u8>) -> Result<(), AllocError> {
        let high = (self.address / 4_294_967_296) as u32;
        let low = (self.address % 4_294_967_296) as u32;
        append_hex(high, 8, out)?;
        append_hex(low / 64 * 64 + address % 64, 8, out)
    }
}
