//! Pieces of an explanation.

ghost use Rattle.std.specs.Prelude.{◌≡◌, ◌++◌, OnOk};
ghost use Rattle.tl_times.specs.code.Timing.{IsNoted, said};

use std::alloc::AllocError;

/// A piece of an explanation, the digits of the number of the line that it cites at its end, and the time of that line.
#[derive(Drop)]
pub struct Piece<'a> {
    pub text: &'a [u8],
    /// Empty if the piece cites no line.
    pub line: &'a [u8],
    /// Empty if the time isn't known.
    pub time: Vec<u8>,
}

impl Piece<'_> {
    /// Notes the time of the line of this number, if the piece cites it.
    pub(crate) fn note(&mut self, number: &[u8], time: &[u8]) -> Result<(), AllocError>
        ensures { OnOk result (IsNoted number.now time.now self.old self.new) }
    {
        if self.line == number {
            self.time.extend_from_slice(time)?;
        }
        Ok(())
    }

    /// Appends the piece, with the time of its line if that is known.
    pub(crate) fn append(&self, out: &mut Vec<u8>) -> Result<(), AllocError>
        ensures { OnOk result (out.new.items ≡ out.old.items ++ said self.now) }
    {
        out.extend_from_slice(self.text)?;
        if self.time.is_empty() {
            return Ok(());
        }
        out.extend_from_slice(b" (time ")?;
        out.extend_from_slice(self.time.as_slice())?;
        out.push(b')')?;
        Ok(())
    }
}
