//! The count of a situation, and its first line.

ghost use Rattle.std.specs.Prelude.{◌≡◌, ◌+◌, IfOk, OnOk};
ghost use Rattle.tl_cover.specs.code.Covering.{noted_if, unseen};

use crate::situation::Situation;
use std::alloc::AllocError;

/// The count of a situation, and the line in which it first came, if it came.
#[derive(Clone, Copy, Debug, PartialEq, Eq)]
pub struct Row {
    pub situation: Situation,
    pub count: u64,
    pub first: Option<u64>,
}

/// A bin on a link: its row, and whether the link can have it by its level and its liberties. A bin that came is always
/// possible.
#[derive(Clone, Copy, Debug, PartialEq, Eq)]
pub struct LinkBin {
    pub row: Row,
    pub possible: bool,
}

/// One more. An error above 2^64 - 1.
pub fn one_more(number: u64) -> Result<u64, AllocError>
    ensures { IfOk result (λ more. more ≡ number + 1) }
{
    number.checked_add(1).ok_or(AllocError)
}

impl Row {
    /// The row of a situation that never came.
    pub fn new(situation: Situation) -> Self
        ensures { result ≡ unseen situation }
    {
        Row {
            situation,
            count: 0,
            first: None,
        }
    }

    /// Notes that the situation came in a line, if it did.
    pub fn note(&mut self, came: bool, line: u64) -> Result<(), AllocError>
        ensures { OnOk result (self.new ≡ noted_if came line self.old) }
    {
        if !came {
            return Ok(());
        }
        self.count = one_more(self.count)?;
        if self.first.is_none() {
            self.first = Some(line);
        }
        Ok(())
    }
}
