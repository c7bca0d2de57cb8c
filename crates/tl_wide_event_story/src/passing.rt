//! A wide beat that a second reading passes.

ghost use Rattle.tl_wide.specs.statement.Width.{IsWideWidth};

use std::alloc::AllocError;
use tl_beat::beat::Link;
use tl_explain::told::Spelling;
use tl_wide::beat::WideBeat;
use tl_wide_story::citation::append_cited;

/// A wide beat of a link.
#[derive(Clone, Copy)]
pub struct Passing<'a, const W: usize> {
    pub link: Link,
    pub beat: &'a WideBeat<W>,
    /// The citation of its line.
    pub cited: &'a [u8],
}

/// The outcome for a part of the wide beat at fault.
#[derive(Clone, Copy, PartialEq, Eq)]
pub enum Met {
    /// It is at fault, and its grounds are appended.
    AtFault,
    /// It isn't, and was taken.
    Taken,
    /// It can't be one of the trace that was read before.
    Strange,
}

/// Appends the words of a wide beat, after the number of its line.
pub fn append_passing<const W: usize>(
    passing: Passing<'_, W>,
    out: &mut Vec<u8>,
) -> Result<(), AllocError>
    requires { IsWideWidth W }
{
    append_cited::<W>(&Spelling::of(passing.cited), out).map_err(|_| AllocError)
}
