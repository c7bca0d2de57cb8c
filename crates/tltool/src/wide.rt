//! Explains the verdict on a trace of wide beats.

ghost use Rattle.std.specs.Prelude.{◌≡◌};
ghost use Rattle.tltool.specs.Ended.{EndsExplainedWide};

use crate::told_explained;
use std::io::{Read, Write};
use tl_params::liberties::Liberties;
use tl_wide_lines::header::read_wide;
use tl_wide_story::explain::explain_wide;

/// Whether a first line is a header of wide beats.
pub(crate) fn is_wide(line: &[u8]) -> bool {
    read_wide(line).is_some()
}

/// Explains the file of this name, a trace of wide beats, of which these are two readers. These liberties are allowed
/// beyond those that its header names. Returns the exit status.
pub(crate) fn explain_wide_over<R: Read, S: Read, W: Write>(
    rt: &HostRuntime,
    coherent: bool,
    allow: Liberties,
    name: &str,
    first: &mut R,
    second: &mut S,
    output: &mut W,
) -> u8
    ensures { EndsExplainedWide coherent allow (R.remaining first.old) (R.remaining first.new) (S.remaining second.old)
        (S.remaining second.new) (W.contents output.old) (W.contents output.new) result }
{
    let outcome = explain_wide(rt.alloc(), coherent, allow, first, second, output);
    told_explained(rt, name, outcome)
}
