//! Explains the verdict on a wide trace with stores and loads.

ghost use Rattle.std.specs.Prelude.{◌≡◌};
ghost use Rattle.tltool.specs.Ended.{EndsExplainedWideEvents};

use crate::told_explained;
use std::io::{Read, Write};
use tl_params::liberties::Liberties;
use tl_wide_event_lines::header::read_wide_marked;
use tl_wide_event_story::explain::explain_wide_events;

/// Whether a first line is the header of a wide trace with stores and loads.
pub(crate) fn is_wide_commits(line: &[u8]) -> bool {
    read_wide_marked(line).is_some()
}

/// Explains the file of this name, a wide trace with stores and loads, of which these are two readers. These liberties are
/// allowed beyond those that its header names. Returns the exit status.
pub(crate) fn explain_wide_events_over<R: Read, S: Read, W: Write>(
    rt: &HostRuntime,
    coherent: bool,
    allow: Liberties,
    name: &str,
    first: &mut R,
    second: &mut S,
    output: &mut W,
) -> u8
    ensures { EndsExplainedWideEvents coherent allow (R.remaining first.old) (R.remaining first.new)
        (S.remaining second.old) (S.remaining second.new) (W.contents output.old) (W.contents output.new) result }
{
    let outcome = explain_wide_events(rt.alloc(), coherent, allow, first, second, output);
    told_explained(rt, name, outcome)
}
