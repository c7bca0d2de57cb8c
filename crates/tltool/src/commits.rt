//! Explains the verdict on a trace with stores and loads.

ghost use Rattle.std.specs.Prelude.{◌≡◌};
ghost use Rattle.tltool.specs.Ended.{EndsExplainedCommits};

use crate::told_explained;
use std::io::{Read, Write};
use tl_commit_lines::header::read_marked;
use tl_commit_story::explain::explain_events;
use tl_params::liberties::Liberties;

/// Whether a first line is the header of a trace with stores and loads.
pub(crate) fn is_commits(line: &[u8]) -> bool {
    read_marked(line).is_some()
}

/// Explains the file of this name, a trace with stores and loads, of which these are two readers. These liberties are
/// allowed beyond those that its header names. Returns the exit status.
pub(crate) fn explain_commits_over<R: Read, S: Read, W: Write>(
    rt: &HostRuntime,
    coherent: bool,
    allow: Liberties,
    name: &str,
    first: &mut R,
    second: &mut S,
    output: &mut W,
) -> u8
    ensures { EndsExplainedCommits coherent allow (R.remaining first.old) (R.remaining first.new)
        (S.remaining second.old) (S.remaining second.new) (W.contents output.old) (W.contents output.new) result }
{
    let outcome = explain_events(rt.alloc(), coherent, allow, first, second, output);
    told_explained(rt, name, outcome)
}
