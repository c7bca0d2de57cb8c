//! How commits are counted by a recorder, which numbers beats.

ghost use Rattle.std.specs.Prelude.{◌≡◌};
ghost use Rattle.tl_commit_story.specs.statement.Numbered;

use tl_beat::beat::{Beat, BeatE, Link};

/// A link that no header names.
pub fn no_link() -> Link
    ensures { result ≡ Numbered.no_link }
{
    Link(255)
}

/// A beat that is counted for a commit.
pub fn no_beat<const W: usize>() -> Beat<W>
    ensures { result ≡ Numbered.no_beat W }
{
    Beat::E(BeatE { sink: 0 })
}
