//! Reads the header of a wide trace with commits.

ghost use Rattle.std.specs.Prelude.{IfSome};
ghost use Rattle.tl_params.specs.declared.liberties.Liberties.{Liberties};
ghost use Rattle.tl_wide.specs.declared.width.WideWidth.{WideWidth};
ghost use Rattle.tl_commit_lines.specs.statement.MarkedHeader.{MarkedLinks, links_in};
ghost use Rattle.tl_wide_event_lines.specs.code.EventWatching.{ReadsWideMarked};
ghost use Rattle.tl_wide_event_lines.specs.statement.WideMarkedHeader.{IsWideMarked, SpellsWideMarked};

use tl_commit_lines::header::{CommitHeader, read_marked_links};
use tl_params::liberties::Liberties;
use tl_wide::width::WideWidth;
use tl_wide_lines::header::{front, part_of};

/// The header of a wide trace with commits: the width of a beat, and the header of the narrow trace that the wide one
/// becomes.
#[derive(Drop)]
pub struct WideCommitHeader {
    pub width: WideWidth,
    pub narrow: CommitHeader,
}

/// Reads the first line of a wide trace with commits, with its LF: `tltrace 5 W LIBERTIES LEVELS..` with the word
/// `zero` before the levels, or at least one level `C+`. A line of another form is no such header.
pub fn read_wide_marked(line: &[u8]) -> Option<WideCommitHeader>
    // The line spells the header that is read, and each header that a line spells is read.
    ensures spelled { IfSome result (λ header. SpellsWideMarked line.now header.width header.narrow.may
        (links_in header.narrow)) }
    ensures every_spelling { (width : WideWidth) (may : Liberties) (links : MarkedLinks) →
        SpellsWideMarked line.now width may links → IsWideMarked result width may links }
{
    let (width, rest) = front(line)?;
    let (may, zero, links) = read_marked_links(rest)?;
    Some(WideCommitHeader {
        width,
        narrow: CommitHeader {
            width: part_of(width),
            may,
            zero,
            links,
        },
    })
}

/// Reads the header of a wide trace with commits. Its links have the liberties that it names and those of `allow`.
pub fn read_wide_marked_for(allow: Liberties, line: &[u8]) -> Option<WideCommitHeader>
    ensures { ReadsWideMarked allow line.now result }
{
    let Some(header) = read_wide_marked(line) else {
        return None;
    };
    let may = header.narrow.may.union(allow);
    Some(WideCommitHeader {
        width: header.width,
        narrow: CommitHeader {
            may,
            ..header.narrow
        },
    })
}
