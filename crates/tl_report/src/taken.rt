//! The beats and commits that a search takes, counted by link and message.

ghost use Rattle.std.specs.Prelude.{◌≡◌, ◌<◌, ◌≤◌};
ghost use Rattle.tl_report.specs.statement.Taken.{cell_for, cell_of, message_of, most_cells, wide_cell_of};
ghost use Rattle.tl_report.specs.statement.Taken.{commit_message_of, event_cell_of, event_message_of, wide_message_of};
ghost use Rattle.tl_report.specs.statement.Taken.{wide_event_cell_of, wide_event_message_of};
ghost use Rattle.tl_wide_events.specs.statement.Narrowed.{commit_at};

use tl_beat::beat::{Beat, Link};
use tl_events::commit::{Commit, Event};
use tl_wide::beat::WideBeat;
use tl_wide_events::commit::{WideCommit, WideEvent};

/// The number of cells: 36 for each of 256 links.
pub const CELLS: usize = 9216;

/// The number of a beat's message: eight for each channel from A to D, by the opcode, and one for GrantAck.
#[tactic(auto, using(crate::proofs::Counted::below_a, crate::proofs::Counted::below_b, crate::proofs::Counted::below_c, crate::proofs::Counted::below_d))]
fn message_of<const W: usize>(beat: &Beat<W>) -> u8
    ensures number { result ≡ message_of beat.now }
    ensures below { result ≤ 32 }
{
    match beat {
        Beat::A(x) => x.opcode.code(),
        Beat::B(x) => 8 + x.opcode.code(),
        Beat::C(x) => 16 + x.opcode.code(),
        Beat::D(x) => 24 + x.opcode.code(),
        Beat::E(_) => 32,
    }
}

/// The same for a wide beat.
#[tactic(auto, using(crate::proofs::Counted::below_a, crate::proofs::Counted::below_b, crate::proofs::Counted::below_c, crate::proofs::Counted::below_d))]
fn wide_message_of<const W: usize>(beat: &WideBeat<W>) -> u8
    ensures number { result ≡ wide_message_of beat.now }
    ensures below { result ≤ 32 }
{
    match beat {
        WideBeat::A(x) => x.opcode.code(),
        WideBeat::B(x) => 8 + x.opcode.code(),
        WideBeat::C(x) => 16 + x.opcode.code(),
        WideBeat::D(x) => 24 + x.opcode.code(),
        WideBeat::E(_) => 32,
    }
}

/// The same for a commit: stores, loads, and beginnings of loads, after the messages.
fn commit_message_of(commit: &Commit) -> u8
    ensures number { result ≡ commit_message_of commit.now }
    ensures below { result ≤ 35 }
{
    match commit {
        Commit::Store { .. } => 33,
        Commit::Load { .. } => 34,
        Commit::Begin { .. } => 35,
    }
}

/// The same for an event.
fn event_message_of<const W: usize>(event: &Event<W>) -> u8
    ensures number { result ≡ event_message_of event.now }
    ensures below { result ≤ 35 }
{
    match event {
        Event::Beat(beat) => message_of(beat),
        Event::Commit(commit) => commit_message_of(commit),
    }
}

/// The same for a commit with an address of 64 bits.
fn wide_commit_message_of(commit: &WideCommit) -> u8
    ensures number { result ≡ commit_message_of (commit_at commit.now 0) }
    ensures below { result ≤ 35 }
{
    match commit {
        WideCommit::Store { .. } => 33,
        WideCommit::Load { .. } => 34,
        WideCommit::Begin { .. } => 35,
    }
}

/// The same for an event of a wide trace.
fn wide_event_message_of<const W: usize>(event: &WideEvent<W>) -> u8
    ensures number { result ≡ wide_event_message_of event.now }
    ensures below { result ≤ 35 }
{
    match event {
        WideEvent::Beat(beat) => wide_message_of(beat),
        WideEvent::Commit(commit) => wide_commit_message_of(commit),
    }
}

/// The number of the cell of a message or a kind of commits: each link has 36 cells, one for each.
fn cell_for(link: Link, message: u8) -> usize
    requires { message ≤ 35 }
    ensures cell { result ≡ cell_for link message }
    ensures below { result < most_cells }
{
    36 * usize::from(link.0) + usize::from(message)
}

/// The number of the cell in which a beat counts.
pub fn cell_of<const W: usize>(link: Link, beat: &Beat<W>) -> usize
    ensures cell { result ≡ cell_of link beat.now }
    ensures below { result < most_cells }
{
    cell_for(link, message_of(beat))
}

/// The number of the cell in which a wide beat counts.
pub fn wide_cell_of<const W: usize>(link: Link, beat: &WideBeat<W>) -> usize
    ensures cell { result ≡ wide_cell_of link beat.now }
    ensures below { result < most_cells }
{
    cell_for(link, wide_message_of(beat))
}

/// The number of the cell in which an event counts.
pub fn event_cell_of<const W: usize>(link: Link, event: &Event<W>) -> usize
    ensures cell { result ≡ event_cell_of link event.now }
    ensures below { result < most_cells }
{
    cell_for(link, event_message_of(event))
}

/// The number of the cell in which an event of a wide trace counts.
pub fn wide_event_cell_of<const W: usize>(link: Link, event: &WideEvent<W>) -> usize
    ensures cell { result ≡ wide_event_cell_of link event.now }
    ensures below { result < most_cells }
{
    cell_for(link, wide_event_message_of(event))
}
