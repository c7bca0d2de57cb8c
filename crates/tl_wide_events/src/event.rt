//! Reads a line of text as an event of a wide trace: a wide beat, or a commit.

ghost use Rattle.std.specs.Prelude.{◌≡◌, Ok, IfOk};
ghost use Rattle.std.specs.Result.{result_err};
ghost use Rattle.tl_beat.specs.declared.beat.Link.{Link};
ghost use Rattle.tl_wide.specs.statement.Width.{IsWideWidth};
ghost use Rattle.tl_wide_events.specs.declared.commit.WideEvent.{WideEvent};
ghost use Rattle.tl_wide_events.specs.statement.WideEventLine.{SpellsWideEvent, wide_event_fault};

use crate::commit::WideEvent;
use crate::read::read_wide_commit;
use tl_beat::beat::Link;
use tl_beat::fault::LineFault;
use tl_wide::beat::{WideBeat, WideBeatE};
use tl_wide::read::read_wide_into;

/// Whether a line of two digits, a space and a letter has the letter of a commit.
#[inline(always)]
fn has_letter_of_commit(line: &[u8]) -> bool {
    matches!(line, [_, _, _, b'S' | b'L' | b'I', ..])
}

/// Reads a line of text, with its line feed, as a link and an event: a wide beat of `W` bytes (4, 8, 16, 32 or 64), or a
/// commit. The error for a line that spells neither is its first fault as a wide beat's line, or that as a commit's line if
/// its letter is no channel's. It takes any bytes and allocates no memory. A line of more than 256 bytes is refused by its
/// length alone.
pub fn read_wide_event<const W: usize>(line: &[u8]) -> Result<(Link, WideEvent<W>), LineFault>
    requires { IsWideWidth W }

    // What is read is spelled by the line, whatever the line spells is read, no two events have one line, and the fault
    // of a line that spells none is the first of the table.
    ensures spelled { IfOk result (λ read. SpellsWideEvent line.now read.0 read.1) }
    ensures every_spelling { (link : Link) (x : WideEvent W) → SpellsWideEvent line.now link x → result ≡ Ok (link, x) }
    ensures one_event { (k l : Link) (x y : WideEvent W) → SpellsWideEvent line.now k x → SpellsWideEvent line.now l y →
        (k ≡ l) × (x ≡ y) }
    ensures fault { result_err result ≡ wide_event_fault W line.now }
{
    if has_letter_of_commit(line) {
        if let Ok((link, commit)) = read_wide_commit(line) {
            return Ok((link, WideEvent::Commit(commit)));
        }
    }
    let mut beat = WideBeat::E(WideBeatE { sink: 0 });
    let fault = match read_wide_into(line, &mut beat) {
        Ok(link) => return Ok((link, WideEvent::Beat(beat))),
        Err(fault) => fault,
    };
    if fault != LineFault::F2 {
        return Err(fault);
    }
    let (link, commit) = read_wide_commit(line)?;
    Ok((link, WideEvent::Commit(commit)))
}
