//! Reads a line of text as an event of a trace: a beat, or a commit.

ghost use Rattle.std.specs.Prelude.{◌≡◌, Ok, IfOk};
ghost use Rattle.std.specs.Result.{result_err};
ghost use Rattle.tl_beat.specs.declared.beat.Link.{Link};
ghost use Rattle.tl_beat.specs.statement.Width.{IsWidth};
ghost use Rattle.tl_events.specs.declared.commit.Event.{Event};
ghost use Rattle.tl_events.specs.statement.EventLine.{SpellsEvent, event_fault};

use crate::commit::Event;
use crate::read::read_commit;
use tl_beat::beat::Link;
use tl_beat::fault::LineFault;
use tl_beat::read::read_line;

/// Whether a line of two digits, a space and a letter has the letter of a commit.
#[inline(always)]
fn has_letter_of_commit(line: &[u8]) -> bool {
    matches!(line, [_, _, _, b'S' | b'L' | b'I', ..])
}

/// Reads a line of text, with its line feed, as a link and an event: a beat of `W` bytes (4, 8 or 16), or a commit. The
/// error for a line that spells neither is its first fault as a beat's line, or that as a commit's line if its letter is
/// no channel's. It takes any bytes and allocates no memory. A line of more than 256 bytes is refused by its length
/// alone.
pub fn read_event<const W: usize>(line: &[u8]) -> Result<(Link, Event<W>), LineFault>
    requires { IsWidth W }

    // What is read is spelled by the line, whatever the line spells is read, no two events have one line, and the fault
    // of a line that spells none is the first of the table.
    ensures spelled { IfOk result (λ read. SpellsEvent line.now read.0 read.1) }
    ensures every_spelling { (link : Link) (x : Event W) → SpellsEvent line.now link x → result ≡ Ok (link, x) }
    ensures one_event { (k l : Link) (x y : Event W) → SpellsEvent line.now k x → SpellsEvent line.now l y →
        (k ≡ l) × (x ≡ y) }
    ensures fault { result_err result ≡ event_fault W line.now }
{
    if has_letter_of_commit(line) {
        if let Ok((link, commit)) = read_commit(line) {
            return Ok((link, Event::Commit(commit)));
        }
    }
    let fault = match read_line(line) {
        Ok((link, beat)) => return Ok((link, Event::Beat(beat))),
        Err(fault) => fault,
    };
    if fault != LineFault::F2 {
        return Err(fault);
    }
    let (link, commit) = read_commit(line)?;
    Ok((link, Event::Commit(commit)))
}
