//! Writes the events of a wide trace in words.

ghost use Rattle.std.specs.Prelude.{◌≡◌, ◌≤◌, ◌++◌, OnOk};
ghost use Rattle.tl_commit_words.specs.statement.CommitWords.{wide_piece_in};
ghost use Rattle.tl_wide.specs.statement.Width.{IsWideWidth};
ghost use Rattle.tl_wide_event_story.specs.code.Retelling.{IsSmall};
ghost use Rattle.tl_wide_event_story.specs.statement.WideEventsExplained.{wide_commit_text, wide_event_text};

use itoa::Buffer;
use std::alloc::AllocError;
use tl_beat::beat::Link;
use tl_commit_words::words::wide_words_of;
use tl_wide_events::commit::{WideCommit, WideEvent};
use tl_wide_story::front::append_wide_beat_line;

#[tactic(auto, unfolding(crate::specs::statement::WideEventsExplained::wide_commit_text))]
/// Appends the words of a commit, after the number of its line.
pub fn append_wide_commit(
    number: u64,
    link: Link,
    commit: WideCommit,
    out: &mut Vec<u8>,
) -> Result<(), AllocError>
    requires { (wide_piece_in commit).size ≤ 3 }
    ensures { OnOk result (out.new.items ≡ out.old.items ++ wide_commit_text number link commit) }
{
    let mut digits = Buffer::new();
    out.extend_from_slice(b"  ")?;
    out.extend_from_slice(digits.format(number).as_bytes())?;
    out.extend_from_slice(b": link ")?;
    out.extend_from_slice(wide_words_of(link, commit).as_slice())?;
    out.push(b'\n')?;
    Ok(())
}

/// Appends the words of an event, after the number of its line.
pub fn append_wide_event<const W: usize>(
    number: u64,
    link: Link,
    event: &WideEvent<W>,
    out: &mut Vec<u8>,
) -> Result<(), AllocError>
    requires width { IsWideWidth W }
    requires small { IsSmall event.now }
    ensures { OnOk result (out.new.items ≡ out.old.items ++ wide_event_text number link event.now) }
{
    match event {
        WideEvent::Beat(beat) => append_wide_beat_line(number, link, beat, out),
        WideEvent::Commit(commit) => append_wide_commit(number, link, *commit, out),
    }
}
