//! Writes events in words.

ghost use Rattle.std.specs.Prelude.{◌≡◌, ◌≤◌, ◌++◌, OnOk};
ghost use Rattle.tl_beat.specs.statement.Digits.{digits};
ghost use Rattle.tl_beat.specs.statement.Width.{IsWidth};
ghost use Rattle.tl_events.specs.statement.EventLine.{SpellsEvent};
ghost use Rattle.tl_commit_story.specs.statement.Words;
ghost use Rattle.tl_commit_words.specs.statement.CommitWords.{piece_in};

use arrayvec::ArrayVec;
use itoa::Buffer;
use std::alloc::AllocError;
use tl_beat::beat::Link;
use tl_commit_words::words::words_of;
use tl_events::commit::{Commit, Event};
use tl_explain::words::append_beat_line;
use tl_wide::text::append_long;

/// Appends the lowest `count` hexadecimal digits of a number.
pub fn append_digits(number: u64, count: u8, out: &mut Vec<u8>) -> Result<(), AllocError>
    requires { count ≤ 16 }
    ensures { OnOk result (out.new.items ≡ out.old.items ++ digits count number) }
{
    let mut text = ArrayVec::new();
    append_long(&mut text, number, count);
    out.extend_from_slice(text.as_slice())
}

#[tactic(auto, unfolding(crate::specs::statement::Words::commit_text))]
/// Appends the words of a commit, after the number of its line.
pub fn append_commit(
    number: u64,
    link: Link,
    commit: Commit,
    out: &mut Vec<u8>,
) -> Result<(), AllocError>
    requires { (piece_in commit).size ≤ 3 }
    ensures { OnOk result (out.new.items ≡ out.old.items ++ Words.commit_text number link commit) }
{
    let mut digits = Buffer::new();
    out.extend_from_slice(b"  ")?;
    out.extend_from_slice(digits.format(number).as_bytes())?;
    out.extend_from_slice(b": link ")?;
    out.extend_from_slice(words_of(link, commit).as_slice())?;
    out.push(b'\n')?;
    Ok(())
}

/// Appends the words of the event that a line spells, after the number of the line.
pub fn append_event<const W: usize>(
    number: u64,
    line: &[u8],
    link: Link,
    event: &Event<W>,
    out: &mut Vec<u8>,
) -> Result<(), AllocError>
    requires width { IsWidth W }
    requires spelled { SpellsEvent line.now link event.now }
    ensures { OnOk result (out.new.items ≡ out.old.items ++ Words.event_text number link event.now) }
{
    match event {
        Event::Beat(_) => append_beat_line::<W>(number, line, out),
        Event::Commit(commit) => append_commit(number, link, *commit, out),
    }
}
