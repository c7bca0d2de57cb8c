//! Follows the wide beats of a trace by the beats that they become, and its stores and loads.

ghost use Rattle.std.specs.Prelude.{◌≡◌, ◌≤◌, ℕ, List, OnOk};
ghost use Rattle.tl_event_chart.specs.code.Drawing.{Draws, DrawsBeats};
ghost use Rattle.tl_commit_words.specs.statement.CommitWords.{wide_piece_in};
ghost use Rattle.tl_wide.specs.statement.Width.{IsWideWidth, part_width};
ghost use Rattle.tl_wide_events.specs.statement.WideCommitLine.{SpellsWideCommit};

use crate::canvas::{Canvas, piece_of};
use crate::follow::draw_beat;
use std::alloc::{AllocError, Global};
use tl_beat::beat::Link;
use tl_events::commit::Commit;
use tl_monitor::monitor::Monitor;
use tl_params::key::block_at;
use tl_wide::beat::WideBeat;
use tl_wide::narrow::Narrower;
use tl_wide::parts::Parts;
use tl_wide_events::commit::{WideCommit, WideEvent};
use tl_wide_events::event::read_wide_event;
use tl_wide_events::narrow::narrow_commit;

/// The numbers of the names of a trace, and a monitor of the beats that its wide beats become, of `P` bytes.
#[derive(Drop)]
pub struct WideFollower<const P: usize> {
    narrower: Narrower,
    monitor: Monitor<P>,
    /// Whether stores and loads are in the trace.
    has_commits: bool,
}

/// The block of a commit.
fn block_of(commit: Commit) -> u32 {
    block_at(piece_of(commit).address)
}

impl<const P: usize> WideFollower<P> {
    /// Nothing has come.
    pub fn new(alloc: Global, monitor: Monitor<P>, has_commits: bool) -> Self {
        WideFollower {
            narrower: Narrower::new(alloc),
            monitor,
            has_commits,
        }
    }

    /// Draws the parts of a wide beat in turn, up to the first that is at fault.
    fn draw_parts<const W: usize>(
        &mut self,
        canvas: &mut Canvas,
        link: Link,
        number: u64,
        beat: &WideBeat<W>,
        parts: Parts,
    ) -> Result<(), AllocError>
        requires width { IsWideWidth W }
        requires part { P ≡ part_width W }
        ensures { OnOk result (DrawsBeats canvas.old canvas.new) }
    {
        let mut left = parts;
        while let Some(part) = left.next::<W, P>(beat) {
            canvas.name_part(link, beat, &part)?;
            if !draw_beat(&mut self.monitor, canvas, link, number, &part)? {
                return Ok(());
            }
        }
        Ok(())
    }

    /// Draws a wide beat, in the line of this number.
    fn take_beat<const W: usize>(
        &mut self,
        canvas: &mut Canvas,
        link: Link,
        number: u64,
        beat: &WideBeat<W>,
    ) -> Result<(), AllocError>
        requires width { IsWideWidth W }
        requires part { P ≡ part_width W }
        ensures { OnOk result (DrawsBeats canvas.old canvas.new) }
    {
        match self.narrower.narrow::<W, P>(link, beat)? {
            None => Ok(()),
            Some(parts) => self.draw_parts::<W>(canvas, link, number, beat, parts),
        }
    }

    /// Draws a commit, in the line of this number. In a trace without stores and loads nothing is drawn.
    fn take_commit(
        &mut self,
        canvas: &mut Canvas,
        link: Link,
        number: u64,
        commit: WideCommit,
    ) -> Result<(), AllocError>
        requires { (wide_piece_in commit).size ≤ 3 }
        ensures { OnOk result ((line : List ℕ) → SpellsWideCommit line link commit →
            Draws canvas.old canvas.new number line) }
    {
        if !self.has_commits {
            return Ok(());
        }
        match narrow_commit(&mut self.narrower, link, commit)? {
            None => Ok(()),
            Some(narrow) => canvas.note_wide(link, number, commit, block_of(narrow)),
        }
    }

    /// Draws the wide beat or the commit in the line of this number. A line that spells neither isn't drawn.
    pub fn take_line<const W: usize>(
        &mut self,
        canvas: &mut Canvas,
        number: u64,
        line: &[u8],
    ) -> Result<(), AllocError>
        requires width { IsWideWidth W }
        requires part { P ≡ part_width W }
        ensures { OnOk result (Draws canvas.old canvas.new number line.now) }
    {
        match read_wide_event::<W>(line) {
            Err(_) => Ok(()),
            Ok((link, WideEvent::Beat(beat))) => self.take_beat::<W>(canvas, link, number, &beat),
            Ok((link, WideEvent::Commit(commit))) => {
                self.take_commit(canvas, link, number, commit)
            }
        }
    }
}
