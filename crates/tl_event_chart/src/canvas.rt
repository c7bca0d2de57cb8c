//! The picture of a trace: its messages, the names that it has, and its stores and loads.

ghost use Rattle.std.specs.Prelude.{◌≡◌, ◌≤◌, [], List, ℕ, IfOk, OnOk};
ghost use Rattle.tl_commit_words.specs.statement.CommitWords.{piece_in, wide_piece_in};
ghost use Rattle.tl_event_chart.specs.code.Drawing.{Draws, DrawsBeats, FindsPlace, Narrows};
ghost use Rattle.tl_event_chart.specs.statement.Noted.{is_store, is_wide_store};
ghost use Rattle.tl_events.specs.statement.CommitLine.{SpellsCommit};
ghost use Rattle.tl_wide_events.specs.statement.WideCommitLine.{SpellsWideCommit};

use crate::naming::{name_part, new_table};
use std::alloc::{AllocError, Global};
use tl_beat::beat::{Beat, Link};
use tl_chart::arrow::Arrow;
use tl_chart::gatherer::Gatherer;
use tl_chart::names::Names;
use tl_chart::note::{Beside, Note};
use tl_chart::window::Window;
use tl_commit_words::words::{wide_words_of, words_of};
use tl_events::commit::{Commit, Piece};
use tl_params::key::block_at;
use tl_wide::beat::WideBeat;
use tl_wide_events::commit::WideCommit;

/// No block of a trace has this number.
const NO_BLOCK: u32 = u32::MAX;

/// The picture of the lines so far.
#[derive(Drop)]
pub struct Canvas {
    pub gatherer: Gatherer,
    /// The beat at fault, if it is drawn.
    pub fault: Option<Arrow>,
    names: Names,
    notes: Vec<Note>,
    /// The number of stores and loads that follow those that are drawn.
    more: u64,
    /// The one block that is drawn, as the trace names it; `None` for all blocks.
    block: Option<u64>,
}

/// The bytes that a commit reaches.
pub fn piece_of(commit: Commit) -> Piece
    ensures { result ≡ piece_in commit }
{
    match commit {
        Commit::Store { piece, .. } => piece,
        Commit::Load { piece, .. } => piece,
        Commit::Begin { piece } => piece,
    }
}

/// Whether the mark of a commit is full.
fn is_full(commit: Commit) -> bool
    ensures { result ≡ is_store commit }
{
    matches!(commit, Commit::Store { .. })
}

/// The same in a wide trace.
fn is_full_wide(commit: WideCommit) -> bool
    ensures { result ≡ is_wide_store commit }
{
    matches!(commit, WideCommit::Store { .. })
}

/// This window, with a block that no trace has in place of its block.
fn without_block(window: Window) -> Window
    ensures { Narrows window result }
{
    Window {
        block: window.block.map(|_| NO_BLOCK),
        ..window
    }
}

impl Canvas {
    /// Nothing is drawn of a trace with this many links, whose beats have their own names.
    pub fn new(alloc: Global, count: usize, window: Window) -> Result<Self, AllocError>
        ensures notes { IfOk result (λ canvas. canvas.notes.items ≡ []) }
        ensures window { IfOk result (λ canvas. Narrows window canvas.gatherer.window) }
    {
        Ok(Canvas {
            gatherer: Gatherer::new(alloc, count, window)?,
            fault: None,
            names: Names::Own,
            notes: Vec::new(alloc),
            more: 0,
            block: window.block.map(u64::from),
        })
    }

    /// Nothing is drawn of a trace of wide beats with this many links. A beat with data becomes this many.
    pub fn of_wide(
        alloc: Global,
        count: usize,
        window: Window,
        parts: u8,
    ) -> Result<Self, AllocError>
        ensures notes { IfOk result (λ canvas. canvas.notes.items ≡ []) }
        ensures window { IfOk result (λ canvas. Narrows window canvas.gatherer.window) }
    {
        Ok(Canvas {
            gatherer: Gatherer::new(alloc, count, without_block(window))?,
            fault: None,
            names: Names::Written(new_table(alloc, parts)),
            notes: Vec::new(alloc),
            more: 0,
            block: window.block.map(u64::from),
        })
    }

    /// Draws the messages of the block of this number, if it has the name of the one that is drawn.
    fn watch(&mut self, name: u64, number: u32)
        ensures { DrawsBeats self.old self.new }
    {
        if self.block == Some(name) {
            self.gatherer.window.block = Some(number);
        }
    }

    /// Draws the messages of the block of this part of a wide beat, if it has the name of the one that is drawn.
    fn watch_part<const W: usize, const P: usize>(&mut self, beat: &WideBeat<W>, part: &Beat<P>)
        ensures { DrawsBeats self.old self.new }
    {
        match (beat, part) {
            (WideBeat::A(x), Beat::A(y)) => self.watch(x.address / 64, block_at(y.address)),
            (WideBeat::B(x), Beat::B(y)) => self.watch(x.address / 64, block_at(y.address)),
            (WideBeat::C(x), Beat::C(y)) => self.watch(x.address / 64, block_at(y.address)),
            _ => {}
        }
    }

    /// Keeps the names of a wide beat under the numbers of a part of it.
    pub fn name_part<const W: usize, const P: usize>(
        &mut self,
        link: Link,
        beat: &WideBeat<W>,
        part: &Beat<P>,
    ) -> Result<(), AllocError>
        ensures { DrawsBeats self.old self.new }
    {
        self.watch_part(beat, part);
        if self.gatherer.is_closed() {
            return Ok(());
        }
        match &mut self.names {
            Names::Own => Ok(()),
            Names::Written(table) => name_part(table, link, beat, part),
        }
    }

    /// Counts a store or a load that isn't drawn.
    fn skip_note(&mut self) -> Result<(), AllocError>
        ensures notes { self.new.notes ≡ self.old.notes }
        ensures gatherer { self.new.gatherer ≡ self.old.gatherer }
    {
        self.more = self.more.checked_add(1).ok_or(AllocError)?;
        Ok(())
    }

    /// Whether a store to the block of this number, or a load from it, is drawn in the line of this number. One that follows
    /// those that are drawn is counted. If there are too many, drawing ends before it.
    fn place_note(&mut self, number: u64, block: u32) -> Result<bool, AllocError>
        ensures { IfOk result (FindsPlace self.old self.new number) }
    {
        let window = self.gatherer.window;
        if number < window.first || !window.shows(Some(block)) {
            return Ok(false);
        }
        if self.gatherer.is_closed() || number > window.last {
            self.skip_note()?;
            return Ok(false);
        }
        if self.notes.len() >= usize::from(window.most) {
            self.gatherer.window.last = number.saturating_sub(1);
            self.skip_note()?;
            return Ok(false);
        }
        Ok(true)
    }

    /// Draws a commit of a link, in the line of this number. If there are too many, drawing ends before it.
    pub fn note(&mut self, link: Link, number: u64, commit: Commit) -> Result<(), AllocError>
        requires { (piece_in commit).size ≤ 3 }
        ensures { OnOk result ((line : List ℕ) → SpellsCommit line link commit →
            Draws self.old self.new number line) }
    {
        if self.place_note(number, block_at(piece_of(commit).address))? {
            self.notes.push(Note {
                link,
                line: number,
                full: is_full(commit),
                words: words_of(link, commit),
            })?;
        }
        Ok(())
    }

    /// Draws a commit of a link in a wide trace, whose block has this number, in the line of this number. If there are too many,
    /// drawing ends before it.
    pub fn note_wide(
        &mut self,
        link: Link,
        number: u64,
        commit: WideCommit,
        block: u32,
    ) -> Result<(), AllocError>
        requires { (wide_piece_in commit).size ≤ 3 }
        ensures { OnOk result ((line : List ℕ) → SpellsWideCommit line link commit →
            Draws self.old self.new number line) }
    {
        self.watch(commit.address() / 64, block);
        if self.place_note(number, block)? {
            self.notes.push(Note {
                link,
                line: number,
                full: is_full_wide(commit),
                words: wide_words_of(link, commit),
            })?;
        }
        Ok(())
    }

    /// The names and the notes of the chart.
    pub fn beside(&self) -> Beside<'_>
        ensures { result.notes.now ≡ self.now.notes.items }
    {
        Beside {
            names: &self.names,
            notes: self.notes.as_slice(),
            more: self.more,
            block: self.block,
        }
    }
}
