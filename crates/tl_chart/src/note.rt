//! The notes of a chart, and the names in it.

use crate::names::Names;
use arrayvec::ArrayVec;
use tl_beat::beat::Link;

/// A line of a trace that has no beat: words, and a mark on the lifeline of a link.
#[derive(Drop)]
pub struct Note {
    pub link: Link,
    pub line: u64,
    /// Whether the mark is full.
    pub full: bool,
    pub words: ArrayVec<u8, 64>,
}

/// The names in a chart, and its notes.
#[derive(Clone, Copy)]
pub struct Beside<'a> {
    pub names: &'a Names,
    pub notes: &'a [Note],
    /// The number of notes that follow those that are drawn.
    pub more: u64,
    /// The one block that is drawn, as it was written; `None` for all blocks.
    pub block: Option<u64>,
}
