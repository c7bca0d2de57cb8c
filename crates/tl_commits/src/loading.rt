//! Loads that have begun and aren't in the trace yet.

ghost use Rattle.std.specs.Prelude.{[], not, ◌∷◌, ◌++◌, ◌^◌, ◌≡◌, ◌≤◌, ◌&&◌, ◌==◌, filter, find, is_some, option_copied};
ghost use Rattle.std.specs.Prelude.{OnErr, OnOk};
ghost use Rattle.std.specs.List.{AllZip};
ghost use Rattle.tl_events.specs.statement.CommitLine.{IsPiece};
ghost use Rattle.tl_commits.specs.code.Loading as code;

use crate::piece_values::spread;
use std::alloc::AllocError;
use tl_beat::beat::Link;
use tl_events::commit::Piece;
use tl_memory::byte_set::ByteSet;
use tl_memory::message::both;

/// A load that has begun on a link, and the bytes that it could bring since.
#[derive(Clone, Copy, Debug, PartialEq, Eq)]
pub struct Loading {
    pub(crate) link: Link,
    pub(crate) piece: Piece,
    /// Whether the piece could be loaded at a moment since.
    pub(crate) loadable: bool,
    /// For each byte of the piece, the values that it could have at a moment since.
    pub(crate) values: [ByteSet; 8],
}

impl Loading {
    /// A load that begins, before it is known whether it is possible.
    fn new(link: Link, piece: Piece) -> Self
        ensures { code.IsFresh result link piece }
    {
        Loading {
            link,
            piece,
            loadable: false,
            values: [ByteSet::none(); 8],
        }
    }

    /// Whether it is a load of this piece on this link.
    pub(crate) fn is_of(&self, link: Link, piece: Piece) -> bool
        ensures { result ≡ code.is_of link.0 piece self.now }
    {
        self.link.0 == link.0
            && self.piece.size == piece.size
            && self.piece.address == piece.address
    }

    /// The number of its bytes.
    pub(crate) fn count(&self) -> u8
        ensures few { result ≤ 8 }
        ensures count { IsPiece self.now.piece → result ≡ 2 ^ self.now.piece.size }
    {
        1 << self.piece.size.min(3)
    }

    /// Whether each of its bytes could be the one of this value.
    pub(crate) fn brings(&self, value: u64) -> bool
        ensures { IsPiece self.now.piece → result ≡ code.brings self.now value }
    {
        let bytes = spread(value);
        let mut all = true;
        for i in 0..self.count() {
            let i = usize::from(i);
            all = both(self.values[i].has(bytes[i]), all);
        }
        all
    }
}

/// The load of this piece on this link, if one has begun.
fn find(loads: &[Loading], link: Link, piece: Piece) -> Option<&Loading>
    ensures { option_copied result ≡ find (code.is_of link.0 piece) loads.now }
{
    for loading in loads {
        if loading.is_of(link, piece) {
            return Some(loading);
        }
    }
    None
}

/// Whether a load of this piece on this link has begun.
pub(crate) fn has_begun(loads: &[Loading], link: Link, piece: Piece) -> bool
    ensures { result ≡ is_some (find (code.is_of link.0 piece) loads.now) }
{
    find(loads, link, piece).is_some()
}

/// The load of this piece on this link that has begun, or else one that begins now.
pub(crate) fn load_of(loads: &[Loading], link: Link, piece: Piece) -> Loading
    ensures { code.IsLoadOf (find (code.is_of link.0 piece) loads.now) link piece result }
{
    match find(loads, link, piece) {
        Some(loading) => *loading,
        None => Loading::new(link, piece),
    }
}

/// Forgets the load of this piece on this link.
pub(crate) fn forget(loads: &mut Vec<Loading>, link: Link, piece: Piece)
    ensures { loads.new.items ≡ filter (λ x. not (code.is_of link.0 piece x)) loads.old.items }
{
    loads.retain(|loading| !loading.is_of(link, piece));
}

/// The load, as if it began now if it is the one of this piece on this link.
fn restarted(loading: Loading, link: Link, piece: Piece) -> Loading
    ensures { code.IsRestarted link piece loading result }
{
    if loading.is_of(link, piece) {
        return Loading::new(link, piece);
    }
    loading
}

/// Begins the load of this piece on this link again.
fn restart(loads: &mut Vec<Loading>, link: Link, piece: Piece)
    ensures { AllZip (code.IsRestarted link piece) loads.old.items loads.new.items }
{
    for n in 0..loads.len() {
        loads[n] = restarted(loads[n], link, piece);
    }
}

/// Begins a load of this piece on this link, if one has begun again. The error means that there is no memory left; then
/// nothing changes.
pub(crate) fn begin(loads: &mut Vec<Loading>, link: Link, piece: Piece) -> Result<(), AllocError>
    ensures ok { OnOk result (code.IsBegun link piece (find (code.is_of link.0 piece) loads.old.items)
        loads.old.items loads.new.items) }
    ensures err { OnErr result (loads.new.items ≡ loads.old.items) }
{
    if find(loads, link, piece).is_some() {
        restart(loads, link, piece);
        return Ok(());
    }
    loads.push(Loading::new(link, piece))?;
    Ok(())
}
