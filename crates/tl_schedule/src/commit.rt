//! Writes the stores and loads of clients as lines of a trace. An error means that there is no memory left; a part may
//! then have been appended.

ghost use Rattle.std.specs.Prelude.{◌≡◌, ◌<◌, ◌≤◌, ◌+◌, ◌*◌, ◌%◌, ◌^◌, ◌++◌, ◌∷◌, [], length, OnOk, IfSome};
ghost use Rattle.tl_beat.specs.statement.Digits.{digits};
ghost use Rattle.tl_events.specs.statement.CommitLine.{IsCommit, SpellsCommit, commit_line, value_digits};
ghost use Rattle.tl_schedule.specs.code.CommitWriting.{piece_text, value_text};
ghost use Rattle.tl_schedule.specs.statement.Commits.{HasPiece, IsOfPiece, asked_commit, at_most_one, commit_of};
ghost use Rattle.tl_schedule.specs.statement.Commits.{commits_text, low_part, piece_at, whole_stores, word_store, word_stores};
ghost use Rattle.tl_schedule.specs.statement.OutcomeLine.{link_of};

use crate::outcome::link_of;
use crate::whole::WholeStore;
use arrayvec::ArrayVec;
use std::alloc::AllocError;
use tl_beat::beat::Link;
use tl_beat::text::append_digits;
use tl_client::operation::Op;
use tl_client::reply::Reply;
use tl_coherence::event::{Event, Outcome};
use tl_events::commit::{Commit, Piece};

/// The bytes of a Load or a Store.
fn piece(address: u32, size: u8) -> Piece
    ensures piece { result ≡ piece_at address size }
    ensures in_range { address < 2 ^ 32 }
{
    Piece { size, address }
}

/// The low `2^size` bytes of a number.
fn low_part(size: u8, number: u64) -> u64
    requires { size ≤ 3 }
    ensures { result ≡ low_part size number }
{
    match size {
        0 => number % (1 << 8),
        1 => number % (1 << 16),
        2 => number % (1 << 32),
        _ => number,
    }
}

/// The commit of a reply to an operation.
fn commit_of<const W: usize>(operation: &Op<W>, reply: Reply) -> Option<Commit>
    requires { IsOfPiece operation.now reply }
    ensures commit { result ≡ commit_of operation.now reply }
    ensures fits { IfSome result IsCommit }
{
    match (operation, reply) {
        (Op::Load { address, size }, Reply::Value(value)) => Some(Commit::Load {
            piece: piece(*address, *size),
            value: low_part(*size, value),
        }),
        (
            Op::Store {
                address,
                size,
                value,
            },
            Reply::Stored,
        ) => Some(Commit::Store {
            piece: piece(*address, *size),
            value: low_part(*size, *value),
        }),
        _ => None,
    }
}

/// Appends the fields up to the address.
fn append_piece(text: &mut ArrayVec<u8, 64>, link: Link, letter: u8, piece: Piece)
    requires { text.old.items ≡ [] }
    ensures text { text.new.items ≡ piece_text link letter piece }
    ensures len { length text.new.items ≡ 15 }
{
    append_digits(text, u32::from(link.0), 2);
    text.push(b' ');
    text.push(letter);
    text.push(b' ');
    append_digits(text, u32::from(piece.size), 1);
    text.push(b' ');
    append_digits(text, piece.address, 8);
}

/// Appends the digits of a value of `2^size` bytes, after a space.
fn append_value(text: &mut ArrayVec<u8, 64>, size: u8, value: u64)
    requires small { size ≤ 3 }
    requires below { value < 2 ^ (4 * value_digits size) }
    requires room { length text.old.items ≤ 32 }
    ensures text { text.new.items ≡ text.old.items ++ value_text size value }
    ensures len { length text.new.items ≤ length text.old.items + 17 }
{
    text.push(b' ');
    match size {
        0 => append_digits(text, value as u32, 2),
        1 => append_digits(text, value as u32, 4),
        2 => append_digits(text, value as u32, 8),
        _ => {
            append_digits(text, (value >> 32) as u32, 8);
            append_digits(text, (value % (1 << 32)) as u32, 8);
        }
    }
}

/// Appends the line of a commit.
pub fn append_commit(link: Link, commit: Commit, out: &mut Vec<u8>) -> Result<(), AllocError>
    requires { IsCommit commit }
    ensures text { OnOk result (out.new.items ≡ out.old.items ++ commit_line link commit) }
    ensures spelled { SpellsCommit (commit_line link commit) link commit }
{
    let mut text = ArrayVec::<u8, 64>::new();
    match commit {
        Commit::Store { piece, value } => {
            append_piece(&mut text, link, b'S', piece);
            append_value(&mut text, piece.size, value);
        }
        Commit::Load { piece, value } => {
            append_piece(&mut text, link, b'L', piece);
            append_value(&mut text, piece.size, value);
        }
        Commit::Begin { piece } => append_piece(&mut text, link, b'I', piece),
    }
    text.push(b'\n');
    out.extend_from_slice(&text)
}

/// The commit of a client that was asked.
fn asked_commit<const W: usize>(event: &Event<W>, outcome: &Outcome<W>) -> Option<Commit>
    requires { HasPiece event.now outcome.now }
    ensures commit { result ≡ asked_commit event.now outcome.now }
    ensures fits { IfSome result IsCommit }
{
    match (event, outcome) {
        (Event::Ask { operation, .. }, Outcome::Replied { reply }) => commit_of(operation, *reply),
        _ => None,
    }
}

/// Appends the line of the Load or the Store of an event, if it was done at once.
pub fn append_asked_commit<const W: usize>(
    event: &Event<W>,
    outcome: &Outcome<W>,
    out: &mut Vec<u8>,
) -> Result<(), AllocError>
    requires { HasPiece event.now outcome.now }
    ensures { OnOk result (out.new.items
        ≡ out.old.items ++ commits_text (link_of event.now) (at_most_one (asked_commit event.now outcome.now))) }
{
    match asked_commit(event, outcome) {
        None => Ok(()),
        Some(commit) => append_commit(link_of(event), commit, out),
    }
}

/// The store of a word of a block.
fn word_store(store: &WholeStore, i: usize) -> Commit
    requires { i < 8 }
    ensures store { result ≡ word_store store.now i }
    ensures fits { IsCommit result }
{
    let at = 8 * i;
    let mut word = [0; 8];
    word.copy_from_slice(&store.bytes[at..at + 8]);
    let piece = Piece {
        size: 3,
        address: 64 * u32::from(store.block) + at as u32,
    };
    Commit::Store {
        piece,
        value: u64::from_le_bytes(word),
    }
}

/// Appends the lines of the store of a whole block, a word in each.
fn append_whole(link: Link, store: &WholeStore, out: &mut Vec<u8>) -> Result<(), AllocError>
    ensures { OnOk result (out.new.items ≡ out.old.items ++ commits_text link (word_stores store.now 0 8)) }
{
    for i in 0..8 {
        append_commit(link, word_store(store, i), out)?;
    }
    Ok(())
}

/// Appends the lines of the commits of an event, in which the store of this whole block is granted, if there is one.
pub fn append_commits<const W: usize>(
    event: &Event<W>,
    outcome: &Outcome<W>,
    granted: Option<WholeStore>,
    out: &mut Vec<u8>,
) -> Result<(), AllocError>
    requires { HasPiece event.now outcome.now }
    ensures { OnOk result (out.new.items ≡ out.old.items ++ commits_text (link_of event.now)
        (at_most_one (asked_commit event.now outcome.now) ++ whole_stores granted)) }
{
    append_asked_commit(event, outcome, out)?;
    match granted {
        None => Ok(()),
        Some(store) => append_whole(link_of(event), &store, out),
    }
}
