//! M5 for a store, and for a load that didn't begin earlier, by a judge of the beats.

ghost use Rattle.std.specs.Prelude.{List, false, true, None, Some, ◌≡◌, ◌<◌, if◌then◌else◌, length};
ghost use Rattle.tl_beat.specs.statement.Width.{IsWidth};
ghost use Rattle.tl_params.specs.declared.level.Level.{Level};
ghost use Rattle.tl_params.specs.declared.liberties.Liberties.{Liberties};
ghost use Rattle.tl_together.specs.statement.Knows.{Knows};
ghost use Rattle.tl_events.specs.declared.rule.CommitRule.TheVariants.{M5};
ghost use Rattle.tl_events.specs.statement.CommitLine.{IsPiece};
ghost use Rattle.tl_commits.specs.statement.Commits;
ghost use Rattle.tl_commits.specs.statement.Copies;
ghost use Rattle.tl_commits.specs.statement.Copies.{link_beats};
ghost use Rattle.tl_commits.specs.statement.Events.{Events, beats_of, is_loading};

use crate::copies::{has_brought, is_filling, is_giving};
use tl_beat::beat::Link;
use tl_events::commit::Piece;
use tl_events::rule::CommitRule;
use tl_memory::message::both;
use tl_rules::key::block_at;
use tl_rules::perm::Perm;
use tl_together::judge::Judge;

/// Whether a core may store to a block now: its cache holds Trunk, and no data of the block are under way.
pub fn may_store<const W: usize>(judge: &Judge<W>, link: Link, block: u32) -> bool
    ensures { (levels : List Level) (l : Liberties) (e : Events W) → Knows judge.now levels l (beats_of e) false →
        link.0 < length levels → result ≡ Copies.may_store block (link_beats link.0 e) }
{
    if judge.held(link, block) != Perm::Trunk {
        return false;
    }
    let report = judge.report(link);
    match judge.messages(link) {
        Some(messages) => { !is_filling(messages, block) && !is_giving(messages, report, block) }
        None => false,
    }
}

/// M5, unless the cache holds the copy that it needs.
pub(crate) fn unless(holds: bool) -> Option<CommitRule>
    ensures { result ≡ (if holds then None else Some M5) }
{
    if holds { None } else { Some(CommitRule::M5) }
}

/// M5, if a store breaks it.
pub fn broken_store<const W: usize>(
    judge: &Judge<W>,
    link: Link,
    piece: Piece,
) -> Option<CommitRule>
    ensures { (levels : List Level) (l : Liberties) (e : Events W) → Knows judge.now levels l (beats_of e) false →
        link.0 < length levels → result ≡ Commits.broken_store link.0 piece e }
{
    unless(may_store(judge, link, block_at(piece.address)))
}

/// Whether a core may load the byte at an address now: its cache holds the block, or a Grant under way has brought the
/// byte.
pub fn is_loadable<const W: usize>(judge: &Judge<W>, link: Link, address: u32) -> bool
    requires { IsWidth W }
    ensures { (levels : List Level) (l : Liberties) (e : Events W) → Knows judge.now levels l (beats_of e) false →
        link.0 < length levels → result ≡ Commits.is_loadable link.0 address e }
{
    if judge.held(link, block_at(address)) != Perm::None {
        return true;
    }
    match judge.messages(link) {
        Some(messages) => has_brought::<W>(messages, address),
        None => false,
    }
}

/// Whether a core may load each byte of a piece now.
pub fn is_piece_loadable<const W: usize>(judge: &Judge<W>, link: Link, piece: Piece) -> bool
    requires width { IsWidth W }
    requires piece { IsPiece piece }
    ensures { (levels : List Level) (l : Liberties) (e : Events W) → Knows judge.now levels l (beats_of e) false →
        link.0 < length levels →
        result ≡ Commits.is_piece_loadable link.0 piece e }
{
    let count = 1u32 << piece.size;
    let mut all = true;
    for i in 0..count {
        let loadable = is_loadable(judge, link, piece.address + i);
        all = both(loadable, all);
    }
    all
}
