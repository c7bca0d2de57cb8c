//! Questions to a judge about the bytes of copies.

ghost use Rattle.std.specs.Prelude.{ℕ, List, length, nat_lt, IfOk, ◌+◌, ◌*◌, ◌^◌, ◌<◌, ◌≡◌};
ghost use Rattle.tl_beat.specs.statement.Width.{IsWidth};
ghost use Rattle.tl_bytes.specs.statement.Known.{tellings_at};
ghost use Rattle.tl_events.specs.statement.CommitLine.{IsPiece};
ghost use Rattle.tl_memory.specs.code.ByteSet.{has_at};
ghost use Rattle.tl_params.specs.declared.level.Level.{Level};
ghost use Rattle.tl_params.specs.declared.liberties.Liberties.{Liberties};
ghost use Rattle.tl_commits.specs.statement.Completeness.{Completeness};
ghost use Rattle.tl_commits.specs.statement.Commits;
ghost use Rattle.tl_commits.specs.statement.Copied.{copy_values};
ghost use Rattle.tl_commits.specs.statement.Events.{Events, at_some, beats_of};
ghost use Rattle.tl_commits.specs.statement.Seen.{memory_may};

use crate::block_values::BlockValues;
use crate::copied::copied;
use crate::judge::CommitJudge;
use crate::loading::load_of;
use crate::renewing::renewed;
use std::alloc::{AllocError, Global};
use tl_beat::beat::Link;
use tl_bytes::telling::Told;
use tl_events::commit::Piece;
use tl_memory::byte_set::ByteSet;

impl<const W: usize> CommitJudge<W> {
    ghost use Rattle.tl_commits.specs.statement.Knows.{KnowsCommits};

    /// Whether there is such a link.
    pub fn has_link(&self, link: Link) -> bool
        ensures { (levels : List Level) (complete : Completeness) (l : Liberties) (e : Events W) →
            KnowsCommits self.now levels complete l e → result ≡ nat_lt link.0 (length levels) }
    {
        usize::from(link.0) < self.levels.len()
    }

    /// The possible values of the bytes of a block in the copy of a link, those of each byte the newest first. The error means
    /// that there is no memory left.
    pub fn copy_of(&self, alloc: Global, link: Link, block: u32) -> Result<Vec<Told>, AllocError>
        requires { IsWidth W }
        ensures { IfOk result (λ told. (levels : List Level) (complete : Completeness) (l : Liberties) (e : Events W) →
            KnowsCommits self.now levels complete l e → link.0 < length levels → (place : ℕ) → place < 64 →
            tellings_at place told.items ≡ copy_values complete (length levels) link.0 (64 * block + place) e) }
    {
        let Some(messages) = self.judge.messages(link) else {
            return Ok(Vec::new(alloc));
        };
        match self.values.get(block) {
            Some(values) => copied::<W>(alloc, messages, values.seen.as_slice(), block),
            None => {
                let first = BlockValues::new(alloc, false)?;
                copied::<W>(alloc, messages, first.seen.as_slice(), block)
            }
        }
    }

    /// The possible values of the bytes of a block that memory has, those of each byte the newest first. The error means that
    /// there is no memory left.
    pub fn memory_of(&self, alloc: Global, block: u32) -> Result<Vec<Told>, AllocError>
        ensures { IfOk result (λ told. (levels : List Level) (complete : Completeness) (l : Liberties) (e : Events W) →
            KnowsCommits self.now levels complete l e → (place : ℕ) → place < 64 →
            tellings_at place told.items ≡ memory_may complete.zero (length levels) (64 * block + place) (beats_of e)) }
    {
        match self.values.get(block) {
            Some(values) => Vec::from_slice(alloc, values.memory.as_slice()),
            None => Ok(BlockValues::new(alloc, false)?.memory),
        }
    }

    /// Whether the byte at a place of a block may have a value that memory may have, if it was stored.
    pub fn is_kept(&self, block: u32, place: u8) -> bool
        ensures { (levels : List Level) (complete : Completeness) (l : Liberties) (e : Events W) →
            KnowsCommits self.now levels complete l e → place < 64 →
            result ≡ Commits.is_kept complete (length levels) (64 * block + place) e }
    {
        match self.values.get(block) {
            None => true,
            Some(values) => values.is_kept(place),
        }
    }

    /// The values that a load of a piece on a link may bring, if it ends now: a set for each byte.
    pub fn loaded(&self, link: Link, piece: Piece) -> [ByteSet; 8]
        requires { IsWidth W }
        ensures { (levels : List Level) (complete : Completeness) (l : Liberties) (e : Events W) →
            KnowsCommits self.now levels complete l e → link.0 < length levels → IsPiece piece →
            (i v : ℕ) → i < 2 ^ piece.size → v < 256 → has_at result i v
            ≡ at_some (Commits.may_bring complete (length levels) link.0 (piece.address + i) v) link.0 piece e }
    {
        let begun = load_of(self.loads.as_slice(), link, piece);
        renewed(&self.judge, &self.values, &self.complete, begun).values
    }
}
