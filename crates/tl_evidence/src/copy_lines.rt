//! Lists bytes of a copy: those that a load or a report has and can't have, and stored ones that are lost.

ghost use Rattle.std.specs.Prelude.{ℕ, suc, List, true, length, ◌≡◌, ◌+◌, ◌*◌, ◌<◌, ◌≤◌, ◌++◌, IfOk, IfSome, OnOk};
ghost use Rattle.tl_beat.specs.declared.channel.Channel.TheVariants as channel;
ghost use Rattle.tl_beat.specs.statement.Width.{IsWidth};
ghost use Rattle.tl_burst.specs.statement.Messages.{unfinished};
ghost use Rattle.tl_commits.specs.statement.Completeness.{Completeness};
ghost use Rattle.tl_commits.specs.statement.Copies.{link_beats};
ghost use Rattle.tl_evidence.specs.code.Following.{IsRoom};
ghost use Rattle.tl_commits.specs.statement.Events.{Events};
ghost use Rattle.tl_evidence.specs.statement.CopyLines.{copy_lines, event_lines, given_lines, loaded_lines, lost_from};
ghost use Rattle.tl_evidence.specs.statement.CopyLines.{beat_lines, commit_lines, counted_line, lost_line, lost_lines};
ghost use Rattle.tl_params.specs.declared.level.Level.{Level};
ghost use Rattle.tl_params.specs.declared.liberties.Liberties.{Liberties};

use crate::byte_values::ByteValues;
use crate::copy_record::CopyRecord;
use crate::possible::{Allowed, Possible};
use crate::set_lines::SetLines;
use crate::strays::{append_more, append_values, tell_lanes};
use std::alloc::AllocError;
use tl_beat::beat::{Beat, BeatC};
use tl_events::commit::{Commit, Event, Piece};
use tl_events::rule::CommitRule;
use tl_rules::key::block_at;
use tl_witness::places::Places;

/// The most bytes that are listed.
const TOLD: u8 = 8;

/// The number of bytes in a block.
pub(crate) const BYTES: u8 = 64;

/// The first place in its block, and the number, of the bytes of a piece that a line can spell. None if it is another.
fn room_of(piece: Piece) -> Option<(u8, usize)>
    ensures { IfSome result (λ r. IsRoom piece r.0 r.1) }
{
    piece.prove_addressed();
    if piece.size > 3 {
        return None;
    }
    if !piece.is_valid() {
        return None;
    }
    let first = (piece.address % 64) as u8;
    let count = 1usize << piece.size;
    if usize::from(first) + count > usize::from(BYTES) {
        return None;
    }
    Some((first, count))
}

impl<const W: usize> CopyRecord<W> {
    ghost use Rattle.tl_evidence.specs.code.Following.{KnowsCopy};

    /// These values of the block's bytes.
    pub(crate) fn possible<'a>(&self, set: &'a SetLines) -> Possible<'a>
        ensures block { result.block ≡ self.now.block }
        ensures set { result.set.now ≡ set.now }
    {
        Possible {
            block: self.block,
            set,
        }
    }

    /// Appends the lines of the bytes of a load that it can't have loaded. Returns true if it is of this block.
    fn tell_loaded<X: Places>(
        &self,
        places: &X,
        piece: Piece,
        value: u64,
        out: &mut Vec<u8>,
    ) -> Result<bool, AllocError>
        requires { IsWidth W }
        ensures { IfOk result (λ told. told ≡ true → (may : Liberties) (levels : List Level) (complete : Completeness)
            (e : Events W) → KnowsCopy self.now may levels complete e → out.new.items
            ≡ out.old.items ++ loaded_lines (X.names places.now) complete (length levels) self.now.link.0 piece value e) }
    {
        if block_at(piece.address) != self.block {
            return Ok(false);
        }
        let Some((first, count)) = room_of(piece) else {
            return Ok(false);
        };
        let sets = self.judge.loaded(self.link, piece);
        let values = Allowed {
            first,
            sets: &sets,
            possible: self.possible(&self.copy),
        };
        let bytes = value.to_le_bytes();
        tell_lanes(places, &values, usize::from(first), &bytes[..count], out)?;
        Ok(true)
    }

    /// Appends the lines of the bytes of a beat of a report that it can't give back, if `came` beats of the report came before
    /// it. Returns true if it is of this block, and the block has room for its bytes.
    fn tell_given<X: Places>(
        &self,
        places: &X,
        x: &BeatC<W>,
        came: u64,
        out: &mut Vec<u8>,
    ) -> Result<bool, AllocError>
        requires { IsWidth W }
        ensures { IfOk result (λ told. told ≡ true → (may : Liberties) (levels : List Level) (complete : Completeness)
            (e : Events W) → KnowsCopy self.now may levels complete e →
            came ≡ length (unfinished channel.C (link_beats self.now.link.0 e)) → out.new.items
            ≡ out.old.items ++ given_lines (X.names places.now) complete (length levels) self.now.link.0 x.now e) }
    {
        let Some(lanes) = &x.lanes else {
            return Ok(false);
        };
        let first = W.saturating_mul(came as usize);
        if block_at(x.address) != self.block {
            return Ok(false);
        }
        if first.saturating_add(W) > usize::from(BYTES) {
            return Ok(false);
        }
        let values = self.possible(&self.copy);
        tell_lanes(places, &values, first, lanes, out)?;
        Ok(true)
    }

    #[tactic(auto, unfolding(crate::specs::statement::CopyLines::lost_line))]
    /// Appends the line of a byte that was stored and is lost.
    fn append_lost<X: Places>(
        &self,
        places: &X,
        place: u8,
        out: &mut Vec<u8>,
    ) -> Result<(), AllocError>
        requires { place < 64 }
        ensures { OnOk result ((may : Liberties) (levels : List Level) (complete : Completeness) (e : Events W) →
            KnowsCopy self.now may levels complete e → out.new.items ≡ out.old.items
            ++ lost_line (X.names places.now) complete (length levels) self.now.link.0 (64 * self.now.block + place) e) }
    {
        let copy = self.possible(&self.copy);
        let memory = self.possible(&self.memory);
        out.extend_from_slice(b"  byte ")?;
        places.append_place(copy.address(place), out)?;
        out.extend_from_slice(b" of the copy was stored")?;
        append_values(places, &copy, place, out)?;
        out.extend_from_slice(b"; that of memory wasn't")?;
        append_values(places, &memory, place, out)?;
        out.push(b'\n')?;
        Ok(())
    }

    /// Appends the line of a byte that was stored and is lost, after `count` others, if it is one of the first eight.
    fn append_counted<X: Places>(
        &self,
        places: &X,
        place: u8,
        count: u8,
        out: &mut Vec<u8>,
    ) -> Result<(), AllocError>
        requires { place < 64 }
        ensures { OnOk result ((may : Liberties) (levels : List Level) (complete : Completeness) (e : Events W) →
            KnowsCopy self.now may levels complete e → out.new.items ≡ out.old.items
            ++ counted_line (X.names places.now) complete (length levels) self.now.link.0 count
            (64 * self.now.block + place) e) }
    {
        if count >= TOLD {
            return Ok(());
        }
        self.append_lost(places, place, out)
    }

    /// Appends the line of the byte at a place, after `count` others, if it was stored and is lost. Returns the number of such
    /// bytes.
    fn tell_place<X: Places>(
        &self,
        places: &X,
        place: u8,
        count: u8,
        out: &mut Vec<u8>,
    ) -> Result<u8, AllocError>
        requires place { place < 64 }
        requires count { count < 64 }
        ensures told { IfOk result (λ now. (may : Liberties) (levels : List Level) (complete : Completeness)
            (e : Events W) → KnowsCopy self.now may levels complete e → (rest : ℕ) → out.new.items
            ++ lost_from (X.names places.now) complete (length levels) self.now.link.0 now
            (64 * self.now.block + place + 1) rest e
            ≡ out.old.items ++ lost_from (X.names places.now) complete (length levels) self.now.link.0 count
            (64 * self.now.block + place) (suc rest) e) }
        ensures few { IfOk result (λ now. now ≤ count + 1) }
    {
        if self.judge.is_kept(self.block, place) {
            return Ok(count);
        }
        self.append_counted(places, place, count, out)?;
        Ok(count + 1)
    }

    /// Appends the lines of the bytes that were stored and are lost.
    fn tell_lost<X: Places>(&self, places: &X, out: &mut Vec<u8>) -> Result<(), AllocError>
        ensures { OnOk result ((may : Liberties) (levels : List Level) (complete : Completeness) (e : Events W) →
            KnowsCopy self.now may levels complete e → out.new.items
            ≡ out.old.items ++ lost_lines (X.names places.now) complete (length levels) self.now.link.0 self.now.block e) }
    {
        let mut count = 0u8;
        for place in 0..BYTES {
            count = self.tell_place(places, place, count, out)?;
        }
        append_more(count, out)
    }

    /// The same, if they are of this block. Returns true if they are.
    fn tell_lost_of<X: Places>(
        &self,
        places: &X,
        block: u32,
        out: &mut Vec<u8>,
    ) -> Result<bool, AllocError>
        ensures { IfOk result (λ told. told ≡ true → (may : Liberties) (levels : List Level) (complete : Completeness)
            (e : Events W) → KnowsCopy self.now may levels complete e → out.new.items
            ≡ out.old.items ++ lost_lines (X.names places.now) complete (length levels) self.now.link.0 block e) }
    {
        if block != self.block {
            return Ok(false);
        }
        self.tell_lost(places, out)?;
        Ok(true)
    }

    /// Appends the lines for a beat, if `came` beats of its message came before it. Returns true if they are for it.
    fn tell_beat<X: Places>(
        &self,
        places: &X,
        beat: &Beat<W>,
        came: u64,
        out: &mut Vec<u8>,
    ) -> Result<bool, AllocError>
        requires { IsWidth W }
        ensures { IfOk result (λ told. told ≡ true → (may : Liberties) (levels : List Level) (complete : Completeness)
            (e : Events W) → KnowsCopy self.now may levels complete e →
            came ≡ length (unfinished channel.C (link_beats self.now.link.0 e)) → out.new.items
            ≡ out.old.items ++ beat_lines (X.names places.now) complete (length levels) self.now.link.0 beat.now e) }
    {
        match beat {
            Beat::A(x) => self.tell_lost_of(places, block_at(x.address), out),
            Beat::C(x) if x.opcode.carries_data() => self.tell_given(places, x, came, out),
            Beat::C(x) => self.tell_lost_of(places, block_at(x.address), out),
            _ => Ok(true),
        }
    }

    /// Appends the lines for a store or a load. Returns true if they are for it.
    fn tell_commit<X: Places>(
        &self,
        places: &X,
        commit: Commit,
        out: &mut Vec<u8>,
    ) -> Result<bool, AllocError>
        requires { IsWidth W }
        ensures { IfOk result (λ told. told ≡ true → (may : Liberties) (levels : List Level) (complete : Completeness)
            (e : Events W) → KnowsCopy self.now may levels complete e → out.new.items
            ≡ out.old.items ++ commit_lines (X.names places.now) complete (length levels) self.now.link.0 commit e) }
    {
        match commit {
            Commit::Load { piece, value } => self.tell_loaded(places, piece, value, out),
            _ => Ok(true),
        }
    }

    /// Appends the lines for an event, if `came` beats of its message came before it. Returns true if they are for it.
    fn tell_event<X: Places>(
        &self,
        places: &X,
        event: &Event<W>,
        came: u64,
        out: &mut Vec<u8>,
    ) -> Result<bool, AllocError>
        requires { IsWidth W }
        ensures { IfOk result (λ told. told ≡ true → (may : Liberties) (levels : List Level) (complete : Completeness)
            (e : Events W) → KnowsCopy self.now may levels complete e →
            came ≡ length (unfinished channel.C (link_beats self.now.link.0 e)) → out.new.items
            ≡ out.old.items ++ event_lines (X.names places.now) complete (length levels) self.now.link.0 event.now e) }
    {
        match event {
            Event::Beat(beat) => self.tell_beat(places, beat, came, out),
            Event::Commit(commit) => self.tell_commit(places, *commit, out),
        }
    }

    /// Appends the lines for the breach of a rule of stores and loads by an event of the link, if `came` beats of its message
    /// came before it, with lines and addresses that are named so. Returns true if they are for it.
    pub fn tell<X: Places>(
        &self,
        places: &X,
        rule: CommitRule,
        event: &Event<W>,
        came: u64,
        out: &mut Vec<u8>,
    ) -> Result<bool, AllocError>
        requires { IsWidth W }
        ensures { IfOk result (λ told. told ≡ true → (may : Liberties) (levels : List Level) (complete : Completeness)
            (e : Events W) → KnowsCopy self.now may levels complete e →
            came ≡ length (unfinished channel.C (link_beats self.now.link.0 e)) → out.new.items
            ≡ out.old.items ++ copy_lines (X.names places.now) rule complete (length levels) self.now.link.0 event.now e) }
    {
        match rule {
            CommitRule::M5 => Ok(true),
            _ => self.tell_event(places, event, came, out),
        }
    }
}
