//! Lists the bytes of a response that it can't have.

ghost use Rattle.std.specs.Prelude.{ℕ, Bool, List, true, length, slice_index_or, ◌<◌, ◌≡◌, ◌++◌, IfOk, IfSome};
ghost use Rattle.tl_beat.specs.statement.Width.{IsWidth};
ghost use Rattle.tl_commits.specs.statement.Completeness.{Completeness};
ghost use Rattle.tl_commits.specs.statement.Events.{Events};
ghost use Rattle.tl_commits.specs.code.Responding.{AreBytes};
ghost use Rattle.tl_evidence.specs.code.Responding.{AreOf};
ghost use Rattle.tl_evidence.specs.statement.CopyLines.{set_in_copy};
ghost use Rattle.tl_evidence.specs.statement.ResponseLines.{response_lines};
ghost use Rattle.tl_params.specs.declared.level.Level.{Level};
ghost use Rattle.tl_params.specs.declared.liberties.Liberties.{Liberties};
ghost use Rattle.tl_witness.specs.statement.Strays.{strays_text};

use crate::copy_lines::BYTES;
use crate::copy_record::CopyRecord;
use crate::possible::Allowed;
use crate::strays::tell_lanes;
use std::alloc::AllocError;
use tl_beat::beat::{Beat, BeatD};
use tl_beat::opcode::OpD;
use tl_commits::responding::ResponseBytes;
use tl_memory::byte_set::ByteSet;
use tl_witness::places::Places;

/// It is below 256.
fn prove_byte(byte: u8)
    ensures { byte < 256 }
{
    let _byte = byte;
}

/// Each lane is a byte.
fn prove_bytes<const W: usize>(lanes: &[u8; W])
    ensures { (i : ℕ) → i < W → slice_index_or lanes.now i 0 < 256 }
{
    for lane in 0..W {
        prove_byte(lanes[lane]);
    }
}

impl<const W: usize> CopyRecord<W> {
    ghost use Rattle.tl_evidence.specs.code.Following.{KnowsCopy};

    /// The values that the bytes of a response of the link may have by a beat. None unless M2 or M3 judges it, and the beat
    /// breaks no rule of its link. All that is known stays true.
    fn response_bytes(&mut self, x: &BeatD<W>) -> Result<Option<ResponseBytes>, AllocError>
        requires { IsWidth W }
        ensures link { self.new.link ≡ self.old.link }
        ensures knows { (may : Liberties) (levels : List Level) (complete : Completeness) (e : Events W) →
            KnowsCopy self.old may levels complete e → KnowsCopy self.new may levels complete e }
        ensures bytes { IfOk result (λ bytes. IfSome bytes (λ b. (may : Liberties) (levels : List Level)
            (complete : Completeness) (e : Events W) → KnowsCopy self.old may levels complete e →
            AreOf b x.now.opcode complete (length levels) self.old.link.0 x.now e)) }
    {
        if !self.judge.keeps_rules(self.link, &Beat::D(*x))? {
            return Ok(None);
        }
        match x.opcode {
            OpD::GrantData => self.judge.granted(self.link, x),
            OpD::AccessAckData => Ok(self.judge.answered(self.link, x)),
            _ => Ok(None),
        }
    }

    /// Appends the lines of the bytes of a beat that it can't have, from a place on, by these values. Returns true if the block
    /// has room for them.
    fn tell_bytes<X: Places>(
        &self,
        places: &X,
        first: usize,
        sets: &[ByteSet; 64],
        lanes: &[u8; W],
        out: &mut Vec<u8>,
    ) -> Result<bool, AllocError>
        ensures { IfOk result (λ told. told ≡ true → (from : ℕ) (test : ℕ → ℕ → Bool) →
            AreBytes (record { block = self.now.block; first = first; sets = sets.now }) W from test →
            (may : Liberties) (levels : List Level) (complete : Completeness) (e : Events W) →
            KnowsCopy self.now may levels complete e → out.new.items ≡ out.old.items
            ++ strays_text (X.names places.now) test (set_in_copy complete (length levels) self.now.link.0 e) 0 from
            lanes.now) }
    {
        prove_bytes(lanes);
        if first.saturating_add(W) > usize::from(BYTES) {
            return Ok(false);
        }
        let values = Allowed {
            first: 0,
            sets,
            possible: self.possible(&self.copy),
        };
        tell_lanes(places, &values, first, lanes, out)?;
        Ok(true)
    }

    /// The same, if they are of this block. Returns true if they are.
    fn tell_bytes_of<X: Places>(
        &self,
        places: &X,
        bytes: &ResponseBytes,
        lanes: &[u8; W],
        out: &mut Vec<u8>,
    ) -> Result<bool, AllocError>
        ensures { IfOk result (λ told. told ≡ true → (from : ℕ) (test : ℕ → ℕ → Bool) → AreBytes bytes.now W from test →
            (may : Liberties) (levels : List Level) (complete : Completeness) (e : Events W) →
            KnowsCopy self.now may levels complete e → out.new.items ≡ out.old.items
            ++ strays_text (X.names places.now) test (set_in_copy complete (length levels) self.now.link.0 e) 0 from
            lanes.now) }
    {
        if bytes.block != self.block {
            return Ok(false);
        }
        self.tell_bytes(places, bytes.first, &bytes.sets, lanes, out)
    }

    /// Appends the lines for the breach of M2 or M3 by a beat of a response of the link, with lines and addresses that are
    /// named so. Returns true if they are for it. All that is known stays true.
    pub fn tell_response<X: Places>(
        &mut self,
        places: &X,
        x: &BeatD<W>,
        out: &mut Vec<u8>,
    ) -> Result<bool, AllocError>
        requires { IsWidth W }
        ensures knows { (may : Liberties) (levels : List Level) (complete : Completeness) (e : Events W) →
            KnowsCopy self.old may levels complete e → KnowsCopy self.new may levels complete e }
        ensures tells { IfOk result (λ told. told ≡ true → (may : Liberties) (levels : List Level)
            (complete : Completeness) (e : Events W) → KnowsCopy self.old may levels complete e → out.new.items
            ≡ out.old.items ++ response_lines (X.names places.now) complete (length levels) self.old.link.0 x.now e) }
    {
        let Some(bytes) = self.response_bytes(x)? else {
            return Ok(false);
        };
        match &x.lanes {
            None => Ok(false),
            Some(lanes) => self.tell_bytes_of(places, &bytes, lanes, out),
        }
    }
}
