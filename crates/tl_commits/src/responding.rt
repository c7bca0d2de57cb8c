//! Questions to a judge about the bytes of responses.

ghost use Rattle.std.specs.Prelude.{List, find, is_some, length, not, IfOk, ◌≡◌};
ghost use Rattle.tl_beat.specs.declared.beat.Beat.TheVariants as beat;
ghost use Rattle.tl_beat.specs.declared.opcode.OpD.TheVariants as d;
ghost use Rattle.tl_beat.specs.statement.Width.{IsWidth};
ghost use Rattle.tl_bytes.specs.statement.Bytes.{is_of, pending_accesses};
ghost use Rattle.tl_memory.specs.statement.Links.{KeepsRules};
ghost use Rattle.tl_params.specs.declared.level.Level.{Level};
ghost use Rattle.tl_params.specs.declared.liberties.Liberties.{Liberties};
ghost use Rattle.tl_rules.specs.statement.Liberties.{broken_on_link_under};
ghost use Rattle.tl_rules.specs.statement.OpenMessages.{open_request};
ghost use Rattle.tl_commits.specs.code.Judging as code;
ghost use Rattle.tl_commits.specs.statement.Completeness.{Completeness};
ghost use Rattle.tl_commits.specs.statement.Copies.{link_beats};
ghost use Rattle.tl_commits.specs.statement.Events.{Events, beats_of};

use crate::judge::CommitJudge;
use crate::readings::answer_bytes;
use std::alloc::AllocError;
use tl_beat::beat::{Beat, BeatD, Link};
use tl_memory::byte_set::ByteSet;
use tl_together::breach::Breach;

/// The values that the bytes of a response may have.
#[derive(Clone, Copy)]
pub struct ResponseBytes {
    /// The block.
    pub block: u32,
    /// The place in it of the first byte that the response's next beat brings.
    pub first: usize,
    /// For each byte of the block the values that it may have by that beat.
    pub sets: [ByteSet; 64],
}

/// Whether it is the breach of a rule of a link.
fn is_of_link(breach: Option<Breach>) -> bool
    ensures { result ≡ code.is_of_link breach }
{
    matches!(breach, Some(Breach::OfLink(_)))
}

impl<const W: usize> CommitJudge<W> {
    ghost use Rattle.tl_commits.specs.statement.Knows.{KnowsCommits};
    ghost use Rattle.tl_commits.specs.code.Responding.{AreAnswered, AreGranted};

    /// Whether a beat breaks no rule of its link. The error means that there is no memory left. All that is known stays true.
    pub fn keeps_rules(&mut self, link: Link, beat: &Beat<W>) -> Result<bool, AllocError>
        requires { IsWidth W }
        ensures keeps { IfOk result (λ keeps. (levels : List Level) (complete : Completeness) (l : Liberties)
            (e : Events W) → KnowsCommits self.old levels complete l e →
            keeps ≡ not (is_some (broken_on_link_under l levels (link, beat.now) (beats_of e)))) }
        ensures knows { (levels : List Level) (complete : Completeness) (l : Liberties) (e : Events W) →
            KnowsCommits self.old levels complete l e → KnowsCommits self.new levels complete l e }
    {
        match self.judge.broken(link, beat) {
            Ok(breach) => Ok(!is_of_link(breach)),
            Err(_) => Err(AllocError),
        }
    }

    /// The values that the bytes of a GrantData may have by this beat, if it answers a request. The error means that there is
    /// no memory left. All that is known stays true.
    pub fn granted(&mut self, link: Link, x: &BeatD<W>) -> Result<Option<ResponseBytes>, AllocError>
        requires { IsWidth W }
        ensures granted { IfOk result (λ bytes. (levels : List Level) (complete : Completeness) (l : Liberties)
            (e : Events W) → KnowsCommits self.old levels complete l e →
            KeepsRules l levels (link, beat.D x.now) (beats_of e) → x.now.opcode ≡ d.GrantData →
            AreGranted bytes complete (length levels) link.0
            (open_request x.now.source (link_beats link.0 e)) e) }
        ensures knows { (levels : List Level) (complete : Completeness) (l : Liberties) (e : Events W) →
            KnowsCommits self.old levels complete l e → KnowsCommits self.new levels complete l e }
    {
        self.meet(link, &Beat::D(*x))?;
        let Some(asked) = self.judge.request(link, x.source) else {
            return Ok(None);
        };
        match self.grants.get(usize::from(link.0)) {
            None => Ok(None),
            Some(granted) => Ok(Some(ResponseBytes {
                block: asked.block,
                first: W.saturating_mul(self.judge.beats_come(link)),
                sets: granted.sets(),
            })),
        }
    }

    /// The values that the bytes of an AccessAckData may have by this beat, if it answers a pending access.
    pub fn answered(&self, link: Link, x: &BeatD<W>) -> Option<ResponseBytes>
        requires { IsWidth W }
        ensures { (levels : List Level) (complete : Completeness) (l : Liberties) (e : Events W) →
            KnowsCommits self.now levels complete l e →
            KeepsRules l levels (link, beat.D x.now) (beats_of e) → x.now.opcode ≡ d.AccessAckData →
            AreAnswered result complete (length levels) link.0
            (find (is_of link.0 x.now.source) (pending_accesses (beats_of e))) e }
    {
        answer_bytes(&self.judge, &self.readings, link, x)
    }
}
