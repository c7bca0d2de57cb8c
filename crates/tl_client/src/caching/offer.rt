//! The rules by which a caching client judges a beat.

ghost use Rattle.std.specs.Prelude.{◌≡◌, false, None, Ok, OnOk};
ghost use Rattle.tl_params.specs.statement.Refusal.{ok_unless};
ghost use Rattle.tl_beat.specs.declared.beat.BeatD.{BeatD};
ghost use Rattle.tl_beat.specs.declared.channel.Channel.{Channel};
ghost use Rattle.tl_burst.specs.statement.Messages.{breaks_burst};
ghost use Rattle.tl_burst.specs.statement.Part.{IsTakeable};
ghost use Rattle.tl_client.specs.statement.Endpoint.{Endpoint};
ghost use Rattle.tl_client.specs.code.KnowsCaching.{KnowsCaching, caching_terms};
ghost use Rattle.tl_client.specs.statement.Answer.{told};
ghost use Rattle.tl_client.specs.statement.Offer;
ghost use Rattle.tl_client.specs.code.Takes.{IsJudged, Takes};
ghost use Rattle.tl_rules.specs.statement.Admission;
ghost use Rattle.tl_rules.specs.statement.Conformance;
ghost use Rattle.tl_rules.specs.statement.Legality.{illegal};

use super::Caching;
use crate::answer::Answer;
use crate::order::{broken_in_order, check_alone};
use crate::release::is_releasing;
use tl_beat::beat::Beat;
use tl_beat::channel::Channel;
use tl_rules::admission::{is_outside, is_spoiled};
use tl_rules::key::block_at;
use tl_rules::kind::is_probe;
use tl_rules::order::broken_order;
use tl_rules::rule::Rule;

impl<const W: usize> Caching<W> {
    /// Whether a Probe is stalled, since a Release of its block is pending.
    pub(super) fn waits(&self, beat: &Beat<W>) -> bool
        ensures { (e : Endpoint W) → KnowsCaching self.now e → result ≡ Offer.waits beat.now e.past }
    {
        match beat {
            Beat::B(probe) => {
                is_probe(probe.opcode) && is_releasing(&self.releases, block_at(probe.address))
            }
            _ => false,
        }
    }

    /// The S or H rule that a beat breaks.
    fn broken_in_order(&self, beat: &Beat<W>) -> Option<Rule>
        requires { IsTakeable beat.now }
        ensures rule { (e : Endpoint W) → KnowsCaching self.now e →
            result ≡ Conformance.broken_in_order self.now.profile beat.now e.past }
        ensures continues { (x : BeatD W) → beat.now ≡ Beat.D x → result ≡ None →
            breaks_burst beat.now self.now.responses ≡ false }
    {
        match beat {
            Beat::D(_) => broken_in_order(self.profile, beat, self.responses.peek(beat), self),
            _ => broken_order(self.profile, beat, self),
        }
    }

    /// Checks a beat that breaks none of the rules before a stall. The error is the first of S1, the H rules, A1 and A2
    /// that it breaks.
    pub(super) fn check_order(&self, beat: &Beat<W>) -> Result<(), Rule>
        requires { IsTakeable beat.now }
        ensures rule { (e : Endpoint W) → KnowsCaching self.now e →
            result ≡ ok_unless (Offer.broken_later (caching_terms self.now) beat.now e) }
        ensures inside { OnOk result (Admission.is_outside self.now.blocks beat.now ≡ false) }
        ensures continues { (x : BeatD W) → beat.now ≡ Beat.D x →
            OnOk result (breaks_burst beat.now self.now.responses ≡ false) }
    {
        if let Some(rule) = self.broken_in_order(beat) {
            return Err(rule);
        }
        if is_outside(usize::from(self.blocks), beat) {
            return Err(Rule::A1);
        }
        if is_spoiled(beat) {
            return Err(Rule::A2);
        }
        Ok(())
    }

    /// Whether a beat is stalled. The error is the first rule that it breaks.
    pub(super) fn judge(&self, channel: Channel, beat: &Beat<W>) -> Result<bool, Rule>
        ensures judged { (e : Endpoint W) → KnowsCaching self.now e →
            IsJudged (caching_terms self.now) channel beat.now e result }
        ensures takeable { result ≡ Ok false → IsTakeable beat.now }
        ensures lawful { result ≡ Ok false → (x : BeatD W) → beat.now ≡ Beat.D x →
            illegal self.now.config.level Channel.D beat.now ≡ None }
        ensures inside { result ≡ Ok false → Admission.is_outside self.now.blocks beat.now ≡ false }
        ensures continues { result ≡ Ok false → (x : BeatD W) → beat.now ≡ Beat.D x →
            breaks_burst beat.now self.now.responses ≡ false }
    {
        check_alone(self.closed, self.config.level, channel, beat)?;
        if self.waits(beat) {
            return Ok(true);
        }
        self.check_order(beat)?;
        Ok(false)
    }

    /// Takes a beat that breaks no rule.
    pub(super) fn take(&mut self, beat: &Beat<W>, bytes: &mut [u8; 64]) -> Answer
        requires takeable { IsTakeable beat.now }
        requires lawful { (x : BeatD W) → beat.now ≡ Beat.D x →
            illegal self.old.config.level Channel.D beat.now ≡ None }
        requires inside { Admission.is_outside self.old.blocks beat.now ≡ false }
        requires continues { (x : BeatD W) → beat.now ≡ Beat.D x → breaks_burst beat.now self.old.responses ≡ false }
        ensures taken { Takes self.old self.new beat.now (told result bytes.new) }
        ensures terms { caching_terms self.new ≡ caching_terms self.old }
    {
        match beat {
            Beat::B(probe) => self.probe(probe, bytes),
            Beat::D(response) => self.respond(beat, response, bytes),
            _ => Answer::Taken,
        }
    }
}
