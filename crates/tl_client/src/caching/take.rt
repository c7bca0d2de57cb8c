//! The effect of the beats that a caching client takes.

ghost use Rattle.std.specs.Prelude.{◌≡◌, ◌<◌, ◌≤◌, ◌/◌, true, false, None};
ghost use Rattle.std.specs.Bool.{OnTrue, OnFalse};
ghost use Rattle.tl_beat.specs.declared.channel.Channel.TheVariants as channel;
ghost use Rattle.tl_burst.specs.declared.message.Message.TheVariants as message;
ghost use Rattle.tl_burst.specs.statement.Messages.{breaks_burst};
ghost use Rattle.tl_burst.specs.statement.Part.{IsTakeable, completes, is_middle, part_of};
ghost use Rattle.tl_client.specs.declared.verdict.Verdict.TheVariants.{Taken};
ghost use Rattle.tl_client.specs.code.KnowsCaching.{caching_terms};
ghost use Rattle.tl_client.specs.statement.Answer.{told};
ghost use Rattle.tl_client.specs.statement.Offer;
ghost use Rattle.tl_client.specs.code.Takes.{Probes, Grants, Finishes, GrantsInside};
ghost use Rattle.tl_client.specs.code.Takes.{Goes, Ends, granting_by};
ghost use Rattle.tl_client.specs.code.Response.{with_payload, in_beats};
ghost use Rattle.tl_rules.specs.statement.Admission;
ghost use Rattle.tl_rules.specs.statement.History.{is_grant};
ghost use Rattle.tl_rules.specs.statement.Legality.{illegal};

use super::{Caching, Granting};
use crate::answer::{Answer, Ending};
use crate::request::Request;
use crate::response::{answer_to, complete, goes_on};
use tl_beat::beat::{Beat, BeatB, BeatD};
use tl_beat::opcode::{OpA, OpD};
use tl_rules::key::block_at;
use tl_rules::kind::{capped, is_grant, is_release_ack};
use tl_rules::param::{Cap, Report};
use tl_rules::perm::Perm;
use tl_rules::report::report_of;

/// The report that answers a Probe while `perm` is held.
fn report_for<const W: usize>(probe: &BeatB<W>, perm: Perm) -> Report
    ensures { result ≡ Offer.report_for probe.now perm }
{
    let cap = match Cap::from_param(probe.param) {
        Some(cap) => cap,
        None => Cap::ToN,
    };
    report_of(cap, perm)
}

impl<const W: usize> Caching<W> {
    /// Answers a Probe at once. The permission held is then that of the report.
    pub(super) fn probe(&mut self, probe: &BeatB<W>, bytes: &mut [u8; 64]) -> Answer
        requires inside { probe.now.address / 64 < self.old.blocks }
        ensures { Probes self.old self.new probe.now (told result bytes.new) }
    {
        let block = block_at(probe.address);
        let held = self.table.held(block);
        let report = report_for(probe, held);
        *bytes = self.bytes(block);
        self.table.lower(block, report.right());
        Answer::Probed {
            opcode: probe.opcode,
            held,
            report,
            address: probe.address,
        }
    }

    /// Takes the permission and the data of a Grant that answers this request.
    fn grant(&mut self, grant: &BeatD<W>, payload: &[u8; 64], request: Request)
        requires { is_grant grant.now.opcode ≡ true }
        ensures { Grants self.old self.new (with_payload grant.now payload.now) request }
    {
        let block = block_at(request.address);
        self.table.hold(block, capped(grant.param));
        if grant.opcode == OpD::GrantData {
            self.table.set_copy(block, Some(*payload));
        } else if request.opcode == OpA::AcquirePerm {
            self.table.store_waiting(block);
        }
    }

    /// Closes the request or Release that a complete response answers, and hands out the GrantAck of a Grant.
    fn finish(&mut self, response: &BeatD<W>, bytes: &mut [u8; 64]) -> Answer
        requires { response.now.size ≤ 6 }
        ensures finished { GrantsInside self.old (with_payload response.now bytes.old) →
            Finishes self.old self.new (with_payload response.now bytes.old) (told result bytes.new) }
        ensures terms { caching_terms self.new ≡ caching_terms self.old }
        ensures responses { self.new.responses ≡ self.old.responses }
        ensures granting { self.new.granting ≡ self.old.granting }
    {
        if is_release_ack(response.opcode) {
            self.releases.close(response.source);
            return Answer::Ended {
                source: response.source,
                ending: Ending::Released,
            };
        }
        let request = self.requests.close(response.source);
        match request {
            Some(request) if is_grant(response.opcode) => self.grant(response, bytes, request),
            _ => {}
        }
        answer_to(response, request, bytes)
    }

    /// The unfinished Grant after this beat, if there is one.
    fn granting_by(&self, response: &BeatD<W>) -> Option<Granting>
        ensures { result ≡ granting_by self.now response.now }
    {
        if !is_grant(response.opcode) {
            return None;
        }
        match self.requests.at(response.source) {
            None => None,
            Some(request) => Some(Granting {
                block: block_at(request.address),
                sink: response.sink,
            }),
        }
    }

    /// Takes a beat of a response.
    pub(super) fn respond(
        &mut self,
        beat: &Beat<W>,
        response: &BeatD<W>,
        bytes: &mut [u8; 64],
    ) -> Answer
        requires response { beat.now ≡ Beat.D response.now }
        requires takeable { IsTakeable beat.now }
        requires lawful { illegal self.old.config.level channel.D beat.now ≡ None }
        requires continues { breaks_burst beat.now self.old.responses ≡ false }
        ensures goes { completes (Beat.D response.now) self.old.responses ≡ false →
            Goes self.old self.new response.now (told result bytes.new) }
        ensures ends { completes (Beat.D response.now) self.old.responses ≡ true →
            GrantsInside self.old (in_beats response.now self.old.responses) →
            Ends self.old self.new response.now (told result bytes.new) }
        ensures terms { caching_terms self.new ≡ caching_terms self.old }
    {
        if !complete(&mut self.responses, beat, bytes) {
            self.granting = self.granting_by(response);
            return Answer::Taken;
        }
        self.granting = None;
        self.finish(response, bytes)
    }

    /// Takes a beat that continues a response, doesn't complete it and is neither corrupt nor denied, and returns
    /// whether it did.
    pub(super) fn grows(&mut self, beat: &Beat<W>, response: &BeatD<W>) -> bool
        requires response { beat.now ≡ Beat.D response.now }
        ensures live { OnTrue result (self.old.closed ≡ false) }
        ensures lawful { OnTrue result (illegal self.old.config.level channel.D beat.now ≡ None) }
        ensures clean { OnTrue result (Admission.is_spoiled beat.now ≡ false) }
        ensures middle { OnTrue result (is_middle (part_of beat.now self.old.responses) ≡ true) }
        ensures goes { OnTrue result (Goes self.old self.new response.now (Taken, None)) }
        ensures unchanged { OnFalse result (self.new ≡ self.old) }
    {
        if !goes_on(self.closed, &mut self.responses, beat, response) {
            return false;
        }
        self.granting = self.granting_by(response);
        true
    }
}
