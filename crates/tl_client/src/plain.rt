//! The client that keeps no copies.

ghost use Rattle.std.specs.Prelude.{ℕ, ◌≡◌, ◌==◌, ◌≤◌, ◌<◌, true, false, is_some, None, IfOk, OnOk, if◌then◌else◌};
ghost use Rattle.tl_params.specs.statement.Refusal.{ok_unless};
ghost use Rattle.tl_beat.specs.statement.Width.{IsWidth, IsWidth-prop};
ghost use Rattle.tl_burst.specs.statement.Messages.{breaks_burst, grown};
ghost use Rattle.tl_burst.specs.statement.Part.{IsTakeable};
ghost use Rattle.tl_rules.specs.statement.History.{is_grant};
ghost use Rattle.tl_rules.specs.statement.Legality.{illegal, has_transfers};
ghost use Rattle.tl_client.specs.statement.Answer.{message_of, verdict_of};
ghost use Rattle.tl_client.specs.code.Lawful.{is_lawful};
ghost use Rattle.tl_client.specs.code.Plain.{order_rule, plain_rule, plain_verdict, ends_request};
ghost use Rattle.tl_client.specs.code.Sources.{open_at};

mod past;

use crate::access::access_in;
use crate::agent::Agent;
use crate::answer::{Answer, tell};
use crate::busy::Busy;
use crate::check::check;
use crate::operation::Op;
use crate::order::broken_in_order;
use crate::reply::Reply;
use crate::request::{Request, start};
use crate::response::{answer_to, complete, goes_on};
use crate::sources::Sources;
use crate::verdict::Verdict;
use std::alloc::Global;
use tl_beat::beat::{Beat, BeatD};
use tl_beat::channel::Channel;
use tl_burst::assembler::Assembler;
use tl_burst::message::{Message, MessageE};
use tl_rules::admission::is_spoiled;
use tl_rules::config::{ClientConfig, NewFault};
use tl_rules::legality::beat::check_beat;
use tl_rules::perm::Perm;
use tl_rules::profile::Profile;
use tl_rules::rule::Rule;

/// A client of level UL or UH. It sends accesses, and holds no block.
#[derive(Drop)]
pub struct Plain<const W: usize> {
    config: ClientConfig,
    blocks: u16,
    /// The profile of its link. It makes no difference to accesses.
    profile: Profile,
    requests: Sources<Request>,
    /// The unfinished response on channel D.
    responses: Assembler<W>,
    /// A beat was refused.
    closed: bool,
    ghost width: { IsWidth W } by { IsWidth-prop W },
    ghost accesses: { has_transfers config.level ≡ false },
    ghost few: { config.sources ≤ 8 },
    ghost lawful: { is_lawful config.level responses ≡ true },
}

impl<const W: usize> Plain<W> {
    ghost use Rattle.tl_client.specs.statement.Endpoint.{Endpoint};
    ghost use Rattle.tl_client.specs.code.KnowsPlain.{IsNewPlain, KnowsPlain, plain_terms};

    /// A new client on this many blocks. The error is N2 if the number of blocks is out of its limits, otherwise N4 if
    /// the number of sources is. It allocates no memory.
    pub fn new(
        _alloc: Global,
        config: ClientConfig,
        blocks: u16,
        profile: Profile,
    ) -> Result<Self, NewFault>
        requires width { IsWidth W }
        requires accesses { has_transfers config.level ≡ false }
        ensures { IsNewPlain config blocks profile result }
    {
        config.check(blocks)?;
        Ok(Plain {
            config,
            blocks,
            profile,
            requests: Sources::new(),
            responses: Assembler::new(),
            closed: false,
        })
    }

    /// Checks a beat of channel D that breaks no L rule. The error is the first other rule that it breaks.
    fn judge_order(&self, beat: &Beat<W>, response: BeatD<W>) -> Result<(), Rule>
        requires response { beat.now ≡ Beat.D response }
        requires takeable { IsTakeable beat.now }
        requires legal { illegal self.now.config.level Channel.D beat.now ≡ None }
        ensures rule { (e : Endpoint W) → KnowsPlain self.now e →
            result ≡ ok_unless (order_rule response.entry (open_at self.now.requests response.entry.source)
            self.now.responses) }
        ensures continues { OnOk result (breaks_burst beat.now self.now.responses ≡ false) }
    {
        let part = self.responses.peek(beat);
        if let Some(rule) = broken_in_order(self.profile, beat, part, self) {
            return Err(rule);
        }
        if is_spoiled(beat) {
            return Err(Rule::A2);
        }
        Ok(())
    }

    /// The first rule that a beat breaks. This client takes beats of channel D alone.
    fn judge(&self, channel: Channel, beat: &Beat<W>) -> Result<(), Rule>
        ensures rule { (e : Endpoint W) → KnowsPlain self.now e →
            result ≡ ok_unless (plain_rule self.now.config.level (open_at self.now.requests) self.now.responses
            self.now.closed channel beat.now) }
        ensures takeable { OnOk result (IsTakeable beat.now) }
        ensures lawful { OnOk result (illegal self.now.config.level Channel.D beat.now ≡ None) }
        ensures continues { OnOk result (breaks_burst beat.now self.now.responses ≡ false) }
    {
        if self.closed {
            return Err(Rule::A3);
        }
        match (channel, beat) {
            (Channel::D, Beat::D(response)) => {
                check_beat(self.config.level, channel, beat)?;
                self.judge_order(beat, *response)
            }
            _ => Err(Rule::L1),
        }
    }

    /// Takes a beat that breaks no rule.
    fn take(&mut self, beat: &Beat<W>, bytes: &mut [u8; 64]) -> Answer
        requires takeable { IsTakeable beat.now }
        requires lawful { illegal self.old.config.level Channel.D beat.now ≡ None }
        requires continues { breaks_burst beat.now self.old.responses ≡ false }
        ensures verdict { verdict_of result bytes.new
            ≡ plain_verdict (open_at self.old.requests) self.old.responses beat.now }
        ensures message { (x : BeatD W) → beat.now ≡ Beat.D x → is_grant x.opcode ≡ false →
            None ≡ message_of {w = W} result bytes.new }
        ensures requests { (s : ℕ) → open_at self.new.requests s ≡
            (if ends_request self.old.responses beat.now s then None else open_at self.old.requests s) }
        ensures responses { self.new.responses ≡ grown beat.now self.old.responses }
        ensures closed { self.new.closed ≡ self.old.closed }
        ensures terms { plain_terms self.new ≡ plain_terms self.old }
    {
        if !complete(&mut self.responses, beat, bytes) {
            return Answer::Taken;
        }
        match beat {
            Beat::D(response) => {
                let request = self.requests.close(response.source);
                answer_to(response, request, bytes)
            }
            _ => Answer::Taken,
        }
    }
}

impl<const W: usize> Agent<W> for Plain<W> {
    ghost use Rattle.tl_client.specs.code.KnowsPlain.{KnowsPlain, plain_terms};
    ghost use Rattle.tl_client.specs.statement.Ask.{asked};
    ghost use Rattle.tl_client.specs.statement.Endpoint.{Endpoint};

    ghost represents = { λ p e. KnowsPlain p e };

    ghost terms = { plain_terms };

    fn ask(&mut self, operation: Op<W>) -> (Reply, Option<Message<W>>)
        ensures reply { (e : Endpoint W) → KnowsPlain self.old e →
            result.0 ≡ (asked (plain_terms self.old) operation.entry e).reply }
        ensures message { (e : Endpoint W) → KnowsPlain self.old e →
            result.1 ≡ (asked (plain_terms self.old) operation.entry e).message }
        ensures after { (e : Endpoint W) → KnowsPlain self.old e →
            KnowsPlain self.new (asked (plain_terms self.old) operation.entry e).after }
        ensures terms { plain_terms self.new ≡ plain_terms self.old }
    {
        let mut message = Message::E(MessageE { sink: 0 });
        let reply = self.ask_into(&operation, &mut message);
        (reply, reply.handed(message))
    }

    fn offer(
        &mut self,
        channel: Channel,
        beat: &Beat<W>,
    ) -> Result<(Verdict, Option<Message<W>>), Rule> {
        let mut bytes = [0; 64];
        let answer = self.offer_into(channel, beat, &mut bytes);
        tell(answer, &bytes)
    }

    fn ask_into(&mut self, operation: &Op<W>, message: &mut Message<W>) -> Reply {
        if let Some(busy) = check(self.config.level, self.blocks, operation) {
            return Reply::Busy(busy);
        }
        match access_in(operation) {
            Some(access) => start(&mut self.requests, self.config.sources, access, message),
            None => Reply::Busy(Busy::B4),
        }
    }

    fn ask_load(&mut self, _address: u32, _size: u8) -> Reply {
        Reply::Busy(Busy::B4)
    }

    fn ask_store(&mut self, _address: u32, _size: u8, _value: u64) -> Reply {
        Reply::Busy(Busy::B4)
    }

    fn offer_into(
        &mut self,
        channel: Channel,
        beat: &Beat<W>,
        bytes: &mut [u8; 64],
    ) -> Result<Answer, Rule> {
        match self.judge(channel, beat) {
            Err(rule) => {
                self.closed = true;
                Err(rule)
            }
            Ok(()) => Ok(self.take(beat, bytes)),
        }
    }

    fn goes_on(&mut self, channel: Channel, beat: &Beat<W>) -> bool {
        match (channel, beat) {
            (Channel::D, Beat::D(response)) => {
                goes_on(self.closed, &mut self.responses, beat, response)
            }
            _ => false,
        }
    }

    fn stalls(&self, _channel: Channel, _beat: &Beat<W>) -> bool {
        false
    }

    fn held(&self, _block: u16) -> Perm {
        Perm::None
    }

    fn copy(&self, _block: u16) -> Option<[u8; 64]> {
        None
    }

    fn closed(&self) -> bool {
        self.closed
    }
}
