//! The client that keeps copies of blocks.

ghost use Rattle.std.specs.Prelude.{ℕ, ◌≡◌, ◌≤◌, true, length, OnOk};
ghost use Rattle.tl_beat.specs.statement.Width.{IsWidth, IsWidth-prop};
ghost use Rattle.tl_client.specs.code.Lawful.{is_lawful};
ghost use Rattle.tl_rules.specs.statement.Legality.{has_transfers};

mod ask;
mod offer;
mod past;
mod table;
mod take;

use crate::agent::Agent;
use crate::answer::{Answer, tell};
use crate::check::check_word;
use crate::operation::Op;
use crate::order::check_alone;
use crate::release::Release;
use crate::reply::Reply;
use crate::request::Request;
use crate::sources::Sources;
use crate::verdict::Verdict;
use std::alloc::Global;
use table::Table;
use tl_beat::beat::Beat;
use tl_beat::channel::Channel;
use tl_burst::assembler::Assembler;
use tl_burst::message::{Message, MessageE};
use tl_rules::config::{ClientConfig, NewFault};
use tl_rules::perm::Perm;
use tl_rules::profile::Profile;
use tl_rules::rule::Rule;

/// A Grant whose first beat has come and whose last hasn't.
#[derive(Clone, Copy)]
struct Granting {
    block: u32,
    sink: u8,
}

/// A client of level C. It sends accesses and transfers, and keeps copies of blocks.
#[derive(Drop)]
pub struct Caching<const W: usize> {
    config: ClientConfig,
    blocks: u16,
    /// The profile of its link.
    profile: Profile,
    table: Table,
    requests: Sources<Request>,
    releases: Sources<Release>,
    /// The unfinished response on channel D.
    responses: Assembler<W>,
    /// The unfinished Grant on channel D.
    granting: Option<Granting>,
    /// A beat was refused.
    closed: bool,
    ghost width: { IsWidth W } by { IsWidth-prop W },
    ghost transfers: { has_transfers config.level ≡ true },
    ghost few: { config.sources ≤ 8 },
    ghost sized: { length table.blocks.items ≡ blocks },
    ghost lawful: { is_lawful config.level responses ≡ true },
}

impl<const W: usize> Caching<W> {
    ghost use Rattle.tl_client.specs.code.KnowsCaching.{IsNewCaching};

    /// A new client on this many blocks. The error is N2 if the number of blocks is out of its limits, otherwise N4 if
    /// the number of sources is, or `Memory`. No other call allocates memory.
    pub fn new(
        alloc: Global,
        config: ClientConfig,
        blocks: u16,
        profile: Profile,
    ) -> Result<Self, NewFault>
        requires width { IsWidth W }
        requires transfers { has_transfers config.level ≡ true }
        ensures { IsNewCaching config blocks profile result }
    {
        config.check(blocks)?;
        Ok(Caching {
            config,
            blocks,
            profile,
            table: Table::new(alloc, blocks)?,
            requests: Sources::new(),
            releases: Sources::new(),
            responses: Assembler::new(),
            granting: None,
            closed: false,
        })
    }
}

impl<const W: usize> Agent<W> for Caching<W> {
    ghost use Rattle.tl_client.specs.code.KnowsCaching.{KnowsCaching, caching_terms};
    ghost use Rattle.tl_client.specs.statement.Ask.{asked};
    ghost use Rattle.tl_client.specs.statement.Endpoint.{Endpoint};

    ghost represents = { λ c e. KnowsCaching c e };

    ghost terms = { caching_terms };

    fn ask(&mut self, operation: Op<W>) -> (Reply, Option<Message<W>>)
        ensures reply { (e : Endpoint W) → KnowsCaching self.old e →
            result.0 ≡ (asked (caching_terms self.old) operation.entry e).reply }
        ensures message { (e : Endpoint W) → KnowsCaching self.old e →
            result.1 ≡ (asked (caching_terms self.old) operation.entry e).message }
        ensures after { (e : Endpoint W) → KnowsCaching self.old e →
            KnowsCaching self.new (asked (caching_terms self.old) operation.entry e).after }
        ensures terms { caching_terms self.new ≡ caching_terms self.old }
    {
        let mut message = Message::E(MessageE { sink: 0 });
        let reply = self.ask_into(&operation, &mut message);
        (reply, reply.handed(message))
    }

    fn offer(
        &mut self,
        channel: Channel,
        beat: &Beat<W>,
    ) -> Result<(Verdict, Option<Message<W>>), Rule> {
        let mut bytes = [0; 64];
        let answer = self.offer_into(channel, beat, &mut bytes);
        tell(answer, &bytes)
    }

    fn ask_into(&mut self, operation: &Op<W>, message: &mut Message<W>) -> Reply {
        match self.busy(operation) {
            Some(busy) => Reply::Busy(busy),
            None => self.begin(operation, message),
        }
    }

    fn ask_load(&mut self, address: u32, size: u8) -> Reply {
        match check_word(self.config.level, self.blocks, address, size) {
            Some(busy) => Reply::Busy(busy),
            None => self.load(address, size),
        }
    }

    fn ask_store(&mut self, address: u32, size: u8, value: u64) -> Reply {
        match check_word(self.config.level, self.blocks, address, size) {
            Some(busy) => Reply::Busy(busy),
            None => self.store(address, size, value),
        }
    }

    fn offer_into(
        &mut self,
        channel: Channel,
        beat: &Beat<W>,
        bytes: &mut [u8; 64],
    ) -> Result<Answer, Rule> {
        match self.judge(channel, beat) {
            Err(rule) => {
                self.closed = true;
                Err(rule)
            }
            Ok(true) => Ok(Answer::Stalled),
            Ok(false) => Ok(self.take(beat, bytes)),
        }
    }

    fn goes_on(&mut self, channel: Channel, beat: &Beat<W>) -> bool {
        match (channel, beat) {
            (Channel::D, Beat::D(response)) => self.grows(beat, response),
            _ => false,
        }
    }

    fn stalls(&self, channel: Channel, beat: &Beat<W>) -> bool {
        self.waits(beat) && check_alone(self.closed, self.config.level, channel, beat).is_ok()
    }

    fn held(&self, block: u16) -> Perm {
        self.table.held(u32::from(block))
    }

    fn copy(&self, block: u16) -> Option<[u8; 64]> {
        self.table.copy(u32::from(block))
    }

    fn closed(&self) -> bool {
        self.closed
    }
}
