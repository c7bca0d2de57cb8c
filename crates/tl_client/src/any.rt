//! A client of any level.

ghost use Rattle.std.specs.Prelude.{◌≡◌};
ghost use Rattle.tl_beat.specs.statement.Width.{IsWidth};

use crate::agent::Agent;
use crate::answer::Answer;
use crate::caching::Caching;
use crate::operation::Op;
use crate::plain::Plain;
use crate::reply::Reply;
use crate::verdict::Verdict;
use std::alloc::Global;
use tl_beat::beat::Beat;
use tl_beat::channel::Channel;
use tl_burst::message::Message;
use tl_rules::config::{ClientConfig, NewFault};
use tl_rules::level::Level;
use tl_rules::perm::Perm;
use tl_rules::profile::Profile;
use tl_rules::rule::Rule;

/// A client of any level. One of level C keeps copies.
#[derive(Drop)]
pub enum AnyClient<const W: usize> {
    Caching(Caching<W>),
    Plain(Plain<W>),
}

impl<const W: usize> AnyClient<W> {
    ghost use Rattle.tl_client.specs.code.KnowsAny.{IsNewAny};

    /// A new client of the level of its configuration, on this many blocks. The error is N2 if the number of blocks is
    /// out of its limits, otherwise N4 if the number of sources is, or at level C `Memory`. A plain client allocates no
    /// memory.
    pub fn new(
        alloc: Global,
        config: ClientConfig,
        blocks: u16,
        profile: Profile,
    ) -> Result<Self, NewFault>
        requires { IsWidth W }
        ensures { IsNewAny config blocks profile result }
    {
        match config.level {
            Level::C => {
                let client = Caching::new(alloc, config, blocks, profile)?;
                Ok(AnyClient::Caching(client))
            }
            Level::UL | Level::UH => {
                let client = Plain::new(alloc, config, blocks, profile)?;
                Ok(AnyClient::Plain(client))
            }
        }
    }
}

impl<const W: usize> Agent<W> for AnyClient<W> {
    ghost use Rattle.tl_client.specs.code.KnowsAny.{KnowsAny, any_terms};
    ghost use Rattle.tl_client.specs.statement.Ask.{asked};
    ghost use Rattle.tl_client.specs.statement.Endpoint.{Endpoint};

    ghost represents = { λ c e. KnowsAny c e };

    ghost terms = { any_terms };

    fn ask(&mut self, operation: Op<W>) -> (Reply, Option<Message<W>>)
        ensures reply { (e : Endpoint W) → KnowsAny self.old e →
            result.0 ≡ (asked (any_terms self.old) operation.entry e).reply }
        ensures message { (e : Endpoint W) → KnowsAny self.old e →
            result.1 ≡ (asked (any_terms self.old) operation.entry e).message }
        ensures after { (e : Endpoint W) → KnowsAny self.old e →
            KnowsAny self.new (asked (any_terms self.old) operation.entry e).after }
        ensures terms { any_terms self.new ≡ any_terms self.old }
    {
        match self {
            AnyClient::Caching(client) => client.ask(operation),
            AnyClient::Plain(client) => client.ask(operation),
        }
    }

    fn offer(
        &mut self,
        channel: Channel,
        beat: &Beat<W>,
    ) -> Result<(Verdict, Option<Message<W>>), Rule> {
        match self {
            AnyClient::Caching(client) => client.offer(channel, beat),
            AnyClient::Plain(client) => client.offer(channel, beat),
        }
    }

    fn ask_into(&mut self, operation: &Op<W>, message: &mut Message<W>) -> Reply {
        match self {
            AnyClient::Caching(client) => client.ask_into(operation, message),
            AnyClient::Plain(client) => client.ask_into(operation, message),
        }
    }

    fn ask_load(&mut self, address: u32, size: u8) -> Reply {
        match self {
            AnyClient::Caching(client) => client.ask_load(address, size),
            AnyClient::Plain(client) => client.ask_load(address, size),
        }
    }

    fn ask_store(&mut self, address: u32, size: u8, value: u64) -> Reply {
        match self {
            AnyClient::Caching(client) => client.ask_store(address, size, value),
            AnyClient::Plain(client) => client.ask_store(address, size, value),
        }
    }

    fn offer_into(
        &mut self,
        channel: Channel,
        beat: &Beat<W>,
        bytes: &mut [u8; 64],
    ) -> Result<Answer, Rule> {
        match self {
            AnyClient::Caching(client) => client.offer_into(channel, beat, bytes),
            AnyClient::Plain(client) => client.offer_into(channel, beat, bytes),
        }
    }

    fn goes_on(&mut self, channel: Channel, beat: &Beat<W>) -> bool {
        match self {
            AnyClient::Caching(client) => client.goes_on(channel, beat),
            AnyClient::Plain(client) => client.goes_on(channel, beat),
        }
    }

    fn stalls(&self, channel: Channel, beat: &Beat<W>) -> bool {
        match self {
            AnyClient::Caching(client) => client.stalls(channel, beat),
            AnyClient::Plain(client) => client.stalls(channel, beat),
        }
    }

    fn held(&self, block: u16) -> Perm {
        match self {
            AnyClient::Caching(client) => client.held(block),
            AnyClient::Plain(client) => client.held(block),
        }
    }

    fn copy(&self, block: u16) -> Option<[u8; 64]> {
        match self {
            AnyClient::Caching(client) => client.copy(block),
            AnyClient::Plain(client) => client.copy(block),
        }
    }

    fn closed(&self) -> bool {
        match self {
            AnyClient::Caching(client) => client.closed(),
            AnyClient::Plain(client) => client.closed(),
        }
    }
}
