//! A client with only the six calls that an agent needs.

ghost use Rattle.std.specs.Prelude.{◌≡◌};

use std::alloc::Global;
use tl_beat::beat::Beat;
use tl_beat::channel::Channel;
use tl_burst::message::Message;
use tl_client::agent::Agent;
use tl_client::any::AnyClient;
use tl_client::operation::Op;
use tl_client::reply::Reply;
use tl_client::verdict::Verdict;
use tl_rules::config::{ClientConfig, NewFault};
use tl_rules::perm::Perm;
use tl_rules::profile::Profile;
use tl_rules::rule::Rule;

/// A client that counts its misses. It has no bodies of its own for the calls that exist for speed.
#[derive(Drop)]
pub struct Counting<const W: usize> {
    pub client: AnyClient<W>,
    pub misses: u64,
}

impl<const W: usize> Agent<W> for Counting<W> {
    ghost use Rattle.tl_client.specs.code.KnowsAny.{KnowsAny, any_terms};
    ghost use Rattle.tl_client.specs.statement.Ask.{asked};
    ghost use Rattle.tl_client.specs.statement.Endpoint.{Endpoint};

    ghost represents = { λ c e. KnowsAny c.client e };

    ghost terms = { λ c. any_terms c.client };

    fn ask(&mut self, operation: Op<W>) -> (Reply, Option<Message<W>>)
        ensures reply { (e : Endpoint W) → KnowsAny self.old.client e →
            result.0 ≡ (asked (any_terms self.old.client) operation.entry e).reply }
        ensures message { (e : Endpoint W) → KnowsAny self.old.client e →
            result.1 ≡ (asked (any_terms self.old.client) operation.entry e).message }
        ensures after { (e : Endpoint W) → KnowsAny self.old.client e →
            KnowsAny self.new.client (asked (any_terms self.old.client) operation.entry e).after }
        ensures terms { any_terms self.new.client ≡ any_terms self.old.client }
    {
        let (reply, message) = self.client.ask(operation);
        if matches!(reply, Reply::Miss) {
            self.misses = self.misses.saturating_add(1);
        }
        (reply, message)
    }

    fn offer(
        &mut self,
        channel: Channel,
        beat: &Beat<W>,
    ) -> Result<(Verdict, Option<Message<W>>), Rule> {
        self.client.offer(channel, beat)
    }

    fn stalls(&self, channel: Channel, beat: &Beat<W>) -> bool {
        self.client.stalls(channel, beat)
    }

    fn held(&self, block: u16) -> Perm {
        self.client.held(block)
    }

    fn copy(&self, block: u16) -> Option<[u8; 64]> {
        self.client.copy(block)
    }

    fn closed(&self) -> bool {
        self.client.closed()
    }
}
