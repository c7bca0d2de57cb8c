//! A client's end of a link, with the beats that it has still to send.

ghost use Rattle.std.specs.Prelude.{◌≡◌};
ghost use Rattle.tl_beat.specs.statement.Width.{IsWidth, IsWidth-prop};

use crate::outgoing::Outgoing;
use std::alloc::{AllocError, Global};
use tl_beat::beat::{Beat, Link};
use tl_beat::channel::Channel;
use tl_client::agent::Agent;
use tl_client::any::AnyClient;
use tl_client::operation::Op;
use tl_client::reply::Reply;
use tl_client::verdict::Verdict;
use tl_rules::config::{ClientConfig, NewFault};
use tl_rules::perm::Perm;
use tl_rules::profile::Profile;
use tl_rules::rule::Rule;

/// A client of any level, with the beats that it handed out and has still to send.
#[derive(Drop)]
pub struct ClientPort<const W: usize> {
    pub client: AnyClient<W>,
    pub outgoing: Outgoing<W>,
    pub ghost width: { IsWidth W } by { IsWidth-prop W },
}

/// The answer to a beat that is offered to a client. The outer error means that there is no memory.
pub type Offered = Result<Result<Verdict, Rule>, AllocError>;

impl<const W: usize> ClientPort<W> {
    ghost use Rattle.tl_client.specs.code.KnowsAny.{KnowsAny, any_terms};
    ghost use Rattle.tl_client.specs.statement.Endpoint.{Endpoint};
    ghost use Rattle.tl_client.specs.statement.Offer;
    ghost use Rattle.tl_ports.specs.statement.Client.{AskTold, OfferTold, IsNewPort, Popped, next_beat, held_of};

    /// A new client. The error is that of `AnyClient::new`.
    pub fn new(
        alloc: Global,
        config: ClientConfig,
        blocks: u16,
        profile: Profile,
    ) -> Result<Self, NewFault>
        requires { IsWidth W }
        ensures { IsNewPort config blocks profile result }
    {
        let client = AnyClient::new(alloc, config, blocks, profile)?;
        let outgoing = Outgoing::new(alloc);
        Ok(ClientPort { client, outgoing })
    }

    /// Answers an operation as the client does. The beats of its message wait to be sent. The error means that there is
    /// no memory; then nothing changes.
    pub fn ask(&mut self, operation: Op<W>) -> Result<Reply, AllocError>
        ensures { AskTold self.old self.new operation.entry result }
    {
        self.outgoing.make_room(1)?;
        let (reply, message) = self.client.ask(operation);
        if let Some(message) = message {
            self.outgoing.send(Link(0), &message);
        }
        Ok(reply)
    }

    /// Takes a beat on this channel, stalls it or refuses it, as the client does. The beats of its message wait to be
    /// sent. The outer error means that there is no memory; then nothing changes.
    pub fn offer(&mut self, channel: Channel, beat: &Beat<W>) -> Offered
        ensures { OfferTold self.old self.new channel beat.now result }
    {
        self.outgoing.make_room(1)?;
        match self.client.offer(channel, beat) {
            Err(rule) => Ok(Err(rule)),
            Ok((verdict, message)) => {
                if let Some(message) = message {
                    self.outgoing.send(Link(0), &message);
                }
                Ok(Ok(verdict))
            }
        }
    }

    /// Whether `offer` would stall this beat.
    pub fn stalls(&self, channel: Channel, beat: &Beat<W>) -> bool
        ensures { (e : Endpoint W) → KnowsAny self.now.client e →
            result ≡ Offer.stalls (any_terms self.now.client) channel beat.now e }
    {
        self.client.stalls(channel, beat)
    }

    /// The next beat to send on a channel.
    pub fn next(&self, channel: Channel) -> Option<Beat<W>>
        ensures { result ≡ next_beat channel self.now }
    {
        self.outgoing.next(Link(0), channel)
    }

    /// Removes the next beat to send on a channel, and returns it. The caller sends it now.
    pub fn pop(&mut self, channel: Channel) -> Option<Beat<W>>
        ensures next { result ≡ next_beat channel self.old }
        ensures rest { Popped channel self.old self.new }
    {
        self.outgoing.pop(Link(0), channel)
    }

    /// The permission held of a block.
    pub fn held(&self, block: u16) -> Perm
        ensures { (e : Endpoint W) → KnowsAny self.now.client e → result ≡ held_of block e }
    {
        self.client.held(block)
    }

    /// The bytes of the copy of a block, if there is one.
    pub fn copy(&self, block: u16) -> Option<[u8; 64]>
        ensures { (e : Endpoint W) → KnowsAny self.now.client e → result ≡ e.copies block }
    {
        self.client.copy(block)
    }

    /// Whether a beat was refused.
    pub fn closed(&self) -> bool
        ensures { (e : Endpoint W) → KnowsAny self.now.client e → result ≡ e.closed }
    {
        self.client.closed()
    }
}
