//! The manager: it takes the beats of its clients, stalls them, or refuses them.

pub mod admission;
pub mod block_state;
pub mod blocks;
pub mod link_state;
pub mod reply;
pub mod state;
pub mod tracker;
pub mod types;

ghost use Rattle.std.specs.Prelude.{ℕ, ◌≡◌, ◌≤◌, length, is_none, not, []};
ghost use Rattle.std.specs.Bool.{OnTrue, OnFalse};
ghost use Rattle.tl_beat.specs.statement.Width.{IsWidth};
ghost use Rattle.tl_burst.specs.statement.Written.{written};
ghost use Rattle.tl_params.specs.declared.config.Config.{Config};
ghost use Rattle.tl_params.specs.declared.perm.Perm.TheVariants as perm;
ghost use Rattle.tl_manager.specs.statement.Offer;
ghost use Rattle.tl_manager.specs.statement.End.{End, with_memory};
ghost use Rattle.tl_manager.specs.statement.Offer.{Sent, judged, offered, open_level, refused};
ghost use Rattle.tl_burst.specs.statement.Messages.{unfinished};
ghost use Rattle.tl_burst.specs.statement.Part.{is_empty};
ghost use Rattle.tl_manager.specs.code.Admission.{admission_of};
ghost use Rattle.tl_manager.specs.statement.Holders.{recorded};
ghost use Rattle.tl_manager.specs.statement.Reaction.{with_block};
ghost use Rattle.tl_params.specs.declared.key.Key.TheVariants.{AcquireOf};
ghost use Rattle.tl_rules.specs.statement.History.{pending};
ghost use Rattle.tl_rules.specs.statement.Conformance.{on_link};

use crate::directory::Directory;
use crate::manager::admission::Admission;
use crate::manager::reply::{Handed, Outbox};
use crate::manager::state::ManagerState;
use std::alloc::Global;
use std::marker::Model;
use tl_beat::beat::{Beat, Link};
use tl_beat::channel::Channel;
use tl_rules::config::{Config, NewFault};
use tl_rules::level::Level;
use tl_rules::perm::Perm;
use tl_rules::rule::Rule;

/// The answer to a beat that breaks no rule.
pub enum Taken<const W: usize> {
    /// The beat must wait, and nothing changed.
    Stalled,
    /// The beat was taken, and these messages are handed out, in order.
    Sent(Handed<W>),
}

/// The manager of up to sixteen links, with a directory of the permissions that it records. A contract sees the
/// manager's state, and speaks of every end of the links that this state represents.
#[derive(Drop)]
pub struct Manager<const W: usize, D: Directory> {
    state: ManagerState<W, D>,
}

impl<const W: usize, D: Directory> Model for Manager<W, D> {
    ghost use Rattle.tl_manager.specs.declared.manager.state.ManagerState.{ManagerState};
    ghost use Rattle.tl_manager.specs.code.Knows.{IsManager};

    ghost Value = { ManagerState W D };

    ghost view = { λ m. m.state };

    ghost invariant = { λ m. IsManager D.perm_of D.blocks D.clients m.state };
}

impl<const W: usize, D: Directory> Manager<W, D> {
    ghost use Rattle.tl_manager.specs.code.Answers.{IsAnswer, sent_of};
    ghost use Rattle.tl_manager.specs.code.Fresh.{IsNew};
    ghost use Rattle.tl_manager.specs.code.Knows.{Knows};

    /// A manager of a configuration, with a new directory that covers it. The error is the first limit that is broken,
    /// in the order N1 to N4, or `Memory`.
    pub fn new(alloc: Global, config: &Config, directory: D) -> Result<Self, NewFault>
        requires width { IsWidth W }
        requires fresh { (block client : ℕ) → D.perm_of directory block client ≡ perm.None }
        requires blocks { config.now.blocks ≤ D.blocks directory }
        requires clients { length config.now.clients.items ≤ D.clients directory }
        ensures { IsNew D.perm_of config.now result }
    {
        let state = ManagerState::new(alloc, config, directory)?;
        Ok(Manager { state })
    }

    /// Takes a beat, stalls it, or refuses it by the first rule that it breaks. A refusal closes the link.
    pub fn offer(&mut self, link: Link, channel: Channel, beat: &Beat<W>) -> Result<Taken<W>, Rule>
        ensures answer { (config : Config) (e : End W) → Knows D.perm_of self.old config e →
            IsAnswer result (offered config link channel beat.now e).0 }
        ensures after { (config : Config) (e : End W) → Knows D.perm_of self.old config e →
            Knows D.perm_of self.new config (offered config link channel beat.now e).1 }
    {
        // A field is named so that the prover has the invariant of the manager here.
        let _ = &self.state;
        let mut outbox = Outbox::Nothing;
        if self.offer_into(link, channel, beat, &mut outbox)? {
            Ok(Taken::Sent(outbox.handed()))
        } else {
            Ok(Taken::Stalled)
        }
    }

    /// Takes a beat, stalls it or refuses it as `offer` does, but writes the messages into `outbox`, in compact form.
    /// Returns false for a beat that must wait.
    pub fn offer_into(
        &mut self,
        link: Link,
        channel: Channel,
        beat: &Beat<W>,
        outbox: &mut Outbox<W>,
    ) -> Result<bool, Rule>
        ensures answer { (config : Config) (e : End W) → Knows D.perm_of self.old config e →
            sent_of (written outbox.new result) ≡ (offered config link channel beat.now e).0 }
        ensures after { (config : Config) (e : End W) → Knows D.perm_of self.old config e →
            Knows D.perm_of self.new config (offered config link channel beat.now e).1 }
    {
        match self.state.judge(link, channel, beat) {
            Err(rule) => {
                self.state.refuse(link);
                Err(rule)
            }
            Ok(Admission::Waits) => Ok(false),
            Ok(Admission::Passes) => {
                self.state.take(link, beat, outbox);
                Ok(true)
            }
        }
    }

    /// Takes a beat that continues a message and doesn't complete it, as `offer` does, and returns whether it did. It
    /// may return false for such a beat too; then nothing changes, and `offer` has the answer.
    pub fn goes_on(&mut self, link: Link, channel: Channel, beat: &Beat<W>) -> bool
        ensures answer { OnTrue result ((config : Config) (e : End W) → Knows D.perm_of self.old config e →
            Sent [] ≡ (offered config link channel beat.now e).0) }
        ensures after { OnTrue result ((config : Config) (e : End W) → Knows D.perm_of self.old config e →
            Knows D.perm_of self.new config (offered config link channel beat.now e).1) }
        ensures unchanged { OnFalse result (self.new ≡ self.old) }
    {
        self.state.goes_on(link, channel, beat)
    }

    /// Whether a beat would be stalled.
    pub fn stalls(&self, link: Link, channel: Channel, beat: &Beat<W>) -> bool
        ensures { (config : Config) (e : End W) → Knows D.perm_of self.now config e →
            result ≡ Offer.stalls config link channel beat.now e }
    {
        self.state.stalls(link, channel, beat)
    }

    /// Whether a link takes no beats, since it is closed or there is no such link.
    pub fn closed(&self, link: Link) -> bool
        ensures { (config : Config) (e : End W) → Knows D.perm_of self.now config e →
            result ≡ is_none (open_level config link e) }
    {
        self.state.closed(link)
    }
}

/// The manager's state of a link and its judgements, for callers that offer other beats than those that came.
impl<const W: usize, D: Directory> Manager<W, D> {
    ghost use Rattle.tl_manager.specs.code.Knows.{Knows};

    /// The judgement of a beat. The error is the first rule that it breaks.
    pub fn judge(&self, link: Link, channel: Channel, beat: &Beat<W>) -> Result<Admission, Rule>
        ensures { (config : Config) (e : End W) → Knows D.perm_of self.now config e →
            result ≡ admission_of (judged config link channel beat.now e) }
    {
        self.state.judge(link, channel, beat)
    }

    /// The level of a link that isn't closed.
    pub fn open_level(&self, link: Link) -> Option<Level>
        ensures { (config : Config) (e : End W) → Knows D.perm_of self.now config e →
            result ≡ open_level config link e }
    {
        self.state.open_level(link)
    }

    /// The permission that the client of a link is recorded with for a block.
    pub fn recorded(&self, link: Link, block: u32) -> Perm
        ensures { (config : Config) (e : End W) → Knows D.perm_of self.now config e →
            result ≡ recorded link.0 block e.trace }
    {
        self.state.recorded(link, block)
    }

    /// The number of blocks of its map.
    pub fn blocks(&self) -> usize
        ensures { (config : Config) (e : End W) → Knows D.perm_of self.now config e → result ≡ config.blocks }
    {
        self.state.block_state.blocks.count()
    }

    /// Whether an Acquire of a block by the client of a link was taken and isn't granted.
    pub fn is_acquiring(&self, link: Link, block: u32) -> bool
        ensures { (config : Config) (e : End W) → Knows D.perm_of self.now config e →
            result ≡ pending (AcquireOf block) (on_link link.0 e.trace) }
    {
        self.state.is_acquiring(link, block)
    }

    /// Replaces all bytes of a block of memory.
    pub fn write_block(&mut self, block: u32, bytes: &[u8; 64])
        ensures { (config : Config) (e : End W) → Knows D.perm_of self.old config e →
            Knows D.perm_of self.new config (with_memory (with_block block bytes.now e.memory) e) }
    {
        self.state.write_block(block, bytes)
    }

    /// Whether a message of channel C is unfinished on a link.
    pub fn is_reporting(&self, link: Link) -> bool
        ensures { (config : Config) (e : End W) → Knows D.perm_of self.now config e →
            result ≡ not (is_empty (unfinished Channel.C (on_link link.0 e.trace))) }
    {
        self.state.is_reporting(link)
    }

    /// Closes a link, as a refusal does.
    pub fn close(&mut self, link: Link)
        ensures { (config : Config) (e : End W) → Knows D.perm_of self.old config e →
            Knows D.perm_of self.new config (refused link e) }
    {
        self.state.refuse(link)
    }
}
