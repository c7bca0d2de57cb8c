//! The links of a manager, and its blocks.

ghost use Rattle.std.specs.Prelude.{ℕ, ◌≡◌, ◌<◌, ◌≤◌, ◌||◌, nat_le, is_none, IfOk};
ghost use Rattle.std.specs.Prelude.{map, not, OnOk, Ok, Err, true, false, length, []};
ghost use Rattle.std.specs.Bool.{OnTrue, OnFalse};
ghost use Rattle.tl_beat.specs.statement.Width.{IsWidth};
ghost use Rattle.tl_burst.specs.statement.Part.{IsTakeable};
ghost use Rattle.tl_beat.specs.declared.beat.Link.{Link};
ghost use Rattle.tl_params.specs.declared.config.Config.{Config};
ghost use Rattle.tl_manager.specs.code.Admission.{admission_of, judged_in_order, is_stall};
ghost use Rattle.tl_rules.specs.statement.Conformance.{on_link, broken_in_order};
ghost use Rattle.tl_params.specs.declared.perm.Perm.TheVariants as perm;
ghost use Rattle.tl_manager.specs.code.Fresh.{fresh_link_state};
ghost use Rattle.tl_manager.specs.code.PartIs.{is_first_part, is_last_part};
ghost use Rattle.tl_manager.specs.code.Outbox.{messages_of};
ghost use Rattle.tl_manager.specs.statement.Service.{services, is_in_service};
ghost use Rattle.tl_manager.specs.statement.Offer;
ghost use Rattle.tl_beat.specs.declared.channel.Channel.{Channel};
ghost use Rattle.tl_burst.specs.statement.Messages.{unfinished};
ghost use Rattle.tl_burst.specs.statement.Part.{is_empty};
ghost use Rattle.tl_manager.specs.statement.Holders.{recorded};
ghost use Rattle.tl_manager.specs.statement.Reaction.{with_block};
ghost use Rattle.tl_params.specs.declared.key.Key.TheVariants.{AcquireOf};
ghost use Rattle.tl_rules.specs.statement.History.{pending};
ghost use Rattle.tl_manager.specs.statement.Reaction.{reaction};
ghost use Rattle.tl_manager.specs.statement.End.{End, with_memory};
ghost use Rattle.tl_manager.specs.statement.Offer.{judged, open_level, refused, taken};

use crate::directory::Directory;
use crate::manager::admission::{Admission, admit, is_from_client};
use crate::manager::block_state::BlockState;
use crate::manager::blocks::Blocks;
use crate::manager::link_state::{LinkPast, LinkState};
use crate::manager::reply::Outbox;
use crate::manager::tracker::Trackers;
use crate::manager::types::{prove_filled, prove_typed};
use std::alloc::{AllocError, Global};
use tl_beat::beat::{Beat, Link};
use tl_beat::channel::Channel;
use tl_burst::message::{Message, MessageE};
use tl_burst::part::Part;
use tl_rules::admission::{is_outside, is_spoiled};
use tl_rules::config::{ClientConfig, Config, NewFault};
use tl_rules::key::block_at;
use tl_rules::legality::beat::check_beat;
use tl_rules::level::Level;
use tl_rules::order::broken_order;
use tl_rules::past::Past;
use tl_rules::perm::Perm;
use tl_rules::rule::Rule;

/// Whether a beat is the first of its burst.
fn is_first(part: Part) -> bool
    ensures { result ≡ is_first_part part }
{
    matches!(part, Part::First | Part::Only)
}

/// Whether a beat is the last of its burst.
fn is_last(part: Part) -> bool
    ensures { result ≡ is_last_part part }
{
    matches!(part, Part::Last | Part::Only)
}

/// Whether the judgement is that the beat waits.
pub fn is_waiting(judged: Result<Admission, Rule>) -> bool
    ensures { result ≡ is_stall judged }
{
    match judged {
        Ok(Admission::Waits) => true,
        Ok(Admission::Passes) => false,
        Err(_) => false,
    }
}

/// The state of a manager.
#[derive(Drop)]
pub struct ManagerState<const W: usize, D: Directory> {
    pub link_states: Vec<LinkState<W>>,
    pub block_state: BlockState<W, D>,
}

/// The links of these clients, without any beat.
fn link_states_for<const W: usize>(
    alloc: Global,
    clients: &[ClientConfig],
) -> Result<Vec<LinkState<W>>, AllocError>
    ensures { IfOk result (λ link_states. link_states.items
        ≡ map (λ client. fresh_link_state client.level) clients.now) }
{
    let mut link_states = Vec::new(alloc);
    for client in clients {
        link_states.push(LinkState::new(client.level))?;
    }
    Ok(link_states)
}

impl<const W: usize, D: Directory> ManagerState<W, D> {
    ghost use Rattle.tl_manager.specs.code.Knows.{Knows, IsManager};
    ghost use Rattle.tl_manager.specs.code.LinkState.{IsLinkState};
    ghost use Rattle.tl_manager.specs.code.PartIs.{IsPartOf};
    ghost use Rattle.tl_manager.specs.code.Fresh.{IsNew};

    /// The links and blocks of a configuration, with a new directory that covers it. The error is the first limit that
    /// is broken, in the order N1 to N4, or `Memory`.
    pub fn new(alloc: Global, config: &Config, directory: D) -> Result<Self, NewFault>
        requires width { IsWidth W }
        requires fresh { (block client : ℕ) → D.perm_of directory block client ≡ perm.None }
        requires blocks { config.now.blocks ≤ D.blocks directory }
        requires clients { length config.now.clients.items ≤ D.clients directory }
        ensures new { IsNew D.perm_of config.now result }
        ensures directory { IfOk result (λ l. l.block_state.directory ≡ directory) }
    {
        config.check()?;
        let link_states = link_states_for(alloc, config.clients.as_slice())?;
        let blocks = Blocks::new(alloc, config.blocks)?;
        let block_state = BlockState {
            profile: config.profile,
            trackers: Trackers::new(config.trackers),
            directory,
            blocks,
        };
        Ok(ManagerState {
            link_states,
            block_state,
        })
    }

    /// Whether a block is in service, or no tracker is free.
    fn is_busy(&self, block: u32) -> bool
        ensures { (config : Config) (e : End W) → Knows D.perm_of self.now config e →
            result ≡ (is_in_service block (services e.trace) || nat_le config.trackers (length (services e.trace))) }
    {
        if self.block_state.trackers.serving(block).is_some() {
            return true;
        }
        match self.block_state.trackers.least_free() {
            None => true,
            Some(_) => false,
        }
    }

    /// Whether a beat may have to wait: it is of a request, and its block is in service or no tracker is free.
    fn may_wait(&self, beat: &Beat<W>) -> bool
        ensures { result ≡ false → (config : Config) (e : End W) (link : Link) → Knows D.perm_of self.now config e →
            Offer.must_wait config link beat.now e.trace ≡ false }
    {
        match beat {
            Beat::A(x) => self.is_busy(block_at(x.address)),
            _ => false,
        }
    }

    /// Whether a beat completes a request that can't be served yet.
    fn must_wait(&self, beat: &Beat<W>, part: Part) -> bool
        ensures { (config : Config) (e : End W) (link : Link) → Knows D.perm_of self.now config e →
            IsPartOf beat.now part (on_link link.0 e.trace) →
            result ≡ Offer.must_wait config link beat.now e.trace }
    {
        match beat {
            Beat::A(x) => is_last(part) && self.is_busy(block_at(x.address)),
            Beat::B(_) | Beat::C(_) | Beat::D(_) | Beat::E(_) => false,
        }
    }

    /// The S or H rule that a beat breaks.
    fn broken(
        &self,
        link: Link,
        link_state: &LinkState<W>,
        beat: &Beat<W>,
        part: Part,
    ) -> Option<Rule>
        requires known { IsManager D.perm_of D.blocks D.clients self.now }
        requires link { link.0 < length self.now.link_states.items }
        ensures { (config : Config) (e : End W) → Knows D.perm_of self.now config e →
            IsLinkState config link_state.now link.0 e →
            IsPartOf beat.now part (on_link link.0 e.trace) →
            result ≡ broken_in_order config.profile beat.now (on_link link.0 e.trace) }
    {
        if !is_first(part) {
            return None;
        }
        let past = LinkPast {
            link,
            link_state,
            block_state: &self.block_state,
        };
        broken_order(self.block_state.profile, beat, &past)
    }

    /// The judgement of a beat that breaks no L rule. The error is the first rule that it breaks.
    fn judge_order(
        &self,
        link: Link,
        link_state: &LinkState<W>,
        beat: &Beat<W>,
    ) -> Result<Admission, Rule>
        requires known { IsManager D.perm_of D.blocks D.clients self.now }
        requires link { link.0 < length self.now.link_states.items }
        requires takeable { IsTakeable beat.now }
        requires theirs { Offer.is_from_client beat.now ≡ true }
        ensures { (config : Config) (e : End W) → Knows D.perm_of self.now config e →
            IsLinkState config link_state.now link.0 e →
            result ≡ admission_of (judged_in_order config link beat.now e.trace) }
    {
        let Ok(part) = link_state.part(beat) else {
            return Err(Rule::S1);
        };
        let broken = self.broken(link, link_state, beat, part);
        let waits = self.must_wait(beat, part);
        let outside = is_outside(self.block_state.blocks.count(), beat);
        admit(broken, waits, outside, is_spoiled(beat))
    }

    /// The judgement of a beat. The error is the first rule that it breaks.
    pub fn judge(&self, link: Link, channel: Channel, beat: &Beat<W>) -> Result<Admission, Rule>
        requires known { IsManager D.perm_of D.blocks D.clients self.now }
        ensures judged { (config : Config) (e : End W) → Knows D.perm_of self.now config e →
            result ≡ admission_of (judged config link channel beat.now e) }
        ensures takeable { OnOk result (IsTakeable beat.now) }
        ensures link { OnOk result (link.0 < length self.now.link_states.items) }
    {
        let Some(link_state) = self.link_states.get(usize::from(link.0)) else {
            return Err(Rule::A3);
        };
        if link_state.closed {
            return Err(Rule::A3);
        }
        if !is_from_client(beat) {
            return Err(Rule::L1);
        }
        check_beat(link_state.level, channel, beat)?;
        self.judge_order(link, link_state, beat)
    }

    /// Whether a beat would be stalled.
    pub fn stalls(&self, link: Link, channel: Channel, beat: &Beat<W>) -> bool
        requires known { IsManager D.perm_of D.blocks D.clients self.now }
        ensures { (config : Config) (e : End W) → Knows D.perm_of self.now config e →
            result ≡ Offer.stalls config link channel beat.now e }
    {
        self.may_wait(beat) && is_waiting(self.judge(link, channel, beat))
    }

    /// The level of a link that isn't closed.
    pub fn open_level(&self, link: Link) -> Option<Level>
        ensures { (config : Config) (e : End W) → Knows D.perm_of self.now config e →
            result ≡ open_level config link e }
    {
        match self.link_states.get(usize::from(link.0)) {
            Some(link_state) if !link_state.closed => Some(link_state.level),
            _ => None,
        }
    }

    /// The permission that the client of a link is recorded with for a block.
    pub fn recorded(&self, link: Link, block: u32) -> Perm
        requires known { IsManager D.perm_of D.blocks D.clients self.now }
        ensures { (config : Config) (e : End W) → Knows D.perm_of self.now config e →
            result ≡ recorded link.0 block e.trace }
    {
        let number = usize::from(link.0);
        if number >= self.link_states.len() {
            return Perm::None;
        }
        let past = LinkPast {
            link,
            link_state: &self.link_states[number],
            block_state: &self.block_state,
        };
        past.held(block)
    }

    /// Whether an Acquire of a block by the client of a link was taken and isn't granted.
    pub fn is_acquiring(&self, link: Link, block: u32) -> bool
        ensures { (config : Config) (e : End W) → Knows D.perm_of self.now config e →
            result ≡ pending (AcquireOf block) (on_link link.0 e.trace) }
    {
        self.block_state.trackers.of_block(block).awaits_grant(link)
    }

    /// Replaces all bytes of a block.
    pub fn write_block(&mut self, block: u32, bytes: &[u8; 64])
        ensures knows { (config : Config) (e : End W) → Knows D.perm_of self.old config e →
            Knows D.perm_of self.new config (with_memory (with_block block bytes.now e.memory) e) }
        ensures directory { self.new.block_state.directory ≡ self.old.block_state.directory }
        ensures size { length self.new.block_state.blocks.bytes.items ≡ length self.old.block_state.blocks.bytes.items }
        ensures link_states { self.new.link_states ≡ self.old.link_states }
    {
        let block = block as usize;
        if block < self.block_state.blocks.count() {
            self.block_state.blocks.write(block, bytes);
        }
    }

    /// Whether a message of channel C is unfinished on a link.
    pub fn is_reporting(&self, link: Link) -> bool
        ensures { (config : Config) (e : End W) → Knows D.perm_of self.now config e →
            result ≡ not (is_empty (unfinished Channel.C (on_link link.0 e.trace))) }
    {
        let number = usize::from(link.0);
        if number >= self.link_states.len() {
            return false;
        }
        self.link_states[number].reports.has_begun()
    }

    /// Whether a link takes no beats, since it is closed or there is no such link.
    pub fn closed(&self, link: Link) -> bool
        ensures { (config : Config) (e : End W) → Knows D.perm_of self.now config e →
            result ≡ is_none (open_level config link e) }
    {
        match self.link_states.get(usize::from(link.0)) {
            None => true,
            Some(link_state) => link_state.closed,
        }
    }

    /// Closes a link, after a beat was refused.
    pub fn refuse(&mut self, link: Link)
        ensures knows { (config : Config) (e : End W) → Knows D.perm_of self.old config e →
            Knows D.perm_of self.new config (refused link e) }
        ensures block_state { self.new.block_state ≡ self.old.block_state }
        ensures count { length self.new.link_states.items ≡ length self.old.link_states.items }
    {
        let number = usize::from(link.0);
        if number < self.link_states.len() {
            self.link_states[number].closed = true;
        }
    }

    /// Takes a beat that passes, continues its message and doesn't complete it, and returns whether it did. Otherwise
    /// nothing changes. Such a beat is inside the map, as those before it are.
    pub fn goes_on(&mut self, link: Link, channel: Channel, beat: &Beat<W>) -> bool
        requires known { IsManager D.perm_of D.blocks D.clients self.old }
        ensures passes { OnTrue result ((config : Config) (e : End W) → Knows D.perm_of self.old config e →
            (judged config link channel beat.now e ≡ Offer.Passes) × ([] ≡ (reaction config link beat.now e).handed)
            × Knows D.perm_of self.new config (taken link beat.now (reaction config link beat.now e) e)) }
        ensures block_state { self.new.block_state ≡ self.old.block_state }
        ensures unchanged { OnFalse result (self.new ≡ self.old) }
    {
        let number = usize::from(link.0);
        if number >= self.link_states.len() {
            return false;
        }
        self.link_states[number].goes_on(channel, beat)
    }

    /// Takes a beat that passes, and writes the messages that are handed out into `outbox`.
    pub fn take(&mut self, link: Link, beat: &Beat<W>, outbox: &mut Outbox<W>)
        requires known { IsManager D.perm_of D.blocks D.clients self.old }
        requires link { link.0 < length self.old.link_states.items }
        requires takeable { IsTakeable beat.now }
        requires passes { (config : Config) (e : End W) → Knows D.perm_of self.old config e →
            (ch : Channel) × (judged config link ch beat.now e ≡ Offer.Passes) }
        ensures handed { (config : Config) (e : End W) → Knows D.perm_of self.old config e →
            messages_of outbox.new ≡ (reaction config link beat.now e).handed }
        ensures knows { (config : Config) (e : End W) → Knows D.perm_of self.old config e →
            Knows D.perm_of self.new config (taken link beat.now (reaction config link beat.now e) e) }
        ensures blocks { D.blocks self.new.block_state.directory ≡ D.blocks self.old.block_state.directory }
        ensures clients { D.clients self.new.block_state.directory ≡ D.clients self.old.block_state.directory }
    {
        prove_typed(beat);
        let number = usize::from(link.0);
        let mut message = Message::E(MessageE { sink: 0 });
        if !self.link_states[number].take(beat, &mut message) {
            *outbox = Outbox::Nothing;
            return;
        }
        prove_filled(&message);
        self.block_state.complete(link, &message, outbox)
    }
}
