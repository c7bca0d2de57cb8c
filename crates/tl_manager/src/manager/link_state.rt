//! One link: its unfinished bursts, and the history by which its messages are judged.

ghost use Rattle.std.specs.Prelude.{ℕ, ◌≡◌, ◌<◌, ◌≤◌, ◌==◌, ◌&&◌, length, false, true, List, [], ◌∷◌};
ghost use Rattle.std.specs.Prelude.{None, not, ◌^◌};
ghost use Rattle.std.specs.Bool.{OnTrue, OnFalse};
ghost use Rattle.tl_beat.specs.statement.Width.{IsWidth, IsWidth-prop};
ghost use Rattle.tl_burst.specs.statement.Burst.{IsBurst};
ghost use Rattle.tl_burst.specs.statement.Messages.{breaks_burst};
ghost use Rattle.tl_burst.specs.statement.Part.{IsTakeable, part_of, completes, is_empty, is_middle};
ghost use Rattle.tl_rules.specs.statement.Admission;
ghost use Rattle.tl_rules.specs.statement.Legality.{a_has_mask, illegal};
ghost use Rattle.tl_rules.specs.statement.Conformance.{comes_in_release, comes_in_request};
ghost use Rattle.tl_manager.specs.code.BurstFor.{burst_for, burst_more, burst_with};
ghost use Rattle.tl_manager.specs.statement.Offer.{is_from_client};
ghost use Rattle.tl_manager.specs.code.Kept.{IsTyped};
ghost use Rattle.tl_manager.specs.code.Lawful.{IsFit, IsLawfulSoFar};
ghost use Rattle.tl_manager.specs.code.Releases.{comes_of};
ghost use Rattle.tl_manager.specs.code.Probed.{probe_in};
ghost use Rattle.tl_manager.specs.code.Tracking.{request_in};

use crate::directory::Directory;
use crate::manager::block_state::{BlockState, cap_probed};
use crate::manager::tracker::Tracker;
use crate::manager::types::prove_typed;
use tl_beat::beat::{Beat, Link};
use tl_beat::channel::Channel;
use tl_beat::opcode::{OpA, OpB};
use tl_burst::assembler::Assembler;
use tl_burst::message::{Message, MessageE};
use tl_burst::part::{Broken, Part};
use tl_rules::key::{Key, block_at};
use tl_rules::kind::is_release;
use tl_rules::level::Level;
use tl_rules::past::{Past, Probe, Request};
use tl_rules::perm::Perm;

/// Whether a beat of a message of at least a beat has all lanes, or any of them for PutPartialData.
fn has_lanes<const W: usize>(opcode: OpA, size: u8, mask: u16) -> bool
    requires width { IsWidth W }
    requires small { size ≤ 6 }
    ensures lanes { OnTrue result ((address : ℕ) → a_has_mask W opcode size address mask ≡ true) }
    ensures narrow { OnTrue result (mask < 2 ^ W) }
{
    if 1usize << size < W {
        return false;
    }
    let lanes = u16::MAX >> (16 - W);
    match opcode {
        OpA::PutPartialData => mask & !lanes == 0,
        _ => mask == lanes,
    }
}

/// Whether the fields that a beat has of its own break no rule in a beat that continues a message, and it isn't
/// corrupt.
fn is_fit<const W: usize>(channel: Channel, beat: &Beat<W>) -> bool
    requires width { IsWidth W }
    ensures fit { OnTrue result (IsFit channel beat.now) }
    ensures takeable { OnTrue result (IsTakeable beat.now) }
    ensures clean { OnTrue result (Admission.is_spoiled beat.now ≡ false) }
{
    match (channel, beat) {
        (Channel::A, Beat::A(x)) => {
            !x.corrupt && x.size <= 6 && has_lanes::<W>(x.opcode, x.size, x.mask)
        }
        (Channel::C, Beat::C(x)) => !x.corrupt && x.size <= 6,
        _ => false,
    }
}

/// The state of a link.
#[derive(Drop)]
pub struct LinkState<const W: usize> {
    pub level: Level,
    /// The unfinished burst of channel A.
    pub requests: Assembler<W>,
    /// The unfinished burst of channel C.
    pub reports: Assembler<W>,
    /// A beat was refused.
    pub closed: bool,
}

impl<const W: usize> LinkState<W> {
    ghost use Rattle.tl_manager.specs.code.Fresh.{fresh_link_state};

    /// A link of this level without any beat.
    pub fn new(level: Level) -> Self
        ensures { result ≡ fresh_link_state level }
    {
        LinkState {
            level,
            requests: Assembler::new(),
            reports: Assembler::new(),
            closed: false,
        }
    }

    /// The place of a client's beat in its burst. The error is S1 if a control field differs.
    pub fn part(&self, beat: &Beat<W>) -> Result<Part, Broken>
        requires width { IsWidth W }
        requires takeable { IsTakeable beat.now }
        requires theirs { is_from_client beat.now ≡ true }
        ensures { result ≡ part_of beat.now (burst_for self.now.requests self.now.reports beat.now) }
    {
        match beat {
            Beat::A(_) => self.requests.peek(beat),
            Beat::C(_) => self.reports.peek(beat),
            Beat::B(_) | Beat::D(_) | Beat::E(_) => Ok(Part::Only),
        }
    }

    /// Takes a client's beat, and returns whether it completes a message. Writes that message into `message`.
    pub fn take(&mut self, beat: &Beat<W>, message: &mut Message<W>) -> bool
        requires width { IsWidth W }
        requires takeable { IsTakeable beat.now }
        requires theirs { is_from_client beat.now ≡ true }
        requires goes_on { breaks_burst beat.now (burst_for self.old.requests self.old.reports beat.now) ≡ false }
        ensures requests { self.new.requests ≡ burst_with Channel.A beat.now self.old.requests }
        ensures reports { self.new.reports ≡ burst_with Channel.C beat.now self.old.reports }
        ensures level { self.new.level ≡ self.old.level }
        ensures closed { self.new.closed ≡ self.old.closed }
        ensures completes { result
            ≡ completes beat.now (burst_for self.old.requests self.old.reports beat.now) }
        ensures message { OnTrue result
            (IsBurst message.new (beat.now ∷ burst_for self.old.requests self.old.reports beat.now)) }
    {
        match beat {
            Beat::A(_) => self.requests.take_into(beat, message).unwrap_or(false),
            Beat::C(_) => self.reports.take_into(beat, message).unwrap_or(false),
            Beat::E(x) => {
                *message = Message::E(MessageE { sink: x.sink });
                true
            }
            Beat::B(_) | Beat::D(_) => false,
        }
    }

    /// Whether the burst of a client's beat is unfinished.
    fn has_begun(&self, beat: &Beat<W>) -> bool
        ensures { result ≡ not (is_empty (burst_for self.now.requests self.now.reports beat.now)) }
    {
        match beat {
            Beat::A(_) => self.requests.has_begun(),
            Beat::C(_) => self.reports.has_begun(),
            Beat::B(_) | Beat::D(_) | Beat::E(_) => false,
        }
    }

    /// Takes a beat that continues its message and doesn't complete it, and returns whether it did. Otherwise nothing
    /// changes.
    fn grows(&mut self, beat: &Beat<W>) -> bool
        requires width { IsWidth W }
        requires takeable { IsTakeable beat.now }
        ensures theirs { OnTrue result (is_from_client beat.now ≡ true) }
        ensures middle { OnTrue result
            (is_middle (part_of beat.now (burst_for self.old.requests self.old.reports beat.now)) ≡ true) }
        ensures requests { OnTrue result (self.new.requests ≡ burst_more Channel.A beat.now self.old.requests) }
        ensures reports { OnTrue result (self.new.reports ≡ burst_more Channel.C beat.now self.old.reports) }
        ensures level { self.new.level ≡ self.old.level }
        ensures closed { self.new.closed ≡ self.old.closed }
        ensures unchanged { OnFalse result (self.new ≡ self.old) }
    {
        match beat {
            Beat::A(_) => self.requests.goes_on(beat),
            Beat::C(_) => self.reports.goes_on(beat),
            Beat::B(_) | Beat::D(_) | Beat::E(_) => false,
        }
    }

    /// Takes a beat that continues its message and doesn't complete it, and returns whether it did. The link must not
    /// be closed, the fields that the beat has of its own must break no rule, and it must not be corrupt. Otherwise
    /// nothing changes. Such a beat breaks no L rule if the beats before it break none: it has their control fields.
    pub fn goes_on(&mut self, channel: Channel, beat: &Beat<W>) -> bool
        requires width { IsWidth W }
        ensures theirs { OnTrue result (is_from_client beat.now ≡ true) }
        ensures typed { OnTrue result (IsTyped beat.now) }
        ensures live { OnTrue result (self.old.closed ≡ false) }
        ensures lawful { OnTrue result (IsLawfulSoFar self.old → illegal self.old.level channel beat.now ≡ None) }
        ensures clean { OnTrue result (Admission.is_spoiled beat.now ≡ false) }
        ensures middle { OnTrue result
            (is_middle (part_of beat.now (burst_for self.old.requests self.old.reports beat.now)) ≡ true) }
        ensures requests { OnTrue result (self.new.requests ≡ burst_more Channel.A beat.now self.old.requests) }
        ensures reports { OnTrue result (self.new.reports ≡ burst_more Channel.C beat.now self.old.reports) }
        ensures level { self.new.level ≡ self.old.level }
        ensures closed { self.new.closed ≡ self.old.closed }
        ensures unchanged { OnFalse result (self.new ≡ self.old) }
    {
        if self.closed || !self.has_begun(beat) {
            return false;
        }
        if !is_fit(channel, beat) {
            return false;
        }
        prove_typed(beat);
        self.grows(beat)
    }

    /// Whether the unfinished request has this source.
    fn comes_in_request(&self, source: u8) -> bool
        requires { IsWidth W }
        ensures { result ≡ comes_in_request source self.now.requests }
    {
        match self.requests.newest() {
            Some(Beat::A(x)) => x.source == source,
            _ => false,
        }
    }

    /// Whether the unfinished message of channel C is a Release with this source.
    fn comes_with(&self, source: u8) -> bool
        requires { IsWidth W }
        ensures { result ≡ comes_in_release source self.now.reports }
    {
        match self.reports.newest() {
            Some(Beat::C(x)) => is_release(x.opcode) && x.source == source,
            _ => false,
        }
    }

    /// Whether the unfinished message of channel C is a Release of this block.
    fn comes_of(&self, block: u32) -> bool
        requires { IsWidth W }
        ensures { result ≡ comes_of block self.now.reports }
    {
        match self.reports.newest() {
            Some(Beat::C(x)) => is_release(x.opcode) && block_at(x.address) == block,
            _ => false,
        }
    }
}

/// The fields on which a ProbeAck depends, of the Probe for a tracker's request.
fn probe_for<const W: usize>(tracker: &Tracker<W>) -> Option<Probe>
    ensures { result ≡ probe_in (request_in tracker.now) }
{
    let request = tracker.request()?;
    let cap = cap_probed(request.opcode, request.param)?;
    Some(Probe {
        opcode: OpB::ProbeBlock,
        param: cap.param(),
    })
}

/// A link with the state of the blocks: the history by which the messages of its client are judged.
#[derive(Drop)]
pub struct LinkPast<'a, const W: usize, D: Directory> {
    pub link: Link,
    pub link_state: &'a LinkState<W>,
    pub block_state: &'a BlockState<W, D>,
    ghost few_clients: { link.0 < 16 },
    ghost width: { IsWidth W } by { IsWidth-prop W },
    ghost client: { link.0 < D.clients block_state.now.directory },
    ghost blocks: { length block_state.now.blocks.bytes.items ≤ D.blocks block_state.now.directory },
    ghost few: { length block_state.now.blocks.bytes.items ≤ 1024 },
}

impl<'a, const W: usize, D: Directory> Past<W> for LinkPast<'a, W, D> {
    ghost use Rattle.tl_manager.specs.code.LinkState.{IsLinkPast};

    ghost knows = { λ p t. IsLinkPast D.perm_of p.link p.link_state.now p.block_state.now t };

    fn is_pending(&self, key: Key) -> bool {
        match key {
            Key::RequestSource(source) => {
                self.link_state.comes_in_request(source)
                    || self.block_state.trackers.asked(self.link, source).is_some()
            }
            Key::ReleaseSource(source) => self.link_state.comes_with(source),
            Key::AcquireOf(block) => self
                .block_state
                .trackers
                .of_block(block)
                .awaits_grant(self.link),
            Key::ReleaseOf(block) => self.link_state.comes_of(block),
            Key::GrantSink(sink) => self
                .block_state
                .trackers
                .at(sink)
                .awaits_grant_ack(self.link),
            Key::GrantAckOf(block) => self
                .block_state
                .trackers
                .of_block(block)
                .awaits_grant_ack(self.link),
            Key::ProbeOf(block) => self
                .block_state
                .trackers
                .of_block(block)
                .awaits_probe_ack(self.link),
        }
    }

    fn held(&self, block: u32) -> Perm {
        if (block as usize) < self.block_state.blocks.count() {
            self.block_state.directory.get(block as u16, self.link.0)
        } else {
            Perm::None
        }
    }

    fn request(&self, source: u8) -> Option<Request> {
        match self.block_state.trackers.asked(self.link, source) {
            None => None,
            Some(request) => Some(Request {
                opcode: request.opcode,
                param: request.param,
                size: request.size,
                block: block_at(request.address),
            }),
        }
    }

    fn release(&self, _source: u8) -> Option<u8> {
        None
    }

    fn probe(&self, block: u32) -> Option<Probe> {
        let tracker = self.block_state.trackers.of_block(block);
        if !tracker.awaits_probe_ack(self.link) {
            return None;
        }
        probe_for(&tracker)
    }

    fn has_grant(&self, sink: u8) -> bool {
        self.block_state
            .trackers
            .at(sink)
            .awaits_grant_ack(self.link)
    }
}
