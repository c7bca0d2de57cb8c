//! The channels of all links.

ghost use Rattle.std.specs.Prelude.{ℕ, ◌≡◌, ◌≢◌, ◌==◌, ◌+◌, ◌*◌, ◌++◌, ◌∷◌, ◌≤◌, ◌<◌, List};
ghost use Rattle.std.specs.Prelude.{length, drop, max, slice_get, slice_index_or};
ghost use Rattle.std.specs.Option.{option_copied};
ghost use Rattle.circular_buffer.specs.Buffer.{buffer};
ghost use Rattle.tl_beat.specs.statement.Width.{IsWidth};
ghost use Rattle.tl_beat.specs.declared.beat.Beat.{Beat};
ghost use Rattle.tl_burst.specs.statement.Burst;
ghost use Rattle.tl_rules.specs.statement.Legality.{beats_from};
ghost use Rattle.tl_world.specs.declared.ring.Ring.{Ring};
ghost use Rattle.tl_coherence.specs.statement.System.{channel_of_message};

use crate::non_empty::NonEmptyChannels;
use crate::place::place;
use crate::ring::Ring;
use tl_beat::beat::{Beat, Link};
use tl_beat::channel::Channel;
use tl_burst::message::Message;
use tl_manager::manager::reply::{Outbox, probe};
use tl_rules::param::Cap;

fn channel_of<const W: usize>(message: &Message<W>) -> Channel
    ensures { result ≡ channel_of_message message.now }
{
    match message {
        Message::A(_) => Channel::A,
        Message::B(_) => Channel::B,
        Message::C(_) => Channel::C,
        Message::D(_) => Channel::D,
        Message::E(_) => Channel::E,
    }
}

/// Appends the beats of a message to one channel, which must have room for them.
fn send_at<const W: usize>(rings: &mut Vec<Ring<W>>, at: usize, message: &Message<W>)
    requires width { IsWidth W }
    requires inside { at < length rings.old.items }
    ensures number { length rings.new.items ≡ length rings.old.items }
    ensures capacity { (d : Ring W) → (slice_index_or rings.new.items at d).beats.capacity
        ≡ (slice_index_or rings.old.items at d).beats.capacity }
    ensures items { (d : Ring W) →
        length (slice_index_or rings.old.items at d).beats.items
        + Burst.beats_of message.now ≤ (slice_index_or rings.old.items at d).beats.capacity →
        (slice_index_or rings.new.items at d).beats.items ≡ (slice_index_or rings.old.items at d).beats.items
        ++ beats_from message.now 0 (Burst.beats_of message.now) }
    ensures deepest { (d : Ring W) → (slice_index_or rings.new.items at d).deepest
        ≡ max (slice_index_or rings.old.items at d).deepest (length (slice_index_or rings.new.items at d).beats.items) }
    ensures others { (k : ℕ) (d : Ring W) → k ≢ at → slice_index_or rings.new.items k d
        ≡ slice_index_or rings.old.items k d }
{
    rings[at].send(message);
}

/// Removes the first beat of one channel, and returns whether none is left.
fn drop_at<const W: usize>(rings: &mut Vec<Ring<W>>, at: usize) -> bool
    requires { at < length rings.old.items }
    ensures number { length rings.new.items ≡ length rings.old.items }
    ensures beats { (d : Ring W) → (slice_index_or rings.new.items at d).beats
        ≡ buffer (drop 1 (slice_index_or rings.old.items at d).beats.items)
        (slice_index_or rings.old.items at d).beats.capacity }
    ensures deepest { (d : Ring W) → (slice_index_or rings.new.items at d).deepest
        ≡ (slice_index_or rings.old.items at d).deepest }
    ensures empty { (d : Ring W) → result ≡ (length (slice_index_or rings.new.items at d).beats.items == 0) }
    ensures others { (k : ℕ) (d : Ring W) → k ≢ at → slice_index_or rings.new.items k d
        ≡ slice_index_or rings.old.items k d }
{
    rings[at].drop_first()
}

/// The channels of all links, at most sixteen, by the number of the link, and which of them hold a beat.
#[derive(Drop)]
pub struct Rings<const W: usize> {
    pub all: Vec<Ring<W>>,
    pub non_empty: NonEmptyChannels,
    pub ghost few: { length all.items ≤ 80 },
}

impl<const W: usize> Rings<W> {
    ghost use Rattle.tl_manager.specs.code.Outbox.{messages_of};
    ghost use Rattle.tl_manager.specs.declared.manager.reply.Outbox.TheVariants.{Probes};
    ghost use Rattle.tl_world.specs.code.Carrying;
    ghost use Rattle.tl_world.specs.code.Carrying.{Carries, Fit, AreKept, AreMoved};
    ghost use Rattle.tl_coherence.specs.statement.Step.{handed_by};
    ghost use Rattle.tl_coherence.specs.statement.System.{System, with_channel, with_message, with_messages};

    /// The first beat of a channel.
    pub fn first(&self, link: Link, channel: Channel) -> Option<&Beat<W>>
        ensures there { (n : ℕ) (s : System W) → Carries n self.now s → link.0 < n →
            option_copied result ≡ slice_get (s.channels link.0 channel) 0 }
        ensures nowhere { (n : ℕ) (s : System W) → Carries n self.now s → n ≤ link.0 → option_copied result ≡ None }
    {
        match self.all.get(place(link, channel)) {
            None => None,
            Some(ring) => ring.first(),
        }
    }

    /// The greatest number of beats that a channel has ever held.
    pub fn deepest(&self, link: Link, channel: Channel) -> u16
        ensures there { (d : Ring W) → Carrying.place link.0 channel < length self.now.all.items →
            result ≡ (slice_index_or self.now.all.items (Carrying.place link.0 channel) d).deepest }
        ensures nowhere { length self.now.all.items ≤ Carrying.place link.0 channel → result ≡ 0 }
    {
        match self.all.get(place(link, channel)) {
            None => 0,
            Some(ring) => ring.deepest,
        }
    }

    /// Removes the first beat of a channel.
    pub fn drop_first(&mut self, link: Link, channel: Channel)
        ensures kept { AreKept self.old self.new }
        ensures moved { (n : ℕ) (s : System W) (x : Beat W) (rest : List (Beat W)) → Carries n self.old s → link.0 < n →
            s.channels link.0 channel ≡ x ∷ rest →
            AreMoved n self.old self.new (with_channel link.0 channel rest s) }
    {
        let at = place(link, channel);
        if at >= self.all.len() {
            return;
        }
        if drop_at(&mut self.all, at) {
            self.non_empty.mark(link, channel, false);
        }
    }

    /// Appends the beats of a message to its channel.
    pub fn send(&mut self, link: Link, message: &Message<W>)
        requires { IsWidth W }
        ensures kept { AreKept self.old self.new }
        ensures moved { (n : ℕ) (s : System W) → Carries n self.old s →
            Fit n self.old (with_message link.0 message.now s) →
            AreMoved n self.old self.new (with_message link.0 message.now s) }
    {
        let channel = channel_of(message);
        let at = place(link, channel);
        if at < self.all.len() {
            send_at(&mut self.all, at, message);
            self.non_empty.mark(link, channel, true);
        }
    }

    /// Appends the beats of a message to its channel, if there is a message.
    pub fn send_if_any(&mut self, link: Link, message: &Option<Message<W>>)
        requires { IsWidth W }
        ensures kept { AreKept self.old self.new }
        ensures moved { (n : ℕ) (s : System W) → Carries n self.old s →
            Fit n self.old (with_messages (handed_by link.0 message.now) s) →
            AreMoved n self.old self.new (with_messages (handed_by link.0 message.now) s) }
    {
        match message {
            None => {}
            Some(message) => self.send(link, message),
        }
    }

    /// Appends a Probe of a block to channel B of each link whose bit is set, the lowest first.
    fn send_probes(&mut self, block: u16, cap: Cap, clients: u16)
        requires { IsWidth W }
        ensures kept { AreKept self.old self.new }
        ensures moved { (n : ℕ) (s : System W) → Carries n self.old s →
            Fit n self.old (with_messages (messages_of (Probes block cap clients)) s) →
            AreMoved n self.old self.new (with_messages (messages_of (Probes block cap clients)) s) }
    {
        let message = probe(u32::from(block), cap);
        for client in 0..16u8 {
            if (clients >> client) % 2 == 0 {
                continue;
            }
            self.send(Link(client), &message);
        }
    }

    /// Appends the beats of the messages that a manager hands out to their channels.
    pub fn send_out(&mut self, outbox: &Outbox<W>)
        requires { IsWidth W }
        ensures kept { AreKept self.old self.new }
        ensures moved { (n : ℕ) (s : System W) → Carries n self.old s →
            Fit n self.old (with_messages (messages_of outbox.now) s) →
            AreMoved n self.old self.new (with_messages (messages_of outbox.now) s) }
    {
        match outbox {
            Outbox::Nothing => {}
            Outbox::One(sent) => self.send(sent.0, &sent.1),
            Outbox::Probes {
                block,
                cap,
                clients,
            } => self.send_probes(*block, *cap, *clients),
        }
    }
}
