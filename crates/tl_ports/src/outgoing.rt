//! The beats that an agent has still to send: messages go out beat by beat, over many cycles.

ghost use Rattle.std.specs.Prelude.{ℕ, ◌≡◌, ◌≤◌, ◌+◌, ◌++◌, [], length, drop, slice_get, OnOk, if◌then◌else◌};
ghost use Rattle.tl_beat.specs.declared.channel.Channel.{Channel};
ghost use Rattle.tl_beat.specs.statement.Width.{IsWidth};
ghost use Rattle.tl_burst.specs.statement.Messages.{on};
ghost use Rattle.tl_ports.specs.statement.Waiting.{is_on_link, waiting, handed_on, handed_all, is_place};
ghost use Rattle.tl_ports.specs.code.Room.{HasRoom};
ghost use Rattle.tl_ports.specs.code.First.{IsFirst};

use std::alloc::{AllocError, Global};
use tl_beat::beat::{Beat, Link};
use tl_beat::channel::Channel;
use tl_burst::burst::{beat_at, beats_of};
use tl_burst::message::Message;

/// The beats that an agent handed out and has still to send, each with its link. A contract sees the beats of each
/// channel of each link, the oldest first.
#[derive(Drop)]
pub struct Outgoing<const W: usize> {
    pub beats: Vec<(Link, Beat<W>)>,
}

/// Whether the beat is of the channel.
fn is_on<const W: usize>(channel: Channel, beat: &Beat<W>) -> bool
    ensures { result ≡ on channel beat.now }
{
    matches!(
        (channel, beat),
        (Channel::A, Beat::A(_))
            | (Channel::B, Beat::B(_))
            | (Channel::C, Beat::C(_))
            | (Channel::D, Beat::D(_))
            | (Channel::E, Beat::E(_))
    )
}

impl<const W: usize> Outgoing<W> {
    /// No beat waits.
    pub fn new(alloc: Global) -> Self
        ensures { (link : ℕ) (ch : Channel) → waiting link ch result ≡ [] }
    {
        Outgoing {
            beats: Vec::new(alloc),
        }
    }

    /// Makes room for the beats of this many messages, at most 16. The waiting beats stay. The error means that there
    /// is no memory left.
    pub fn make_room(&mut self, messages: usize) -> Result<(), AllocError>
        requires { messages ≤ 16 }
        ensures room { OnOk result (HasRoom messages self.new) }
        ensures same { (link : ℕ) (ch : Channel) → waiting link ch self.new ≡ waiting link ch self.old }
    {
        self.beats.reserve(16 * messages)
    }

    /// Appends the beats of a message that is handed out on a link. There must be room for them.
    pub fn send(&mut self, link: Link, message: &Message<W>)
        requires width { IsWidth W }
        requires room { HasRoom 1 self.old }
        ensures behind { (l : ℕ) (ch : Channel) →
            waiting l ch self.new ≡ waiting l ch self.old ++ handed_on l ch link message.now }
        ensures room { (n : ℕ) → HasRoom (n + 1) self.old → HasRoom n self.new }
    {
        for i in 0..beats_of(message) {
            let _ = self.beats.push((link, beat_at(message, i)));
        }
    }

    /// Appends the beats of messages, each with its link, in order. There must be room for them.
    pub fn send_all(&mut self, handed: &[(Link, Message<W>)])
        requires width { IsWidth W }
        requires room { HasRoom (length handed.now) self.old }
        ensures { (l : ℕ) (ch : Channel) →
            waiting l ch self.new ≡ waiting l ch self.old ++ handed_all l ch handed.now }
    {
        for message in handed {
            self.send(message.0, &message.1);
        }
    }

    /// The place of the first beat that waits on a channel of a link.
    fn place(&self, link: Link, channel: Channel) -> Option<usize>
        requires { IsWidth W }
        ensures { IsFirst (λ x. is_on_link link.0 channel x) self.now.beats.items result }
    {
        for i in 0..self.beats.len() {
            let waiting = self.beats[i];
            if waiting.0.0 == link.0 && is_on(channel, &waiting.1) {
                return Some(i);
            }
        }
        None
    }

    /// The first beat that waits on a channel of a link.
    pub fn next(&self, link: Link, channel: Channel) -> Option<Beat<W>>
        requires { IsWidth W }
        ensures { result ≡ slice_get (waiting link.0 channel self.now) 0 }
    {
        match self.place(link, channel) {
            None => None,
            Some(place) => Some(self.beats[place].1),
        }
    }

    /// Removes the first beat that waits on a channel of a link, and returns it. The caller sends it now.
    pub fn pop(&mut self, link: Link, channel: Channel) -> Option<Beat<W>>
        requires { IsWidth W }
        ensures first { result ≡ slice_get (waiting link.0 channel self.old) 0 }
        ensures rest { (l : ℕ) (ch : Channel) → waiting l ch self.new
            ≡ (if is_place l ch link.0 channel then drop 1 (waiting l ch self.old) else waiting l ch self.old) }
    {
        match self.place(link, channel) {
            None => None,
            Some(place) => Some(self.beats.remove(place).1),
        }
    }
}
