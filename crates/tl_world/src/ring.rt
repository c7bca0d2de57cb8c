//! A channel of a link: the beats that were handed out on it and not yet taken.

ghost use Rattle.std.specs.Prelude.{◌≡◌, ◌==◌, ◌+◌, ◌++◌, ◌≤◌, ◌<◌, ◌^◌, length, drop, slice_get, IfOk, max, []};
ghost use Rattle.std.specs.Option.{option_copied};
ghost use Rattle.circular_buffer.specs.Buffer.{buffer};
ghost use Rattle.tl_beat.specs.statement.Width.{IsWidth};
ghost use Rattle.tl_burst.specs.statement.Burst;
ghost use Rattle.tl_rules.specs.statement.Legality.{beats_from};

use circular_buffer::HeapCircularBuffer;
use std::alloc::{AllocError, Global};
use tl_beat::beat::Beat;
use tl_burst::burst::{beat_at, beats_of, change};
use tl_burst::message::Message;

/// The beats of a channel, the oldest first, and the greatest number of them that it has ever held.
#[derive(Drop)]
pub struct Ring<const W: usize> {
    pub beats: HeapCircularBuffer<Beat<W>>,
    pub deepest: u16,
    pub ghost small: { beats.capacity < 2 ^ 16 },
    pub ghost covered: { length beats.items ≤ deepest },
}

/// Appends the beats of a message. There must be room for them.
fn push_beats<const W: usize>(beats: &mut HeapCircularBuffer<Beat<W>>, message: &Message<W>)
    requires { IsWidth W }
    ensures capacity { beats.new.capacity ≡ beats.old.capacity }
    ensures items { length beats.old.items + Burst.beats_of message.now ≤ beats.old.capacity →
        beats.new.items ≡ beats.old.items ++ beats_from message.now 0 (Burst.beats_of message.now) }
{
    let mut beat = beat_at(message, 0);
    for i in 0..beats_of(message) {
        if i != 0 {
            change(&mut beat, message, i);
        }
        beats.push_back(beat);
    }
}

impl<const W: usize> Ring<W> {
    /// An empty channel with room for this many beats. The error means that there is no memory left.
    pub fn new(alloc: Global, capacity: u16) -> Result<Self, AllocError>
        ensures { IfOk result (λ ring. (ring.beats ≡ buffer [] capacity) × (ring.deepest ≡ 0)) }
    {
        let beats = HeapCircularBuffer::with_capacity(alloc, usize::from(capacity))?;
        Ok(Ring { beats, deepest: 0 })
    }

    /// Appends the beats of a message. There must be room for them.
    pub fn send(&mut self, message: &Message<W>)
        requires { IsWidth W }
        ensures capacity { self.new.beats.capacity ≡ self.old.beats.capacity }
        ensures items { length self.old.beats.items + Burst.beats_of message.now ≤ self.old.beats.capacity →
            self.new.beats.items ≡ self.old.beats.items ++ beats_from message.now 0 (Burst.beats_of message.now) }
        ensures deepest { self.new.deepest ≡ max self.old.deepest (length self.new.beats.items) }
    {
        push_beats(&mut self.beats, message);
        let count = self.beats.len() as u16;
        if count > self.deepest {
            self.deepest = count;
        }
    }

    /// The first beat.
    pub fn first(&self) -> Option<&Beat<W>>
        ensures { option_copied result ≡ slice_get self.now.beats.items 0 }
    {
        self.beats.front()
    }

    /// Removes the first beat, and returns whether none is left.
    pub fn drop_first(&mut self) -> bool
        ensures beats { self.new.beats ≡ buffer (drop 1 self.old.beats.items) self.old.beats.capacity }
        ensures deepest { self.new.deepest ≡ self.old.deepest }
        ensures empty { result ≡ (length self.new.beats.items == 0) }
    {
        self.beats.pop_front();
        self.beats.is_empty()
    }
}
