//! The channels that hold a beat.

ghost use Rattle.std.specs.Prelude.{ℕ, ◌≡◌, ◌≢◌, ◌<◌, IfSome};
ghost use Rattle.std.specs.Int.{bit_at};
ghost use Rattle.tl_beat.specs.declared.channel.Channel.{Channel};
ghost use Rattle.tl_manager.specs.code.Bit.{bit_if};
ghost use Rattle.tl_world.specs.code.Carrying.{AreClear, place, word_of};

use crate::place::number;
use tl_beat::beat::Link;
use tl_beat::channel::Channel;
use tl_manager::word::with_bit;

/// The place of the lowest bit that is set in a word; None if no bit is.
pub fn lowest(word: u16) -> Option<u8>
    ensures none { result ≡ None → word ≡ 0 }
    ensures some { IfSome result (λ least. (least < 16) × (bit_at word least ≡ 1)
        × ((k : ℕ) → k < least → bit_at word k ≡ 0)) }
{
    if word == 0 {
        None
    } else {
        Some(word.trailing_zeros() as u8)
    }
}

/// A word for each channel, with a bit for each link that is set while the channel of that link holds a beat.
#[derive(Clone, Copy)]
pub struct NonEmptyChannels {
    pub words: [u16; 5],
}

impl NonEmptyChannels {
    /// No channel holds a beat.
    pub fn new() -> Self
        ensures { AreClear result }
    {
        NonEmptyChannels { words: [0; 5] }
    }

    /// The links whose channel holds a beat, a bit for each.
    pub fn links(&self, channel: Channel) -> u16
        ensures { result ≡ word_of self.now channel }
    {
        self.words[number(channel)]
    }

    /// Sets whether this channel of the link holds a beat.
    pub fn mark(&mut self, link: Link, channel: Channel, holds: bool)
        requires { link.0 < 16 }
        ensures here { bit_at (word_of self.new channel) link.0 ≡ bit_if holds }
        ensures others { (k : ℕ) (ch : Channel) → place k ch ≢ place link.0 channel → bit_at (word_of self.new ch) k
            ≡ bit_at (word_of self.old ch) k }
    {
        let number = number(channel);
        self.words[number] = with_bit(self.words[number], link.0, holds);
    }
}
