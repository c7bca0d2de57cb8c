//! The place of a channel among those of all links.

ghost use Rattle.std.specs.Prelude.{◌≡◌};
ghost use Rattle.tl_world.specs.code.Carrying;

use tl_beat::beat::Link;
use tl_beat::channel::Channel;

/// The number of a channel among those of its link.
pub fn number(channel: Channel) -> usize
    ensures { result ≡ Carrying.number channel }
{
    match channel {
        Channel::A => 0,
        Channel::B => 1,
        Channel::C => 2,
        Channel::D => 3,
        Channel::E => 4,
    }
}

/// The place of a channel of a link among those of all links.
pub fn place(link: Link, channel: Channel) -> usize
    ensures { result ≡ Carrying.place link.0 channel }
{
    5 * usize::from(link.0) + number(channel)
}
