//! The channels of a new world.

ghost use Rattle.std.specs.Prelude.{◌≡◌, ◌*◌, ◌/◌, IfOk, length};
ghost use Rattle.tl_beat.specs.statement.Width.{IsWidth};
ghost use Rattle.tl_world.specs.code.Carrying;
ghost use Rattle.tl_world.specs.code.Carrying.{AreClear, AreFresh};
ghost use Rattle.tl_coherence.specs.statement.Delivery;

use crate::non_empty::NonEmptyChannels;
use crate::ring::Ring;
use crate::rings::Rings;
use std::alloc::{AllocError, Global};
use tl_beat::channel::Channel;
use tl_rules::config::Config;

fn channel_at(number: usize) -> Channel
    ensures { result ≡ Carrying.channel_at number }
{
    match number {
        0 => Channel::A,
        1 => Channel::B,
        2 => Channel::C,
        3 => Channel::D,
        _ => Channel::E,
    }
}

/// The number of beats for which a channel has room, by the numbers of sources and trackers.
fn capacity<const W: usize>(sources: u8, trackers: u8, channel: Channel) -> u16
    requires { IsWidth W }
    ensures { result ≡ Delivery.capacity (64 / W) sources trackers channel }
{
    let beats = (64 / W) as u16;
    let sources = u16::from(sources);
    let trackers = u16::from(trackers);
    match channel {
        Channel::A => beats * sources,
        Channel::B => trackers,
        Channel::C => beats * (sources + trackers),
        Channel::D => (beats + 1) * sources,
        Channel::E => trackers,
    }
}

/// The channels of each client's link, all empty. The error means that there is no memory left.
pub fn make_rings<const W: usize>(alloc: Global, config: &Config) -> Result<Rings<W>, AllocError>
    requires { IsWidth W }
    ensures fresh { IfOk result (λ rings. AreFresh config.now (5 * length config.now.clients.items) rings.all.items) }
    ensures clear { IfOk result (λ rings. AreClear rings.non_empty) }
{
    let clients = config.clients.as_slice();
    let mut all = Vec::new(alloc);
    for at in 0..5 * clients.len() {
        let capacity = capacity::<W>(clients[at / 5].sources, config.trackers, channel_at(at % 5));
        all.push(Ring::new(alloc, capacity)?)?;
    }
    let non_empty = NonEmptyChannels::new();
    Ok(Rings { all, non_empty })
}
