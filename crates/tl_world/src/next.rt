//! The next delivery.

ghost use Rattle.std.specs.Prelude.{◌≡◌, ◌<◌, ◌∷◌, [], not};
ghost use Rattle.tl_beat.specs.statement.Width.{IsWidth};
ghost use Rattle.tl_params.specs.declared.config.Config.{Config};
ghost use Rattle.tl_world.specs.code.Holds.{Holds, clients_of, may_wait};
ghost use Rattle.tl_coherence.specs.statement.Movable;
ghost use Rattle.tl_coherence.specs.statement.Movable.{is_movable};
ghost use Rattle.tl_coherence.specs.statement.System.{System, terms_at};

use crate::clients::stalls_at;
use crate::network::Network;
use crate::non_empty::lowest;
use crate::step::is_to_client;
use tl_beat::beat::{Beat, Link};
use tl_beat::channel::Channel;
use tl_client::agent::Agent;
use tl_manager::directory::Directory;
use tl_manager::word::with_bit;

/// Whether the end that takes a beat may stall it. A manager stalls requests, a client Probes.
fn may_wait<const W: usize>(beat: &Beat<W>) -> bool
    ensures { result ≡ may_wait beat.now }
{
    matches!(beat, Beat::A(_) | Beat::B(_))
}

impl<const W: usize, A: Agent<W>, D: Directory> Network<W, A, D> {
    /// Whether the end that takes the beat stalls it.
    fn stalls(&self, link: Link, channel: Channel, beat: &Beat<W>) -> bool
        requires width { IsWidth W }
        ensures { (config : Config) (s : System W) → Holds A.represents A.terms D.perm_of config self.now s →
            link.0 < clients_of config →
            Movable.moves config (terms_at config link.0) link.0 channel (beat.now ∷ []) s ≡ not result }
    {
        if !may_wait(beat) {
            return false;
        }
        if is_to_client(channel) {
            stalls_at(&self.clients, usize::from(link.0), channel, beat)
        } else {
            self.manager.stalls(link, channel, beat)
        }
    }

    /// Whether a delivery moves a beat.
    fn moves(&self, link: Link, channel: Channel) -> bool
        requires width { IsWidth W }
        ensures { (config : Config) (s : System W) → Holds A.represents A.terms D.perm_of config self.now s →
            result ≡ is_movable config link.0 channel s }
    {
        match self.rings.first(link, channel) {
            None => false,
            Some(beat) => !self.stalls(link, channel, beat),
        }
    }

    /// The first delivery on a channel that moves a beat. It looks only at links with a beat on the channel.
    #[inline(always)]
    fn movable_on(&self, channel: Channel) -> Option<(Link, Channel)>
        requires { IsWidth W }
        ensures { (config : Config) (s : System W) → Holds A.represents A.terms D.perm_of config self.now s →
            result ≡ Movable.movable_on config channel s }
    {
        let mut links = self.rings.non_empty.links(channel);
        while let Some(number) = lowest(links) {
            if self.moves(Link(number), channel) {
                return Some((Link(number), channel));
            }
            links = with_bit(links, number, false);
        }
        None
    }

    /// The first delivery that moves a beat.
    #[tactic(auto, unfolding(tl_coherence::specs::statement::Movable::next_delivery))]
    pub fn next_delivery(&self) -> Option<(Link, Channel)>
        requires { IsWidth W }
        ensures { (config : Config) (s : System W) → Holds A.represents A.terms D.perm_of config self.now s →
            result ≡ Movable.next_delivery config s }
    {
        if let Some(next) = self.movable_on(Channel::E) {
            return Some(next);
        }
        if let Some(next) = self.movable_on(Channel::D) {
            return Some(next);
        }
        if let Some(next) = self.movable_on(Channel::C) {
            return Some(next);
        }
        if let Some(next) = self.movable_on(Channel::B) {
            return Some(next);
        }
        self.movable_on(Channel::A)
    }
}
