//! A manager's end of its links, with the beats that it has still to send.

ghost use Rattle.std.specs.Prelude.{◌≡◌};
ghost use Rattle.tl_beat.specs.statement.Width.{IsWidth, IsWidth-prop};

use crate::outgoing::Outgoing;
use std::alloc::{AllocError, Global};
use tl_beat::beat::{Beat, Link};
use tl_beat::channel::Channel;
use tl_manager::bits::BitDirectory;
use tl_manager::manager::Taken;
use tl_manager::manager::admission::Admission;
use tl_partner::partner::Partner;
use tl_partner::terms::Terms;
use tl_rules::config::{Config, MOST_CLIENTS, NewFault};
use tl_rules::rule::Rule;

/// A manager of up to sixteen links, whose clients may have liberties, with the beats that it handed out and has still
/// to send.
#[derive(Drop)]
pub struct ManagerPort<const W: usize> {
    pub partner: Partner<W, BitDirectory>,
    pub outgoing: Outgoing<W>,
    pub ghost width: { IsWidth W } by { IsWidth-prop W },
}

/// The answer to a beat that is offered to a manager. The outer error means that there is no memory.
pub type Admitted = Result<Result<Admission, Rule>, AllocError>;

impl<const W: usize> ManagerPort<W> {
    ghost use Rattle.std.specs.Prelude.{is_none};
    ghost use Rattle.tl_params.specs.declared.config.Config.{Config};
    ghost use Rattle.tl_manager.specs.statement.End.{End};
    ghost use Rattle.tl_manager.specs.statement.Offer;
    ghost use Rattle.tl_partner.specs.declared.terms.Terms.{Terms};
    ghost use Rattle.tl_partner.specs.statement.Cleaning.{PartnerEnd};
    ghost use Rattle.tl_partner.specs.statement.Partner.{stalls_under};
    ghost use Rattle.tl_ports.specs.statement.Manager.{KnowsEnd, KnowsEndUnder, AdmitTold, IsNewManager};
    ghost use Rattle.tl_ports.specs.statement.Manager.{PoppedOn, next_beat_on};

    /// A new manager of a configuration, whose clients have the liberties of these terms. The error is the first limit
    /// that is broken, in the order N1 to N4, or `Memory`.
    pub fn new(alloc: Global, config: &Config, terms: Terms) -> Result<Self, NewFault>
        requires { IsWidth W }
        ensures { IsNewManager config.now terms result }
    {
        config.check()?;
        let directory = BitDirectory::new(alloc, config.blocks, config.clients.len() as u8)?;
        let partner = Partner::new(alloc, config, directory, terms)?;
        let outgoing = Outgoing::new(alloc);
        Ok(ManagerPort { partner, outgoing })
    }

    /// Takes a beat on this channel, stalls it or refuses it, as the manager does. The beats of its messages wait to be
    /// sent. The outer error means that there is no memory; then nothing changes.
    pub fn offer(&mut self, link: Link, channel: Channel, beat: &Beat<W>) -> Admitted
        ensures { AdmitTold self.old self.new link channel beat.now result }
    {
        self.outgoing.make_room(MOST_CLIENTS)?;
        match self.partner.offer(link, channel, beat) {
            Err(rule) => Ok(Err(rule)),
            Ok(Taken::Stalled) => Ok(Ok(Admission::Waits)),
            Ok(Taken::Sent(handed)) => {
                self.outgoing.send_all(handed.as_slice());
                Ok(Ok(Admission::Passes))
            }
        }
    }

    /// Whether `offer` would stall this beat.
    pub fn stalls(&self, link: Link, channel: Channel, beat: &Beat<W>) -> bool
        ensures alone { (config : Config) (e : End W) → KnowsEnd self.now config e →
            result ≡ Offer.stalls config link channel beat.now e }
        ensures under { (terms : Terms) (config : Config) (e : PartnerEnd W) → KnowsEndUnder self.now terms config e →
            result ≡ stalls_under terms config link channel beat.now e }
    {
        self.partner.stalls(link, channel, beat)
    }

    /// The next beat to send on a channel of a link.
    pub fn next(&self, link: Link, channel: Channel) -> Option<Beat<W>>
        ensures { result ≡ next_beat_on link.0 channel self.now }
    {
        self.outgoing.next(link, channel)
    }

    /// Removes the next beat to send on a channel of a link, and returns it. The caller sends it now.
    pub fn pop(&mut self, link: Link, channel: Channel) -> Option<Beat<W>>
        ensures next { result ≡ next_beat_on link.0 channel self.old }
        ensures rest { PoppedOn link.0 channel self.old self.new }
    {
        self.outgoing.pop(link, channel)
    }

    /// Whether a link takes no beats, since it is closed or there is no such link.
    pub fn closed(&self, link: Link) -> bool
        ensures alone { (config : Config) (e : End W) → KnowsEnd self.now config e →
            result ≡ is_none (Offer.open_level config link e) }
        ensures under { (terms : Terms) (config : Config) (e : PartnerEnd W) → KnowsEndUnder self.now terms config e →
            result ≡ is_none (Offer.open_level config link e.manager) }
    {
        self.partner.closed(link)
    }
}
