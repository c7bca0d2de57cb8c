//! A manager whose clients have the liberties `drops` and `ids`.

ghost use Rattle.std.specs.Prelude.{ℕ, ◌≡◌, ◌≤◌, ◌<◌, ◌^◌, length, is_none};
ghost use Rattle.tl_beat.specs.statement.Width.{IsWidth, IsWidth-prop};
ghost use Rattle.tl_params.specs.declared.config.Config.{Config};
ghost use Rattle.tl_params.specs.declared.perm.Perm.TheVariants as perm;
ghost use Rattle.tl_manager.specs.code.Answers.{IsAnswer};
ghost use Rattle.tl_manager.specs.code.Knows.{Knows};
ghost use Rattle.tl_manager.specs.statement.End.{End};
ghost use Rattle.tl_manager.specs.statement.Offer.{offered, open_level};
ghost use Rattle.tl_partner.specs.statement.Lenient.{answer_named, misnamed_rule, offered_plain, offered_lenient};
ghost use Rattle.tl_partner.specs.statement.Lenient.{stalls_lenient};
ghost use Rattle.tl_partner.specs.statement.Dropping.{after_drop, is_drop, is_reporting};

use crate::reading::{block_of, is_by_record, release_beat, says_none};
use crate::terms::Terms;
use std::alloc::Global;
use tl_beat::beat::{Beat, Link};
use tl_beat::channel::Channel;
use tl_manager::directory::Directory;
use tl_manager::manager::reply::Outbox;
use tl_manager::manager::{Manager, Taken};
use tl_rules::config::{Config, NewFault};
use tl_rules::legality::beat::check_beat;
use tl_rules::rule::Rule;

/// A manager whose clients have liberties. It passes each beat to a manager under the first profile, and also the
/// Releases for the copies that its clients dropped.
#[derive(Drop)]
pub struct Lenient<const W: usize, D: Directory> {
    pub terms: Terms,
    pub manager: Manager<W, D>,
    ghost width: { IsWidth W } by { IsWidth-prop W },
}

impl<const W: usize, D: Directory> Lenient<W, D> {
    ghost use Rattle.tl_partner.specs.code.New.{IsNewLenient};

    /// A manager of a configuration with these terms, with a new directory that covers it. The error is the first limit
    /// that is broken, in the order N1 to N4, or `Memory`.
    pub fn new(alloc: Global, config: &Config, directory: D, terms: Terms) -> Result<Self, NewFault>
        requires width { IsWidth W }
        requires fresh { (block client : ℕ) → D.perm_of directory block client ≡ perm.None }
        requires blocks { config.now.blocks ≤ D.blocks directory }
        requires clients { length config.now.clients.items ≤ D.clients directory }
        ensures new { IsNewLenient D.perm_of (λ p. p.manager) (λ p. p.terms) config.now terms result }
    {
        let manager = Manager::new(alloc, config, directory)?;
        Ok(Lenient { terms, manager })
    }

    /// The rule that a ProbeAck with another source than its Probe breaks.
    fn misnamed_rule(&self, link: Link, channel: Channel, beat: &Beat<W>) -> Rule
        ensures { (config : Config) (e : End W) → Knows D.perm_of self.now.manager config e →
            result ≡ misnamed_rule (open_level config link e) channel beat.now (is_reporting link e.trace) }
    {
        let Some(level) = self.manager.open_level(link) else {
            return Rule::A3;
        };
        if let Err(rule) = check_beat(level, channel, beat) {
            return rule;
        }
        if self.manager.is_reporting(link) {
            Rule::S1
        } else {
            Rule::H10
        }
    }

    /// Whether a beat shows that its client dropped a copy which is recorded.
    fn is_drop(&self, link: Link, channel: Channel, beat: &Beat<W>) -> bool
        ensures { (config : Config) (e : End W) → Knows D.perm_of self.now.manager config e →
            result ≡ is_drop self.now.terms config link channel beat.now e }
    {
        self.terms.drops && says_none(beat) && is_by_record(self.manager.judge(link, channel, beat))
    }

    /// Takes the Release that a client didn't send.
    pub fn drop_copy(&mut self, link: Link, block: u32)
        requires { block < 2 ^ 26 }
        ensures after { (config : Config) (e : End W) → Knows D.perm_of self.old.manager config e →
            Knows D.perm_of self.new.manager config (after_drop config link block e) }
        ensures terms { self.new.terms ≡ self.old.terms }
    {
        let release = release_beat(block, self.manager.recorded(link, block));
        let mut outbox = Outbox::Nothing;
        let _ = self
            .manager
            .offer_into(link, Channel::C, &release, &mut outbox);
    }

    /// Offers a beat, and gives each Probe that is handed out the source of its link.
    fn pass(&mut self, link: Link, channel: Channel, beat: &Beat<W>) -> Result<Taken<W>, Rule>
        ensures answer { (config : Config) (e : End W) → Knows D.perm_of self.old.manager config e →
            IsAnswer result (answer_named self.old.terms (offered config link channel beat.now e).0) }
        ensures after { (config : Config) (e : End W) → Knows D.perm_of self.old.manager config e →
            Knows D.perm_of self.new.manager config (offered config link channel beat.now e).1 }
        ensures terms { self.new.terms ≡ self.old.terms }
    {
        match self.manager.offer(link, channel, beat)? {
            Taken::Stalled => Ok(Taken::Stalled),
            Taken::Sent(handed) => Ok(Taken::Sent(self.terms.all_named(&handed))),
        }
    }

    /// Takes a beat in the form of the first profile, and the drop that it may show; or stalls it, or refuses it.
    fn offer_plain(
        &mut self,
        link: Link,
        channel: Channel,
        beat: &Beat<W>,
    ) -> Result<Taken<W>, Rule>
        ensures answer { (config : Config) (e : End W) → Knows D.perm_of self.old.manager config e →
            IsAnswer result (offered_plain self.old.terms config link channel beat.now e).0 }
        ensures after { (config : Config) (e : End W) → Knows D.perm_of self.old.manager config e →
            Knows D.perm_of self.new.manager config (offered_plain self.old.terms config link channel beat.now e).1 }
        ensures terms { self.new.terms ≡ self.old.terms }
    {
        if !self.is_drop(link, channel, beat) {
            return self.pass(link, channel, beat);
        }
        if self.manager.is_reporting(link) {
            return Ok(Taken::Stalled);
        }
        self.drop_copy(link, block_of(beat));
        self.pass(link, channel, beat)
    }

    /// Takes a beat, stalls it, or refuses it by the first rule that it breaks. A refusal closes the link.
    pub fn offer(&mut self, link: Link, channel: Channel, beat: &Beat<W>) -> Result<Taken<W>, Rule>
        ensures answer { (config : Config) (e : End W) → Knows D.perm_of self.old.manager config e →
            IsAnswer result (offered_lenient self.old.terms config link channel beat.now e).0 }
        ensures after { (config : Config) (e : End W) → Knows D.perm_of self.old.manager config e →
            Knows D.perm_of self.new.manager config (offered_lenient self.old.terms config link channel beat.now e).1 }
        ensures terms { self.new.terms ≡ self.old.terms }
    {
        let plain = self.terms.plain(beat);
        if self.terms.is_misnamed(link, beat) {
            let rule = self.misnamed_rule(link, channel, &plain);
            self.manager.close(link);
            return Err(rule);
        }
        self.offer_plain(link, channel, &plain)
    }

    /// Whether a beat would be stalled.
    pub fn stalls(&self, link: Link, channel: Channel, beat: &Beat<W>) -> bool
        ensures { (config : Config) (e : End W) → Knows D.perm_of self.now.manager config e →
            result ≡ stalls_lenient self.now.terms config link channel beat.now e }
    {
        if self.terms.is_misnamed(link, beat) {
            return false;
        }
        let plain = self.terms.plain(beat);
        if self.is_drop(link, channel, &plain) {
            return self.manager.is_reporting(link);
        }
        self.manager.stalls(link, channel, &plain)
    }

    /// Whether a link takes no beats, since it is closed or there is no such link.
    pub fn closed(&self, link: Link) -> bool
        ensures { (config : Config) (e : End W) → Knows D.perm_of self.now.manager config e →
            result ≡ is_none (open_level config link e) }
    {
        self.manager.closed(link)
    }
}
