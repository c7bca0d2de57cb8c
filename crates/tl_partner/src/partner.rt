//! A manager whose clients have liberties.

ghost use Rattle.std.specs.Prelude.{ℕ, ◌≡◌, ◌<◌, ◌≤◌, ◌∷◌, ◌^◌, [], false, not, length, is_none, replicate, slice_get, IfOk, Ok, OnOk, List};
ghost use Rattle.tl_beat.specs.declared.beat.Beat.{Beat};
ghost use Rattle.tl_beat.specs.declared.beat.BeatC.{BeatC};
ghost use Rattle.tl_beat.specs.statement.Width.{IsWidth, IsWidth-prop};
ghost use Rattle.tl_burst.specs.statement.Messages.{breaks_burst, grown};
ghost use Rattle.std.specs.Bool.{OnTrue};
ghost use Rattle.tl_burst.specs.statement.Burst.{IsBurst};
ghost use Rattle.tl_burst.specs.statement.Part.{IsTakeable, completes, is_empty};
ghost use Rattle.tl_params.specs.declared.config.Config.{Config};
ghost use Rattle.tl_params.specs.declared.perm.Perm.TheVariants as perm;
ghost use Rattle.tl_rules.specs.statement.History.{block_at};
ghost use Rattle.tl_manager.specs.code.Admission.{admission_of};
ghost use Rattle.tl_manager.specs.code.Answers.{IsAnswer, answer_of};
ghost use Rattle.tl_manager.specs.code.Knows.{Knows};
ghost use Rattle.tl_manager.specs.statement.End.{End};
ghost use Rattle.tl_manager.specs.statement.Handing;
ghost use Rattle.tl_manager.specs.statement.Offer.{Passes, Sent, judged, open_level};
ghost use Rattle.tl_partner.specs.code.Cleanings.{IsCleaningOf, KnowsPartner, cleaning_at};
ghost use Rattle.tl_partner.specs.statement.Cleaning;
ghost use Rattle.tl_partner.specs.statement.Cleaning.{PartnerEnd, cleaned_by, cleaning_as, forgotten};
ghost use Rattle.tl_partner.specs.statement.Cleaning.{is_of_cleaning, judged_cleaning, offered_cleaning};
ghost use Rattle.tl_partner.specs.statement.Granting.{granted};
ghost use Rattle.tl_partner.specs.statement.Partner.{asks_for_cleaned, held_back, held_back_as, offered_under};
ghost use Rattle.tl_partner.specs.statement.Partner.{stalls_under};

use crate::cleaning::{cleans, has_copy, is_cleaning, rule_held_back};
use crate::lenient::Lenient;
use crate::terms::Terms;
use arrayvec::ArrayVec;
use std::alloc::{AllocError, Global};
use tl_beat::beat::{Beat, Link};
use tl_beat::channel::Channel;
use tl_burst::assembler::Assembler;
use tl_burst::message::{Message, MessageC, MessageE};
use tl_manager::directory::Directory;
use tl_manager::manager::Taken;
use tl_manager::manager::admission::{Admission, admit};
use tl_manager::manager::reply::{Outbox, release_ack};
use tl_manager::manager::state::is_waiting;
use tl_manager::manager::types::prove_filled;
use tl_rules::admission::{is_outside, is_spoiled};
use tl_rules::config::{Config, NewFault};
use tl_rules::key::block_at;
use tl_rules::kind::is_acquire;
use tl_rules::order::{releases_from, reports_none};
use tl_rules::rule::Rule;

/// A manager whose clients have any of the liberties `drops`, `ids` and `reports`.
#[derive(Drop)]
pub struct Partner<const W: usize, D: Directory> {
    pub lenient: Lenient<W, D>,
    /// The unfinished cleaning of each link.
    pub cleanings: Vec<Assembler<W>>,
    ghost width: { IsWidth W } by { IsWidth-prop W },
}

/// No cleaning on any of these links.
fn no_cleanings<const W: usize>(
    alloc: Global,
    links: usize,
) -> Result<Vec<Assembler<W>>, AllocError>
    ensures { IfOk result (λ cleanings. cleanings.items ≡ replicate links []) }
{
    let mut cleanings = Vec::new(alloc);
    for _ in 0..links {
        cleanings.push(Assembler::new())?;
    }
    Ok(cleanings)
}

/// Takes a beat that continues its burst, and returns whether it completes a message. Writes that message into
/// `message`.
fn take_beat<const W: usize>(
    cleaning: &mut Assembler<W>,
    beat: &Beat<W>,
    message: &mut Message<W>,
) -> bool
    requires width { IsWidth W }
    requires takeable { IsTakeable beat.now }
    ensures grows { breaks_burst beat.now cleaning.old ≡ false → cleaning.new ≡ grown beat.now cleaning.old }
    ensures completes { breaks_burst beat.now cleaning.old ≡ false → result ≡ completes beat.now cleaning.old }
    ensures message { breaks_burst beat.now cleaning.old ≡ false →
        OnTrue result (IsBurst message.new (beat.now ∷ cleaning.old)) }
{
    cleaning.take_into(beat, message).unwrap_or(false)
}

impl<const W: usize, D: Directory> Partner<W, D> {
    ghost use Rattle.tl_partner.specs.code.New.{IsNewPartner};

    /// A manager of a configuration with these terms, with a new directory that covers it. The error is the first limit
    /// that is broken, in the order N1 to N4, or `Memory`.
    pub fn new(alloc: Global, config: &Config, directory: D, terms: Terms) -> Result<Self, NewFault>
        requires width { IsWidth W }
        requires fresh { (block client : ℕ) → D.perm_of directory block client ≡ perm.None }
        requires blocks { config.now.blocks ≤ D.blocks directory }
        requires clients { length config.now.clients.items ≤ D.clients directory }
        ensures new { IsNewPartner D.perm_of (λ p. p.lenient.manager) (λ p. p.cleanings.items) (λ p. p.lenient.terms)
            config.now terms result }
    {
        let lenient = Lenient::new(alloc, config, directory, terms)?;
        let cleanings = no_cleanings(alloc, config.clients.len())?;
        Ok(Partner { lenient, cleanings })
    }

    /// Whether a cleaning of a link is unfinished.
    fn has_begun(&self, link: Link) -> bool
        ensures { result ≡ not (is_empty (cleaning_at self.now.cleanings.items link.0)) }
    {
        match self.cleanings.get(usize::from(link.0)) {
            None => false,
            Some(cleaning) => cleaning.has_begun(),
        }
    }

    /// Whether a beat is of a cleaning of its link.
    fn is_of_cleaning(&self, link: Link, beat: &Beat<W>) -> bool
        ensures { result ≡ is_of_cleaning (granted self.now.lenient.terms) beat.now
            (cleaning_at self.now.cleanings.items link.0) }
    {
        match beat {
            Beat::C(_) => self.has_begun(link) || is_cleaning(self.lenient.terms.granted(), beat),
            Beat::A(_) | Beat::B(_) | Beat::D(_) | Beat::E(_) => false,
        }
    }

    /// The newest beat of a link's cleaning.
    fn newest(&self, link: Link) -> Option<Beat<W>>
        ensures { result ≡ slice_get (cleaning_at self.now.cleanings.items link.0) 0 }
    {
        match self.cleanings.get(usize::from(link.0)) {
            None => None,
            Some(cleaning) => cleaning.newest(),
        }
    }

    /// Whether a beat is an Acquire of the block of its link's cleaning.
    fn asks_for_cleaned(&self, link: Link, beat: &Beat<W>) -> bool
        ensures { result ≡ asks_for_cleaned beat.now (cleaning_at self.now.cleanings.items link.0) }
    {
        match beat {
            Beat::A(x) => is_acquire(x.opcode) && cleans(block_at(x.address), self.newest(link)),
            Beat::B(_) | Beat::C(_) | Beat::D(_) | Beat::E(_) => false,
        }
    }

    /// The rule of order that a cleaning breaks at its first beat.
    fn cleaning_rule(&self, link: Link, beat: &Beat<W>) -> Option<Rule>
        ensures { (config : Config) (e : End W) → Knows D.perm_of self.now.lenient.manager config e →
            result ≡ Cleaning.cleaning_rule (granted self.now.lenient.terms) link beat.now e.trace }
    {
        let Beat::C(x) = beat else {
            return None;
        };
        let manager = &self.lenient.manager;
        let block = block_at(x.address);
        if manager.is_reporting(link) {
            return Some(Rule::S1);
        }
        if manager.is_acquiring(link, block) {
            return Some(Rule::H13);
        }
        let held = manager.recorded(link, block);
        if releases_from(self.lenient.terms.granted(), x.param, held) {
            None
        } else {
            Some(Rule::H13)
        }
    }

    /// The rule of order that a beat of a cleaning breaks.
    fn cleaning_order(&self, link: Link, cleaning: &Assembler<W>, beat: &Beat<W>) -> Option<Rule>
        requires { IsTakeable beat.now }
        ensures { (config : Config) (e : End W) → Knows D.perm_of self.now.lenient.manager config e →
            result ≡ Cleaning.cleaning_order (granted self.now.lenient.terms) link beat.now cleaning.now e.trace }
    {
        if !cleaning.has_begun() {
            return self.cleaning_rule(link, beat);
        }
        match cleaning.peek(beat) {
            Err(_) => Some(Rule::S1),
            Ok(_) => None,
        }
    }

    /// The judgement of a beat of a cleaning. The error is the first rule that it breaks.
    fn judge_cleaning(
        &self,
        link: Link,
        channel: Channel,
        beat: &Beat<W>,
    ) -> Result<Admission, Rule>
        ensures judged { (config : Config) (e : PartnerEnd W) →
            KnowsPartner D.perm_of self.now.lenient.manager self.now.cleanings.items config e →
            result ≡ admission_of (judged_cleaning (granted self.now.lenient.terms) config
            (open_level config link e.manager) link channel beat.now
            (cleaning_at self.now.cleanings.items link.0) e.manager.trace) }
        ensures link { OnOk result (link.0 < length self.now.cleanings.items) }
        ensures takeable { OnOk result (IsTakeable beat.now) }
    {
        let Some(cleaning) = self.cleanings.get(usize::from(link.0)) else {
            return Err(Rule::A3);
        };
        let Some(level) = self.lenient.manager.open_level(link) else {
            return Err(Rule::A3);
        };
        self.lenient.terms.check(level, channel, beat)?;
        let broken = self.cleaning_order(link, cleaning, beat);
        let outside = is_outside(self.lenient.manager.blocks(), beat);
        admit(broken, false, outside, is_spoiled(beat))
    }

    /// Records that a client holds None of a block.
    fn forget(&mut self, link: Link, block: u32)
        requires { block < 2 ^ 26 }
        ensures knows { (config : Config) (e : End W) → Knows D.perm_of self.old.lenient.manager config e →
            Knows D.perm_of self.new.lenient.manager config (forgotten config link block e) }
        ensures cleanings { self.new.cleanings ≡ self.old.cleanings }
        ensures terms { self.new.lenient.terms ≡ self.old.lenient.terms }
    {
        if !has_copy(self.lenient.manager.recorded(link, block)) {
            return;
        }
        self.lenient.drop_copy(link, block);
    }

    /// The effect of a complete cleaning.
    fn write_back(&mut self, link: Link, release: &MessageC<W>)
        ensures knows { (config : Config) (e : End W) → Knows D.perm_of self.old.lenient.manager config e →
            (x : BeatC W) (beats : List (Beat W)) → IsCleaningOf release.now x beats →
            Knows D.perm_of self.new.lenient.manager config (cleaned_by config link x beats e) }
        ensures cleanings { self.new.cleanings ≡ self.old.cleanings }
        ensures terms { self.new.lenient.terms ≡ self.old.lenient.terms }
    {
        let block = block_at(release.address);
        if reports_none(release.param) {
            self.forget(link, block);
            return;
        }
        if !release.opcode.carries_data() {
            return;
        }
        self.lenient.manager.write_block(block, &release.payload);
    }

    /// The effect of a complete cleaning, and the answer to it.
    fn clean(&mut self, link: Link, release: &MessageC<W>) -> Taken<W>
        ensures answer { answer_of (Ok result) ≡ Sent ((link, Handing.release_ack release.now.source) ∷ []) }
        ensures knows { (config : Config) (e : End W) → Knows D.perm_of self.old.lenient.manager config e →
            (x : BeatC W) (beats : List (Beat W)) → IsCleaningOf release.now x beats →
            Knows D.perm_of self.new.lenient.manager config (cleaned_by config link x beats e) }
        ensures cleanings { self.new.cleanings ≡ self.old.cleanings }
        ensures terms { self.new.lenient.terms ≡ self.old.lenient.terms }
    {
        self.write_back(link, release);
        Taken::Sent(Outbox::One((link, release_ack(release.source))).handed())
    }

    /// Takes a beat of a cleaning.
    fn take_cleaning(&mut self, link: Link, beat: &Beat<W>) -> Taken<W>
        requires link { link.0 < length self.old.cleanings.items }
        requires takeable { IsTakeable beat.now }
        ensures answer { (config : Config) (e : PartnerEnd W) →
            KnowsPartner D.perm_of self.old.lenient.manager self.old.cleanings.items config e →
            breaks_burst beat.now (cleaning_at self.old.cleanings.items link.0) ≡ false →
            IsAnswer (Ok result) (cleaning_as Passes config link beat.now e).0 }
        ensures after { (config : Config) (e : PartnerEnd W) →
            KnowsPartner D.perm_of self.old.lenient.manager self.old.cleanings.items config e →
            breaks_burst beat.now (cleaning_at self.old.cleanings.items link.0) ≡ false →
            KnowsPartner D.perm_of self.new.lenient.manager self.new.cleanings.items config
            (cleaning_as Passes config link beat.now e).1 }
        ensures terms { self.new.lenient.terms ≡ self.old.lenient.terms }
    {
        let mut message = Message::E(MessageE { sink: 0 });
        if !take_beat(&mut self.cleanings[usize::from(link.0)], beat, &mut message) {
            return Taken::Sent(ArrayVec::new());
        }
        prove_filled(&message);
        match message {
            Message::C(release) => self.clean(link, &release),
            _ => Taken::Sent(ArrayVec::new()),
        }
    }

    /// Takes a beat of a cleaning, or refuses it.
    fn offer_cleaning(
        &mut self,
        link: Link,
        channel: Channel,
        beat: &Beat<W>,
    ) -> Result<Taken<W>, Rule>
        ensures answer { (config : Config) (e : PartnerEnd W) →
            KnowsPartner D.perm_of self.old.lenient.manager self.old.cleanings.items config e →
            IsAnswer result (offered_cleaning (granted self.old.lenient.terms) config link channel beat.now e).0 }
        ensures after { (config : Config) (e : PartnerEnd W) →
            KnowsPartner D.perm_of self.old.lenient.manager self.old.cleanings.items config e →
            KnowsPartner D.perm_of self.new.lenient.manager self.new.cleanings.items config
            (offered_cleaning (granted self.old.lenient.terms) config link channel beat.now e).1 }
        ensures terms { self.new.lenient.terms ≡ self.old.lenient.terms }
    {
        match self.judge_cleaning(link, channel, beat) {
            Err(rule) => {
                self.lenient.manager.close(link);
                Err(rule)
            }
            Ok(Admission::Waits) => Ok(Taken::Stalled),
            Ok(Admission::Passes) => Ok(self.take_cleaning(link, beat)),
        }
    }

    /// Refuses an Acquire of a block that is being cleaned, or stalls it.
    fn hold_back(&mut self, link: Link, channel: Channel, beat: &Beat<W>) -> Result<Taken<W>, Rule>
        ensures answer { (config : Config) (e : PartnerEnd W) →
            KnowsPartner D.perm_of self.old.lenient.manager self.old.cleanings.items config e →
            IsAnswer result (held_back_as (held_back (judged config link channel beat.now e.manager)) link e).0 }
        ensures after { (config : Config) (e : PartnerEnd W) →
            KnowsPartner D.perm_of self.old.lenient.manager self.old.cleanings.items config e →
            KnowsPartner D.perm_of self.new.lenient.manager self.new.cleanings.items config
            (held_back_as (held_back (judged config link channel beat.now e.manager)) link e).1 }
        ensures terms { self.new.lenient.terms ≡ self.old.lenient.terms }
    {
        let judged = self.lenient.manager.judge(link, channel, beat);
        if is_waiting(judged) {
            return Ok(Taken::Stalled);
        }
        self.lenient.manager.close(link);
        Err(rule_held_back(judged))
    }

    /// Takes a beat, stalls it, or refuses it by the first rule that it breaks. A refusal closes the link.
    pub fn offer(&mut self, link: Link, channel: Channel, beat: &Beat<W>) -> Result<Taken<W>, Rule>
        ensures answer { (config : Config) (e : PartnerEnd W) →
            KnowsPartner D.perm_of self.old.lenient.manager self.old.cleanings.items config e →
            IsAnswer result (offered_under self.old.lenient.terms config link channel beat.now e).0 }
        ensures after { (config : Config) (e : PartnerEnd W) →
            KnowsPartner D.perm_of self.old.lenient.manager self.old.cleanings.items config e →
            KnowsPartner D.perm_of self.new.lenient.manager self.new.cleanings.items config
            (offered_under self.old.lenient.terms config link channel beat.now e).1 }
        ensures terms { self.new.lenient.terms ≡ self.old.lenient.terms }
    {
        if self.is_of_cleaning(link, beat) {
            return self.offer_cleaning(link, channel, beat);
        }
        if self.asks_for_cleaned(link, beat) {
            return self.hold_back(link, channel, beat);
        }
        self.lenient.offer(link, channel, beat)
    }

    /// Whether a beat would be stalled.
    pub fn stalls(&self, link: Link, channel: Channel, beat: &Beat<W>) -> bool
        ensures { (config : Config) (e : PartnerEnd W) →
            KnowsPartner D.perm_of self.now.lenient.manager self.now.cleanings.items config e →
            result ≡ stalls_under self.now.lenient.terms config link channel beat.now e }
    {
        if self.is_of_cleaning(link, beat) {
            return false;
        }
        if self.asks_for_cleaned(link, beat) {
            return is_waiting(self.lenient.manager.judge(link, channel, beat));
        }
        self.lenient.stalls(link, channel, beat)
    }

    /// Whether a link takes no beats, since it is closed or there is no such link.
    pub fn closed(&self, link: Link) -> bool
        ensures { (config : Config) (e : PartnerEnd W) →
            KnowsPartner D.perm_of self.now.lenient.manager self.now.cleanings.items config e →
            result ≡ is_none (open_level config link e.manager) }
    {
        self.lenient.closed(link)
    }
}
