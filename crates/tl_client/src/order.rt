//! The rules by which a client judges a beat.

ghost use Rattle.std.specs.Prelude.{◌≡◌, false, is_err, None, OnOk, if◌then◌else◌};
ghost use Rattle.tl_beat.specs.statement.Width.{IsWidth};
ghost use Rattle.tl_beat.specs.statement.First.{first_if};
ghost use Rattle.tl_burst.specs.statement.Messages.{History, channel_of, unfinished};
ghost use Rattle.tl_burst.specs.statement.Part.{IsTakeable, part_of};
ghost use Rattle.tl_client.specs.statement.Offer.{is_sent_on};
ghost use Rattle.tl_params.specs.declared.rule.Rule.TheVariants.{A3, L1};
ghost use Rattle.tl_params.specs.statement.Refusal.{ok_unless};
ghost use Rattle.tl_rules.specs.statement.Conformance;
ghost use Rattle.tl_rules.specs.statement.Legality.{illegal};

use tl_beat::beat::Beat;
use tl_beat::channel::Channel;
use tl_burst::part::{Broken, Part};
use tl_rules::legality::beat::check_beat;
use tl_rules::level::Level;
use tl_rules::order::broken_order;
use tl_rules::past::Past;
use tl_rules::profile::Profile;
use tl_rules::rule::Rule;

/// Checks the rules that need no history. The error is A3 if the link is closed, L1 for a channel on which a client
/// sends, or the first L rule that the beat breaks.
pub fn check_alone<const W: usize>(
    closed: bool,
    level: Level,
    channel: Channel,
    beat: &Beat<W>,
) -> Result<(), Rule>
    requires { IsWidth W }
    ensures rule { result ≡ ok_unless
        (first_if closed A3 (first_if (is_sent_on channel) L1 (illegal level channel beat.now))) }
    ensures takeable { OnOk result (IsTakeable beat.now) }
{
    if closed {
        return Err(Rule::A3);
    }
    match channel {
        Channel::A | Channel::C | Channel::E => Err(Rule::L1),
        Channel::B | Channel::D => check_beat(level, channel, beat),
    }
}

/// The S or H rule that a beat breaks, given its place in its burst.
pub fn broken_in_order<const W: usize, P: Past<W>>(
    profile: Profile,
    beat: &Beat<W>,
    part: Result<Part, Broken>,
    past: &P,
) -> Option<Rule>
    ensures rule { (t : History W) → P.knows past.now t → part ≡ part_of beat.now (unfinished (channel_of beat.now) t) →
        result ≡ Conformance.broken_in_order profile beat.now t }
    ensures continues { result ≡ None → is_err part ≡ false }
{
    match part {
        Err(_) => Some(Rule::S1),
        Ok(Part::First | Part::Only) => broken_order(profile, beat, past),
        Ok(Part::Middle | Part::Last) => None,
    }
}
