//! Legality of a beat by level and channel alone (SiFive TileLink Specification 1.8, "Message
//! taxonomy" and the chapters on the three levels).

ghost use Rattle.std.specs.Prelude.{◌≡◌, OnOk};
ghost use Rattle.tl_params.specs.statement.Refusal.{ok_unless};
ghost use Rattle.tl_beat.specs.statement.Width.{IsWidth};
ghost use Rattle.tl_burst.specs.statement.Part.{IsTakeable};
ghost use Rattle.tl_rules.specs.statement.Legality.{illegal};
ghost use Rattle.tl_rules.specs.statement.Liberties.{illegal_under};

use crate::legality::liberty::{
    excused_denied, excused_param, excused_probe_source, excused_sink, excused_source,
};
use crate::{channel, field};
use tl_beat::beat::{Beat, BeatA, BeatB, BeatC, BeatD};
use tl_beat::channel::Channel;
use tl_params::level::Level;
use tl_params::liberties::Liberties;
use tl_params::rule::Rule;

/// Checks a beat on this channel of a link of this level. The error is the first L rule that it breaks, in the order
/// L1, L7, L2, L3, L4, L5, L6. An assembler can take a beat that breaks none.
pub fn check_beat<const W: usize>(
    level: Level,
    channel: Channel,
    beat: &Beat<W>,
) -> Result<(), Rule>
    requires { IsWidth W }
    ensures value { result ≡ ok_unless (illegal level channel beat.now) }
    ensures takeable { OnOk result (IsTakeable beat.now) }
{
    check_beat_under(Liberties::none(), level, channel, beat)
}

/// `check_beat` on a link with these liberties.
#[inline(always)]
#[tactic(auto, unfolding(crate::specs::statement::Liberties::illegal_under, crate::specs::statement::Legality::illegal))]
pub fn check_beat_under<const W: usize>(
    liberties: Liberties,
    level: Level,
    channel: Channel,
    beat: &Beat<W>,
) -> Result<(), Rule>
    requires { IsWidth W }
    ensures value { result ≡ ok_unless (illegal_under liberties level channel beat.now) }
    ensures takeable { OnOk result (IsTakeable beat.now) }
{
    match (channel, beat) {
        (Channel::A, Beat::A(beat)) => check_a(level, beat),
        (Channel::B, Beat::B(beat)) => check_b(liberties, level, beat),
        (Channel::C, Beat::C(beat)) => check_c(liberties, level, beat),
        (Channel::D, Beat::D(beat)) => check_d(liberties, level, beat),
        (Channel::E, Beat::E(_)) if field::transfers(level) => Ok(()),
        _ => Err(Rule::L1),
    }
}

#[tactic(auto, unfolding(crate::specs::statement::Legality::illegal))]
fn check_a<const W: usize>(level: Level, beat: &BeatA<W>) -> Result<(), Rule>
    requires { IsWidth W }
    ensures value { result ≡ ok_unless (illegal level Channel.A (Beat.A beat.now)) }
    ensures takeable { OnOk result (IsTakeable (Beat.A beat.now)) }
{
    channel::control_of_a::<W>(level, beat.opcode, beat.param, beat.size, beat.address)?;
    channel::own_of_a::<W>(
        beat.opcode,
        beat.size,
        beat.address,
        beat.mask,
        beat.corrupt,
    )
}

#[tactic(auto, unfolding(crate::specs::statement::Liberties::illegal_under))]
fn check_b<const W: usize>(liberties: Liberties, level: Level, beat: &BeatB<W>) -> Result<(), Rule>
    requires { IsWidth W }
    ensures value { result ≡ ok_unless (illegal_under liberties level Channel.B (Beat.B beat.now)) }
    ensures takeable { OnOk result (IsTakeable (Beat.B beat.now)) }
{
    channel::control_of_b(
        level,
        beat.opcode,
        beat.param,
        beat.size,
        excused_probe_source(liberties, beat.source),
        beat.address,
    )?;
    channel::own_of_b::<W>(
        beat.opcode,
        beat.size,
        beat.address,
        beat.mask,
        beat.corrupt,
    )
}

#[tactic(auto, unfolding(crate::specs::statement::Liberties::illegal_under))]
fn check_c<const W: usize>(liberties: Liberties, level: Level, beat: &BeatC<W>) -> Result<(), Rule>
    requires { IsWidth W }
    ensures value { result ≡ ok_unless (illegal_under liberties level Channel.C (Beat.C beat.now)) }
    ensures takeable { OnOk result (IsTakeable (Beat.C beat.now)) }
{
    channel::control_of_c(
        level,
        beat.opcode,
        excused_param(liberties, beat.opcode, beat.param),
        beat.size,
        excused_source(liberties, beat.opcode, beat.source),
        beat.address,
    )?;
    channel::own_of_c(beat.opcode, beat.corrupt)
}

#[tactic(auto, unfolding(crate::specs::statement::Liberties::illegal_under))]
fn check_d<const W: usize>(liberties: Liberties, level: Level, beat: &BeatD<W>) -> Result<(), Rule>
    requires { IsWidth W }
    ensures value { result ≡ ok_unless (illegal_under liberties level Channel.D (Beat.D beat.now)) }
    ensures takeable { OnOk result (IsTakeable (Beat.D beat.now)) }
{
    let sink = excused_sink(liberties, beat.sink);
    channel::control_of_d::<W>(level, beat.opcode, beat.param, beat.size, sink)?;
    let denied = excused_denied(liberties, beat.opcode, beat.denied, beat.corrupt);
    channel::own_of_d(beat.opcode, denied, beat.corrupt)
}
