//! The bins of links by their level and liberties.

ghost use Rattle.std.specs.Prelude.{◌≡◌};
ghost use Rattle.tl_beat.specs.statement.Width.{IsWidth};
ghost use Rattle.tl_cover.specs.statement.Possible;

use crate::kind::number_of;
use crate::message::{MessageKind, Param};
use crate::situation::{Bytes, Pending, Situation};
use tl_beat::opcode::{OpA, OpC, OpD};
use tl_params::param::{Cap, Report};
use tl_rules::level::Level;
use tl_rules::liberties::Liberties;

/// The least level whose links have messages of this kind.
fn least_level(kind: MessageKind) -> Level
    ensures { result ≡ Possible.least_level kind }
{
    match kind {
        MessageKind::A(OpA::PutFullData | OpA::PutPartialData | OpA::Get, ..) => Level::UL,
        MessageKind::A(OpA::ArithmeticData | OpA::LogicalData | OpA::Intent, ..) => Level::UH,
        MessageKind::D(OpD::AccessAck | OpD::AccessAckData, ..) => Level::UL,
        MessageKind::D(OpD::HintAck, ..) => Level::UH,
        _ => Level::C,
    }
}

/// The least level whose links have messages of this kind.
fn level_of(kind: Pending) -> Level
    ensures { result ≡ Possible.level_of kind }
{
    match kind {
        Pending::Get | Pending::Put => Level::UL,
        Pending::Atomic => Level::UH,
        _ => Level::C,
    }
}

/// The place of a level, from 0 for UL on.
fn rank(level: Level) -> u8
    ensures { result ≡ Possible.rank level }
{
    match level {
        Level::UL => 0,
        Level::UH => 1,
        Level::C => 2,
    }
}

/// Whether accesses at the level may have this many bytes: at UL no more than a beat.
fn fits<const W: usize>(level: Level, bytes: Bytes) -> bool
    requires { IsWidth W }
    ensures { result ≡ Possible.fits W level bytes }
{
    level != Level::UL || number_of(bytes) as usize <= W
}

/// Whether a kind of message needs no liberty, or the link has that one.
fn is_allowed(liberties: Liberties, kind: MessageKind) -> bool
    ensures { result ≡ Possible.is_allowed liberties kind }
{
    match kind {
        MessageKind::C(
            OpC::Release | OpC::ReleaseData,
            Param::Report(Report::TtoT | Report::BtoB | Report::NtoN),
            _,
        ) => liberties.reports,
        MessageKind::D(OpD::Grant | OpD::GrantData, Param::Cap(Cap::ToN), _) => liberties.denied,
        _ => true,
    }
}

/// Whether a link of this level with these liberties has messages of this kind.
fn has_kind<const W: usize>(liberties: Liberties, level: Level, kind: MessageKind) -> bool
    requires { IsWidth W }
    ensures { result ≡ Possible.has_kind W liberties level kind }
{
    let fits = match kind.fields() {
        None => true,
        Some((_, bytes)) => fits::<W>(level, bytes),
    };
    rank(least_level(kind)) <= rank(level) && fits && is_allowed(liberties, kind)
}

/// Whether messages on a link of this level with these liberties begin in a bin.
pub fn is_possible<const W: usize>(liberties: Liberties, level: Level, bin: Situation) -> bool
    requires { IsWidth W }
    ensures { result ≡ Possible.is_possible W liberties level bin }
{
    match bin {
        Situation::Sent(kind) => has_kind::<W>(liberties, level, kind),
        Situation::Aligned(bytes, _) => fits::<W>(level, bytes),
        Situation::Among(kind, _) => rank(level_of(kind)) <= rank(level),
        _ => level == Level::C,
    }
}
