//! The values that each field of a beat may have, by its opcode and the level of its link.

ghost use Rattle.std.specs.Prelude.{◌≡◌, ◌≤◌, IsTrue};
ghost use Rattle.tl_beat.specs.statement.Width.{IsWidth};
ghost use Rattle.tl_rules.specs.statement.Legality.{a_of_level, d_of_level, has_transfers};
ghost use Rattle.tl_rules.specs.statement.Legality.{a_has_param, c_has_param, d_has_param, c_has_source, d_has_sink};
ghost use Rattle.tl_rules.specs.statement.Legality.{access_has_size, a_has_size, d_has_size, is_aligned, may_be_denied};

use tl_beat::opcode::{OpA, OpC, OpD};
use tl_params::level::Level;
use tl_params::param::{Arithmetic, Cap, Grow, Intent, Logical, Prune, Report};

/// Whether the level has requests of this opcode.
pub fn a_opcode_fits(level: Level, opcode: OpA) -> bool
    ensures { result ≡ a_of_level level opcode }
{
    match level {
        Level::UL => matches!(opcode, OpA::PutFullData | OpA::PutPartialData | OpA::Get),
        Level::UH => !matches!(opcode, OpA::AcquireBlock | OpA::AcquirePerm),
        Level::C => true,
    }
}

/// Whether the level has responses of this opcode.
pub fn d_opcode_fits(level: Level, opcode: OpD) -> bool
    ensures { result ≡ d_of_level level opcode }
{
    match opcode {
        OpD::AccessAck | OpD::AccessAckData => true,
        OpD::HintAck => level != Level::UL,
        OpD::Grant | OpD::GrantData | OpD::ReleaseAck => level == Level::C,
    }
}

/// Whether the level has the channels B, C and E. Only level C does.
pub fn transfers(level: Level) -> bool
    ensures { result ≡ has_transfers level }
{
    level == Level::C
}

/// Whether a message of channel A may have this param.
pub fn a_param_fits(opcode: OpA, param: u8) -> bool
    ensures { result ≡ a_has_param opcode param }
{
    match opcode {
        OpA::PutFullData | OpA::PutPartialData | OpA::Get => param == 0,
        OpA::ArithmeticData => Arithmetic::from_param(param).is_some(),
        OpA::LogicalData => Logical::from_param(param).is_some(),
        OpA::Intent => Intent::from_param(param).is_some(),
        OpA::AcquireBlock | OpA::AcquirePerm => Grow::from_param(param).is_some(),
    }
}

/// Whether a message of channel C may have this param. A message with data starts from Trunk.
pub fn c_param_fits(opcode: OpC, param: u8) -> bool
    ensures { result ≡ c_has_param opcode param }
{
    match opcode {
        OpC::AccessAck | OpC::AccessAckData | OpC::HintAck => param == 0,
        OpC::ProbeAck => Report::from_param(param).is_some(),
        OpC::ProbeAckData => matches!(
            Report::from_param(param),
            Some(Report::TtoB | Report::TtoN | Report::TtoT)
        ),
        OpC::Release => Prune::from_param(param).is_some(),
        OpC::ReleaseData => { matches!(Prune::from_param(param), Some(Prune::TtoB | Prune::TtoN)) }
    }
}

/// Whether a message of channel D may have this param.
pub fn d_param_fits(opcode: OpD, param: u8) -> bool
    ensures { result ≡ d_has_param opcode param }
{
    match opcode {
        OpD::Grant | OpD::GrantData => Cap::from_param(param).is_some(),
        OpD::AccessAck | OpD::AccessAckData | OpD::HintAck | OpD::ReleaseAck => param == 0,
    }
}

/// Whether a message of channel C may have this source. A ProbeAck has source 0.
pub fn c_source_fits(opcode: OpC, source: u8) -> bool
    ensures { result ≡ c_has_source opcode source }
{
    !matches!(opcode, OpC::ProbeAck | OpC::ProbeAckData) || source == 0
}

/// Whether a message of channel D may have this sink. Only a Grant has another than 0.
pub fn d_sink_fits(opcode: OpD, sink: u8) -> bool
    ensures { result ≡ d_has_sink opcode sink }
{
    matches!(opcode, OpD::Grant | OpD::GrantData) || sink == 0
}

/// Whether an access may have this size: at most a beat at TL-UL, at most a block above it.
fn access_size_fits<const W: usize>(level: Level, size: u8) -> bool
    requires { IsWidth W }
    ensures value { result ≡ access_has_size W level size }
    ensures small { IsTrue result → size ≤ 6 }
{
    match level {
        Level::UL => size <= 4 && 1usize << size <= W,
        Level::UH | Level::C => size <= 6,
    }
}

/// Whether a message of channel A may have this size at the level.
pub fn a_size_fits<const W: usize>(level: Level, opcode: OpA, size: u8) -> bool
    requires { IsWidth W }
    ensures value { result ≡ a_has_size W level opcode size }
    ensures small { IsTrue result → size ≤ 6 }
{
    match opcode {
        OpA::ArithmeticData | OpA::LogicalData => size == 2 || size == 3,
        OpA::AcquireBlock | OpA::AcquirePerm => size == 6,
        OpA::PutFullData | OpA::PutPartialData | OpA::Get | OpA::Intent => {
            access_size_fits::<W>(level, size)
        }
    }
}

/// Whether a message of channel D may have this size at the level.
pub fn d_size_fits<const W: usize>(level: Level, opcode: OpD, size: u8) -> bool
    requires { IsWidth W }
    ensures value { result ≡ d_has_size W level opcode size }
    ensures small { IsTrue result → size ≤ 6 }
{
    match opcode {
        OpD::Grant | OpD::GrantData | OpD::ReleaseAck => size == 6,
        OpD::AccessAck | OpD::AccessAckData | OpD::HintAck => access_size_fits::<W>(level, size),
    }
}

/// Whether the address is a multiple of the size in bytes.
pub fn address_fits(address: u32, size: u8) -> bool
    requires { size ≤ 6 }
    ensures { result ≡ is_aligned address size }
{
    address % (1 << size) == 0
}

/// Whether a response may be denied. An answer to an access may, and with data it must be corrupt then.
pub fn may_be_denied(opcode: OpD, corrupt: bool) -> bool
    ensures { result ≡ may_be_denied opcode corrupt }
{
    match opcode {
        OpD::AccessAck | OpD::HintAck => true,
        OpD::AccessAckData => corrupt,
        OpD::Grant | OpD::GrantData | OpD::ReleaseAck => false,
    }
}
