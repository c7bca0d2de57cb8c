//! The names of params by opcode, with param names on channel B as on A.

ghost use Rattle.std.specs.Prelude.{◌≡◌, option_map};
ghost use Rattle.tl_explain.specs.statement.ParamNames.{a_param_name, b_param_name, c_param_name, d_param_name};

use tl_beat::opcode::{OpA, OpB, OpC, OpD};
use tl_params::param::{Arithmetic, Cap, Grow, Intent, Logical, Prune, Report};

/// The name of a param on channel A, if the opcode has one for it.
pub fn name_on_a(opcode: OpA, param: u8) -> Option<&'static str>
    ensures { option_map (λ s. s.now) result ≡ a_param_name opcode param }
{
    match opcode {
        OpA::PutFullData | OpA::PutPartialData | OpA::Get => None,
        OpA::ArithmeticData => Arithmetic::from_param(param).map(|it| it.name()),
        OpA::LogicalData => Logical::from_param(param).map(|it| it.name()),
        OpA::Intent => Intent::from_param(param).map(|it| it.name()),
        OpA::AcquireBlock | OpA::AcquirePerm => Grow::from_param(param).map(|it| it.name()),
    }
}

/// The name of a param on channel B, if the opcode has one for it.
pub fn name_on_b(opcode: OpB, param: u8) -> Option<&'static str>
    ensures { option_map (λ s. s.now) result ≡ b_param_name opcode param }
{
    match opcode {
        OpB::PutFullData | OpB::PutPartialData | OpB::Get => None,
        OpB::ArithmeticData => Arithmetic::from_param(param).map(|it| it.name()),
        OpB::LogicalData => Logical::from_param(param).map(|it| it.name()),
        OpB::Intent => Intent::from_param(param).map(|it| it.name()),
        OpB::ProbeBlock | OpB::ProbePerm => Cap::from_param(param).map(|it| it.name()),
    }
}

/// The name of a param on channel C, if the opcode has one for it.
pub fn name_on_c(opcode: OpC, param: u8) -> Option<&'static str>
    ensures { option_map (λ s. s.now) result ≡ c_param_name opcode param }
{
    match opcode {
        OpC::AccessAck | OpC::AccessAckData | OpC::HintAck => None,
        OpC::ProbeAck | OpC::ProbeAckData => Report::from_param(param).map(|it| it.name()),
        OpC::Release | OpC::ReleaseData => Prune::from_param(param).map(|it| it.name()),
    }
}

/// The name of a param on channel D, if the opcode has one for it.
pub fn name_on_d(opcode: OpD, param: u8) -> Option<&'static str>
    ensures { option_map (λ s. s.now) result ≡ d_param_name opcode param }
{
    match opcode {
        OpD::AccessAck | OpD::AccessAckData | OpD::HintAck | OpD::ReleaseAck => None,
        OpD::Grant | OpD::GrantData => Cap::from_param(param).map(|it| it.name()),
    }
}
