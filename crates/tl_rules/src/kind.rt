//! Kinds of messages, and the permissions that they give and leave.

ghost use Rattle.std.specs.Prelude.{◌≡◌};
ghost use Rattle.tl_rules.specs.statement.Conformance;
ghost use Rattle.tl_rules.specs.statement.History;
ghost use Rattle.tl_rules.specs.statement.Liberties;

use tl_beat::opcode::{OpA, OpB, OpC, OpD};
use tl_params::param::{Cap, Grow, Report};
use tl_params::perm::Perm;

/// Whether a message asks for a permission.
pub fn is_acquire(opcode: OpA) -> bool
    ensures { result ≡ History.is_acquire opcode }
{
    matches!(opcode, OpA::AcquireBlock | OpA::AcquirePerm)
}

/// Whether the grow of an Acquire is NtoB or NtoT.
pub fn grows_from_none(param: u8) -> bool
    ensures { result ≡ Liberties.grows_from_none param }
{
    param != Grow::BtoT.param()
}

/// Whether a message asks a client to give up a permission.
pub fn is_probe(opcode: OpB) -> bool
    ensures { result ≡ History.is_probe opcode }
{
    matches!(opcode, OpB::ProbeBlock | OpB::ProbePerm)
}

/// Whether a message answers a Probe.
pub fn is_probe_ack(opcode: OpC) -> bool
    ensures { result ≡ History.is_probe_ack opcode }
{
    matches!(opcode, OpC::ProbeAck | OpC::ProbeAckData)
}

/// Whether a message gives up a permission without a Probe.
pub fn is_release(opcode: OpC) -> bool
    ensures { result ≡ History.is_release opcode }
{
    matches!(opcode, OpC::Release | OpC::ReleaseData)
}

/// Whether a message gives a permission.
pub fn is_grant(opcode: OpD) -> bool
    ensures { result ≡ History.is_grant opcode }
{
    matches!(opcode, OpD::Grant | OpD::GrantData)
}

/// Whether a message answers a Release.
pub fn is_release_ack(opcode: OpD) -> bool
    ensures { result ≡ History.is_release_ack opcode }
{
    opcode == OpD::ReleaseAck
}

/// Whether a response with this opcode may answer a request with that one.
pub fn answers(answer: OpD, request: OpA) -> bool
    ensures { result ≡ Conformance.answers answer request }
{
    matches!(
        (answer, request),
        (OpD::AccessAck, OpA::PutFullData | OpA::PutPartialData)
            | (
                OpD::AccessAckData,
                OpA::ArithmeticData | OpA::LogicalData | OpA::Get
            )
            | (OpD::HintAck, OpA::Intent)
            | (OpD::Grant, OpA::AcquireBlock | OpA::AcquirePerm)
            | (OpD::GrantData, OpA::AcquireBlock)
    )
}

/// The permission that a prune or report with this param leaves; None if the param is no report.
pub fn reported(param: u8) -> Perm
    ensures { result ≡ History.reported param }
{
    match Report::from_param(param) {
        None => Perm::None,
        Some(report) => report.right(),
    }
}

/// The permission that a cap with this param gives; None if the param is no cap.
pub fn capped(param: u8) -> Perm
    ensures { result ≡ History.capped param }
{
    match Cap::from_param(param) {
        None => Perm::None,
        Some(cap) => cap.right(),
    }
}
