//! The rules that a beat of a manager's links may break.

ghost use Rattle.std.specs.Prelude.{◌≡◌};
ghost use Rattle.tl_together.specs.code.Judged.{judged};
ghost use Rattle.tl_together.specs.statement.Coherence;

use tl_beat::opcode::OpD;
use tl_rules::memory_rule::MemoryRule;
use tl_rules::rule::Rule;

/// The first rule that a beat breaks: a rule of its link, or a rule of memory if it breaks none of its link.
#[derive(Clone, Copy, Debug, PartialEq, Eq)]
pub enum Breach {
    OfLink(Rule),
    OfMemory(MemoryRule),
}

/// The rules that a judge leaves to its caller, if it leaves some.
#[derive(Clone, Copy, Debug, PartialEq, Eq)]
pub(crate) enum Unjudged {
    Nothing,
    /// M2 and M3: a response may bring any bytes.
    Bytes,
}

/// The rule of memory that a beat breaks, unless it is left to the caller.
#[inline(always)]
pub(crate) fn judged(rule: Option<MemoryRule>, left: Unjudged) -> Option<MemoryRule>
    ensures { result ≡ judged left rule }
{
    match (left, rule) {
        (Unjudged::Bytes, Some(MemoryRule::M2 | MemoryRule::M3)) => None,
        _ => rule,
    }
}

/// Whether the opcode is of an answer to an access.
pub(crate) fn is_access_ack(opcode: OpD) -> bool
    ensures { result ≡ Coherence.is_access_ack opcode }
{
    matches!(opcode, OpD::AccessAck | OpD::AccessAckData)
}

/// The rule for the bytes of a response with this opcode.
pub(crate) fn rule_of_bytes(opcode: OpD) -> MemoryRule
    ensures { result ≡ Coherence.rule_of_bytes opcode }
{
    match opcode {
        OpD::GrantData => MemoryRule::M2,
        _ => MemoryRule::M3,
    }
}
