//! The reasons why nothing is explained.

ghost use Rattle.std.specs.Prelude.{◌≡◌, ◌≢◌, ◌+◌, IfErr, IfOk};

use std::alloc::AllocError;
use std::io;
use tl_lines::status::ToolFault;

/// The reason why nothing is explained.
#[derive(Clone, Copy, Debug, PartialEq, Eq)]
pub enum ExplainFault {
    Tool(ToolFault),
    /// The two readings of the file differ.
    Changed,
}

impl From<ToolFault> for ExplainFault {
    ghost use Rattle.tl_reasons.specs.declared.explain_fault.ExplainFault.{ExplainFault};

    ghost from_gives = { λ tool fault. fault ≡ ExplainFault.Tool tool };

    fn from(fault: ToolFault) -> ExplainFault {
        ExplainFault::Tool(fault)
    }
}

impl From<AllocError> for ExplainFault {
    ghost use Rattle.tl_reasons.specs.declared.explain_fault.ExplainFault.{ExplainFault};
    ghost use Rattle.tl_lines.specs.declared.status.ToolFault.{ToolFault};

    ghost from_gives = { λ _ fault. fault ≡ ExplainFault.Tool ToolFault.Memory };

    fn from(_error: AllocError) -> ExplainFault {
        ExplainFault::Tool(ToolFault::Memory)
    }
}

impl From<io::Error> for ExplainFault {
    ghost use Rattle.tl_reasons.specs.declared.explain_fault.ExplainFault.{ExplainFault};
    ghost use Rattle.tl_lines.specs.declared.status.ToolFault.{ToolFault};

    ghost from_gives = { λ _ fault. fault ≡ ExplainFault.Tool ToolFault.Memory };

    fn from(_error: io::Error) -> ExplainFault {
        ExplainFault::Tool(ToolFault::Memory)
    }
}

/// The number of the line after these; `Changed` after line 2^64 - 1, the last.
pub fn number_behind(good: u64) -> Result<u64, ExplainFault>
    ensures number { IfOk result (λ number. number ≡ good + 1) }
    ensures fault { IfErr result (λ fault. fault ≢ ExplainFault.Tool ToolFault.Write) }
{
    good.checked_add(1).ok_or(ExplainFault::Changed)
}
