//! The faults that a line can have.

ghost use Rattle.std.specs.Prelude.{◌≡◌, ◌++◌, OnOk};
ghost use Rattle.tl_lines.specs.statement.Coherent.{fault_of_breach};
ghost use Rattle.tl_lines.specs.statement.Fault.{fault_name, fault_text};

use itoa::Buffer;
use std::alloc::AllocError;
use tl_beat::fault::LineFault;
use tl_events::rule::CommitRule;
use tl_rules::memory_rule::MemoryRule;
use tl_rules::rule::Rule;
use tl_schedule::line::EventFault;
use tl_together::breach::Breach;

/// The fault of a line.
#[derive(Clone, Copy, Debug, PartialEq, Eq)]
pub enum Fault {
    /// The header of a trace or of a schedule was expected.
    Header,
    /// The line spells no beat.
    Line(LineFault),
    /// The beat breaks a rule of its link.
    Rule(Rule),
    /// The beat breaks a rule of memory, and none of its link.
    MemoryRule(MemoryRule),
    /// The store, the load or the beat breaks a rule of stores and loads, and no other.
    CommitRule(CommitRule),
    /// The wide beat names a block, a source or a sink for which no number is left.
    Beyond,
    /// The line spells no event.
    Event(EventFault),
}

impl Fault {
    /// The name of the fault in the text.
    pub fn name(self) -> &'static str
        ensures { result.now ≡ fault_name self }
    {
        match self {
            Fault::Line(fault) => fault.name(),
            Fault::Header => "F7",
            Fault::Event(EventFault::F1) => "F1",
            Fault::Event(EventFault::F8) => "F8",
            Fault::Rule(rule) => rule.name(),
            Fault::MemoryRule(rule) => rule.name(),
            Fault::CommitRule(rule) => rule.name(),
            Fault::Beyond => "F9",
        }
    }

    /// The fault of a beat that breaks this rule.
    pub fn of_breach(breach: Breach) -> Fault
        ensures { result ≡ fault_of_breach breach }
    {
        match breach {
            Breach::OfLink(rule) => Fault::Rule(rule),
            Breach::OfMemory(rule) => Fault::MemoryRule(rule),
        }
    }
}

#[tactic(auto, unfolding(crate::specs::statement::Fault::fault_text))]
/// Appends `line N X`: line N is at fault for X.
pub fn append_fault(number: u64, fault: Fault, out: &mut Vec<u8>) -> Result<(), AllocError>
    ensures { OnOk result (out.new.items ≡ out.old.items ++ fault_text number fault) }
{
    let mut digits = Buffer::new();
    out.extend_from_slice(b"line ")?;
    out.extend_from_slice(digits.format(number).as_bytes())?;
    out.push(b' ')?;
    out.extend_from_slice(fault.name().as_bytes())?;
    out.push(b'\n')?;
    Ok(())
}
