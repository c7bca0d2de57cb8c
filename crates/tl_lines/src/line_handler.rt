//! Judges of the lines of an input.

ghost use Rattle.std.specs.Prelude.{◌≡◌, ◌++◌, ℕ, List, IfOk, Ok, Some};
ghost use Rattle.tl_lines.specs.code.Judging.{Ends, EndsHere, Finishes, Judges, Stops};
ghost use Rattle.tl_lines.specs.statement.Lines.{IsOpen};
ghost use Rattle.tl_lines.specs.declared.fault.Fault.{Fault};
ghost use Rattle.tl_lines.specs.declared.status.Status.{Status};

use crate::fault::Fault;
use std::alloc::AllocError;

/// Judges the lines of an input in turn, and appends the text of each.
pub trait LineHandler: Drop {
    /// After these lines, none of which was at fault, this text has been appended.
    ghost knows: { Self → List (List ℕ) → List ℕ → Type 0 };

    /// The purpose of a handler beyond its type. It stays the same.
    ghost Purpose: { Type 0 } = { Unit {0} };

    ghost purpose: { Self → Self.Purpose };

    /// The whole text of these lines for that purpose, with the status at their end.
    ghost tells: { Self.Purpose → List (List ℕ) → List ℕ → Status → Type 0 };

    /// The handler's knowledge at the first of these lines that is at fault.
    ghost ends: { Self → List (List ℕ) → Type 0 };

    /// Judges a line with its LF: appends its text, or returns its fault.
    fn handle_line(&mut self, line: &[u8], out: &mut Vec<u8>) -> Result<Option<Fault>, AllocError>
        ensures judges { IfOk result (Judges knows (tells (purpose self.old)) self.old self.new line.now out.old.items
            out.new.items) }
        ensures purpose { IfOk result (λ _. purpose self.new ≡ purpose self.old) }
        ensures ends { (fault : Fault) → result ≡ Ok (Some fault) → Ends knows ends self.old self.new line.now };

    /// The fault of the next line if it has no LF or more than 256 bytes.
    fn open_fault(&self) -> Fault
        ensures stops { (line said : List ℕ) → IsOpen line → Stops knows (tells (purpose self.now)) self.now line said said
            result }
        ensures ends { (line : List ℕ) → IsOpen line → Ends knows ends self.now self.now line };

    /// Appends the text at the end of an input of this many lines, or returns the fault of a missing line.
    fn finish(&self, count: u64, out: &mut Vec<u8>) -> Result<Option<Fault>, AllocError>
        ensures finishes { IfOk result (Finishes knows (tells (purpose self.now)) self.now count out.old.items
            out.new.items) }
        ensures ends { (fault : Fault) → result ≡ Ok (Some fault) → EndsHere knows ends self.now };
}
