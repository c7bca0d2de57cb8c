//! Explains a fault that is no breach of a rule.

ghost use Rattle.std.specs.Prelude.{◌≡◌, ◌≢◌, ◌++◌, [], ℕ, List, Bool, IfErr, OnOk, Option, Some, true};
ghost use Rattle.tl_beat.specs.statement.Width.{IsWidth};
ghost use Rattle.tl_events.specs.statement.EventLine.{event_fault};
ghost use Rattle.tl_reasons.specs.declared.explain_fault.ExplainFault.{ExplainFault};
ghost use Rattle.tl_lines.specs.declared.status.Status.{Status};
ghost use Rattle.tl_lines.specs.declared.status.ToolFault.{ToolFault};
ghost use Rattle.tl_lines.specs.statement.Width.{bytes_of};
ghost use Rattle.tl_params.specs.declared.liberties.Liberties.{Liberties};
ghost use Rattle.tl_commit_story.specs.statement.Explained.{Explains};
ghost use Rattle.tl_commit_story.specs.statement.Words.{line_words};
ghost use Rattle.tl_explain.specs.statement.Shown.{Shows};

use crate::explain::is_verdict;
use crate::malformed;
use crate::reread::bytes;
use crate::sentences::{is_breach, is_of_line, other_words};
use std::alloc::Global;
use std::io::Read;
use tl_beat::fault::LineFault;
use tl_events::event::read_event;
use tl_lines::fault::Fault;
use tl_params::width::Width;
use tl_reasons::explain_fault::ExplainFault;
use tl_reasons::line_front::fetch;

/// Appends the words for a fault that is neither a breach of a rule nor that of a line that spells no event.
pub(crate) fn explain_other(
    alloc: Global,
    good: u64,
    fault: Fault,
    verdict: &[u8],
    out: &mut Vec<u8>,
) -> Result<(), ExplainFault>
    requires { out.old.items ≡ [] }
    ensures ok { OnOk result ((together : Bool) (allow : Liberties) (old new : Option (List ℕ)) →
        Explains together allow old new verdict.now out.new.items Status.Broken) }
    ensures fault { IfErr result (λ fault. fault ≢ ExplainFault.Tool ToolFault.Write) }
{
    if is_breach(fault) || is_of_line(fault) || !is_verdict(alloc, good, fault, verdict)? {
        return Err(ExplainFault::Changed);
    }
    out.extend_from_slice(other_words(fault).as_bytes())?;
    Ok(())
}

/// The fault of a line, if it spells no event.
fn fault_of<const W: usize>(line: &[u8]) -> Option<LineFault>
    requires { IsWidth W }
    ensures { result ≡ event_fault W line.now }
{
    read_event::<W>(line).err()
}

/// Whether a line has this fault, in a trace of beats of this width.
fn has_fault(width: Width, line: &[u8], fault: LineFault) -> bool
    ensures { result ≡ true → event_fault (bytes_of width) line.now ≡ Some fault }
{
    let found = match width {
        Width::Four => fault_of::<4>(line),
        Width::Eight => fault_of::<8>(line),
        Width::Sixteen => fault_of::<16>(line),
    };
    found == Some(fault)
}

/// Appends the words for a line that spells no event, and the line, with carets under the bytes at fault.
fn append_shown(
    width: Width,
    line: &[u8],
    fault: LineFault,
    out: &mut Vec<u8>,
) -> Result<(), ExplainFault>
    requires { out.old.items ≡ [] }
    ensures ok { OnOk result (Shows line.now (line_words fault) out.new.items) }
    ensures fault { IfErr result (λ fault. fault ≢ ExplainFault.Tool ToolFault.Write) }
{
    out.extend_from_slice(other_words(Fault::Line(fault)).as_bytes())?;
    malformed::tell(line, fault, bytes(width), out)?;
    Ok(())
}

/// Reads the line after these again, which spells no event, and explains it.
pub(crate) fn explain_line<R: Read>(
    alloc: Global,
    reader: &mut R,
    good: u64,
    width: Width,
    fault: LineFault,
    verdict: &[u8],
    out: &mut Vec<u8>,
) -> Result<(), ExplainFault>
    requires { out.old.items ≡ [] }
    ensures ok { OnOk result ((together : Bool) (allow : Liberties) → Explains together allow
        (R.remaining reader.old) (R.remaining reader.new) verdict.now out.new.items Status.Broken) }
    ensures fault { IfErr result (λ fault. fault ≢ ExplainFault.Tool ToolFault.Write) }
{
    if !is_verdict(alloc, good, Fault::Line(fault), verdict)? {
        return Err(ExplainFault::Changed);
    }
    let line = fetch(alloc, reader, good)?;
    if line.is_empty() || !has_fault(width, &line, fault) {
        return Err(ExplainFault::Changed);
    }
    append_shown(width, &line, fault, out)
}
