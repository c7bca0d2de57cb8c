//! The text of the findings in a trace.

ghost use Rattle.std.specs.Prelude.{◌≡◌, ◌++◌, OnOk};
ghost use Rattle.tl_report.specs.statement.Said.{all_text, count_text, faults_text, status_of};

use crate::findings::{Finding, Findings};
use itoa::Buffer;
use std::alloc::AllocError;
use tl_lines::fault::append_fault;
use tl_lines::monitor_lines::append_end;
use tl_lines::status::Status;

/// Appends `line N X` for each line at fault.
fn append_faults(faults: &[Finding], out: &mut Vec<u8>) -> Result<(), AllocError>
    ensures { OnOk result (out.new.items ≡ out.old.items ++ faults_text faults.now) }
{
    for finding in faults {
        append_fault(finding.line, finding.fault, out)?;
    }
    Ok(())
}

/// Appends `faults N`.
#[tactic(auto, unfolding(crate::specs::statement::Said::count_text))]
fn append_count(count: u64, out: &mut Vec<u8>) -> Result<(), AllocError>
    ensures { OnOk result (out.new.items ≡ out.old.items ++ count_text count) }
{
    let mut digits = Buffer::new();
    out.extend_from_slice(b"faults ")?;
    out.extend_from_slice(digits.format(count).as_bytes())?;
    out.push(b'\n')?;
    Ok(())
}

/// Appends `line N X` for each line at fault, and their number. If there is none, appends `clean N`, or `coherent N`
/// for all links together.
pub fn append_all(together: bool, findings: &Findings, out: &mut Vec<u8>) -> Result<(), AllocError>
    ensures { OnOk result (out.new.items ≡ out.old.items ++ all_text together findings.now.faults.items
        findings.now.beats) }
{
    if findings.faults.is_empty() {
        return append_end(together, findings.beats, out);
    }
    append_faults(findings.faults.as_slice(), out)?;
    append_count(findings.faults.len() as u64, out)
}

/// Whether a line is at fault.
pub fn status_of(findings: &Findings) -> Status
    ensures { result ≡ status_of findings.now.faults.items }
{
    if findings.faults.is_empty() {
        Status::Clean
    } else {
        Status::Broken
    }
}
