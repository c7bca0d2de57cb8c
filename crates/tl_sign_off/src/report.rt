//! The report of a trace, in JSON.

ghost use Rattle.std.specs.Prelude.{◌≡◌, ◌++◌, ◌<◌, ◌==◌, ℕ, List, Some, IfOk, OnOk, codes, map, position};
ghost use Rattle.serde_json.specs.Data.{string};
ghost use Rattle.serde_json.specs.Read.{read};
ghost use Rattle.serde_json.specs.View.{view};
ghost use Rattle.tl_sign_off.specs.statement.Report.{command_name, count_data, counted_in, counts_data, fault_data};
ghost use Rattle.tl_sign_off.specs.statement.Report.{faults_data, has_header, header_data, input_data, json_line};
ghost use Rattle.tl_sign_off.specs.statement.Report.{line_in, report_of, tool_data, verdict_name};
ghost use Rattle.tl_sign_off.specs.statement.Sentence.{sentence_of};

use crate::account::Account;
use crate::input::Input;
use crate::message::{channel_name, message_name};
use crate::sentence::sentence_text;
use serde_json::{Value, json};
use std::alloc::{AllocError, Global};
use tl_lines::fault::Fault;
use tl_report::findings::Finding;

/// The version, as `tltool --version` writes it.
pub(crate) const VERSION: &str = "1.0.0";

/// The kit that proved the tool, as `tltool --version` writes it.
pub(crate) const KIT: &str = "Rattle, logic dac8208d650f15bf";

/// A text.
fn text_value(alloc: Global, bytes: &[u8]) -> Result<Value, AllocError>
    ensures { IfOk result (λ v. view v ≡ string bytes.now) }
{
    match str::from_utf8(bytes) {
        Ok(text) => Value::try_from_str(alloc, text),
        Err(_) => Err(AllocError),
    }
}

/// The sentence of a rule or fault.
fn sentence_value(alloc: Global, fault: Fault) -> Result<Value, AllocError>
    ensures { IfOk result (λ v. view v ≡ string (sentence_of fault)) }
{
    let sentence = sentence_text(alloc, fault)?;
    text_value(alloc, &sentence)
}

/// A line at fault: its number, the name of its rule or fault, and its sentence.
fn fault_value(alloc: Global, finding: &Finding) -> Result<Value, AllocError>
    ensures { IfOk result (λ v. view v ≡ fault_data finding.now) }
{
    let sentence = sentence_value(alloc, finding.fault)?;
    let line = finding.line;
    let rule = finding.fault.name();
    json!(in alloc; {"line": line, "rule": rule, "sentence": sentence})
}

/// The lines at fault.
fn faults_value(alloc: Global, faults: &[Finding]) -> Result<Value, AllocError>
    ensures { IfOk result (λ v. view v ≡ faults_data faults.now) }
{
    let mut list = Vec::new(alloc);
    for finding in faults {
        list.push(fault_value(alloc, finding)?)?;
    }
    Ok(Value::from(list))
}

/// The number of beats or commits in a cell, with the link and message of the cell.
fn count_value(alloc: Global, cell: usize, number: u64) -> Result<Value, AllocError>
    ensures { IfOk result (λ v. view v ≡ count_data cell number) }
{
    let link = (cell / 36) as u64;
    let message = (cell % 36) as u8;
    let channel = channel_name(message);
    let name = message_name(message);
    json!(in alloc; {"beats": number, "channel": channel, "link": link, "message": name})
}

/// Adds the entry for a cell, if the cell has beats or commits.
fn push_count(
    list: &mut Vec<Value>,
    alloc: Global,
    cell: usize,
    number: u64,
) -> Result<(), AllocError>
    ensures { OnOk result (map view list.new.items ≡ map view list.old.items ++ counted_in cell number) }
{
    if number == 0 {
        return Ok(());
    }
    list.push(count_value(alloc, cell, number)?)?;
    Ok(())
}

/// The numbers of beats and commits by link and message.
fn counts_value(alloc: Global, cells: &[u64]) -> Result<Value, AllocError>
    ensures { IfOk result (λ v. view v ≡ counts_data cells.now) }
{
    let mut list = Vec::new(alloc);
    for (cell, number) in cells.iter().enumerate() {
        push_count(&mut list, alloc, cell, *number)?;
    }
    Ok(Value::from(list))
}

/// Whether the first line is a header.
fn has_header(faults: &[Finding]) -> bool
    ensures { result ≡ has_header faults.now }
{
    match faults {
        [] => true,
        [first, ..] => !matches!(first.fault, Fault::Header),
    }
}

/// The place of the first LF.
fn first_end(front: &[u8]) -> Option<usize>
    ensures { result ≡ position (λ b. b == 10) front.now }
{
    front.iter().position(|b| *b == b'\n')
}

/// The first line of these bytes.
fn line_in(front: &[u8]) -> &[u8]
    ensures { result.now ≡ line_in front.now }
{
    match first_end(front) {
        None => front,
        Some(end) => &front[..end],
    }
}

/// The header, or null if the first line is none.
fn header_value(alloc: Global, faults: &[Finding], front: &[u8]) -> Result<Value, AllocError>
    ensures { IfOk result (λ v. view v ≡ header_data faults.now front.now) }
{
    if has_header(faults) {
        text_value(alloc, line_in(front))
    } else {
        Ok(Value::Null)
    }
}

/// The input: its number of bytes, its header, and its SHA-256.
fn input_value(alloc: Global, faults: &[Finding], input: &Input) -> Result<Value, AllocError>
    ensures { IfOk result (λ v. view v ≡ input_data faults.now input.now) }
{
    let header = header_value(alloc, faults, input.front.as_slice())?;
    let sum = hex::encode(alloc, input.sum)?;
    let bytes = input.bytes;
    json!(in alloc; {"bytes": bytes, "header": header, "sha256": sum})
}

/// The tool that judged the input.
fn tool_value(alloc: Global) -> Result<Value, AllocError>
    ensures { IfOk result (λ v. view v ≡ tool_data) }
{
    json!(in alloc; {"name": "tltool", "proved_with": KIT, "version": VERSION})
}

/// The command: `coherent` judges all links together, `monitor` each by itself.
pub(crate) fn command_name(together: bool) -> &'static str
    ensures { result.now ≡ command_name together }
{
    if together { "coherent" } else { "monitor" }
}

/// The verdict on the whole input.
pub(crate) fn verdict_name(together: bool, faults: &[Finding]) -> &'static str
    ensures { result.now ≡ verdict_name together faults.now }
{
    match (faults, together) {
        ([], false) => "clean",
        ([], true) => "coherent",
        _ => "broken",
    }
}

/// The report of an account.
fn report_value(alloc: Global, account: &Account) -> Result<Value, AllocError>
    ensures { IfOk result (λ v. view v ≡ report_of account.now) }
{
    let faults = account.findings.faults.as_slice();
    let counts = counts_value(alloc, account.findings.cells.as_slice())?;
    let listed = faults_value(alloc, faults)?;
    let input = input_value(alloc, faults, &account.input)?;
    let tool = tool_value(alloc)?;
    let beats = account.findings.beats;
    let command = command_name(account.together);
    let verdict = verdict_name(account.together, faults);
    json!(in alloc; {
        "beats": beats,
        "command": command,
        "counts": counts,
        "faults": listed,
        "input": input,
        "tool": tool,
        "verdict": verdict
    })
}

/// The text of the report of an account: JSON in one line, with an LF at its end.
#[tactic(auto, using(crate::proofs::Reported::no_float, crate::proofs::Reported::few_deep))]
pub fn report_text(alloc: Global, account: &Account) -> Result<Vec<u8>, AllocError>
    ensures text { IfOk result (λ text. text.items ≡ json_line account.now) }
    ensures reads { IfOk result (λ text. (json : List ℕ) × (text.items ≡ json ++ codes "\n")
        × (read json ≡ Some (report_of account.now))) }
{
    let mut text = report_value(alloc, account)?.to_vec(alloc)?;
    text.push(b'\n')?;
    Ok(text)
}
