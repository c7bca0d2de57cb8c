//! The report of a trace in the form of JUnit.

ghost use Rattle.std.specs.Prelude.{◌≡◌, ◌++◌, [], IfOk, OnOk, codes};
ghost use Rattle.std.specs.Fmt.{decimal};
ghost use Rattle.tl_sign_off.specs.statement.Junit.{case_named, case_of, cases_of, class_name, failure_of, junit_of, many_cases};
ghost use Rattle.tl_sign_off.specs.statement.Junit.{properties_element, properties_of, property, suite_content, suite_name};
ghost use Rattle.tl_sign_off.specs.statement.Junit.{suite_named};

use crate::account::Account;
use crate::report::{KIT, VERSION, verdict_name};
use crate::sentence::sentence_text;
use crate::xml::{append_attribute, append_element, append_empty_element, append_number};
use itoa::Buffer;
use std::alloc::{AllocError, Global};
use tl_lines::fault::Fault;
use tl_report::findings::Finding;

/// Appends a property.
#[tactic(auto, unfolding(crate::specs::statement::Junit::property))]
fn append_property(
    alloc: Global,
    name: &[u8],
    value: &[u8],
    out: &mut Vec<u8>,
) -> Result<(), AllocError>
    ensures { OnOk result (out.new.items ≡ out.old.items ++ property name.now value.now) }
{
    let mut attributes = Vec::new(alloc);
    append_attribute(b"name", name, &mut attributes)?;
    append_attribute(b"value", value, &mut attributes)?;
    append_empty_element(b"property", &attributes, out)
}

/// Appends a property whose value is a number.
fn append_count(
    alloc: Global,
    name: &[u8],
    number: u64,
    out: &mut Vec<u8>,
) -> Result<(), AllocError>
    ensures { OnOk result (out.new.items ≡ out.old.items ++ property name.now (decimal number)) }
{
    let mut digits = Buffer::new();
    append_property(alloc, name, digits.format(number).as_bytes(), out)
}

/// The tool, the input and its number of beats, as properties.
#[tactic(auto, unfolding(crate::specs::statement::Junit::properties_of))]
fn properties_text(alloc: Global, account: &Account) -> Result<Vec<u8>, AllocError>
    ensures { IfOk result (λ text. text.items ≡ properties_of account.now) }
{
    let sum = hex::encode(alloc, account.input.sum)?;
    let mut text = Vec::new(alloc);
    append_property(alloc, b"version", VERSION.as_bytes(), &mut text)?;
    append_property(alloc, b"proved_with", KIT.as_bytes(), &mut text)?;
    append_property(alloc, b"sha256", sum.as_bytes(), &mut text)?;
    append_count(alloc, b"bytes", account.input.bytes, &mut text)?;
    append_count(alloc, b"beats", account.findings.beats, &mut text)?;
    Ok(text)
}

/// Appends the tool, the input and its number of beats.
fn append_properties(alloc: Global, account: &Account, out: &mut Vec<u8>) -> Result<(), AllocError>
    ensures { OnOk result (out.new.items ≡ out.old.items ++ properties_element account.now) }
{
    let content = properties_text(alloc, account)?;
    append_element(b"properties", b"", &content, out)
}

/// The class of the test cases of a command.
fn class_name(together: bool) -> &'static str
    ensures { result.now ≡ class_name together }
{
    if together {
        "tltool.coherent"
    } else {
        "tltool.monitor"
    }
}

/// The attributes of the test case with this name.
#[tactic(auto, unfolding(crate::specs::statement::Junit::case_named))]
fn case_attributes(alloc: Global, together: bool, name: &[u8]) -> Result<Vec<u8>, AllocError>
    ensures { IfOk result (λ text. text.items ≡ case_named together name.now) }
{
    let mut text = Vec::new(alloc);
    append_attribute(b"classname", class_name(together).as_bytes(), &mut text)?;
    append_attribute(b"name", name, &mut text)?;
    Ok(text)
}

/// The name of the test case of a line at fault.
fn line_name(alloc: Global, line: u64) -> Result<Vec<u8>, AllocError>
    ensures { IfOk result (λ name. name.items ≡ codes "line " ++ decimal line) }
{
    let mut digits = Buffer::new();
    let mut name = Vec::new(alloc);
    name.extend_from_slice(b"line ")?;
    name.extend_from_slice(digits.format(line).as_bytes())?;
    Ok(name)
}

/// The failure: the rule or fault, and its sentence.
#[tactic(auto, unfolding(crate::specs::statement::Junit::failure_of))]
fn failure_text(alloc: Global, fault: Fault) -> Result<Vec<u8>, AllocError>
    ensures { IfOk result (λ text. text.items ≡ failure_of fault) }
{
    let sentence = sentence_text(alloc, fault)?;
    let mut attributes = Vec::new(alloc);
    append_attribute(b"type", fault.name().as_bytes(), &mut attributes)?;
    append_attribute(b"message", &sentence, &mut attributes)?;
    let mut text = Vec::new(alloc);
    append_empty_element(b"failure", &attributes, &mut text)?;
    Ok(text)
}

/// Appends the test case of a line at fault, which failed.
#[tactic(auto, unfolding(crate::specs::statement::Junit::case_of))]
fn append_failed(
    alloc: Global,
    together: bool,
    finding: &Finding,
    out: &mut Vec<u8>,
) -> Result<(), AllocError>
    ensures { OnOk result (out.new.items ≡ out.old.items ++ case_of together finding.now) }
{
    let name = line_name(alloc, finding.line)?;
    let attributes = case_attributes(alloc, together, &name)?;
    let failure = failure_text(alloc, finding.fault)?;
    append_element(b"testcase", &attributes, &failure, out)
}

/// Appends the test case of a trace without a line at fault, which passed.
fn append_passed(alloc: Global, together: bool, out: &mut Vec<u8>) -> Result<(), AllocError>
    ensures { OnOk result (out.new.items ≡ out.old.items ++ cases_of together []) }
{
    let attributes = case_attributes(alloc, together, verdict_name(together, &[]).as_bytes())?;
    append_empty_element(b"testcase", &attributes, out)
}

/// Appends the test cases.
fn append_cases(
    alloc: Global,
    together: bool,
    faults: &[Finding],
    out: &mut Vec<u8>,
) -> Result<(), AllocError>
    ensures { OnOk result (out.new.items ≡ out.old.items ++ cases_of together faults.now) }
{
    if faults.is_empty() {
        return append_passed(alloc, together, out);
    }
    for finding in faults {
        append_failed(alloc, together, finding, out)?;
    }
    Ok(())
}

/// The name of the suite of a command's test cases.
fn suite_name(together: bool) -> &'static str
    ensures { result.now ≡ suite_name together }
{
    if together {
        "tltool coherent"
    } else {
        "tltool monitor"
    }
}

/// The number of test cases.
fn many_cases(faults: &[Finding]) -> u64
    ensures { result ≡ many_cases faults.now }
{
    if faults.is_empty() {
        1
    } else {
        faults.len() as u64
    }
}

/// The attributes of the suite.
#[tactic(auto, unfolding(crate::specs::statement::Junit::suite_named))]
fn suite_attributes(
    alloc: Global,
    together: bool,
    faults: &[Finding],
) -> Result<Vec<u8>, AllocError>
    ensures { IfOk result (λ text. text.items ≡ suite_named together faults.now) }
{
    let mut text = Vec::new(alloc);
    append_attribute(b"name", suite_name(together).as_bytes(), &mut text)?;
    append_number(b"tests", many_cases(faults), &mut text)?;
    append_number(b"failures", faults.len() as u64, &mut text)?;
    Ok(text)
}

/// The content of the suite: the properties and the test cases.
fn suite_content(alloc: Global, account: &Account) -> Result<Vec<u8>, AllocError>
    ensures { IfOk result (λ text. text.items ≡ suite_content account.now) }
{
    let mut text = Vec::new(alloc);
    append_properties(alloc, account, &mut text)?;
    append_cases(
        alloc,
        account.together,
        account.findings.faults.as_slice(),
        &mut text,
    )?;
    Ok(text)
}

/// The text of the report of an account in the form of JUnit: a suite with a failed test case for each line at fault,
/// or with one that passed.
pub fn junit_text(alloc: Global, account: &Account) -> Result<Vec<u8>, AllocError>
    ensures { IfOk result (λ text. text.items ≡ junit_of account.now) }
{
    let faults = account.findings.faults.as_slice();
    let attributes = suite_attributes(alloc, account.together, faults)?;
    let content = suite_content(alloc, account)?;
    let mut text = Vec::new(alloc);
    text.extend_from_slice(b"<?xml version=\"1.0\" encoding=\"UTF-8\"?>\n")?;
    append_element(b"testsuite", &attributes, &content, &mut text)?;
    Ok(text)
}
