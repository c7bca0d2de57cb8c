//! Judges a trace, and writes its report into files.

ghost use Rattle.std.specs.Prelude.{◌≡◌, ℕ, IfOk, List, OnErr, Option, false};
ghost use Rattle.tltool.specs.Reported.{EndsJudged, EndsReported, status_reported};

use crate::input::open;
use crate::{told, unopened};
use std::io::{Read, Write};
use std::{fs, io};
use tl_command::search::Inquiry;
use tl_lines::status::{ToolFault, exit_of};
use tl_report::findings::Findings;
use tl_report::say::status_of;
use tl_sign_off::account::Account;
use tl_sign_off::form::Form;
use tl_sign_off::tell::{tell_verdict, write_report};

/// Judges the input of a reader, and writes the verdict.
fn judge_over<R: Read, W: Write>(
    rt: &HostRuntime,
    inquiry: Inquiry,
    input: &mut R,
    output: &mut W,
) -> Result<Account, ToolFault>
    ensures { EndsJudged inquiry (R.remaining input.old) (R.remaining input.new) (W.contents output.old)
        (W.contents output.new) result }
{
    tell_verdict(rt.alloc(), inquiry, input, output)
}

/// Writes a report, or prints the fault. Returns whether it was written.
fn report_over<W: Write>(rt: &HostRuntime, form: Form, account: &Account, output: &mut W) -> bool
    ensures { EndsReported form account.now (W.contents output.old) (W.contents output.new) result }
{
    match write_report(rt.alloc(), form, account, output) {
        Ok(()) => true,
        Err(fault) => {
            let _ = rt.eprintln(fault);
            false
        }
    }
}

/// Writes a report into the file of this name, or says that it can't be opened. Returns whether it was written.
fn write_to<W: Write + Drop>(
    rt: &HostRuntime,
    form: Form,
    account: &Account,
    name: &str,
    created: io::Result<W>,
) -> bool
    ensures created { IfOk created (λ file. (holds : Option (List ℕ)) × EndsReported form account.now (W.contents file)
        holds result) }
    ensures uncreated { OnErr created (result ≡ false) }
{
    match created {
        Ok(mut file) => report_over(rt, form, account, &mut file),
        Err(_) => {
            let _ = unopened(rt, name);
            false
        }
    }
}

/// Writes a report if a file is named for it. Returns false if it couldn't be written.
fn write_named(rt: &HostRuntime, form: Form, account: &Account, name: Option<String>) -> bool {
    match name {
        None => true,
        Some(name) => {
            let created = fs::create(rt, name.as_str());
            write_to(rt, form, account, name.as_str(), created)
        }
    }
}

/// The exit status after the verdict: 3 if a report couldn't be written.
fn status_reported(findings: &Findings, written: bool) -> u8
    ensures { result ≡ status_reported findings.now.faults.items written }
{
    if written {
        exit_of(&Ok(status_of(findings)))
    } else {
        exit_of(&Err(ToolFault::Write))
    }
}

/// Judges the trace on standard input, or in the file of this name. The error is the exit status.
fn judge(rt: &HostRuntime, inquiry: Inquiry, name: Option<String>) -> Result<Account, u8> {
    let mut input = open(rt, name.as_deref())?;
    let judged = judge_over(rt, inquiry, &mut input, &mut io::writer(rt));
    judged.map_err(|fault| told(rt, Err(fault)))
}

/// Judges the trace on standard input, or in the file of this name, and writes its report in each form for which a file
/// is named. Returns the exit status.
pub fn report(
    rt: &HostRuntime,
    inquiry: Inquiry,
    file: Option<String>,
    json: Option<String>,
    junit: Option<String>,
) -> u8 {
    match judge(rt, inquiry, file) {
        Err(status) => status,
        Ok(account) => {
            let first = write_named(rt, Form::Json, &account, json);
            let second = write_named(rt, Form::Junit, &account, junit);
            status_reported(&account.findings, first && second)
        }
    }
}
