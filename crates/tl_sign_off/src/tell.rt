//! Writes the verdict of a trace, and its report.

ghost use Rattle.std.specs.Prelude.{◌≡◌, ◌++◌, ℕ, List, IfErr, IfOk, OnOk};
ghost use Rattle.std.specs.Io.KnownBytes.{Appends, Consumes, IsAtEnd};
ghost use Rattle.tl_report.specs.statement.Said.{first_text};
ghost use Rattle.tl_sign_off.specs.statement.Account.{IsOf};
ghost use Rattle.tl_sign_off.specs.statement.Told.{GivesUpJudging, GivesUpWriting, report_in, verdict_text};

use crate::account::Account;
use crate::form::{Form, text_in};
use crate::judge::judge_whole;
use std::alloc::{AllocError, Global};
use std::io::{Read, Write};
use tl_command::search::Inquiry;
use tl_lines::fault::append_fault;
use tl_lines::monitor_lines::append_end;
use tl_lines::output::write_all;
use tl_lines::status::ToolFault;
use tl_report::findings::Findings;
use tl_report::say::append_all;

/// Appends `line N X` for the first line at fault. If there is none, appends `clean N`, or `coherent N` for all links
/// together.
fn append_first(together: bool, findings: &Findings, out: &mut Vec<u8>) -> Result<(), AllocError>
    ensures { OnOk result (out.new.items ≡ out.old.items ++ first_text together findings.now.faults.items
        findings.now.beats) }
{
    match findings.faults.as_slice() {
        [] => append_end(together, findings.beats, out),
        [first, ..] => append_fault(first.line, first.fault, out),
    }
}

/// Appends the verdict: all lines at fault and their number, or the first.
fn append_verdict(all: bool, account: &Account, out: &mut Vec<u8>) -> Result<(), AllocError>
    ensures { OnOk result (out.new.items ≡ out.old.items ++ verdict_text all account.now) }
{
    if all {
        append_all(account.together, &account.findings, out)
    } else {
        append_first(account.together, &account.findings, out)
    }
}

/// Judges an input to its end, and writes the verdict as `tl_commit_lines::run::run_events` does, or as
/// `tl_report::find::find_all` does if `inquiry.all` is set. Nothing is written before the input has come to its end.
/// With the error `Write` it has, and a part of the text isn't written.
pub fn tell_verdict<R: Read, W: Write>(
    alloc: Global,
    inquiry: Inquiry,
    reader: &mut R,
    writer: &mut W,
) -> Result<Account, ToolFault>
    ensures ok { IfOk result (λ account. (input : List ℕ)
        × Consumes (R.remaining reader.old) (R.remaining reader.new) input × IsAtEnd (R.remaining reader.new)
        × IsOf inquiry.aim account input
        × Appends (W.contents writer.old) (W.contents writer.new) (verdict_text inquiry.all account)) }
    ensures fault { IfErr result (GivesUpJudging inquiry (R.remaining reader.old) (R.remaining reader.new)
        (W.contents writer.old) (W.contents writer.new)) }
{
    let account = judge_whole(alloc, inquiry.aim, reader)?;
    let mut text = Vec::new(alloc);
    append_verdict(inquiry.all, &account, &mut text)?;
    write_all(writer, &text)?;
    Ok(account)
}

/// Writes the report of an account. With the error `Memory` nothing is written, with `Write` a part isn't. There is no
/// other error.
pub fn write_report<W: Write>(
    alloc: Global,
    form: Form,
    account: &Account,
    writer: &mut W,
) -> Result<(), ToolFault>
    ensures ok { OnOk result (Appends (W.contents writer.old) (W.contents writer.new) (report_in form account.now)) }
    ensures fault { IfErr result (GivesUpWriting (report_in form account.now) (W.contents writer.old)
        (W.contents writer.new)) }
{
    let text = text_in(alloc, form, account)?;
    write_all(writer, &text)
}
