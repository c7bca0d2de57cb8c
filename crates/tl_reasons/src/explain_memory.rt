//! Explains a beat that breaks a rule of memory.

ghost use Rattle.std.specs.Prelude.{◌≡◌, ◌≢◌, ◌+◌, [], List, ℕ, IfErr, IfOk, IfSome, OnOk, true};
ghost use Rattle.std.specs.Io.KnownBytes.{Consumes};
ghost use Rattle.tl_lines.specs.statement.Lines.{lines_of};
ghost use Rattle.tl_reasons.specs.code.Testifying.{AsksAbout, HasTold, IsUnheard};
ghost use Rattle.tl_lines.specs.statement.JudgedLinks.{JudgedLinks};
ghost use Rattle.tl_reasons.specs.statement.Explained.{IsWitnessed};
ghost use Rattle.tl_lines.specs.statement.Fault.{fault_text};

use crate::examiner::Found;
use crate::explain_fault::{ExplainFault, number_behind};
use crate::testimony::{Inquiry, Testimony, is_same_rule};
use std::alloc::{AllocError, Global};
use std::io::Read;
use tl_explain::told::Spelling;
use tl_lines::engine::judge_input;
use tl_lines::fault::{Fault, append_fault};
use tl_lines::lines::Lines;
use tl_lines::link_lines::{LinkJudge, LinkLines};
use tl_lines::status::{Status, ToolFault};
use tl_params::liberties::Liberties;
use tl_rules::memory_rule::MemoryRule;

/// Begins an inquiry into the lines up to the one at fault, if the block of its request is known.
fn inquiry_of(alloc: Global, found: &Found, rule: MemoryRule, line: &Spelling) -> Option<Inquiry>
    ensures { IfSome result (λ i. AsksAbout i found.now rule line.now) }
{
    Some(Inquiry {
        rule,
        block: found.block?,
        good: found.good,
        line: *line,
        count: 0,
        witness: None,
        reached: false,
        reasons: Vec::new(alloc),
    })
}

/// Judges the input of a reader again, all links together, with an inquiry. Returns the inquiry, and the status.
fn inquire<R: Read>(
    alloc: Global,
    allow: Liberties,
    inquiry: Inquiry,
    reader: &mut R,
    verdict: &mut Vec<u8>,
) -> Result<(Inquiry, Status), ToolFault>
    requires fresh { IsUnheard inquiry }
    requires empty { verdict.old.items ≡ [] }
    ensures ok { IfOk result (λ both. (read : List ℕ) × Consumes (R.remaining reader.old) (R.remaining reader.new) read
        × JudgedLinks true allow (lines_of read) verdict.new.items both.1
        × (both.0.reached ≡ true → HasTold allow both.0 (lines_of read))) }
    ensures fault { IfErr result (λ fault. fault ≢ ToolFault.Write) }
{
    let mut lines = Lines::new(Testimony {
        link_lines: LinkLines {
            together: true,
            allow,
            judge: LinkJudge::Waiting(alloc),
        },
        inquiry,
    });
    match judge_input(alloc, &mut lines, reader, verdict) {
        Ok(status) => {
            let Testimony {
                link_lines,
                inquiry,
            } = lines.into_handler();
            drop(link_lines);
            Ok((inquiry, status))
        }
        Err(fault) => {
            drop(lines);
            Err(fault)
        }
    }
}

/// Whether the verdict is that line `number` breaks the rule.
fn is_broken_there(
    alloc: Global,
    number: u64,
    rule: MemoryRule,
    status: Status,
    verdict: &[u8],
) -> Result<bool, AllocError>
    ensures { IfOk result (λ same. same ≡ true →
        (status ≡ Status.Broken) × (verdict.now ≡ fault_text number (Fault.MemoryRule rule))) }
{
    let mut text = Vec::new(alloc);
    append_fault(number, Fault::MemoryRule(rule), &mut text)?;
    Ok(status == Status::Broken && verdict == text.as_slice())
}

/// Explains a beat that breaks a rule of memory.
pub(crate) fn explain_memory<R: Read>(
    alloc: Global,
    allow: Liberties,
    reader: &mut R,
    found: &Found,
    rule: MemoryRule,
    line: &Spelling,
    out: &mut Vec<u8>,
) -> Result<(), ExplainFault>
    requires { out.old.items ≡ [] }
    ensures ok { OnOk result (IsWitnessed allow (R.remaining reader.old) (R.remaining reader.new) (found.now.good + 1) rule
        out.new.items) }
    ensures fault { IfErr result (λ fault. fault ≢ ExplainFault.Tool ToolFault.Write) }
{
    let number = number_behind(found.good)?;
    let start = inquiry_of(alloc, found, rule, line).ok_or(ExplainFault::Changed)?;
    let mut verdict = Vec::new(alloc);
    let (inquiry, status) = inquire(alloc, allow, start, reader, &mut verdict)?;
    if !is_broken_there(alloc, number, rule, status, &verdict)? {
        return Err(ExplainFault::Changed);
    }
    if !inquiry.reached || inquiry.good != found.good {
        return Err(ExplainFault::Changed);
    }
    if !is_same_rule(inquiry.rule, rule) {
        return Err(ExplainFault::Changed);
    }
    out.extend_from_slice(&inquiry.reasons)?;
    Ok(())
}
