//! The sentence of a fault.

ghost use Rattle.std.specs.Prelude.{◌≡◌, ◌++◌, codes, IfOk, OnOk};
ghost use Rattle.tl_lines.specs.statement.Fault.{fault_name};
ghost use Rattle.tl_sign_off.specs.statement.Sentence.{line_sentence, sentence_of};

use std::alloc::{AllocError, Global};
use tl_beat::fault::LineFault;
use tl_explain::named::{append_memory_sentence, append_sentence};
use tl_lines::fault::Fault;
use tl_reasons::commit_rules::append_commit_sentence;

/// The condition of a fault that is no rule.
fn line_sentence(fault: Fault) -> &'static str
    ensures { result.now ≡ line_sentence fault }
{
    match fault {
        Fault::Line(LineFault::F1) => {
            "more than 256 bytes, or the last byte isn't LF, or fewer than two fields; or the number of fields isn't the channel's"
        }
        Fault::Line(LineFault::F2) => "the second field isn't one of the letters A to E",
        Fault::Line(LineFault::F3) => {
            "a field isn't of its form: lower-case digits of the wanted number, 0 or 1, or DATA"
        }
        Fault::Line(LineFault::F4) => "the opcode isn't in use",
        Fault::Line(LineFault::F5) => "the param is over 7 on A, B and C, or over 3 on D",
        Fault::Line(LineFault::F6) => {
            "digits where the opcode carries no data, or `-` where it does"
        }
        Fault::Header => "the first line is no header",
        Fault::Beyond => "more than 2^26 blocks, 256 sources of a link or 256 sinks",
        _ => "the line of a schedule says no event",
    }
}

/// Appends the name of a fault and its condition, as a line.
fn append_line_sentence(fault: Fault, out: &mut Vec<u8>) -> Result<(), AllocError>
    ensures { OnOk result (out.new.items ≡ out.old.items ++ fault_name fault ++ codes ": " ++ line_sentence fault
        ++ codes "\n") }
{
    out.extend_from_slice(fault.name().as_bytes())?;
    out.extend_from_slice(b": ")?;
    out.extend_from_slice(line_sentence(fault).as_bytes())?;
    out.push(b'\n')?;
    Ok(())
}

/// Appends the sentence of a rule or fault, as `explain` writes it, as a line.
fn append_sentence_of(fault: Fault, out: &mut Vec<u8>) -> Result<(), AllocError>
    ensures { OnOk result (out.new.items ≡ out.old.items ++ sentence_of fault ++ codes "\n") }
{
    match fault {
        Fault::Rule(rule) => append_sentence(rule, out),
        Fault::MemoryRule(rule) => append_memory_sentence(rule, out),
        Fault::CommitRule(rule) => append_commit_sentence(rule, out),
        _ => append_line_sentence(fault, out),
    }
}

/// The sentence of a rule or fault, as `explain` writes it.
pub fn sentence_text(alloc: Global, fault: Fault) -> Result<Vec<u8>, AllocError>
    ensures { IfOk result (λ text. text.items ≡ sentence_of fault) }
{
    let mut text = Vec::new(alloc);
    append_sentence_of(fault, &mut text)?;
    text.pop();
    Ok(text)
}
