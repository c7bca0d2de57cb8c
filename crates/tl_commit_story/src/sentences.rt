//! The sentences of faults, and the limits of a verdict.

ghost use Rattle.std.specs.Prelude.{◌≡◌, ◌++◌, OnOk};
ghost use Rattle.tl_commit_story.specs.statement.Grounds.{no_cache_words};
ghost use Rattle.tl_commit_story.specs.statement.Words;

use std::alloc::AllocError;
use tl_beat::fault::LineFault;
use tl_explain::named::{append_memory_sentence, append_sentence};
use tl_lines::fault::Fault;
use tl_params::level::Level;
use tl_reasons::commit_rules::append_commit_sentence;

/// Appends the sentence of the rule that a fault breaks, nothing for another fault.
pub fn append_rule(fault: Fault, out: &mut Vec<u8>) -> Result<(), AllocError>
    ensures { OnOk result (out.new.items ≡ out.old.items ++ Words.sentence_of fault) }
{
    match fault {
        Fault::Rule(rule) => append_sentence(rule, out),
        Fault::MemoryRule(rule) => append_memory_sentence(rule, out),
        Fault::CommitRule(rule) => append_commit_sentence(rule, out),
        _ => Ok(()),
    }
}

/// Whether the fault is a breach of a rule.
pub fn is_breach(fault: Fault) -> bool
    ensures { result ≡ Words.is_breach fault }
{
    matches!(
        fault,
        Fault::Rule(_) | Fault::MemoryRule(_) | Fault::CommitRule(_)
    )
}

/// Whether the fault is that of a line that spells no event.
pub fn is_of_line(fault: Fault) -> bool
    ensures { result ≡ Words.is_of_line fault }
{
    matches!(fault, Fault::Line(_))
}

/// The line of the fault of a line that spells no event.
fn line_words(fault: LineFault) -> &'static str
    ensures { result.now ≡ Words.line_words fault }
{
    match fault {
        LineFault::F1 => {
            "  F1: more than 256 bytes, or the last byte isn't LF, or fewer than two fields; or the number of fields isn't the letter's\n"
        }
        LineFault::F2 => "  F2: the second field isn't one of the letters A to E, S, L and I\n",
        LineFault::F3 => {
            "  F3: a field isn't of its form: lower-case digits of the wanted number, 0 or 1, or DATA; or a size over 3 or an address that isn't its multiple, in a line of S, L or I\n"
        }
        LineFault::F4 => "  F4: the opcode isn't in use\n",
        LineFault::F5 => "  F5: the param is over 7 on A, B and C, or over 3 on D\n",
        LineFault::F6 => "  F6: digits where the opcode carries no data, or `-` where it does\n",
    }
}

/// The words for a fault that is no breach of a rule.
pub fn other_words(fault: Fault) -> &'static str
    ensures { result.now ≡ Words.other_words fault }
{
    match fault {
        Fault::Line(found) => line_words(found),
        Fault::Header => "  F7: the first line is no header\n",
        _ => "",
    }
}

/// The questions that the verdict on a trace without a fault leaves open.
pub fn limits(together: bool) -> &'static str
    ensures { result.now ≡ Words.limits together }
{
    if together {
        "  coherent means that no beat breaks a rule of its own link or of memory, and no event a rule of stores and loads; it says nothing about messages that never come, nor about a link that isn't in the trace\n"
    } else {
        "  clean means that no beat breaks a rule of its own link; it says nothing about two links together, nor about the data, nor about stores and loads\n"
    }
}

/// The words for a commit of a link that has no cache.
pub fn no_cache_words(level: Option<Level>) -> &'static str
    ensures { result.now ≡ no_cache_words level }
{
    match level {
        None => "  the header names no such link\n",
        Some(Level::UL) =>
            "  the link is of level UL; stores and loads are those of caches, on links of level C\n",
        Some(Level::UH) =>
            "  the link is of level UH; stores and loads are those of caches, on links of level C\n",
        Some(Level::C) => "",
    }
}
