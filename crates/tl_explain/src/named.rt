//! Explains a rule or a fault by its name.

ghost use Rattle.std.specs.Prelude.{◌≡◌, ◌++◌, codes, OnOk};
ghost use Rattle.tl_explain.specs.statement.Sentences.{in_brackets, memory_rule_line, rule_line};

use crate::example::{Example, example_of};
use crate::memory;
use crate::sentence::{basis, judged_messages, sentence};
use std::alloc::AllocError;
use std::io;
use std::io::Write;
use tl_params::rule::Rule;
use tl_rules::memory_rule::MemoryRule;

/// The rules that traces are judged by, in the order in which they are judged.
const RULES: [Rule; 21] = [
    Rule::L1,
    Rule::L7,
    Rule::L2,
    Rule::L3,
    Rule::L4,
    Rule::L5,
    Rule::L6,
    Rule::S1,
    Rule::H1,
    Rule::H2,
    Rule::H3,
    Rule::H4,
    Rule::H5,
    Rule::H6,
    Rule::H7,
    Rule::H8,
    Rule::H9,
    Rule::H10,
    Rule::H11,
    Rule::H12,
    Rule::H13,
];

/// The rule of this name.
fn rule_named(name: &str) -> Option<Rule> {
    for rule in RULES {
        if rule.name() == name {
            return Some(rule);
        }
    }
    None
}

/// The sentence of a fault of a line, as docs/FORMATS.md has it.
fn fault_named(name: &str) -> Option<&'static str> {
    match name {
        "F1" => Some(
            "more than 256 bytes, or the last byte isn't LF, or fewer than two fields; or the number of fields isn't the channel's",
        ),
        "F2" => Some("the second field isn't one of the letters A to E"),
        "F3" => Some(
            "a field isn't of its form: lower-case digits of the wanted number, 0 or 1, or DATA",
        ),
        "F4" => Some("the opcode isn't in use"),
        "F5" => Some("the param is over 7 on A, B and C, or over 3 on D"),
        "F6" => Some("digits where the opcode carries no data, or `-` where it does"),
        "F7" => Some("the first line is no header"),
        "F8" => Some("the line of a schedule says no event"),
        "F9" => Some("more than 2^26 blocks, 256 sources of a link or 256 sinks"),
        _ => None,
    }
}

/// Appends a trace, each line after two spaces.
fn append_trace(trace: &str, out: &mut Vec<u8>) -> io::Result<()> {
    for line in trace.lines() {
        write!(out, "  {line}\n")?;
    }
    Ok(())
}

/// Appends a text in brackets after a space, if it isn't empty.
fn append_in_brackets(text: &str, out: &mut Vec<u8>) -> Result<(), AllocError>
    ensures { OnOk result (out.new.items ≡ out.old.items ++ in_brackets text.now) }
{
    if text.is_empty() {
        return Ok(());
    }
    out.extend_from_slice(b" (")?;
    out.extend_from_slice(text.as_bytes())?;
    out.push(b')')?;
    Ok(())
}

/// Appends the name of a rule, the messages that it judges, if there are any to name, and its sentence.
fn append_said(
    name: &str,
    messages: &str,
    sentence: &str,
    out: &mut Vec<u8>,
) -> Result<(), AllocError>
    ensures { OnOk result (out.new.items ≡ out.old.items ++ name.now ++ in_brackets messages.now ++ codes ": "
        ++ sentence.now ++ codes "\n") }
{
    out.extend_from_slice(name.as_bytes())?;
    append_in_brackets(messages, out)?;
    out.extend_from_slice(b": ")?;
    out.extend_from_slice(sentence.as_bytes())?;
    out.push(b'\n')?;
    Ok(())
}

#[tactic(auto, unfolding(crate::specs::statement::Sentences::rule_line))]
/// Appends the name of a rule of a link, with the messages that it judges, and its sentence.
pub fn append_sentence(rule: Rule, out: &mut Vec<u8>) -> Result<(), AllocError>
    ensures { OnOk result (out.new.items ≡ out.old.items ++ rule_line rule) }
{
    append_said(rule.name(), judged_messages(rule), sentence(rule), out)
}

#[tactic(auto, unfolding(crate::specs::statement::Sentences::memory_rule_line))]
/// Appends the name of a rule between links, the messages that it judges, and its sentence.
pub fn append_memory_sentence(rule: MemoryRule, out: &mut Vec<u8>) -> Result<(), AllocError>
    ensures { OnOk result (out.new.items ≡ out.old.items ++ memory_rule_line rule) }
{
    let said = memory::explanation_of(rule);
    append_said(rule.name(), said.messages, said.sentence, out)
}

fn append_basis(basis: &str, out: &mut Vec<u8>) -> io::Result<()> {
    write!(out, "judged by: {basis}\n")
}

fn append_example(example: &Example, out: &mut Vec<u8>) -> io::Result<()> {
    let what = example.what;
    let instead = example.instead;
    write!(
        out,
        "a shortest trace that breaks it, in its last line ({what}):\n"
    )?;
    append_trace(example.wrong, out)?;
    write!(out, "right instead ({instead}):\n")?;
    append_trace(example.right, out)
}

fn tell_rule(rule: Rule, out: &mut Vec<u8>) -> io::Result<()> {
    append_sentence(rule, out)?;
    append_basis(basis(rule), out)?;
    match example_of(rule) {
        None => Ok(()),
        Some(example) => append_example(&example, out),
    }
}

fn tell_memory_rule(rule: MemoryRule, out: &mut Vec<u8>) -> io::Result<()> {
    let said = memory::explanation_of(rule);
    append_memory_sentence(rule, out)?;
    append_basis(said.basis, out)?;
    append_example(&said.example, out)
}

/// Appends the explanation of the rule or fault with this name, and returns whether there is one.
pub fn tell_named(name: &str, out: &mut Vec<u8>) -> io::Result<bool> {
    if let Some(rule) = rule_named(name) {
        tell_rule(rule, out)?;
        return Ok(true);
    }
    if let Some(rule) = memory::rule_named(name) {
        tell_memory_rule(rule, out)?;
        return Ok(true);
    }
    match fault_named(name) {
        None => Ok(false),
        Some(sentence) => {
            write!(out, "{name}: {sentence}\n")?;
            Ok(true)
        }
    }
}
