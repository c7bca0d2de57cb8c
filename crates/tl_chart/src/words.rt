//! A message in words.

ghost use Rattle.std.specs.Prelude.{◌≡◌, ◌++◌, OnOk, option_map};
ghost use Rattle.tl_chart.specs.statement.Words;

use crate::arrow::Arrow;
use crate::layout::letter;
use crate::names::Names;
use crate::text::{append_byte, append_number};
use std::alloc::AllocError;
use tl_beat::beat::Link;
use tl_beat::control::Control;
use tl_explain::params::{name_on_a, name_on_b, name_on_c, name_on_d};
use tl_rules::kind::is_grant;

/// The name of a message.
fn name(control: &Control) -> &'static str
    ensures { result.now ≡ Words.message_name control.now }
{
    match control {
        Control::A(x) => x.opcode.name(),
        Control::B(x) => x.opcode.name(),
        Control::C(x) => x.opcode.name(),
        Control::D(x) => x.opcode.name(),
        Control::E(_) => "GrantAck",
    }
}

/// The name of a message's param, if it has one.
fn param(control: &Control) -> Option<&'static str>
    ensures { option_map (λ s. s.now) result ≡ Words.message_param control.now }
{
    match control {
        Control::A(x) => name_on_a(x.opcode, x.param),
        Control::B(x) => name_on_b(x.opcode, x.param),
        Control::C(x) => name_on_c(x.opcode, x.param),
        Control::D(x) => name_on_d(x.opcode, x.param),
        Control::E(_) => None,
    }
}

/// Appends a word after a space, if there is one.
fn append_word(word: Option<&str>, out: &mut Vec<u8>) -> Result<(), AllocError>
    ensures { OnOk result (out.new.items ≡ out.old.items
        ++ Words.word_text (option_map (λ s. s.now) word.entry)) }
{
    match word {
        None => Ok(()),
        Some(word) => {
            out.extend_from_slice(b" ")?;
            out.extend_from_slice(word.as_bytes())
        }
    }
}

#[tactic(auto, unfolding(crate::specs::statement::Words::name_text))]
/// Appends link, channel, name and param.
fn append_name(arrow: &Arrow, out: &mut Vec<u8>) -> Result<(), AllocError>
    ensures { OnOk result (out.new.items ≡ out.old.items ++ Words.name_text arrow.now) }
{
    append_byte(arrow.link.0, out)?;
    out.extend_from_slice(b" ")?;
    out.extend_from_slice(letter(&arrow.control).as_bytes())?;
    out.extend_from_slice(b" ")?;
    out.extend_from_slice(name(&arrow.control).as_bytes())?;
    append_word(param(&arrow.control), out)
}

#[tactic(auto, unfolding(crate::specs::statement::Words::block_text))]
/// Appends the block, if there is one.
fn append_block_word(names: &Names, block: Option<u32>, out: &mut Vec<u8>) -> Result<(), AllocError>
    ensures { OnOk result (out.new.items ≡ out.old.items ++ Words.block_text names.now block) }
{
    match block {
        None => Ok(()),
        Some(block) => {
            out.extend_from_slice(b" block ")?;
            names.append_block(block, out)
        }
    }
}

#[tactic(auto, unfolding(crate::specs::statement::Words::source_text))]
/// Appends the source of a link.
fn append_source(names: &Names, link: Link, source: u8, out: &mut Vec<u8>) -> Result<(), AllocError>
    ensures { OnOk result (out.new.items ≡ out.old.items ++ Words.source_text names.now link.0 source) }
{
    out.extend_from_slice(b" source ")?;
    names.append_source(link, source, out)
}

#[tactic(auto, unfolding(crate::specs::statement::Words::sink_text))]
/// Appends the sink.
fn append_sink(names: &Names, sink: u8, out: &mut Vec<u8>) -> Result<(), AllocError>
    ensures { OnOk result (out.new.items ≡ out.old.items ++ Words.sink_text names.now sink) }
{
    out.extend_from_slice(b" sink ")?;
    names.append_sink(sink, out)
}

/// Appends source and sink.
fn append_both(
    names: &Names,
    link: Link,
    source: u8,
    sink: u8,
    out: &mut Vec<u8>,
) -> Result<(), AllocError>
    ensures { OnOk result (out.new.items ≡ out.old.items
        ++ (Words.source_text names.now link.0 source ++ Words.sink_text names.now sink)) }
{
    append_source(names, link, source, out)?;
    append_sink(names, sink, out)
}

#[tactic(auto, unfolding(crate::specs::statement::Words::ends_text))]
/// Appends source and sink, if the message has them.
fn append_ends(
    names: &Names,
    link: Link,
    control: &Control,
    out: &mut Vec<u8>,
) -> Result<(), AllocError>
    ensures { OnOk result (out.new.items ≡ out.old.items ++ Words.ends_text names.now link.0 control.now) }
{
    match control {
        Control::A(x) => append_source(names, link, x.source, out),
        Control::B(_) => Ok(()),
        Control::C(x) => append_source(names, link, x.source, out),
        Control::D(x) => {
            if is_grant(x.opcode) {
                append_both(names, link, x.source, x.sink, out)
            } else {
                append_source(names, link, x.source, out)
            }
        }
        Control::E(sink) => append_sink(names, *sink, out),
    }
}

#[tactic(auto, unfolding(crate::specs::statement::Words::count_text))]
/// Appends the number of beats of the message, if it is more than one.
fn append_count(beats: u8, out: &mut Vec<u8>) -> Result<(), AllocError>
    ensures { OnOk result (out.new.items ≡ out.old.items ++ Words.count_text beats) }
{
    if beats <= 1 {
        return Ok(());
    }
    out.extend_from_slice(b" ")?;
    append_number(u64::from(beats), out)?;
    out.extend_from_slice(b" beats")
}

#[tactic(auto, unfolding(crate::specs::statement::Words::beats_text))]
/// Appends the number of beats of the message, and whether beats are missing.
fn append_beats(beats: u8, complete: bool, out: &mut Vec<u8>) -> Result<(), AllocError>
    ensures { OnOk result (out.new.items ≡ out.old.items ++ Words.beats_text beats complete) }
{
    append_count(beats, out)?;
    if complete {
        Ok(())
    } else {
        out.extend_from_slice(b", not all")
    }
}

/// Appends the words of a message, with these names.
pub fn append_words(names: &Names, arrow: &Arrow, out: &mut Vec<u8>) -> Result<(), AllocError>
    ensures { OnOk result (out.new.items ≡ out.old.items ++ Words.words_of names.now arrow.now) }
{
    append_name(arrow, out)?;
    append_block_word(names, arrow.block, out)?;
    append_ends(names, arrow.link, &arrow.control, out)?;
    append_beats(names.beats_of(arrow.beats), arrow.complete, out)
}
