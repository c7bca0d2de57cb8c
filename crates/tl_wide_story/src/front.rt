//! Writes the first lines of the reasons for a verdict on a wide trace.

ghost use Rattle.std.specs.Prelude.{◌≡◌, ◌++◌, OnOk};
ghost use Rattle.tl_wide.specs.statement.Width.{IsWideWidth};
ghost use Rattle.tl_wide_story.specs.code.WideReplaying.{sentence_of};
ghost use Rattle.tl_wide_story.specs.statement.WideExplained.{wide_beat_line, wide_front_text};

use itoa::Buffer;
use std::alloc::AllocError;
use tl_beat::beat::Link;
use tl_explain::named::{append_memory_sentence, append_sentence};
use tl_lines::fault::Fault;
use tl_wide::beat::WideBeat;
use tl_wide_lines::text::append_wide_text;

#[tactic(auto, unfolding(crate::specs::statement::WideExplained::wide_beat_line))]
/// Appends the readable line of a wide beat, after the number of its line.
pub fn append_wide_beat_line<const W: usize>(
    number: u64,
    link: Link,
    beat: &WideBeat<W>,
    out: &mut Vec<u8>,
) -> Result<(), AllocError>
    requires { IsWideWidth W }
    ensures { OnOk result (out.new.items ≡ out.old.items ++ wide_beat_line number link beat.now) }
{
    let mut digits = Buffer::new();
    out.extend_from_slice(b"  ")?;
    out.extend_from_slice(digits.format(number).as_bytes())?;
    out.extend_from_slice(b": ")?;
    append_wide_text(link, beat, out)
}

/// Appends the sentence of a rule, nothing for another fault.
fn append_rule(fault: Fault, out: &mut Vec<u8>) -> Result<(), AllocError>
    ensures { OnOk result (out.new.items ≡ out.old.items ++ sentence_of fault) }
{
    match fault {
        Fault::Rule(rule) => append_sentence(rule, out),
        Fault::MemoryRule(rule) => append_memory_sentence(rule, out),
        _ => Ok(()),
    }
}

/// Appends the sentence of the rule that is broken, and the wide beat that breaks it, as it was written.
pub fn append_front<const W: usize>(
    fault: Fault,
    number: u64,
    link: Link,
    beat: &WideBeat<W>,
    out: &mut Vec<u8>,
) -> Result<(), AllocError>
    requires { IsWideWidth W }
    ensures { OnOk result (out.new.items ≡ out.old.items ++ wide_front_text (sentence_of fault) number link beat.now) }
{
    out.extend_from_slice(b"  ")?;
    append_rule(fault, out)?;
    append_wide_beat_line(number, link, beat, out)
}
