//! The lines that explain a breach of a rule between links.

ghost use Rattle.std.specs.Prelude.{◌+◌, ◌*◌, ◌^◌, ◌<◌, ◌≤◌, ◌≡◌, ◌++◌, OnOk};
ghost use Rattle.std.specs.Fmt.{decimal};
ghost use Rattle.tl_beat.specs.statement.Digits.{digits};
ghost use Rattle.tl_explain.specs.statement.Evidence.{mention_of};
ghost use Rattle.tl_witness.specs.statement.Grounds.{asked_line, early_text, permission_line, since_text};

use crate::places::Places;
use arrayvec::ArrayVec;
use itoa::Buffer;
use std::alloc::AllocError;
use tl_beat::control::Control;
use tl_beat::text::append_digits;
use tl_explain::held::Held;
use tl_explain::told::Told;
use tl_explain::words::perm_name;
use tl_rules::kind::is_release_ack;

/// Appends the lowest hexadecimal digits of a number, this many of them, the highest first.
pub fn append_hex(number: u32, count: u8, out: &mut Vec<u8>) -> Result<(), AllocError>
    requires { count ≤ 8 }
    ensures { OnOk result (out.new.items ≡ out.old.items ++ digits count number) }
{
    let mut text = ArrayVec::<u8, 64>::new();
    append_digits(&mut text, number, count);
    out.extend_from_slice(text.as_slice())
}

/// Appends the number of a line.
pub(crate) fn append_number(number: u128, out: &mut Vec<u8>) -> Result<(), AllocError>
    ensures { OnOk result (out.new.items ≡ out.old.items ++ decimal number) }
{
    let mut digits = Buffer::new();
    out.extend_from_slice(digits.format(number).as_bytes())
}

/// The words for an answer that set a permission: it came before the last beat of the message that it answers.
fn early(control: &Control) -> &'static str
    ensures { result.now ≡ early_text control.now }
{
    match control {
        Control::D(x) if is_release_ack(x.opcode) => {
            " (a ReleaseAck before the last beat of its Release)"
        }
        Control::E(_) => " (a GrantAck before the last beat of its Grant)",
        _ => "",
    }
}

/// Appends the line since which a block is held, if a message is cited.
fn append_since<X: Places>(
    places: &X,
    since: &Option<Told>,
    out: &mut Vec<u8>,
) -> Result<(), AllocError>
    ensures { OnOk result (out.new.items ≡ out.old.items ++ since_text (X.names places.now) (mention_of since.now)) }
{
    match since {
        None => Ok(()),
        Some(told) => {
            out.extend_from_slice(b" since line ")?;
            append_number(places.line_at(u128::from(told.mention.line)), out)?;
            out.extend_from_slice(early(&told.mention.control).as_bytes())?;
            Ok(())
        }
    }
}

#[tactic(auto, unfolding(crate::specs::statement::Grounds::permission_line))]
/// Appends the permission that a link holds or is being granted, and since which line.
pub(crate) fn append_permission<X: Places>(
    places: &X,
    link: u8,
    verb: &str,
    block: u32,
    held: &Held,
    out: &mut Vec<u8>,
) -> Result<(), AllocError>
    ensures { OnOk result (block < 2 ^ 26 → out.new.items
        ≡ out.old.items ++ permission_line (X.names places.now) link verb.now block held.now.perm
        (mention_of held.now.since)) }
{
    out.extend_from_slice(b"  link ")?;
    append_hex(u32::from(link), 2, out)?;
    out.extend_from_slice(verb.as_bytes())?;
    out.extend_from_slice(perm_name(held.perm).as_bytes())?;
    out.extend_from_slice(b" of block ")?;
    places.append_place(block.saturating_mul(64), out)?;
    append_since(places, &held.since, out)?;
    out.push(b'\n')?;
    Ok(())
}

#[tactic(auto, unfolding(crate::specs::statement::Grounds::asked_line))]
/// Appends the line in which a request was complete.
pub(crate) fn append_asked<X: Places>(
    places: &X,
    line: u128,
    out: &mut Vec<u8>,
) -> Result<(), AllocError>
    ensures { OnOk result (out.new.items ≡ out.old.items ++ asked_line (X.names places.now) line) }
{
    out.extend_from_slice(b"  its request was complete in line ")?;
    append_number(places.line_at(line), out)?;
    out.push(b'\n')?;
    Ok(())
}
