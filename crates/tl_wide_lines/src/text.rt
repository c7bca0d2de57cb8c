//! Writes a wide beat as a readable line.

ghost use Rattle.std.specs.Prelude.{◌≡◌, ◌≤◌, ◌/◌, ◌++◌, ◌∷◌, [], OnOk, codes, option_map};
ghost use Rattle.tl_beat.specs.statement.Digits.{bit_text, digits};
ghost use Rattle.tl_explain.specs.statement.Text.{param_text};
ghost use Rattle.tl_wide.specs.declared.beat.WideBeat.TheVariants as wide;
ghost use Rattle.tl_wide.specs.statement.Width.{IsWideWidth};
ghost use Rattle.tl_wide_lines.specs.code.WideDecoding.{tail_said};
ghost use Rattle.tl_wide_lines.specs.statement.WideText.{wide_text_of};

use arrayvec::ArrayVec;
use std::alloc::AllocError;
use tl_beat::beat::Link;
use tl_explain::params::{name_on_a, name_on_b, name_on_c, name_on_d};
use tl_wide::beat::{WideBeat, WideBeatA, WideBeatB, WideBeatC, WideBeatD, WideBeatE};
use tl_wide::text::{append_long, append_wide_data};

/// Appends a label, and the lowest `count` hexadecimal digits of a number.
fn append_number(label: &str, number: u64, count: u8, out: &mut Vec<u8>) -> Result<(), AllocError>
    requires { count ≤ 16 }
    ensures { OnOk result (out.new.items ≡ out.old.items ++ label.now ++ digits count number) }
{
    let mut text = ArrayVec::new();
    append_long(&mut text, number, count);
    out.extend_from_slice(label.as_bytes())?;
    out.extend_from_slice(text.as_slice())
}

/// Appends a label and a bit.
fn append_bit(label: &str, bit: bool, out: &mut Vec<u8>) -> Result<(), AllocError>
    ensures { OnOk result (out.new.items ≡ out.old.items ++ label.now ++ bit_text bit) }
{
    out.extend_from_slice(label.as_bytes())?;
    out.push(if bit { b'1' } else { b'0' })?;
    Ok(())
}

/// Appends a param by its name, or by its digit if it has none.
fn append_param(name: Option<&str>, param: u8, out: &mut Vec<u8>) -> Result<(), AllocError>
    ensures { OnOk result (out.new.items
        ≡ out.old.items ++ param_text (option_map (λ s. s.now) name.entry) param) }
{
    match name {
        Some(name) => out.extend_from_slice(name.as_bytes()),
        None => append_number("", u64::from(param), 1, out),
    }
}

/// Appends link, channel and the name of the opcode.
fn append_name(link: Link, letter: u8, name: &str, out: &mut Vec<u8>) -> Result<(), AllocError>
    ensures { OnOk result (out.new.items ≡ out.old.items ++ digits 2 link.0 ++ 32 ∷ letter ∷ 32 ∷ name.now) }
{
    append_number("", u64::from(link.0), 2, out)?;
    out.extend_from_slice(&[b' ', letter, b' '])?;
    out.extend_from_slice(name.as_bytes())
}

/// Appends the fields from the param to the source.
fn append_head(
    param_name: Option<&str>,
    param: u8,
    size: u8,
    source: u16,
    out: &mut Vec<u8>,
) -> Result<(), AllocError>
    ensures { OnOk result (out.new.items ≡ out.old.items
        ++ 32 ∷ (param_text (option_map (λ s. s.now) param_name.entry) param
        ++ codes " size=" ++ digits 1 size ++ codes " source=" ++ digits 4 source)) }
{
    out.push(b' ')?;
    append_param(param_name, param, out)?;
    append_number(" size=", u64::from(size), 1, out)?;
    append_number(" source=", u64::from(source), 4, out)
}

/// Appends data, the corrupt bit and a line feed.
fn append_tail<const W: usize>(
    lanes: &Option<[u8; W]>,
    corrupt: bool,
    out: &mut Vec<u8>,
) -> Result<(), AllocError>
    requires { IsWideWidth W }
    ensures { OnOk result (out.new.items ≡ out.old.items ++ tail_said lanes.now corrupt) }
{
    let mut data = ArrayVec::new();
    append_wide_data(&mut data, lanes);
    out.extend_from_slice(b" data=")?;
    out.extend_from_slice(data.as_slice())?;
    append_bit(" corrupt=", corrupt, out)?;
    out.push(b'\n')?;
    Ok(())
}

/// Appends the readable line of a beat of channel A.
fn append_a<const W: usize>(
    link: Link,
    beat: &WideBeatA<W>,
    out: &mut Vec<u8>,
) -> Result<(), AllocError>
    requires { IsWideWidth W }
    ensures { OnOk result (out.new.items ≡ out.old.items ++ wide_text_of link (wide.A beat.now)) }
{
    let name = name_on_a(beat.opcode, beat.param);
    append_name(link, b'A', beat.opcode.name(), out)?;
    append_head(name, beat.param, beat.size, beat.source, out)?;
    append_number(" address=", beat.address, 16, out)?;
    append_number(" mask=", beat.mask, (W / 4) as u8, out)?;
    append_tail(&beat.lanes, beat.corrupt, out)
}

/// Appends the readable line of a beat of channel B.
fn append_b<const W: usize>(
    link: Link,
    beat: &WideBeatB<W>,
    out: &mut Vec<u8>,
) -> Result<(), AllocError>
    requires { IsWideWidth W }
    ensures { OnOk result (out.new.items ≡ out.old.items ++ wide_text_of link (wide.B beat.now)) }
{
    let name = name_on_b(beat.opcode, beat.param);
    append_name(link, b'B', beat.opcode.name(), out)?;
    append_head(name, beat.param, beat.size, beat.source, out)?;
    append_number(" address=", beat.address, 16, out)?;
    append_number(" mask=", beat.mask, (W / 4) as u8, out)?;
    append_tail(&beat.lanes, beat.corrupt, out)
}

/// Appends the readable line of a beat of channel C.
fn append_c<const W: usize>(
    link: Link,
    beat: &WideBeatC<W>,
    out: &mut Vec<u8>,
) -> Result<(), AllocError>
    requires { IsWideWidth W }
    ensures { OnOk result (out.new.items ≡ out.old.items ++ wide_text_of link (wide.C beat.now)) }
{
    let name = name_on_c(beat.opcode, beat.param);
    append_name(link, b'C', beat.opcode.name(), out)?;
    append_head(name, beat.param, beat.size, beat.source, out)?;
    append_number(" address=", beat.address, 16, out)?;
    append_tail(&beat.lanes, beat.corrupt, out)
}

/// Appends the readable line of a beat of channel D.
fn append_d<const W: usize>(
    link: Link,
    beat: &WideBeatD<W>,
    out: &mut Vec<u8>,
) -> Result<(), AllocError>
    requires { IsWideWidth W }
    ensures { OnOk result (out.new.items ≡ out.old.items ++ wide_text_of link (wide.D beat.now)) }
{
    let name = name_on_d(beat.opcode, beat.param);
    append_name(link, b'D', beat.opcode.name(), out)?;
    append_head(name, beat.param, beat.size, beat.source, out)?;
    append_number(" sink=", u64::from(beat.sink), 4, out)?;
    append_bit(" denied=", beat.denied, out)?;
    append_tail(&beat.lanes, beat.corrupt, out)
}

/// Appends the readable line of a beat of channel E.
fn append_e<const W: usize>(
    link: Link,
    beat: WideBeatE,
    out: &mut Vec<u8>,
) -> Result<(), AllocError>
    ensures { OnOk result (out.new.items ≡ out.old.items ++ wide_text_of {w = W} link (wide.E beat)) }
{
    append_name(link, b'E', "GrantAck", out)?;
    append_number(" sink=", u64::from(beat.sink), 4, out)?;
    out.push(b'\n')?;
    Ok(())
}

/// Appends the readable line of a wide beat on a link: that of a beat, with 16 digits of address, 4 of source and of
/// sink, and a mask and data of `W` bytes. The error means that there is no memory left; then a part of the line may
/// have been appended.
pub fn append_wide_text<const W: usize>(
    link: Link,
    beat: &WideBeat<W>,
    out: &mut Vec<u8>,
) -> Result<(), AllocError>
    requires { IsWideWidth W }
    ensures { OnOk result (out.new.items ≡ out.old.items ++ wide_text_of link beat.now) }
{
    match beat {
        WideBeat::A(beat) => append_a(link, beat, out),
        WideBeat::B(beat) => append_b(link, beat, out),
        WideBeat::C(beat) => append_c(link, beat, out),
        WideBeat::D(beat) => append_d(link, beat, out),
        WideBeat::E(beat) => append_e::<W>(link, *beat, out),
    }
}
