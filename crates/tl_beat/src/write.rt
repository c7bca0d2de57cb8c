//! Writes a beat as a line of text.

ghost use Rattle.std.specs.Prelude.{◌≡◌, ◌<◌, ◌≤◌, ◌+◌, ◌/◌, ◌^◌, ◌++◌, ◌∷◌, [], length, OnOk, OnErr};
ghost use Rattle.tl_beat.specs.declared.beat.Beat.{Beat};
ghost use Rattle.tl_beat.specs.declared.beat.Beat.TheVariants as beat_of;
ghost use Rattle.tl_beat.specs.declared.beat.Link.{Link};
ghost use Rattle.tl_beat.specs.statement.Digits.{digits};
ghost use Rattle.tl_beat.specs.statement.Line.{line_of, fields_of, spaced, IsWritable};
ghost use Rattle.tl_beat.specs.statement.Opcode.{a_code, b_code, c_code, d_code};
ghost use Rattle.tl_beat.specs.statement.Width.{IsWidth};
ghost use Rattle.tl_beat.specs.code.Writing.{next_number, next_bit, head_text, tail_text};

use crate::beat::{Beat, BeatA, BeatB, BeatC, BeatD, BeatE, Link};
use crate::text::{append_bit, append_data, append_digits};
use arrayvec::ArrayVec;
use std::alloc::AllocError;

/// Appends a space and a number.
#[inline(always)]
fn append_number(text: &mut ArrayVec<u8, 64>, number: u32, count: u8)
    requires count { count ≤ 8 }
    requires room { length text.old.items + count < 64 }
    ensures text { text.new.items ≡ text.old.items ++ next_number count number }
    ensures len { length text.new.items ≡ length text.old.items + count + 1 }
{
    text.push(b' ');
    append_digits(text, number, count);
}

/// Appends a space and a bit.
#[inline(always)]
fn append_next_bit(text: &mut ArrayVec<u8, 64>, bit: bool)
    requires { length text.old.items ≤ 62 }
    ensures text { text.new.items ≡ text.old.items ++ next_bit bit }
    ensures len { length text.new.items ≡ length text.old.items + 2 }
{
    text.push(b' ');
    append_bit(text, bit);
}

/// The fields that lines of channels A to D begin with.
#[derive(Clone, Copy)]
struct Head {
    link: Link,
    letter: u8,
    opcode: u8,
    param: u8,
    size: u8,
    source: u8,
}

#[inline(always)]
fn append_head(text: &mut ArrayVec<u8, 64>, head: Head)
    requires { text.old.items ≡ [] }
    ensures text { text.new.items ≡ head_text head.link.0 head.letter head.opcode head.param head.size head.source }
    ensures len { length text.new.items ≡ 13 }
{
    append_digits(text, u32::from(head.link.0), 2);
    text.push(b' ');
    text.push(head.letter);
    append_number(text, u32::from(head.opcode), 1);
    append_number(text, u32::from(head.param), 1);
    append_number(text, u32::from(head.size), 1);
    append_number(text, u32::from(head.source), 2);
}

#[inline(always)]
fn append_tail<const W: usize>(text: &mut ArrayVec<u8, 64>, lanes: &Option<[u8; W]>, corrupt: bool)
    requires width { IsWidth W }
    requires room { length text.old.items ≤ 28 }
    ensures text { text.new.items ≡ text.old.items ++ tail_text lanes.now corrupt }
    ensures len { length text.new.items ≤ length text.old.items + 35 }
{
    text.push(b' ');
    append_data(text, lanes);
    append_next_bit(text, corrupt);
}

#[inline(always)]
fn append_a<const W: usize>(text: &mut ArrayVec<u8, 64>, link: Link, beat: &BeatA<W>)
    requires width { IsWidth W }
    requires empty { text.old.items ≡ [] }
    ensures text { text.new.items ≡ spaced (fields_of link (beat_of.A beat.now)) }
    ensures len { length text.new.items < 64 }
{
    let head = Head {
        link,
        letter: b'A',
        opcode: beat.opcode.code(),
        param: beat.param,
        size: beat.size,
        source: beat.source,
    };
    append_head(text, head);
    append_number(text, beat.address, 8);
    append_number(text, u32::from(beat.mask), (W / 4) as u8);
    append_tail(text, &beat.lanes, beat.corrupt);
}

#[inline(always)]
fn append_b<const W: usize>(text: &mut ArrayVec<u8, 64>, link: Link, beat: &BeatB<W>)
    requires width { IsWidth W }
    requires empty { text.old.items ≡ [] }
    ensures text { text.new.items ≡ spaced (fields_of link (beat_of.B beat.now)) }
    ensures len { length text.new.items < 64 }
{
    let head = Head {
        link,
        letter: b'B',
        opcode: beat.opcode.code(),
        param: beat.param,
        size: beat.size,
        source: beat.source,
    };
    append_head(text, head);
    append_number(text, beat.address, 8);
    append_number(text, u32::from(beat.mask), (W / 4) as u8);
    append_tail(text, &beat.lanes, beat.corrupt);
}

#[inline(always)]
fn append_c<const W: usize>(text: &mut ArrayVec<u8, 64>, link: Link, beat: &BeatC<W>)
    requires width { IsWidth W }
    requires empty { text.old.items ≡ [] }
    ensures text { text.new.items ≡ spaced (fields_of link (beat_of.C beat.now)) }
    ensures len { length text.new.items < 64 }
{
    let head = Head {
        link,
        letter: b'C',
        opcode: beat.opcode.code(),
        param: beat.param,
        size: beat.size,
        source: beat.source,
    };
    append_head(text, head);
    append_number(text, beat.address, 8);
    append_tail(text, &beat.lanes, beat.corrupt);
}

#[inline(always)]
fn append_d<const W: usize>(text: &mut ArrayVec<u8, 64>, link: Link, beat: &BeatD<W>)
    requires width { IsWidth W }
    requires empty { text.old.items ≡ [] }
    ensures text { text.new.items ≡ spaced (fields_of link (beat_of.D beat.now)) }
    ensures len { length text.new.items < 64 }
{
    let head = Head {
        link,
        letter: b'D',
        opcode: beat.opcode.code(),
        param: beat.param,
        size: beat.size,
        source: beat.source,
    };
    append_head(text, head);
    append_number(text, u32::from(beat.sink), 2);
    append_next_bit(text, beat.denied);
    append_tail(text, &beat.lanes, beat.corrupt);
}

#[inline(always)]
fn append_e<const W: usize>(text: &mut ArrayVec<u8, 64>, link: Link, beat: BeatE)
    requires { text.old.items ≡ [] }
    ensures text { text.new.items ≡ spaced (fields_of {w = W} link (beat_of.E beat)) }
    ensures len { length text.new.items < 64 }
{
    append_digits(text, u32::from(link.0), 2);
    text.push(b' ');
    text.push(b'E');
    append_number(text, u32::from(beat.sink), 2);
}

/// Appends the line of a beat on a link, with its line feed. Its param must fit into the channel's field (3 bits on
/// channels A to C, 2 on D), its size into 4 bits and its mask into `W` bits. The error means that there is no memory
/// left; then the vector stays as it was.
pub fn write_line<const W: usize>(
    link: Link,
    beat: &Beat<W>,
    out: &mut Vec<u8>,
) -> Result<(), AllocError>
    requires width { IsWidth W }
    requires writable { IsWritable beat.now }
    ensures ok { OnOk result (out.new.items ≡ out.old.items ++ line_of link beat.now) }
    ensures err { OnErr result (out.new.items ≡ out.old.items) }
{
    let mut text = ArrayVec::new();
    match beat {
        Beat::A(beat) => append_a(&mut text, link, beat),
        Beat::B(beat) => append_b(&mut text, link, beat),
        Beat::C(beat) => append_c(&mut text, link, beat),
        Beat::D(beat) => append_d(&mut text, link, beat),
        Beat::E(beat) => append_e::<W>(&mut text, link, *beat),
    }
    text.push(b'\n');
    out.extend_from_slice(text.as_slice())
}
