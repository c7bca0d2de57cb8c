//! Writing a wide beat as a line of text.

ghost use Rattle.std.specs.Prelude.{◌≡◌, ◌<◌, ◌≤◌, ◌+◌, ◌/◌, ◌^◌, ◌++◌, ◌∷◌, [], length, OnOk, OnErr};
ghost use Rattle.tl_beat.specs.declared.beat.Link.{Link};
ghost use Rattle.tl_beat.specs.statement.Digits.{digits};
ghost use Rattle.tl_beat.specs.statement.Line.{spaced};
ghost use Rattle.tl_beat.specs.statement.Opcode.{a_code, b_code, c_code, d_code};
ghost use Rattle.tl_beat.specs.code.Writing.{next_bit, next_number, tail_text};
ghost use Rattle.tl_wide.specs.code.Writing.{wide_head_text};
ghost use Rattle.tl_wide.specs.declared.beat.WideBeat.{WideBeat};
ghost use Rattle.tl_wide.specs.declared.beat.WideBeat.TheVariants as wide;
ghost use Rattle.tl_wide.specs.statement.Line.{IsWideWritable, wide_fields, wide_line};
ghost use Rattle.tl_wide.specs.statement.Width.{IsWideWidth};

use crate::beat::{WideBeat, WideBeatA, WideBeatB, WideBeatC, WideBeatD, WideBeatE};
use crate::text::{append_long, append_wide_data};
use arrayvec::ArrayVec;
use std::alloc::AllocError;
use tl_beat::beat::Link;
use tl_beat::text::{append_bit, append_digits};

/// Appends a space and a number.
fn append_number(text: &mut ArrayVec<u8, 64>, number: u64, count: u8)
    requires count { count ≤ 16 }
    requires room { length text.old.items + count < 64 }
    ensures text { text.new.items ≡ text.old.items ++ next_number count number }
    ensures len { length text.new.items ≡ length text.old.items + count + 1 }
{
    text.push(b' ');
    append_long(text, number, count);
}

/// Appends a space and a bit.
fn append_next_bit(text: &mut ArrayVec<u8, 64>, bit: bool)
    requires { length text.old.items ≤ 62 }
    ensures text { text.new.items ≡ text.old.items ++ next_bit bit }
    ensures len { length text.new.items ≡ length text.old.items + 2 }
{
    text.push(b' ');
    append_bit(text, bit);
}

/// The fields that lines of channels A to D begin with.
#[derive(Clone, Copy)]
struct Head {
    link: Link,
    letter: u8,
    opcode: u8,
    param: u8,
    size: u8,
    source: u16,
}

/// Appends the fields that lines of channels A to D begin with.
fn append_head(text: &mut ArrayVec<u8, 64>, head: Head)
    requires { text.old.items ≡ [] }
    ensures text { text.new.items ≡ wide_head_text head.link.0 head.letter head.opcode head.param head.size head.source }
    ensures len { length text.new.items ≡ 15 }
{
    append_digits(text, u32::from(head.link.0), 2);
    text.push(b' ');
    text.push(head.letter);
    append_number(text, u64::from(head.opcode), 1);
    append_number(text, u64::from(head.param), 1);
    append_number(text, u64::from(head.size), 1);
    append_number(text, u64::from(head.source), 4);
}

/// The line of these fields, of data and of the corrupt bit.
fn append_tail<const W: usize>(
    line: &mut ArrayVec<u8, 192>,
    fields: &ArrayVec<u8, 64>,
    lanes: &Option<[u8; W]>,
    corrupt: bool,
)
    requires width { IsWideWidth W }
    requires empty { line.old.items ≡ [] }
    requires room { length fields.now.items ≤ 60 }
    ensures text { line.new.items ≡ fields.now.items ++ tail_text lanes.now corrupt }
    ensures len { length line.new.items ≤ 191 }
{
    let _ = line.try_extend_from_slice(fields.as_slice());
    line.push(b' ');
    append_wide_data(line, lanes);
    line.push(b' ');
    line.push(if corrupt { b'1' } else { b'0' });
}

/// Appends the line of a beat of channel A, without its line feed.
fn append_a<const W: usize>(line: &mut ArrayVec<u8, 192>, link: Link, beat: &WideBeatA<W>)
    requires width { IsWideWidth W }
    requires empty { line.old.items ≡ [] }
    ensures text { line.new.items ≡ spaced (wide_fields link (wide.A beat.now)) }
    ensures len { length line.new.items ≤ 191 }
{
    let mut fields = ArrayVec::new();
    let head = Head {
        link,
        letter: b'A',
        opcode: beat.opcode.code(),
        param: beat.param,
        size: beat.size,
        source: beat.source,
    };
    append_head(&mut fields, head);
    append_number(&mut fields, beat.address, 16);
    append_number(&mut fields, beat.mask, (W / 4) as u8);
    append_tail(line, &fields, &beat.lanes, beat.corrupt);
}

/// Appends the line of a beat of channel B, without its line feed.
fn append_b<const W: usize>(line: &mut ArrayVec<u8, 192>, link: Link, beat: &WideBeatB<W>)
    requires width { IsWideWidth W }
    requires empty { line.old.items ≡ [] }
    ensures text { line.new.items ≡ spaced (wide_fields link (wide.B beat.now)) }
    ensures len { length line.new.items ≤ 191 }
{
    let mut fields = ArrayVec::new();
    let head = Head {
        link,
        letter: b'B',
        opcode: beat.opcode.code(),
        param: beat.param,
        size: beat.size,
        source: beat.source,
    };
    append_head(&mut fields, head);
    append_number(&mut fields, beat.address, 16);
    append_number(&mut fields, beat.mask, (W / 4) as u8);
    append_tail(line, &fields, &beat.lanes, beat.corrupt);
}

/// Appends the line of a beat of channel C, without its line feed.
fn append_c<const W: usize>(line: &mut ArrayVec<u8, 192>, link: Link, beat: &WideBeatC<W>)
    requires width { IsWideWidth W }
    requires empty { line.old.items ≡ [] }
    ensures text { line.new.items ≡ spaced (wide_fields link (wide.C beat.now)) }
    ensures len { length line.new.items ≤ 191 }
{
    let mut fields = ArrayVec::new();
    let head = Head {
        link,
        letter: b'C',
        opcode: beat.opcode.code(),
        param: beat.param,
        size: beat.size,
        source: beat.source,
    };
    append_head(&mut fields, head);
    append_number(&mut fields, beat.address, 16);
    append_tail(line, &fields, &beat.lanes, beat.corrupt);
}

/// Appends the line of a beat of channel D, without its line feed.
fn append_d<const W: usize>(line: &mut ArrayVec<u8, 192>, link: Link, beat: &WideBeatD<W>)
    requires width { IsWideWidth W }
    requires empty { line.old.items ≡ [] }
    ensures text { line.new.items ≡ spaced (wide_fields link (wide.D beat.now)) }
    ensures len { length line.new.items ≤ 191 }
{
    let mut fields = ArrayVec::new();
    let head = Head {
        link,
        letter: b'D',
        opcode: beat.opcode.code(),
        param: beat.param,
        size: beat.size,
        source: beat.source,
    };
    append_head(&mut fields, head);
    append_number(&mut fields, u64::from(beat.sink), 4);
    append_next_bit(&mut fields, beat.denied);
    append_tail(line, &fields, &beat.lanes, beat.corrupt);
}

/// The fields of a beat of channel E.
fn append_ack<const W: usize>(fields: &mut ArrayVec<u8, 64>, link: Link, beat: WideBeatE)
    requires { fields.old.items ≡ [] }
    ensures text { fields.new.items ≡ spaced (wide_fields {w = W} link (wide.E beat)) }
    ensures len { length fields.new.items ≤ 60 }
{
    append_digits(fields, u32::from(link.0), 2);
    fields.push(b' ');
    fields.push(b'E');
    append_number(fields, u64::from(beat.sink), 4);
}

/// Appends the line of a beat of channel E, without its line feed.
fn append_e<const W: usize>(line: &mut ArrayVec<u8, 192>, link: Link, beat: WideBeatE)
    requires { line.old.items ≡ [] }
    ensures text { line.new.items ≡ spaced (wide_fields {w = W} link (wide.E beat)) }
    ensures len { length line.new.items ≤ 191 }
{
    let mut fields = ArrayVec::new();
    append_ack::<W>(&mut fields, link, beat);
    let _ = line.try_extend_from_slice(fields.as_slice());
}

/// Appends the line of a wide beat on a link, with its line feed. Its param must fit into the channel's field (3 bits
/// on channels A to C, 2 on D), its size into 4 bits and its mask into `W` bits. The error means that there is no
/// memory left; then the vector stays as it was.
pub fn write_wide_line<const W: usize>(
    link: Link,
    beat: &WideBeat<W>,
    out: &mut Vec<u8>,
) -> Result<(), AllocError>
    requires width { IsWideWidth W }
    requires writable { IsWideWritable beat.now }
    ensures ok { OnOk result (out.new.items ≡ out.old.items ++ wide_line link beat.now) }
    ensures err { OnErr result (out.new.items ≡ out.old.items) }
{
    let mut line = ArrayVec::new();
    match beat {
        WideBeat::A(beat) => append_a(&mut line, link, beat),
        WideBeat::B(beat) => append_b(&mut line, link, beat),
        WideBeat::C(beat) => append_c(&mut line, link, beat),
        WideBeat::D(beat) => append_d(&mut line, link, beat),
        WideBeat::E(beat) => append_e::<W>(&mut line, link, *beat),
    }
    line.push(b'\n');
    out.extend_from_slice(line.as_slice())
}
