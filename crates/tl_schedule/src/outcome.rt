//! Writes the lines of outcomes. An error means that there is no memory left; a part may then have been appended.

ghost use Rattle.std.specs.Prelude.{◌≡◌, ◌<◌, ◌≤◌, ◌%◌, ◌^◌, ◌++◌, ◌∷◌, [], length, take, OnOk};
ghost use Rattle.std.specs.Int.{to_le_bytes, w64};
ghost use Rattle.tl_beat.specs.statement.Digits.{digit_char, digits, lane_digits};
ghost use Rattle.tl_beat.specs.statement.Line.{IsWritable, fields_of, spaced};
ghost use Rattle.tl_beat.specs.statement.Width.{IsWidth};
ghost use Rattle.tl_client.specs.declared.reply.Reply.TheVariants.{Value};
ghost use Rattle.tl_schedule.specs.statement.OutcomeLine.{HasLine, answer_line, asked_size, busy_name, data_text, done_text};
ghost use Rattle.tl_schedule.specs.statement.OutcomeLine.{drained_line, finish_text, link_of, outcome_line};
ghost use Rattle.tl_schedule.specs.statement.OutcomeLine.{outcome_text, perm_name, reply_text, trace_text};

use arrayvec::ArrayVec;
use itoa::Buffer;
use std::alloc::AllocError;
use tl_beat::beat::{Beat, Link};
use tl_beat::lanes::sixteen_digits;
use tl_beat::write::write_line;
use tl_client::busy::Busy;
use tl_client::operation::Op;
use tl_client::reply::Reply;
use tl_client::verdict::Finish;
use tl_coherence::event::{Event, Outcome};
use tl_params::perm::Perm;

/// A hexadecimal digit, lower-case.
fn digit(value: u8) -> u8
    requires { value < 16 }
    ensures { result ≡ digit_char value }
{
    if value < 10 { b'0' + value } else { 87 + value }
}

/// The two digits of a byte.
#[tactic(auto, unfolding(tl_beat::specs::statement::Digits::digits))]
fn pair(byte: u8) -> [u8; 2]
    ensures { result ≡ digits 2 byte }
{
    [digit(byte / 16), digit(byte % 16)]
}

/// Appends the digits of at most 64 bytes, one byte at a time, the last byte first.
fn append_each(bytes: &[u8], out: &mut Vec<u8>) -> Result<(), AllocError>
    requires { length bytes.now ≤ 64 }
    ensures { OnOk result (out.new.items ≡ out.old.items ++ lane_digits bytes.now) }
{
    let mut text = ArrayVec::<u8, 128>::new();
    let count = bytes.len();
    for i in 0..count {
        let [high, low] = pair(bytes[count - 1 - i]);
        text.push(high);
        text.push(low);
    }
    out.extend_from_slice(&text)
}

/// Appends the digits of bytes, eight at a time, the last byte first.
fn append_eights(bytes: &[u8], out: &mut Vec<u8>) -> Result<(), AllocError>
    requires { length bytes.now % 8 ≡ 0 }
    ensures { OnOk result (out.new.items ≡ out.old.items ++ lane_digits bytes.now) }
{
    let count = bytes.len() / 8;
    for i in 0..count {
        let at = 8 * (count - 1 - i);
        out.extend_from_slice(&sixteen_digits(&bytes[at..at + 8]))?;
    }
    Ok(())
}

/// Appends the digits of at most 64 bytes, the last byte first.
fn append_bytes(bytes: &[u8], out: &mut Vec<u8>) -> Result<(), AllocError>
    requires { length bytes.now ≤ 64 }
    ensures { OnOk result (out.new.items ≡ out.old.items ++ lane_digits bytes.now) }
{
    if bytes.len() % 8 == 0 {
        append_eights(bytes, out)
    } else {
        append_each(bytes, out)
    }
}

/// The first `2^size` of these bytes, or all if there are fewer.
fn shown(size: u8, bytes: &[u8]) -> &[u8]
    requires { length bytes.now ≤ 64 }
    ensures { result.now ≡ take (2 ^ size) bytes.now }
{
    if size >= 6 {
        return bytes;
    }
    let count = 1usize << size;
    if count >= bytes.len() {
        return bytes;
    }
    &bytes[..count]
}

/// Appends the digits of the first `2^size` bytes.
fn append_data(size: u8, bytes: &[u8], out: &mut Vec<u8>) -> Result<(), AllocError>
    requires { length bytes.now ≤ 64 }
    ensures { OnOk result (out.new.items ≡ out.old.items ++ data_text size bytes.now) }
{
    append_bytes(shown(size, bytes), out)
}

/// Appends the line of a value of eight bytes.
fn append_whole_value(value: u64, out: &mut Vec<u8>) -> Result<(), AllocError>
    ensures { OnOk result (out.new.items ≡ out.old.items ++ reply_text 3 (Value value) ++ 10 ∷ []) }
{
    let mut text = ArrayVec::<u8, 32>::new();
    let _ = text.try_extend_from_slice(b"value ");
    let _ = text.try_extend_from_slice(&sixteen_digits(&value.to_le_bytes()));
    text.push(b'\n');
    out.extend_from_slice(&text)
}

/// Appends the line of a value, by its low `2^size` bytes, at most eight.
fn append_value(size: u8, value: u64, out: &mut Vec<u8>) -> Result<(), AllocError>
    ensures { OnOk result (out.new.items ≡ out.old.items ++ reply_text size (Value value) ++ 10 ∷ []) }
{
    if size == 3 {
        return append_whole_value(value, out);
    }
    out.extend_from_slice(b"value ")?;
    append_data(size, &value.to_le_bytes(), out)?;
    out.push(b'\n')?;
    Ok(())
}

fn busy_name(busy: Busy) -> &'static str
    ensures { result.now ≡ busy_name busy }
{
    match busy {
        Busy::B1 => "B1",
        Busy::B2 => "B2",
        Busy::B3 => "B3",
        Busy::B4 => "B4",
        Busy::B5 => "B5",
    }
}

/// Appends the line of a reply.
fn append_reply(size: u8, reply: Reply, out: &mut Vec<u8>) -> Result<(), AllocError>
    ensures { OnOk result (out.new.items ≡ out.old.items ++ reply_text size reply ++ 10 ∷ []) }
{
    match reply {
        Reply::Value(value) => append_value(size, value, out),
        Reply::Stored => out.extend_from_slice(b"stored\n"),
        Reply::Miss => out.extend_from_slice(b"miss\n"),
        Reply::Started(source) => {
            let [high, low] = pair(source);
            out.extend_from_slice(&[
                b's', b't', b'a', b'r', b't', b'e', b'd', b' ', high, low, b'\n',
            ])
        }
        Reply::Busy(busy) => {
            out.extend_from_slice(b"busy ")?;
            out.extend_from_slice(busy_name(busy).as_bytes())?;
            out.push(b'\n')?;
            Ok(())
        }
    }
}

fn perm_name(perm: Perm) -> &'static str
    ensures { result.now ≡ perm_name perm }
{
    match perm {
        Perm::None => "N",
        Perm::Branch => "B",
        Perm::Trunk => "T",
    }
}

/// Appends the result of an operation.
fn append_finish(finish: &Finish, out: &mut Vec<u8>) -> Result<(), AllocError>
    ensures { OnOk result (out.new.items ≡ out.old.items ++ finish_text finish.now) }
{
    match finish {
        Finish::Ack => out.extend_from_slice(b"ack"),
        Finish::Hint => out.extend_from_slice(b"hint"),
        Finish::Data(size, bytes) => {
            out.extend_from_slice(b"data ")?;
            append_data(*size, bytes, out)
        }
        Finish::Granted(perm) => {
            out.extend_from_slice(b"granted ")?;
            out.extend_from_slice(perm_name(*perm).as_bytes())
        }
        Finish::Released => out.extend_from_slice(b"released"),
    }
}

/// Appends the text after a beat that ends an operation.
fn append_end(source: u8, finish: &Finish, out: &mut Vec<u8>) -> Result<(), AllocError>
    ensures { OnOk result (out.new.items ≡ out.old.items ++ done_text source finish.now) }
{
    let [high, low] = pair(source);
    out.extend_from_slice(&[b' ', b'd', b'o', b'n', b'e', b' ', high, low, b' '])?;
    append_finish(finish, out)
}

/// Appends the line of a beat without its line feed.
fn append_beat<const W: usize>(
    link: Link,
    beat: &Beat<W>,
    out: &mut Vec<u8>,
) -> Result<(), AllocError>
    requires width { IsWidth W }
    requires writable { IsWritable beat.now }
    ensures { OnOk result (out.new.items ≡ out.old.items ++ spaced (fields_of link beat.now)) }
{
    write_line(link, beat, out)?;
    out.pop();
    Ok(())
}

/// Appends the line of a beat that ends an operation.
fn append_done<const W: usize>(
    link: Link,
    beat: &Beat<W>,
    source: u8,
    finish: &Finish,
    out: &mut Vec<u8>,
) -> Result<(), AllocError>
    requires width { IsWidth W }
    requires writable { IsWritable beat.now }
    ensures { OnOk result (out.new.items ≡ out.old.items
        ++ (spaced (fields_of link beat.now) ++ done_text source finish.now) ++ 10 ∷ []) }
{
    append_beat(link, beat, out)?;
    append_end(source, finish, out)?;
    out.push(b'\n')?;
    Ok(())
}

/// The size of the Load, if the event asks for one; otherwise 0.
fn asked_size<const W: usize>(event: &Event<W>) -> u8
    ensures { result ≡ asked_size event.now }
{
    match event {
        Event::Ask {
            operation: Op::Load { size, .. },
            ..
        } => *size,
        _ => 0,
    }
}

/// The link of a delivery, or of the client that is asked.
pub(crate) fn link_of<const W: usize>(event: &Event<W>) -> Link
    ensures { result ≡ link_of event.now }
{
    match event {
        Event::Ask { client, .. } => Link(*client),
        Event::Deliver { link, .. } => *link,
    }
}

/// Appends the line of an outcome. A beat that was taken must fit its line.
pub fn append_outcome<const W: usize>(
    event: &Event<W>,
    outcome: &Outcome<W>,
    out: &mut Vec<u8>,
) -> Result<(), AllocError>
    requires width { IsWidth W }
    requires writable { HasLine outcome.now }
    ensures { OnOk result (out.new.items ≡ out.old.items ++ outcome_line event.now outcome.now) }
{
    match outcome {
        Outcome::Replied { reply } => append_reply(asked_size(event), *reply, out),
        Outcome::Empty => out.extend_from_slice(b"empty\n"),
        Outcome::Stalled => out.extend_from_slice(b"stalled\n"),
        Outcome::Moved { beat } => write_line(link_of(event), beat, out),
        Outcome::Done {
            beat,
            source,
            finish,
        } => append_done(link_of(event), beat, *source, finish, out),
        Outcome::NoSuchClient => out.extend_from_slice(b"no client\n"),
    }
}

/// Appends the line of a client's reply to a Load of this size, or with size 0 to a Store.
pub fn append_answer(size: u8, answer: Option<Reply>, out: &mut Vec<u8>) -> Result<(), AllocError>
    ensures { OnOk result (out.new.items ≡ out.old.items ++ answer_line size answer) }
{
    match answer {
        None => out.extend_from_slice(b"no client\n"),
        Some(reply) => append_reply(size, reply, out),
    }
}

/// Appends the line of the beat that was taken in an event, if one was, for a trace.
pub fn append_trace<const W: usize>(
    event: &Event<W>,
    outcome: &Outcome<W>,
    out: &mut Vec<u8>,
) -> Result<(), AllocError>
    requires width { IsWidth W }
    requires writable { HasLine outcome.now }
    ensures { OnOk result (out.new.items ≡ out.old.items ++ trace_text event.now outcome.now) }
{
    match outcome {
        Outcome::Moved { beat } | Outcome::Done { beat, .. } => {
            write_line(link_of(event), beat, out)
        }
        _ => Ok(()),
    }
}

/// Appends `drained N`, the line after N deliveries.
pub fn append_drained(count: u64, out: &mut Vec<u8>) -> Result<(), AllocError>
    ensures { OnOk result (out.new.items ≡ out.old.items ++ drained_line count) }
{
    let mut digits = Buffer::new();
    out.extend_from_slice(b"drained ")?;
    out.extend_from_slice(digits.format(count).as_bytes())?;
    out.push(b'\n')?;
    Ok(())
}
