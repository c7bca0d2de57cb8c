//! Writes the lines of events.

ghost use Rattle.std.specs.Prelude.{◌≡◌, ◌≤◌, ◌*◌, ◌^◌, ◌++◌, ◌∷◌, [], take, OnOk};
ghost use Rattle.tl_beat.specs.statement.Digits.{digits, lane_digits};
ghost use Rattle.tl_beat.specs.statement.Line.{letter};
ghost use Rattle.tl_beat.specs.statement.Width.{IsWidth};
ghost use Rattle.tl_schedule.specs.statement.EventLine.{Deliver, asked_fields, asked_name, event_line, mask_digits};
ghost use Rattle.tl_random.specs.code.Written.{behind_spaces, request_fields};
ghost use Rattle.tl_random.specs.statement.Said.{HasSize, said_of, said_of_access};

use crate::request::{Asked, Request};
use arrayvec::ArrayVec;
use std::alloc::AllocError;
use tl_beat::channel::Channel;
use tl_beat::text::append_digits;
use tl_schedule::access::beats;

/// Appends the lowest hexadecimal digits of a number, this many of them, the highest first.
fn put_digits(out: &mut Vec<u8>, number: u64, count: u8) -> Result<(), AllocError>
    requires { count ≤ 16 }
    ensures { OnOk result (out.new.items ≡ out.old.items ++ digits count number) }
{
    let (high, low) = ((number >> 32) as u32, (number % (1 << 32)) as u32);
    let mut text = ArrayVec::<u8, 64>::new();
    if count <= 8 {
        append_digits(&mut text, low, count);
        return out.extend_from_slice(text.as_slice());
    }
    append_digits(&mut text, high, count - 8);
    append_digits(&mut text, low, 8);
    out.extend_from_slice(text.as_slice())
}

/// Appends a space and a number of this many digits.
fn append_number(out: &mut Vec<u8>, number: u64, count: u8) -> Result<(), AllocError>
    requires { count ≤ 16 }
    ensures { OnOk result (out.new.items ≡ out.old.items ++ (32 ∷ digits count number)) }
{
    out.push(b' ')?;
    put_digits(out, number, count)
}

/// Appends a space and a name.
fn append_name(out: &mut Vec<u8>, name: &str) -> Result<(), AllocError>
    ensures { OnOk result (out.new.items ≡ out.old.items ++ (32 ∷ name.now)) }
{
    out.push(b' ')?;
    out.extend_from_slice(name.as_bytes())
}

/// Appends the digits of these bytes, the last of them first.
fn put_bytes(out: &mut Vec<u8>, bytes: &[u8]) -> Result<(), AllocError>
    ensures { OnOk result (out.new.items ≡ out.old.items ++ lane_digits bytes.now) }
{
    let count = bytes.len();
    for i in 0..count {
        put_digits(out, u64::from(bytes[count - 1 - i]), 2)?;
    }
    Ok(())
}

/// The first `2^size` bytes of a block.
fn first_bytes(bytes: &[u8; 64], size: u8) -> &[u8]
    requires { size ≤ 6 }
    ensures { result.now ≡ take (2 ^ size) bytes.now }
{
    &bytes[..1usize << size]
}

/// Appends a space and the digits of these bytes, the last of them first.
fn append_bytes(out: &mut Vec<u8>, bytes: &[u8]) -> Result<(), AllocError>
    ensures { OnOk result (out.new.items ≡ out.old.items ++ (32 ∷ lane_digits bytes.now)) }
{
    out.push(b' ')?;
    put_bytes(out, bytes)
}

/// Appends a word with a size and an address.
#[tactic(auto, unfolding(crate::specs::code::Written::behind_spaces))]
fn append_place(out: &mut Vec<u8>, word: &str, size: u8, address: u32) -> Result<(), AllocError>
    ensures { OnOk result (out.new.items ≡ out.old.items
        ++ behind_spaces (word.now ∷ digits 1 size ∷ digits 8 address ∷ [])) }
{
    append_name(out, word)?;
    append_number(out, u64::from(size), 1)?;
    append_number(out, u64::from(address), 8)
}

/// Appends a word with a block.
#[tactic(auto, unfolding(crate::specs::code::Written::behind_spaces))]
fn append_block(out: &mut Vec<u8>, word: &str, block: u16) -> Result<(), AllocError>
    ensures { OnOk result (out.new.items ≡ out.old.items ++ behind_spaces (word.now ∷ digits 3 block ∷ [])) }
{
    append_name(out, word)?;
    append_number(out, u64::from(block), 3)
}

/// The number of digits of a mask.
fn mask_count<const W: usize>(size: u8) -> u8
    requires width { IsWidth W }
    requires small { size ≤ 6 }
    ensures value { result ≡ mask_digits W size }
    ensures few { result ≤ 16 }
{
    (W / 4) as u8 * beats::<W>(size)
}

/// The number of digits for the value of a Store.
fn value_count(size: u8) -> u8
    requires { size ≤ 3 }
    ensures value { result ≡ 2 * 2 ^ size }
    ensures few { result ≤ 16 }
{
    2 << size
}

/// The word for an access.
fn asked_word(asked: &Asked) -> &'static str
    ensures { result.now ≡ asked_name (said_of_access 0 asked.now) }
{
    match asked {
        Asked::Get => "get",
        Asked::Put { .. } => "put",
        Asked::Part { .. } => "part",
        Asked::Arith { .. } => "arith",
        Asked::Logic { .. } => "logic",
        Asked::Hint { .. } => "intent",
    }
}

/// Appends the fields after an access's address.
#[tactic(auto, unfolding(crate::specs::code::Written::behind_spaces))]
fn append_asked<const W: usize>(
    out: &mut Vec<u8>,
    size: u8,
    asked: &Asked,
) -> Result<(), AllocError>
    requires width { IsWidth W }
    requires small { size ≤ 6 }
    ensures { OnOk result (out.new.items ≡ out.old.items
        ++ behind_spaces (asked_fields W size (said_of_access size asked.now))) }
{
    match asked {
        Asked::Get => Ok(()),
        Asked::Put { bytes } => append_bytes(out, first_bytes(bytes, size)),
        Asked::Part { mask, bytes } => {
            append_number(out, *mask, mask_count::<W>(size))?;
            append_bytes(out, first_bytes(bytes, size))
        }
        Asked::Arith { operation, bytes } => {
            append_name(out, operation.name())?;
            append_bytes(out, first_bytes(bytes, size))
        }
        Asked::Logic { operation, bytes } => {
            append_name(out, operation.name())?;
            append_bytes(out, first_bytes(bytes, size))
        }
        Asked::Hint { intent } => append_name(out, intent.name()),
    }
}

/// Appends the fields of a request.
#[tactic(auto, unfolding(crate::specs::code::Written::behind_spaces))]
fn append_fields<const W: usize>(out: &mut Vec<u8>, request: &Request) -> Result<(), AllocError>
    requires width { IsWidth W }
    requires sized { HasSize request.now }
    ensures { OnOk result (out.new.items ≡ out.old.items ++ behind_spaces (request_fields W request.now)) }
{
    match request {
        Request::Load { size, address } => append_place(out, "load", *size, *address),
        Request::Store {
            size,
            address,
            value,
        } => {
            append_place(out, "store", *size, *address)?;
            append_number(out, *value, value_count(*size))
        }
        Request::Acquire { block, grow } => {
            append_block(out, "acquire", *block)?;
            append_name(out, grow.name())
        }
        Request::Whole { block, bytes } => {
            append_block(out, "whole", *block)?;
            append_bytes(out, bytes)
        }
        Request::Release { block, prune } => {
            append_block(out, "release", *block)?;
            append_name(out, prune.name())
        }
        Request::Access {
            size,
            address,
            asked,
        } => {
            append_place(out, asked_word(asked), *size, *address)?;
            append_asked::<W>(out, *size, asked)
        }
    }
}

/// Appends the line of a request to a client.
#[tactic(auto, unfolding(crate::specs::code::Written::behind_spaces, tl_beat::specs::statement::Line::spaced))]
pub(crate) fn append_request<const W: usize>(
    out: &mut Vec<u8>,
    client: u8,
    request: &Request,
) -> Result<(), AllocError>
    requires width { IsWidth W }
    requires sized { HasSize request.now }
    ensures { OnOk result (out.new.items ≡ out.old.items ++ event_line W (said_of client request.now)) }
{
    put_digits(out, u64::from(client), 2)?;
    append_fields::<W>(out, request)?;
    out.push(b'\n')?;
    Ok(())
}

fn letter(channel: Channel) -> &'static str
    ensures { result.now ≡ letter channel }
{
    match channel {
        Channel::A => "A",
        Channel::B => "B",
        Channel::C => "C",
        Channel::D => "D",
        Channel::E => "E",
    }
}

/// Appends the line of a delivery.
#[tactic(auto, unfolding(tl_beat::specs::statement::Line::spaced))]
pub(crate) fn append_delivery<const W: usize>(
    out: &mut Vec<u8>,
    link: u8,
    channel: Channel,
) -> Result<(), AllocError>
    ensures { OnOk result (out.new.items ≡ out.old.items ++ event_line W (Deliver link channel)) }
{
    put_digits(out, u64::from(link), 2)?;
    append_name(out, "deliver")?;
    append_name(out, letter(channel))?;
    out.push(b'\n')?;
    Ok(())
}
