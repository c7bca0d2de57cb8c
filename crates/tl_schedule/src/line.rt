//! Reads a line of a schedule.

ghost use Rattle.std.specs.Prelude.{◌≡◌, ◌≤◌, ◌*◌, ◌^◌, Ok, IfErr, IfOk, bytes_eq, codes};
ghost use Rattle.tl_beat.specs.statement.Width.{IsWidth};
ghost use Rattle.tl_beat.specs.statement.Line.{pieces};
ghost use Rattle.tl_schedule.specs.declared.line.Line.{Line};
ghost use Rattle.tl_schedule.specs.statement.EventLine.{SpellsLine, event_fault};
ghost use Rattle.tl_schedule.specs.code.EventReading.{access_at, acquire_at, ask_at, deliver_at, event_at, line_at};
ghost use Rattle.tl_schedule.specs.code.EventReading.{load_at, meant_by, release_at, said_at, store_at, whole_at};
ghost use Rattle.tl_schedule.specs.code.FieldReading.{Gives, fields_behind, front, number_in};

use crate::access::asked_request;
use crate::field::{
    address_field, block_field, cut, is_end, last_bytes, number, number_field, size_field,
};
use crate::get::get_event;
use crate::name::{Word, channel_field, grow_field, prune_field, word_field};
use tl_beat::beat::Link;
use tl_burst::message::{Message, MessageA};
use tl_client::operation::Op;
use tl_coherence::event::Event;

/// The content of a line after the header.
#[derive(Clone, Copy, Debug, PartialEq, Eq)]
pub enum Line<const W: usize> {
    /// An event.
    Event(Event<W>),
    /// `drain`: deliver until nothing is outstanding.
    Drain,
}

/// The fault of a line that spells nothing.
#[derive(Clone, Copy, Debug, PartialEq, Eq)]
pub enum EventFault {
    /// The line has more than 256 bytes, or doesn't end in a line feed.
    F1,
    /// The line doesn't have the form of an event.
    F8,
}

fn load<const W: usize>(client: u8, bytes: &[u8]) -> Option<Event<W>>
    ensures { result ≡ meant_by (load_at client (fields_behind bytes.now)) }
{
    let (size, rest) = size_field(bytes, 3)?;
    let (address, rest) = address_field(rest)?;
    if !is_end(rest) {
        return None;
    }
    let operation = Op::Load { address, size };
    Some(Event::Ask { client, operation })
}

/// The number of digits for the value of a Store.
fn value_digits(size: u8) -> u8
    requires { size ≤ 3 }
    ensures value { result ≡ 2 * 2 ^ size }
    ensures few { result ≤ 16 }
{
    2 << size
}

fn store<const W: usize>(client: u8, bytes: &[u8]) -> Option<Event<W>>
    ensures { result ≡ meant_by (store_at client (fields_behind bytes.now)) }
{
    let (size, rest) = size_field(bytes, 3)?;
    let (address, rest) = address_field(rest)?;
    let (value, rest) = number_field(rest, value_digits(size))?;
    if !is_end(rest) {
        return None;
    }
    let operation = Op::Store {
        address,
        size,
        value,
    };
    Some(Event::Ask { client, operation })
}

fn acquire<const W: usize>(client: u8, bytes: &[u8]) -> Option<Event<W>>
    ensures { result ≡ meant_by (acquire_at client (fields_behind bytes.now)) }
{
    let (block, rest) = block_field(bytes)?;
    let (grow, rest) = grow_field(rest)?;
    if !is_end(rest) {
        return None;
    }
    let operation = Op::Acquire { block, grow };
    Some(Event::Ask { client, operation })
}

fn whole<const W: usize>(client: u8, bytes: &[u8]) -> Option<Event<W>>
    ensures { result ≡ meant_by (whole_at client (fields_behind bytes.now)) }
{
    let (block, rest) = block_field(bytes)?;
    let bytes = last_bytes(rest, 64)?;
    let operation = Op::AcquireWhole { block, bytes };
    Some(Event::Ask { client, operation })
}

fn release<const W: usize>(client: u8, bytes: &[u8]) -> Option<Event<W>>
    ensures { result ≡ meant_by (release_at client (fields_behind bytes.now)) }
{
    let (block, rest) = block_field(bytes)?;
    let (prune, rest) = prune_field(rest)?;
    if !is_end(rest) {
        return None;
    }
    let operation = Op::Release { block, prune };
    Some(Event::Ask { client, operation })
}

/// An access. The client replaces its source 0.
fn access<const W: usize>(word: Word, client: u8, bytes: &[u8]) -> Option<Event<W>>
    requires { IsWidth W }
    ensures { result ≡ meant_by (access_at W word client (fields_behind bytes.now)) }
{
    let (size, rest) = size_field(bytes, 6)?;
    let (address, rest) = address_field(rest)?;
    let request = asked_request::<W>(word, size, address, rest)?;
    let payload = request.payload;
    let message = MessageA {
        opcode: request.opcode,
        param: request.param,
        size,
        source: 0,
        address,
        payload,
        mask: request.mask,
        corrupt: 0,
    };
    let operation = Op::Access(Message::A(message));
    Some(Event::Ask { client, operation })
}

fn deliver<const W: usize>(link: u8, bytes: &[u8]) -> Option<Event<W>>
    ensures { result ≡ meant_by (deliver_at link (fields_behind bytes.now)) }
{
    let (channel, rest) = channel_field(bytes)?;
    if !is_end(rest) {
        return None;
    }
    let link = Link(link);
    Some(Event::Deliver { link, channel })
}

/// The operation of a client that a word and the fields after it spell.
fn said<const W: usize>(word: Word, client: u8, bytes: &[u8]) -> Option<Event<W>>
    requires { IsWidth W }
    ensures { result ≡ meant_by (said_at W word client (fields_behind bytes.now)) }
{
    match word {
        Word::Load => load(client, bytes),
        Word::Store => store(client, bytes),
        Word::Acquire => acquire(client, bytes),
        Word::Whole => whole(client, bytes),
        Word::Release => release(client, bytes),
        Word::Deliver => deliver(client, bytes),
        _ => access(word, client, bytes),
    }
}

fn is_drain(body: &[u8]) -> bool
    ensures { result ≡ bytes_eq body.now (codes "drain") }
{
    body == b"drain".as_slice()
}

/// The client in the first field, and the bytes after it.
fn client(body: &[u8]) -> Option<(u8, &[u8])>
    ensures { Gives result (front (number_in 0 2) (pieces body.now)) }
{
    let (field, rest) = cut(body);
    let client = number(field, 2)?;
    Some((client as u8, rest))
}

/// The event that a line spells, without its line feed, read from left to right.
fn any_ask<const W: usize>(body: &[u8]) -> Option<Event<W>>
    requires { IsWidth W }
    ensures { result ≡ meant_by (ask_at W (pieces body.now)) }
{
    let (client, rest) = client(body)?;
    let (word, rest) = word_field(rest)?;
    said(word, client, rest)
}

/// The event that a line spells, without its line feed.
fn ask<const W: usize>(body: &[u8]) -> Option<Event<W>>
    requires { IsWidth W }
    ensures { result ≡ meant_by (ask_at W (pieces body.now)) }
{
    match get_event(body) {
        Some(get) => Some(get),
        None => any_ask(body),
    }
}

/// The content of a line, without its line feed.
fn body<const W: usize>(body: &[u8]) -> Option<Line<W>>
    requires { IsWidth W }
    ensures { result ≡ line_at body.now }
{
    if is_drain(body) {
        return Some(Line::Drain);
    }
    Some(Line::Event(ask(body)?))
}

/// The content of a line, after a check of its length and its line feed.
fn whole_line<const W: usize>(line: &[u8]) -> Result<Line<W>, EventFault>
    requires { IsWidth W }
    ensures { result ≡ event_at line.now }
{
    if line.len() > 256 {
        return Err(EventFault::F1);
    }
    match line {
        [front @ .., b'\n'] => body(front).ok_or(EventFault::F8),
        _ => Err(EventFault::F1),
    }
}

/// Reads a line after the header, with its line feed. The error is the fault of a line that spells nothing.
pub fn read_event<const W: usize>(line: &[u8]) -> Result<Line<W>, EventFault>
    requires { IsWidth W }
    // The line spells the content that is read, each content that the line spells is read, and the fault is that of a
    // line that spells nothing.
    ensures spelled { IfOk result (SpellsLine line.now) }
    ensures every_spelling { (read : Line W) → SpellsLine line.now read → result ≡ Ok read }
    ensures fault { IfErr result (λ f. f ≡ event_fault line.now) }
{
    whole_line(line)
}
