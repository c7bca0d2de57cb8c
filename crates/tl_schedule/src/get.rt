//! Reads the line of a Get, each field at its place.

ghost use Rattle.std.specs.Prelude.{◌≡◌, ◌≤◌, ◌∷◌, [], IfSome, Some, codes};
ghost use Rattle.tl_beat.specs.statement.Line.{pieces, spaced};
ghost use Rattle.tl_beat.specs.statement.Width.{IsWidth};
ghost use Rattle.tl_schedule.specs.code.EventReading.{ask_at, meant, meant_by};
ghost use Rattle.tl_schedule.specs.code.GetReading.{SpellsGet, get_said};

use crate::access::lanes;
use crate::field::{number, size_of};
use tl_beat::opcode::OpA;
use tl_burst::message::{Message, MessageA};
use tl_client::operation::Op;
use tl_coherence::event::Event;

/// A Get of `2^size` bytes by a client.
#[derive(Clone, Copy)]
pub(crate) struct GetLine {
    pub client: u8,
    pub address: u32,
    pub size: u8,
}

#[inline(always)]
fn get(client: &[u8], size: u8, address: &[u8]) -> Option<GetLine>
    ensures { IfSome result (SpellsGet (spaced (client.now ∷ codes "get" ∷ (size ∷ []) ∷ address.now ∷ []))) }
{
    let client = number(client, 2)? as u8;
    let size = size_of(&[size], 6)?;
    let address = number(address, 8)? as u32;
    Some(GetLine {
        client,
        address,
        size,
    })
}

/// The Get that a line spells, without its line feed.
#[inline(always)]
fn read_get(body: &[u8]) -> Option<GetLine>
    ensures { IfSome result (SpellsGet body.now) }
{
    match body {
        [a, b, b' ', b'g', b'e', b't', b' ', size, b' ', address @ ..] => get(
            &[*a, *b],
            *size,
            address,
        ),
        _ => None,
    }
}

/// The event of a Get. The client replaces its source 0.
#[inline(always)]
fn event_of<const W: usize>(get: GetLine) -> Event<W>
    requires width { IsWidth W }
    requires small { get.size ≤ 6 }
    ensures { Some result ≡ meant (get_said get) }
{
    let message = MessageA {
        opcode: OpA::Get,
        param: 0,
        size: get.size,
        source: 0,
        address: get.address,
        payload: [0; 64],
        mask: lanes::<W>(get.size, get.address, 1),
        corrupt: 0,
    };
    Event::Ask {
        client: get.client,
        operation: Op::Access(Message::A(message)),
    }
}

/// The event that the line of a Get spells, without its line feed. `None` for any other line.
#[inline(always)]
pub(crate) fn get_event<const W: usize>(body: &[u8]) -> Option<Event<W>>
    requires { IsWidth W }
    ensures { IfSome result (λ event. Some event ≡ meant_by (ask_at W (pieces body.now))) }
{
    let get = read_get(body)?;
    Some(event_of(get))
}
