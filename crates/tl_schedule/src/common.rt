//! Reads the most frequent lines of schedules, each field at its place: Loads, Stores of eight bytes and deliveries.

ghost use Rattle.std.specs.Prelude.{◌≡◌, ◌∷◌, ◌++◌, [], IfSome, codes};
ghost use Rattle.tl_schedule.specs.statement.CommonLine.{SpellsCommon};
ghost use Rattle.tl_schedule.specs.code.CommonReading.{HasFields, SpellsBody};

use crate::field::{number, size_of};
use crate::name::channel;
use tl_beat::beat::Link;
use tl_beat::channel::Channel;

/// The content of such a line.
#[derive(Clone, Copy, Debug, PartialEq, Eq)]
pub enum Common {
    Load {
        client: u8,
        address: u32,
        size: u8,
    },
    Store {
        client: u8,
        address: u32,
        size: u8,
        value: u64,
    },
    Deliver {
        link: Link,
        channel: Channel,
    },
}

#[inline(always)]
fn load(client: &[u8], size: u8, address: &[u8]) -> Option<Common>
    ensures { IfSome result (HasFields (client.now ∷ codes "load" ∷ (size ∷ []) ∷ address.now ∷ [])) }
{
    let client = number(client, 2)? as u8;
    let size = size_of(&[size], 3)?;
    let address = number(address, 8)? as u32;
    Some(Common::Load {
        client,
        address,
        size,
    })
}

#[inline(always)]
fn store(client: &[u8], address: &[u8], value: &[u8]) -> Option<Common>
    ensures { IfSome result (HasFields (client.now ∷ codes "store" ∷ codes "3" ∷ address.now ∷ value.now ∷ [])) }
{
    let client = number(client, 2)? as u8;
    let address = number(address, 8)? as u32;
    let value = number(value, 16)?;
    Some(Common::Store {
        client,
        address,
        size: 3,
        value,
    })
}

#[inline(always)]
fn deliver(link: &[u8], letter: u8) -> Option<Common>
    ensures { IfSome result (HasFields (link.now ∷ codes "deliver" ∷ (letter ∷ []) ∷ [])) }
{
    let link = Link(number(link, 2)? as u8);
    let channel = channel(&[letter])?;
    Some(Common::Deliver { link, channel })
}

/// The bytes before and after a space at the ninth place.
#[inline(always)]
fn split_address(bytes: &[u8]) -> Option<(&[u8], &[u8])>
    ensures { IfSome result (λ parts. bytes.now ≡ parts.0.now ++ 32 ∷ parts.1.now) }
{
    if bytes.len() > 8 && bytes[8] == b' ' {
        Some((&bytes[..8], &bytes[9..]))
    } else {
        None
    }
}

/// The delivery that a line spells, without its line feed.
#[inline(always)]
fn read_deliver(body: &[u8]) -> Option<Common>
    ensures { IfSome result (SpellsBody body.now) }
{
    match body {
        [
            a,
            b,
            b' ',
            b'd',
            b'e',
            b'l',
            b'i',
            b'v',
            b'e',
            b'r',
            b' ',
            letter,
        ] => deliver(&[*a, *b], *letter),
        _ => None,
    }
}

/// The Load that a line spells, without its line feed.
#[inline(always)]
fn read_load(body: &[u8]) -> Option<Common>
    ensures { IfSome result (SpellsBody body.now) }
{
    match body {
        [
            a,
            b,
            b' ',
            b'l',
            b'o',
            b'a',
            b'd',
            b' ',
            size,
            b' ',
            address @ ..,
        ] => load(&[*a, *b], *size, address),
        _ => None,
    }
}

/// The Store of eight bytes that a line spells, without its line feed.
#[inline(always)]
fn read_store(body: &[u8]) -> Option<Common>
    ensures { IfSome result (SpellsBody body.now) }
{
    match body {
        [
            a,
            b,
            b' ',
            b's',
            b't',
            b'o',
            b'r',
            b'e',
            b' ',
            b'3',
            b' ',
            rest @ ..,
        ] => {
            let (address, value) = split_address(rest)?;
            store(&[*a, *b], address, value)
        }
        _ => None,
    }
}

/// The content of such a line, without its line feed.
#[inline(always)]
fn read_body(body: &[u8]) -> Option<Common>
    ensures { IfSome result (SpellsBody body.now) }
{
    match read_deliver(body) {
        Some(deliver) => Some(deliver),
        None => match read_load(body) {
            Some(load) => Some(load),
            None => read_store(body),
        },
    }
}

/// The content of such a line, with its line feed. `None` for any other line, and it may be `None` for such a line too.
#[inline(always)]
pub fn read_common(line: &[u8]) -> Option<Common>
    ensures { IfSome result (SpellsCommon line.now) }
{
    match line {
        [body @ .., b'\n'] => read_body(body),
        _ => None,
    }
}
