//! The call that narrows wide beats.

use crate::Came;
use std::alloc::{AllocError, Global};
use tl_beat::beat::{Beat, Link};
use tl_beat::opcode::OpA;
use tl_wide::beat::{WideBeat, WideBeatA};
use tl_wide::narrow::Narrower;

/// A Get of 16 bytes, of a block and with a source that have this name.
fn get_of(name: u16) -> WideBeat<32> {
    WideBeat::A(WideBeatA {
        opcode: OpA::Get,
        param: 0,
        size: 4,
        source: name,
        address: (1 << 40) + 64 * u64::from(name),
        mask: 0xffff,
        lanes: None,
        corrupt: false,
    })
}

/// The source and the address that a Get becomes; nothing if no number is left.
fn narrowed(narrower: &mut Narrower, name: u16) -> Result<Option<(u8, u32)>, AllocError> {
    let beat = get_of(name);
    let Some(mut parts) = narrower.narrow::<32, 16>(Link(0), &beat)? else {
        return Ok(None);
    };
    match parts.next::<32, 16>(&beat) {
        Some(Beat::A(part)) => Ok(Some((part.source, part.address))),
        _ => Ok(None),
    }
}

/// Narrows a Get, and once more if it is refused: no number has changed then, and the names have the same as if nothing
/// had been refused.
fn narrows_again(narrower: &mut Narrower, name: u16, wanted: (u8, u32)) -> Came {
    match narrowed(narrower, name) {
        Ok(found) => {
            if found == Some(wanted) {
                Came::Done
            } else {
                Came::Wrong
            }
        }
        Err(_) => match narrowed(narrower, name) {
            Ok(found) if found == Some(wanted) => Came::Refused,
            _ => Came::Wrong,
        },
    }
}

/// Narrows Gets with a hundred names. Source 0 has a number before them.
pub fn narrows(alloc: Global) -> Came {
    let mut narrower = Narrower::new(alloc);
    let mut came = Came::Done;
    for place in 0..100u8 {
        let wanted = (place + 1, 64 * u32::from(place));
        match narrows_again(&mut narrower, 1000 + u16::from(place), wanted) {
            Came::Done => {}
            Came::Refused => came = Came::Refused,
            Came::Wrong => return Came::Wrong,
        }
    }
    came
}
