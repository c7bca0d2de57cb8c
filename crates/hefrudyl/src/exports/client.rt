//! The calls of C on a client.

ghost use Rattle.std.specs.Prelude.{◌≡◌, None};
ghost use Rattle.hefrudyl.specs.statement.Handled.{ClientOpenTold, AskTold, OfferTold, StallsTold, NextTold, PopTold};
ghost use Rattle.hefrudyl.specs.statement.Handled.{HeldTold, CopyTold, ClosedTold};

use crate::handle::Handle;
use std::alloc::Global;
use std::mem;
use tl_pictures::answer::Answer;
use tl_pictures::operation::Operation;
use tl_pictures::outcome::{Outcome, Reception};
use tl_pictures::picture::Picture;
use tl_sessions::session::Session;

/// Makes a client of a level, 0 for UL, 1 for UH and 2 for C, in an empty handle.
#[unsafe(no_mangle)]
pub extern "C" fn tl_client_new(
    alloc: Global,
    client: &mut Handle,
    level: u8,
    blocks: u16,
    sources: u8,
    width: u8,
    profile: u8,
) -> Answer
    ensures { ClientOpenTold client.old.place.value client.new.place.value level blocks sources width profile result }
{
    client.take(
        alloc,
        Session::open_client(alloc, level, blocks, sources, width, profile),
    )
}

/// Asks a client for an operation.
#[unsafe(no_mangle)]
pub extern "C" fn tl_client_ask(
    alloc: Global,
    client: &mut Handle,
    operation: &Operation,
    outcome: &mut Outcome,
) -> Answer
    ensures { AskTold operation.now outcome.old outcome.new result client.old.place.value client.new.place.value }
{
    answered!(alloc, client, session => session.ask(operation, outcome))
}

/// Offers a client a beat.
#[unsafe(no_mangle)]
pub extern "C" fn tl_client_offer(
    alloc: Global,
    client: &mut Handle,
    beat: &Picture,
    reception: &mut Reception,
) -> Answer
    ensures { OfferTold beat.now reception.old reception.new result client.old.place.value client.new.place.value }
{
    answered!(alloc, client, session => session.offer(beat, reception))
}

/// Sets `stalled` to 1 if a client would stall a beat, otherwise to 0.
#[unsafe(no_mangle)]
pub extern "C" fn tl_client_stalls(
    alloc: Global,
    client: &mut Handle,
    beat: &Picture,
    stalled: &mut u8,
) -> Answer
    ensures { StallsTold beat.now stalled.old stalled.new result client.old.place.value client.new.place.value }
{
    answered!(alloc, client, session => session.stalls(beat, stalled))
}

/// Shows the next beat that a client has to send on a channel, 0 for A to 4 for E.
#[unsafe(no_mangle)]
pub extern "C" fn tl_client_next(
    alloc: Global,
    client: &mut Handle,
    channel: u8,
    beat: &mut Picture,
) -> Answer
    ensures { NextTold channel beat.old beat.new result client.old.place.value client.new.place.value }
{
    answered!(alloc, client, session => session.next(channel, beat))
}

/// Shows the next beat that a client has to send on a channel, and removes it.
#[unsafe(no_mangle)]
pub extern "C" fn tl_client_pop(
    alloc: Global,
    client: &mut Handle,
    channel: u8,
    beat: &mut Picture,
) -> Answer
    ensures { PopTold channel beat.old beat.new result client.old.place.value client.new.place.value }
{
    answered!(alloc, client, session => session.pop(channel, beat))
}

/// Sets `perm` to the permission that a client holds of a block: 0 for None, 1 for Branch, 2 for Trunk.
#[unsafe(no_mangle)]
pub extern "C" fn tl_client_held(
    alloc: Global,
    client: &mut Handle,
    block: u16,
    perm: &mut u8,
) -> Answer
    ensures { HeldTold block perm.old perm.new result client.old.place.value client.new.place.value }
{
    answered!(alloc, client, session => session.held(block, perm))
}

/// Shows the bytes of a client's copy of a block.
#[unsafe(no_mangle)]
pub extern "C" fn tl_client_copy(
    alloc: Global,
    client: &mut Handle,
    block: u16,
    bytes: &mut [u8; 64],
) -> Answer
    ensures { CopyTold block bytes.old bytes.new result client.old.place.value client.new.place.value }
{
    answered!(alloc, client, session => session.copy(block, bytes))
}

/// Sets `is_closed` to 1 if a client has refused a beat, otherwise to 0.
#[unsafe(no_mangle)]
pub extern "C" fn tl_client_closed(alloc: Global, client: &mut Handle, is_closed: &mut u8) -> Answer
    ensures { ClosedTold is_closed.old is_closed.new result client.old.place.value client.new.place.value }
{
    answered!(alloc, client, session => session.closed(is_closed))
}

/// Frees the contents of a handle, and leaves it empty.
#[unsafe(no_mangle)]
pub extern "C" fn tl_client_free(alloc: Global, client: &mut Handle)
    ensures { client.new.place.value ≡ None }
{
    let _session = mem::replace(client, Handle::empty(alloc)).into_box();
}
