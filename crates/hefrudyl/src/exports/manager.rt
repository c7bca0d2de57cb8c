//! The calls of C on a manager.

ghost use Rattle.std.specs.Prelude.{◌≡◌, None};
ghost use Rattle.hefrudyl.specs.statement.Handled.{ManagerOpenTold, ManagerOpenUnderTold, AdmitTold, StallsAtTold};
ghost use Rattle.hefrudyl.specs.statement.Handled.{NextAtTold, PopAtTold, ClosedAtTold};

use crate::handle::Handle;
use std::alloc::Global;
use std::mem;
use tl_pictures::answer::Answer;
use tl_pictures::config::LinkConfig;
use tl_pictures::picture::Picture;
use tl_sessions::session::Session;

/// Makes a manager of these links with this many blocks and trackers, in an empty handle.
#[unsafe(no_mangle)]
pub extern "C" fn tl_manager_new(
    alloc: Global,
    manager: &mut Handle,
    links: &[LinkConfig],
    blocks: u16,
    trackers: u8,
    width: u8,
    profile: u8,
) -> Answer
    ensures { ManagerOpenTold manager.old.place.value manager.new.place.value links.now blocks trackers
        width profile result }
{
    manager.take(
        alloc,
        Session::open_manager(alloc, links, blocks, trackers, width, profile),
    )
}

/// Makes a manager, in an empty handle, whose clients have these liberties: bit 0 for `ids`, bit 4 for `drops`, bit 5
/// for `reports`. With bit 2, `writer`, it grants a lone reader toT. Any other bit is a bad argument. There are as many
/// sources as links: with `ids` the Probes of each link have its source.
#[unsafe(no_mangle)]
pub extern "C" fn tl_manager_new_under(
    alloc: Global,
    manager: &mut Handle,
    links: &[LinkConfig],
    blocks: u16,
    trackers: u8,
    width: u8,
    liberties: u8,
    probe_sources: &[u8],
) -> Answer
    ensures { ManagerOpenUnderTold manager.old.place.value manager.new.place.value links.now blocks trackers
        width liberties probe_sources.now result }
{
    manager.take(
        alloc,
        Session::open_manager_under(
            alloc,
            links,
            blocks,
            trackers,
            width,
            liberties,
            probe_sources,
        ),
    )
}

/// Offers a manager a beat of a link.
#[unsafe(no_mangle)]
pub extern "C" fn tl_manager_offer(
    alloc: Global,
    manager: &mut Handle,
    link: u8,
    beat: &Picture,
    taken: &mut u8,
) -> Answer
    ensures { AdmitTold link beat.now taken.old taken.new result manager.old.place.value manager.new.place.value }
{
    answered!(alloc, manager, session => session.offer_on(link, beat, taken))
}

/// Sets `stalled` to 1 if a manager would stall a beat of a link, otherwise to 0.
#[unsafe(no_mangle)]
pub extern "C" fn tl_manager_stalls(
    alloc: Global,
    manager: &mut Handle,
    link: u8,
    beat: &Picture,
    stalled: &mut u8,
) -> Answer
    ensures { StallsAtTold link beat.now stalled.old stalled.new result manager.old.place.value
        manager.new.place.value }
{
    answered!(alloc, manager, session => session.stalls_on(link, beat, stalled))
}

/// Shows the next beat that a manager has to send on a channel of a link, 0 for A to 4 for E.
#[unsafe(no_mangle)]
pub extern "C" fn tl_manager_next(
    alloc: Global,
    manager: &mut Handle,
    link: u8,
    channel: u8,
    beat: &mut Picture,
) -> Answer
    ensures { NextAtTold link channel beat.old beat.new result manager.old.place.value manager.new.place.value }
{
    answered!(alloc, manager, session => session.next_on(link, channel, beat))
}

/// Shows the next beat that a manager has to send on a channel of a link, and removes it.
#[unsafe(no_mangle)]
pub extern "C" fn tl_manager_pop(
    alloc: Global,
    manager: &mut Handle,
    link: u8,
    channel: u8,
    beat: &mut Picture,
) -> Answer
    ensures { PopAtTold link channel beat.old beat.new result manager.old.place.value manager.new.place.value }
{
    answered!(alloc, manager, session => session.pop_on(link, channel, beat))
}

/// Sets `is_closed` to 1 if a manager has refused a beat of a link or has no such link, otherwise to 0.
#[unsafe(no_mangle)]
pub extern "C" fn tl_manager_closed(
    alloc: Global,
    manager: &mut Handle,
    link: u8,
    is_closed: &mut u8,
) -> Answer
    ensures { ClosedAtTold link is_closed.old is_closed.new result manager.old.place.value manager.new.place.value }
{
    answered!(alloc, manager, session => session.closed_on(link, is_closed))
}

/// Frees the contents of a handle, and leaves it empty.
#[unsafe(no_mangle)]
pub extern "C" fn tl_manager_free(alloc: Global, manager: &mut Handle)
    ensures { manager.new.place.value ≡ None }
{
    let _session = mem::replace(manager, Handle::empty(alloc)).into_box();
}
