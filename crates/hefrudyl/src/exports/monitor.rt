//! The calls of C on a monitor.

ghost use Rattle.std.specs.Prelude.{◌≡◌, None};
ghost use Rattle.hefrudyl.specs.statement.Handled.{MonitorOpenTold, MonitorOpenUnderTold};
ghost use Rattle.hefrudyl.specs.statement.Handled.{PushTold, TryTold, LineTold, EntriesTold};

use crate::handle::Handle;
use std::alloc::Global;
use std::mem;
use tl_pictures::answer::Answer;
use tl_pictures::picture::Picture;
use tl_sessions::session::Session;

/// Makes a monitor of links of these levels, 0 for UL, 1 for UH and 2 for C, in an empty handle.
#[unsafe(no_mangle)]
pub extern "C" fn tl_monitor_new(
    alloc: Global,
    monitor: &mut Handle,
    levels: &[u8],
    width: u8,
    profile: u8,
) -> Answer
    ensures { MonitorOpenTold monitor.old.place.value monitor.new.place.value levels.now width profile result }
{
    monitor.take(alloc, Session::open(alloc, levels, width, profile))
}

/// Makes a monitor of links of these levels with these liberties, bit 0 for `ids` to bit 7 for `uncorrupt`, in an empty
/// handle.
#[unsafe(no_mangle)]
pub extern "C" fn tl_monitor_new_under(
    alloc: Global,
    monitor: &mut Handle,
    levels: &[u8],
    width: u8,
    liberties: u8,
) -> Answer
    ensures { MonitorOpenUnderTold monitor.old.place.value monitor.new.place.value levels.now width liberties result }
{
    monitor.take(alloc, Session::open_under(alloc, levels, width, liberties))
}

/// Judges a beat of a link.
#[unsafe(no_mangle)]
pub extern "C" fn tl_monitor_push(
    alloc: Global,
    monitor: &mut Handle,
    link: u8,
    beat: &Picture,
) -> Answer
    ensures { PushTold link beat.now result monitor.old.place.value monitor.new.place.value }
{
    answered!(alloc, monitor, session => session.push(link, beat))
}

/// Judges a beat of a link. A beat that breaks a rule isn't taken, and doesn't close the monitor.
#[unsafe(no_mangle)]
pub extern "C" fn tl_monitor_try_push(
    alloc: Global,
    monitor: &mut Handle,
    link: u8,
    beat: &Picture,
) -> Answer
    ensures { TryTold link beat.now result monitor.old.place.value monitor.new.place.value }
{
    answered!(alloc, monitor, session => session.try_push(link, beat))
}

/// Judges the beat of a line of a trace, with its line feed.
#[unsafe(no_mangle)]
pub extern "C" fn tl_monitor_push_line(alloc: Global, monitor: &mut Handle, line: &[u8]) -> Answer
    ensures { LineTold line.now result monitor.old.place.value monitor.new.place.value }
{
    answered!(alloc, monitor, session => session.push_line(line))
}

/// Reports the number of keys pending and blocks held on a link.
#[unsafe(no_mangle)]
pub extern "C" fn tl_monitor_entries(
    alloc: Global,
    monitor: &mut Handle,
    link: u8,
    entries: &mut u64,
) -> Answer
    ensures { EntriesTold link entries.old entries.new result monitor.old.place.value monitor.new.place.value }
{
    answered!(alloc, monitor, session => session.entries(link, entries))
}

/// Frees the contents of a handle, and leaves it empty.
#[unsafe(no_mangle)]
pub extern "C" fn tl_monitor_free(alloc: Global, monitor: &mut Handle)
    ensures { monitor.new.place.value ≡ None }
{
    let _session = mem::replace(monitor, Handle::empty(alloc)).into_box();
}
