//! The calls of C on a cover.

ghost use Rattle.std.specs.Prelude.{◌≡◌, None};
ghost use Rattle.hefrudyl.specs.statement.Handled.{BinTold, CoverOpenTold, CountTold, TallyTold};

use crate::handle::Handle;
use std::alloc::Global;
use std::mem;
use tl_pictures::answer::Answer;
use tl_pictures::picture::Picture;
use tl_sessions::cover::{BinTally, Tally};
use tl_sessions::covered;

/// Makes a cover of links of these levels with these liberties, in an empty handle.
#[unsafe(no_mangle)]
pub extern "C" fn tl_cover_new(
    alloc: Global,
    cover: &mut Handle,
    levels: &[u8],
    width: u8,
    liberties: u8,
) -> Answer
    ensures { CoverOpenTold cover.old.place.value cover.new.place.value levels.now width liberties result }
{
    cover.take(alloc, covered::open(alloc, levels, width, liberties))
}

/// Judges a beat of a link, and counts the situations of the message that begins with it.
#[unsafe(no_mangle)]
pub extern "C" fn tl_cover_push(
    alloc: Global,
    cover: &mut Handle,
    link: u8,
    beat: &Picture,
) -> Answer
    ensures { CountTold link beat.now result cover.old.place.value cover.new.place.value }
{
    answered!(alloc, cover, session => covered::push(&mut session, link, beat))
}

/// Reports the count of the situation with this number, and the line of a trace in which it first came.
#[unsafe(no_mangle)]
pub extern "C" fn tl_cover_count(
    alloc: Global,
    cover: &mut Handle,
    situation: u8,
    tally: &mut Tally,
) -> Answer
    ensures { TallyTold situation tally.old tally.new result cover.old.place.value cover.new.place.value }
{
    answered!(alloc, cover, session => covered::tell(&session, situation, tally))
}

/// Reports the count of the bin with this number on a link, the line of a trace in which it first came, and whether the
/// link can have it by its level and its liberties.
#[unsafe(no_mangle)]
pub extern "C" fn tl_cover_bin(
    alloc: Global,
    cover: &mut Handle,
    link: u8,
    bin: u8,
    tally: &mut BinTally,
) -> Answer
    ensures { BinTold link bin tally.old tally.new result cover.old.place.value cover.new.place.value }
{
    answered!(alloc, cover, session => covered::tell_bin(&session, link, bin, tally))
}

/// Frees the contents of a handle, and leaves it empty.
#[unsafe(no_mangle)]
pub extern "C" fn tl_cover_free(alloc: Global, cover: &mut Handle)
    ensures { cover.new.place.value ≡ None }
{
    let _session = mem::replace(cover, Handle::empty(alloc)).into_box();
}
