//! The calls of C on a monitor and a judge of wide beats, and on a judge of these and commits.

ghost use Rattle.hefrudyl.specs.statement.Handled.{WideEventsOpenTold, WideJudgeOpenTold, WideJudgeTold};
ghost use Rattle.hefrudyl.specs.statement.Handled.{WideMonitorOpenTold, WideOpenZeroTold, WidePushTold};

use crate::handle::Handle;
use std::alloc::Global;
use std::mem;
use tl_pictures::answer::Answer;
use tl_pictures::wide::WidePicture;
use tl_sessions::wide_session;

/// Makes a monitor of wide beats of links of these levels, 0 for UL, 1 for UH and 2 for C, with these liberties, bit 0
/// for `ids` to bit 7 for `uncorrupt`, in an empty handle. A beat has 4, 8, 16, 32 or 64 bytes.
#[unsafe(no_mangle)]
pub extern "C" fn tl_monitor_new_wide(
    alloc: Global,
    monitor: &mut Handle,
    levels: &[u8],
    width: u8,
    liberties: u8,
) -> Answer
    ensures { WideMonitorOpenTold monitor.old.place.value monitor.new.place.value levels.now width liberties result }
{
    monitor.take(
        alloc,
        wide_session::open_monitor(alloc, levels, width, liberties),
    )
}

/// Makes a judge of wide beats of all links of a manager, of these levels and with these liberties, in an empty handle.
#[unsafe(no_mangle)]
pub extern "C" fn tl_judge_new_wide(
    alloc: Global,
    judge: &mut Handle,
    levels: &[u8],
    width: u8,
    liberties: u8,
) -> Answer
    ensures { WideJudgeOpenTold judge.old.place.value judge.new.place.value levels.now width liberties result }
{
    judge.take(
        alloc,
        wide_session::open_judge(alloc, levels, width, liberties),
    )
}

/// Makes a judge of wide beats and commits of all links of a manager, of these levels and with these liberties, in an empty
/// handle. `complete` has 1 for each link of which all stores will be judged, otherwise 0.
#[unsafe(no_mangle)]
pub extern "C" fn tl_judge_new_wide_commits(
    alloc: Global,
    judge: &mut Handle,
    levels: &[u8],
    complete: &[u8],
    width: u8,
    liberties: u8,
) -> Answer
    ensures { WideEventsOpenTold judge.old.place.value judge.new.place.value levels.now complete.now width liberties result }
{
    judge.take(
        alloc,
        wide_session::open_events(alloc, levels, complete, 0, width, liberties),
    )
}

/// The same, and `zero` is 1 if memory was zero before the first beat, otherwise 0.
#[unsafe(no_mangle)]
pub extern "C" fn tl_judge_new_wide_commits_zero(
    alloc: Global,
    judge: &mut Handle,
    levels: &[u8],
    complete: &[u8],
    zero: u8,
    width: u8,
    liberties: u8,
) -> Answer
    ensures { WideOpenZeroTold judge.old.place.value judge.new.place.value levels.now complete.now zero width liberties
        result }
{
    judge.take(
        alloc,
        wide_session::open_events(alloc, levels, complete, zero, width, liberties),
    )
}

/// Judges a wide beat of a link, by the beats of at most 16 bytes that it becomes. If there is no memory, the same beat
/// may be pushed again.
#[unsafe(no_mangle)]
pub extern "C" fn tl_monitor_push_wide(
    alloc: Global,
    monitor: &mut Handle,
    link: u8,
    beat: &WidePicture,
) -> Answer
    ensures { WidePushTold link beat.now result monitor.old.place.value monitor.new.place.value }
{
    answered!(alloc, monitor, session => wide_session::push_to_monitor(&mut session, link, beat))
}

/// Judges a wide beat of a link, after the earlier beats and commits of all links.
#[unsafe(no_mangle)]
pub extern "C" fn tl_judge_push_wide(
    alloc: Global,
    judge: &mut Handle,
    link: u8,
    beat: &WidePicture,
) -> Answer
    ensures { WideJudgeTold link beat.now result judge.old.place.value judge.new.place.value }
{
    answered!(alloc, judge, session => wide_session::push_to_judge(&mut session, link, beat))
}
