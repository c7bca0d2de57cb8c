//! The calls of C on a judge of all links of a manager.

ghost use Rattle.std.specs.Prelude.{◌≡◌, None};
ghost use Rattle.hefrudyl.specs.statement.Handled.{JudgeOpenTold, JudgeOpenUnderTold, JudgeOpenCommitsTold};
ghost use Rattle.hefrudyl.specs.statement.Handled.{JudgeOpenZeroTold};
ghost use Rattle.hefrudyl.specs.statement.Handled.{JudgeTold, JudgeTryTold, JudgeLineTold, CommitTold, TryCommitTold};

use crate::handle::Handle;
use std::alloc::Global;
use std::mem;
use tl_pictures::answer::Answer;
use tl_pictures::commit::CommitPicture;
use tl_pictures::picture::Picture;
use tl_sessions::{judge_session, wide_session};

/// Makes a judge of all links of a manager, of these levels, 0 for UL, 1 for UH and 2 for C, in an empty handle.
#[unsafe(no_mangle)]
pub extern "C" fn tl_judge_new(
    alloc: Global,
    judge: &mut Handle,
    levels: &[u8],
    width: u8,
    profile: u8,
) -> Answer
    ensures { JudgeOpenTold judge.old.place.value judge.new.place.value levels.now width profile result }
{
    judge.take(alloc, judge_session::open(alloc, levels, width, profile))
}

/// Makes a judge of all links of a manager, of these levels and with these liberties, bit 0 for `ids` to bit 7 for
/// `uncorrupt`, in an empty handle.
#[unsafe(no_mangle)]
pub extern "C" fn tl_judge_new_under(
    alloc: Global,
    judge: &mut Handle,
    levels: &[u8],
    width: u8,
    liberties: u8,
) -> Answer
    ensures { JudgeOpenUnderTold judge.old.place.value judge.new.place.value levels.now width liberties result }
{
    judge.take(
        alloc,
        judge_session::open_under(alloc, levels, width, liberties),
    )
}

/// Makes a judge of beats and commits of all links of a manager, of these levels and with these liberties, in an empty
/// handle. `complete` has 1 for each link of which all stores will be judged, otherwise 0.
#[unsafe(no_mangle)]
pub extern "C" fn tl_judge_new_commits(
    alloc: Global,
    judge: &mut Handle,
    levels: &[u8],
    complete: &[u8],
    width: u8,
    liberties: u8,
) -> Answer
    ensures { JudgeOpenCommitsTold judge.old.place.value judge.new.place.value levels.now complete.now width liberties
        result }
{
    judge.take(
        alloc,
        judge_session::open_events(alloc, levels, complete, 0, width, liberties),
    )
}

/// The same, and `zero` is 1 if memory was zero before the first beat, otherwise 0.
#[unsafe(no_mangle)]
pub extern "C" fn tl_judge_new_commits_zero(
    alloc: Global,
    judge: &mut Handle,
    levels: &[u8],
    complete: &[u8],
    zero: u8,
    width: u8,
    liberties: u8,
) -> Answer
    ensures { JudgeOpenZeroTold judge.old.place.value judge.new.place.value levels.now complete.now zero width liberties
        result }
{
    judge.take(
        alloc,
        judge_session::open_events(alloc, levels, complete, zero, width, liberties),
    )
}

/// Judges a beat of a link, after the earlier beats of all links.
#[unsafe(no_mangle)]
pub extern "C" fn tl_judge_push(
    alloc: Global,
    judge: &mut Handle,
    link: u8,
    beat: &Picture,
) -> Answer
    ensures { JudgeTold link beat.now result judge.old.place.value judge.new.place.value }
{
    answered!(alloc, judge, session => judge_session::push(&mut session, link, beat))
}

/// Judges a beat of a link, after the earlier beats of all links. A beat that breaks a rule isn't taken, and doesn't
/// close the judge.
#[unsafe(no_mangle)]
pub extern "C" fn tl_judge_try_push(
    alloc: Global,
    judge: &mut Handle,
    link: u8,
    beat: &Picture,
) -> Answer
    ensures { JudgeTryTold link beat.now result judge.old.place.value judge.new.place.value }
{
    answered!(alloc, judge, session => judge_session::try_push(&mut session, link, beat))
}

/// Judges the beat of a line of a trace, with its line feed, as `tl_judge_push` does, or the commit of one as
/// `tl_judge_commit` does.
#[unsafe(no_mangle)]
pub extern "C" fn tl_judge_push_line(alloc: Global, judge: &mut Handle, line: &[u8]) -> Answer
    ensures { JudgeLineTold line.now result judge.old.place.value judge.new.place.value }
{
    answered!(alloc, judge, session => judge_session::push_line(&mut session, line))
}

/// Judges a commit of a link, after the earlier beats and commits of all links.
#[unsafe(no_mangle)]
pub extern "C" fn tl_judge_commit(
    alloc: Global,
    judge: &mut Handle,
    link: u8,
    commit: &CommitPicture,
) -> Answer
    ensures { CommitTold link commit.now result judge.old.place.value judge.new.place.value }
{
    answered!(alloc, judge, session => wide_session::commit(&mut session, link, commit))
}

/// Judges a commit of a link, after the earlier beats and commits of all links. A commit that breaks a rule isn't taken,
/// and doesn't close the judge.
#[unsafe(no_mangle)]
pub extern "C" fn tl_judge_try_commit(
    alloc: Global,
    judge: &mut Handle,
    link: u8,
    commit: &CommitPicture,
) -> Answer
    ensures { TryCommitTold link commit.now result judge.old.place.value judge.new.place.value }
{
    answered!(alloc, judge, session => judge_session::commit(&mut session, link, commit, false))
}

/// Frees the contents of a handle, and leaves it empty.
#[unsafe(no_mangle)]
pub extern "C" fn tl_judge_free(alloc: Global, judge: &mut Handle)
    ensures { judge.new.place.value ≡ None }
{
    let _session = mem::replace(judge, Handle::empty(alloc)).into_box();
}
