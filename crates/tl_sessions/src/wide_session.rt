//! The calls on a session with a monitor or a judge of wide beats, or a judge of these and commits. A session without one is
//! bad input.

ghost use Rattle.tl_sessions.specs.code.WideJudging.{MakesWide};
ghost use Rattle.tl_sessions.specs.statement.EventsOpened.{completeness_at};
ghost use Rattle.tl_sessions.specs.statement.Opened.{ok_of, answer_in};
ghost use Rattle.tl_sessions.specs.statement.Wide.{Alone, Together, WithCommits};
ghost use Rattle.tl_sessions.specs.statement.WideOpened.{CommitsWide, JudgesWide, MonitorsWide, ToldAny};
ghost use Rattle.tl_sessions.specs.statement.WideOpened.{WideEventsOpen, WideJudgeOpens, WideMonitorOpens};
ghost use Rattle.tl_beat.specs.statement.Width.{IsWidth};

use crate::event_judge::EventJudge;
use crate::opening::{make_events, make_judge, make_under, may_open_wide, may_open_wide_events};
use crate::part_judge::PartJudge;
use crate::session::Session;
use crate::shown::Shown;
use crate::wide::{AnyWide, WideJudge};
use crate::{judge_session, wide};
use std::alloc::Global;
use tl_pictures::answer::Answer;
use tl_pictures::codes::liberties_of;
use tl_pictures::commit::CommitPicture;
use tl_pictures::wide::WidePicture;

/// One of this width, as each is made.
macro_rules! of_width {
    ($width:ident, $made:expr) => {
        match $width {
            4 => AnyWide::Four($made?),
            8 => AnyWide::Eight($made?),
            16 => AnyWide::Sixteen($made?),
            32 => AnyWide::ThirtyTwo($made?),
            64 => AnyWide::SixtyFour($made?),
            _ => return Err(Answer::BAD),
        }
    };
}

/// A monitor of links with these liberties, whose parts have `P` bytes, that has judged no beat.
#[tactic(auto, using(crate::proofs::WideMade::made_alone))]
fn make_monitor<const P: usize>(
    alloc: Global,
    codes: &[u8],
    liberties: u8,
) -> Result<WideJudge<P>, Answer>
    requires width { IsWidth P }
    ensures { MakesWide Alone codes.now liberties result }
{
    let monitor = make_under(alloc, codes, liberties)?;
    WideJudge::of(alloc, PartJudge::OfLinks(monitor))
}

/// A judge of all links with these liberties, whose parts have `P` bytes, that has judged no beat.
#[tactic(auto, using(crate::proofs::WideMade::made_together))]
fn make_wide_judge<const P: usize>(
    alloc: Global,
    codes: &[u8],
    liberties: u8,
) -> Result<WideJudge<P>, Answer>
    requires width { IsWidth P }
    ensures { MakesWide Together codes.now liberties result }
{
    let judge = make_judge(alloc, codes, liberties_of(liberties))?;
    WideJudge::of(alloc, PartJudge::OfAll(judge))
}

/// A judge of all links with these liberties and of the commits of their cores, whose parts have `P` bytes, that has judged
/// nothing. `complete` says which links have all their stores judged, and `zero` whether memory was zero at first.
#[tactic(auto, using(crate::proofs::WideMade::made_with_commits))]
fn make_wide_events<const P: usize>(
    alloc: Global,
    codes: &[u8],
    complete: &[u8],
    zero: u8,
    liberties: u8,
) -> Result<WideJudge<P>, Answer>
    requires width { IsWidth P }
    ensures { MakesWide (WithCommits (completeness_at complete.now zero)) codes.now liberties result }
{
    let EventJudge { judge, .. } = make_events(alloc, codes, complete, zero, liberties)?;
    WideJudge::of(alloc, PartJudge::OfEvents(judge))
}

/// A new monitor of wide beats of links with these liberties, of this width.
#[tactic(auto, unfolding(tl_wide_events::specs::statement::Narrowed::narrowed))]
pub fn open_monitor(
    alloc: Global,
    codes: &[u8],
    width: u8,
    liberties: u8,
) -> Result<Session, Answer>
    ensures told { WideMonitorOpens codes.now width liberties (ok_of result) (answer_in result) }
{
    if !may_open_wide(codes, width) {
        return Err(Answer::BAD);
    }
    let monitor = of_width!(width, make_monitor(alloc, codes, liberties));
    Ok(Session::WideMonitor(monitor))
}

/// A new judge of wide beats of all links with these liberties, of this width.
#[tactic(auto, unfolding(tl_wide_events::specs::statement::Narrowed::narrowed))]
pub fn open_judge(alloc: Global, codes: &[u8], width: u8, liberties: u8) -> Result<Session, Answer>
    ensures told { WideJudgeOpens codes.now width liberties (ok_of result) (answer_in result) }
{
    if !may_open_wide(codes, width) {
        return Err(Answer::BAD);
    }
    let judge = of_width!(width, make_wide_judge(alloc, codes, liberties));
    Ok(Session::WideJudge(judge))
}

/// A new judge of wide beats and commits of all links with these liberties, of this width. `complete` says which links have
/// all their stores judged, and `zero` whether memory was zero at first.
#[tactic(auto, unfolding(tl_wide_events::specs::statement::Narrowed::narrowed))]
pub fn open_events(
    alloc: Global,
    codes: &[u8],
    complete: &[u8],
    zero: u8,
    width: u8,
    liberties: u8,
) -> Result<Session, Answer>
    ensures told { WideEventsOpen codes.now complete.now zero width liberties (ok_of result) (answer_in result) }
{
    if !may_open_wide_events(codes, complete, zero, width) {
        return Err(Answer::BAD);
    }
    let judge = of_width!(
        width,
        make_wide_events(alloc, codes, complete, zero, liberties)
    );
    Ok(Session::WideEvents(judge))
}

/// Judges a wide beat or a commit of a link.
#[tactic(auto, using(crate::proofs::WideTold::told_wide))]
fn push(judge: &mut AnyWide, link: u8, shown: &Shown) -> Answer
    ensures { ToldAny link shown.now result judge.old judge.new }
{
    match judge {
        AnyWide::Four(judge) => wide::push::<4, 4>(judge, link, shown),
        AnyWide::Eight(judge) => wide::push::<8, 8>(judge, link, shown),
        AnyWide::Sixteen(judge) => wide::push::<16, 16>(judge, link, shown),
        AnyWide::ThirtyTwo(judge) => wide::push::<32, 16>(judge, link, shown),
        AnyWide::SixtyFour(judge) => wide::push::<64, 16>(judge, link, shown),
    }
}

/// Judges a wide beat of a link with the session's monitor. A beat that breaks a rule closes it.
pub fn push_to_monitor(session: &mut Session, link: u8, beat: &WidePicture) -> Answer
    ensures { MonitorsWide link beat.now result session.old session.new }
{
    match session {
        Session::WideMonitor(monitor) => push(monitor, link, &Shown::Beat(*beat)),
        _ => Answer::BAD,
    }
}

/// Judges a wide beat of a link with the session's judge. A beat that breaks a rule closes it.
pub fn push_to_judge(session: &mut Session, link: u8, beat: &WidePicture) -> Answer
    ensures { JudgesWide link beat.now result session.old session.new }
{
    match session {
        Session::WideJudge(judge) => push(judge, link, &Shown::Beat(*beat)),
        Session::WideEvents(judge) => push(judge, link, &Shown::Beat(*beat)),
        _ => Answer::BAD,
    }
}

/// Judges a commit of a link with the session's judge of commits, of beats of any width. One that breaks a rule closes it.
pub fn commit(session: &mut Session, link: u8, commit: &CommitPicture) -> Answer
    ensures { CommitsWide link commit.now result session.old session.new }
{
    match session {
        Session::WideEvents(judge) => push(judge, link, &Shown::Commit(*commit)),
        _ => judge_session::commit(session, link, commit, true),
    }
}
