//! The calls on a session with a judge of all links, of beats alone or of beats and commits. A session without one is bad
//! input.

ghost use Rattle.std.specs.Prelude.{◌≡◌, true};
ghost use Rattle.tl_sessions.specs.statement.EventsOpened.{OpensEvents};
ghost use Rattle.tl_sessions.specs.statement.Opened.{may_open_under, ok_of, answer_in};
ghost use Rattle.tl_sessions.specs.statement.Sessions.{JudgeOpens, JudgeOpensUnder, OpensJudge};
ghost use Rattle.tl_sessions.specs.statement.Sessions.{CommitsSession, JudgesSession, TriesSession, JudgesLineSession};

use crate::event_judge::AnyEventJudge;
use crate::judge::AnyJudge;
use crate::opening::{make_events, make_judge, may_open, may_open_events, may_open_under};
use crate::session::Session;
use crate::{event_judge, judge};
use std::alloc::Global;
use tl_pictures::answer::Answer;
use tl_pictures::codes::{liberties_of, profile_of};
use tl_pictures::commit::CommitPicture;
use tl_pictures::picture::Picture;
use tl_rules::liberties::Liberties;

/// The answer of the judge in a session, of any width: the first of one of beats, the second of one of beats and
/// commits. A session of another kind is bad input.
macro_rules! of_judge {
    ($session:expr, $judge:ident => $answer:expr, $events:ident => $answer_to_events:expr) => {
        match $session {
            Session::Judge(AnyJudge::Four($judge)) => $answer,
            Session::Judge(AnyJudge::Eight($judge)) => $answer,
            Session::Judge(AnyJudge::Sixteen($judge)) => $answer,
            Session::Events(AnyEventJudge::Four($events)) => $answer_to_events,
            Session::Events(AnyEventJudge::Eight($events)) => $answer_to_events,
            Session::Events(AnyEventJudge::Sixteen($events)) => $answer_to_events,
            _ => Answer::BAD,
        }
    };
}

/// A new judge of all links of a manager with these liberties, of this width.
fn judge_of(alloc: Global, codes: &[u8], width: u8, liberties: Liberties) -> Result<Session, Answer>
    requires fits { may_open_under codes.now width ≡ true }
    ensures told { OpensJudge codes.now width liberties true (ok_of result) (answer_in result) }
{
    let judge = match width {
        4 => AnyJudge::Four(make_judge(alloc, codes, liberties)?),
        8 => AnyJudge::Eight(make_judge(alloc, codes, liberties)?),
        16 => AnyJudge::Sixteen(make_judge(alloc, codes, liberties)?),
        _ => return Err(Answer::BAD),
    };
    Ok(Session::Judge(judge))
}

/// A new judge of all links of a manager, of this width.
pub fn open(alloc: Global, codes: &[u8], width: u8, profile: u8) -> Result<Session, Answer>
    ensures told { JudgeOpens codes.now width profile (ok_of result) (answer_in result) }
{
    if !may_open(codes, width, profile) {
        return Err(Answer::BAD);
    }
    judge_of(alloc, codes, width, Liberties::of(profile_of(profile)))
}

/// A new judge of all links of a manager with these liberties, of this width.
pub fn open_under(alloc: Global, codes: &[u8], width: u8, liberties: u8) -> Result<Session, Answer>
    ensures told { JudgeOpensUnder codes.now width liberties (ok_of result) (answer_in result) }
{
    if !may_open_under(codes, width) {
        return Err(Answer::BAD);
    }
    judge_of(alloc, codes, width, liberties_of(liberties))
}

/// A new judge of beats and commits of all links of a manager with these liberties, of this width. `complete` says which
/// links have all their stores in the trace, and `zero` whether memory was zero before it.
pub fn open_events(
    alloc: Global,
    codes: &[u8],
    complete: &[u8],
    zero: u8,
    width: u8,
    liberties: u8,
) -> Result<Session, Answer>
    ensures told { OpensEvents codes.now complete.now zero width liberties (ok_of result) (answer_in result) }
{
    if !may_open_events(codes, complete, zero, width) {
        return Err(Answer::BAD);
    }
    let judge = match width {
        4 => AnyEventJudge::Four(make_events(alloc, codes, complete, zero, liberties)?),
        8 => AnyEventJudge::Eight(make_events(alloc, codes, complete, zero, liberties)?),
        16 => AnyEventJudge::Sixteen(make_events(alloc, codes, complete, zero, liberties)?),
        _ => return Err(Answer::BAD),
    };
    Ok(Session::Events(judge))
}

/// Judges a beat of a link. A beat that breaks a rule closes the session's judge.
pub fn push(session: &mut Session, link: u8, beat: &Picture) -> Answer
    ensures { JudgesSession link beat.now result session.old session.new }
{
    of_judge!(session,
        held => judge::push(held, link, beat),
        events => event_judge::push(events, link, beat, true))
}

/// Judges a beat of a link. A beat that breaks a rule doesn't close the session's judge.
pub fn try_push(session: &mut Session, link: u8, beat: &Picture) -> Answer
    ensures { TriesSession link beat.now result session.old session.new }
{
    of_judge!(session,
        held => judge::try_push(held, link, beat),
        events => event_judge::push(events, link, beat, false))
}

/// Judges the beat of a line of a trace, or the commit if the session's judge judges commits.
pub fn push_line(session: &mut Session, line: &[u8]) -> Answer
    ensures { JudgesLineSession line.now result session.old session.new }
{
    of_judge!(session,
        held => judge::push_line(held, line),
        events => event_judge::push_line(events, line))
}

/// Judges a commit of a link. One that breaks a rule closes the session's judge if it `stops`.
pub fn commit(session: &mut Session, link: u8, commit: &CommitPicture, stops: bool) -> Answer
    ensures { CommitsSession stops link commit.now result session.old session.new }
{
    of_judge!(session,
        _held => Answer::BAD,
        events => event_judge::commit(events, link, commit, stops))
}
