//! The calls on a session with a covering. A session without one is bad input.

ghost use Rattle.tl_sessions.specs.statement.Covering.{BinSession, CountsSession, OpensCovering, TallySession};
ghost use Rattle.tl_sessions.specs.statement.Opened.{ok_of, answer_in};

use crate::cover::{self, AnyCovering, BinTally, Tally};
use crate::opening::{make_covering, may_open_under};
use crate::session::Session;
use std::alloc::Global;
use tl_pictures::answer::Answer;
use tl_pictures::picture::Picture;

/// A new covering of links with these liberties, of this width.
pub fn open(alloc: Global, codes: &[u8], width: u8, liberties: u8) -> Result<Session, Answer>
    ensures told { OpensCovering codes.now width liberties (ok_of result) (answer_in result) }
{
    if !may_open_under(codes, width) {
        return Err(Answer::BAD);
    }
    let covering = match width {
        4 => AnyCovering::Four(make_covering(alloc, codes, liberties)?),
        8 => AnyCovering::Eight(make_covering(alloc, codes, liberties)?),
        16 => AnyCovering::Sixteen(make_covering(alloc, codes, liberties)?),
        _ => return Err(Answer::BAD),
    };
    Ok(Session::Covering(covering))
}

/// Judges a beat of a link, and counts the situations of the message that begins with it.
pub fn push(session: &mut Session, link: u8, beat: &Picture) -> Answer
    ensures { CountsSession link beat.now result session.old session.new }
{
    match session {
        Session::Covering(AnyCovering::Four(held)) => cover::push(held, link, beat),
        Session::Covering(AnyCovering::Eight(held)) => cover::push(held, link, beat),
        Session::Covering(AnyCovering::Sixteen(held)) => cover::push(held, link, beat),
        _ => Answer::BAD,
    }
}

/// The tally of the situation with this number.
pub fn tell(session: &Session, situation: u8, tally: &mut Tally) -> Answer
    ensures { TallySession situation tally.old tally.new result session.now }
{
    match session {
        Session::Covering(AnyCovering::Four(held)) => cover::tell(held, situation, tally),
        Session::Covering(AnyCovering::Eight(held)) => cover::tell(held, situation, tally),
        Session::Covering(AnyCovering::Sixteen(held)) => cover::tell(held, situation, tally),
        _ => Answer::BAD,
    }
}

/// The tally of the bin with this number on a link.
pub fn tell_bin(session: &Session, link: u8, bin: u8, tally: &mut BinTally) -> Answer
    ensures { BinSession link bin tally.old tally.new result session.now }
{
    match session {
        Session::Covering(AnyCovering::Four(held)) => cover::tell_bin(held, link, bin, tally),
        Session::Covering(AnyCovering::Eight(held)) => cover::tell_bin(held, link, bin, tally),
        Session::Covering(AnyCovering::Sixteen(held)) => cover::tell_bin(held, link, bin, tally),
        _ => Answer::BAD,
    }
}
