//! A judge of all links of a manager, of any width. Bad input changes nothing.

ghost use Rattle.tl_beat.specs.statement.Width.{IsWidth};
ghost use Rattle.tl_sessions.specs.statement.Together.{ToldTogether, ToldOfLineTogether, stops, goes_on};

use tl_beat::read::read_line;
use tl_pictures::answer::Answer;
use tl_pictures::codes::link_at;
use tl_pictures::picture::Picture;
use tl_together::judge::Judge;

/// A judge of links whose beats have 4, 8 or 16 bytes.
#[derive(Drop)]
pub enum AnyJudge {
    Four(Judge<4>),
    Eight(Judge<8>),
    Sixteen(Judge<16>),
}

/// Judges a beat of a link, after the earlier beats of all links. A beat that breaks a rule closes the judge.
pub fn push<const W: usize>(judge: &mut Judge<W>, link: u8, picture: &Picture) -> Answer
    requires { IsWidth W }
    ensures { ToldTogether stops judge.old judge.new link picture.now result }
{
    let Some(link) = link_at(link) else {
        return Answer::BAD;
    };
    let Some(beat) = picture.beat::<W>() else {
        return Answer::BAD;
    };
    Answer::of_judge(judge.push(link, &beat))
}

/// Judges a beat of a link, after the earlier beats of all links. A beat that breaks a rule doesn't close the judge.
pub fn try_push<const W: usize>(judge: &mut Judge<W>, link: u8, picture: &Picture) -> Answer
    requires { IsWidth W }
    ensures { ToldTogether goes_on judge.old judge.new link picture.now result }
{
    let Some(link) = link_at(link) else {
        return Answer::BAD;
    };
    let Some(beat) = picture.beat::<W>() else {
        return Answer::BAD;
    };
    Answer::of_judge(judge.try_push(link, &beat))
}

/// Judges the beat of a line of a trace, as `push` does.
pub fn push_line<const W: usize>(judge: &mut Judge<W>, line: &[u8]) -> Answer
    requires { IsWidth W }
    ensures { ToldOfLineTogether judge.old judge.new line.now result }
{
    match read_line::<W>(line) {
        Err(_) => Answer::BAD,
        Ok((link, beat)) => Answer::of_judge(judge.push(link, &beat)),
    }
}
