//! A judge of beats and commits of any width. Bad input changes nothing.

ghost use Rattle.std.specs.Prelude.{◌≡◌};
ghost use Rattle.tl_beat.specs.statement.Width.{IsWidth};
ghost use Rattle.tl_commits.specs.statement.Knows.{IsEvent};
ghost use Rattle.tl_sessions.specs.statement.Events.{JudgedEvent, ToldOfBeat, ToldOfCommit, ToldOfCommitLine, ToldOfEventLine};
ghost use Rattle.tl_sessions.specs.statement.Events.{closed_after};

use tl_beat::beat::Link;
use tl_beat::read::read_line;
use tl_commits::fault::CommitFault;
use tl_commits::judge::CommitJudge;
use tl_events::commit::Event;
use tl_events::read::read_commit;
use tl_pictures::answer::Answer;
use tl_pictures::codes::link_at;
use tl_pictures::commit::CommitPicture;
use tl_pictures::picture::Picture;

/// A judge of beats and commits that a broken rule may close.
#[derive(Drop)]
pub struct EventJudge<const W: usize> {
    pub(crate) judge: CommitJudge<W>,
    pub(crate) closed: bool,
}

/// A judge of beats and commits of links whose beats have 4, 8 or 16 bytes.
#[derive(Drop)]
pub enum AnyEventJudge {
    Four(EventJudge<4>),
    Eight(EventJudge<8>),
    Sixteen(EventJudge<16>),
}

/// Whether an open judge is closed after this: by a broken rule, if one closes it.
fn closed_after(stops: bool, judged: Result<(), CommitFault>) -> bool
    ensures { result ≡ closed_after stops judged }
{
    match judged {
        Err(CommitFault::Broken(_)) => stops,
        _ => false,
    }
}

impl<const W: usize> EventJudge<W> {
    /// Judges an event of a link, after the earlier events of all links. One that breaks a rule closes the judge if it
    /// `stops`.
    fn judge(&mut self, link: Link, event: &Event<W>, stops: bool) -> Answer
        requires width { IsWidth W }
        requires event { IsEvent event.now }
        ensures { JudgedEvent stops self.old self.new (link, event.now) result }
    {
        if self.closed {
            return Answer::CLOSED;
        }
        let judged = self.judge.try_push(link, event);
        self.closed = closed_after(stops, judged);
        Answer::of_commits(judged)
    }
}

/// Judges a beat of a link, after the earlier events of all links.
pub fn push<const W: usize>(
    judge: &mut EventJudge<W>,
    link: u8,
    picture: &Picture,
    stops: bool,
) -> Answer
    requires { IsWidth W }
    ensures { ToldOfBeat stops judge.old judge.new link picture.now result }
{
    let Some(link) = link_at(link) else {
        return Answer::BAD;
    };
    let Some(beat) = picture.beat::<W>() else {
        return Answer::BAD;
    };
    judge.judge(link, &Event::Beat(beat), stops)
}

/// Judges a commit of a link, after the earlier events of all links.
pub fn commit<const W: usize>(
    judge: &mut EventJudge<W>,
    link: u8,
    picture: &CommitPicture,
    stops: bool,
) -> Answer
    requires { IsWidth W }
    ensures { ToldOfCommit stops judge.old judge.new link picture.now result }
{
    let Some(link) = link_at(link) else {
        return Answer::BAD;
    };
    let Some(commit) = picture.commit() else {
        return Answer::BAD;
    };
    judge.judge(link, &Event::Commit(commit), stops)
}

/// Judges the commit of a line of a trace. A broken rule closes the judge.
fn commit_line<const W: usize>(judge: &mut EventJudge<W>, line: &[u8]) -> Answer
    requires { IsWidth W }
    ensures { ToldOfCommitLine judge.old judge.new line.now result }
{
    match read_commit(line) {
        Err(_) => Answer::BAD,
        Ok((link, commit)) => judge.judge(link, &Event::Commit(commit), true),
    }
}

/// Judges the beat or the commit of a line of a trace. A broken rule closes the judge.
pub fn push_line<const W: usize>(judge: &mut EventJudge<W>, line: &[u8]) -> Answer
    requires { IsWidth W }
    ensures { ToldOfEventLine judge.old judge.new line.now result }
{
    match read_line::<W>(line) {
        Err(_) => commit_line(judge, line),
        Ok((link, beat)) => judge.judge(link, &Event::Beat(beat), true),
    }
}
