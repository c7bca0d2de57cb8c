//! A monitor or a judge of wide beats, which judges the events that they and the commits of cores become. Bad input changes
//! nothing.

ghost use Rattle.std.specs.Prelude.{◌≡◌, ◌==◌, ◌&&◌};
ghost use Rattle.tl_wide.specs.statement.Width.{IsWideWidth, part_width};
ghost use Rattle.tl_sessions.specs.code.WideJudging.{BeginsEvent, BeginsParts, IsEmpty, IsWideEvent, JudgesLeft};
ghost use Rattle.tl_sessions.specs.code.WideJudging.{JudgesWideEvent, ToldOfShown, is_same};

use crate::part_judge::{Left, PartJudge, Verdict};
use crate::shown::Shown;
use std::alloc::Global;
use tl_beat::beat::Link;
use tl_commits::fault::CommitFault;
use tl_pictures::answer::Answer;
use tl_pictures::codes::link_at;
use tl_wide::narrow::Narrower;
use tl_wide_events::commit::WideEvent;
use tl_wide_events::narrow::narrow_commit;

/// An event of which something is left: there was no memory for it.
#[derive(Drop)]
pub(crate) struct Begun {
    link: u8,
    shown: Shown,
    rest: Left,
}

/// The numbers of the names of wide beats and commits, and the judge of the events that they become, whose beats have `P`
/// bytes.
#[derive(Drop)]
pub struct WideJudge<const P: usize> {
    narrower: Box<Narrower>,
    judge: PartJudge<P>,
    begun: Option<Begun>,
    closed: bool,
}

/// A monitor or a judge of wide beats of each width.
#[derive(Drop)]
pub enum AnyWide {
    Four(WideJudge<4>),
    Eight(WideJudge<8>),
    Sixteen(WideJudge<16>),
    ThirtyTwo(WideJudge<16>),
    SixtyFour(WideJudge<16>),
}

impl Begun {
    /// Whether it is the event with these fields, on the link with this number.
    fn is_of(&self, code: u8, shown: &Shown) -> bool
        ensures { result ≡ (self.now.link == code && is_same self.now.shown shown.now) }
    {
        self.link == code && self.shown.is_same(shown)
    }
}

impl<const P: usize> WideJudge<P> {
    /// One whose events this judge judges, and that has seen none.
    pub fn of(alloc: Global, judge: PartJudge<P>) -> Result<Self, Answer>
        ensures { IsEmpty judge.entry result }
    {
        let Ok(narrower) = Box::new(alloc, Narrower::new(alloc)) else {
            return Err(Answer::NO_MEMORY);
        };
        Ok(WideJudge {
            narrower,
            judge,
            begun: None,
            closed: false,
        })
    }

    /// The events that the next event becomes, none of which is taken.
    fn begin<const W: usize>(&mut self, link: Link, event: &WideEvent<W>) -> Result<Left, Answer>
        requires width { IsWideWidth W }
        requires part { P ≡ part_width W }
        requires event { IsWideEvent event.now }
        ensures { BeginsEvent self.old self.new link event.now result }
    {
        match event {
            WideEvent::Beat(beat) => match self.narrower.narrow::<W, P>(link, beat) {
                Err(_) => Err(Answer::NO_MEMORY),
                Ok(None) => Err(Answer::TOO_MANY),
                Ok(Some(parts)) => Ok(Left::Parts(parts)),
            },
            WideEvent::Commit(commit) => match narrow_commit(&mut self.narrower, link, *commit) {
                Err(_) => Err(Answer::NO_MEMORY),
                Ok(None) => Err(Answer::TOO_MANY),
                Ok(Some(commit)) => Ok(Left::Commit(commit)),
            },
        }
    }

    /// The rest of the next event, which may have been begun.
    fn left<const W: usize>(
        &mut self,
        link: Link,
        code: u8,
        shown: &Shown,
        event: &WideEvent<W>,
    ) -> Result<Left, Answer>
        requires width { IsWideWidth W }
        requires part { P ≡ part_width W }
        requires event { IsWideEvent event.now }
        ensures { BeginsParts self.old self.new link code shown.now event.now result }
    {
        match &self.begun {
            Some(begun) => {
                let same = begun.is_of(code, shown);
                if same {
                    Ok(begun.rest)
                } else {
                    Err(Answer::BAD)
                }
            }
            None => self.begin(link, event),
        }
    }

    /// Judges the rest of an event.
    fn judge_left<const W: usize>(
        &mut self,
        link: Link,
        code: u8,
        shown: &Shown,
        event: &WideEvent<W>,
        rest: Left,
    ) -> Answer
        requires width { IsWideWidth W }
        requires part { P ≡ part_width W }
        ensures { JudgesLeft self.old self.new link code shown.now event.now rest result }
    {
        match self.judge.take_all(link, event, rest) {
            Verdict::Taken => {
                self.begun = None;
                Answer::OK
            }
            Verdict::Broken(breach) => {
                self.closed = true;
                Answer::of_commits(Err(CommitFault::Broken(breach)))
            }
            Verdict::OutOfMemory(rest) => {
                self.begun = Some(Begun {
                    link: code,
                    shown: *shown,
                    rest,
                });
                Answer::NO_MEMORY
            }
        }
    }

    /// Judges an event whose fields are within their ranges.
    fn judge<const W: usize>(
        &mut self,
        link: Link,
        code: u8,
        shown: &Shown,
        event: &WideEvent<W>,
    ) -> Answer
        requires width { IsWideWidth W }
        requires part { P ≡ part_width W }
        requires event { IsWideEvent event.now }
        ensures { JudgesWideEvent self.old self.new link code shown.now event.now result }
    {
        if self.closed {
            return Answer::CLOSED;
        }
        match self.left(link, code, shown, event) {
            Err(answer) => answer,
            Ok(rest) => self.judge_left(link, code, shown, event, rest),
        }
    }
}

/// Judges a wide beat or a commit of a link. One that breaks a rule closes the judge.
pub fn push<const W: usize, const P: usize>(
    judge: &mut WideJudge<P>,
    code: u8,
    shown: &Shown,
) -> Answer
    requires width { IsWideWidth W }
    requires part { P ≡ part_width W }
    ensures { ToldOfShown W judge.old judge.new code shown.now result }
{
    let Some(link) = link_at(code) else {
        return Answer::BAD;
    };
    let Some(event) = shown.event::<W>() else {
        return Answer::BAD;
    };
    judge.judge(link, code, shown, &event)
}
