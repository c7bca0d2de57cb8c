//! A judge of the events that wide events become: a monitor, a judge of all links, or one of beats and commits.

ghost use Rattle.std.specs.Prelude.{◌≡◌, List};
ghost use Rattle.tl_beat.specs.statement.Width.{IsWidth};
ghost use Rattle.tl_commits.specs.statement.Events.{Events};
ghost use Rattle.tl_commits.specs.statement.Knows.{IsEvent};
ghost use Rattle.tl_params.specs.declared.level.Level.{Level};
ghost use Rattle.tl_params.specs.declared.liberties.Liberties.{Liberties};
ghost use Rattle.tl_wide.specs.statement.Pieces.{left_of};
ghost use Rattle.tl_wide.specs.statement.Width.{IsWideWidth, part_width};
ghost use Rattle.tl_wide_events.specs.declared.commit.WideEvent.TheVariants as wide;
ghost use Rattle.tl_wide_events.specs.statement.Narrowed.{as_events};
ghost use Rattle.tl_sessions.specs.code.WideJudging.{TakesEvent, TakesParts};
ghost use Rattle.tl_sessions.specs.statement.Wide.{IsValidLeft, Judging, KnowsParts, events_left};

use std::alloc::AllocError;
use tl_beat::beat::{Beat, Link};
use tl_commits::fault::CommitFault;
use tl_commits::judge::CommitJudge;
use tl_commits::rule::CommitBreach;
use tl_events::commit::{Commit, Event};
use tl_monitor::fault::MonitorFault;
use tl_monitor::monitor::Monitor;
use tl_together::breach::Breach;
use tl_together::fault::JudgeFault;
use tl_together::judge::Judge;
use tl_wide::beat::WideBeat;
use tl_wide::parts::Parts;
use tl_wide_events::commit::WideEvent;

/// Judges the events that wide events become, whose beats have `P` bytes: each link by itself, all links together, or these
/// with the commits of their cores.
#[derive(Drop)]
pub enum PartJudge<const P: usize> {
    OfLinks(Monitor<P>),
    OfAll(Judge<P>),
    OfEvents(CommitJudge<P>),
}

/// The rest of a wide event, which isn't taken yet: parts of a beat, or the commit that a commit becomes.
#[derive(Clone, Copy)]
pub(crate) enum Left {
    Parts(Parts),
    Commit(Commit),
}

/// The result of judging the rest of a wide event.
pub(crate) enum Verdict {
    /// All is taken.
    Taken,
    /// An event breaks a rule.
    Broken(CommitBreach),
    /// There is no memory for the first event of these. Those before it are taken.
    OutOfMemory(Left),
}

impl<const P: usize> PartJudge<P> {
    /// Judges an event. One that breaks a rule isn't taken. A monitor, and a judge of beats, take each commit. The error
    /// means that there is no memory left; then the event isn't taken either.
    fn take(&mut self, link: Link, event: &Event<P>) -> Result<Option<CommitBreach>, AllocError>
        requires { IsWidth P }
        ensures { (judging : Judging) (levels : List Level) (l : Liberties) (e : Events P) →
            KnowsParts judging self.old levels l e → IsEvent event.now →
            TakesEvent judging self.new levels l e link event.now result }
    {
        match self {
            PartJudge::OfLinks(monitor) => match event {
                Event::Beat(beat) => match monitor.try_push(link, beat) {
                    Ok(()) => Ok(None),
                    Err(fault) => match fault {
                        MonitorFault::Broken(rule) => {
                            Ok(Some(CommitBreach::OfBeats(Breach::OfLink(rule))))
                        }
                        _ => Err(AllocError),
                    },
                },
                Event::Commit(_) => Ok(None),
            },
            PartJudge::OfAll(judge) => match event {
                Event::Beat(beat) => match judge.try_push(link, beat) {
                    Ok(()) => Ok(None),
                    Err(JudgeFault::Broken(breach)) => Ok(Some(CommitBreach::OfBeats(breach))),
                    Err(_) => Err(AllocError),
                },
                Event::Commit(_) => Ok(None),
            },
            PartJudge::OfEvents(judge) => match judge.try_push(link, event) {
                Ok(()) => Ok(None),
                Err(CommitFault::Broken(breach)) => Ok(Some(breach)),
                Err(_) => Err(AllocError),
            },
        }
    }

    /// Judges the parts of a wide beat in turn, up to the first that isn't taken.
    fn take_parts<const W: usize>(
        &mut self,
        link: Link,
        beat: &WideBeat<W>,
        parts: Parts,
    ) -> Verdict
        requires width { IsWideWidth W }
        requires part { P ≡ part_width W }
        ensures { TakesParts self.old self.new link (wide.Beat beat.now) (as_events (left_of beat.now parts)) result }
    {
        let mut left = parts;
        let mut after = left;
        while let Some(part) = after.next::<W, P>(beat) {
            match self.take(link, &Event::Beat(part)) {
                Ok(None) => left = after,
                Ok(Some(breach)) => return Verdict::Broken(breach),
                Err(_) => return Verdict::OutOfMemory(Left::Parts(left)),
            }
        }
        Verdict::Taken
    }

    /// Judges the rest of a wide event, up to the first event that isn't taken.
    pub(crate) fn take_all<const W: usize>(
        &mut self,
        link: Link,
        event: &WideEvent<W>,
        rest: Left,
    ) -> Verdict
        requires width { IsWideWidth W }
        requires part { P ≡ part_width W }
        ensures { IsValidLeft rest →
            TakesParts self.old self.new link event.now (events_left rest event.now) result }
    {
        match rest {
            Left::Parts(parts) => match event {
                WideEvent::Beat(beat) => self.take_parts(link, beat, parts),
                WideEvent::Commit(_) => Verdict::Taken,
            },
            Left::Commit(commit) => match self.take(link, &Event::Commit(commit)) {
                Ok(None) => Verdict::Taken,
                Ok(Some(breach)) => Verdict::Broken(breach),
                Err(_) => Verdict::OutOfMemory(rest),
            },
        }
    }
}
