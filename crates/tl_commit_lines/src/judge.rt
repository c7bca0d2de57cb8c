//! Judges the events of a trace in turn.

ghost use Rattle.std.specs.Prelude.{◌≡◌, Bool, [], IfOk, map};
ghost use Rattle.tl_beat.specs.statement.Width.{IsWidth};
ghost use Rattle.tl_commits.specs.statement.Events.{Events};
ghost use Rattle.tl_commits.specs.statement.Knows.{IsEvent};
ghost use Rattle.tl_params.specs.declared.liberties.Liberties.{Liberties};
ghost use Rattle.tl_commit_lines.specs.code.EventWatching.{JudgesEvent, KnowsEvents, WatchesEvent};
ghost use Rattle.tl_commit_lines.specs.statement.JudgedEvents.{fault_of_commits};
ghost use Rattle.tl_commit_lines.specs.statement.MarkedHeader.{MarkedLinks, links_in};

use crate::header::{CommitHeader, MarkedLevel};
use std::alloc::{AllocError, Global};
use tl_beat::beat::Link;
use tl_commits::fault::CommitFault;
use tl_commits::judge::CommitJudge;
use tl_commits::rule::CommitBreach;
use tl_events::commit::Event;
use tl_events::event::read_event;
use tl_lines::fault::Fault;
use tl_monitor::fault::MonitorFault;
use tl_monitor::monitor::Monitor;
use tl_params::level::Level;

/// A judge of the links of a trace with commits: of the beats of each link by itself, or of all events together.
#[derive(Drop)]
pub enum EventJudge<const W: usize> {
    OfLinks(Monitor<W>),
    OfAll(CommitJudge<W>),
}

/// The levels of links. The error means that there is no memory left.
pub fn levels_of(alloc: Global, links: &[MarkedLevel]) -> Result<Vec<Level>, AllocError>
    ensures { IfOk result (λ levels. levels.items ≡ map (λ x. x.level) links.now) }
{
    let mut levels = Vec::new(alloc);
    for link in links {
        levels.push(link.level)?;
    }
    Ok(levels)
}

/// Of which links all stores are in the trace.
pub fn complete_of(alloc: Global, links: &[MarkedLevel]) -> Result<Vec<bool>, AllocError>
    ensures { IfOk result (λ complete. complete.items ≡ map (λ x. x.complete) links.now) }
{
    let mut complete = Vec::new(alloc);
    for link in links {
        complete.push(link.complete)?;
    }
    Ok(complete)
}

/// The fault of an event that breaks this rule.
fn fault_of(breach: CommitBreach) -> Fault
    ensures { result ≡ fault_of_commits breach }
{
    match breach {
        CommitBreach::OfBeats(breach) => Fault::of_breach(breach),
        CommitBreach::OfCommits(rule) => Fault::CommitRule(rule),
    }
}

impl<const W: usize> EventJudge<W> {
    /// A judge of the links that a header names, which has seen no event. The error means that there is no memory left.
    pub fn new(alloc: Global, together: bool, header: &CommitHeader) -> Result<Self, AllocError>
        requires { IsWidth W }
        ensures { IfOk result (λ judge. KnowsEvents together judge (links_in header.now) header.now.may []) }
    {
        let levels = levels_of(alloc, header.links.as_slice())?;
        if !together {
            let Ok(monitor) = Monitor::with_liberties(alloc, levels.as_slice(), header.may) else {
                return Err(AllocError);
            };
            return Ok(EventJudge::OfLinks(monitor));
        }
        let complete = complete_of(alloc, header.links.as_slice())?;
        let judge = CommitJudge::with_liberties(
            alloc,
            levels.as_slice(),
            complete.as_slice(),
            header.zero,
            header.may,
        );
        let Ok(judge) = judge else {
            return Err(AllocError);
        };
        Ok(EventJudge::OfAll(judge))
    }

    /// Judges the next event, and takes it if it isn't at fault. After one at fault the judge is as before, and goes on.
    /// The error means that there is no memory left.
    pub fn push(&mut self, link: Link, event: &Event<W>) -> Result<Option<Fault>, AllocError>
        requires width { IsWidth W }
        requires event { IsEvent event.now }
        ensures { IfOk result (λ fault. (together : Bool) (links : MarkedLinks) (may : Liberties) (e : Events W) →
            KnowsEvents together self.old links may e →
            JudgesEvent together self.new links may e link event.now fault) }
    {
        match self {
            EventJudge::OfAll(judge) => match judge.try_push(link, event) {
                Ok(()) => Ok(None),
                Err(CommitFault::Broken(breach)) => Ok(Some(fault_of(breach))),
                Err(_) => Err(AllocError),
            },
            EventJudge::OfLinks(monitor) => {
                let Event::Beat(beat) = event else {
                    return Ok(None);
                };
                match monitor.try_push(link, beat) {
                    Ok(()) => Ok(None),
                    Err(MonitorFault::Broken(rule)) => Ok(Some(Fault::Rule(rule))),
                    Err(_) => Err(AllocError),
                }
            }
        }
    }

    /// Judges the line of the next event, as `push` judges the event. A line that spells none is at fault.
    pub fn judge_line(&mut self, line: &[u8]) -> Result<Option<Fault>, AllocError>
        requires { IsWidth W }
        ensures { IfOk result (λ fault. (together : Bool) → WatchesEvent together self.old self.new line.now fault) }
    {
        match read_event(line) {
            Ok((link, event)) => self.push(link, &event),
            Err(fault) => Ok(Some(Fault::Line(fault))),
        }
    }
}
