//! Judges the beats of a trace in turn.

ghost use Rattle.std.specs.Prelude.{◌≡◌, Bool, false, [], List, IfOk};
ghost use Rattle.tl_beat.specs.statement.Width.{IsWidth};
ghost use Rattle.tl_params.specs.declared.level.Level.{Level};
ghost use Rattle.tl_params.specs.declared.profile.Profile.{Profile};
ghost use Rattle.tl_rules.specs.statement.Conformance.{Trace};
ghost use Rattle.tl_lines.specs.code.Watching.{JudgesBeat, KnowsBeats};

use crate::fault::Fault;
use crate::header::Header;
use std::alloc::{AllocError, Global};
use tl_beat::beat::{Beat, Link};
use tl_monitor::fault::MonitorFault;
use tl_monitor::monitor::Monitor;
use tl_together::fault::JudgeFault;
use tl_together::judge::Judge;

/// A judge of the links of a trace: of each by itself, or of all together.
#[derive(Drop)]
pub enum BeatJudge<const W: usize> {
    OfLinks(Monitor<W>),
    OfAll(Judge<W>),
}

impl<const W: usize> BeatJudge<W> {
    /// A judge of the links that a header names, 1 to 16, which has judged no beat.
    pub fn new(alloc: Global, together: bool, header: &Header) -> Result<Self, AllocError>
        requires { IsWidth W }
        ensures { IfOk result (λ judge. KnowsBeats together judge header.now.levels.items header.now.profile []) }
    {
        let levels = header.levels.as_slice();
        if together {
            let judge = Judge::new(alloc, levels, header.profile).map_err(|_| AllocError)?;
            Ok(BeatJudge::OfAll(judge))
        } else {
            let monitor = Monitor::new(alloc, levels, header.profile).map_err(|_| AllocError)?;
            Ok(BeatJudge::OfLinks(monitor))
        }
    }

    /// Judges the next beat, and takes it if it isn't at fault.
    #[inline(always)]
    pub fn push(&mut self, link: Link, beat: &Beat<W>) -> Result<Option<Fault>, AllocError>
        requires { IsWidth W }
        ensures { IfOk result (λ fault. (together : Bool) (levels : List Level) (p : Profile) (t : Trace W) →
            KnowsBeats together self.old levels p t →
            JudgesBeat together self.new levels p t (link, beat.now) fault) }
    {
        match self {
            BeatJudge::OfLinks(monitor) => match monitor.try_push(link, beat) {
                Ok(()) => Ok(None),
                Err(MonitorFault::Broken(rule)) => Ok(Some(Fault::Rule(rule))),
                Err(_) => Err(AllocError),
            },
            BeatJudge::OfAll(judge) => match judge.try_push(link, beat) {
                Ok(()) => Ok(None),
                Err(JudgeFault::Broken(breach)) => Ok(Some(Fault::of_breach(breach))),
                Err(_) => Err(AllocError),
            },
        }
    }
}
