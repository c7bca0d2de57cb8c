//! Judges the beats of a trace in turn, under the liberties of its links.

ghost use Rattle.std.specs.Prelude.{◌≡◌, Bool, [], List, IfOk};
ghost use Rattle.tl_beat.specs.statement.Width.{IsWidth};
ghost use Rattle.tl_monitor.specs.statement.Knows.{begins_on, request_on};
ghost use Rattle.tl_params.specs.declared.level.Level.{Level};
ghost use Rattle.tl_params.specs.declared.liberties.Liberties.{Liberties};
ghost use Rattle.tl_rules.specs.statement.Conformance.{Trace};
ghost use Rattle.tl_lines.specs.code.TraceJudging.{JudgesBeat, KnowsBeats, ReadsHeader};

use crate::fault::Fault;
use crate::links_header::{LinksHeader, read_links};
use std::alloc::{AllocError, Global};
use tl_beat::beat::{Beat, Link};
use tl_monitor::fault::MonitorFault;
use tl_monitor::monitor::Monitor;
use tl_params::liberties::Liberties;
use tl_rules::past::Request;
use tl_together::fault::JudgeFault;
use tl_together::judge::Judge;

/// A judge of the links of a trace: of each by itself, or of all together.
#[derive(Drop)]
pub enum TraceJudge<const W: usize> {
    OfLinks(Monitor<W>),
    OfAll(Judge<W>),
}

/// Reads the header of a trace. The links have the liberties that it names and those that are allowed. None if the line
/// is no header.
pub fn read_for(allow: Liberties, line: &[u8]) -> Option<LinksHeader>
    ensures { ReadsHeader allow line.now result }
{
    let Some(header) = read_links(line) else {
        return None;
    };
    let may = header.may.union(allow);
    Some(LinksHeader { may, ..header })
}

impl<const W: usize> TraceJudge<W> {
    /// A judge of the links that a header names, 1 to 16, which has judged no beat.
    pub fn new(alloc: Global, together: bool, header: &LinksHeader) -> Result<Self, AllocError>
        requires { IsWidth W }
        ensures { IfOk result (λ judge. KnowsBeats together judge header.now.levels.items header.now.may []) }
    {
        let levels = header.levels.as_slice();
        if together {
            let judge = Judge::with_liberties(alloc, levels, header.may).map_err(|_| AllocError)?;
            Ok(TraceJudge::OfAll(judge))
        } else {
            let monitor = Monitor::with_liberties(alloc, levels, header.may).map_err(
                |_| AllocError,
            )?;
            Ok(TraceJudge::OfLinks(monitor))
        }
    }

    /// Judges the next beat, and takes it if it isn't at fault.
    #[inline(always)]
    pub fn push(&mut self, link: Link, beat: &Beat<W>) -> Result<Option<Fault>, AllocError>
        requires { IsWidth W }
        ensures { IfOk result (λ fault. (together : Bool) (levels : List Level) (may : Liberties) (t : Trace W) →
            KnowsBeats together self.old levels may t →
            JudgesBeat together self.new levels may t (link, beat.now) fault) }
    {
        match self {
            TraceJudge::OfLinks(monitor) => match monitor.try_push(link, beat) {
                Ok(()) => Ok(None),
                Err(MonitorFault::Broken(rule)) => Ok(Some(Fault::Rule(rule))),
                Err(_) => Err(AllocError),
            },
            TraceJudge::OfAll(judge) => match judge.try_push(link, beat) {
                Ok(()) => Ok(None),
                Err(JudgeFault::Broken(breach)) => Ok(Some(Fault::of_breach(breach))),
                Err(_) => Err(AllocError),
            },
        }
    }

    /// Whether a beat begins a message on its link. None does on a link without a level.
    #[inline(always)]
    pub fn begins(&self, link: Link, beat: &Beat<W>) -> bool
        ensures { (together : Bool) (levels : List Level) (may : Liberties) (t : Trace W) →
            KnowsBeats together self.now levels may t → result ≡ begins_on levels link beat.now t }
    {
        match self {
            TraceJudge::OfLinks(monitor) => monitor.begins(link, beat),
            TraceJudge::OfAll(judge) => judge.begins(link, beat),
        }
    }

    /// The complete pending request with this source on a link; none on a link without a level.
    pub fn request(&self, link: Link, source: u8) -> Option<Request>
        ensures { (together : Bool) (levels : List Level) (may : Liberties) (t : Trace W) →
            KnowsBeats together self.now levels may t → result ≡ request_on levels link source t }
    {
        match self {
            TraceJudge::OfLinks(monitor) => monitor.request(link, source),
            TraceJudge::OfAll(judge) => judge.request(link, source),
        }
    }
}
