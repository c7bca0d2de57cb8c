//! A monitor of links, and its answer to each beat.

ghost use Rattle.std.specs.Prelude.{Bool, None, List, IfOk, ◌≡◌};
ghost use Rattle.tl_beat.specs.declared.beat.Beat.{Beat};
ghost use Rattle.tl_beat.specs.statement.Width.{IsWidth};
ghost use Rattle.tl_params.specs.declared.level.Level.{Level};
ghost use Rattle.tl_params.specs.declared.liberties.Liberties.{Liberties};
ghost use Rattle.tl_params.specs.declared.profile.Profile.{Profile};
ghost use Rattle.tl_monitor.specs.code.Lawful.{AreLawful};
ghost use Rattle.tl_rules.specs.statement.Conformance.{Trace, broken_on_link, on_link};
ghost use Rattle.tl_rules.specs.statement.Liberties.{broken_on_link_under};

use crate::fault::{MonitorFault, is_closed_after};
use crate::link_state::LinkState;
use std::alloc::{AllocError, Global};
use tl_beat::beat::{Beat, Link};
use tl_beat::control::ControlC;
use tl_rules::config::MOST_CLIENTS;
use tl_rules::level::Level;
use tl_rules::liberties::Liberties;
use tl_rules::past::{Probe, Request};
use tl_rules::perm::Perm;
use tl_rules::profile::Profile;
use tl_rules::rule::Rule;

/// Judges the beats of up to 16 links, each after the earlier beats of its link. It keeps the unfinished and pending
/// messages of each link, the permissions held, and no beat.
#[derive(Drop)]
pub struct Monitor<const W: usize> {
    links: Vec<MonitoredLink>,
    liberties: Liberties,
    closed: bool,
    ghost lawful: { AreLawful W liberties links.items },
}

/// A link of a monitor: its level, and its state after the beats that it has carried.
#[derive(Drop)]
pub struct MonitoredLink {
    level: Level,
    state: LinkState,
}

impl<const W: usize> Monitor<W> {
    ghost use Rattle.tl_monitor.specs.statement.Granting.{coming_on, granted_on_under};
    ghost use Rattle.tl_monitor.specs.statement.Reporting.{report_on};
    ghost use Rattle.tl_monitor.specs.statement.Numbers.{IsMoreUnder, IsMoreWhereRefused, entry_count, entry_count_under};
    ghost use Rattle.tl_monitor.specs.statement.Knows.{Knows, KnowsUnder, IsNew, IsNewUnder, Answers};
    ghost use Rattle.tl_monitor.specs.statement.Knows.{fault_of, fault_under, recorded_after, closed_after, held_on_under};
    ghost use Rattle.tl_monitor.specs.statement.Knows.{request_on, probe_on, held_on, begins_on};
    ghost use Rattle.tl_monitor.specs.code.Fresh.{AreEmpty};

    /// Links of these levels that have carried nothing.
    fn empty_links(alloc: Global, levels: &[Level]) -> Result<Vec<MonitoredLink>, AllocError>
        ensures { IfOk result (λ v. AreEmpty levels.now v.items) }
    {
        let mut links = Vec::new(alloc);
        for level in levels {
            links.push(MonitoredLink {
                level: *level,
                state: LinkState::new(alloc),
            })?;
        }
        Ok(links)
    }

    /// A monitor of links of these levels, which has seen no beat. The error is `Levels` unless there are 1 to 16
    /// levels, or `Memory`.
    pub fn new(alloc: Global, levels: &[Level], profile: Profile) -> Result<Self, MonitorFault>
        requires { IsWidth W }
        ensures { IsNew levels.now profile result }
    {
        Self::with_liberties(alloc, levels, Liberties::of(profile))
    }

    /// The same for links with these liberties. The errors are the same.
    pub fn with_liberties(
        alloc: Global,
        levels: &[Level],
        liberties: Liberties,
    ) -> Result<Self, MonitorFault>
        requires { IsWidth W }
        ensures { IsNewUnder levels.now liberties result }
    {
        if levels.is_empty() || levels.len() > MOST_CLIENTS {
            return Err(MonitorFault::Levels);
        }
        let Ok(links) = Self::empty_links(alloc, levels) else {
            return Err(MonitorFault::Memory);
        };
        Ok(Monitor {
            links,
            liberties,
            closed: false,
        })
    }

    /// The first rule that a beat breaks on its link, if it breaks one. The beat isn't taken.
    pub fn broken(&self, link: Link, beat: &Beat<W>) -> Option<Rule>
        requires { IsWidth W }
        ensures { (levels : List Level) (p : Profile) (t : Trace W) (closed : Bool) →
            Knows self.now levels p t closed →
            result ≡ broken_on_link levels p (link, beat.now) t }
    {
        self.broken_under(link, beat)
    }

    /// The same under liberties.
    #[inline(always)]
    pub fn broken_under(&self, link: Link, beat: &Beat<W>) -> Option<Rule>
        requires { IsWidth W }
        ensures { (levels : List Level) (l : Liberties) (t : Trace W) (closed : Bool) →
            KnowsUnder self.now levels l t closed →
            result ≡ broken_on_link_under l levels (link, beat.now) t }
    {
        let n = usize::from(link.0);
        if n >= self.links.len() {
            return Some(Rule::L1);
        }
        let monitored = &self.links[n];
        monitored
            .state
            .broken(self.liberties, monitored.level, beat)
    }

    /// Judges a beat of a link, and takes it if it breaks no rule. After a broken rule the monitor is as before, and
    /// goes on. It answers `Closed` and `Memory` as `push` does.
    #[inline(always)]
    pub fn try_push(&mut self, link: Link, beat: &Beat<W>) -> Result<(), MonitorFault>
        requires { IsWidth W }
        ensures answer { (levels : List Level) (p : Profile) (t : Trace W) (closed : Bool) →
            Knows self.old levels p t closed →
            Answers (fault_of levels p t closed (link, beat.now)) result }
        ensures knows { (levels : List Level) (p : Profile) (t : Trace W) (closed : Bool) →
            Knows self.old levels p t closed →
            Knows self.new levels p (recorded_after result (link, beat.now) t) closed }
        ensures memory { (levels : List Level) (p : Profile) (t : Trace W) (closed : Bool) →
            Knows self.old levels p t closed →
            IsMoreWhereRefused (on_link link.0 t) beat.now result }
        ensures answer_under { (levels : List Level) (l : Liberties) (t : Trace W) (closed : Bool) →
            KnowsUnder self.old levels l t closed →
            Answers (fault_under levels l t closed (link, beat.now)) result }
        ensures knows_under { (levels : List Level) (l : Liberties) (t : Trace W) (closed : Bool) →
            KnowsUnder self.old levels l t closed →
            KnowsUnder self.new levels l (recorded_after result (link, beat.now) t) closed }
        ensures memory_under { (levels : List Level) (l : Liberties) (t : Trace W) (closed : Bool) →
            KnowsUnder self.old levels l t closed →
            IsMoreUnder l (on_link link.0 t) beat.now result }
    {
        self.judge(link, beat)
    }

    /// `try_push` under liberties.
    #[inline(always)]
    fn judge(&mut self, link: Link, beat: &Beat<W>) -> Result<(), MonitorFault>
        requires { IsWidth W }
        ensures answer { (levels : List Level) (l : Liberties) (t : Trace W) (closed : Bool) →
            KnowsUnder self.old levels l t closed →
            Answers (fault_under levels l t closed (link, beat.now)) result }
        ensures knows { (levels : List Level) (l : Liberties) (t : Trace W) (closed : Bool) →
            KnowsUnder self.old levels l t closed →
            KnowsUnder self.new levels l (recorded_after result (link, beat.now) t) closed }
        ensures memory { (levels : List Level) (l : Liberties) (t : Trace W) (closed : Bool) →
            KnowsUnder self.old levels l t closed →
            IsMoreUnder l (on_link link.0 t) beat.now result }
    {
        if self.closed {
            return Err(MonitorFault::Closed);
        }
        let n = usize::from(link.0);
        if n >= self.links.len() {
            return Err(MonitorFault::Broken(Rule::L1));
        }
        let monitored = &mut self.links[n];
        match monitored.state.push(self.liberties, monitored.level, beat) {
            Ok(None) => Ok(()),
            Ok(Some(rule)) => Err(MonitorFault::Broken(rule)),
            Err(_) => Err(MonitorFault::Memory),
        }
    }

    /// Judges a beat of a link, and takes it if it breaks no rule. After a broken rule it answers every call with
    /// `Closed`. `Memory` comes only for a beat with which more keys of one kind would be pending, or more blocks held;
    /// then the monitor is as before.
    pub fn push(&mut self, link: Link, beat: &Beat<W>) -> Result<(), MonitorFault>
        requires { IsWidth W }
        ensures answer { (levels : List Level) (p : Profile) (t : Trace W) (closed : Bool) →
            Knows self.old levels p t closed →
            Answers (fault_of levels p t closed (link, beat.now)) result }
        ensures knows { (levels : List Level) (p : Profile) (t : Trace W) (closed : Bool) →
            Knows self.old levels p t closed →
            Knows self.new levels p (recorded_after result (link, beat.now) t) (closed_after result) }
        ensures memory { (levels : List Level) (p : Profile) (t : Trace W) (closed : Bool) →
            Knows self.old levels p t closed →
            IsMoreWhereRefused (on_link link.0 t) beat.now result }
        ensures answer_under { (levels : List Level) (l : Liberties) (t : Trace W) (closed : Bool) →
            KnowsUnder self.old levels l t closed →
            Answers (fault_under levels l t closed (link, beat.now)) result }
        ensures knows_under { (levels : List Level) (l : Liberties) (t : Trace W) (closed : Bool) →
            KnowsUnder self.old levels l t closed →
            KnowsUnder self.new levels l (recorded_after result (link, beat.now) t) (closed_after result) }
        ensures memory_under { (levels : List Level) (l : Liberties) (t : Trace W) (closed : Bool) →
            KnowsUnder self.old levels l t closed →
            IsMoreUnder l (on_link link.0 t) beat.now result }
    {
        let answer = self.try_push(link, beat);
        self.closed = is_closed_after(&answer);
        answer
    }

    /// The request with this source that is pending and complete on a link. None on a link without a level.
    pub fn request(&self, link: Link, source: u8) -> Option<Request>
        ensures known { (levels : List Level) (p : Profile) (t : Trace W) (closed : Bool) →
            Knows self.now levels p t closed →
            result ≡ request_on levels link source t }
        ensures under { (levels : List Level) (l : Liberties) (t : Trace W) (closed : Bool) →
            KnowsUnder self.now levels l t closed →
            result ≡ request_on levels link source t }
    {
        let n = usize::from(link.0);
        if n >= self.links.len() {
            return None;
        }
        self.links[n].state.open_request::<W>(false, source)
    }

    /// The pending Probe of a block on a link. None on a link without a level.
    pub fn probe(&self, link: Link, block: u32) -> Option<Probe>
        ensures known { (levels : List Level) (p : Profile) (t : Trace W) (closed : Bool) →
            Knows self.now levels p t closed →
            result ≡ probe_on levels link block t }
        ensures under { (levels : List Level) (l : Liberties) (t : Trace W) (closed : Bool) →
            KnowsUnder self.now levels l t closed →
            result ≡ probe_on levels link block t }
    {
        let n = usize::from(link.0);
        if n >= self.links.len() {
            return None;
        }
        self.links[n].state.probe::<W>(block)
    }

    /// The permission held of a block on a link. None on a link without a level.
    pub fn held(&self, link: Link, block: u32) -> Perm
        ensures { (levels : List Level) (p : Profile) (t : Trace W) (closed : Bool) →
            Knows self.now levels p t closed →
            result ≡ held_on levels link block t }
    {
        self.held_under(link, block)
    }

    /// The same under liberties.
    #[inline(always)]
    pub fn held_under(&self, link: Link, block: u32) -> Perm
        ensures { (levels : List Level) (l : Liberties) (t : Trace W) (closed : Bool) →
            KnowsUnder self.now levels l t closed →
            result ≡ held_on_under l levels link block t }
    {
        let n = usize::from(link.0);
        if n >= self.links.len() {
            return Perm::None;
        }
        self.links[n].state.blocks.get(block).held
    }

    /// The permission that the unfinished Grant of a block gives on a link, if one has begun that isn't denied and its
    /// GrantAck is pending. None on a link without a level.
    pub fn coming(&self, link: Link, block: u32) -> Option<Perm>
        ensures known { (levels : List Level) (p : Profile) (t : Trace W) (closed : Bool) →
            Knows self.now levels p t closed →
            result ≡ coming_on levels link block t }
        ensures under { (levels : List Level) (l : Liberties) (t : Trace W) (closed : Bool) →
            KnowsUnder self.now levels l t closed →
            result ≡ coming_on levels link block t }
    {
        let n = usize::from(link.0);
        if n >= self.links.len() {
            return None;
        }
        self.links[n].state.coming(block)
    }

    /// The control fields of the unfinished message on channel C of a link, if there is one. None on a link without a
    /// level.
    pub fn report(&self, link: Link) -> Option<ControlC>
        ensures { (levels : List Level) (l : Liberties) (t : Trace W) (closed : Bool) →
            KnowsUnder self.now levels l t closed → result ≡ report_on levels link t }
    {
        let n = usize::from(link.0);
        if n >= self.links.len() {
            return None;
        }
        self.links[n].state.report()
    }

    /// The permission held of a block on a link, with a Grant counted from its first beat on. None on a link without a
    /// level.
    pub fn granted_under(&self, link: Link, block: u32) -> Perm
        ensures { (levels : List Level) (l : Liberties) (t : Trace W) (closed : Bool) →
            KnowsUnder self.now levels l t closed →
            result ≡ granted_on_under l levels link block t }
    {
        match self.coming(link, block) {
            None => self.held_under(link, block),
            Some(given) => given,
        }
    }

    /// Whether a beat begins a message on its link. On a link without a level none does.
    pub fn begins(&self, link: Link, beat: &Beat<W>) -> bool
        ensures known { (levels : List Level) (p : Profile) (t : Trace W) (closed : Bool) →
            Knows self.now levels p t closed →
            result ≡ begins_on levels link beat.now t }
        ensures under { (levels : List Level) (l : Liberties) (t : Trace W) (closed : Bool) →
            KnowsUnder self.now levels l t closed →
            result ≡ begins_on levels link beat.now t }
    {
        let n = usize::from(link.0);
        if n >= self.links.len() {
            return false;
        }
        self.links[n].state.bursts.begins(beat)
    }

    /// The number of pending keys on a link, and of blocks not held as None. 0 on a link without a level.
    pub fn entries(&self, link: Link) -> usize
        ensures known { (levels : List Level) (p : Profile) (t : Trace W) (closed : Bool) →
            Knows self.now levels p t closed →
            result ≡ entry_count levels link t }
        ensures under { (levels : List Level) (l : Liberties) (t : Trace W) (closed : Bool) →
            KnowsUnder self.now levels l t closed →
            result ≡ entry_count_under l levels link t }
    {
        let n = usize::from(link.0);
        if n >= self.links.len() {
            return 0;
        }
        self.links[n].state.entries()
    }
}
