//! A judge of the links of a manager, and its answer to each beat.

ghost use Rattle.std.specs.Prelude.{Bool, true, false, None, Some, List, IfOk, Err};
ghost use Rattle.std.specs.Prelude.{length, ◌≡◌, ◌<◌, is_some};
ghost use Rattle.tl_beat.specs.declared.beat.Beat.{Beat};
ghost use Rattle.tl_beat.specs.declared.beat.Beat.TheVariants as beat;
ghost use Rattle.tl_beat.specs.statement.Width.{IsWidth};
ghost use Rattle.tl_params.specs.declared.level.Level.{Level};
ghost use Rattle.tl_params.specs.declared.liberties.Liberties.{Liberties};
ghost use Rattle.tl_rules.specs.code.Open.{open_request};
ghost use Rattle.tl_rules.specs.statement.Conformance.{Trace, on_link};
ghost use Rattle.tl_rules.specs.statement.Liberties.{broken_on_link_under};
ghost use Rattle.tl_rules.specs.statement.Windows as window;
ghost use Rattle.tl_bytes.specs.statement.Shown;
ghost use Rattle.tl_memory.specs.code.Changing.{IsChange, KnowsFree};
ghost use Rattle.tl_memory.specs.code.Taking.{request_answered};
ghost use Rattle.tl_memory.specs.statement.Links.{KeepsRules};
ghost use Rattle.tl_params.specs.statement.Liberties.{liberties_of};
ghost use Rattle.tl_together.specs.statement.Coherence;
ghost use Rattle.tl_together.specs.statement.Knows.{closed_after};
ghost use Rattle.tl_together.specs.code.Following.{Follows};
ghost use Rattle.tl_together.specs.code.Windows.{asked_in, last_in};

use crate::breach::{Breach, Unjudged, is_access_ack, judged, rule_of_bytes};
use crate::fault::{JudgeFault, is_closed_after, of_monitor};
use crate::free::{is_free, is_grantable, left_by_others};
use crate::notes::{note_request, note_shown, note_window};
use crate::shown::{freed, shown_by};
use crate::windows::{Window, Windows};
use std::alloc::{AllocError, Global};
use tl_beat::beat::{Beat, BeatD, Link};
use tl_memory::free::needs;
use tl_memory::memory::{Change, Memory};
use tl_monitor::byte_table::ByteTable;
use tl_monitor::fault::MonitorFault;
use tl_monitor::monitor::Monitor;
use tl_rules::kind::{capped, is_grant};
use tl_rules::level::Level;
use tl_rules::liberties::Liberties;
use tl_rules::memory_rule::MemoryRule;
use tl_rules::past::Request;
use tl_rules::perm::Perm;
use tl_rules::profile::Profile;

/// The request that a beat answers, if the beat is a response to one.
pub(crate) fn answered<const W: usize>(
    monitor: &Monitor<W>,
    link: Link,
    beat: &Beat<W>,
) -> Option<Request>
    ensures { (levels : List Level) (l : Liberties) (t : Trace W) → Follows monitor.now levels l t →
        link.0 < length levels → result ≡ request_answered beat.now (on_link link.0 t) }
{
    match beat {
        Beat::D(x) => monitor.request(link, x.source),
        _ => None,
    }
}

/// The moment at which the request with this source was complete on a link, if it was noted.
pub(crate) fn asked_in(asked: &Vec<ByteTable<u64>>, link: usize, source: u8) -> Option<u64>
    ensures { result ≡ asked_in asked.now.items link source }
{
    if link >= asked.len() {
        return None;
    }
    asked[link].get(source)
}

/// The last moment at which an access that needs this permission could be performed.
fn last_in(given: Perm, window: Window) -> u64
    ensures { result ≡ last_in given window }
{
    match given {
        Perm::Trunk => window.writing,
        _ => window.reading,
    }
}

/// Judges the beats of up to 16 links of one manager, in the order in which they were taken. It keeps the unfinished
/// and pending messages of each link, the permissions held, the moments at which blocks could last be accessed, and no
/// beat.
#[derive(Drop)]
pub struct Judge<const W: usize> {
    pub(crate) monitor: Monitor<W>,
    pub(crate) links: u8,
    closed: bool,
    /// The number of beats that were taken.
    pub(crate) moment: u64,
    /// By link, the number of beats taken when the request with each source was complete.
    pub(crate) asked: Vec<ByteTable<u64>>,
    windows: Windows,
    pub(crate) memory: Memory<W>,
}

/// Tables without requests, for this many links.
fn empty_tables(alloc: Global, count: u8) -> Result<Vec<ByteTable<u64>>, AllocError>
    ensures { IfOk result (λ v. length v.items ≡ count) }
{
    let mut tables = Vec::new(alloc);
    for _ in 0..count {
        tables.push(ByteTable::new())?;
    }
    Ok(tables)
}

impl<const W: usize> Judge<W> {
    ghost use Rattle.tl_together.specs.statement.Knows.{KnowsTrace, Knows, IsNew};
    ghost use Rattle.tl_together.specs.statement.Knows.{Answers, fault_but_bytes, fault_of, recorded_after};
    ghost use Rattle.tl_together.specs.code.Judged.{fault_but};

    /// A judge of links of these levels, which has seen no beat. The error is `Levels` unless there are 1 to 16 levels,
    /// or `Memory`.
    pub fn new(alloc: Global, levels: &[Level], profile: Profile) -> Result<Self, JudgeFault>
        requires { IsWidth W }
        ensures { IsNew levels.now (liberties_of profile) result }
    {
        Self::with_liberties(alloc, levels, Liberties::of(profile))
    }

    /// The same for links with these liberties, with the same errors.
    pub fn with_liberties(
        alloc: Global,
        levels: &[Level],
        liberties: Liberties,
    ) -> Result<Self, JudgeFault>
        requires { IsWidth W }
        ensures { IsNew levels.now liberties result }
    {
        let monitor = match Monitor::with_liberties(alloc, levels, liberties) {
            Ok(monitor) => monitor,
            Err(MonitorFault::Levels) => return Err(JudgeFault::Levels),
            Err(_) => return Err(JudgeFault::Memory),
        };
        let links = levels.len() as u8;
        let Ok(asked) = empty_tables(alloc, links) else {
            return Err(JudgeFault::Memory);
        };
        let Ok(memory) = Memory::new(alloc, links) else {
            return Err(JudgeFault::Memory);
        };
        Ok(Judge {
            monitor,
            links,
            closed: false,
            moment: 0,
            asked,
            windows: Windows::new(alloc),
            memory,
        })
    }

    /// Whether the request with this source, which is pending on a link, has had a window.
    fn had_window(&self, link: Link, source: u8, given: Perm, block: u32) -> bool
        ensures { (levels : List Level) (l : Liberties) (t : Trace W) →
            KnowsTrace self.now levels l t →
            link.0 < length levels →
            is_some (open_request source (on_link link.0 t)) ≡ true →
            result ≡ Shown.had_window (length levels) link.0 source given block t }
    {
        if is_free(&self.monitor, self.links, given, block) {
            return true;
        }
        match asked_in(&self.asked, usize::from(link.0), source) {
            None => false,
            Some(asked) => asked <= last_in(given, self.windows.get(block)),
        }
    }

    /// M1, if a Grant that answers this request breaks it.
    fn broken_grant(
        &self,
        change: &Change<W>,
        link: Link,
        x: &BeatD<W>,
        asked: Request,
    ) -> Option<MemoryRule>
        ensures { (levels : List Level) (l : Liberties) (t : Trace W) →
            KnowsTrace self.now levels l t → KnowsFree change.now (length levels) t →
            result ≡ Coherence.broken_grant (length levels) link.0 x.now (Some asked) t }
    {
        let given = capped(x.param);
        let block = asked.block;
        let known_free = change.says_free(block, given);
        if is_grantable(&self.monitor, self.links, link.0, given, block, known_free) {
            None
        } else {
            Some(MemoryRule::M1)
        }
    }

    /// M4, if an answer to this access breaks it.
    fn broken_access(&self, link: Link, x: &BeatD<W>, asked: Request) -> Option<MemoryRule>
        ensures { (levels : List Level) (l : Liberties) (t : Trace W) →
            KnowsTrace self.now levels l t →
            link.0 < length levels →
            is_some (open_request x.now.source (on_link link.0 t)) ≡ true →
            result ≡ Coherence.broken_access (length levels) link.0 x.now (Some asked) t }
    {
        if self.had_window(link, x.source, needs(asked.opcode), asked.block) {
            None
        } else {
            Some(MemoryRule::M4)
        }
    }

    /// The rule of memory that a response breaks with its first beat.
    fn broken_response(&self, change: &Change<W>, link: Link, x: &BeatD<W>) -> Option<MemoryRule>
        ensures { (levels : List Level) (l : Liberties) (t : Trace W) →
            KnowsTrace self.now levels l t → KnowsFree change.now (length levels) t →
            link.0 < length levels →
            result ≡ Coherence.broken_response (length levels) link.0 x.now t }
    {
        let asked = self.monitor.request(link, x.source)?;
        if x.denied {
            return None;
        }
        if is_grant(x.opcode) {
            return self.broken_grant(change, link, x, asked);
        }
        if !is_access_ack(x.opcode) {
            return None;
        }
        self.broken_access(link, x, asked)
    }

    /// M1 or M4, if a beat of a response breaks it. None if the beat doesn't begin the response.
    fn broken_beginning(&self, change: &Change<W>, link: Link, x: &BeatD<W>) -> Option<MemoryRule>
        requires { IsWidth W }
        ensures { (levels : List Level) (l : Liberties) (t : Trace W) →
            KnowsTrace self.now levels l t → KnowsFree change.now (length levels) t →
            link.0 < length levels →
            result ≡ Coherence.broken_beginning (length levels) link.0 x.now t }
    {
        if self.monitor.begins(link, &Beat::D(*x)) {
            self.broken_response(change, link, x)
        } else {
            None
        }
    }

    /// M2 or M3, if a beat of a response breaks it. `change` is the change to the state of memory that the beat makes.
    fn broken_bytes(&self, change: &Change<W>, link: Link, x: &BeatD<W>) -> Option<MemoryRule>
        requires { IsWidth W }
        ensures { (levels : List Level) (l : Liberties) (t : Trace W) →
            KnowsTrace self.now levels l t →
            KeepsRules l levels (link, beat.D x.now) t →
            IsChange change.now self.now.memory (length levels) (link, beat.D x.now) t →
            result ≡ Coherence.broken_bytes (length levels) link.0 x.now t }
    {
        if self.memory.is_true(change, link, x) {
            None
        } else {
            Some(rule_of_bytes(x.opcode))
        }
    }

    /// The rule of memory that a beat breaks, if it breaks none of its link. `change` is the change to the state of
    /// memory that the beat makes.
    pub(crate) fn broken_memory(
        &self,
        change: &Change<W>,
        link: Link,
        beat: &Beat<W>,
    ) -> Option<MemoryRule>
        requires { IsWidth W }
        ensures { (levels : List Level) (l : Liberties) (t : Trace W) →
            KnowsTrace self.now levels l t → KnowsFree change.now (length levels) t →
            KeepsRules l levels (link, beat.now) t →
            IsChange change.now self.now.memory (length levels) (link, beat.now) t →
            result ≡ Coherence.broken_memory (length levels) link.0 beat.now t }
    {
        let Beat::D(x) = beat else {
            return None;
        };
        match self.broken_beginning(change, link, x) {
            None => self.broken_bytes(change, link, x),
            Some(rule) => Some(rule),
        }
    }

    /// The breach of a beat that breaks this rule of memory. A rule of its link comes first.
    fn breach(&self, rule: MemoryRule, link: Link, beat: &Beat<W>) -> Breach
        requires { IsWidth W }
        ensures { (levels : List Level) (l : Liberties) (t : Trace W) →
            KnowsTrace self.now levels l t →
            Some result ≡ Coherence.first_broken (broken_on_link_under l levels (link, beat.now) t) (Some rule) }
    {
        match self.monitor.broken_under(link, beat) {
            Some(of_link) => Breach::OfLink(of_link),
            None => Breach::OfMemory(rule),
        }
    }

    /// Judges a beat of a link by all rules but those that are left, and takes it if it breaks none. After a refusal the
    /// judge is as before, and goes on. The error is `Closed` if `push` refused an earlier beat for a broken rule. It is
    /// made once, so that the compiler can put the functions into it that nothing else calls.
    #[inline(never)]
    fn push_but(&mut self, left: Unjudged, link: Link, beat: &Beat<W>) -> Result<(), JudgeFault>
        requires { IsWidth W }
        ensures answer { (levels : List Level) (l : Liberties) (t : Trace W) (closed : Bool) →
            Knows self.old levels l t closed →
            Answers (fault_but left levels l t closed (link, beat.now)) result }
        ensures knows { (levels : List Level) (l : Liberties) (t : Trace W) (closed : Bool) →
            Knows self.old levels l t closed →
            Knows self.new levels l (recorded_after result (link, beat.now) t) closed }
    {
        if self.closed {
            return Err(JudgeFault::Closed);
        }
        let Some(next) = self.moment.checked_add(1) else {
            return Err(JudgeFault::Memory);
        };
        let asked = answered(&self.monitor, link, beat);
        let Ok(change) = self.memory.change(link, beat, asked, next) else {
            return Err(JudgeFault::Memory);
        };
        if let Some(rule) = judged(self.broken_memory(&change, link, beat), left) {
            return Err(JudgeFault::Broken(self.breach(rule, link, beat)));
        }
        let shown = shown_by(&self.monitor, link, beat);
        let (held, before) = (change.held, change.freedom());
        let noted = note_window(
            &mut self.windows,
            &self.monitor,
            self.links,
            self.moment,
            shown,
            held,
            before,
        );
        let Ok(()) = noted else {
            return Err(JudgeFault::Memory);
        };
        let others = left_by_others(&self.monitor, link, held, before);
        note_request(&mut self.asked, &self.monitor, link, beat, next);
        match self.monitor.try_push(link, beat) {
            Ok(()) => {}
            Err(fault) => return Err(of_monitor(fault)),
        }
        note_shown(&mut self.windows, &self.monitor, shown, link, beat, next);
        let monitor = &self.monitor;
        let free = freed(monitor, self.links, link, beat, held, shown, others);
        self.memory.take(change, link, beat, free, next);
        self.moment = next;
        Ok(())
    }

    /// Judges a beat of a link, and takes it if it breaks no rule. After a refusal the judge is as before, and goes on.
    /// The error is `Closed` if `push` refused an earlier beat for a broken rule.
    #[inline(always)]
    pub fn try_push(&mut self, link: Link, beat: &Beat<W>) -> Result<(), JudgeFault>
        requires { IsWidth W }
        ensures answer { (levels : List Level) (l : Liberties) (t : Trace W) (closed : Bool) →
            Knows self.old levels l t closed →
            Answers (fault_of levels l t closed (link, beat.now)) result }
        ensures knows { (levels : List Level) (l : Liberties) (t : Trace W) (closed : Bool) →
            Knows self.old levels l t closed →
            Knows self.new levels l (recorded_after result (link, beat.now) t) closed }
    {
        self.push_but(Unjudged::Nothing, link, beat)
    }

    /// The same but for M2 and M3, which the caller judges: a response may bring any bytes.
    #[inline(always)]
    pub fn try_push_but_bytes(&mut self, link: Link, beat: &Beat<W>) -> Result<(), JudgeFault>
        requires { IsWidth W }
        ensures answer { (levels : List Level) (l : Liberties) (t : Trace W) (closed : Bool) →
            Knows self.old levels l t closed →
            Answers (fault_but_bytes levels l t closed (link, beat.now)) result }
        ensures knows { (levels : List Level) (l : Liberties) (t : Trace W) (closed : Bool) →
            Knows self.old levels l t closed →
            Knows self.new levels l (recorded_after result (link, beat.now) t) closed }
    {
        self.push_but(Unjudged::Bytes, link, beat)
    }

    /// Judges a beat of a link, and takes it if it breaks no rule. After a broken rule it answers every call with
    /// `Closed`. After `Memory` the judge is as before.
    pub fn push(&mut self, link: Link, beat: &Beat<W>) -> Result<(), JudgeFault>
        requires { IsWidth W }
        ensures answer { (levels : List Level) (l : Liberties) (t : Trace W) (closed : Bool) →
            Knows self.old levels l t closed →
            Answers (fault_of levels l t closed (link, beat.now)) result }
        ensures knows { (levels : List Level) (l : Liberties) (t : Trace W) (closed : Bool) →
            Knows self.old levels l t closed →
            Knows self.new levels l (recorded_after result (link, beat.now) t) (closed_after closed result) }
    {
        match self.try_push(link, beat) {
            Ok(()) => Ok(()),
            Err(fault) => {
                self.closed = is_closed_after(self.closed, fault);
                Err(fault)
            }
        }
    }
}
