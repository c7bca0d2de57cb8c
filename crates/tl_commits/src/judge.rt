//! A judge of beats and commits.

ghost use Rattle.std.specs.Prelude.{ℕ, List, ◌∷◌, None, Some, Err, OnErr, OnOk, ◌≡◌, ◌<◌, if◌then◌else◌, length};
ghost use Rattle.std.specs.Prelude.{slice_get};
ghost use Rattle.tl_beat.specs.declared.beat.Beat.{Beat};
ghost use Rattle.tl_beat.specs.declared.beat.Link.{Link};
ghost use Rattle.tl_beat.specs.statement.Width.{IsWidth};
ghost use Rattle.tl_params.specs.declared.level.Level.{Level};
ghost use Rattle.tl_params.specs.declared.liberties.Liberties.{Liberties};
ghost use Rattle.tl_memory.specs.statement.Links.{KeepsRules};
ghost use Rattle.tl_together.specs.statement.Coherence.{broken_together};
ghost use Rattle.tl_commits.specs.code.BlockValues.{says_piece};
ghost use Rattle.tl_commits.specs.code.Judging as code;
ghost use Rattle.tl_commits.specs.code.ValueTable.{KnowsTable};
ghost use Rattle.tl_events.specs.declared.commit.Event.{Event};
ghost use Rattle.tl_commits.specs.code.Granting.{AreMet};
ghost use Rattle.tl_commits.specs.code.Reading.{IsMet};
ghost use Rattle.tl_commits.specs.statement.Completeness.{Completeness};
ghost use Rattle.tl_commits.specs.statement.Breaches.{breach_of, broken_event, has_cache};
ghost use Rattle.tl_events.specs.statement.CommitLine.{IsCommit, IsPiece};
ghost use Rattle.tl_commits.specs.statement.Commits;
ghost use Rattle.tl_commits.specs.statement.Events.{Events, beats_of};
ghost use Rattle.tl_commits.specs.statement.Knows.{Answers, recorded_after};

use crate::block_values::BlockValues;
use crate::commits::broken_store;
use crate::copies::is_complete;
use crate::fault::{CommitFault, of_judge, of_rule};
use crate::giving_back::{carrier, gives_truly};
use crate::giving_up::{holds_trunk, keeps_stores};
use crate::granting::{GrantBytes, any_grants, grants_truly, meet_grant};
use crate::loading::{Loading, begin, forget, has_begun, load_of};
use crate::next_values::next_values;
use crate::piece_values::{load_piece, store_piece};
use crate::reading::Reading;
use crate::readings::{meet_reading, reads_truly, take_beat};
use crate::renewing::{renew, renewed};
use crate::rule::CommitBreach;
use crate::value_table::ValueTable;
use std::alloc::{AllocError, Global};
use tl_beat::beat::{Beat, Link};
use tl_events::commit::{Commit, Event, Piece};
use tl_events::rule::CommitRule;
use tl_memory::message::{both, either};
use tl_rules::key::block_at;
use tl_rules::level::Level;
use tl_rules::liberties::Liberties;
use tl_rules::memory_rule::MemoryRule;
use tl_rules::rule::Rule;
use tl_together::breach::Breach;
use tl_together::fault::JudgeFault;
use tl_together::judge::Judge;

/// Judges beats and commits of up to 16 links of one manager, in the order in which they were seen: beats by all rules, and
/// commits by L1, M5 and M6. It keeps the possible values of the bytes of blocks, the bytes that each unfinished Grant may
/// bring and each pending access may have found, the loads that have begun with the bytes that each could bring since, and
/// no event.
#[derive(Drop)]
pub struct CommitJudge<const W: usize> {
    alloc: Global,
    pub(crate) judge: Judge<W>,
    pub(crate) levels: Vec<Level>,
    /// Whether all stores of each link are in the trace.
    pub(crate) complete: Vec<bool>,
    pub(crate) loads: Vec<Loading>,
    pub(crate) values: ValueTable,
    /// For each link the bytes that its unfinished Grant may bring.
    pub(crate) grants: Vec<GrantBytes>,
    /// The bytes that pending accesses may have found.
    pub(crate) readings: Vec<Reading>,
}

/// Whether a link has a cache: it has a level, C.
fn has_cache(levels: &Vec<Level>, link: Link) -> bool
    ensures { result ≡ has_cache (slice_get levels.now.items link.0) }
{
    match levels.get(usize::from(link.0)) {
        Some(level) => *level == Level::C,
        None => false,
    }
}

/// This rule, unless an event keeps it.
fn unless_kept(keeps: bool, rule: CommitRule) -> Option<CommitRule>
    ensures { result ≡ (if keeps then None else Some rule) }
{
    if keeps { None } else { Some(rule) }
}

impl<const W: usize> CommitJudge<W> {
    ghost use Rattle.tl_events.specs.declared.commit.Event.TheVariants as event;
    ghost use Rattle.tl_events.specs.declared.commit.Commit.TheVariants as commit;
    ghost use Rattle.tl_commits.specs.statement.Knows.{IsEvent, IsNew, KnowsCommits};

    /// A judge of links of these levels and with these liberties, which has seen no event. `complete` says for each link
    /// whether all its stores will be in the trace, and `zero` whether memory was zero before it. The error is `Levels`
    /// unless there are 1 to 16 levels, or `Memory`.
    pub fn with_liberties(
        alloc: Global,
        levels: &[Level],
        complete: &[bool],
        zero: bool,
        liberties: Liberties,
    ) -> Result<Self, CommitFault>
        requires { IsWidth W }
        ensures { IsNew levels.now (record { stores = complete.now; zero = zero }) liberties result }
    {
        let judge = match Judge::with_liberties(alloc, levels, liberties) {
            Ok(judge) => judge,
            Err(JudgeFault::Levels) => return Err(CommitFault::Levels),
            Err(_) => return Err(CommitFault::Memory),
        };
        let Ok(levels) = Vec::from_slice(alloc, levels) else {
            return Err(CommitFault::Memory);
        };
        let Ok(complete) = Vec::from_slice(alloc, complete) else {
            return Err(CommitFault::Memory);
        };
        let Ok(grants) = any_grants(alloc, levels.len()) else {
            return Err(CommitFault::Memory);
        };
        let Ok(values) = ValueTable::new(alloc, zero) else {
            return Err(CommitFault::Memory);
        };
        Ok(CommitJudge {
            alloc,
            judge,
            levels,
            complete,
            loads: Vec::new(alloc),
            values,
            grants,
            readings: Vec::new(alloc),
        })
    }

    /// M7, if a beat breaks it.
    fn broken_report(&self, link: Link, beat: &Beat<W>) -> Option<CommitRule>
        requires { IsWidth W }
        ensures { (levels : List Level) (complete : Completeness) (l : Liberties) (e : Events W) →
            KnowsCommits self.now levels complete l e → KeepsRules l levels (link, beat.now) (beats_of e) →
            result ≡ Commits.broken_report complete (length levels) link.0 beat.now e }
    {
        let complete = is_complete(&self.complete, link);
        if let Some(x) = carrier(beat) {
            return unless_kept(
                gives_truly(&self.judge, &self.values, complete, link, x),
                CommitRule::M7,
            );
        }
        unless_kept(
            keeps_stores(&self.judge, &self.values, complete, link, beat),
            CommitRule::M7,
        )
    }

    /// The fault of a beat by the rule of beats alone that it breaks, or by this one if it breaks none. All that is known
    /// stays true.
    fn refused(&mut self, other: CommitBreach, link: Link, beat: &Beat<W>) -> CommitFault
        requires { IsWidth W }
        ensures answer { (levels : List Level) (complete : Completeness) (l : Liberties) (e : Events W) →
            KnowsCommits self.old levels complete l e →
            Answers (code.breach_or (broken_together levels l (link, beat.now) (beats_of e)) other) (Err result) }
        ensures knows { (levels : List Level) (complete : Completeness) (l : Liberties) (e : Events W) →
            KnowsCommits self.old levels complete l e → KnowsCommits self.new levels complete l e }
    {
        match self.judge.broken(link, beat) {
            Ok(Some(breach)) => CommitFault::Broken(CommitBreach::OfBeats(breach)),
            Ok(None) => CommitFault::Broken(other),
            Err(_) => CommitFault::Memory,
        }
    }

    /// Keeps the bytes that a GrantData may bring, if one begins with a beat, and makes a reading, if the beat is of a Get or an
    /// atomic. The error means that there is no memory left. All that is known stays true in either case.
    pub(crate) fn meet(&mut self, link: Link, beat: &Beat<W>) -> Result<(), AllocError>
        ensures knows { (levels : List Level) (complete : Completeness) (l : Liberties) (e : Events W) →
            KnowsCommits self.old levels complete l e → KnowsCommits self.new levels complete l e }
        ensures met { OnOk result ((levels : List Level) (complete : Completeness) (l : Liberties) (e : Events W) →
            KnowsCommits self.old levels complete l e → KeepsRules l levels (link, beat.now) (beats_of e) →
            AreMet self.new.grants.items complete (length levels) link.0 beat.now e) }
        ensures read { OnOk result (IsMet self.new.readings.items link.0 beat.now) }
    {
        let (judge, values) = (&self.judge, &self.values);
        meet_grant(self.alloc, judge, values, &mut self.grants, link, beat)?;
        meet_reading(&mut self.readings, link, beat)
    }

    /// M2 or M3, if the bytes of a beat break it.
    fn broken_bytes(&self, link: Link, beat: &Beat<W>) -> Option<MemoryRule>
        requires { IsWidth W }
        ensures { (levels : List Level) (complete : Completeness) (l : Liberties) (e : Events W) →
            KnowsCommits self.now levels complete l e → KeepsRules l levels (link, beat.now) (beats_of e) →
            AreMet self.now.grants.items complete (length levels) link.0 beat.now e →
            result ≡ code.broken_bytes complete (length levels) link.0 beat.now e }
    {
        if !grants_truly(&self.judge, &self.grants, link, beat) {
            return Some(MemoryRule::M2);
        }
        if !reads_truly(&self.judge, &self.readings, link, beat) {
            return Some(MemoryRule::M3);
        }
        None
    }

    /// Takes the values of a block after an event that the judge of beats took, if they change, and renews the loads.
    fn record(&mut self, next: Option<(u32, BlockValues)>)
        requires { IsWidth W }
        ensures { code.IsRecorded self.old self.new next }
    {
        if let Some((block, values)) = next {
            self.values.put(block, values);
        }
        renew(&self.judge, &self.values, &self.complete, &mut self.loads);
    }

    /// Judges a beat, and takes it if it breaks no rule.
    fn take_beat(&mut self, link: Link, beat: &Beat<W>) -> Result<(), CommitFault>
        requires { IsWidth W }
        ensures answer { (levels : List Level) (complete : Completeness) (l : Liberties) (e : Events W) →
            KnowsCommits self.old levels complete l e →
            Answers (broken_event levels complete l link (event.Beat beat.now) e) result }
        ensures knows { (levels : List Level) (complete : Completeness) (l : Liberties) (e : Events W) →
            KnowsCommits self.old levels complete l e →
            KnowsCommits self.new levels complete l (recorded_after result (link, event.Beat beat.now) e) }
    {
        if let Some(rule) = self.broken_report(link, beat) {
            return Err(self.refused(CommitBreach::OfCommits(rule), link, beat));
        }
        let Ok(()) = self.meet(link, beat) else {
            return Err(CommitFault::Memory);
        };
        if let Some(rule) = self.broken_bytes(link, beat) {
            let breach = Breach::OfMemory(rule);
            return Err(self.refused(CommitBreach::OfBeats(breach), link, beat));
        }
        let Ok(next) = next_values(self.alloc, &self.judge, &mut self.values, link, beat) else {
            return Err(CommitFault::Memory);
        };
        let shown = self.judge.shown(link, beat);
        match self.judge.try_push_but_bytes(link, beat) {
            Ok(()) => {}
            Err(fault) => return Err(of_judge(fault)),
        }
        self.record(next);
        let (judge, values) = (&self.judge, &self.values);
        take_beat(judge, values, &mut self.readings, link, beat, shown);
        Ok(())
    }

    /// Judges a store, and takes it if it breaks no rule.
    fn take_store(&mut self, link: Link, piece: Piece, value: u64) -> Result<(), CommitFault>
        requires { IsWidth W }
        ensures answer { (levels : List Level) (complete : Completeness) (l : Liberties) (e : Events W) →
            KnowsCommits self.old levels complete l e → link.0 < length levels →
            Answers (breach_of None (Commits.broken_store link.0 piece e)) result }
        ensures knows { (levels : List Level) (complete : Completeness) (l : Liberties) (e : Events W) →
            KnowsCommits self.old levels complete l e → link.0 < length levels → IsPiece piece →
            KnowsCommits self.new levels complete l
            (recorded_after result (link, event.Commit (commit.Store piece value)) e) }
    {
        if let Some(rule) = broken_store(&self.judge, link, piece) {
            return Err(of_rule(rule));
        }
        let stored = store_piece(self.alloc, &self.judge, &mut self.values, piece, value);
        let Ok(()) = stored else {
            return Err(CommitFault::Memory);
        };
        self.record(None);
        Ok(())
    }

    /// Whether a load of a piece says bytes of its link's copy.
    fn says_piece(&self, link: Link, piece: Piece) -> bool
        ensures { (levels : List Level) (complete : Completeness) (l : Liberties) (e : Events W) →
            KnowsCommits self.now levels complete l e → link.0 < length levels →
            result ≡ says_piece complete link.0 piece e }
    {
        let complete = is_complete(&self.complete, link);
        let held = holds_trunk(&self.judge, link, block_at(piece.address));
        let begun = has_begun(self.loads.as_slice(), link, piece);
        both(!begun, either(complete, !held))
    }

    /// The rule that a load breaks: M5 or M6.
    fn broken_load(&self, link: Link, piece: Piece, value: u64) -> Option<CommitRule>
        requires { IsWidth W }
        ensures { (levels : List Level) (complete : Completeness) (l : Liberties) (e : Events W) →
            KnowsCommits self.now levels complete l e → link.0 < length levels → IsPiece piece →
            result ≡ Commits.broken_load complete (length levels) link.0 piece value e }
    {
        let begun = load_of(self.loads.as_slice(), link, piece);
        let load = renewed(&self.judge, &self.values, &self.complete, begun);
        if !load.loadable {
            return Some(CommitRule::M5);
        }
        unless_kept(load.brings(value), CommitRule::M6)
    }

    /// Judges a load, and takes it if it breaks no rule.
    fn take_load(&mut self, link: Link, piece: Piece, value: u64) -> Result<(), CommitFault>
        requires { IsWidth W }
        ensures answer { (levels : List Level) (complete : Completeness) (l : Liberties) (e : Events W) →
            KnowsCommits self.old levels complete l e → link.0 < length levels → IsPiece piece →
            Answers (breach_of None (Commits.broken_load complete (length levels) link.0 piece value e)) result }
        ensures knows { (levels : List Level) (complete : Completeness) (l : Liberties) (e : Events W) →
            KnowsCommits self.old levels complete l e → link.0 < length levels → IsPiece piece →
            KnowsCommits self.new levels complete l
            (recorded_after result (link, event.Commit (commit.Load piece value)) e) }
    {
        if let Some(rule) = self.broken_load(link, piece, value) {
            return Err(of_rule(rule));
        }
        let Ok(()) = self.load_values(link, piece, value) else {
            return Err(CommitFault::Memory);
        };
        forget(&mut self.loads, link, piece);
        self.record(None);
        Ok(())
    }

    /// Takes a load into the values of its block, if it says bytes. The error means that there is no memory left; then all
    /// that is known stays true.
    fn load_values(&mut self, link: Link, piece: Piece, value: u64) -> Result<(), AllocError>
        requires { IsWidth W }
        ensures same { code.IsSameBut self.old self.new }
        ensures kept { OnErr result ((complete : Completeness) (n : ℕ) (e : Events W) →
            KnowsTable self.old.values complete n e → KnowsTable self.new.values complete n e) }
        ensures loaded { OnOk result ((levels : List Level) (complete : Completeness) (l : Liberties) (e : Events W) →
            KnowsCommits self.old levels complete l e → link.0 < length levels → IsPiece piece →
            KnowsTable self.new.values complete (length levels)
            ((link, event.Commit (commit.Load piece value)) ∷ e)) }
    {
        if !self.says_piece(link, piece) {
            return Ok(());
        }
        load_piece(
            self.alloc,
            &self.judge,
            &mut self.values,
            link,
            piece,
            value,
        )
    }

    /// Takes the beginning of a load of a piece. The error is `Memory`; then nothing changes.
    fn take_begin(&mut self, link: Link, piece: Piece) -> Result<(), CommitFault>
        requires { IsWidth W }
        ensures answer { Answers None result }
        ensures knows { (levels : List Level) (complete : Completeness) (l : Liberties) (e : Events W) →
            KnowsCommits self.old levels complete l e → link.0 < length levels → IsPiece piece →
            KnowsCommits self.new levels complete l (recorded_after result (link, event.Commit (commit.Begin piece)) e) }
    {
        if begin(&mut self.loads, link, piece).is_err() {
            return Err(CommitFault::Memory);
        }
        self.record(None);
        Ok(())
    }

    /// Judges a commit, and takes it if it breaks no rule.
    fn take_commit(&mut self, link: Link, commit: Commit) -> Result<(), CommitFault>
        requires { IsWidth W }
        ensures answer { (levels : List Level) (complete : Completeness) (l : Liberties) (e : Events W) →
            KnowsCommits self.old levels complete l e → IsCommit commit →
            Answers (broken_event levels complete l link (event.Commit commit) e) result }
        ensures knows { (levels : List Level) (complete : Completeness) (l : Liberties) (e : Events W) →
            KnowsCommits self.old levels complete l e → IsCommit commit →
            KnowsCommits self.new levels complete l (recorded_after result (link, event.Commit commit) e) }
    {
        if !has_cache(&self.levels, link) {
            let breach = CommitBreach::OfBeats(Breach::OfLink(Rule::L1));
            return Err(CommitFault::Broken(breach));
        }
        match commit {
            Commit::Store { piece, value } => self.take_store(link, piece, value),
            Commit::Load { piece, value } => self.take_load(link, piece, value),
            Commit::Begin { piece } => self.take_begin(link, piece),
        }
    }

    /// Judges an event of a link, and takes it if it breaks no rule. After a refusal the judge is as before, and goes
    /// on.
    pub fn try_push(&mut self, link: Link, event: &Event<W>) -> Result<(), CommitFault>
        requires { IsWidth W }
        ensures answer { (levels : List Level) (complete : Completeness) (l : Liberties) (e : Events W) →
            KnowsCommits self.old levels complete l e → IsEvent event.now →
            Answers (broken_event levels complete l link event.now e) result }
        ensures knows { (levels : List Level) (complete : Completeness) (l : Liberties) (e : Events W) →
            KnowsCommits self.old levels complete l e → IsEvent event.now →
            KnowsCommits self.new levels complete l (recorded_after result (link, event.now) e) }
    {
        match event {
            Event::Beat(beat) => self.take_beat(link, beat),
            Event::Commit(commit) => self.take_commit(link, *commit),
        }
    }
}
