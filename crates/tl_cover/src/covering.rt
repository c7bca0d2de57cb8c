//! Counts the situations of a trace, beat by beat.

ghost use Rattle.std.specs.List.{flat_map};
ghost use Rattle.std.specs.Prelude.{◌++◌, ℕ, Bool, false, List, [], ◌≡◌, ◌<◌, ◌∷◌, IfOk, OnOk, length, map};
ghost use Rattle.tl_beat.specs.declared.beat.Beat.{Beat};
ghost use Rattle.tl_beat.specs.statement.Width.{IsWidth};
ghost use Rattle.tl_cover.specs.code.Covering.{AreUnused, KnowsLink, opening_of};
ghost use Rattle.tl_cover.specs.statement.Covered.{bin_on, cells, covered, table};
ghost use Rattle.tl_cover.specs.statement.Covers.{cells_of};
ghost use Rattle.tl_cover.specs.statement.Scene as scenes;
ghost use Rattle.tl_params.specs.declared.level.Level.{Level};
ghost use Rattle.tl_params.specs.declared.liberties.Liberties.{Liberties};
ghost use Rattle.tl_rules.specs.statement.Conformance.{Trace};

use crate::acknowledged::awaits_any;
use crate::asked::found;
use crate::blocks::has;
use crate::counts::{new_rows, note_all};
use crate::past::LinkPast;
use crate::row::{LinkBin, Row, one_more};
use crate::scene::{NOTHING, Scene, Standing, is_same};
use crate::situation::Situation;
use crate::stretch::OF_ALL;
use std::alloc::{AllocError, Global};
use tl_beat::beat::{Beat, Link};
use tl_monitor::fault::MonitorFault;
use tl_monitor::monitor::Monitor;
use tl_rules::level::Level;
use tl_rules::liberties::Liberties;
use tl_rules::perm::Perm;

/// Judges the beats of up to 16 links as a monitor does, and counts the situations in which their messages begin. It
/// keeps the pending messages and the held permissions of each link, and no data of beats.
#[derive(Drop)]
pub struct Covering<const W: usize> {
    monitor: Monitor<W>,
    pasts: Vec<LinkPast>,
    liberties: Liberties,
    /// The number of links.
    count: u8,
    rows: Vec<Row>,
    /// The line of the newest beat in a trace; 1 if there is none.
    line: u64,
}

/// The pasts of links of these levels without beats.
fn new_pasts(alloc: Global, levels: &[Level]) -> Result<Vec<LinkPast>, AllocError>
    ensures unused { IfOk result (λ pasts. AreUnused pasts.items) }
    ensures levels { IfOk result (λ pasts. map (λ p. p.level) pasts.items ≡ levels.now) }
{
    let mut pasts = Vec::new(alloc);
    for level in levels {
        pasts.push(LinkPast::new(alloc, *level)?)?;
    }
    Ok(pasts)
}

/// Appends the counts of all bins on links with these pasts.
fn append_tables<const W: usize>(
    liberties: Liberties,
    pasts: &[LinkPast],
    cells: &mut Vec<Option<u64>>,
) -> Result<(), AllocError>
    requires { IsWidth W }
    ensures { OnOk result (cells.new.items ≡ cells.old.items ++ flat_map (cells_of W liberties) pasts.now) }
{
    for past in pasts {
        past.append_cells::<W>(liberties, cells)?;
    }
    Ok(())
}

impl<const W: usize> Covering<W> {
    ghost use Rattle.tl_cover.specs.statement.Covers.{Covers, CoversAfter, Follows, IsNewCovering, bin_in, cells_in, rows_in, table_in};
    ghost use Rattle.tl_monitor.specs.statement.Knows.{Answers, KnowsUnder, fault_under};

    /// A covering of links of these levels and liberties, which has judged no beat. The error is `Levels` if there
    /// aren't 1 to 16 levels, otherwise `Memory`.
    pub fn new(alloc: Global, levels: &[Level], liberties: Liberties) -> Result<Self, MonitorFault>
        requires { IsWidth W }
        ensures { IsNewCovering levels.now liberties result }
    {
        let monitor = Monitor::with_liberties(alloc, levels, liberties)?;
        let Ok(pasts) = new_pasts(alloc, levels) else {
            return Err(MonitorFault::Memory);
        };
        let Ok(rows) = new_rows(alloc, &Situation::ALL) else {
            return Err(MonitorFault::Memory);
        };
        Ok(Covering {
            monitor,
            pasts,
            liberties,
            count: levels.len() as u8,
            rows,
            line: 1,
        })
    }

    /// All situations, with their counts and their first lines.
    pub fn rows(&self) -> &[Row]
        ensures value { result.now ≡ rows_in self.now }
        ensures covered { (levels : List Level) (l : Liberties) (t : Trace W) (closed : Bool) →
            Covers self.now levels l t closed → result.now ≡ covered l (length levels) t }
    {
        &self.rows
    }

    /// The table of a link: its bins, with their counts and their first lines; none if there is no such link.
    pub fn table(&self, link: Link) -> &[Row]
        ensures value { result.now ≡ table_in self.now link.0 }
        ensures counted { (levels : List Level) (l : Liberties) (t : Trace W) (closed : Bool) →
            Covers self.now levels l t closed → link.0 < length levels →
            result.now ≡ table l (length levels) link.0 t }
    {
        match self.pasts.get(usize::from(link.0)) {
            None => &[],
            Some(past) => &past.rows,
        }
    }

    /// The bin with this number on a link; None if there is no such link or no such bin.
    pub fn bin(&self, link: Link, number: usize) -> Option<LinkBin>
        requires { IsWidth W }
        ensures value { result ≡ bin_in self.now link.0 number }
        ensures counted { (levels : List Level) (l : Liberties) (t : Trace W) (closed : Bool) →
            Covers self.now levels l t closed → result ≡ bin_on l levels link.0 t number }
    {
        match self.pasts.get(usize::from(link.0)) {
            None => None,
            Some(past) => past.bin::<W>(self.liberties, number),
        }
    }

    /// The counts of all bins on all links, link after link; None for a bin that a link can't have, by its level and its
    /// liberties, and that didn't come.
    pub fn cells(&self, alloc: Global) -> Result<Vec<Option<u64>>, AllocError>
        requires { IsWidth W }
        ensures value { IfOk result (λ cells. cells.items ≡ cells_in self.now) }
        ensures counted { IfOk result (λ it. (levels : List Level) (l : Liberties) (t : Trace W) (closed : Bool) →
            Covers self.now levels l t closed → it.items ≡ cells l levels t) }
    {
        let mut cells = Vec::new(alloc);
        append_tables::<W>(self.liberties, &self.pasts, &mut cells)?;
        Ok(cells)
    }

    /// Whether an Acquire of a block is pending on link `m`, another than this one.
    fn is_acquiring(&self, m: u8, link: Link, block: u32) -> bool
        ensures { (levels : List Level) (l : Liberties) (t : Trace W) (closed : Bool) →
            Covers self.now levels l t closed → m < length levels →
            result ≡ scenes.acquires_beside link.0 block t m }
    {
        match self.pasts.get(usize::from(m)) {
            None => false,
            Some(past) => m != link.0 && has(&past.acquires, block),
        }
    }

    /// The number of other links on which an Acquire of a block is pending.
    fn acquiring(&self, link: Link, block: u32) -> usize
        ensures { (levels : List Level) (l : Liberties) (t : Trace W) (closed : Bool) →
            Covers self.now levels l t closed → result ≡ scenes.acquiring (length levels) link.0 block t }
    {
        let mut number = 0;
        for m in 0..self.count {
            number += usize::from(self.is_acquiring(m, link, block));
        }
        number
    }

    /// Whether a Grant is incomplete on link `m`, another than this one.
    fn is_granting(&self, m: u8, link: Link) -> bool
        ensures { (levels : List Level) (l : Liberties) (t : Trace W) (closed : Bool) →
            Covers self.now levels l t closed → m < length levels →
            result ≡ scenes.grants_beside link.0 t m }
    {
        match self.pasts.get(usize::from(m)) {
            None => false,
            Some(past) => m != link.0 && past.is_granting(),
        }
    }

    /// The number of other links on which a Grant is incomplete.
    fn granting(&self, link: Link) -> usize
        ensures { (levels : List Level) (l : Liberties) (t : Trace W) (closed : Bool) →
            Covers self.now levels l t closed → result ≡ scenes.granting (length levels) link.0 t }
    {
        let mut number = 0;
        for m in 0..self.count {
            number += usize::from(self.is_granting(m, link));
        }
        number
    }

    /// Whether link `m`, another than this one, holds this permission of a block.
    fn is_holder(&self, m: u8, link: Link, block: u32, held: Perm) -> bool
        ensures { (levels : List Level) (l : Liberties) (t : Trace W) (closed : Bool) →
            Covers self.now levels l t closed → m < length levels →
            result ≡ scenes.holds_beside l link.0 block held t m }
    {
        m != link.0 && is_same(self.monitor.held_under(Link(m), block), held)
    }

    /// The number of other links that hold this permission of a block.
    fn holders(&self, link: Link, block: u32, held: Perm) -> usize
        ensures { (levels : List Level) (l : Liberties) (t : Trace W) (closed : Bool) →
            Covers self.now levels l t closed → result ≡ scenes.holders l (length levels) link.0 block held t }
    {
        let mut number = 0;
        for m in 0..self.count {
            number += usize::from(self.is_holder(m, link, block, held));
        }
        number
    }

    /// The state of a block, for a message on a link; `NOTHING` without a block.
    fn standing(&self, link: Link, past: &LinkPast, block: Option<u32>) -> Standing
        ensures { (levels : List Level) (l : Liberties) (t : Trace W) (closed : Bool) →
            Covers self.now levels l t closed → link.0 < length levels →
            KnowsLink l (length levels) past.now link.0 t →
            result ≡ scenes.standing_of l (length levels) link.0 block t }
    {
        let Some(block) = block else {
            return NOTHING;
        };
        Standing {
            held: self.monitor.held_under(link, block),
            acquire: has(&past.acquires, block),
            release: has(&past.releases, block),
            probe: found(&past.probes, block).is_some(),
            grant_ack: awaits_any(&past.awaited, block),
            acquiring: self.acquiring(link, block),
            owners: self.holders(link, block, Perm::Trunk),
            readers: self.holders(link, block, Perm::Branch),
        }
    }

    /// The facts about the message that begins with a beat; None if it doesn't begin one.
    fn opening(&self, link: Link, past: &LinkPast, beat: &Beat<W>) -> Option<Scene>
        ensures { (levels : List Level) (l : Liberties) (t : Trace W) (closed : Bool) →
            Covers self.now levels l t closed → link.0 < length levels →
            KnowsLink l (length levels) past.now link.0 t →
            result ≡ opening_of l (length levels) link.0 beat.now t }
    {
        if !self.monitor.begins(link, beat) {
            return None;
        }
        let block = past.block_named(beat);
        Some(Scene {
            line: self.line,
            asked: past.asked_of(block),
            block: self.standing(link, past, block),
            waiting: past.sinks.len(),
            depth: past.depth(beat),
            request: past.request_named(beat),
            previous: past.newest,
            answered: past.answered(beat),
            between: past.is_between(),
            granting: self.granting(link),
        })
    }

    /// Takes a beat that the monitor has taken, with the facts about the message that begins with it.
    fn take(&mut self, link: Link, beat: &Beat<W>, opening: Option<Scene>) -> Result<(), AllocError>
        requires width { IsWidth W }
        requires within { link.0 < length self.old.pasts.items }
        ensures follows { OnOk result ((levels : List Level) (l : Liberties) (t : Trace W) →
            KnowsUnder self.old.monitor levels l ((link, beat.now) ∷ t) false →
            opening ≡ opening_of l (length levels) link.0 beat.now t → Follows self.old (length levels) l t →
            Follows self.new (length levels) l ((link, beat.now) ∷ t)) }
        ensures monitor { self.new.monitor ≡ self.old.monitor }
        ensures levels { OnOk result (map (λ p. p.level) self.new.pasts.items
            ≡ map (λ p. p.level) self.old.pasts.items) }
        ensures liberties { self.new.liberties ≡ self.old.liberties }
    {
        let last = self.monitor.begins(link, beat);
        self.line = one_more(self.line)?;
        note_all(&mut self.rows, &OF_ALL, self.line, beat, opening)?;
        self.pasts[usize::from(link.0)].take(self.line, opening, last, beat)
    }

    /// Judges a beat of a link as a monitor does, and counts it if it breaks no rule. After a broken rule each call
    /// returns `Closed`. After `Memory` the rows may differ from those of the beats that were taken.
    pub fn push(&mut self, link: Link, beat: &Beat<W>) -> Result<(), MonitorFault>
        requires { IsWidth W }
        ensures answer { (levels : List Level) (l : Liberties) (t : Trace W) (closed : Bool) →
            Covers self.old levels l t closed → Answers (fault_under levels l t closed (link, beat.now)) result }
        ensures covers { (levels : List Level) (l : Liberties) (t : Trace W) (closed : Bool) →
            Covers self.old levels l t closed → CoversAfter result self.new levels l (link, beat.now) t }
    {
        let n = usize::from(link.0);
        if n >= self.pasts.len() {
            return self.monitor.push(link, beat);
        }
        let opening = self.opening(link, &self.pasts[n], beat);
        match self.monitor.push(link, beat) {
            Ok(()) => match self.take(link, beat, opening) {
                Ok(()) => Ok(()),
                Err(_) => Err(MonitorFault::Memory),
            },
            Err(fault) => Err(fault),
        }
    }
}
