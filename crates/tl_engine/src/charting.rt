//! Judges a recorded trace, and gathers the drawing of it.

ghost use Rattle.std.specs.Prelude.{◌≡◌, ◌<◌, [], ◌∷◌, List, ℕ, IfOk, OnOk, false, length};
ghost use Rattle.tl_beat.specs.declared.beat.Beat.{Beat};
ghost use Rattle.tl_beat.specs.statement.Line.{Spells};
ghost use Rattle.tl_beat.specs.statement.Width.{IsWidth};
ghost use Rattle.tl_chart.specs.code.Gathered.{Gathers, watched};
ghost use Rattle.tl_chart.specs.code.Moment.{change_of};
ghost use Rattle.tl_chart.specs.statement.Drawn.{Holding, fault_drawn, holds};
ghost use Rattle.tl_engine.specs.code.Charting.{BeginsChart, EndsChart, IsBegun, KnowsChart, GathersLine};
ghost use Rattle.tl_engine.specs.code.Charting.{fault_of_chart, gatherer_in};
ghost use Rattle.tl_lines.specs.declared.fault.Fault.TheVariants.{Rule as Breaks};
ghost use Rattle.tl_lines.specs.statement.JudgedLinks.{JudgedLinks};
ghost use Rattle.tl_explain.specs.statement.Evidence.{next_line};
ghost use Rattle.tl_monitor.specs.statement.Knows.{KnowsUnder};
ghost use Rattle.tl_params.specs.declared.level.Level.{Level};
ghost use Rattle.tl_params.specs.declared.liberties.Liberties.{Liberties};
ghost use Rattle.tl_rules.specs.statement.Conformance.{Trace, on_link, same_perm};
ghost use Rattle.tl_rules.specs.statement.History.{begins};
ghost use Rattle.tl_rules.specs.statement.Liberties.{held_under};

use std::alloc::{AllocError, Global};
use std::mem;
use tl_beat::beat::{Beat, Link};
use tl_beat::fault::LineFault;
use tl_beat::read::read_line;
use tl_chart::arrow::{Arrow, Moment};
use tl_chart::gatherer::Gatherer;
use tl_chart::window::Window;
use tl_lines::fault::Fault;
use tl_lines::line_handler::LineHandler;
use tl_lines::links_header::LinksHeader;
use tl_lines::monitor_lines::append_end;
use tl_lines::trace_judge::read_for;
use tl_monitor::fault::MonitorFault;
use tl_monitor::monitor::Monitor;
use tl_params::liberties::Liberties;
use tl_params::perm::Perm;
use tl_params::width::Width;
use tl_rules::rule::Rule;

/// A monitor of the links of a trace, and the drawing of its beats.
#[derive(Drop)]
pub struct Charting<const W: usize> {
    monitor: Monitor<W>,
    gatherer: Gatherer,
    /// The beat at fault, if it is drawn.
    fault: Option<Arrow>,
    /// The number of lines that have been read, without a fault.
    count: u64,
}

/// The permission that a link holds of a block.
fn held_on<const W: usize>(monitor: &Monitor<W>, link: Link, block: Option<u32>) -> Perm
    ensures { (levels : List Level) (may : Liberties) (t : Trace W) → KnowsUnder monitor.now levels may t false →
        link.0 < length levels → result ≡ holds (held_under may) block link t }
{
    match block {
        None => Perm::None,
        Some(block) => monitor.held_under(link, block),
    }
}

/// Whether the permissions are the same.
fn is_same(one: Perm, other: Perm) -> bool
    ensures { result ≡ same_perm one other }
{
    one == other
}

/// The permission that a link holds of a block after a beat that the monitor has taken, if it was another before.
fn changed_from<const W: usize>(
    monitor: &Monitor<W>,
    link: Link,
    block: Option<u32>,
    before: Perm,
) -> Option<Perm>
    ensures { (levels : List Level) (may : Liberties) (beat : Beat W) (t : Trace W) →
        KnowsUnder monitor.now levels may ((link, beat) ∷ t) false → link.0 < length levels →
        before ≡ holds (held_under may) block link t → result ≡ change_of (held_under may) block (link, beat) t }
{
    let held = held_on(monitor, link, block);
    if is_same(before, held) {
        return None;
    }
    Some(held)
}

impl<const W: usize> Charting<W> {
    /// A new judge after a header.
    fn new(alloc: Global, header: &LinksHeader, window: Window) -> Result<Self, AllocError>
        requires { IsWidth W }
        ensures { IfOk result (λ charting. IsBegun charting header.now.levels.items header.now.may) }
    {
        let levels = header.levels.as_slice();
        let monitor = Monitor::with_liberties(alloc, levels, header.may).map_err(|_| AllocError)?;
        Ok(Charting {
            monitor,
            gatherer: Gatherer::new(alloc, levels.len(), window)?,
            fault: None,
            count: 1,
        })
    }

    /// Gathers the beat of a line, which the monitor has taken. `first` says that it begins a message, and `before` is
    /// the permission that its link held of the watched block before it.
    fn gather(
        &mut self,
        link: Link,
        line: u64,
        beat: &Beat<W>,
        first: bool,
        before: Perm,
    ) -> Result<(), AllocError>
        requires { IsWidth W }
        ensures gathers { OnOk result ((levels : List Level) (may : Liberties) (t : Trace W) →
            KnowsUnder self.old.monitor levels may ((link, beat.now) ∷ t) false → link.0 < length levels →
            length self.old.gatherer.links.items ≡ length levels → line ≡ next_line t →
            first ≡ begins beat.now (on_link link.0 t) →
            before ≡ holds (held_under may) (watched self.old.gatherer) link t →
            Gathers (held_under may) self.old.gatherer t →
            Gathers (held_under may) self.new.gatherer ((link, beat.now) ∷ t)) }
        ensures window { OnOk result (self.new.gatherer.window ≡ self.old.gatherer.window) }
        ensures many { OnOk result (length self.new.gatherer.links.items ≡ length self.old.gatherer.links.items) }
        ensures count { self.new.count ≡ line }
        ensures monitor { self.new.monitor ≡ self.old.monitor }
        ensures fault { self.new.fault ≡ self.old.fault }
    {
        self.count = line;
        if self.gatherer.is_over() {
            return self.gatherer.count(first);
        }
        let moment = Moment {
            link,
            line,
            first,
            last: self.monitor.begins(link, beat),
        };
        let change = changed_from(&self.monitor, link, self.gatherer.watched(), before);
        self.gatherer.take(&moment, beat, change)
    }

    /// Draws the beat of a line that breaks a rule.
    #[inline(never)]
    fn take_fault(&mut self, link: Link, line: u64, beat: &Beat<W>, rule: Rule) -> Fault
        requires { IsWidth W }
        ensures fault { result ≡ Breaks rule }
        ensures drawn { (held : Holding W) (t : Trace W) → line ≡ next_line t → Gathers held self.old.gatherer t →
            self.new.fault ≡ fault_drawn held self.old.gatherer.window (link, beat.now) t }
        ensures gatherer { self.new.gatherer ≡ self.old.gatherer }
    {
        self.fault = self.gatherer.fault_of(link, line, beat);
        Fault::Rule(rule)
    }

    /// Judges a beat, and gathers it. A beat at fault is drawn too.
    fn take(&mut self, link: Link, beat: &Beat<W>) -> Result<Option<Fault>, AllocError>
        requires { IsWidth W }
        ensures { IfOk result (λ fault. (allow : Liberties) (line : List ℕ) → Spells line link beat.now →
            GathersLine allow self.old self.new line fault) }
    {
        let line = self.count.checked_add(1).ok_or(AllocError)?;
        let first = self.monitor.begins(link, beat);
        let before = held_on(&self.monitor, link, self.gatherer.watched());
        match self.monitor.push(link, beat) {
            Ok(()) => {
                self.gather(link, line, beat, first, before)?;
                Ok(None)
            }
            Err(MonitorFault::Broken(rule)) => Ok(Some(self.take_fault(link, line, beat, rule))),
            Err(_) => Err(AllocError),
        }
    }

    /// Judges the line of the next beat, and gathers it.
    #[inline(never)]
    fn read(&mut self, line: &[u8]) -> Result<Option<Fault>, AllocError>
        requires { IsWidth W }
        ensures { IfOk result (λ fault. (allow : Liberties) → GathersLine allow self.old self.new line.now fault) }
    {
        match read_line(line) {
            Ok((link, beat)) => self.take(link, &beat),
            Err(fault) => Ok(Some(Fault::Line(fault))),
        }
    }
}

/// A judge of the links of a trace, with the drawing, by the bytes of a beat.
#[derive(Drop)]
pub enum ChartJudge {
    /// The header hasn't been read, and nothing is drawn.
    Waiting(Global, Gatherer),
    Four(Charting<4>),
    Eight(Charting<8>),
    Sixteen(Charting<16>),
}

/// Judges the lines of a trace, and gathers the drawing of it.
#[derive(Drop)]
pub struct ChartLines {
    /// The liberties of the links beyond those that the header names.
    allow: Liberties,
    judge: ChartJudge,
}

/// Begins with the links that a header names; these liberties are allowed too. None if the line is no header.
#[inline(never)]
fn begin(
    alloc: Global,
    allow: Liberties,
    line: &[u8],
    window: Window,
) -> Result<Option<ChartJudge>, AllocError>
    ensures { IfOk result (BeginsChart allow line.now) }
{
    let Some(header) = read_for(allow, line) else {
        return Ok(None);
    };
    let judge = match header.width {
        Width::Four => ChartJudge::Four(Charting::new(alloc, &header, window)?),
        Width::Eight => ChartJudge::Eight(Charting::new(alloc, &header, window)?),
        Width::Sixteen => ChartJudge::Sixteen(Charting::new(alloc, &header, window)?),
    };
    Ok(Some(judge))
}

impl ChartLines {
    /// No line has been read. The links have the liberties that the header names and those that are allowed.
    pub fn new(alloc: Global, allow: Liberties, window: Window) -> Result<Self, AllocError>
        ensures knows { IfOk result (λ lines. KnowsChart lines [] []) }
        ensures allow { IfOk result (λ lines. lines.allow ≡ allow) }
    {
        Ok(ChartLines {
            allow,
            judge: ChartJudge::Waiting(alloc, Gatherer::new(alloc, 0, window)?),
        })
    }

    /// The drawing of the lines so far.
    pub fn gatherer(&self) -> &Gatherer
        ensures { result.now ≡ gatherer_in self.now.judge }
    {
        match &self.judge {
            ChartJudge::Waiting(_, gatherer) => gatherer,
            ChartJudge::Four(charting) => &charting.gatherer,
            ChartJudge::Eight(charting) => &charting.gatherer,
            ChartJudge::Sixteen(charting) => &charting.gatherer,
        }
    }

    /// The beat at fault, if it is drawn.
    pub fn fault(&self) -> Option<Arrow>
        ensures { result ≡ fault_of_chart self.now.judge }
    {
        match &self.judge {
            ChartJudge::Waiting(..) => None,
            ChartJudge::Four(charting) => charting.fault,
            ChartJudge::Eight(charting) => charting.fault,
            ChartJudge::Sixteen(charting) => charting.fault,
        }
    }
}

impl LineHandler for ChartLines {
    ghost knows = { KnowsChart };

    ghost Purpose = { Liberties };

    ghost purpose = { λ lines. lines.allow };

    ghost tells = { JudgedLinks false };

    ghost ends = { EndsChart };

    fn handle_line(
        &mut self,
        line: &[u8],
        _out: &mut Vec<u8>,
    ) -> Result<Option<Fault>, AllocError> {
        match &mut self.judge {
            ChartJudge::Waiting(alloc, gatherer) => {
                match begin(*alloc, self.allow, line, gatherer.window)? {
                    None => Ok(Some(Fault::Header)),
                    Some(judge) => {
                        drop(mem::replace(&mut self.judge, judge));
                        Ok(None)
                    }
                }
            }
            ChartJudge::Four(charting) => charting.read(line),
            ChartJudge::Eight(charting) => charting.read(line),
            ChartJudge::Sixteen(charting) => charting.read(line),
        }
    }

    fn open_fault(&self) -> Fault {
        match self.judge {
            ChartJudge::Waiting(..) => Fault::Header,
            _ => Fault::Line(LineFault::F1),
        }
    }

    fn finish(&self, count: u64, out: &mut Vec<u8>) -> Result<Option<Fault>, AllocError> {
        match self.judge {
            ChartJudge::Waiting(..) => Ok(Some(Fault::Header)),
            _ => {
                append_end(false, count.saturating_sub(1), out)?;
                Ok(None)
            }
        }
    }
}
