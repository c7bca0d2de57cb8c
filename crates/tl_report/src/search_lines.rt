//! Searches the lines of an input for those at fault.

ghost use Rattle.std.specs.Prelude.{◌≡◌, [], IfOk};
ghost use Rattle.tl_commit_lines.specs.statement.MarkedHeader.{links_in};
ghost use Rattle.tl_beat.specs.statement.Width.{IsWidth};
ghost use Rattle.tl_lines.specs.declared.status.Status.{Status};
ghost use Rattle.tl_report.specs.code.EventJudging.{event_ways};
ghost use Rattle.tl_report.specs.code.Searching.{Begins, EndsLines, HasFound, KnowsLines, StartsSearch, TellsLines, aim_of};
ghost use Rattle.tl_report.specs.code.NarrowJudging.{narrow_ways};
ghost use Rattle.tl_report.specs.code.WideEventJudging.{wide_event_ways};
ghost use Rattle.tl_report.specs.code.WideJudging.{wide_ways};
ghost use Rattle.tl_report.specs.statement.Found.{IsHeadless, IsNotMarked, IsNotNarrow, IsNotWide, IsNotWideMarked};
ghost use Rattle.tl_report.specs.statement.Found.{event_terms_of, no_header, terms_of};
ghost use Rattle.tl_report.specs.statement.Taken.{AreCounted};
ghost use Rattle.tl_wide.specs.statement.Width.{IsWideWidth, part_width};

use crate::events::EventLineJudge;
use crate::findings::{Finding, Findings};
use crate::kept::KeptLineJudge;
use crate::narrow::NarrowLineJudge;
use crate::search::Search;
use crate::wide::{WideLineJudge, WideTaker};
use crate::wide_events::{WideEventLineJudge, WideEventTaker};
use std::alloc::{AllocError, Global};
use std::mem;
use tl_beat::fault::LineFault;
use tl_command::search::Aim;
use tl_commit_lines::header::{CommitHeader, read_marked_for};
use tl_lines::fault::Fault;
use tl_lines::line_handler::LineHandler;
use tl_lines::links_header::LinksHeader;
use tl_lines::status::Status;
use tl_lines::trace_judge::read_for;
use tl_params::width::Width;
use tl_wide::width::WideWidth;
use tl_wide_event_lines::header::read_wide_marked_for;
use tl_wide_lines::header::read_wide_for;

/// Judges the lines of a trace, and records those at fault.
#[derive(Drop)]
pub enum SearchLines {
    /// The header hasn't been read.
    Waiting(Global, Aim),
    Four(Search<NarrowLineJudge<4>>),
    Eight(Search<NarrowLineJudge<8>>),
    Sixteen(Search<NarrowLineJudge<16>>),
    WideFour(Search<WideLineJudge<4, 4>>),
    WideEight(Search<WideLineJudge<8, 8>>),
    WideSixteen(Search<WideLineJudge<16, 16>>),
    WideThirtyTwo(Search<WideLineJudge<32, 16>>),
    WideSixtyFour(Search<WideLineJudge<64, 16>>),
    EventFour(Search<EventLineJudge<4>>),
    EventEight(Search<EventLineJudge<8>>),
    EventSixteen(Search<EventLineJudge<16>>),
    WideEventFour(Search<WideEventLineJudge<4, 4>>),
    WideEventEight(Search<WideEventLineJudge<8, 8>>),
    WideEventSixteen(Search<WideEventLineJudge<16, 16>>),
    WideEventThirtyTwo(Search<WideEventLineJudge<32, 16>>),
    WideEventSixtyFour(Search<WideEventLineJudge<64, 16>>),
}

/// A search after a header of narrow beats.
fn narrow<const W: usize>(
    alloc: Global,
    aim: Aim,
    header: &LinksHeader,
) -> Result<Search<NarrowLineJudge<W>>, AllocError>
    requires { IsWidth W }
    ensures { IfOk result (StartsSearch (narrow_ways W) aim (terms_of aim.together header.now.may
        header.now.levels.items)) }
{
    let judge = NarrowLineJudge::new(alloc, aim.together, header)?;
    Search::new(alloc, aim, judge)
}

/// A search after a header of wide beats.
fn wide<const W: usize, const P: usize>(
    alloc: Global,
    aim: Aim,
    links: LinksHeader,
) -> Result<Search<WideLineJudge<W, P>>, AllocError>
    requires width { IsWideWidth W }
    requires part { P ≡ part_width W }
    ensures { IfOk result (StartsSearch (wide_ways W P) aim (terms_of aim.together links.may links.levels.items)) }
{
    let judge = WideTaker::new(alloc, aim.together, &links)?;
    Search::new(alloc, aim, KeptLineJudge::new(alloc, aim, judge, links))
}

/// A search after a header of a trace with commits.
fn events<const W: usize>(
    alloc: Global,
    aim: Aim,
    header: &CommitHeader,
) -> Result<Search<EventLineJudge<W>>, AllocError>
    requires { IsWidth W }
    ensures { IfOk result (StartsSearch (event_ways W) aim (event_terms_of aim.together header.now.may
        (links_in header.now))) }
{
    let judge = EventLineJudge::new(alloc, aim.together, header)?;
    Search::new(alloc, aim, judge)
}

/// A search after a header of a wide trace with commits.
fn wide_events<const W: usize, const P: usize>(
    alloc: Global,
    aim: Aim,
    links: CommitHeader,
) -> Result<Search<WideEventLineJudge<W, P>>, AllocError>
    requires width { IsWideWidth W }
    requires part { P ≡ part_width W }
    ensures { IfOk result (StartsSearch (wide_event_ways W P) aim (event_terms_of aim.together links.may
        (links_in links))) }
{
    let judge = WideEventTaker::new(alloc, aim.together, &links)?;
    Search::new(alloc, aim, KeptLineJudge::new(alloc, aim, judge, links))
}

/// Begins with the links that a header of narrow beats names; `None` if the line is no such header.
fn begin_narrow(alloc: Global, aim: Aim, line: &[u8]) -> Result<Option<SearchLines>, AllocError>
    ensures { IfOk result (Begins IsNotNarrow aim line.now) }
{
    let Some(header) = read_for(aim.allow, line) else {
        return Ok(None);
    };
    let lines = match header.width {
        Width::Four => SearchLines::Four(narrow(alloc, aim, &header)?),
        Width::Eight => SearchLines::Eight(narrow(alloc, aim, &header)?),
        Width::Sixteen => SearchLines::Sixteen(narrow(alloc, aim, &header)?),
    };
    Ok(Some(lines))
}

/// Begins with the links that a header of wide beats names; `None` if the line is no such header.
fn begin_wide(alloc: Global, aim: Aim, line: &[u8]) -> Result<Option<SearchLines>, AllocError>
    ensures { IfOk result (Begins IsNotWide aim line.now) }
{
    let Some(header) = read_wide_for(aim.allow, line) else {
        return Ok(None);
    };
    let links = header.links;
    let lines = match header.width {
        WideWidth::Four => SearchLines::WideFour(wide(alloc, aim, links)?),
        WideWidth::Eight => SearchLines::WideEight(wide(alloc, aim, links)?),
        WideWidth::Sixteen => SearchLines::WideSixteen(wide(alloc, aim, links)?),
        WideWidth::ThirtyTwo => SearchLines::WideThirtyTwo(wide(alloc, aim, links)?),
        WideWidth::SixtyFour => SearchLines::WideSixtyFour(wide(alloc, aim, links)?),
    };
    Ok(Some(lines))
}

/// Begins with the links that a header of a trace with commits names; `None` if the line is no such header.
fn begin_events(alloc: Global, aim: Aim, line: &[u8]) -> Result<Option<SearchLines>, AllocError>
    ensures { IfOk result (Begins IsNotMarked aim line.now) }
{
    let Some(header) = read_marked_for(aim.allow, line) else {
        return Ok(None);
    };
    let lines = match header.width {
        Width::Four => SearchLines::EventFour(events(alloc, aim, &header)?),
        Width::Eight => SearchLines::EventEight(events(alloc, aim, &header)?),
        Width::Sixteen => SearchLines::EventSixteen(events(alloc, aim, &header)?),
    };
    Ok(Some(lines))
}

/// Begins with the links that a header of a wide trace with commits names; `None` if the line is no such header.
fn begin_wide_events(
    alloc: Global,
    aim: Aim,
    line: &[u8],
) -> Result<Option<SearchLines>, AllocError>
    ensures { IfOk result (Begins IsNotWideMarked aim line.now) }
{
    let Some(header) = read_wide_marked_for(aim.allow, line) else {
        return Ok(None);
    };
    let links = header.narrow;
    let lines = match header.width {
        WideWidth::Four => SearchLines::WideEventFour(wide_events(alloc, aim, links)?),
        WideWidth::Eight => SearchLines::WideEventEight(wide_events(alloc, aim, links)?),
        WideWidth::Sixteen => SearchLines::WideEventSixteen(wide_events(alloc, aim, links)?),
        WideWidth::ThirtyTwo => SearchLines::WideEventThirtyTwo(wide_events(alloc, aim, links)?),
        WideWidth::SixtyFour => SearchLines::WideEventSixtyFour(wide_events(alloc, aim, links)?),
    };
    Ok(Some(lines))
}

/// Begins with the links that a header names; `None` if the line is no header.
fn begin(alloc: Global, aim: Aim, line: &[u8]) -> Result<Option<SearchLines>, AllocError>
    ensures { IfOk result (Begins IsHeadless aim line.now) }
{
    if let Some(lines) = begin_wide(alloc, aim, line)? {
        return Ok(Some(lines));
    }
    if let Some(lines) = begin_narrow(alloc, aim, line)? {
        return Ok(Some(lines));
    }
    match begin_events(alloc, aim, line)? {
        None => begin_wide_events(alloc, aim, line),
        Some(lines) => Ok(Some(lines)),
    }
}

/// The findings in a trace without a header.
fn no_header(alloc: Global) -> Result<Findings, AllocError>
    ensures { IfOk result (λ f. (f.faults.items ≡ no_header) × AreCounted f.beats f.cells.items []) }
{
    let mut findings = Findings::new(alloc)?;
    findings.faults.push(Finding {
        line: 1,
        fault: Fault::Header,
    })?;
    Ok(findings)
}

impl SearchLines {
    ghost use Rattle.tl_report.specs.code.Searching.{StartsLines};

    /// Begins with the first line: after a header the search goes on, and any other line is at fault.
    #[cold]
    #[inline(never)]
    fn start(&mut self, alloc: Global, aim: Aim, line: &[u8]) -> Result<Option<Fault>, AllocError>
        ensures { IfOk result (StartsLines aim self.old self.new line.now) }
    {
        match begin(alloc, aim, line)? {
            None => Ok(Some(Fault::Header)),
            Some(lines) => {
                drop(mem::replace(self, lines));
                Ok(None)
            }
        }
    }

    /// The findings, at the end of the input or at a line that ends the search.
    pub fn into_findings(self, status: Status) -> Result<Findings, AllocError>
        ensures { IfOk result (HasFound self status) }
    {
        match self {
            SearchLines::Waiting(alloc, _) => no_header(alloc),
            SearchLines::Four(search) => search.into_findings(status),
            SearchLines::Eight(search) => search.into_findings(status),
            SearchLines::Sixteen(search) => search.into_findings(status),
            SearchLines::WideFour(search) => search.into_findings(status),
            SearchLines::WideEight(search) => search.into_findings(status),
            SearchLines::WideSixteen(search) => search.into_findings(status),
            SearchLines::WideThirtyTwo(search) => search.into_findings(status),
            SearchLines::WideSixtyFour(search) => search.into_findings(status),
            SearchLines::EventFour(search) => search.into_findings(status),
            SearchLines::EventEight(search) => search.into_findings(status),
            SearchLines::EventSixteen(search) => search.into_findings(status),
            SearchLines::WideEventFour(search) => search.into_findings(status),
            SearchLines::WideEventEight(search) => search.into_findings(status),
            SearchLines::WideEventSixteen(search) => search.into_findings(status),
            SearchLines::WideEventThirtyTwo(search) => search.into_findings(status),
            SearchLines::WideEventSixtyFour(search) => search.into_findings(status),
        }
    }
}

impl LineHandler for SearchLines {
    ghost use Rattle.tl_command.specs.declared.search.Aim.{Aim};

    ghost knows = { KnowsLines };

    ghost Purpose = { Aim };

    ghost purpose = { aim_of };

    ghost tells = { λ _. TellsLines };

    ghost ends = { EndsLines };

    fn handle_line(
        &mut self,
        line: &[u8],
        _out: &mut Vec<u8>,
    ) -> Result<Option<Fault>, AllocError> {
        match self {
            SearchLines::Waiting(alloc, aim) => {
                let (alloc, aim) = (*alloc, *aim);
                self.start(alloc, aim, line)
            }
            SearchLines::Four(search) => search.read(line),
            SearchLines::Eight(search) => search.read(line),
            SearchLines::Sixteen(search) => search.read(line),
            SearchLines::WideFour(search) => search.read(line),
            SearchLines::WideEight(search) => search.read(line),
            SearchLines::WideSixteen(search) => search.read(line),
            SearchLines::WideThirtyTwo(search) => search.read(line),
            SearchLines::WideSixtyFour(search) => search.read(line),
            SearchLines::EventFour(search) => search.read(line),
            SearchLines::EventEight(search) => search.read(line),
            SearchLines::EventSixteen(search) => search.read(line),
            SearchLines::WideEventFour(search) => search.read(line),
            SearchLines::WideEventEight(search) => search.read(line),
            SearchLines::WideEventSixteen(search) => search.read(line),
            SearchLines::WideEventThirtyTwo(search) => search.read(line),
            SearchLines::WideEventSixtyFour(search) => search.read(line),
        }
    }

    fn open_fault(&self) -> Fault {
        match self {
            SearchLines::Waiting(..) => Fault::Header,
            _ => Fault::Line(LineFault::F1),
        }
    }

    fn finish(&self, _count: u64, _out: &mut Vec<u8>) -> Result<Option<Fault>, AllocError> {
        match self {
            SearchLines::Waiting(..) => Ok(Some(Fault::Header)),
            _ => Ok(None),
        }
    }
}
