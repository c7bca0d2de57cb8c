//! Judges the lines of a trace of any version, with or without commits, and counts the situations in which its messages
//! begin.

ghost use Rattle.std.specs.Prelude.{◌≡◌, [], false, IfOk, None, Ok, Some};
ghost use Rattle.tl_lines.specs.code.Judging.{Ends, Judges};
ghost use Rattle.tl_lines.specs.declared.fault.Fault.{Fault};
ghost use Rattle.tl_tried.specs.code.EventFollowing.{BeginsAny, BeginsEvents, BeginsMarked, EndsCommits, KnowsCommits};
ghost use Rattle.tl_tried.specs.code.EventFollowing.{BeginsWideEvents, ReadsNext, events_found_by, found_of_commits};
ghost use Rattle.tl_wide_event_lines.specs.statement.JudgedWideEvents.{JudgedAny};

use crate::cover_trace::CoverTrace;
use crate::event_covering::EventCovering;
use crate::wide_covering::WideCovering;
use std::alloc::{AllocError, Global};
use std::mem;
use tl_beat::fault::LineFault;
use tl_commit_lines::header::read_marked_for;
use tl_cover::row::Row;
use tl_lines::fault::Fault;
use tl_lines::line_handler::LineHandler;
use tl_lines::monitor_lines::append_end;
use tl_params::liberties::Liberties;
use tl_params::width::Width;
use tl_wide::width::WideWidth;
use tl_wide_event_lines::header::read_wide_marked_for;

/// The covering of the links of a trace with commits, by the bytes of a narrow beat or of a wide one.
#[derive(Drop)]
pub enum EventFollowing {
    Four(EventCovering<4>),
    Eight(EventCovering<8>),
    Sixteen(EventCovering<16>),
    WideFour(WideCovering<4>),
    WideEight(WideCovering<8>),
    WideSixteen(WideCovering<16>),
    WideThirtyTwo(WideCovering<16>),
    WideSixtyFour(WideCovering<16>),
}

/// Judges the lines of a trace with or without commits up to its first fault, and counts its situations.
#[derive(Drop)]
pub struct CoverEvents {
    /// The handler of a trace without commits. It waits for the header.
    plain: CoverTrace,
    /// The covering of a trace with commits, after its header.
    events: Option<EventFollowing>,
}

/// Follows the links that a header of a narrow trace with commits names; these liberties are allowed too. None for a line
/// of another form. The error means that there is no memory left.
fn begin_narrow(
    alloc: Global,
    allow: Liberties,
    line: &[u8],
) -> Result<Option<EventFollowing>, AllocError>
    ensures { IfOk result (BeginsEvents allow line.now) }
{
    let Some(header) = read_marked_for(allow, line) else {
        return Ok(None);
    };
    let following = match header.width {
        Width::Four => EventFollowing::Four(EventCovering::new(alloc, &header)?),
        Width::Eight => EventFollowing::Eight(EventCovering::new(alloc, &header)?),
        Width::Sixteen => EventFollowing::Sixteen(EventCovering::new(alloc, &header)?),
    };
    Ok(Some(following))
}

/// The same of a wide trace with commits.
fn begin_wide(
    alloc: Global,
    allow: Liberties,
    line: &[u8],
) -> Result<Option<EventFollowing>, AllocError>
    ensures { IfOk result (BeginsWideEvents allow line.now) }
{
    let Some(header) = read_wide_marked_for(allow, line) else {
        return Ok(None);
    };
    let narrow = &header.narrow;
    let following = match header.width {
        WideWidth::Four => EventFollowing::WideFour(WideCovering::of_events(alloc, narrow)?),
        WideWidth::Eight => EventFollowing::WideEight(WideCovering::of_events(alloc, narrow)?),
        WideWidth::Sixteen => EventFollowing::WideSixteen(WideCovering::of_events(alloc, narrow)?),
        WideWidth::ThirtyTwo => EventFollowing::WideThirtyTwo(WideCovering::of_events(
            alloc, narrow,
        )?),
        WideWidth::SixtyFour => EventFollowing::WideSixtyFour(WideCovering::of_events(
            alloc, narrow,
        )?),
    };
    Ok(Some(following))
}

/// The same of either.
fn begin(alloc: Global, allow: Liberties, line: &[u8]) -> Result<Option<EventFollowing>, AllocError>
    ensures { IfOk result (BeginsAny allow line.now) }
{
    match begin_narrow(alloc, allow, line)? {
        None => begin_wide(alloc, allow, line),
        Some(following) => Ok(Some(following)),
    }
}

impl EventFollowing {
    /// The situations with their counts.
    fn rows(&self) -> &[Row]
        ensures { result.now ≡ (events_found_by self.now).0 }
    {
        match self {
            EventFollowing::Four(covering) => covering.rows(),
            EventFollowing::Eight(covering) => covering.rows(),
            EventFollowing::Sixteen(covering) => covering.rows(),
            EventFollowing::WideFour(covering) => covering.rows(),
            EventFollowing::WideEight(covering) => covering.rows(),
            EventFollowing::WideSixteen(covering) => covering.rows(),
            EventFollowing::WideThirtyTwo(covering) => covering.rows(),
            EventFollowing::WideSixtyFour(covering) => covering.rows(),
        }
    }

    /// The counts of all bins on all links, link after link.
    fn cells(&self, alloc: Global) -> Result<Vec<Option<u64>>, AllocError>
        ensures { IfOk result (λ cells. cells.items ≡ (events_found_by self.now).1) }
    {
        match self {
            EventFollowing::Four(covering) => covering.cells(alloc),
            EventFollowing::Eight(covering) => covering.cells(alloc),
            EventFollowing::Sixteen(covering) => covering.cells(alloc),
            EventFollowing::WideFour(covering) => covering.cells(alloc),
            EventFollowing::WideEight(covering) => covering.cells(alloc),
            EventFollowing::WideSixteen(covering) => covering.cells(alloc),
            EventFollowing::WideThirtyTwo(covering) => covering.cells(alloc),
            EventFollowing::WideSixtyFour(covering) => covering.cells(alloc),
        }
    }

    /// Judges the line of the next event.
    fn take_line(&mut self, line: &[u8]) -> Result<Option<Fault>, AllocError>
        ensures { IfOk result (ReadsNext self.old self.new line.now) }
    {
        match self {
            EventFollowing::Four(covering) => covering.take_line(line),
            EventFollowing::Eight(covering) => covering.take_line(line),
            EventFollowing::Sixteen(covering) => covering.take_line(line),
            EventFollowing::WideFour(covering) => covering.take_event_line::<4>(line),
            EventFollowing::WideEight(covering) => covering.take_event_line::<8>(line),
            EventFollowing::WideSixteen(covering) => covering.take_event_line::<16>(line),
            EventFollowing::WideThirtyTwo(covering) => covering.take_event_line::<32>(line),
            EventFollowing::WideSixtyFour(covering) => covering.take_event_line::<64>(line),
        }
    }
}

impl CoverEvents {
    /// No line has been read. The links have the liberties that the header names and those that are allowed.
    pub fn new(alloc: Global, allow: Liberties) -> CoverEvents
        ensures knows { KnowsCommits result [] [] }
        ensures allowed { result.plain.narrow.allow ≡ allow }
    {
        CoverEvents {
            plain: CoverTrace::new(alloc, allow),
            events: None,
        }
    }

    /// The situations with their counts; none if no header was read.
    pub fn rows(&self) -> &[Row]
        ensures { result.now ≡ (found_of_commits self.now).0 }
    {
        match &self.events {
            Some(following) => following.rows(),
            None => self.plain.rows(),
        }
    }

    /// The counts of all bins on all links, link after link; none if no header was read.
    pub fn cells(&self, alloc: Global) -> Result<Vec<Option<u64>>, AllocError>
        ensures { IfOk result (λ cells. cells.items ≡ (found_of_commits self.now).1) }
    {
        match &self.events {
            Some(following) => following.cells(alloc),
            None => self.plain.cells(alloc),
        }
    }

    /// A covering of events, if no line has been read and this one is the header of a trace with commits.
    fn begin_events(&self, line: &[u8]) -> Result<Option<EventFollowing>, AllocError>
        ensures { IfOk result (BeginsMarked self.now line.now) }
    {
        match self.plain.waiting() {
            Some(alloc) => begin(alloc, self.plain.narrow.allow, line),
            None => Ok(None),
        }
    }

    /// Judges the first line, which may be the header of a trace with commits. It is called for no other line, since it
    /// makes room for a covering.
    #[cold]
    #[inline(never)]
    fn start(&mut self, line: &[u8], out: &mut Vec<u8>) -> Result<Option<Fault>, AllocError>
        requires { self.old.events ≡ None }
        ensures judges { IfOk result (Judges KnowsCommits (JudgedAny false self.old.plain.narrow.allow) self.old
            self.new line.now out.old.items out.new.items) }
        ensures purpose { IfOk result (λ _. self.new.plain.narrow.allow ≡ self.old.plain.narrow.allow) }
        ensures ends { (fault : Fault) → result ≡ Ok (Some fault) →
            Ends KnowsCommits EndsCommits self.old self.new line.now }
    {
        match self.begin_events(line)? {
            None => self.plain.handle_line(line, out),
            Some(following) => {
                drop(mem::replace(&mut self.events, Some(following)));
                Ok(None)
            }
        }
    }

    /// Judges the next line, if no header of a trace with commits has been read.
    fn take_other(&mut self, line: &[u8], out: &mut Vec<u8>) -> Result<Option<Fault>, AllocError>
        requires { self.old.events ≡ None }
        ensures judges { IfOk result (Judges KnowsCommits (JudgedAny false self.old.plain.narrow.allow) self.old
            self.new line.now out.old.items out.new.items) }
        ensures purpose { IfOk result (λ _. self.new.plain.narrow.allow ≡ self.old.plain.narrow.allow) }
        ensures ends { (fault : Fault) → result ≡ Ok (Some fault) →
            Ends KnowsCommits EndsCommits self.old self.new line.now }
    {
        match self.plain.waiting() {
            Some(_) => self.start(line, out),
            None => self.plain.handle_line(line, out),
        }
    }
}

impl LineHandler for CoverEvents {
    ghost use Rattle.tl_params.specs.declared.liberties.Liberties.{Liberties};

    ghost knows = { KnowsCommits };

    ghost Purpose = { Liberties };

    ghost purpose = { λ h. h.plain.narrow.allow };

    ghost tells = { JudgedAny false };

    ghost ends = { EndsCommits };

    fn handle_line(&mut self, line: &[u8], out: &mut Vec<u8>) -> Result<Option<Fault>, AllocError> {
        match &mut self.events {
            Some(following) => following.take_line(line),
            None => self.take_other(line, out),
        }
    }

    fn open_fault(&self) -> Fault {
        match &self.events {
            Some(_) => Fault::Line(LineFault::F1),
            None => self.plain.open_fault(),
        }
    }

    fn finish(&self, count: u64, out: &mut Vec<u8>) -> Result<Option<Fault>, AllocError> {
        match &self.events {
            Some(_) => {
                append_end(false, count.saturating_sub(1), out)?;
                Ok(None)
            }
            None => self.plain.finish(count, out),
        }
    }
}
