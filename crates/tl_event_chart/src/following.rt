//! Follows the lines of a trace, and draws them.

ghost use Rattle.std.specs.Prelude.{◌≡◌, [], IfOk, OnOk};
ghost use Rattle.tl_beat.specs.statement.Width.{IsWidth};
ghost use Rattle.tl_event_chart.specs.code.Drawing.{Draws, Narrows};

use crate::canvas::Canvas;
use crate::events::take_event;
use crate::wide::WideFollower;
use std::alloc::{AllocError, Global};
use tl_chart::window::Window;
use tl_commit_lines::header::{CommitHeader, read_marked_for};
use tl_commit_lines::judge::levels_of;
use tl_monitor::monitor::Monitor;
use tl_params::level::Level;
use tl_params::liberties::Liberties;
use tl_params::width::Width;
use tl_wide::width::WideWidth;
use tl_wide_event_lines::header::{WideCommitHeader, read_wide_marked_for};
use tl_wide_lines::header::read_wide_for;

/// Follows the beats of a trace, by their width.
#[derive(Drop)]
pub enum Following {
    /// No header of wide beats or of stores and loads has been read.
    Nothing,
    Four(Monitor<4>),
    Eight(Monitor<8>),
    Sixteen(Monitor<16>),
    WideFour(WideFollower<4>),
    WideEight(WideFollower<8>),
    WideSixteen(WideFollower<16>),
    WideThirtyTwo(WideFollower<16>),
    WideSixtyFour(WideFollower<16>),
}

/// A monitor of links of these levels, with these liberties.
fn monitor_of<const W: usize>(
    alloc: Global,
    levels: &[Level],
    may: Liberties,
) -> Result<Monitor<W>, AllocError>
    requires { IsWidth W }
{
    Monitor::with_liberties(alloc, levels, may).map_err(|_| AllocError)
}

/// The links of a wide trace.
#[derive(Clone, Copy)]
struct WideLinks<'a> {
    levels: &'a [Level],
    may: Liberties,
    /// Whether their stores and loads are in the trace.
    has_commits: bool,
}

/// Follows the wide beats of links.
fn wide_of<const P: usize>(
    alloc: Global,
    links: WideLinks<'_>,
) -> Result<WideFollower<P>, AllocError>
    requires { IsWidth P }
{
    let monitor = monitor_of(alloc, links.levels, links.may)?;
    Ok(WideFollower::new(alloc, monitor, links.has_commits))
}

/// The number of beats that a beat with data becomes.
fn parts_of(width: WideWidth) -> u8 {
    match width {
        WideWidth::ThirtyTwo => 2,
        WideWidth::SixtyFour => 4,
        _ => 1,
    }
}

/// Follows the wide beats of links of this width.
fn begin_wide(
    alloc: Global,
    width: WideWidth,
    links: WideLinks<'_>,
) -> Result<Following, AllocError> {
    let following = match width {
        WideWidth::Four => Following::WideFour(wide_of(alloc, links)?),
        WideWidth::Eight => Following::WideEight(wide_of(alloc, links)?),
        WideWidth::Sixteen => Following::WideSixteen(wide_of(alloc, links)?),
        WideWidth::ThirtyTwo => Following::WideThirtyTwo(wide_of(alloc, links)?),
        WideWidth::SixtyFour => Following::WideSixtyFour(wide_of(alloc, links)?),
    };
    Ok(following)
}

/// Follows the events after a header.
fn begin_events(
    alloc: Global,
    header: &CommitHeader,
    levels: &[Level],
) -> Result<Following, AllocError> {
    let following = match header.width {
        Width::Four => Following::Four(monitor_of(alloc, levels, header.may)?),
        Width::Eight => Following::Eight(monitor_of(alloc, levels, header.may)?),
        Width::Sixteen => Following::Sixteen(monitor_of(alloc, levels, header.may)?),
    };
    Ok(following)
}

/// Begins to draw after a header of wide beats, with this width and these links.
fn begin_canvas(
    alloc: Global,
    width: WideWidth,
    links: WideLinks<'_>,
    window: Window,
) -> Result<(Following, Canvas), AllocError>
    ensures notes { IfOk result (λ both. both.1.notes.items ≡ []) }
    ensures window { IfOk result (λ both. Narrows window both.1.gatherer.window) }
{
    let canvas = Canvas::of_wide(alloc, links.levels.len(), window, parts_of(width))?;
    Ok((begin_wide(alloc, width, links)?, canvas))
}

/// Begins to draw after a header of a wide trace with stores and loads.
fn begin_wide_events(
    alloc: Global,
    header: &WideCommitHeader,
    window: Window,
) -> Result<(Following, Canvas), AllocError>
    ensures notes { IfOk result (λ both. both.1.notes.items ≡ []) }
    ensures window { IfOk result (λ both. Narrows window both.1.gatherer.window) }
{
    let levels = levels_of(alloc, header.narrow.links.as_slice())?;
    let links = WideLinks {
        levels: levels.as_slice(),
        may: header.narrow.may,
        has_commits: true,
    };
    begin_canvas(alloc, header.width, links, window)
}

/// Begins to draw after a header of wide beats or of stores and loads. After another line nothing is drawn.
pub fn begin(
    alloc: Global,
    allow: Liberties,
    window: Window,
    line: &[u8],
) -> Result<(Following, Canvas), AllocError>
    ensures notes { IfOk result (λ both. both.1.notes.items ≡ []) }
    ensures window { IfOk result (λ both. Narrows window both.1.gatherer.window) }
{
    if let Some(header) = read_wide_for(allow, line) {
        let links = WideLinks {
            levels: header.links.levels.as_slice(),
            may: header.links.may,
            has_commits: false,
        };
        return begin_canvas(alloc, header.width, links, window);
    }
    if let Some(header) = read_wide_marked_for(allow, line) {
        return begin_wide_events(alloc, &header, window);
    }
    if let Some(header) = read_marked_for(allow, line) {
        let levels = levels_of(alloc, header.links.as_slice())?;
        let canvas = Canvas::new(alloc, levels.len(), window)?;
        return Ok((begin_events(alloc, &header, levels.as_slice())?, canvas));
    }
    Ok((Following::Nothing, Canvas::new(alloc, 0, window)?))
}

impl Following {
    /// Draws the line of this number.
    pub fn take_line(
        &mut self,
        canvas: &mut Canvas,
        number: u64,
        line: &[u8],
    ) -> Result<(), AllocError>
        ensures { OnOk result (Draws canvas.old canvas.new number line.now) }
    {
        match self {
            Following::Nothing => Ok(()),
            Following::Four(monitor) => take_event(monitor, canvas, number, line),
            Following::Eight(monitor) => take_event(monitor, canvas, number, line),
            Following::Sixteen(monitor) => take_event(monitor, canvas, number, line),
            Following::WideFour(wide) => wide.take_line::<4>(canvas, number, line),
            Following::WideEight(wide) => wide.take_line::<8>(canvas, number, line),
            Following::WideSixteen(wide) => wide.take_line::<16>(canvas, number, line),
            Following::WideThirtyTwo(wide) => wide.take_line::<32>(canvas, number, line),
            Following::WideSixtyFour(wide) => wide.take_line::<64>(canvas, number, line),
        }
    }
}
