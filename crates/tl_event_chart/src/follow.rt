//! Follows the beats of links, and draws them.

ghost use Rattle.std.specs.Prelude.{OnOk};
ghost use Rattle.tl_beat.specs.statement.Width.{IsWidth};
ghost use Rattle.tl_event_chart.specs.code.Drawing.{DrawsBeats};

use crate::canvas::Canvas;
use std::alloc::AllocError;
use tl_beat::beat::{Beat, Link};
use tl_chart::arrow::Moment;
use tl_monitor::fault::MonitorFault;
use tl_monitor::monitor::Monitor;
use tl_params::perm::Perm;

/// The permission that a link holds of a block.
fn held_on<const W: usize>(monitor: &Monitor<W>, link: Link, block: Option<u32>) -> Perm {
    match block {
        None => Perm::None,
        Some(block) => monitor.held_under(link, block),
    }
}

/// The permission after a beat, if it was another before.
fn changed(before: Perm, after: Perm) -> Option<Perm> {
    if before == after { None } else { Some(after) }
}

/// Draws a beat that the monitor has taken. `first` says that it begins a message, and `before` is the permission that
/// its link held of the watched block before it.
fn draw_taken<const W: usize>(
    monitor: &Monitor<W>,
    canvas: &mut Canvas,
    link: Link,
    line: u64,
    beat: &Beat<W>,
    first: bool,
    before: Perm,
) -> Result<(), AllocError>
    requires { IsWidth W }
    ensures { OnOk result (DrawsBeats canvas.old canvas.new) }
{
    if canvas.gatherer.is_over() {
        return canvas.gatherer.count(first);
    }
    let moment = Moment {
        link,
        line,
        first,
        last: monitor.begins(link, beat),
    };
    let after = held_on(monitor, link, canvas.gatherer.watched());
    canvas.gatherer.take(&moment, beat, changed(before, after))
}

/// Judges the beat of a link in the line of this number, and draws it. Returns false if it is at fault.
pub fn draw_beat<const W: usize>(
    monitor: &mut Monitor<W>,
    canvas: &mut Canvas,
    link: Link,
    line: u64,
    beat: &Beat<W>,
) -> Result<bool, AllocError>
    requires { IsWidth W }
    ensures { OnOk result (DrawsBeats canvas.old canvas.new) }
{
    let first = monitor.begins(link, beat);
    let before = held_on(monitor, link, canvas.gatherer.watched());
    match monitor.push(link, beat) {
        Ok(()) => {
            draw_taken(monitor, canvas, link, line, beat, first, before)?;
            Ok(true)
        }
        Err(MonitorFault::Broken(_)) => {
            canvas.fault = canvas.gatherer.fault_of(link, line, beat);
            Ok(false)
        }
        Err(_) => Err(AllocError),
    }
}
