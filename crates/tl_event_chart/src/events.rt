//! Follows the events of a trace with stores and loads.

ghost use Rattle.std.specs.Prelude.{OnOk};
ghost use Rattle.tl_beat.specs.statement.Width.{IsWidth};
ghost use Rattle.tl_event_chart.specs.code.Drawing.{Draws};

use crate::canvas::Canvas;
use crate::follow::draw_beat;
use std::alloc::AllocError;
use tl_events::commit::Event;
use tl_events::event::read_event;
use tl_monitor::monitor::Monitor;

/// Draws the event in the line of this number. A line that spells none isn't drawn.
pub fn take_event<const W: usize>(
    monitor: &mut Monitor<W>,
    canvas: &mut Canvas,
    number: u64,
    line: &[u8],
) -> Result<(), AllocError>
    requires { IsWidth W }
    ensures { OnOk result (Draws canvas.old canvas.new number line.now) }
{
    match read_event::<W>(line) {
        Err(_) => Ok(()),
        Ok((link, Event::Beat(beat))) => {
            draw_beat(monitor, canvas, link, number, &beat)?;
            Ok(())
        }
        Ok((link, Event::Commit(commit))) => canvas.note(link, number, commit),
    }
}
