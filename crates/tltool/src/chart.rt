//! Draws charts of traces.

ghost use Rattle.tltool.specs.Ended.{EndsCharted, EndsChartedEvents};

use crate::commits::is_commits;
use crate::front::front_of;
use crate::input::open;
use crate::told;
use crate::wide::is_wide;
use crate::wide_commits::is_wide_commits;
use std::io;
use std::io::{Read, Write};
use tl_command::chart::Range;
use tl_engine::chart::{Window, chart_input, window_of};
use tl_event_chart::chart::chart_events;
use tl_params::liberties::Liberties;

/// Draws the input of a reader, and returns the exit status. These liberties are allowed beyond those that the header
/// names.
fn chart_over<R: Read, W: Write>(
    rt: &HostRuntime,
    allow: Liberties,
    window: Window,
    input: &mut R,
    output: &mut W,
) -> u8
    ensures { EndsCharted allow window (R.remaining input.old) (R.remaining input.new) (W.contents output.old)
        (W.contents output.new) result }
{
    told(rt, chart_input(rt.alloc(), allow, window, input, output))
}

/// The same of a trace of wide beats, or of one with stores and loads.
fn chart_events_over<R: Read, W: Write>(
    rt: &HostRuntime,
    allow: Liberties,
    window: Window,
    input: &mut R,
    output: &mut W,
) -> u8
    ensures { EndsChartedEvents allow window (R.remaining input.old) (R.remaining input.new) (W.contents output.old)
        (W.contents output.new) result }
{
    told(rt, chart_events(rt.alloc(), allow, window, input, output))
}

/// Whether a first line is a header of wide beats, or of a trace with stores and loads.
fn is_of_events(line: &[u8]) -> bool {
    is_wide(line) || is_commits(line) || is_wide_commits(line)
}

/// Draws the trace that a reader has, by its header.
fn chart_whole<R: Read + Drop>(
    rt: &HostRuntime,
    allow: Liberties,
    window: Window,
    mut input: R,
) -> u8 {
    let mut output = io::writer(rt);
    let front = front_of(&mut input);
    let mut whole = front.as_slice().chain(input);
    if is_of_events(front.as_slice()) {
        chart_events_over(rt, allow, window, &mut whole, &mut output)
    } else {
        chart_over(rt, allow, window, &mut whole, &mut output)
    }
}

/// Draws a chart of the trace on standard input, or in the file of this name. These liberties are allowed beyond those
/// that the header names. Returns the exit status.
pub(crate) fn chart(rt: &HostRuntime, range: Range, allow: Liberties, name: Option<String>) -> u8 {
    match open(rt, name.as_deref()) {
        Ok(input) => chart_whole(rt, allow, window_of(range), input),
        Err(status) => status,
    }
}
