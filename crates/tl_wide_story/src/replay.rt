//! The state of a second reading of a wide trace.

ghost use Rattle.std.specs.Prelude.{IsTrue};
ghost use Rattle.tl_wide_lines.specs.code.WideDecoding.{is_wide_width};

use crate::citation::WideWording;
use std::alloc::Global;
use tl_explain::recorder::Recorder;
use tl_lines::fault::Fault;
use tl_params::level::Level;
use tl_params::liberties::Liberties;
use tl_wide::narrow::Narrower;

/// Records the beats that the wide beats before the line at fault become, and explains that line. It returns `Header` at that
/// line, and before it if the lines differ from the first reading.
#[derive(Drop)]
pub struct WideReplay<const W: usize> {
    pub alloc: Global,
    pub narrower: Narrower,
    pub recorder: Recorder,
    /// The liberties of the links beyond those that the header names.
    pub allow: Liberties,
    /// All liberties of the links, after the header.
    pub may: Liberties,
    /// The level of the link of the line at fault. None if the header names no such link.
    pub level: Option<Level>,
    /// The number of lines before the one at fault, with the header.
    pub good: u64,
    /// The fault of that line.
    pub fault: Fault,
    pub wording: WideWording<W>,
    /// The number of lines that have been read before it.
    pub count: u64,
    /// The number of lines of the trace that they become.
    pub recorded: u64,
    /// The line at fault was reached, and the reasons are for it.
    pub told: bool,
    pub reasons: Vec<u8>,
    pub ghost width: { IsTrue (is_wide_width W) },
}
