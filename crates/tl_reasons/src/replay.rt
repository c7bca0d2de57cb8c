//! Records the lines of a trace that are read again, up to the line at fault.

ghost use Rattle.std.specs.Prelude.{IsTrue};
ghost use Rattle.tl_lines.specs.statement.Decoded.{is_width};

use tl_explain::recorder::Recorder;
use tl_explain::told::Spelling;
use tl_params::level::Level;
use tl_params::liberties::Liberties;

/// Records the beats before the line at fault. It returns `Header` if the lines differ from the first reading.
#[derive(Drop)]
pub struct Replay<const W: usize> {
    pub recorder: Recorder,
    /// The liberties of the links beyond those that the header names.
    pub allow: Liberties,
    /// All liberties of the links.
    pub may: Liberties,
    /// The level of the link of the line at fault. None if the header names no such link.
    pub level: Option<Level>,
    /// The number of lines before the one at fault, with the header.
    pub good: u64,
    /// The line at fault.
    pub line: Spelling,
    /// The number of lines that have been read before it.
    pub count: u64,
    /// The line at fault was reached, and is the same as before.
    pub reached: bool,
    pub ghost width: { IsTrue (is_width W) },
}
