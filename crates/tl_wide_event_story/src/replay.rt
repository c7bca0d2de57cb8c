//! The state of a second reading of a wide trace with stores and loads.

ghost use Rattle.std.specs.Prelude.{◌≡◌, IsTrue};
ghost use Rattle.tl_wide.specs.statement.Width.{part_width};
ghost use Rattle.tl_wide_lines.specs.code.WideDecoding.{is_wide_width};

use crate::guide::Guide;
use std::alloc::Global;
use tl_lines::fault::Fault;
use tl_params::liberties::Liberties;
use tl_wide_lines::judge::Clue;

/// Follows the events of a wide trace up to the line at fault, and finds the reasons for its fault.
#[derive(Drop)]
pub struct WideEventReplay<const W: usize, const P: usize> {
    pub alloc: Global,
    /// Whether all links are judged together.
    pub together: bool,
    /// The liberties of the links beyond those that the header names.
    pub allow: Liberties,
    /// The fault of the line.
    pub fault: Fault,
    /// The names of its event.
    pub clue: Clue,
    /// The number of lines that have been read before it.
    pub count: u64,
    /// None before the header, and if the lines differ from the first reading.
    pub guide: Option<Guide<W, P>>,
    /// The line at fault was reached, and the reasons are for it.
    pub told: bool,
    pub reasons: Vec<u8>,
    pub ghost width: { IsTrue (is_wide_width W) },
    pub ghost part: { P ≡ part_width W },
}
