//! The unfinished message on channel C of a link.

ghost use Rattle.std.specs.Prelude.{◌≡◌};
ghost use Rattle.tl_monitor.specs.code.Reporting.{report_by};

use crate::bursts::Unfinished;
use crate::link_state::LinkState;
use tl_beat::control::{Control, ControlC};

impl LinkState {
    /// The control fields of the unfinished message on channel C, if there is one.
    pub fn report(&self) -> Option<ControlC>
        ensures { result ≡ report_by self.now.bursts.c }
    {
        match &self.bursts.c {
            Some(
                Unfinished {
                    control: Control::C(x),
                    ..
                },
            ) => Some(*x),
            _ => None,
        }
    }
}
