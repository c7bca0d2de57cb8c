//! The account of an input that was judged to its end.

use crate::input::Input;
use tl_report::findings::Findings;

/// The account of an input that was judged to its end.
#[derive(Drop)]
pub struct Account {
    /// Whether all links were judged together, or each by itself.
    pub together: bool,
    /// The lines at fault, and the beats that were taken.
    pub findings: Findings,
    /// The input.
    pub input: Input,
}
