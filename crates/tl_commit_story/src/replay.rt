//! The state of a second reading of a trace with commits.

use crate::follower::Follower;
use std::alloc::Global;
use tl_explain::turns::Subject;
use tl_lines::fault::Fault;
use tl_params::liberties::Liberties;

/// How far the lines have been read again.
#[derive(Drop)]
pub enum State<const W: usize> {
    /// No line has been read.
    Waiting,
    /// The header, and events after it.
    Following(Follower<W>),
    /// A line that can't be taken: the lines differ from the first reading.
    Lost,
}

/// Follows the events of a trace up to the line at fault, and finds the reasons for its fault.
#[derive(Drop)]
pub struct Replay<const W: usize> {
    pub alloc: Global,
    /// Whether all links are judged together.
    pub together: bool,
    /// The subject of the event at fault.
    pub subject: Subject,
    /// The liberties of the links beyond those that the header names.
    pub allow: Liberties,
    /// The fault of the line.
    pub fault: Fault,
    /// The number of lines that have been read before it.
    pub count: u64,
    pub state: State<W>,
    /// The line at fault was reached, and the reasons are for it.
    pub told: bool,
    pub reasons: Vec<u8>,
}
