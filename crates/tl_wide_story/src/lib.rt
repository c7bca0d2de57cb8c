//! Explains the verdict on a recorded trace of wide beats.
#![tactic(auto)]

pub mod allowed_beats;
pub mod citation;
mod examine;
pub mod explain;
pub mod front;
pub mod guilty;
mod learner;
mod lesson;
mod memory_beats;
pub mod numbering;
pub mod pending_beats;
pub mod places;
mod replay;
mod reread;
mod story;
