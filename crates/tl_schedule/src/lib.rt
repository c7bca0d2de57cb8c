//! The lines of schedules: the header and the events that are read, and the outcomes that are
//! written.
#![tactic(auto)]

pub mod access;
pub mod commit;
pub mod common;
mod field;
mod get;
pub mod header;
pub mod line;
pub mod name;
pub mod outcome;
pub mod whole;
