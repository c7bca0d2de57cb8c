//! The rules of memory, between all links of a manager, and a judge of recorded traces.
#![tactic(auto)]

pub mod asking;
pub mod breach;
pub mod fault;
pub mod free;
pub mod judge;
mod notes;
mod shown;
pub mod trace;
pub mod windows;
