//! Explains the verdicts on traces of beats, and the names of rules and faults.
#![tactic(auto)]

pub mod commit_rules;
pub mod examiner;
pub mod explain;
pub mod explain_fault;
mod explain_memory;
mod heading;
pub mod line_front;
mod malformed;
pub mod named;
mod replay;
mod reread;
mod testimony;
