//! Judges traces of wide beats, and of stores and loads of cores beside them, line by line.
#![tactic(auto)]

pub mod header;
pub mod judge;
pub mod law;
pub mod lines;
pub mod run;
