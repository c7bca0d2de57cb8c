//! The command's engine: runs a command over an input, plays schedules, and draws traces.
#![tactic(auto)]

pub mod chart;
pub mod charting;
pub mod law;
pub mod play;
pub mod run_lines;
pub mod tool;
pub mod trace_header;

pub use tl_command::command;
