//! Reads an input line by line, and judges the lines of beats: as readable text, each link by itself, or all links
//! together.
#![tactic(auto)]

pub mod beat_judge;
pub mod decoder;
pub mod engine;
pub mod fault;
pub mod follow;
pub mod header;
pub mod line_handler;
pub mod lines;
pub mod link_lines;
pub mod links_header;
pub mod monitor_lines;
pub mod output;
pub mod status;
pub mod subject;
pub mod trace_judge;
