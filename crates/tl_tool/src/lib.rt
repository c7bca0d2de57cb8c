//! The command as a library: the words that ask for it, and the engine that does it.
#![tactic(auto)]

pub use tl_command::{random, random_words, task};
pub use tl_engine::{chart, command, law, play, run_lines, tool, trace_header};
pub use tl_lines::{
    beat_judge, decoder, engine, fault, header, line_handler, lines, monitor_lines, output, status,
};
pub use tl_random::schedule;
pub use tl_reasons::{explain, explain_fault, named};
pub use tl_words::words;
