//! The words of the command line.
#![tactic(auto)]

mod chart_words;
mod commands;
mod cover_words;
mod help;
mod report;
mod run_words;
mod usage;
mod wide_words;
pub mod words;
mod wrong_words;
