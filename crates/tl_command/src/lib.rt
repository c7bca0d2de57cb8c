//! The tasks of the program, for the crate that reads them from words and for those that carry them out.
#![tactic(auto)]

pub mod chart;
mod clients;
pub mod command;
pub mod cover;
pub mod liberties;
mod number;
pub mod random;
pub mod random_words;
pub mod search;
pub mod task;
pub mod width_word;
