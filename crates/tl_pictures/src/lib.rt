//! Beats, commits, operations, answers and configurations as structs of numbers in C, and their meaning.
#![tactic(auto)]

pub mod answer;
pub mod codes;
pub mod commit;
pub mod config;
pub mod depiction;
pub mod operation;
pub mod outcome;
pub mod picture;
pub mod rule;
pub mod text;
pub mod wide;
