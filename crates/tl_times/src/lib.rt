//! Writes explanations with the times of the lines that they cite.
#![tactic(auto)]

mod piece;
mod pieces;
pub mod times;
