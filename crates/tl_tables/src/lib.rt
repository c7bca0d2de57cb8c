//! The tables of links as text: the counts of their bins, by row and column.
#![tactic(auto)]

mod grid;
mod heads;
mod line;
mod rows;
pub mod sum;
mod table;
pub mod tables;
pub mod text;
