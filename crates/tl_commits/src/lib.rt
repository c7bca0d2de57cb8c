//! Stores and loads of the cores on a manager's links, in one trace with the beats: their lines, and the rules M5 to M7.
#![tactic(auto)]

mod asking;
pub mod block_values;
mod bringing;
pub mod commits;
mod common;
mod copied;
mod copies;
pub mod fault;
mod giving_back;
mod giving_up;
mod granting;
pub mod judge;
pub mod law;
mod loading;
mod next_values;
mod piece_values;
mod reached;
mod reading;
mod readings;
mod renewing;
pub mod responding;
pub mod rule;
mod tellings;
mod value_table;
