//! A monitor that judges recorded traces of TileLink's links.
#![tactic(auto)]

mod blocks;
pub mod bursts;
pub mod byte_table;
mod change;
pub mod fault;
mod granting;
mod judge;
mod known_blocks;
mod link_state;
pub mod monitor;
mod past;
mod reporting;
pub mod trace;
