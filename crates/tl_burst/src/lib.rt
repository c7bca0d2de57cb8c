//! TileLink's messages, and the bursts of beats that carry them.
#![tactic(auto)]

pub mod assembler;
pub mod burst;
pub mod control;
mod gather;
pub mod law;
pub mod message;
pub mod part;
