//! TileLink's messages, their rules and their effect: levels, permissions, legality, order, and memory operations.
#![tactic(auto)]

pub mod admission;
pub mod answer;
mod atomic;
pub mod blank;
mod channel;
mod field;
pub mod kind;
pub mod law;
pub mod legality;
mod mask;
pub mod merge;
pub mod order;
pub mod past;
pub mod past_under;
pub mod perform;
pub mod place;
pub mod table;

pub use tl_params::{
    config, key, level, liberties, memory_rule, param, perm, profile, report, rule,
};
