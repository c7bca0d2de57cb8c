//! The names that rules and messages use (levels, permissions, params, rules, keys), and the configuration of a manager
//! and its clients.
#![tactic(auto)]

pub mod config;
pub mod header;
pub mod key;
pub mod level;
pub mod liberties;
pub mod memory_rule;
pub mod param;
pub mod perm;
pub mod profile;
pub mod report;
pub mod rule;
mod sources;
pub mod width;
