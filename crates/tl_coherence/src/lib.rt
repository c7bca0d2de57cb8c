//! The state of a manager, its clients and their channels, its events, and the laws that keep it coherent.
#![tactic(auto)]

pub mod event;
pub mod law;
