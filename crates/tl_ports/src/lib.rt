//! Agents with the beats that they have still to send.
#![tactic(auto)]

pub mod client;
pub mod manager;
pub mod outgoing;
