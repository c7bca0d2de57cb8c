//! The stores and loads of a world keep the rules for commits.
#![tactic(auto)]

pub mod law;
