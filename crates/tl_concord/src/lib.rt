//! The links of a world keep the rules between links.
#![tactic(auto)]

pub mod law;
