//! That the bytes which all links of a world carry are true.
#![tactic(auto)]

pub mod law;
