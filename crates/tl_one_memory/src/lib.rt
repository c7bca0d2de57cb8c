//! That the bytes which all links of a manager carry are true wherever they come of one memory.
#![tactic(auto)]

pub mod law;
