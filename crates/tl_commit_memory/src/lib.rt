//! That the bytes which all links of a manager carry are true by stores and loads too, wherever these come of one
//! memory.
#![tactic(auto)]

pub mod law;
