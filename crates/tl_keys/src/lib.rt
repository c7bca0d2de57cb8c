//! Each rule of order depends on one source, one sink or one block.
#![tactic(auto)]

pub mod law;
