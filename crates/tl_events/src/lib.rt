//! Events of a trace: the beats of links, and the stores and loads of their cores, with the lines that spell them.
#![tactic(auto)]

pub mod commit;
pub mod event;
pub mod read;
pub mod rule;
