//! The names of blocks, sources and sinks don't matter: renaming changes no verdict.
#![tactic(auto)]

pub mod law;
