//! The words of stores and loads, of narrow and of wide traces.
#![tactic(auto)]

pub mod words;
