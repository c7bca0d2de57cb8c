//! Draws traces of wide beats, and traces with stores and loads, with the names that the trace has.
#![tactic(auto)]

mod canvas;
pub mod chart;
mod events;
mod follow;
mod following;
mod lines;
mod naming;
mod wide;
