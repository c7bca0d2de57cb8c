//! Random schedules: events of a world of clients, drawn from a seed and played as they are drawn, so that most of them
//! have an effect.
#![tactic(auto)]

mod choose;
mod draw;
mod event;
mod generator;
mod header;
mod request;
pub mod schedule;
mod text;
