//! The situations in which the messages of a trace begin, with their counts and their first lines.
#![tactic(auto)]

mod acknowledged;
mod asked;
pub mod bins;
mod blocks;
mod counts;
pub mod covering;
mod group;
mod kind;
mod meets;
pub mod message;
pub mod name;
mod open;
mod past;
mod possible;
pub mod row;
pub mod scene;
pub mod situation;
mod stretch;
mod under_way;
