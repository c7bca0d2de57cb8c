//! The client's end of a TileLink link: the calls and laws of a client, a client that keeps copies of blocks, and one
//! that keeps none.
#![tactic(auto)]

mod access;
pub mod agent;
pub mod answer;
pub mod any;
pub mod busy;
pub mod caching;
pub mod check;
pub mod law;
pub mod operation;
mod order;
pub mod plain;
mod release;
pub mod reply;
mod request;
mod response;
mod send;
mod sources;
pub mod verdict;
