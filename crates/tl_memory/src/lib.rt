//! The bytes of memory that a response may bring, by the beats of all links of a manager.
#![tactic(auto)]

pub mod access;
pub mod accesses;
pub mod begun;
pub mod block;
pub mod block_map;
pub mod blocks;
mod boxed;
pub mod byte_change;
pub mod byte_set;
mod concerned;
pub mod early;
pub mod expected;
pub mod free;
pub mod granted;
pub mod link;
pub mod links;
pub mod memory;
pub mod message;
pub mod next;
pub mod next_state;
mod others;
pub mod outrun;
pub mod passing;
pub mod pending;
pub mod performed;
mod requested;
pub mod typed;
mod unfinished;
pub mod writer;
