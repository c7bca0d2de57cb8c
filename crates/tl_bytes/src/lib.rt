//! The possible values of the bytes of memory, by the beats of all links of a manager.
#![tactic(auto)]

pub mod block_bytes;
pub mod carried;
pub mod known_bytes;
pub mod latest;
pub mod lines;
pub mod read_bytes;
pub mod standing;
pub mod telling;
pub mod tellings;
pub mod windows;
pub mod write;
