//! Events of a wide trace: wide beats, and stores and loads with addresses of 64 bits, with the lines that spell them and
//! the events that they become.
#![tactic(auto)]

pub mod commit;
pub mod event;
pub mod law;
pub mod narrow;
pub mod read;
