//! The sessions that C calls: monitors, judges of all links, covers, clients and managers of any width, each call with
//! its answer.
#![tactic(auto)]

pub mod client;
pub mod cover;
pub mod covered;
pub mod event_judge;
pub mod judge;
pub mod judge_session;
pub mod manager;
pub mod monitor;
pub mod opening;
pub mod part_judge;
pub mod session;
pub mod shown;
pub mod wide;
pub mod wide_session;
