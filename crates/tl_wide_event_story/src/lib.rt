//! Explains the verdict on a wide trace with stores and loads.
#![tactic(auto)]

mod copy_guide;
mod examine;
pub mod explain;
mod grounds;
mod guide;
mod link_guide;
mod names;
mod passing;
mod pending;
mod places;
mod replay;
mod reread;
mod response_guide;
mod stores;
mod story;
mod transfer;
mod words;
