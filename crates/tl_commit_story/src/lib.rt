//! Explains the verdict on a trace of beats, and of stores and loads of cores beside them.
#![tactic(auto)]

mod asked;
mod beat_lines;
mod cached;
mod copy_follower;
mod examine;
pub mod explain;
mod explain_line;
mod follower;
mod grounds;
mod link_record;
mod links_record;
mod malformed;
mod numbered;
mod pending;
mod places;
mod replay;
mod reread;
pub mod response_follower;
pub mod sentences;
mod store_line;
mod stores;
mod story;
mod under_way;
mod words;
