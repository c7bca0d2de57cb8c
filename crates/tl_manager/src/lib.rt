//! The manager's end of TileLink links, and its directories of permissions.
#![tactic(auto)]

pub mod bits;
pub mod directory;
pub mod law;
pub mod manager;
pub mod table;
pub mod word;
