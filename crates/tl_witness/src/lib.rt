//! Explains breaches of the rules between links: which link holds the block since which line, and the values that its
//! bytes may have. An error means that there is no memory left; a part may then have been appended.
#![tactic(auto)]

pub mod grounds;
pub mod places;
mod strays;
pub mod text;
pub mod witness;
