//! The findings in a recorded trace: all its lines at fault. An `AllocError` means that there is no memory left.
#![tactic(auto)]

pub mod events;
pub mod find;
pub mod findings;
pub mod kept;
pub mod law;
pub mod line_judge;
pub mod narrow;
pub mod say;
pub mod search;
pub mod search_lines;
pub mod taken;
pub mod taker;
pub mod wide;
pub mod wide_events;
