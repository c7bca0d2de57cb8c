//! The single liberties under which a beat at fault would be allowed.
#![tactic(auto)]

pub mod allowances;
pub mod text;
