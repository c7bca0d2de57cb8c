//! Judges recorded traces with a header of any version, those of wide beats among them.
#![tactic(auto)]

pub mod decode;
pub mod decoder;
pub mod header;
pub mod judge;
pub mod law;
pub mod lines;
mod numbered;
pub mod run;
mod short;
pub mod text;
