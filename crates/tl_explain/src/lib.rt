//! Explains why a line of a trace is at fault: the evidence for a verdict, and its text. An error of a call that
//! appends means that there is no memory left; a part may then have been appended.
#![tactic(auto)]

mod answer;
pub mod blocks;
pub mod bursts;
mod columns;
mod example;
mod fits;
pub mod held;
mod holding;
mod key;
pub mod law;
pub mod ledger;
pub mod legal;
mod memory;
mod missing;
pub mod named;
mod names;
pub mod params;
pub mod reason;
pub mod recorder;
mod saying;
mod sentence;
pub mod shown;
pub mod spelling;
pub mod tell;
pub mod text;
pub mod told;
pub mod turn;
pub mod turns;
pub mod wording;
pub mod words;
