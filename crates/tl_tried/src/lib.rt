//! The report on recorded traces: their verdicts, and the situations that they were in.
#![tactic(auto)]

mod bins_json;
mod cover_events;
mod cover_lines;
mod cover_trace;
mod event_covering;
mod json;
pub mod sum;
pub mod tell;
mod text;
pub mod tried;
mod wide_covering;
mod wide_rows;
