//! Judges recorded traces whose headers name the liberties of their links.
#![tactic(auto)]

mod allow_lines;
pub mod allowing;
pub mod law;
pub mod run;
