//! Why a beat breaks a rule of its link, by a record of the beats before it, and which lines set the bytes of a copy.
#![tactic(auto)]

mod byte_values;
pub mod conviction;
pub mod copy_lines;
pub mod copy_record;
mod possible;
mod recording;
pub mod response_lines;
mod set_lines;
mod strays;
