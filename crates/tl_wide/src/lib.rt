//! Wide beats, of up to 64 bytes, with addresses of 64 bits and ids of 16, and their meaning.
#![tactic(auto)]

pub mod beat;
pub mod narrow;
pub mod numbers;
pub mod parts;
mod places;
pub mod read;
pub mod text;
pub mod width;
pub mod write;
