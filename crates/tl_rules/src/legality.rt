//! Legality by level and channel alone, of a beat and of a whole message.

pub mod beat;
mod liberty;
pub mod message;
