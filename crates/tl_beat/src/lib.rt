//! TileLink's links, channels, opcodes and beats, and the lines of text that spell beats.
#![tactic(auto)]

pub mod beat;
pub mod channel;
pub mod control;
pub mod fault;
pub mod lanes;
pub mod opcode;
pub mod read;
pub mod text;
pub mod write;
