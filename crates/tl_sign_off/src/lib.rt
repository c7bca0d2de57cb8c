//! The report of a trace that a sign-off archives, in JSON or in the form of JUnit. An `AllocError` means that there is
//! no memory left.
#![tactic(auto)]

pub mod account;
pub mod form;
pub mod input;
pub mod judge;
pub mod junit;
pub mod law;
mod message;
pub mod report;
mod sentence;
pub mod tell;
mod xml;
