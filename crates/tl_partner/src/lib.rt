//! The manager as a partner of clients with liberties.
#![tactic(auto)]

pub mod cleaning;
pub mod law;
pub mod lenient;
pub mod partner;
pub mod reading;
pub mod terms;
