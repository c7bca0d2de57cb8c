//! A caller of worlds, generic in their agents and their directory. It knows the contracts of the world's calls, and no
//! law.
#![tactic(auto)]

pub mod alone;
pub mod caller;
pub mod deliveries;
