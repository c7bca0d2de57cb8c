//! More liberties only forgive: a trace that breaks no rule under some liberties breaks none under more.
#![tactic(auto)]

pub mod law;
