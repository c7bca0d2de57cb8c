//! Hefrudyl for C: the calls of C on handles of sessions. C gives a handle to one call at a time.
#![tactic(auto)]

mod exports;
mod handle;
mod parts;
