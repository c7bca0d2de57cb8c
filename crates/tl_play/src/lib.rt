//! Players of trials: a file has the questions to a client, a manager or a world, and the answers are written.
//!
//! A file has trials, each a line `# ` with its name, the header of a schedule, and lines. A line for a world is an
//! event or `drain` of a schedule, or a question: `held CLIENT BLOCK`, `copy CLIENT BLOCK`, `deepest LINK` or `load`,
//! with decimal numbers. A line for a manager is a beat line, which is offered, or `closed LINK`. A line for a client
//! is an operation as in a schedule, a beat line, which is offered, or `held BLOCK`, `copy BLOCK` or `closed`. A beat
//! line after `on X ` is offered on channel X. Each beat that is sent is written after `sends `.
#![tactic(auto)]

mod client;
mod counting;
pub mod device;
mod line;
pub mod made;
mod manager;
mod offered;
pub mod replay;
mod sent;
pub mod stage;
mod trial;
mod world;
