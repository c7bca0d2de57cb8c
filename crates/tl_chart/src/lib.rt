//! A trace as a picture: a sequence chart of its messages, in SVG. An error means that there is no memory left; a part
//! may then have been appended.
#![tactic(auto)]

pub mod arrow;
mod bars;
pub mod blocks;
pub mod chart;
mod draw;
mod drawing;
mod front;
pub mod gatherer;
pub mod law;
pub mod layout;
pub mod mark;
pub mod names;
pub mod note;
mod style;
pub mod text;
pub mod window;
pub mod words;
