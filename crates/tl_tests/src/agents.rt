//! Calls of clients, managers, worlds and directories that no file of trials can make.

mod configurations;
mod directories;
mod limits;
mod unsaid;
mod worlds;
