//! The manager, the clients and their channels.

use crate::rings::Rings;
use tl_client::agent::Agent;
use tl_manager::directory::Directory;
use tl_manager::manager::Manager;

/// A manager, its clients by their number, and the channels between them.
#[derive(Drop)]
pub struct Network<const W: usize, A: Agent<W>, D: Directory> {
    pub clients: Vec<A>,
    pub manager: Manager<W, D>,
    pub rings: Rings<W>,
}
