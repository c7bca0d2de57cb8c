//! The state of a world.

use crate::network::Network;
use crate::outstanding::Outstanding;
use tl_client::agent::Agent;
use tl_manager::directory::Directory;

/// The manager, its clients and their channels, with the numbers of operations outstanding.
#[derive(Drop)]
pub struct WorldState<const W: usize, A: Agent<W>, D: Directory> {
    pub network: Network<W, A, D>,
    pub outstanding: Outstanding,
}
