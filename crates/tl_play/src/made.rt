//! Clients, directories and worlds to try.

ghost use Rattle.std.specs.Prelude.{IfOk};
ghost use Rattle.tl_beat.specs.statement.Width.{IsWidth};
ghost use Rattle.tl_world.specs.code.Agents.{IsHired};
ghost use Rattle.tl_world.specs.statement.World.{AreReady, IsEmpty};

use crate::counting::Counting;
use std::alloc::{AllocError, Global};
use tl_client::agent::Agent;
use tl_client::any::AnyClient;
use tl_client::caching::Caching;
use tl_client::plain::Plain;
use tl_manager::bits::BitDirectory;
use tl_manager::directory::Directory;
use tl_manager::manager::Manager;
use tl_manager::table::TableDirectory;
use tl_rules::config::{ClientConfig, Config, NewFault};
use tl_rules::level::Level;
use tl_rules::profile::Profile;
use tl_world::world::World;

/// A kind of client that can be made.
pub trait Hires<const W: usize>: Agent<W> {
    /// A new client of its link. There is none for a level that isn't of the kind.
    fn hire(
        alloc: Global,
        config: ClientConfig,
        blocks: u16,
        profile: Profile,
    ) -> Result<Self, NewFault>
        requires { IsWidth W }
        ensures { IfOk result (λ client. IsHired Self.represents Self.terms config blocks profile client) };
}

impl<const W: usize> Hires<W> for AnyClient<W> {
    fn hire(
        alloc: Global,
        config: ClientConfig,
        blocks: u16,
        profile: Profile,
    ) -> Result<Self, NewFault> {
        AnyClient::new(alloc, config, blocks, profile)
    }
}

impl<const W: usize> Hires<W> for Counting<W> {
    fn hire(
        alloc: Global,
        config: ClientConfig,
        blocks: u16,
        profile: Profile,
    ) -> Result<Self, NewFault> {
        let client = AnyClient::new(alloc, config, blocks, profile)?;
        Ok(Counting { client, misses: 0 })
    }
}

impl<const W: usize> Hires<W> for Caching<W> {
    fn hire(
        alloc: Global,
        config: ClientConfig,
        blocks: u16,
        profile: Profile,
    ) -> Result<Self, NewFault> {
        match config.level {
            Level::C => Caching::new(alloc, config, blocks, profile),
            Level::UL | Level::UH => Err(NewFault::Memory),
        }
    }
}

impl<const W: usize> Hires<W> for Plain<W> {
    fn hire(
        alloc: Global,
        config: ClientConfig,
        blocks: u16,
        profile: Profile,
    ) -> Result<Self, NewFault> {
        match config.level {
            Level::UL | Level::UH => Plain::new(alloc, config, blocks, profile),
            Level::C => Err(NewFault::Memory),
        }
    }
}

/// A kind of directory that can be made.
pub trait Covers: Directory {
    /// A directory of the blocks and clients of a configuration, without any permission recorded.
    fn cover(alloc: Global, config: &Config) -> Result<Self, AllocError>
        ensures { IfOk result (λ directory. IsEmpty Self.perm_of Self.blocks Self.clients config.now directory) };
}

impl Covers for BitDirectory {
    fn cover(alloc: Global, config: &Config) -> Result<Self, AllocError> {
        let count = config.clients.len() as u8;
        BitDirectory::new(alloc, config.blocks, count)
    }
}

impl Covers for TableDirectory {
    fn cover(alloc: Global, config: &Config) -> Result<Self, AllocError> {
        let count = config.clients.len() as u8;
        TableDirectory::new(alloc, config.blocks, count)
    }
}

/// The clients of a configuration, of one kind.
pub fn hire_all<const W: usize, A: Hires<W>>(
    alloc: Global,
    config: &Config,
) -> Result<Vec<A>, NewFault>
    requires { IsWidth W }
    ensures { IfOk result (λ clients. AreReady A.represents A.terms config.now clients.items) }
{
    let mut clients = Vec::new(alloc);
    for client in config.clients.as_slice() {
        let client = A::hire(alloc, *client, config.blocks, config.profile)?;
        match clients.push(client) {
            Ok(()) => {}
            Err(refused) => return Err(AllocError::from(refused).into()),
        }
    }
    Ok(clients)
}

/// A new world.
pub fn make_world<const W: usize, A: Hires<W>, D: Covers>(
    alloc: Global,
    config: Config,
) -> Result<World<W, A, D>, NewFault>
    requires { IsWidth W }
{
    let clients = hire_all::<W, A>(alloc, &config)?;
    let directory = D::cover(alloc, &config)?;
    World::new(alloc, config, clients, directory)
}

/// A new manager.
pub fn make_manager<const W: usize, D: Covers>(
    alloc: Global,
    config: &Config,
) -> Result<Manager<W, D>, NewFault>
    requires { IsWidth W }
{
    let directory = D::cover(alloc, config)?;
    Manager::new(alloc, config, directory)
}
