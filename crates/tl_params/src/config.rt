//! The configuration of a manager and its clients, and its limits.

ghost use Rattle.std.specs.Prelude.{◌≡◌};
ghost use Rattle.tl_params.specs.statement.Range.{is_from_to};

use crate::level::Level;
use crate::profile::Profile;
use crate::sources::sources_fit;
use arrayvec::ArrayVec;
use std::alloc::AllocError;

/// The most clients that a manager may have. A trace has at most as many links.
pub const MOST_CLIENTS: usize = 16;

/// The level of a client's link, and its number of sources: 1 to 8 for requests, and as many for Releases.
#[derive(Clone, Copy, Debug, Default, PartialEq, Eq)]
pub struct ClientConfig {
    pub level: Level,
    pub sources: u8,
}

/// A manager of 1 to 1,024 blocks of 64 bytes from address 0 on, with 1 to 8 trackers, and its 1 to
/// 16 clients.
#[derive(Drop)]
pub struct Config {
    pub blocks: u16,
    pub trackers: u8,
    pub clients: ArrayVec<ClientConfig, MOST_CLIENTS>,
    pub profile: Profile,
}

/// The reason why a constructor failed.
#[derive(Clone, Copy, Debug, PartialEq, Eq)]
pub enum NewFault {
    /// The number of clients is out of its limits.
    N1,
    /// The number of blocks is out of its limits.
    N2,
    /// The number of trackers is out of its limits.
    N3,
    /// A client's number of sources is out of its limits.
    N4,
    /// There is no memory left.
    Memory,
}

impl From<AllocError> for NewFault {
    ghost use Rattle.std.specs.Prelude.{◌≡◌};
    ghost use Rattle.tl_params.specs.declared.config.NewFault.TheVariants.{Memory};

    ghost from_gives = { λ _ fault. fault ≡ Memory };

    fn from(_error: AllocError) -> NewFault {
        NewFault::Memory
    }
}

fn blocks_fit(blocks: u16) -> bool
    ensures { result ≡ is_from_to 1 1024 blocks }
{
    1 <= blocks && blocks <= 1024
}

fn few_fit(count: u8) -> bool
    ensures { result ≡ is_from_to 1 8 count }
{
    1 <= count && count <= 8
}

impl ClientConfig {
    ghost use Rattle.std.specs.Prelude.{◌≡◌};
    ghost use Rattle.tl_params.specs.statement.Config.{client_fault};
    ghost use Rattle.tl_params.specs.statement.Refusal.{ok_unless};

    /// Checks a client on this many blocks. The error is the first limit that it breaks, in the order N2, N4.
    pub fn check(&self, blocks: u16) -> Result<(), NewFault>
        ensures { result ≡ ok_unless (client_fault self.now blocks) }
    {
        if !blocks_fit(blocks) {
            return Err(NewFault::N2);
        }
        if !few_fit(self.sources) {
            return Err(NewFault::N4);
        }
        Ok(())
    }
}

impl Config {
    ghost use Rattle.std.specs.Prelude.{◌≡◌};
    ghost use Rattle.tl_params.specs.statement.Config.{config_fault};
    ghost use Rattle.tl_params.specs.statement.Refusal.{ok_unless};

    /// Checks the configuration. The error is the first limit that it breaks, in the order N1 to N4.
    pub fn check(&self) -> Result<(), NewFault>
        ensures { result ≡ ok_unless (config_fault self.now) }
    {
        let clients = self.clients.as_slice();
        if clients.is_empty() {
            return Err(NewFault::N1);
        }
        if !blocks_fit(self.blocks) {
            return Err(NewFault::N2);
        }
        if !few_fit(self.trackers) {
            return Err(NewFault::N3);
        }
        if !sources_fit(clients) {
            return Err(NewFault::N4);
        }
        Ok(())
    }
}
