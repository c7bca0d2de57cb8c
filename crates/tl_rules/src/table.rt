//! The summary of a link's history, by keys.

use crate::past::Probe;
use tl_params::perm::Perm;

/// The fields of a Release on which later messages depend.
#[derive(Clone, Copy, Debug, PartialEq, Eq)]
pub struct Release {
    pub size: u8,
    pub block: u32,
}

/// The fields of a pending Probe on which later messages depend, with its source.
#[derive(Clone, Copy, Debug, PartialEq, Eq)]
pub struct PendingProbe {
    pub probe: Probe,
    pub source: u8,
}

/// The state of a block: the permission that the client holds, and the pending transfers.
#[derive(Clone, Copy, Debug, PartialEq, Eq)]
pub struct Block {
    pub held: Perm,
    /// An Acquire of the block is pending.
    pub acquire: bool,
    /// A Release of the block is pending.
    pub release: bool,
    /// The Probe of the block that is pending.
    pub probe: Option<PendingProbe>,
    /// The sink of the last Grant of the block, if its GrantAck is pending.
    pub grant: Option<u8>,
}
