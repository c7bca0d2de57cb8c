//! Releases: the fields by which their answers are judged.

ghost use Rattle.std.specs.List.{list_any};
ghost use Rattle.std.specs.Prelude.{◌≡◌, ◌==◌};
ghost use Rattle.tl_client.specs.statement.Requests.{releases_block};

use crate::sources::Sources;
use tl_burst::message::MessageC;
use tl_rules::key::block_at;

/// The fields of a pending Release.
#[derive(Clone, Copy, Debug, PartialEq, Eq)]
pub struct Release {
    pub size: u8,
    pub address: u32,
}

impl Release {
    ghost use Rattle.tl_client.specs.statement.Requests.{release_in};

    /// The fields of this Release.
    pub fn of<const W: usize>(release: &MessageC<W>) -> Self
        ensures { result ≡ release_in release.now }
    {
        Release {
            size: release.size,
            address: release.address,
        }
    }
}

/// Whether there is a Release, and it is of the block.
pub fn is_release_of(release: Option<Release>, block: u32) -> bool
    ensures { result ≡ releases_block block release }
{
    match release {
        None => false,
        Some(release) => block_at(release.address) == block,
    }
}

/// Whether a Release of the block is pending.
pub fn is_releasing(releases: &Sources<Release>, block: u32) -> bool
    ensures { result ≡ list_any (releases_block block) releases.now.with_source }
{
    let all = releases.all();
    all.iter().any(|release| is_release_of(*release, block))
}
