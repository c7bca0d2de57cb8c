//! Configurations to try.

use arrayvec::ArrayVec;
use tl_rules::config::{ClientConfig, Config};
use tl_rules::level::Level;
use tl_rules::profile::Profile;

/// A configuration with this many blocks and trackers, and a client for each number of sources.
pub fn config_of(blocks: u16, trackers: u8, level: Level, sources: &[u8]) -> Config {
    let mut clients = ArrayVec::new();
    for sources in sources {
        let client = ClientConfig {
            level,
            sources: *sources,
        };
        let _pushed = clients.try_push(client);
    }
    Config {
        blocks,
        trackers,
        clients,
        profile: Profile::One,
    }
}
