//! The options of a random schedule.

ghost use Rattle.std.specs.Prelude.{◌≡◌, None};
ghost use Rattle.tl_params.specs.statement.Config.{config_fault};
ghost use Rattle.tl_params.specs.statement.Header.{profile_of};

use tl_params::config::Config;
use tl_params::header::Version;

/// The options of a random schedule. The same options give the same schedule.
#[derive(Drop)]
pub struct Options {
    /// The seed of the generator.
    pub seed: u64,
    /// The number of lines between the header and the last `drain`.
    pub events: u64,
    /// The number of contended blocks, from block 0 on: seven in eight of the operations are on these.
    pub contend: u16,
    /// The version of the header, with the bytes of a beat and the profile.
    pub version: Version,
    /// The configuration that the header names, within its limits.
    pub config: Config,
    pub ghost fits: { config_fault config ≡ None },
    pub ghost of_profile: { config.profile ≡ profile_of version },
}
