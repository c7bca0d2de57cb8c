//! The configuration of a manager, as C has it.

ghost use Rattle.std.specs.Prelude.{◌≡◌, ◌≤◌, length};
ghost use Rattle.tl_pictures.specs.statement.Configured.{client_at, link_fits, links_fit, IsConfigOf};

use crate::codes::{level_of, profile_of};
use arrayvec::ArrayVec;
use tl_rules::config::{ClientConfig, Config};

/// A client's link: its level, 0 for UL, 1 for UH and 2 for C, and its number of sources, 1 to 8.
#[repr(C)]
#[derive(Clone, Copy, Debug, PartialEq, Eq)]
pub struct LinkConfig {
    pub level: u8,
    pub sources: u8,
}

impl LinkConfig {
    fn fits(&self) -> bool
        ensures { result ≡ link_fits self.now }
    {
        self.level < 3 && 1 <= self.sources && self.sources <= 8
    }

    fn client(&self) -> ClientConfig
        ensures { result ≡ client_at self.now }
    {
        ClientConfig {
            level: level_of(self.level),
            sources: self.sources,
        }
    }
}

/// Whether each link has a level and a number of sources within their limits.
pub fn links_fit(links: &[LinkConfig]) -> bool
    ensures { result ≡ links_fit links.now }
{
    links.iter().all(|link| link.fits())
}

/// The configuration of a manager with a client for each of these links, at most 16.
pub fn config_of(links: &[LinkConfig], blocks: u16, trackers: u8, profile: u8) -> Config
    requires { length links.now ≤ 16 }
    ensures { IsConfigOf links.now blocks trackers profile result }
{
    let mut clients = ArrayVec::new();
    for link in links {
        clients.push(link.client());
    }
    Config {
        blocks,
        trackers,
        clients,
        profile: profile_of(profile),
    }
}
