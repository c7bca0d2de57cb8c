//! The history of its link, as a caching client keeps it.

use super::Caching;
use crate::release::is_releasing;
use crate::request::is_acquiring;
use tl_rules::key::Key;
use tl_rules::past::{Past, Probe, Request};
use tl_rules::perm::Perm;

impl<const W: usize> Past<W> for Caching<W> {
    ghost use Rattle.tl_client.specs.code.KnowsCaching.{KnowsCachingPast};

    ghost knows = { λ c t. KnowsCachingPast c t };

    fn is_pending(&self, key: Key) -> bool {
        match key {
            Key::RequestSource(source) => self.requests.at(source).is_some(),
            Key::ReleaseSource(source) => self.releases.at(source).is_some(),
            Key::AcquireOf(block) => is_acquiring(&self.requests, block),
            Key::ReleaseOf(block) => is_releasing(&self.releases, block),
            Key::GrantSink(sink) => match self.granting {
                Some(grant) => grant.sink == sink,
                None => false,
            },
            Key::GrantAckOf(block) => match self.granting {
                Some(grant) => grant.block == block,
                None => false,
            },
            // A Probe is answered at once.
            Key::ProbeOf(_) => false,
        }
    }

    fn held(&self, block: u32) -> Perm {
        self.table.held(block)
    }

    fn request(&self, source: u8) -> Option<Request> {
        match self.requests.at(source) {
            Some(request) => Some(request.judged()),
            None => None,
        }
    }

    fn release(&self, source: u8) -> Option<u8> {
        match self.releases.at(source) {
            Some(release) => Some(release.size),
            None => None,
        }
    }

    fn probe(&self, _block: u32) -> Option<Probe> {
        None
    }

    fn has_grant(&self, _sink: u8) -> bool {
        false
    }
}
