//! The history of its link, as a plain client keeps it.

use super::Plain;
use tl_rules::key::Key;
use tl_rules::past::{Past, Probe, Request};
use tl_rules::perm::Perm;

impl<const W: usize> Past<W> for Plain<W> {
    ghost use Rattle.tl_client.specs.code.KnowsPlain.{KnowsPlainPast};

    ghost knows = { λ p t. KnowsPlainPast p t };

    fn is_pending(&self, key: Key) -> bool {
        match key {
            Key::RequestSource(source) => self.requests.at(source).is_some(),
            // Below level C nothing else is sent or taken.
            _ => false,
        }
    }

    fn held(&self, _block: u32) -> Perm {
        Perm::None
    }

    fn request(&self, source: u8) -> Option<Request> {
        match self.requests.at(source) {
            Some(request) => Some(request.judged()),
            None => None,
        }
    }

    fn release(&self, _source: u8) -> Option<u8> {
        None
    }

    fn probe(&self, _block: u32) -> Option<Probe> {
        None
    }

    fn has_grant(&self, _sink: u8) -> bool {
        false
    }
}
