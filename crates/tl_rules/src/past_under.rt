//! The questions of the H rules to the history of a link with liberties.

ghost use Rattle.std.specs.Prelude.{true, ◌≡◌};
ghost use Rattle.tl_burst.specs.statement.Messages.{History};
ghost use Rattle.tl_params.specs.declared.liberties.Liberties.{Liberties};
ghost use Rattle.tl_rules.specs.statement.History as history;
ghost use Rattle.tl_rules.specs.statement.Liberties.{held_under};
ghost use Rattle.tl_rules.specs.code.Open.{open_request_under, open_release_under, open_probe, probe_source};
ghost use Rattle.tl_rules.specs.code.Open.{has_open_grant_under};

use crate::past::{Past, Probe, Request};
use tl_params::key::Key;
use tl_params::perm::Perm;

/// One end of a link, with a summary of the link's history: the pending keys, the open messages, and the permissions
/// held.
pub trait PastUnder<const W: usize> {
    /// The summary is that of this history under these liberties.
    ghost knows: { Self → Liberties → History W → Type 0 };

    /// Whether the key is pending.
    fn is_pending(&self, key: Key) -> bool
        ensures { (l : Liberties) (t : History W) → knows self.now l t → result ≡ history.pending key t };

    /// The permission that the client holds of the block.
    fn held(&self, block: u32) -> Perm
        ensures { (l : Liberties) (t : History W) → knows self.now l t → result ≡ held_under l block t };

    /// The request with this source, if one is pending and complete. With `early` it needn't be complete.
    fn request(&self, source: u8) -> Option<Request>
        ensures { (l : Liberties) (t : History W) → knows self.now l t → result ≡ open_request_under l source t };

    /// The size of the Release with this source, if one is pending and complete; see `request`.
    fn release(&self, source: u8) -> Option<u8>
        ensures { (l : Liberties) (t : History W) → knows self.now l t → result ≡ open_release_under l source t };

    /// The Probe of the block, if one is pending.
    fn probe(&self, block: u32) -> Option<Probe>
        ensures { (l : Liberties) (t : History W) → knows self.now l t → result ≡ open_probe block t };

    /// The source of the Probe of the block, if one is pending. Called only under the liberty `ids`.
    fn probe_source(&self, block: u32) -> Option<u8>
        ensures { (l : Liberties) (t : History W) → knows self.now l t → l.ids ≡ true → result ≡ probe_source block t };

    /// Whether a Grant with this sink is pending and complete. With `early` it needn't be complete.
    fn has_grant(&self, sink: u8) -> bool
        ensures { (l : Liberties) (t : History W) → knows self.now l t → result ≡ has_open_grant_under l sink t };
}

/// One end of a link that has the liberties of a profile and no others.
#[derive(Drop)]
pub struct AtProfile<'a, P> {
    pub past: &'a P,
}

impl<'a, const W: usize, P: Past<W>> PastUnder<W> for AtProfile<'a, P> {
    ghost use Rattle.tl_rules.specs.code.Open.{IsOfProfile};

    ghost knows = { λ a l t. IsOfProfile l × P.knows a.past.now t };

    fn is_pending(&self, key: Key) -> bool {
        self.past.is_pending(key)
    }

    fn held(&self, block: u32) -> Perm {
        self.past.held(block)
    }

    fn request(&self, source: u8) -> Option<Request> {
        self.past.request(source)
    }

    fn release(&self, source: u8) -> Option<u8> {
        self.past.release(source)
    }

    fn probe(&self, block: u32) -> Option<Probe> {
        self.past.probe(block)
    }

    fn probe_source(&self, _block: u32) -> Option<u8> {
        None
    }

    fn has_grant(&self, sink: u8) -> bool {
        self.past.has_grant(sink)
    }
}
