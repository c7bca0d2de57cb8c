//! The questions of the H rules to the history of a link.

ghost use Rattle.std.specs.Prelude.{◌≡◌};
ghost use Rattle.tl_burst.specs.statement.Messages.{History};
ghost use Rattle.tl_rules.specs.statement.History as history;
ghost use Rattle.tl_rules.specs.code.Open.{open_request, open_release, open_probe, has_open_grant};

use tl_beat::opcode::{OpA, OpB};
use tl_params::key::Key;
use tl_params::perm::Perm;

/// The fields of a request on which its answer depends.
#[derive(Clone, Copy, Debug, PartialEq, Eq)]
pub struct Request {
    pub opcode: OpA,
    pub param: u8,
    pub size: u8,
    pub block: u32,
}

/// The fields of a Probe on which its ProbeAck depends.
#[derive(Clone, Copy, Debug, PartialEq, Eq)]
pub struct Probe {
    pub opcode: OpB,
    pub param: u8,
}

/// One end of a link, with a summary of the link's history: the pending keys, the open messages, and the permissions
/// held.
pub trait Past<const W: usize> {
    /// The summary is that of this history.
    ghost knows: { Self → History W → Type 0 };

    /// Whether the key is pending.
    fn is_pending(&self, key: Key) -> bool
        ensures { (t : History W) → knows self.now t → result ≡ history.pending key t };

    /// The permission that the client holds of the block.
    fn held(&self, block: u32) -> Perm
        ensures { (t : History W) → knows self.now t → result ≡ history.held block t };

    /// The request with this source, if one is pending and complete.
    fn request(&self, source: u8) -> Option<Request>
        ensures { (t : History W) → knows self.now t → result ≡ open_request source t };

    /// The size of the Release with this source, if one is pending and complete.
    fn release(&self, source: u8) -> Option<u8>
        ensures { (t : History W) → knows self.now t → result ≡ open_release source t };

    /// The Probe of the block, if one is pending.
    fn probe(&self, block: u32) -> Option<Probe>
        ensures { (t : History W) → knows self.now t → result ≡ open_probe block t };

    /// Whether a Grant with this sink is pending and complete.
    fn has_grant(&self, sink: u8) -> bool
        ensures { (t : History W) → knows self.now t → result ≡ has_open_grant sink t };
}
