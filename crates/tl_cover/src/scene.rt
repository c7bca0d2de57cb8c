//! The facts about a message at its first beat, from the beats before it.

ghost use Rattle.std.specs.Prelude.{◌≡◌};
ghost use Rattle.tl_rules.specs.statement.Conformance.{same_perm};

use tl_beat::control::Control;
use tl_rules::past::Request;
use tl_rules::perm::Perm;

/// The state of a block on the link of a message, and on the other links.
#[derive(Clone, Copy)]
pub struct Standing {
    /// The permission that the link holds of the block.
    pub held: Perm,
    /// An Acquire of the block is pending on the link.
    pub acquire: bool,
    /// A Release of the block is pending on the link.
    pub release: bool,
    /// A Probe of the block is pending on the link.
    pub probe: bool,
    /// The GrantAck of the block is pending on the link.
    pub grant_ack: bool,
    /// The number of other links on which an Acquire of the block is pending.
    pub acquiring: usize,
    /// The number of other links that hold the block as Trunk.
    pub owners: usize,
    /// The number of other links that hold the block as Branch.
    pub readers: usize,
}

/// A Probe: its param, and its line in the trace.
#[derive(Clone, Copy, Debug, PartialEq, Eq)]
pub struct ProbeAt {
    pub param: u8,
    pub line: u64,
}

/// The facts about a message, from the beats before it.
#[derive(Clone, Copy)]
pub struct Scene {
    /// The line of the trace before its first beat.
    pub line: u64,
    /// The state of the message's block.
    pub block: Standing,
    /// The pending Probe of the message's block.
    pub asked: Option<ProbeAt>,
    /// The number of Grants of the link that wait for their GrantAcks.
    pub waiting: usize,
    /// The number of messages of its kind that are pending on the link: of Acquires, Gets, Puts or atomics for one of
    /// channel A, of Probes, Releases and Grants for one of B, C and D.
    pub depth: usize,
    /// The last request with the source of a response to one.
    pub request: Option<Request>,
    /// The control fields of the beat before it on the link.
    pub previous: Option<Control>,
    /// The newest beat of the incomplete message on the channel that the message answers.
    pub answered: Option<Control>,
    /// A message is incomplete on each of the channels A, C and D.
    pub between: bool,
    /// The number of other links on which a Grant is incomplete.
    pub granting: usize,
}

/// The state without a block.
pub const NOTHING: Standing = Standing {
    held: Perm::None,
    acquire: false,
    release: false,
    probe: false,
    grant_ack: false,
    acquiring: 0,
    owners: 0,
    readers: 0,
};

/// Whether these are the same permission.
pub fn is_same(one: Perm, other: Perm) -> bool
    ensures { result ≡ same_perm one other }
{
    one == other
}
