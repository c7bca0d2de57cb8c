//! The answer of a client to a beat that it doesn't refuse.

use tl_rules::perm::Perm;

/// The result of an operation.
#[derive(Clone, Copy, Debug, PartialEq, Eq)]
pub enum Finish {
    /// AccessAck.
    Ack,
    /// HintAck.
    Hint,
    /// AccessAckData: the size of the access, and its bytes from its address on, then zeros.
    Data(u8, [u8; 64]),
    /// Grant or GrantData, with this permission.
    Granted(Perm),
    /// ReleaseAck.
    Released,
}

/// The answer to a beat.
#[derive(Clone, Copy, Debug, PartialEq, Eq)]
pub enum Verdict {
    /// The beat has to wait, and nothing changed.
    Stalled,
    /// The beat was taken, and completes no response.
    Taken,
    /// The beat completes the response to the request or Release with this source.
    Done(u8, Finish),
}
