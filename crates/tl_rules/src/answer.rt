//! Answers to accesses.

/// The answer to an access: AccessAck, HintAck, or AccessAckData with the data laid out as a payload.
#[derive(Clone, Copy, Debug, PartialEq, Eq)]
pub enum Answer {
    Ack,
    Hint,
    Data([u8; 64]),
}
