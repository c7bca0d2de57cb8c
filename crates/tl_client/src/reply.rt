//! The reply of a client to an operation.

ghost use Rattle.std.specs.Prelude.{ℕ, ◌≡◌, is_some};
ghost use Rattle.tl_burst.specs.declared.message.Message.{Message};
ghost use Rattle.tl_client.specs.statement.Answer.{handed};

use crate::busy::Busy;
use tl_burst::message::Message;

/// The reply to an operation.
#[derive(Clone, Copy, Debug, PartialEq, Eq)]
pub enum Reply {
    /// The number that a Load read.
    Value(u64),
    /// A Store was done.
    Stored,
    /// The permission held is too low for the Load or Store.
    Miss,
    /// A message with this source was handed out.
    Started(u8),
    /// The operation doesn't start, and nothing changes.
    Busy(Busy),
}

impl Reply {
    /// Whether a message is handed out with the reply.
    pub fn hands_out(self) -> bool
        ensures { (w : ℕ) (m : Message w) → result ≡ is_some (handed self m) }
    {
        matches!(self, Reply::Started(_))
    }

    /// The message that is handed out with the reply: this one, if the operation started.
    pub fn handed<const W: usize>(self, message: Message<W>) -> Option<Message<W>>
        ensures { result ≡ handed self message.entry }
    {
        match self {
            Reply::Started(_) => Some(message),
            Reply::Value(_) | Reply::Stored | Reply::Miss | Reply::Busy(_) => None,
        }
    }
}
