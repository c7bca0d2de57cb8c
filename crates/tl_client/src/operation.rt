//! The operations of a client.

use tl_burst::message::Message;
use tl_rules::param::{Grow, Prune};

/// An operation of a client. Addresses count bytes. The number of a block is its address divided by 64. A size is the
/// base-2 logarithm of a number of bytes.
#[derive(Clone, Copy, Debug, PartialEq, Eq)]
pub enum Op<const W: usize> {
    /// Reads a number from the client's copy, the lowest byte first.
    Load { address: u32, size: u8 },
    /// Writes the low `2^size` bytes of a number to the client's copy.
    Store { address: u32, size: u8, value: u64 },
    /// Asks for a higher permission on a block, by AcquireBlock.
    Acquire { block: u16, grow: Grow },
    /// Asks to write a whole block, by AcquirePerm. The bytes take effect when it is granted.
    AcquireWhole { block: u16, bytes: [u8; 64] },
    /// Gives up a permission on a block.
    Release { block: u16, prune: Prune },
    /// Sends an access, a message of channel A. The client replaces its source.
    Access(Message<W>),
}
