//! The reasons why a client doesn't start an operation.

/// The reason why a client doesn't start an operation: the first in the order B4, B5, B2, B3, B1.
#[derive(Clone, Copy, Debug, PartialEq, Eq)]
pub enum Busy {
    /// No source is free.
    B1,
    /// An Acquire or a Release of the block is pending.
    B2,
    /// The operation doesn't start from the permission held.
    B3,
    /// The level doesn't have the operation.
    B4,
    /// The block is outside the map, or the operation isn't well formed in size, alignment or message.
    B5,
}
