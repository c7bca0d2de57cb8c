//! Permissions on a block (SiFive TileLink Specification 1.8, chapter on TL-C).

/// The permission that a client holds of a block.
#[derive(Clone, Copy, Debug, PartialEq, Eq)]
pub enum Perm {
    /// No copy.
    None,
    /// A copy to read.
    Branch,
    /// The only copy, to read and write.
    Trunk,
}
