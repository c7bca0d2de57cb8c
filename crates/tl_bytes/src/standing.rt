//! The relation of an answered access to its windows.

/// The relation of an access that writes, when its answer is complete, to the possible values of its block.
#[derive(Clone, Copy, Debug, PartialEq, Eq)]
pub enum Standing {
    /// It was performed in its only window, which has been open since this moment.
    Within(u64),
    /// It was performed before a message last set the block's bytes, which include its write.
    Told,
    /// It was performed before or after the newest possible value, or not at all.
    Anywhere,
}
