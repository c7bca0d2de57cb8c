//! The width of a link.

/// The number of bytes of data in a beat.
#[derive(Clone, Copy, Debug, PartialEq, Eq)]
pub enum Width {
    Four,
    Eight,
    Sixteen,
}
