//! The width of a link of wide beats.

/// The number of bytes of data in a wide beat.
#[derive(Clone, Copy, Debug, PartialEq, Eq)]
pub enum WideWidth {
    Four,
    Eight,
    Sixteen,
    ThirtyTwo,
    SixtyFour,
}
