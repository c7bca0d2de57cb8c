//! The place of a beat in its burst (SiFive TileLink Specification 1.8, "Serialization" on bursts).

/// The place of a beat in its burst.
#[derive(Clone, Copy, Debug, PartialEq, Eq)]
pub enum Part {
    First,
    Middle,
    Last,
    Only,
}

/// The rule that a beat breaks if a control field differs from that of the unfinished burst.
#[derive(Clone, Copy, Debug, PartialEq, Eq)]
pub enum Broken {
    S1,
}
