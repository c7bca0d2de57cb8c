//! The channels of a link (SiFive TileLink Specification 1.8, "Signal descriptions").

/// A channel of a link, in rising priority. A, C and E go from the client to the manager, B and D from the manager to
/// the client.
#[derive(Clone, Copy, Debug, PartialEq, Eq)]
pub enum Channel {
    A,
    B,
    C,
    D,
    E,
}
