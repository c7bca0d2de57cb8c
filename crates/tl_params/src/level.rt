//! Levels of conformance (SiFive TileLink Specification 1.8, "Protocol Conformance Levels").

/// The level of a link: TL-UL has single reads and writes, TL-UH also bursts, atomics and hints, TL-C also transfers of
/// permissions.
#[derive(Clone, Copy, Debug, Default, PartialEq, Eq)]
pub enum Level {
    #[default]
    UL,
    UH,
    C,
}
