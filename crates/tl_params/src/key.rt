//! The keys that can be pending on a link (SiFive TileLink Specification 1.8, "Operations and Messages" on source and
//! sink identifiers, and the chapter on TL-C on concurrent transfers).

ghost use Rattle.std.specs.Prelude.{◌≡◌, ◌/◌};

/// A key is pending on a link at most once at a time. The number of a block is its address divided by 64.
#[derive(Clone, Copy, Debug, PartialEq, Eq)]
pub enum Key {
    /// A request of channel A with this source.
    RequestSource(u8),
    /// A Release with this source.
    ReleaseSource(u8),
    /// An Acquire of this block.
    AcquireOf(u32),
    /// A Release of this block.
    ReleaseOf(u32),
    /// A Grant with this sink.
    GrantSink(u8),
    /// The GrantAck of this block.
    GrantAckOf(u32),
    /// A Probe of this block.
    ProbeOf(u32),
}

/// The number of the block that an address is in.
pub fn block_at(address: u32) -> u32
    ensures { result ≡ address / 64 }
{
    address / 64
}
