//! A block in the cache of a link.

use tl_beat::beat::Link;

/// A block in the cache of a link.
#[derive(Clone, Copy)]
pub struct Cached {
    pub link: Link,
    pub block: u32,
}
