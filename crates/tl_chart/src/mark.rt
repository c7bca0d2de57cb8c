//! The permission held of a block, and since when.

use tl_beat::beat::Link;
use tl_params::perm::Perm;

/// From this line on the link holds this permission of the block.
#[derive(Clone, Copy)]
pub struct Mark {
    pub link: Link,
    pub line: u64,
    pub held: Perm,
}
