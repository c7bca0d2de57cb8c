//! A record of which events set the values of a block's bytes, in a link's copy and in memory.

ghost use Rattle.std.specs.Prelude.{◌^◌, ◌<◌};

use crate::set_lines::SetLines;
use std::alloc::Global;
use tl_beat::beat::Link;
use tl_commits::judge::CommitJudge;

/// The values that the bytes of a block may have in the copy of a link and in memory, and which events set them.
#[derive(Drop)]
pub struct CopyRecord<const W: usize> {
    pub(crate) alloc: Global,
    pub link: Link,
    pub(crate) block: u32,
    pub(crate) judge: CommitJudge<W>,
    /// Of the link's copy.
    pub(crate) copy: SetLines,
    /// Of memory.
    pub(crate) memory: SetLines,
    pub ghost addressed: { block < 2 ^ 26 },
}
