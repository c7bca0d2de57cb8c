//! The lines of a trace that are drawn.

ghost use Rattle.std.specs.Prelude.{◌≡◌, true};
ghost use Rattle.tl_chart.specs.statement.Drawn.{same_block, shows};

/// The lines of a trace that are drawn, and the block.
#[derive(Clone, Copy)]
pub struct Window {
    /// The first line.
    pub first: u64,
    /// The last line.
    pub last: u64,
    /// The most messages.
    pub most: u16,
    /// The one block that is drawn; `None` for all blocks.
    pub block: Option<u32>,
}

/// Whether there are two blocks, and they are the same.
pub fn is_same_block(one: Option<u32>, other: Option<u32>) -> bool
    ensures { result ≡ same_block one other }
{
    match (one, other) {
        (Some(one), Some(other)) => one == other,
        _ => false,
    }
}

impl Window {
    /// True only if the windows are the same.
    pub fn is(&self, other: &Window) -> bool
        ensures { result ≡ true → self.now ≡ other.now }
    {
        let same = match (self.block, other.block) {
            (None, None) => true,
            (one, other) => is_same_block(one, other),
        };
        same && self.first == other.first && self.last == other.last && self.most == other.most
    }

    /// Whether a message of this block is drawn.
    pub fn shows(&self, block: Option<u32>) -> bool
        ensures { result ≡ shows self.now.block block }
    {
        match self.block {
            None => true,
            Some(_) => is_same_block(self.block, block),
        }
    }
}
