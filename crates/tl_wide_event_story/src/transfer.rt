//! An unfinished message on a channel of a link of a wide trace.

ghost use Rattle.std.specs.Prelude.{◌≡◌, ◌+◌, ◌==◌, IsTrue, OnOk, if◌then◌else◌};
ghost use Rattle.tl_beat.specs.statement.Width.{IsWidth};
ghost use Rattle.tl_burst.specs.statement.Messages;
ghost use Rattle.tl_burst.specs.statement.Part.{is_small};

use std::alloc::{AllocError, Global};
use tl_beat::beat::Beat;
use tl_burst::burst::burst_length;

/// The unfinished message on a channel of a link: the number of its parts that have come, 0 if there is none, and the
/// words of its first wide beat, none unless it moves data of the block.
#[derive(Drop)]
pub struct Transfer {
    pub came: u64,
    pub begun: Vec<u8>,
}

impl Transfer {
    /// No message has begun.
    pub fn new(alloc: Global) -> Self
        ensures { result.came ≡ 0 }
    {
        Transfer {
            came: 0,
            begun: Vec::new(alloc),
        }
    }

    /// Takes the next part of a beat of the channel. `words` are those of the wide beat if it moves data of the block.
    pub fn take<const P: usize>(&mut self, words: &[u8], part: &Beat<P>) -> Result<(), AllocError>
        requires width { IsWidth P }
        requires small { IsTrue (is_small part.now) }
        ensures { OnOk result (self.new.came
            ≡ (if self.old.came + 1 == Messages.burst_length part.now then 0 else self.old.came + 1)) }
    {
        let came = self.came.checked_add(1).ok_or(AllocError)?;
        if came == u64::from(burst_length(part)) {
            self.came = 0;
            self.begun.clear();
            return Ok(());
        }
        if self.came == 0 {
            self.begun.clear();
            self.begun.extend_from_slice(words)?;
        }
        self.came = came;
        Ok(())
    }
}
