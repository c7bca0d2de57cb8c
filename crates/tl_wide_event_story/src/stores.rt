//! The last store to each byte of a block, in a wide trace.

use crate::places::{Places, piece_of};
use crate::words::append_wide_commit;
use std::alloc::{AllocError, Global};
use tl_beat::beat::Link;
use tl_wide_events::commit::WideCommit;

/// A store in the line of this number.
#[derive(Clone, Copy)]
pub struct StoreLine {
    pub number: u64,
    pub link: Link,
    pub commit: WideCommit,
}

/// The last store to each byte of a block.
#[derive(Drop)]
pub struct Stores {
    last: [Option<StoreLine>; 64],
}

/// Appends a store, unless it is that of line `told`. Returns the number of its line.
fn append_store(store: Option<StoreLine>, told: u64, out: &mut Vec<u8>) -> Result<u64, AllocError> {
    let Some(store) = store else {
        return Ok(told);
    };
    if store.number != told && piece_of(store.commit).size <= 3 {
        append_wide_commit(store.number, store.link, store.commit, out)?;
    }
    Ok(store.number)
}

impl Stores {
    /// No byte was stored.
    pub fn new() -> Self {
        Stores { last: [None; 64] }
    }

    /// Keeps a store to these bytes.
    pub fn keep(&mut self, store: StoreLine, places: Places) {
        for place in places.first..places.first + places.count {
            self.last[place] = Some(store);
        }
    }

    /// Appends the last stores to these bytes, one that reached several in a row once.
    fn append(&self, places: Places, out: &mut Vec<u8>) -> Result<(), AllocError> {
        let mut told = 0;
        for place in places.first..places.first + places.count {
            told = append_store(self.last[place], told, out)?;
        }
        Ok(())
    }

    /// Appends the last stores to these bytes, or that there is none.
    pub fn tell(&self, alloc: Global, places: Places, out: &mut Vec<u8>) -> Result<(), AllocError> {
        let mut lines = Vec::new(alloc);
        self.append(places, &mut lines)?;
        if lines.is_empty() {
            return out.extend_from_slice(b"  no store before it reached these bytes\n");
        }
        out.extend_from_slice(b"  the last stores to these bytes:\n")?;
        out.extend_from_slice(&lines)
    }
}
