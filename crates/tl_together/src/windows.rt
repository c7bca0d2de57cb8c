//! The last moments at which blocks could be accessed.

ghost use Rattle.std.specs.Prelude.{ℕ, None, true, OnOk, OnErr, if◌then◌else◌, ◌==◌, ◌&&◌, ◌≡◌};
ghost use Rattle.tl_memory.specs.statement.BlockMap.{value_in};
ghost use Rattle.tl_together.specs.code.Windows.{latest_window};

use std::alloc::{AllocError, Global};
use std::marker::Model;
use tl_memory::block_map::BlockMap;
use tl_memory::free::Freedom;

/// The last moments at which a block could be read and written: the numbers of beats taken by then.
#[derive(Clone, Copy)]
pub struct Window {
    pub reading: u64,
    pub writing: u64,
}

/// The last moments of a block for which none was noted.
const NONE_NOTED: Window = Window {
    reading: 0,
    writing: 0,
};

/// This moment if a block is free now, or else the one before.
fn latest(free: bool, moment: u64, before: u64) -> u64
    ensures { result ≡ (if free then moment else before) }
{
    if free { moment } else { before }
}

/// The last moments of a block, with this one if the block is free now.
fn latest_window(free: Freedom, moment: u64, before: Window) -> Window
    ensures { result ≡ latest_window free moment before }
{
    Window {
        reading: latest(free.reading, moment, before.reading),
        writing: latest(free.writing, moment, before.writing),
    }
}

/// The last moments at which blocks could be accessed. None is kept for a block that was always free.
#[derive(Drop)]
pub struct Windows {
    moments: BlockMap<Window>,
}

impl Model for Windows {
    ghost use Rattle.std.specs.Prelude.{ℕ, List};
    ghost use Rattle.tl_together.specs.declared.windows.Window.{Window};

    ghost Value = { List (List (ℕ × Window)) };

    ghost view = { λ w. w.moments };
}

impl Windows {
    ghost use Rattle.tl_together.specs.code.Windows.{is_noted, shown_window, window_in};

    /// No moment of any block.
    pub fn new(alloc: Global) -> Self
        ensures { (k : ℕ) → value_in result k ≡ None }
    {
        Windows {
            moments: BlockMap::new(alloc),
        }
    }

    /// The last moments of a block.
    pub fn get(&self, block: u32) -> Window
        ensures { result ≡ window_in self.now block }
    {
        match self.moments.get(block) {
            None => NONE_NOTED,
            Some(window) => window,
        }
    }

    /// Notes whether a block is free at this moment. The error means that there is no memory left; then nothing
    /// changes.
    pub fn note(&mut self, block: u32, free: Freedom, moment: u64) -> Result<(), AllocError>
        ensures changed { OnOk result ((k : ℕ) → window_in self.new k
            ≡ (if k == block then latest_window free moment (window_in self.old block) else window_in self.old k)) }
        ensures noted { OnOk result (is_noted self.new block ≡ true) }
        ensures unchanged { OnErr result (self.new ≡ self.old) }
    {
        match self.moments.get(block) {
            None => self
                .moments
                .insert(block, latest_window(free, moment, NONE_NOTED)),
            Some(window) => {
                self.moments
                    .replace(block, latest_window(free, moment, window));
                Ok(())
            }
        }
    }

    /// Notes that the bytes of a block are shown at this moment, if a moment of the block was noted.
    pub fn show(&mut self, block: u32, moment: u64)
        ensures { (k : ℕ) → window_in self.new k ≡ (if (k == block) && is_noted self.old k
            then shown_window moment (window_in self.old k) else window_in self.old k) }
    {
        if let Some(window) = self.moments.get(block) {
            let shown = Window {
                reading: moment,
                writing: window.writing,
            };
            self.moments.replace(block, shown);
        }
    }
}
