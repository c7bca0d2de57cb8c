//! The blocks of the last messages with each source.

ghost use Rattle.std.specs.Prelude.{ℕ, ◌≡◌, []};
ghost use Rattle.tl_burst.specs.statement.Messages.{History};
ghost use Rattle.tl_explain.specs.code.Recorded.{AreBlocks, asked_next, block_of, released_next};
ghost use Rattle.tl_monitor.specs.statement.Count.{at};

use tl_beat::beat::Beat;
use tl_monitor::byte_table::ByteTable;
use tl_params::key::block_at;
use tl_rules::kind::{is_release, is_release_ack};

/// The blocks of the last request and of the last Release with each source.
#[derive(Drop)]
pub struct Blocks {
    asked: ByteTable<u32>,
    released: ByteTable<u32>,
}

impl Blocks {
    /// No message has come.
    pub fn new() -> Self
        ensures { (w : ℕ) → AreBlocks {w = w} result [] }
    {
        Blocks {
            asked: ByteTable::new(),
            released: ByteTable::new(),
        }
    }

    /// The block of a beat's message; for an answer the block of its request or Release.
    pub fn of<const W: usize>(&self, beat: &Beat<W>) -> Option<u32>
        ensures { (t : History W) → AreBlocks self.now t → result ≡ block_of beat.now t }
    {
        match beat {
            Beat::A(x) => Some(block_at(x.address)),
            Beat::B(x) => Some(block_at(x.address)),
            Beat::C(x) => Some(block_at(x.address)),
            Beat::D(x) => {
                if is_release_ack(x.opcode) {
                    self.released.get(x.source)
                } else {
                    self.asked.get(x.source)
                }
            }
            Beat::E(_) => None,
        }
    }

    /// Takes a beat. `first` says that it begins a message.
    pub fn take<const W: usize>(&mut self, beat: &Beat<W>, first: bool)
        ensures asked { (s : ℕ) → at self.new.asked s ≡ asked_next first beat.now s (at self.old.asked s) }
        ensures released { (s : ℕ) → at self.new.released s ≡ released_next first beat.now s (at self.old.released s) }
    {
        match beat {
            Beat::A(x) if first => self.asked.set(x.source, Some(block_at(x.address))),
            Beat::C(x) if first && is_release(x.opcode) => {
                self.released.set(x.source, Some(block_at(x.address)));
            }
            _ => {}
        }
    }
}
