//! The blocks of the messages of a link.

ghost use Rattle.std.specs.Prelude.{ℕ, ◌≡◌, ◌∷◌, []};
ghost use Rattle.tl_burst.specs.statement.Messages.{History};
ghost use Rattle.tl_chart.specs.code.Gathered.{KnowsBlocks, granted_next};
ghost use Rattle.tl_chart.specs.statement.Messages.{message_block};
ghost use Rattle.tl_monitor.specs.statement.Count.{at};
ghost use Rattle.tl_rules.specs.statement.History.{begins};

use tl_beat::beat::Beat;
use tl_explain::blocks::Blocks;
use tl_monitor::byte_table::ByteTable;
use tl_params::key::block_at;
use tl_rules::kind::is_grant;

/// The blocks of the last request and the last Release with each source, and of the last Grant with each
/// sink.
#[derive(Drop)]
pub struct LinkBlocks {
    blocks: Blocks,
    granted: ByteTable<u32>,
}

impl LinkBlocks {
    /// No message has come.
    pub fn new() -> Self
        ensures { (w : ℕ) → KnowsBlocks {w = w} result [] }
    {
        LinkBlocks {
            blocks: Blocks::new(),
            granted: ByteTable::new(),
        }
    }

    /// The block of a beat's message; for an answer the block of the message that it answers.
    pub fn of<const W: usize>(&self, beat: &Beat<W>) -> Option<u32>
        ensures { (t : History W) → KnowsBlocks self.now t → result ≡ message_block beat.now t }
    {
        match beat {
            Beat::E(x) => self.granted.get(x.sink),
            _ => self.blocks.of(beat),
        }
    }

    /// Takes a beat, and returns the block of its message. `first` says that it begins the message.
    pub fn take<const W: usize>(&mut self, beat: &Beat<W>, first: bool) -> Option<u32>
        ensures known { (t : History W) → KnowsBlocks self.old t → first ≡ begins beat.now t →
            KnowsBlocks self.new (beat.now ∷ t) }
        ensures block { (t : History W) → KnowsBlocks self.old t → result ≡ message_block beat.now t }
    {
        let block = self.of(beat);
        grant(&mut self.granted, beat, first, block);
        self.blocks.take(beat, first);
        block
    }
}

/// The block of a beat's message on a link without earlier beats.
pub fn first_block<const W: usize>(beat: &Beat<W>) -> Option<u32>
    ensures { result ≡ message_block beat.now [] }
{
    match beat {
        Beat::A(x) => Some(block_at(x.address)),
        Beat::B(x) => Some(block_at(x.address)),
        Beat::C(x) => Some(block_at(x.address)),
        Beat::D(_) => None,
        Beat::E(_) => None,
    }
}

/// Records the block of a Grant that begins, under its sink.
fn grant<const W: usize>(
    granted: &mut ByteTable<u32>,
    beat: &Beat<W>,
    first: bool,
    block: Option<u32>,
)
    ensures { (s : ℕ) → at granted.new s ≡ granted_next first beat.now block s (at granted.old s) }
{
    match beat {
        Beat::D(x) if first && is_grant(x.opcode) => granted.set(x.sink, block),
        _ => {}
    }
}
