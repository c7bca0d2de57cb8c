//! The bytes of the blocks.

ghost use Rattle.std.specs.Prelude.{ℕ, ◌≡◌, ◌<◌, ◌*◌, ◌/◌, length, IfOk, if◌then◌else◌};
ghost use Rattle.tl_beat.specs.statement.Width.{IsWidth};
ghost use Rattle.tl_burst.specs.declared.message.Message.{Message};
ghost use Rattle.tl_burst.specs.statement.Burst.{beats_of, IsBlankAfter};
ghost use Rattle.tl_rules.specs.statement.Effect.{Memory, bytes_from, effect, answer_of};
ghost use Rattle.tl_rules.specs.statement.Legality.{illegal_message};
ghost use Rattle.tl_manager.specs.code.Blocks.{AreBlocks};
ghost use Rattle.tl_manager.specs.statement.Reaction.{with_block};

use crate::manager::types::prove_long;
use std::alloc::{AllocError, Global};
use tl_beat::channel::Channel;
use tl_burst::message::{Message, MessageA};
use tl_rules::answer::Answer;
use tl_rules::key::block_at;
use tl_rules::level::Level;
use tl_rules::perform::perform;

/// The blocks of the map, from address 0 on, 64 bytes each.
#[derive(Drop)]
pub struct Blocks {
    pub bytes: Vec<[u8; 64]>,
}

impl Blocks {
    /// This many blocks of zeros. The error means that there is no memory left.
    pub fn new(alloc: Global, count: u16) -> Result<Blocks, AllocError>
        ensures count { IfOk result (λ b. length b.bytes.items ≡ count) }
        ensures zero { IfOk result (λ b. AreBlocks b.bytes.items (λ address. 0)) }
    {
        let mut bytes = Vec::new(alloc);
        bytes.resize(usize::from(count), [0; 64])?;
        Ok(Blocks { bytes })
    }

    /// The number of blocks.
    pub fn count(&self) -> usize
        ensures { result ≡ length self.now.bytes.items }
    {
        self.bytes.len()
    }

    /// The bytes of a block.
    pub fn read(&self, block: usize) -> [u8; 64]
        requires { block < length self.now.bytes.items }
        ensures { (memory : Memory) → AreBlocks self.now.bytes.items memory →
            result ≡ bytes_from memory (64 * block) 64 }
    {
        self.bytes[block]
    }

    /// Replaces all bytes of a block.
    pub fn write(&mut self, block: usize, bytes: &[u8; 64])
        requires { block < length self.old.bytes.items }
        ensures bytes { (memory : Memory) → AreBlocks self.old.bytes.items memory →
            AreBlocks self.new.bytes.items (with_block block bytes.now memory) }
        ensures count { length self.new.bytes.items ≡ length self.old.bytes.items }
    {
        self.bytes[block] = *bytes;
    }

    /// Replaces all bytes of a block if `carries`.
    pub fn write_if(&mut self, carries: bool, block: usize, bytes: &[u8; 64])
        requires { block < length self.old.bytes.items }
        ensures bytes { (memory : Memory) → AreBlocks self.old.bytes.items memory →
            AreBlocks self.new.bytes.items (if carries then with_block block bytes.now memory else memory) }
        ensures count { length self.new.bytes.items ≡ length self.old.bytes.items }
    {
        if carries {
            self.write(block, bytes);
        }
    }

    /// Performs an access on its block, and answers it.
    pub fn perform<const W: usize>(&mut self, request: &MessageA<W>) -> Answer
        requires width { IsWidth W }
        requires legal { illegal_message Level.UH Channel.A (Message.A request.now) ≡ None }
        requires blank { IsBlankAfter (beats_of (Message.A request.now)) (Message.A request.now) }
        requires inside { request.now.address / 64 < length self.old.bytes.items }
        ensures bytes { (memory : Memory) → AreBlocks self.old.bytes.items memory →
            AreBlocks self.new.bytes.items (effect (Message.A request.now) memory).0 }
        ensures answer { (memory : Memory) → AreBlocks self.old.bytes.items memory →
            result ≡ answer_of (Message.A request.now) (effect (Message.A request.now) memory).1 }
        ensures count { length self.new.bytes.items ≡ length self.old.bytes.items }
    {
        let block = block_at(request.address) as usize;
        let bytes = &mut self.bytes[block];
        let answer = perform(bytes, &Message::A(*request));
        prove_long(bytes);
        answer
    }
}
