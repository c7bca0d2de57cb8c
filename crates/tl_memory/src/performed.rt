//! The bytes that an access leaves in its block.

ghost use Rattle.std.specs.Prelude.{ℕ, true, false, ◌+◌, ◌*◌, ◌/◌, ◌%◌, ◌^◌, ◌<◌, ◌≡◌, ◌==◌, List};
ghost use Rattle.std.specs.Prelude.{if◌then◌else◌, slice_index};
ghost use Rattle.tl_beat.specs.declared.beat.Beat.{Beat};
ghost use Rattle.tl_beat.specs.statement.Width.{IsWidth};
ghost use Rattle.tl_burst.specs.declared.message.Message.TheVariants as message;
ghost use Rattle.tl_rules.specs.statement.Effect.{Memory, IsBlock, after, effect};
ghost use Rattle.tl_rules.specs.statement.History.{block_at};
ghost use Rattle.tl_bytes.specs.statement.Bytes.{Access, access_writes, found_memory, is_put};
ghost use Rattle.tl_bytes.specs.statement.Known.{HasBytes};
ghost use Rattle.tl_memory.specs.statement.Known.{IsAsked, IsPerformable, IsWhole, is_atomic};

use crate::access::{Asked, payload_of};
use tl_beat::channel::Channel;
use tl_beat::opcode::OpA;
use tl_burst::message::{Message, MessageA};
use tl_bytes::known_bytes::KnownBytes;
use tl_rules::legality::message::check;
use tl_rules::level::Level;
use tl_rules::perform::perform;
use tl_rules::place::{base, move_up};

/// The mask of an atomic: all bytes that it reaches.
fn atomic_mask<const W: usize>(size: u8, address: u32) -> u64
    requires { IsWidth W }
    ensures { result ≡ (if size == 2 then 15 else 255) * 2 ^ (address % W) % 2 ^ 64 }
{
    let lanes: u64 = if size == 2 { 0x0f } else { 0xff };
    lanes << (address as usize % W)
}

/// Performs an atomic on the bytes of its block.
fn perform_atomic<const W: usize>(request: &MessageA<W>, block: &mut [u8; 64])
    requires { IsWidth W }
    ensures { (memory : Memory) → is_atomic request.now.opcode ≡ true →
        IsPerformable W request.now.opcode request.now.param request.now.size request.now.address →
        IsBlock memory (request.now.address / 64) block.old →
        IsBlock (after request.now.opcode request.now memory) (request.now.address / 64) block.new }
{
    let message = Message::A(MessageA::<W> {
        opcode: request.opcode,
        param: request.param,
        size: request.size,
        source: request.source,
        address: request.address,
        payload: request.payload,
        mask: atomic_mask::<W>(request.size, request.address),
        corrupt: 0,
    });
    if check(Level::UH, Channel::A, &message).is_ok() {
        perform(block, &message);
    }
}

/// Whether the opcode is of a Put.
pub fn is_put(opcode: OpA) -> bool
    ensures { result ≡ is_put opcode }
{
    matches!(opcode, OpA::PutFullData | OpA::PutPartialData)
}

/// The bytes that an atomic leaves in its block, if its answer brought these.
pub fn performed<const W: usize>(asked: &Asked<W>, found: &KnownBytes) -> [u8; 64]
    requires { IsWidth W }
    ensures { (access : Access W) (answer : List (Beat W)) → IsAsked asked.now access →
        is_put access.request.opcode ≡ false → HasBytes found.now answer →
        access.spoiled ≡ false →
        IsPerformable W access.request.opcode access.request.param access.request.size access.request.address →
        IsWhole access → (place : ℕ) → place < 64 →
        access_writes (64 * block_at access.request.address + place) access ≡ true →
        slice_index result place ≡ (effect (message.A access.request) (found_memory access.request answer)).0
        (64 * block_at access.request.address + place) }
{
    let base = base::<W>(asked.request.address);
    let mut block = move_up(&payload_of(found), base);
    perform_atomic(&asked.request, &mut block);
    block
}
