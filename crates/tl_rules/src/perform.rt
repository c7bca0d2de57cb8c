//! The effect of an access on its block (SiFive TileLink Specification 1.8, chapters on TL-UL and TL-UH).

ghost use Rattle.std.specs.Prelude.{◌≡◌, ◌≤◌, ◌%◌, ◌*◌, ◌/◌, ◌^◌, ℕ, IsTrue, is_some, ◌≢◌, ◌<◌, slice_index};
ghost use Rattle.tl_beat.specs.statement.Width.{IsWidth};
ghost use Rattle.tl_burst.specs.statement.Burst.{beats_of, IsBlankAfter};
ghost use Rattle.tl_rules.specs.statement.Legality.{illegal_message, is_aligned};
ghost use Rattle.tl_rules.specs.code.Control.{a_control};
ghost use Rattle.tl_beat.specs.statement.Opcode.{a_carries_data};
ghost use Rattle.tl_rules.specs.statement.Effect.{IsBlock, number_from, effect, request_block, answer_of, after};
ghost use Rattle.tl_rules.specs.statement.Effect.{access_result, answer_at, as_payload, bytes_from, byte_count};
ghost use Rattle.tl_params.specs.statement.Param.{arithmetic_of, logical_of};

use crate::answer::Answer;
use crate::merge::merge_masked;
use crate::place::Span;
use crate::{atomic, place};
use tl_beat::channel::Channel;
use tl_beat::opcode::OpA;
use tl_burst::message::{Message, MessageA};
use tl_params::level::Level;
use tl_params::param::{Arithmetic, Logical};

/// The bytes that a request reads, as a payload.
fn read<const W: usize>(block: &[u8; 64], request: &MessageA<W>) -> [u8; 64]
    requires width { IsWidth W }
    requires aligned { IsTrue (is_aligned request.now.address request.now.size) }
    ensures { (memory : ℕ → ℕ) → IsBlock memory (request.now.address / 64) block.now
        → result ≡ as_payload (request.now.address % W)
        (bytes_from memory request.now.address (byte_count request.now)) }
{
    place::payload_at(block, Span::new::<W>(request.address, request.size))
}

/// Writes the bytes of a Put that its mask selects.
fn put<const W: usize>(block: &mut [u8; 64], request: &MessageA<W>)
    requires width { IsWidth W }
    requires carries { IsTrue (a_carries_data request.now.opcode) }
    ensures { (memory : ℕ → ℕ) → IsBlock memory (request.now.address / 64) block.old
        → IsBlock (after OpA.PutFullData request.now memory) (request.now.address / 64) block.new }
{
    let base = place::base::<W>(request.address);
    let payload = place::move_up(&request.payload, base);
    merge_masked(block, &payload, request.mask << base);
}

/// The operand of an atomic.
fn operand<const W: usize>(request: &MessageA<W>, span: Span) -> u64
    requires { span.count ≤ 8 }
    ensures value { result ≡ number_from (λ i. slice_index request.now.payload i) span.in_payload span.count }
    ensures below { result < 2 ^ (8 * span.count) }
{
    place::number_at(&request.payload, span.in_payload, span.count)
}

/// Performs ArithmeticData.
fn arithmetic<const W: usize>(block: &mut [u8; 64], request: &MessageA<W>)
    requires width { IsWidth W }
    requires small { request.now.size ≤ 3 }
    requires aligned { IsTrue (is_aligned request.now.address request.now.size) }
    requires known { IsTrue (is_some (arithmetic_of request.now.param)) }
    ensures { (memory : ℕ → ℕ) → IsBlock memory (request.now.address / 64) block.old
        → IsBlock (after OpA.ArithmeticData request.now memory) (request.now.address / 64) block.new }
{
    let Some(operation) = Arithmetic::from_param(request.param) else {
        unreachable!()
    };
    let span = Span::new::<W>(request.address, request.size);
    let old = place::number_at(block, span.in_block, span.count);
    let operand = operand(request, span);
    let new = atomic::arithmetic(operation, span.count, old, operand);
    place::write_number(block, span.in_block, span.count, new);
}

/// Performs LogicalData.
fn logical<const W: usize>(block: &mut [u8; 64], request: &MessageA<W>)
    requires width { IsWidth W }
    requires small { request.now.size ≤ 3 }
    requires aligned { IsTrue (is_aligned request.now.address request.now.size) }
    requires known { IsTrue (is_some (logical_of request.now.param)) }
    ensures { (memory : ℕ → ℕ) → IsBlock memory (request.now.address / 64) block.old
        → IsBlock (after OpA.LogicalData request.now memory) (request.now.address / 64) block.new }
{
    let Some(operation) = Logical::from_param(request.param) else {
        unreachable!()
    };
    let span = Span::new::<W>(request.address, request.size);
    let operand = &request.payload[span.in_payload..span.in_payload + span.count];
    let bytes = &mut block[span.in_block..span.in_block + span.count];
    atomic::logical(operation, request.size, bytes, operand);
}

/// Performs an access on its block and answers it.
fn access<const W: usize>(block: &mut [u8; 64], request: &MessageA<W>) -> Answer
    requires width { IsWidth W }
    requires legal { a_control W Level.UH request.now.opcode request.now.param request.now.size request.now.address
        ≡ None }
    ensures memory { (memory : ℕ → ℕ) → IsBlock memory (request.now.address / 64) block.old
        → IsBlock (after request.now.opcode request.now memory) (request.now.address / 64) block.new }
    ensures answer { (memory : ℕ → ℕ) → IsBlock memory (request.now.address / 64) block.old
        → result ≡ answer_at W request.now.address (access_result request.now.opcode request.now memory) }
{
    match request.opcode {
        OpA::PutFullData | OpA::PutPartialData => {
            put(block, request);
            Answer::Ack
        }
        OpA::ArithmeticData => {
            let old = read(block, request);
            arithmetic(block, request);
            Answer::Data(old)
        }
        OpA::LogicalData => {
            let old = read(block, request);
            logical(block, request);
            Answer::Data(old)
        }
        OpA::Get => Answer::Data(read(block, request)),
        OpA::Intent => Answer::Hint,
        OpA::AcquireBlock | OpA::AcquirePerm => unreachable!(),
    }
}

/// Performs an access on its block and answers it: a Put with `Ack`, an Intent with `Hint`, the others with the old
/// bytes. The message must be legal at TL-UH.
pub fn perform<const W: usize>(block: &mut [u8; 64], message: &Message<W>) -> Answer
    requires width { IsWidth W }
    requires legal { illegal_message Level.UH Channel.A message.now ≡ None }
    ensures memory { (memory : ℕ → ℕ) → IsBlock memory (request_block message.now) block.old
        → IsBlock (effect message.now memory).0 (request_block message.now) block.new }
    ensures answer { (memory : ℕ → ℕ) → IsBlock memory (request_block message.now) block.old
        → result ≡ answer_of message.now (effect message.now memory).1 }
    ensures elsewhere { IsBlankAfter (beats_of message.now) message.now
        → (memory : ℕ → ℕ) (address : ℕ) → address / 64 ≢ request_block message.now →
        (effect message.now memory).0 address ≡ memory address }
{
    let Message::A(request) = message else {
        unreachable!()
    };
    access(block, request)
}
