//! The reasons against an operation that don't depend on the permissions held.

ghost use Rattle.std.specs.Prelude.{◌≡◌, ◌||◌, None, not, nat_le};
ghost use Rattle.tl_beat.specs.statement.Width.{IsWidth};
ghost use Rattle.tl_beat.specs.statement.First.{first_if};
ghost use Rattle.tl_rules.specs.statement.History;
ghost use Rattle.tl_rules.specs.statement.Legality.{has_transfers};
ghost use Rattle.tl_client.specs.statement.Ask;
ghost use Rattle.tl_client.specs.statement.Ask.{breaks_b4, op_block};
ghost use Rattle.tl_client.specs.declared.busy.Busy.TheVariants.{B4, B5};

use crate::access::{is_access, is_sound};
use crate::busy::Busy;
use crate::operation::Op;
use tl_burst::message::Message;
use tl_rules::key::block_at;
use tl_rules::level::Level;

/// Whether the level has the operation.
fn is_of_level<const W: usize>(level: Level, operation: &Op<W>) -> bool
    ensures { result ≡ not (breaks_b4 level operation.now) }
{
    match operation {
        Op::Access(message) => is_access(level, message),
        _ => level == Level::C,
    }
}

/// Whether a Load or Store is of 1, 2, 4 or 8 bytes, at an address that is a multiple of their number.
fn is_word(address: u32, size: u8) -> bool
    ensures { result ≡ Ask.is_word address size }
{
    size <= 3 && address % (1 << size) == 0
}

/// Whether an operation is well formed.
fn is_formed<const W: usize>(level: Level, operation: &Op<W>) -> bool
    requires { IsWidth W }
    ensures { result ≡ Ask.is_formed level operation.now }
{
    match operation {
        Op::Load { address, size } | Op::Store { address, size, .. } => is_word(*address, *size),
        Op::Access(message) => is_sound(level, message),
        _ => true,
    }
}

/// The block of an operation.
pub fn op_block<const W: usize>(operation: &Op<W>) -> u32
    ensures { result ≡ Ask.op_block operation.now }
{
    match operation {
        Op::Load { address, .. } | Op::Store { address, .. } => block_at(*address),
        Op::Acquire { block, .. } | Op::AcquireWhole { block, .. } | Op::Release { block, .. } => {
            u32::from(*block)
        }
        Op::Access(Message::A(access)) => block_at(access.address),
        Op::Access(_) => 0,
    }
}

/// Why an operation doesn't start on a map of this many blocks, if it doesn't: B4 if the level doesn't have it,
/// otherwise B5 if its block is outside the map or it isn't well formed.
pub fn check<const W: usize>(level: Level, blocks: u16, operation: &Op<W>) -> Option<Busy>
    requires { IsWidth W }
    ensures { result ≡ first_if (breaks_b4 level operation.now) B4
        (first_if (nat_le blocks (op_block operation.now) || not (Ask.is_formed level operation.now)) B5 None) }
{
    if !is_of_level(level, operation) {
        return Some(Busy::B4);
    }
    if op_block(operation) >= u32::from(blocks) || !is_formed(level, operation) {
        return Some(Busy::B5);
    }
    None
}

/// `check` of a Load or a Store, for a map of this many blocks.
pub fn check_word(level: Level, blocks: u16, address: u32, size: u8) -> Option<Busy>
    ensures { result ≡ first_if (not (has_transfers level)) B4
        (first_if (nat_le blocks (History.block_at address) || not (Ask.is_word address size)) B5 None) }
{
    if level != Level::C {
        return Some(Busy::B4);
    }
    if block_at(address) >= u32::from(blocks) || !is_word(address, size) {
        return Some(Busy::B5);
    }
    None
}
