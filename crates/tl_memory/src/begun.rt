//! The bytes that a response may bring when it begins.

ghost use Rattle.std.specs.Box.{box_value};
ghost use Rattle.std.specs.Prelude.{ℕ, ◌≡◌, IfOk, Some, option_map};
ghost use Rattle.tl_beat.specs.declared.channel.Channel.TheVariants as channel;
ghost use Rattle.tl_burst.specs.statement.Messages.{unfinished};
ghost use Rattle.tl_rules.specs.statement.Conformance.{Trace, on_link};
ghost use Rattle.tl_memory.specs.code.Changing.{ExpectsAlong, ExpectsBegun};
ghost use Rattle.tl_memory.specs.code.Elsewhere.{block_borne};
ghost use Rattle.tl_memory.specs.code.Taking.{AnswersTo, IsLegalBeat};
ghost use Rattle.tl_memory.specs.statement.Expecting.{ExpectsLater, ExpectsResponse};
ghost use Rattle.tl_memory.specs.statement.Known.{KnowsMessage, KnowsState};
ghost use Rattle.tl_memory.specs.statement.Memory.{AreAddressed};

use crate::block::BlockState;
use crate::expected::Expected;
use crate::message::CarriedMessage;
use std::alloc::{AllocError, Global};
use tl_beat::beat::{Beat, BeatD, Link};
use tl_beat::opcode::OpD;

/// The bytes that a response may bring that begins with a beat of channel D, to a request of this block in this state.
/// The error means that there is no memory left.
pub fn begun<const W: usize>(
    alloc: Global,
    state: &BlockState<W>,
    link: Link,
    y: &BeatD<W>,
    block: u32,
) -> Result<Option<Box<Expected>>, AllocError>
    ensures { IfOk result (λ expected. (n : ℕ) (t : Trace W) → KnowsState state.now n block t →
        AnswersTo link.0 y.now block t → AreAddressed t →
        ExpectsResponse (option_map box_value expected) n link.0 y.now.opcode y.now.source t t) }
{
    match y.opcode {
        OpD::GrantData => {
            let bytes = state.granted(alloc)?;
            let expected = Expected {
                address: block.saturating_mul(64),
                size: 6,
                bytes,
            };
            Ok(Some(Box::new(alloc, expected)?))
        }
        OpD::AccessAckData => {
            let read = state.read(alloc, link, y.source)?;
            Ok(read)
        }
        _ => Ok(None),
    }
}

/// The bytes that the answer to a Get may bring with a beat that doesn't begin it, for a block in this state. None for
/// another response. The error means that there is no memory left.
pub fn along<const W: usize>(
    alloc: Global,
    state: &BlockState<W>,
    link: Link,
    y: &BeatD<W>,
) -> Result<Option<Box<Expected>>, AllocError>
    ensures { IfOk result (λ expected. (n block : ℕ) (t : Trace W) → KnowsState state.now n block t →
        AnswersTo link.0 y.now block t →
        ExpectsLater (option_map box_value expected) n link.0 y.now.opcode y.now.source t) }
{
    match y.opcode {
        OpD::AccessAckData => {
            let read = state.read_again(alloc, link, y.source)?;
            Ok(read)
        }
        _ => Ok(None),
    }
}

/// The bytes that a response may bring: as `begun` if it begins with this beat, otherwise as `along`. `brought` are the
/// bytes of its beats before. The error means that there is no memory left.
pub fn begun_with<const W: usize>(
    alloc: Global,
    state: &BlockState<W>,
    link: Link,
    x: &Beat<W>,
    brought: &CarriedMessage,
    block: u32,
) -> Result<Option<Box<Expected>>, AllocError>
    ensures { IfOk result (λ expected. (n : ℕ) (t : Trace W) → KnowsState state.now n block t →
        KnowsMessage brought.now (unfinished channel.D (on_link link.0 t)) → IsLegalBeat link.0 x.now t →
        block_borne x.now (on_link link.0 t) ≡ Some block → AreAddressed t →
        ExpectsBegun (option_map box_value expected) n (link, x.now) t
        × ExpectsAlong (option_map box_value expected) n (link, x.now) t) }
{
    match x {
        Beat::D(y) => {
            if brought.bytes.count() == 0 {
                begun(alloc, state, link, y, block)
            } else {
                along(alloc, state, link, y)
            }
        }
        _ => Ok(None),
    }
}
