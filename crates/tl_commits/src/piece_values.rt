//! The values of a block after a store or a load.

ghost use Rattle.std.specs.Prelude.{ℕ, true, false, not, List, ◌∷◌, ◌+◌, ◌*◌, ◌^◌, ◌<◌, ◌≡◌, ◌&&◌, length, OnErr, OnOk};
ghost use Rattle.std.specs.Prelude.{is_some, slice_index};
ghost use Rattle.tl_beat.specs.statement.Width.{IsWidth};
ghost use Rattle.tl_burst.specs.statement.Messages.{History};
ghost use Rattle.tl_bytes.specs.code.Tellings.{is_written};
ghost use Rattle.tl_memory.specs.statement.Links.{KnowsMessages};
ghost use Rattle.tl_params.specs.declared.level.Level.{Level};
ghost use Rattle.tl_params.specs.declared.liberties.Liberties.{Liberties};
ghost use Rattle.tl_rules.specs.statement.Effect.{byte_of};
ghost use Rattle.tl_together.specs.statement.Knows.{Knows};
ghost use Rattle.tl_beat.specs.declared.beat.Link.{Link};
ghost use Rattle.tl_commits.specs.code.BlockValues.{IsPieceWrite, says_piece};
ghost use Rattle.tl_commits.specs.code.Tellings.{is_in};
ghost use Rattle.tl_commits.specs.code.ValueTable.{KnowsTable};
ghost use Rattle.tl_events.specs.declared.commit.Commit.TheVariants as commit;
ghost use Rattle.tl_events.specs.declared.commit.Event.TheVariants as event;
ghost use Rattle.tl_events.specs.statement.CommitLine.{IsPiece};
ghost use Rattle.tl_commits.specs.statement.Completeness.{Completeness};
ghost use Rattle.tl_commits.specs.statement.Copies;
ghost use Rattle.tl_commits.specs.statement.Events.{Events, beats_of};

use crate::copies::has_brought;
use crate::tellings::Places;
use crate::value_table::ValueTable;
use std::alloc::{AllocError, Global};
use tl_beat::beat::Link;
use tl_bytes::known_bytes::{BLOCK_BYTES, KnownBytes};
use tl_bytes::write::Write;
use tl_events::commit::Piece;
use tl_memory::early::{Asking, any_write};
use tl_memory::link::LinkMessages;
use tl_rules::key::block_at;
use tl_together::judge::Judge;

/// The bytes of a value, the lowest first, and others after them.
pub(crate) fn spread(value: u64) -> [u8; 64]
    ensures { (j : ℕ) → j < 8 → slice_index result j ≡ byte_of value j }
{
    let mut bytes = [0; 64];
    bytes[..8].copy_from_slice(&value.to_le_bytes());
    bytes
}

/// The write of these bytes of a piece to its block.
pub(crate) fn piece_write(piece: Piece, value: u64) -> Write
    ensures { IsPiece piece → IsPieceWrite result piece value }
{
    let any = any_write(&Asking {
        source: 0,
        address: piece.address,
        size: piece.size,
    });
    Write {
        values: KnownBytes::all(&spread(value)),
        ..any
    }
}

/// Takes the store of a piece into the values of its block. The error means that there is no memory left; then all that is
/// known stays true.
pub(crate) fn store_piece<const W: usize>(
    alloc: Global,
    judge: &Judge<W>,
    table: &mut ValueTable,
    piece: Piece,
    value: u64,
) -> Result<(), AllocError>
    ensures kept { OnErr result ((complete : Completeness) (n : ℕ) (e : Events W) → KnowsTable table.old complete n e →
        KnowsTable table.new complete n e) }
    ensures stored { OnOk result ((levels : List Level) (l : Liberties) (complete : Completeness) (link : Link)
        (e : Events W) → Knows judge.now levels l (beats_of e) false → IsPiece piece →
        KnowsTable table.old complete (length levels) e →
        KnowsTable table.new complete (length levels) ((link, event.Commit (commit.Store piece value)) ∷ e)) }
{
    let block = block_at(piece.address);
    table.meet(alloc, block)?;
    let write = piece_write(piece, value);
    table.store(alloc, block, &write, judge.moment())?;
    Ok(())
}

/// The places of a write whose bytes no Grant under way has brought to the block. `messages` are the unfinished messages
/// of the link.
fn unbrought<const W: usize>(messages: &LinkMessages, write: &Write, block: u32) -> Places
    requires width { IsWidth W }
    requires block { block < 2 ^ 26 }
    ensures { (t : History W) → KnowsMessages messages.now t → (place : ℕ) → place < 64 → is_in result place
        ≡ (is_written write.now place && not (is_some (Copies.brought (64 * block + place) t))) }
{
    let mut places = [false; 64];
    for place in 0..BLOCK_BYTES {
        if write.writes(place) {
            let brought = has_brought::<W>(messages, 64 * block + u32::from(place));
            places[usize::from(place)] = !brought;
        }
    }
    places
}

/// Takes the load of a piece that says bytes into the values of its block. The error means that there is no memory left; then
/// all that is known stays true.
pub(crate) fn load_piece<const W: usize>(
    alloc: Global,
    judge: &Judge<W>,
    table: &mut ValueTable,
    link: Link,
    piece: Piece,
    value: u64,
) -> Result<(), AllocError>
    requires { IsWidth W }
    ensures kept { OnErr result ((complete : Completeness) (n : ℕ) (e : Events W) → KnowsTable table.old complete n e →
        KnowsTable table.new complete n e) }
    ensures loaded { OnOk result ((levels : List Level) (l : Liberties) (complete : Completeness) (e : Events W) →
        Knows judge.now levels l (beats_of e) false → link.0 < length levels → IsPiece piece →
        says_piece complete link.0 piece e ≡ true → KnowsTable table.old complete (length levels) e →
        KnowsTable table.new complete (length levels) ((link, event.Commit (commit.Load piece value)) ∷ e)) }
{
    let block = block_at(piece.address);
    table.meet(alloc, block)?;
    let Some(messages) = judge.messages(link) else {
        return Ok(());
    };
    let write = piece_write(piece, value);
    let places = unbrought::<W>(messages, &write, block);
    table.load(alloc, block, &places, &write, judge.moment())?;
    Ok(())
}
