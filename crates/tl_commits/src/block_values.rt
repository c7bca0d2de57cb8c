//! The possible values of a block's bytes, by the beats and the commits.

ghost use Rattle.std.specs.Prelude.{ℕ, ◌∷◌, ◌+◌, ◌*◌, ◌<◌, ◌≡◌, length, IfOk, OnErr, OnOk};
ghost use Rattle.tl_beat.specs.declared.beat.Beat.{Beat};
ghost use Rattle.tl_beat.specs.declared.beat.Link.{Link};
ghost use Rattle.tl_bytes.specs.code.Tellings.{with_write};
ghost use Rattle.tl_bytes.specs.statement.Known.{tellings_at};
ghost use Rattle.tl_bytes.specs.statement.KnownBytes.{known_at};
ghost use Rattle.tl_commits.specs.code.BlockValues as code;
ghost use Rattle.tl_commits.specs.code.BlockValues.{AreFirst, AreSame, KnowsValues};
ghost use Rattle.tl_events.specs.declared.commit.Event.TheVariants as event;
ghost use Rattle.tl_commits.specs.statement.Completeness.{Completeness, first_value};
ghost use Rattle.tl_commits.specs.statement.Commits;
ghost use Rattle.tl_commits.specs.statement.Copies.{link_beats};
ghost use Rattle.tl_commits.specs.statement.Events.{Events, beats_of};
ghost use Rattle.tl_commits.specs.statement.Seen as seen;
ghost use Rattle.tl_memory.specs.statement.ByteChanges.{IsByteChange};

use crate::common::have_common;
use crate::tellings::{Places, chosen, is_in, set, told, with_written, written};
use std::alloc::{AllocError, Global};
use tl_bytes::known_bytes::{BLOCK_BYTES, KnownBytes};
use tl_bytes::telling::Told;
use tl_bytes::write::Write;
use tl_memory::byte_change::ByteChange;
use tl_memory::message::{both, either};

/// The possible values of a block's bytes, those of each byte the newest first.
#[derive(Drop)]
pub struct BlockValues {
    /// By all beats and commits.
    pub seen: Vec<Told>,
    /// The places that were stored to since a message set them.
    pub(crate) stored: Places,
    /// Those that memory has, with all copies left out.
    pub memory: Vec<Told>,
}

/// These values after a beat that makes this change, if it sets none, at this moment.
fn changed(
    alloc: Global,
    before: &[Told],
    change: &ByteChange,
    moment: u64,
) -> Result<Vec<Told>, AllocError>
    ensures { IfOk result (λ told. (place : ℕ) → place < 64 → tellings_at place told.items
        ≡ code.changed change.now moment place (tellings_at place before.now)) }
{
    match change {
        ByteChange::Written { write, standing } => written(alloc, before, write, *standing, moment),
        _ => Vec::from_slice(alloc, before),
    }
}

/// The bytes of a block before the trace: zero, or none that is known.
fn first_bytes(zero: bool) -> KnownBytes
    ensures { (place : ℕ) → place < 64 → known_at result place ≡ first_value zero }
{
    if zero {
        return KnownBytes::all(&[0; 64]);
    }
    KnownBytes::none()
}

impl BlockValues {
    /// A block before the trace: its bytes are zero, or may have any value. The error means that there is no memory
    /// left.
    pub fn new(alloc: Global, zero: bool) -> Result<Self, AllocError>
        ensures { IfOk result (AreFirst zero) }
    {
        let first = first_bytes(zero);
        Ok(BlockValues {
            seen: told(alloc, &first, 0)?,
            stored: [false; 64],
            memory: told(alloc, &first, 0)?,
        })
    }

    /// A copy of these values. The error means that there is no memory left.
    pub(crate) fn copied(&self, alloc: Global) -> Result<Self, AllocError>
        ensures { IfOk result (AreSame self.now) }
    {
        let seen = Vec::from_slice(alloc, self.seen.as_slice())?;
        let memory = Vec::from_slice(alloc, self.memory.as_slice())?;
        Ok(BlockValues {
            seen,
            stored: self.stored,
            memory,
        })
    }

    /// The values of memory after a message that sets the block's bytes to these, unless it is a Grant that answers an
    /// AcquirePerm.
    fn memory_told(
        &self,
        alloc: Global,
        values: &KnownBytes,
        unread: bool,
        moment: u64,
    ) -> Result<Vec<Told>, AllocError>
        ensures { IfOk result (λ told. (place : ℕ) → place < 64 → tellings_at place told.items
            ≡ code.memory_told values.now unread moment place (tellings_at place self.now.memory.items)) }
    {
        if unread {
            return Vec::from_slice(alloc, self.memory.as_slice());
        }
        told(alloc, values, moment)
    }

    /// The values after a beat that makes this change; `moment` is the number of beats before it. `loses` says whether
    /// with it the stored bytes are lost, as the manager wants it. The error means that there is no memory left.
    pub fn after_beat(
        &self,
        alloc: Global,
        change: &ByteChange,
        loses: bool,
        moment: u64,
    ) -> Result<Self, AllocError>
        ensures { IfOk result (λ v. (w : ℕ) (complete : Completeness) (n block : ℕ) (x : Link × Beat w) (e : Events w) →
            KnowsValues self.now complete n block e → IsByteChange change.now n block x (beats_of e) →
            loses ≡ seen.loses_stores block x.1 (link_beats x.0.0 e) → moment ≡ length (beats_of e) →
            KnowsValues v complete n block ((x.0, event.Beat x.1) ∷ e)) }
    {
        if let ByteChange::Told { values, unread } = change {
            return Ok(BlockValues {
                seen: told(alloc, values, moment)?,
                stored: [false; 64],
                memory: self.memory_told(alloc, values, *unread, moment)?,
            });
        }
        let seen = changed(alloc, self.seen.as_slice(), change, moment)?;
        let memory = changed(alloc, self.memory.as_slice(), change, moment)?;
        if !loses {
            return Ok(BlockValues {
                seen,
                stored: self.stored,
                memory,
            });
        }
        let kept = self.memory.as_slice();
        Ok(BlockValues {
            seen: chosen(alloc, &self.stored, kept, seen.as_slice())?,
            stored: [false; 64],
            memory,
        })
    }

    /// Takes a store that writes these places; `moment` is the number of beats before it. The error means that there is no
    /// memory left; then nothing changes.
    pub fn store(&mut self, alloc: Global, write: &Write, moment: u64) -> Result<(), AllocError>
        ensures stored { OnOk result (code.IsStored self.old self.new write.now moment) }
        ensures kept { OnErr result (self.new ≡ self.old) }
    {
        let places = with_written(&[false; 64], write);
        set(alloc, &mut self.seen, &places, write, moment)?;
        self.stored = with_written(&self.stored, write);
        Ok(())
    }

    /// Takes a load that says the bytes of these places; `moment` is the number of beats before it. The error means that
    /// there is no memory left; then nothing changes.
    pub fn load(
        &mut self,
        alloc: Global,
        places: &Places,
        write: &Write,
        moment: u64,
    ) -> Result<(), AllocError>
        ensures loaded { OnOk result (code.IsLoaded self.old self.new places.now write.now moment) }
        ensures kept { OnErr result (self.new ≡ self.old) }
    {
        set(alloc, &mut self.seen, places, write, moment)?;
        Ok(())
    }

    /// Whether the byte at a place may have a value that memory may have, if it was stored.
    pub fn is_kept(&self, place: u8) -> bool
        ensures { (w : ℕ) (complete : Completeness) (n block : ℕ) (e : Events w) →
            KnowsValues self.now complete n block e → place < 64 →
            result ≡ Commits.is_kept complete n (64 * block + place) e }
    {
        let common = have_common(self.seen.as_slice(), self.memory.as_slice(), place);
        either(!is_in(&self.stored, place), common)
    }

    /// Whether each byte that was stored may have a value that memory may have.
    pub fn is_clean(&self) -> bool
        ensures { (w : ℕ) (complete : Completeness) (n block : ℕ) (e : Events w) →
            KnowsValues self.now complete n block e → result ≡ Commits.is_clean complete n block e }
    {
        let mut all = true;
        for place in 0..BLOCK_BYTES {
            all = both(self.is_kept(place), all);
        }
        all
    }
}
