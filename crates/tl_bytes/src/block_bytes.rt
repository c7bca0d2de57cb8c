//! The possible values of a block's bytes.

ghost use Rattle.std.specs.Prelude.{ℕ, true, false, [], ◌∷◌, ◌+◌, ◌*◌, ◌<◌, ◌≡◌, Option, Some, None};
ghost use Rattle.std.specs.Prelude.{find, length, IfOk};
ghost use Rattle.tl_beat.specs.declared.beat.Beat.{Beat};
ghost use Rattle.tl_beat.specs.declared.beat.Beat.TheVariants as beat;
ghost use Rattle.tl_beat.specs.declared.beat.BeatD.{BeatD};
ghost use Rattle.tl_beat.specs.declared.beat.Link.{Link};
ghost use Rattle.tl_beat.specs.declared.channel.Channel.TheVariants as channel;
ghost use Rattle.tl_burst.specs.statement.Messages.{unfinished};
ghost use Rattle.tl_rules.specs.statement.Conformance.{Trace, on_link};
ghost use Rattle.tl_bytes.specs.statement.Bytes as bytes;
ghost use Rattle.tl_bytes.specs.statement.Bytes.{Access, ends_request, is_of, pending_accesses, tells, told_as};
ghost use Rattle.tl_bytes.specs.statement.Early.{outrun_accesses};
ghost use Rattle.tl_bytes.specs.declared.standing.Standing.TheVariants as stands;

use crate::known_bytes::KnownBytes;
use crate::latest::Latest;
use crate::standing::Standing;
use crate::telling::{Told, could_be};
use crate::tellings::{is_told_as, outlived};
use crate::windows::{WindowCount, WritingWindows};
use crate::write::{Write, is_left_as};
use std::alloc::{AllocError, Global};

/// The possible values of a block's bytes, and the moment at which a message last set them.
#[derive(Drop)]
pub struct BlockBytes {
    /// The newest possible value of each byte.
    pub(crate) latest: Latest,
    /// The other possible values, the newest first.
    pub(crate) earlier: Vec<Told>,
    /// The moment at which a Grant or a report last set the bytes, or 0.
    last: u64,
}

impl BlockBytes {
    ghost use Rattle.tl_bytes.specs.statement.Known.{AreCarried, IsWrite, KnowsBlock, KnowsWindows};
    ghost use Rattle.tl_bytes.specs.statement.Known.{AnswersNone, IsSettling, MayWrite, NoneSettled, standing_of};
    ghost use Rattle.tl_bytes.specs.statement.Known.{windowed};

    /// A block before the trace: its bytes may have any value.
    pub fn new(alloc: Global) -> Self
        ensures { (w n block : ℕ) → KnowsBlock {w = w} result n block [] }
    {
        BlockBytes {
            latest: Latest::new(),
            earlier: Vec::new(alloc),
            last: 0,
        }
    }

    /// A copy. The error means that there is no memory left.
    pub fn copy(&self, alloc: Global) -> Result<Self, AllocError>
        ensures { IfOk result (λ b. (w n block : ℕ) (t : Trace w) → KnowsBlock self.now n block t →
            KnowsBlock b n block t) }
    {
        let latest = self.latest.copy(alloc)?;
        let earlier = Vec::from_slice(alloc, self.earlier.as_slice())?;
        Ok(BlockBytes {
            latest,
            earlier,
            last: self.last,
        })
    }

    /// Whether the byte at a place may be this one.
    pub fn may_be(&self, place: u8, byte: u8) -> bool
        ensures { (w n block : ℕ) (t : Trace w) → KnowsBlock self.now n block t → place < 64 →
            result ≡ told_as byte (bytes.may_be n (64 * block + place) t) }
    {
        let last = self.latest.at(place);
        could_be(byte, last.value) || is_told_as(self.earlier.as_slice(), place, byte)
    }

    /// Whether this byte may be granted at a place. `writes` are the writes of the pending accesses that have had a
    /// window.
    pub fn may_grant(&self, place: u8, byte: u8, writes: &[Write]) -> bool
        ensures { (w n block : ℕ) (t : Trace w) → KnowsBlock self.now n block t →
            MayWrite writes.now block (windowed n block t) (outrun_accesses t) → place < 64 →
            result ≡ bytes.may_grant n t (64 * block + place) byte }
    {
        self.may_be(place, byte) || is_left_as(writes, place, byte)
    }

    /// The relation of an access to the block, which is answered or denied, to its windows and to the possible values.
    pub fn standing(&self, windows: &WritingWindows, denied: bool) -> Standing
        ensures { (w n block : ℕ) (access : Access w) (t : Trace w) →
            KnowsBlock self.now n block t → KnowsWindows windows.now n block access.asked t →
            result ≡ standing_of n block access denied t }
    {
        if windows.is_open {
            return match windows.count {
                WindowCount::One if !denied => Standing::Within(windows.began),
                _ => Standing::Anywhere,
            };
        }
        if windows.last < self.last {
            Standing::Told
        } else {
            Standing::Anywhere
        }
    }

    /// The block after a message that sets its bytes; `moment` is the number of beats before the message's last. A byte
    /// that isn't known may have any value. The error means that there is no memory left, or that `moment` is 2^64 - 1.
    pub fn told(alloc: Global, values: &KnownBytes, moment: u64) -> Result<Self, AllocError>
        ensures { IfOk result (λ b. (w n block : ℕ) (x : Link × Beat w) (t : Trace w) →
            tells block x.1 (on_link x.0.0 t) ≡ true → moment ≡ length t → AreCarried values.now x t →
            KnowsBlock b n block (x ∷ t)) }
    {
        let Some(last) = moment.checked_add(1) else {
            return Err(AllocError);
        };
        Ok(BlockBytes {
            latest: Latest::told(values, moment),
            earlier: Vec::new(alloc),
            last,
        })
    }

    /// The block after an access with this write; `moment` is the number of beats before the last one of its answer, or
    /// of its request if the answer was complete before. The error means that there is no memory left.
    pub fn with(
        &self,
        alloc: Global,
        write: &Write,
        standing: Standing,
        moment: u64,
    ) -> Result<Self, AllocError>
        ensures answered { IfOk result (λ b. (w n block : ℕ) (link : Link) (y : BeatD w) (access : Access w)
            (t : Trace w) →
            KnowsBlock self.now n block t →
            tells block (beat.D y) (on_link link.0 t) ≡ false →
            ends_request y (on_link link.0 t) ≡ true →
            find (is_of link.0 y.source) (pending_accesses t) ≡ Some access →
            NoneSettled block (link, beat.D y) t →
            standing ≡ standing_of n block access y.denied t → moment ≡ length t →
            IsWrite write.now block access (beat.D y ∷ unfinished channel.D (on_link link.0 t)) →
            KnowsBlock b n block ((link, beat.D y) ∷ t)) }
        ensures settled { IfOk result (λ b. (w n block : ℕ) (x : Link × Beat w) (t : Trace w) →
            KnowsBlock self.now n block t →
            tells block x.1 (on_link x.0.0 t) ≡ false → AnswersNone x t →
            standing ≡ stands.Anywhere → moment ≡ length t → IsSettling write.now block x t →
            KnowsBlock b n block (x ∷ t)) }
    {
        let since = match standing {
            Standing::Told => return self.copy(alloc),
            Standing::Within(began) => began,
            Standing::Anywhere => 0,
        };
        let earlier = self.earlier.as_slice();
        Ok(BlockBytes {
            latest: self.latest.with(alloc, write, moment)?,
            earlier: outlived(alloc, &self.latest, earlier, write, since)?,
            last: self.last,
        })
    }
}
