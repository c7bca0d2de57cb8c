//! The bytes that a read may bring.

ghost use Rattle.std.specs.Prelude.{ℕ, true, false, ◌+◌, ◌*◌, ◌<◌, ◌≡◌, ◌==◌, ◌&&◌, ◌||◌};
ghost use Rattle.std.specs.Prelude.{IfOk, OnOk};
ghost use Rattle.tl_rules.specs.statement.Conformance.{Trace};
ghost use Rattle.tl_bytes.specs.code.Tellings.{leaves, left_as, telling_at};
ghost use Rattle.tl_bytes.specs.code.Possible as code;
ghost use Rattle.tl_bytes.specs.statement.Bytes.{Access, could_be, may_read, told_as};
ghost use Rattle.tl_bytes.specs.statement.Early.{outrun_accesses};
ghost use Rattle.tl_bytes.specs.statement.Known as known;
ghost use Rattle.tl_bytes.specs.statement.Known.{tellings_at, tellings_of};

use crate::block_bytes::BlockBytes;
use crate::known_bytes::{BLOCK_BYTES, KnownBytes};
use crate::latest::Latest;
use crate::telling::{Possible, Told, could_be, covers};
use crate::write::Write;
use std::alloc::{AllocError, Global};

/// Whether one of these allows all bytes at a place that this value allows.
fn is_covered(possible: &[Possible], place: u8, value: Option<u8>) -> bool
    ensures { result ≡ code.is_covered place value possible.now }
{
    for other in possible {
        if other.place == place && covers(other.value, value) {
            return true;
        }
    }
    false
}

/// Whether one of these allows this byte at a place.
fn is_listed(possible: &[Possible], place: u8, byte: u8) -> bool
    ensures { result ≡ known.is_listed place byte possible.now }
{
    for other in possible {
        if other.place == place && could_be(byte, other.value) {
            return true;
        }
    }
    false
}

/// The bytes that an access that reads may bring of its block: all possible values of each byte in the windows of the
/// access.
#[derive(Drop)]
pub struct ReadBytes {
    /// The newest possible values in the first window, if there was one.
    first: Option<KnownBytes>,
    /// All others.
    more: Vec<Possible>,
}

impl ReadBytes {
    ghost use Rattle.tl_bytes.specs.statement.Known.{KnowsBlock, KnowsGrant, KnowsRead, MayWrite, may_bring, windowed};

    /// The bytes of an access that has had no window.
    pub fn none(alloc: Global) -> Self
        ensures { (place byte : ℕ) → may_bring result place byte ≡ false }
    {
        ReadBytes {
            first: None,
            more: Vec::new(alloc),
        }
    }

    /// Whether the first window allows all bytes at a place that this value allows.
    fn covers_first(&self, place: u8, value: Option<u8>) -> bool
        ensures { result ≡ code.covers_first self.now.first place value }
    {
        match &self.first {
            None => false,
            Some(values) => covers(values.at(usize::from(place)), value),
        }
    }

    /// Whether all bytes at a place are allowed that this value allows.
    fn has(&self, place: u8, value: Option<u8>) -> bool
        ensures { result ≡ code.has self.now place value }
    {
        self.covers_first(place, value) || is_covered(self.more.as_slice(), place, value)
    }

    /// Adds a possible value of the byte at a place. The error means that there is no memory left.
    fn offer(&mut self, place: u8, value: Option<u8>) -> Result<(), AllocError>
        ensures { OnOk result ((at byte : ℕ) → may_bring self.new at byte
            ≡ (may_bring self.old at byte || ((place == at) && could_be byte value))) }
    {
        if self.has(place, value) {
            return Ok(());
        }
        self.more.push(Possible { place, value })?;
        Ok(())
    }

    /// Adds the newest possible values.
    fn offer_latest(&mut self, latest: &Latest) -> Result<(), AllocError>
        ensures { OnOk result ((at byte : ℕ) → at < 64 → may_bring self.new at byte
            ≡ (may_bring self.old at byte || could_be byte (telling_at latest.now at).value)) }
    {
        for place in 0..BLOCK_BYTES {
            self.offer(place, latest.at(place).value)?;
        }
        Ok(())
    }

    /// Adds the earlier possible values.
    fn offer_earlier(&mut self, earlier: &[Told]) -> Result<(), AllocError>
        ensures { OnOk result ((at byte : ℕ) → may_bring self.new at byte
            ≡ (may_bring self.old at byte || told_as byte (tellings_at at earlier.now))) }
    {
        for told in earlier {
            self.offer(told.place, told.telling.value)?;
        }
        Ok(())
    }

    /// Adds the values of these writes.
    fn offer_writes(&mut self, writes: &[Write]) -> Result<(), AllocError>
        ensures { OnOk result ((at byte : ℕ) → at < 64 → may_bring self.new at byte
            ≡ (may_bring self.old at byte || left_as at byte writes.now)) }
    {
        for write in writes {
            self.write(write)?;
        }
        Ok(())
    }

    /// Adds the newest possible values of the first window or of a later one.
    fn find_latest(&mut self, latest: &Latest) -> Result<(), AllocError>
        ensures { OnOk result ((at byte : ℕ) → at < 64 → may_bring self.new at byte
            ≡ (may_bring self.old at byte || could_be byte (telling_at latest.now at).value)) }
    {
        if self.first.is_some() {
            return self.offer_latest(latest);
        }
        self.first = Some(latest.values);
        Ok(())
    }

    /// Adds the bytes that an access may find in a window: the block's possible values, and the values of these writes.
    /// The error means that there is no memory left; then some of them may have been added.
    pub fn find(&mut self, block: &BlockBytes, writes: &[Write]) -> Result<(), AllocError>
        ensures { OnOk result ((at byte : ℕ) → at < 64 → may_bring self.new at byte
            ≡ (may_bring self.old at byte
            || (told_as byte (tellings_of block.now at) || left_as at byte writes.now))) }
    {
        self.find_latest(&block.latest)?;
        self.offer_earlier(block.earlier.as_slice())?;
        self.offer_writes(writes)?;
        Ok(())
    }

    /// The bytes that may be granted. The error means that there is no memory left.
    pub fn granted(alloc: Global, block: &BlockBytes, writes: &[Write]) -> Result<Self, AllocError>
        ensures { IfOk result (λ read. (w n number : ℕ) (t : Trace w) → KnowsBlock block.now n number t →
            MayWrite writes.now number (windowed n number t) (outrun_accesses t) → KnowsGrant read n number t) }
    {
        let mut read = ReadBytes::none(alloc);
        read.find(block, writes)?;
        Ok(read)
    }

    /// A copy. The error means that there is no memory left.
    pub fn copy(&self, alloc: Global) -> Result<Self, AllocError>
        ensures { IfOk result (λ read. (place byte : ℕ) →
            may_bring read place byte ≡ may_bring self.now place byte) }
    {
        let more = Vec::from_slice(alloc, self.more.as_slice())?;
        Ok(ReadBytes {
            first: self.first,
            more,
        })
    }

    /// Adds the values of a write.
    fn write(&mut self, write: &Write) -> Result<(), AllocError>
        ensures { OnOk result ((at byte : ℕ) → at < 64 → may_bring self.new at byte
            ≡ (may_bring self.old at byte || leaves at byte write.now)) }
    {
        for place in 0..BLOCK_BYTES {
            if write.writes(place) {
                self.offer(place, write.value(place))?;
            }
        }
        Ok(())
    }

    /// Whether the access may bring any byte at each place, since none was known in its first window.
    pub fn is_open(&self) -> bool
        ensures { result ≡ true → (place byte : ℕ) → may_bring self.now place byte ≡ true }
    {
        match &self.first {
            None => false,
            Some(values) => values.is_none(),
        }
    }

    /// Whether the first window allows this byte at a place.
    fn is_among(&self, place: u8, byte: u8) -> bool
        ensures { result ≡ known.is_among self.now.first place byte }
    {
        match &self.first {
            None => false,
            Some(values) => could_be(byte, values.at(usize::from(place))),
        }
    }

    /// Whether the access may bring this byte at a place.
    pub fn may_bring(&self, place: u8, byte: u8) -> bool
        ensures told { result ≡ may_bring self.now place byte }
        ensures read { (w n number : ℕ) (access : Access w) (t : Trace w) → KnowsRead self.now n number access t →
            place < 64 → result ≡ may_read n access t (64 * number + place) byte }
    {
        self.is_among(place, byte) || is_listed(self.more.as_slice(), place, byte)
    }
}
