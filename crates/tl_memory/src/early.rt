//! Messages that may be answered before they are complete: the unfinished ones of a link, and the accesses whose answers
//! outran their requests.

ghost use Rattle.std.specs.Prelude.{ℕ, true, false, ◌+◌, ◌*◌, ◌%◌, ◌<◌, ◌≤◌, ◌≡◌, ◌==◌, ◌++◌, None, Some, OnOk};
ghost use Rattle.std.specs.Prelude.{option_copied};
ghost use Rattle.tl_bytes.specs.code.Tellings.{is_written, value_at};
ghost use Rattle.tl_burst.specs.statement.Burst.{reaches};
ghost use Rattle.tl_memory.specs.code.Early as code;
ghost use Rattle.tl_rules.specs.statement.History.{block_at};

use std::alloc::AllocError;
use tl_beat::beat::Link;
use tl_bytes::known_bytes::KnownBytes;
use tl_bytes::write::Write;

/// The unfinished request on channel A of a link: its source, its address and its size.
#[derive(Clone, Copy, Debug, PartialEq, Eq)]
pub struct Asking {
    pub source: u8,
    pub address: u32,
    pub size: u8,
}

/// The unfinished Release on channel C of a link, and whether its ReleaseAck came already.
#[derive(Clone, Copy, Debug, PartialEq, Eq)]
pub struct Releasing {
    pub source: u8,
    pub block: u32,
    pub answered: bool,
}

/// Whether the GrantAck of an unfinished Grant came, and a report of the block after it.
#[derive(Clone, Copy, Debug, PartialEq, Eq)]
pub enum Doubt {
    /// No GrantAck.
    Unacknowledged,
    /// Its GrantAck.
    Acknowledged,
    /// Its GrantAck, and then a report of the block: the Grant's later beats are in doubt.
    Overtaken,
}

/// The unfinished Grant on channel D of a link.
#[derive(Clone, Copy, Debug, PartialEq, Eq)]
pub struct Granting {
    pub sink: u8,
    pub block: u32,
    pub doubt: Doubt,
}

/// An access to a block whose answer began before its request was complete: its link and source, the bytes that it may
/// write, and whether its answer is complete.
#[derive(Clone, Copy)]
pub struct OutrunAccess {
    pub link: Link,
    pub source: u8,
    pub write: Write,
    pub answered: bool,
}

/// A mask of the bytes of a message of this size.
fn mask_of(size: u8) -> u64
    ensures { size ≤ 6 → result ≡ code.mask_of_size size }
{
    match size {
        0 => 0x01,
        1 => 0x03,
        2 => 0x0f,
        3 => 0xff,
        4 => 0xffff,
        5 => 0xffff_ffff,
        _ => u64::MAX,
    }
}

/// The write of any values to the bytes of a request.
pub fn any_write(asking: &Asking) -> Write
    ensures first { result.first ≡ asking.now.address % 64 }
    ensures written { asking.now.size ≤ 6 → (place : ℕ) → place < 64 → is_written result place
        ≡ reaches asking.now.address asking.now.size (64 * block_at asking.now.address + place) }
    ensures any { (place : ℕ) → value_at result place ≡ None }
{
    Write {
        first: (asking.address % 64) as usize,
        mask: mask_of(asking.size),
        values: KnownBytes::none(),
    }
}

impl OutrunAccess {
    /// The access of this unfinished request.
    pub fn new(link: Link, asking: &Asking, answered: bool) -> Self
        ensures link { result.link ≡ link }
        ensures source { result.source ≡ asking.now.source }
        ensures answered { result.answered ≡ answered }
        ensures written { asking.now.size ≤ 6 → (place : ℕ) → place < 64 → is_written result.write place
            ≡ reaches asking.now.address asking.now.size (64 * block_at asking.now.address + place) }
        ensures any { (place : ℕ) → value_at result.write place ≡ None }
    {
        OutrunAccess {
            link,
            source: asking.source,
            write: any_write(asking),
            answered,
        }
    }

    /// Whether this is the access with this source on a link.
    pub fn is_of(&self, link: Link, source: u8) -> bool
        ensures { result ≡ code.is_outrun_of link.0 source self.now }
    {
        self.link == link && self.source == source
    }
}

/// The access with this source on a link, if it is one of these.
pub fn find_outrun(accesses: &[OutrunAccess], link: Link, source: u8) -> Option<&OutrunAccess>
    ensures { option_copied result ≡ code.outrun_in link.0 source accesses.now }
{
    for access in accesses {
        if access.is_of(link, source) {
            return Some(access);
        }
    }
    None
}

/// Appends these accesses without the one with this source on a link. The error means that there is no memory left.
pub fn append_outrun_but(
    left: &mut Vec<OutrunAccess>,
    accesses: &[OutrunAccess],
    link: Link,
    source: u8,
) -> Result<(), AllocError>
    ensures { OnOk result (left.new.items ≡ left.old.items ++ code.outrun_but link.0 source accesses.now) }
{
    for access in accesses {
        if !access.is_of(link, source) {
            left.push(*access)?;
        }
    }
    Ok(())
}
