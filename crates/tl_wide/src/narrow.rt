//! The beats that the beats of a wide trace become, one after another.

ghost use Rattle.std.specs.Prelude.{ℕ, List, Some, None, [], ◌∷◌, ◌≡◌, ◌<◌, ◌/◌, ◌^◌, ◌==◌, true, if◌then◌else◌};
ghost use Rattle.std.specs.Prelude.{false, ◌≤◌, ◌≢◌, length, slice_index_or, slice_set, OnOk, ◌+◌, ◌*◌};
ghost use Rattle.tl_wide.specs.statement.Numbers.{KnowsNumbers};
ghost use Rattle.tl_wide.specs.code.Numbers.{AreNumbered};
ghost use Rattle.tl_wide.specs.declared.numbers.Numbers.{Numbers};
ghost use Rattle.tl_beat.specs.declared.beat.Link.{Link};
ghost use Rattle.tl_wide.specs.statement.Narrowing.{Follows, IsNarrowed, IsNumberedBeat, KnowsNames, key_of};
ghost use Rattle.tl_wide.specs.code.Narrowing.{IsNamed, MessageNamed, ResponseNamed, SinkNamed};
ghost use Rattle.tl_wide.specs.declared.beat.WideBeat.{WideBeat};
ghost use Rattle.tl_wide.specs.declared.beat.WideBeat.TheVariants as wide;
ghost use Rattle.tl_wide.specs.declared.beat.WideBeatA.{WideBeatA};
ghost use Rattle.tl_wide.specs.declared.beat.WideBeatB.{WideBeatB};
ghost use Rattle.tl_wide.specs.declared.beat.WideBeatC.{WideBeatC};
ghost use Rattle.tl_wide.specs.declared.beat.WideBeatD.{WideBeatD};
ghost use Rattle.tl_wide.specs.declared.beat.WideBeatE.{WideBeatE};
ghost use Rattle.tl_wide.specs.statement.Naming.{WideTrace, block_named, in_block, sink_named, source_of};
ghost use Rattle.tl_wide.specs.statement.Width.{IsWideWidth, part_width};

use crate::beat::WideBeat;
use crate::numbers::{Numbers, number_both};
use crate::parts::{Named, Parts};
use std::alloc::{AllocError, Global};
use std::array;
use tl_beat::beat::Link;

/// The most blocks that have numbers.
const MOST_BLOCKS: u32 = 1 << 26;

/// The most sources of a link, and the most sinks, that have numbers.
const MOST_IDS: u32 = 256;

/// The address in the block of this number.
fn address_in(block: u32, address: u64) -> u32
    ensures { block < 2 ^ 26 → result ≡ in_block block address }
{
    block.wrapping_mul(64).wrapping_add((address % 64) as u32)
}

/// The number of a source or a sink as a byte.
fn id_of(number: u32) -> u8
    ensures { number < 2 ^ 8 → result ≡ number }
{
    (number % 256) as u8
}

/// A table for each link, with 0 as its first source.
fn no_sources(alloc: Global) -> [Numbers; 256]
    ensures known { (i : ℕ) (d : Numbers) → i < 256 → KnowsNumbers (slice_index_or result i d) (0 ∷ []) }
    ensures long { length result ≡ 256 }
{
    array::from_fn(
        |_|
            ensures { KnowsNumbers result (0 ∷ []) }
        { Numbers::from_zero(alloc) },
    )
}

/// The numbers of a block and of a source of a link. None if one has none and its limit is reached.
#[inline(always)]
fn number_message(
    blocks: &mut Numbers,
    sources: &mut [Numbers; 256],
    link: Link,
    block: u64,
    source: u16,
) -> Result<Option<(u32, u32)>, AllocError>
    ensures numbered { (names others : List ℕ) (d : Numbers) → KnowsNumbers blocks.old names →
        KnowsNumbers (slice_index_or sources.old link.0 d) others → length names ≤ 2 ^ 26 → length others ≤ 256 →
        AreNumbered (2 ^ 26) names block 256 others source result blocks.new (slice_index_or sources.new link.0 d) }
    ensures others { (i : ℕ) (d : Numbers) → i ≢ link.0 → slice_index_or sources.new i d
        ≡ slice_index_or sources.old i d }
    ensures long { length sources.new ≡ 256 }
{
    number_both(
        blocks,
        block,
        MOST_BLOCKS,
        &mut sources[usize::from(link.0)],
        u64::from(source),
        MOST_IDS,
    )
}

/// The numbers of a source of a link and of a sink. None if one has none and its limit is reached.
#[inline(always)]
fn number_response(
    sources: &mut [Numbers; 256],
    link: Link,
    source: u16,
    sinks: &mut Numbers,
    sink: u16,
) -> Result<Option<(u32, u32)>, AllocError>
    ensures numbered { (names others : List ℕ) (d : Numbers) →
        KnowsNumbers (slice_index_or sources.old link.0 d) names →
        KnowsNumbers sinks.old others → length names ≤ 256 → length others ≤ 256 →
        AreNumbered 256 names source 256 others sink result (slice_index_or sources.new link.0 d) sinks.new }
    ensures others { (i : ℕ) (d : Numbers) → i ≢ link.0 → slice_index_or sources.new i d
        ≡ slice_index_or sources.old i d }
    ensures long { length sources.new ≡ 256 }
{
    number_both(
        &mut sources[usize::from(link.0)],
        u64::from(source),
        MOST_IDS,
        sinks,
        u64::from(sink),
        MOST_IDS,
    )
}

/// The numbers of a trace's blocks, sources and sinks so far.
#[derive(Drop)]
struct Names {
    blocks: Numbers,
    sources: [Numbers; 256],
    sinks: Numbers,
}

impl Names {
    /// The numbers for the block and the source of a beat of channel A, B or C.
    #[inline(always)]
    fn message(
        &mut self,
        link: Link,
        address: u64,
        source: u16,
    ) -> Result<Option<Named>, AllocError>
        ensures { (w : ℕ) (x : WideBeat w) (t : WideTrace w) → block_named (link, x) ≡ Some (address / 64) →
            source_of x ≡ Some source → sink_named (link, x) ≡ None → KnowsNames self.old t →
            IsNamed link x t (MessageNamed link address source ((link, x) ∷ t)) result self.new }
    {
        let numbers = number_message(
            &mut self.blocks,
            &mut self.sources,
            link,
            address / 64,
            source,
        )?;
        let Some((block, source)) = numbers else {
            return Ok(None);
        };
        Ok(Some(Named {
            source: id_of(source),
            sink: 0,
            address: address_in(block, address),
            asked: 0,
        }))
    }

    /// The numbers for the source and the sink of a beat of channel D.
    #[inline(always)]
    fn response(&mut self, link: Link, source: u16, sink: u16) -> Result<Option<Named>, AllocError>
        ensures { (w : ℕ) (x : WideBeat w) (t : WideTrace w) → block_named (link, x) ≡ None →
            source_of x ≡ Some source → sink_named (link, x) ≡ Some sink → KnowsNames self.old t →
            IsNamed link x t (ResponseNamed link source sink ((link, x) ∷ t)) result self.new }
    {
        let numbers = number_response(&mut self.sources, link, source, &mut self.sinks, sink)?;
        let Some((source, sink)) = numbers else {
            return Ok(None);
        };
        Ok(Some(Named {
            source: id_of(source),
            sink: id_of(sink),
            address: 0,
            asked: 0,
        }))
    }

    /// The number for the sink of a beat of channel E.
    #[inline(always)]
    fn acknowledgement(&mut self, link: Link, sink: u16) -> Result<Option<Named>, AllocError>
        ensures { (w : ℕ) (x : WideBeat w) (t : WideTrace w) → block_named (link, x) ≡ None →
            source_of x ≡ None → sink_named (link, x) ≡ Some sink → KnowsNames self.old t →
            IsNamed link x t (SinkNamed sink ((link, x) ∷ t)) result self.new }
    {
        let Some(sink) = self.sinks.number(u64::from(sink), MOST_IDS)? else {
            return Ok(None);
        };
        Ok(Some(Named {
            source: 0,
            sink: id_of(sink),
            address: 0,
            asked: 0,
        }))
    }
}

/// The key of a source's number on a link.
#[inline(always)]
fn key_of(link: Link, source: u8) -> usize
    ensures { result ≡ key_of link source }
{
    256 * usize::from(link.0) + usize::from(source)
}

/// The address under a key, 0 if there is none.
#[inline(always)]
fn asked_at(asked: &Vec<u64>, key: usize) -> u64
    ensures { result ≡ slice_index_or asked.now.items key 0 }
{
    match asked.get(key) {
        None => 0,
        Some(address) => *address,
    }
}

/// Makes room for the addresses of a link's requests. The addresses stay as they were. The error means that there is
/// no memory left.
#[inline(always)]
fn make_room(asked: &mut Vec<u64>, link: Link) -> Result<(), AllocError>
    ensures same { (k : ℕ) → slice_index_or asked.new.items k 0 ≡ slice_index_or asked.old.items k 0 }
    ensures room { OnOk result (256 * link.0 + 256 ≤ length asked.new.items) }
{
    let room = 256 * usize::from(link.0) + 256;
    if asked.len() < room {
        asked.resize(room, 0)?;
    }
    Ok(())
}

/// Keeps an address under a key.
#[inline(always)]
fn keep(asked: &mut Vec<u64>, key: usize, address: u64)
    requires { key < length asked.old.items }
    ensures { asked.new.items ≡ slice_set asked.old.items key address }
{
    asked[key] = address;
}

/// The names of a wide trace so far. With them each next beat becomes beats of at most 16 bytes.
#[derive(Drop)]
pub struct Narrower {
    names: Names,
    /// The addresses of the last requests, by link and source's number.
    asked: Vec<u64>,
}

impl Narrower {
    /// The names of an empty trace.
    pub fn new(alloc: Global) -> Self
        ensures { (w : ℕ) → Follows {w = w} result [] }
    {
        Narrower {
            names: Names {
                blocks: Numbers::new(alloc),
                sources: no_sources(alloc),
                sinks: Numbers::from_zero(alloc),
            },
            asked: Vec::new(alloc),
        }
    }

    /// The numbers for the names of the next beat, of channel A. Its address is kept for the beats that answer it.
    /// `None` if no number is left for one of them. The error means that there is no memory left. In both cases
    /// nothing changes.
    #[inline(always)]
    pub fn request(
        &mut self,
        link: Link,
        address: u64,
        source: u16,
    ) -> Result<Option<Named>, AllocError>
        ensures { (w : ℕ) (x : WideBeatA w) (t : WideTrace w) → x.address ≡ address → x.source ≡ source →
            Follows self.old t → IsNumberedBeat link (wide.A x) t result self.new }
    {
        make_room(&mut self.asked, link)?;
        let Some(named) = self.names.message(link, address, source)? else {
            return Ok(None);
        };
        keep(&mut self.asked, key_of(link, named.source), address);
        Ok(Some(named))
    }

    /// The same of channel B or C.
    #[inline(always)]
    pub fn message(
        &mut self,
        link: Link,
        address: u64,
        source: u16,
    ) -> Result<Option<Named>, AllocError>
        ensures b { (w : ℕ) (x : WideBeatB w) (t : WideTrace w) → x.address ≡ address → x.source ≡ source →
            Follows self.old t → IsNumberedBeat link (wide.B x) t result self.new }
        ensures c { (w : ℕ) (x : WideBeatC w) (t : WideTrace w) → x.address ≡ address → x.source ≡ source →
            Follows self.old t → IsNumberedBeat link (wide.C x) t result self.new }
    {
        self.names.message(link, address, source)
    }

    /// The same of channel D, with the address of the request that it answers.
    #[inline(always)]
    pub fn response(
        &mut self,
        link: Link,
        source: u16,
        sink: u16,
    ) -> Result<Option<Named>, AllocError>
        ensures { (w : ℕ) (x : WideBeatD w) (t : WideTrace w) → x.source ≡ source → x.sink ≡ sink →
            Follows self.old t → IsNumberedBeat link (wide.D x) t result self.new }
    {
        let Some(named) = self.names.response(link, source, sink)? else {
            return Ok(None);
        };
        let asked = asked_at(&self.asked, key_of(link, named.source));
        Ok(Some(Named { asked, ..named }))
    }

    /// The same of channel E.
    #[inline(always)]
    pub fn acknowledgement(&mut self, link: Link, sink: u16) -> Result<Option<Named>, AllocError>
        ensures { (w : ℕ) (x : WideBeatE) (t : WideTrace w) → x.sink ≡ sink →
            Follows self.old t → IsNumberedBeat link (wide.E x) t result self.new }
    {
        self.names.acknowledgement(link, sink)
    }

    /// The numbers for the names of a beat, and the address of the request that a beat of channel D answers.
    #[inline(always)]
    fn name<const W: usize>(
        &mut self,
        link: Link,
        beat: &WideBeat<W>,
    ) -> Result<Option<Named>, AllocError>
        ensures { (t : WideTrace W) → Follows self.old t → IsNumberedBeat link beat.now t result self.new }
    {
        match beat {
            WideBeat::A(x) => self.request(link, x.address, x.source),
            WideBeat::B(x) => self.message(link, x.address, x.source),
            WideBeat::C(x) => self.message(link, x.address, x.source),
            WideBeat::D(x) => self.response(link, x.source, x.sink),
            WideBeat::E(x) => self.acknowledgement(link, x.sink),
        }
    }

    /// The beats that the next beat of the trace becomes. `None` if it names a block, a source or a sink for which no
    /// number is left. The error means that there is no memory left. In both cases nothing changes. `P` is the smaller
    /// of 16 and `W`.
    #[inline(always)]
    pub fn narrow<const W: usize, const P: usize>(
        &mut self,
        link: Link,
        beat: &WideBeat<W>,
    ) -> Result<Option<Parts>, AllocError>
        requires width { IsWideWidth W }
        requires parts { P ≡ part_width W }
        ensures { (t : WideTrace W) → Follows self.old t → IsNarrowed link beat.now t result self.new }
    {
        let Some(named) = self.name(link, beat)? else {
            return Ok(None);
        };
        Ok(Some(Parts::new::<W, P>(beat, named)))
    }
}
