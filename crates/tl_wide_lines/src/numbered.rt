//! Gives the names of a wide beat of at most 16 bytes their numbers, in the place of the lower halves of the names.

ghost use Rattle.std.specs.Prelude.{◌<◌, ◌^◌, ◌≤◌, IfOk};
ghost use Rattle.tl_beat.specs.declared.beat.Beat.TheVariants as narrow;
ghost use Rattle.tl_beat.specs.statement.Line.{AreLanes};
ghost use Rattle.tl_wide.specs.declared.beat.WideBeat.TheVariants as wide;
ghost use Rattle.tl_wide.specs.statement.Line.{IsWideInRange, IsWideWritable};
ghost use Rattle.tl_wide.specs.statement.Width.{IsWideWidth};
ghost use Rattle.tl_wide_lines.specs.code.ShortLine.{whole_id, widened, widened_a, widened_b, widened_c, widened_d};
ghost use Rattle.tl_wide_lines.specs.code.WideJudging.{NarrowsToOne, part_named};

use crate::short::High;
use std::alloc::AllocError;
use tl_beat::beat::{Beat, BeatA, BeatB, BeatC, BeatD, BeatE, Link};
use tl_wide::narrow::Narrower;

/// Gives the names of the next beat of channel A their numbers: the beat becomes the one that the wide beat of these
/// halves becomes. The answer is false if a name is beyond its limit. The error means that there is no memory left.
#[inline(always)]
fn number_a<const P: usize>(
    narrower: &mut Narrower,
    link: Link,
    beat: &mut BeatA<P>,
    high: High,
) -> Result<bool, AllocError>
    requires width { IsWideWidth P }
    requires few { P ≤ 16 }
    requires mask { beat.old.mask < 2 ^ P }
    requires lanes { AreLanes P beat.old.lanes }
    ensures { IfOk result (λ is_named. NarrowsToOne narrower.old narrower.new link (wide.A (widened_a beat.old high))
        (part_named is_named (narrow.A beat.new))) }
{
    let address = high.whole_address(beat.address);
    let source = high.whole_source(beat.source);
    let Some(named) = narrower.request(link, address, source)? else {
        return Ok(false);
    };
    beat.source = named.source;
    beat.address = named.address;
    Ok(true)
}

/// The same of channel B.
#[inline(always)]
fn number_b<const P: usize>(
    narrower: &mut Narrower,
    link: Link,
    beat: &mut BeatB<P>,
    high: High,
) -> Result<bool, AllocError>
    requires width { IsWideWidth P }
    requires few { P ≤ 16 }
    requires mask { beat.old.mask < 2 ^ P }
    requires lanes { AreLanes P beat.old.lanes }
    ensures { IfOk result (λ is_named. NarrowsToOne narrower.old narrower.new link (wide.B (widened_b beat.old high))
        (part_named is_named (narrow.B beat.new))) }
{
    let address = high.whole_address(beat.address);
    let source = high.whole_source(beat.source);
    let Some(named) = narrower.message(link, address, source)? else {
        return Ok(false);
    };
    beat.source = named.source;
    beat.address = named.address;
    Ok(true)
}

/// The same of channel C.
#[inline(always)]
fn number_c<const P: usize>(
    narrower: &mut Narrower,
    link: Link,
    beat: &mut BeatC<P>,
    high: High,
) -> Result<bool, AllocError>
    requires width { IsWideWidth P }
    requires few { P ≤ 16 }
    requires lanes { AreLanes P beat.old.lanes }
    ensures { IfOk result (λ is_named. NarrowsToOne narrower.old narrower.new link (wide.C (widened_c beat.old high))
        (part_named is_named (narrow.C beat.new))) }
{
    let address = high.whole_address(beat.address);
    let source = high.whole_source(beat.source);
    let Some(named) = narrower.message(link, address, source)? else {
        return Ok(false);
    };
    beat.source = named.source;
    beat.address = named.address;
    Ok(true)
}

/// The same of channel D.
#[inline(always)]
fn number_d<const P: usize>(
    narrower: &mut Narrower,
    link: Link,
    beat: &mut BeatD<P>,
    high: High,
) -> Result<bool, AllocError>
    requires width { IsWideWidth P }
    requires few { P ≤ 16 }
    requires lanes { AreLanes P beat.old.lanes }
    ensures { IfOk result (λ is_named. NarrowsToOne narrower.old narrower.new link (wide.D (widened_d beat.old high))
        (part_named is_named (narrow.D beat.new))) }
{
    let source = high.whole_source(beat.source);
    let sink = high.whole_sink(beat.sink);
    let Some(named) = narrower.response(link, source, sink)? else {
        return Ok(false);
    };
    beat.source = named.source;
    beat.sink = named.sink;
    Ok(true)
}

/// The same of channel E.
#[inline(always)]
fn number_e<const P: usize>(
    narrower: &mut Narrower,
    link: Link,
    beat: &mut BeatE,
    high: High,
) -> Result<bool, AllocError>
    requires width { IsWideWidth P }
    requires few { P ≤ 16 }
    ensures { IfOk result (λ is_named. NarrowsToOne {w = P} narrower.old narrower.new link
        (wide.E (record { sink = whole_id high.sink beat.old.sink })) (part_named is_named (narrow.E beat.new))) }
{
    let Some(named) = narrower.acknowledgement(link, high.whole_sink(beat.sink))? else {
        return Ok(false);
    };
    beat.sink = named.sink;
    Ok(true)
}

/// Gives the names of the next beat their numbers: the beat becomes the one that the wide beat of these halves, of at
/// most 16 bytes, becomes. The answer is false if a name is beyond its limit. The error means that there is no memory
/// left.
#[inline(always)]
pub(crate) fn number_halves<const P: usize>(
    narrower: &mut Narrower,
    link: Link,
    beat: &mut Beat<P>,
    high: High,
) -> Result<bool, AllocError>
    requires width { IsWideWidth P }
    requires few { P ≤ 16 }
    requires writable { IsWideWritable (widened beat.old high) }
    requires range { IsWideInRange (widened beat.old high) }
    ensures { IfOk result (λ is_named. NarrowsToOne narrower.old narrower.new link (widened beat.old high)
        (part_named is_named beat.new)) }
{
    match beat {
        Beat::A(x) => number_a(narrower, link, x, high),
        Beat::B(x) => number_b(narrower, link, x, high),
        Beat::C(x) => number_c(narrower, link, x, high),
        Beat::D(x) => number_d(narrower, link, x, high),
        Beat::E(x) => number_e::<P>(narrower, link, x, high),
    }
}
