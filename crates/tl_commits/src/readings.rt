//! The bytes that all pending Gets and atomics may have found.

ghost use Rattle.std.specs.Prelude.{ℕ, true, false, List, Some, ◌≡◌, ◌<◌, ◌∷◌, filter, find, length, not, OnOk};
ghost use Rattle.std.specs.Prelude.{option_copied};
ghost use Rattle.tl_beat.specs.declared.beat.Beat.TheVariants as beat;
ghost use Rattle.tl_beat.specs.declared.opcode.OpD.TheVariants as d;
ghost use Rattle.tl_beat.specs.statement.Width.{IsWidth};
ghost use Rattle.tl_bytes.specs.statement.Bytes as bytes;
ghost use Rattle.tl_bytes.specs.statement.Bytes.{pending_accesses};
ghost use Rattle.tl_memory.specs.statement.Links.{KeepsRules};
ghost use Rattle.tl_params.specs.declared.level.Level.{Level};
ghost use Rattle.tl_params.specs.declared.liberties.Liberties.{Liberties};
ghost use Rattle.tl_together.specs.code.Windows.{MayShow};
ghost use Rattle.tl_together.specs.statement.Knows.{Knows};
ghost use Rattle.tl_events.specs.declared.commit.Event.TheVariants as event;
ghost use Rattle.tl_commits.specs.code.Reading as code;
ghost use Rattle.tl_commits.specs.code.Reading.{AreTakenBy, IsMet, IsRead, KnowsReadings};
ghost use Rattle.tl_commits.specs.code.ValueTable.{KnowsTable};
ghost use Rattle.tl_commits.specs.statement.Completeness.{Completeness};
ghost use Rattle.tl_commits.specs.statement.Copies.{link_beats};
ghost use Rattle.tl_commits.specs.statement.Events.{Events, beats_of};
ghost use Rattle.tl_commits.specs.code.Responding.{AreAnswered};
ghost use Rattle.tl_commits.specs.statement.True.{is_true_seen};

use crate::reading::{Reading, reader};
use crate::responding::ResponseBytes;
use crate::value_table::ValueTable;
use std::alloc::AllocError;
use tl_beat::beat::{Beat, BeatD, Link};
use tl_beat::opcode::OpD;
use tl_rules::admission::is_spoiled;
use tl_rules::key::block_at;
use tl_rules::place::base;
use tl_together::judge::Judge;

/// The reading of the access with this source on a link, if there is one.
fn find(readings: &[Reading], link: Link, source: u8) -> Option<&Reading>
    ensures { option_copied result ≡ find (code.is_of link.0 source) readings.now }
{
    for reading in readings {
        if reading.is_of(link, source) {
            return Some(reading);
        }
    }
    None
}

/// Makes sure that there is a reading for the request of this beat, if that is a Get or an atomic. The error means that there
/// is no memory left. All that is known stays true in either case.
pub(crate) fn meet_reading<const W: usize>(
    readings: &mut Vec<Reading>,
    link: Link,
    beat: &Beat<W>,
) -> Result<(), AllocError>
    ensures knows { (complete : Completeness) (n : ℕ) (e : Events W) →
        KnowsReadings readings.old.items complete n e → KnowsReadings readings.new.items complete n e }
    ensures met { OnOk result (IsMet readings.new.items link.0 beat.now) }
{
    let Some(x) = reader(beat) else {
        return Ok(());
    };
    if find(readings.as_slice(), link, x.source).is_some() {
        return Ok(());
    }
    readings.push(Reading::new(link, x))?;
    Ok(())
}

/// Takes a beat that the judge of beats took last, by the values of blocks after it, into each reading. `shown` is the block
/// whose bytes the beat shows if it completes its message.
fn take_each<const W: usize>(
    judge: &Judge<W>,
    table: &ValueTable,
    readings: &mut Vec<Reading>,
    link: Link,
    beat: &Beat<W>,
    shown: Option<u32>,
)
    ensures { AreTakenBy judge.now table.now link beat.now shown readings.old.items readings.new.items }
{
    for n in 0..readings.len() {
        readings[n].take(judge, table, link, beat, shown);
    }
}

/// Forgets the reading of the access with this source on a link.
fn forget(readings: &mut Vec<Reading>, link: Link, source: u8)
    ensures { readings.new.items ≡ filter (λ r. not (code.is_of link.0 source r)) readings.old.items }
{
    readings.retain(|reading| !reading.is_of(link, source));
}

/// Forgets the reading whose answer a beat has completed, if it has completed one.
fn forget_answered<const W: usize>(
    judge: &Judge<W>,
    readings: &mut Vec<Reading>,
    link: Link,
    beat: &Beat<W>,
)
    requires { IsWidth W }
    ensures { (levels : List Level) (l : Liberties) (complete : Completeness) (n : ℕ) (e : Events W) →
        Knows judge.now levels l (beats_of e) false → link.0 < length levels →
        KnowsReadings readings.old.items complete n e → KnowsReadings readings.new.items complete n e }
{
    let Beat::D(x) = beat else {
        return;
    };
    if judge.request(link, x.source).is_none() {
        forget(readings, link, x.source);
    }
}

/// Takes a beat that the judge of beats took last, by the values of blocks after it. There is a reading for its request, if
/// that is a Get or an atomic. `shown` is the block whose bytes the beat shows if it completes its message.
pub(crate) fn take_beat<const W: usize>(
    judge: &Judge<W>,
    table: &ValueTable,
    readings: &mut Vec<Reading>,
    link: Link,
    beat: &Beat<W>,
    shown: Option<u32>,
)
    requires { IsWidth W }
    ensures { (levels : List Level) (l : Liberties) (complete : Completeness) (e : Events W) →
        Knows judge.now levels l ((link, beat.now) ∷ beats_of e) false →
        KnowsTable table.now complete (length levels) ((link, event.Beat beat.now) ∷ e) →
        MayShow shown beat.now (link_beats link.0 e) → IsMet readings.old.items link.0 beat.now →
        KnowsReadings readings.old.items complete (length levels) e →
        KnowsReadings readings.new.items complete (length levels) ((link, event.Beat beat.now) ∷ e) }
{
    take_each(judge, table, readings, link, beat, shown);
    forget_answered(judge, readings, link, beat);
}

/// The beat, if it is of an AccessAckData.
fn read<const W: usize>(beat: &Beat<W>) -> Option<&BeatD<W>>
    ensures { IsRead (option_copied result) beat.now }
{
    match beat {
        Beat::D(x) if x.opcode == OpD::AccessAckData => Some(x),
        _ => None,
    }
}

/// Whether the access may have found the bytes of a beat of its answer, an AccessAckData.
fn has_found<const W: usize>(
    judge: &Judge<W>,
    readings: &Vec<Reading>,
    link: Link,
    x: &BeatD<W>,
) -> bool
    requires { IsWidth W }
    ensures { (levels : List Level) (l : Liberties) (complete : Completeness) (e : Events W) →
        Knows judge.now levels l (beats_of e) false → KeepsRules l levels (link, beat.D x.now) (beats_of e) →
        KnowsReadings readings.now.items complete (length levels) e → x.now.opcode ≡ d.AccessAckData →
        result ≡ is_true_seen complete d.AccessAckData (length levels) link.0 x.now e }
{
    if is_spoiled(&Beat::D(*x)) {
        return true;
    }
    let Some(reading) = find(readings.as_slice(), link, x.source) else {
        return true;
    };
    if !judge.is_pending(block_at(reading.address), link, x.source) {
        return true;
    }
    match &x.lanes {
        None => true,
        Some(lanes) => {
            let come = W.saturating_mul(judge.beats_come(link));
            let first = base::<W>(reading.address).saturating_add(come);
            reading.allows_each(first, lanes)
        }
    }
}

/// The values that the bytes of an AccessAckData may have by this beat, if it answers a pending access.
pub(crate) fn answer_bytes<const W: usize>(
    judge: &Judge<W>,
    readings: &Vec<Reading>,
    link: Link,
    x: &BeatD<W>,
) -> Option<ResponseBytes>
    requires { IsWidth W }
    ensures { (levels : List Level) (l : Liberties) (complete : Completeness) (e : Events W) →
        Knows judge.now levels l (beats_of e) false → KeepsRules l levels (link, beat.D x.now) (beats_of e) →
        KnowsReadings readings.now.items complete (length levels) e → x.now.opcode ≡ d.AccessAckData →
        AreAnswered result complete (length levels) link.0
        (find (bytes.is_of link.0 x.now.source) (pending_accesses (beats_of e))) e }
{
    let Some(reading) = find(readings.as_slice(), link, x.source) else {
        return None;
    };
    let block = block_at(reading.address);
    if !judge.is_pending(block, link, x.source) {
        return None;
    }
    let come = W.saturating_mul(judge.beats_come(link));
    Some(ResponseBytes {
        block,
        first: base::<W>(reading.address).saturating_add(come),
        sets: reading.sets(),
    })
}

/// Whether an access may have found the bytes of a beat, if it is of an AccessAckData.
pub(crate) fn reads_truly<const W: usize>(
    judge: &Judge<W>,
    readings: &Vec<Reading>,
    link: Link,
    beat: &Beat<W>,
) -> bool
    requires { IsWidth W }
    ensures { (levels : List Level) (l : Liberties) (complete : Completeness) (e : Events W) →
        Knows judge.now levels l (beats_of e) false → KeepsRules l levels (link, beat.now) (beats_of e) →
        KnowsReadings readings.now.items complete (length levels) e →
        result ≡ code.reads_truly complete (length levels) link.0 beat.now e }
{
    match read(beat) {
        None => true,
        Some(x) => has_found(judge, readings, link, x),
    }
}
