//! The bytes that Grants may bring, by the beats and the commits.

ghost use Rattle.std.specs.Prelude.{ℕ, true, false, List, Some, ◌+◌, ◌*◌, ◌<◌, ◌≤◌, ◌≡◌, ◌||◌, length, option_copied};
ghost use Rattle.std.specs.Prelude.{option_map};
ghost use Rattle.std.specs.Prelude.{IfOk, OnOk};
ghost use Rattle.tl_beat.specs.declared.beat.Beat.TheVariants as beat;
ghost use Rattle.tl_beat.specs.declared.opcode.OpD.TheVariants as d;
ghost use Rattle.tl_beat.specs.statement.Width.{IsWidth};
ghost use Rattle.tl_bytes.specs.statement.Bytes.{each_from};
ghost use Rattle.tl_bytes.specs.code.Tellings.{left_as};
ghost use Rattle.tl_memory.specs.code.ByteSet.{has_at};
ghost use Rattle.tl_memory.specs.statement.Links.{KeepsRules};
ghost use Rattle.tl_params.specs.declared.level.Level.{Level};
ghost use Rattle.tl_params.specs.declared.liberties.Liberties.{Liberties};
ghost use Rattle.tl_together.specs.statement.Knows.{Knows};
ghost use Rattle.tl_commits.specs.code.Granting as code;
ghost use Rattle.tl_commits.specs.code.Granting.{AreMet, IsGranter, KnowsGrant, KnowsGrantOf, KnowsGrants};
ghost use Rattle.tl_commits.specs.code.ValueTable.{KnowsTable};
ghost use Rattle.tl_commits.specs.statement.Completeness.{Completeness};
ghost use Rattle.tl_commits.specs.statement.Events.{Events, beats_of};
ghost use Rattle.tl_commits.specs.statement.True.{is_true_seen, may_grant_seen};

use crate::block_values::BlockValues;
use crate::tellings::allows;
use crate::value_table::ValueTable;
use std::alloc::{AllocError, Global};
use tl_beat::beat::{Beat, BeatD, Link};
use tl_beat::opcode::OpD;
use tl_bytes::telling::Told;
use tl_bytes::write::{Write, is_left_as};
use tl_memory::byte_set::{ByteSet, add_write, with_told};
use tl_memory::message::either;
use tl_rules::admission::is_spoiled;
use tl_together::judge::Judge;

/// The bytes that a Grant may bring: the possible values of its block's bytes when it began, and those of the accesses that
/// may have been performed then.
#[derive(Drop)]
pub struct GrantBytes {
    /// None if each byte may have any value.
    told: Option<Vec<Told>>,
    writes: Vec<Write>,
}

/// The beat, if it is of a GrantData.
pub(crate) fn granter<const W: usize>(beat: &Beat<W>) -> Option<&BeatD<W>>
    ensures { IsGranter (option_copied result) beat.now }
{
    match beat {
        Beat::D(x) if x.opcode == OpD::GrantData => Some(x),
        _ => None,
    }
}

/// Whether one of these values of a place is this byte, or any. Any byte is if there are none.
fn is_told_or_any(told: &Option<Vec<Told>>, place: u8, byte: u8) -> bool
    ensures { result ≡ code.told_or_any told.now place byte }
{
    match told {
        None => true,
        Some(told) => allows(told.as_slice(), place, byte),
    }
}

/// Each value, at each place of a block.
fn all_sets() -> [ByteSet; 64]
    ensures { (place v : ℕ) → place < 64 → v < 256 → has_at result place v ≡ true }
{
    [ByteSet::all(); 64]
}

/// The values of each place of a block, or all. All are if there are none.
fn told_sets(told: &Option<Vec<Told>>) -> [ByteSet; 64]
    ensures { (place v : ℕ) → place < 64 → v < 256 → has_at result place v ≡ code.told_or_any told.now place v }
{
    match told {
        None => all_sets(),
        Some(told) => with_told([ByteSet::none(); 64], told.as_slice(), 0),
    }
}

/// Adds to the set of each place the values that these writes may leave there.
fn add_writes(sets: &mut [ByteSet; 64], writes: &[Write])
    ensures { (place v : ℕ) → place < 64 → v < 256 →
        has_at sets.new place v ≡ (has_at sets.old place v || left_as place v writes.now) }
{
    for write in writes {
        add_write(sets, write);
    }
}

impl GrantBytes {
    /// Any bytes.
    fn any(alloc: Global) -> Self
        ensures { (place byte : ℕ) → code.may_bring result place byte ≡ true }
    {
        GrantBytes {
            told: None,
            writes: Vec::new(alloc),
        }
    }

    /// Whether a Grant may bring this byte at a place.
    fn may_bring(&self, place: usize, byte: u8) -> bool
        ensures { place < 64 → result ≡ code.may_bring self.now place byte }
    {
        if place >= 64 {
            return true;
        }
        let place = place as u8;
        is_told_or_any(&self.told, place, byte) || is_left_as(self.writes.as_slice(), place, byte)
    }

    /// The values that a Grant may bring at each place.
    pub(crate) fn sets(&self) -> [ByteSet; 64]
        ensures { (place v : ℕ) → place < 64 → v < 256 → has_at result place v ≡ code.may_bring self.now place v }
    {
        let mut sets = told_sets(&self.told);
        add_writes(&mut sets, self.writes.as_slice());
        sets
    }

    /// Whether a Grant may bring each of these bytes, from a place on.
    fn may_bring_each<const W: usize>(&self, first: usize, lanes: &[u8; W]) -> bool
        ensures { (w : ℕ) (complete : Completeness) (n block : ℕ) (e : Events w) →
            KnowsGrant self.now complete n block e → first + W ≤ 64 →
            result ≡ each_from (may_grant_seen complete n e) (64 * block + first) lanes.now }
    {
        for lane in 0..W {
            if !self.may_bring(first.saturating_add(lane), lanes[lane]) {
                return false;
            }
        }
        true
    }

    /// Whether the bytes of a beat of the Grant may be granted.
    fn grants_truly<const W: usize>(&self, judge: &Judge<W>, link: Link, x: &BeatD<W>) -> bool
        requires { IsWidth W }
        ensures { (levels : List Level) (l : Liberties) (complete : Completeness) (e : Events W) →
            Knows judge.now levels l (beats_of e) false → KeepsRules l levels (link, beat.D x.now) (beats_of e) →
            KnowsGrantOf self.now complete (length levels) link.0 x.now e → x.now.opcode ≡ d.GrantData →
            result ≡ is_true_seen complete d.GrantData (length levels) link.0 x.now e }
    {
        let Some(messages) = judge.messages(link) else {
            return true;
        };
        if either(messages.is_overtaken(), is_spoiled(&Beat::D(*x))) {
            return true;
        }
        match &x.lanes {
            None => true,
            Some(lanes) => {
                let first = W.saturating_mul(messages.d.bytes.count());
                self.may_bring_each(first, lanes)
            }
        }
    }
}

/// Any bytes, for this many links.
pub(crate) fn any_grants(alloc: Global, count: usize) -> Result<Vec<GrantBytes>, AllocError>
    ensures { IfOk result (λ grants. length grants.items ≡ count) }
{
    let mut grants = Vec::new(alloc);
    for _ in 0..count {
        grants.push(GrantBytes::any(alloc))?;
    }
    Ok(grants)
}

/// A copy of the possible values of a block's bytes, if there are some. The error means that there is no memory left.
fn copied(alloc: Global, values: Option<&BlockValues>) -> Result<Option<Vec<Told>>, AllocError>
    ensures { IfOk result (λ told. option_map (λ v. v.items) told
        ≡ option_map (λ v. v.seen.items) (option_copied values.entry)) }
{
    match values {
        None => Ok(None),
        Some(values) => Ok(Some(Vec::from_slice(alloc, values.seen.as_slice())?)),
    }
}

/// The bytes that a Grant of a block may bring that begins now. The error means that there is no memory left.
fn granted_now<const W: usize>(
    alloc: Global,
    judge: &Judge<W>,
    table: &ValueTable,
    block: u32,
) -> Result<GrantBytes, AllocError>
    ensures { IfOk result (λ granted. (levels : List Level) (l : Liberties) (complete : Completeness) (e : Events W) →
        Knows judge.now levels l (beats_of e) false → KnowsTable table.now complete (length levels) e →
        KnowsGrant granted complete (length levels) block e) }
{
    let told = copied(alloc, table.get(block))?;
    let writes = judge.grant_writes(block)?;
    Ok(GrantBytes { told, writes })
}

/// Keeps for its link the bytes that a GrantData may bring, if one begins with this beat. The error means that there is no
/// memory left. All that is known stays true in either case.
pub(crate) fn meet_grant<const W: usize>(
    alloc: Global,
    judge: &Judge<W>,
    table: &ValueTable,
    grants: &mut Vec<GrantBytes>,
    link: Link,
    beat: &Beat<W>,
) -> Result<(), AllocError>
    ensures knows { (levels : List Level) (l : Liberties) (complete : Completeness) (e : Events W) →
        Knows judge.now levels l (beats_of e) false → KnowsGrants grants.old.items complete (length levels) e →
        KnowsGrants grants.new.items complete (length levels) e }
    ensures met { OnOk result ((levels : List Level) (l : Liberties) (complete : Completeness) (e : Events W) →
        Knows judge.now levels l (beats_of e) false → KeepsRules l levels (link, beat.now) (beats_of e) →
        KnowsTable table.now complete (length levels) e → KnowsGrants grants.old.items complete (length levels) e →
        AreMet grants.new.items complete (length levels) link.0 beat.now e) }
{
    let slot = usize::from(link.0);
    if slot >= grants.len() {
        return Ok(());
    }
    let Some(x) = granter(beat) else {
        return Ok(());
    };
    if judge.beats_come(link) > 0 {
        return Ok(());
    }
    let Some(asked) = judge.request(link, x.source) else {
        return Ok(());
    };
    grants[slot] = granted_now(alloc, judge, table, asked.block)?;
    Ok(())
}

/// Whether the bytes of a beat may be granted, if it is of a GrantData.
pub(crate) fn grants_truly<const W: usize>(
    judge: &Judge<W>,
    grants: &Vec<GrantBytes>,
    link: Link,
    beat: &Beat<W>,
) -> bool
    requires { IsWidth W }
    ensures { (levels : List Level) (l : Liberties) (complete : Completeness) (e : Events W) →
        Knows judge.now levels l (beats_of e) false → KeepsRules l levels (link, beat.now) (beats_of e) →
        length grants.now.items ≡ length levels →
        AreMet grants.now.items complete (length levels) link.0 beat.now e →
        result ≡ code.grants_truly complete (length levels) link.0 beat.now e }
{
    let Some(x) = granter(beat) else {
        return true;
    };
    match grants.get(usize::from(link.0)) {
        None => true,
        Some(granted) => granted.grants_truly(judge, link, x),
    }
}
