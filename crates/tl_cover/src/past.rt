//! The record of the beats that one link has carried.

ghost use Rattle.std.specs.Prelude.{ℕ, IfOk, OnOk, ◌≡◌, ◌∷◌, ◌++◌, [], ◌&&◌, is_some, length, map};
ghost use Rattle.tl_beat.specs.declared.beat.Beat.{Beat};
ghost use Rattle.tl_beat.specs.declared.channel.Channel.TheVariants as channel;
ghost use Rattle.tl_beat.specs.statement.Width.{IsWidth};
ghost use Rattle.tl_burst.specs.statement.Messages.{History};
ghost use Rattle.tl_cover.specs.code.Past.{KnowsPast, asked_in, awaited_next, awaits};
ghost use Rattle.tl_cover.specs.code.Past.{is_of, released_next, request_next};
ghost use Rattle.tl_cover.specs.code.Covering.{Taken, unseen};
ghost use Rattle.tl_cover.specs.statement.Bins.{all_bins};
ghost use Rattle.tl_cover.specs.statement.Covered.{cell};
ghost use Rattle.tl_cover.specs.statement.Covers.{bin_of, cells_of};
ghost use Rattle.tl_cover.specs.statement.Scene as scenes;
ghost use Rattle.tl_monitor.specs.statement.Count.{at};
ghost use Rattle.tl_params.specs.declared.key.Key.TheVariants.{AcquireOf, ReleaseOf};
ghost use Rattle.tl_rules.specs.code.Tables.{sink_next};
ghost use Rattle.tl_rules.specs.statement.History.{begins, ends, closes, opens, grants};

use crate::acknowledged::{Awaited, acknowledge, await_ack};
use crate::asked::{Asked, found, note_probe};
use crate::bins::BINS;
use crate::blocks::turn;
use crate::counts::{new_rows, note_all};
use crate::open::Open;
use crate::possible::is_possible;
use crate::row::{LinkBin, Row};
use crate::scene::{ProbeAt, Scene};
use crate::stretch::OF_BINS;
use crate::under_way::{UnderWay, is_of_grant};
use std::alloc::{AllocError, Global};
use tl_beat::beat::Beat;
use tl_beat::control::Control;
use tl_monitor::byte_table::ByteTable;
use tl_params::key::block_at;
use tl_params::level::Level;
use tl_params::liberties::Liberties;
use tl_rules::kind::{is_acquire, is_grant, is_release, is_release_ack};
use tl_rules::past::Request;

/// The record of a link: the last request with each source, the block of the last Release with each source, the pending
/// messages by block and by sink, the newest beat, and the counts of the link's table.
#[derive(Drop)]
pub struct LinkPast {
    requests: ByteTable<Request>,
    released: ByteTable<u32>,
    pub acquires: Vec<u32>,
    pub releases: Vec<u32>,
    pub probes: Vec<Asked>,
    /// The blocks whose GrantAcks are pending.
    pub awaited: Vec<Awaited>,
    /// The sinks whose GrantAcks are pending.
    pub sinks: ByteTable<()>,
    /// The sources with pending requests and Releases.
    open: Open,
    /// The control fields of the newest beat.
    pub newest: Option<Control>,
    /// The newest beats of the messages that aren't complete.
    pub under_way: UnderWay,
    /// The level of the link.
    pub level: Level,
    /// The bins with their counts.
    pub rows: Vec<Row>,
}

/// The block whose Acquire begins with a beat.
fn acquired<const W: usize>(first: bool, beat: &Beat<W>) -> Option<u32>
    ensures { (k : ℕ) (h : History W) → is_of k result ≡ (first && opens (AcquireOf k) beat.now h) }
{
    match beat {
        Beat::A(x) if first && is_acquire(x.opcode) => Some(block_at(x.address)),
        _ => None,
    }
}

/// The block whose Release begins with a beat.
fn released<const W: usize>(first: bool, beat: &Beat<W>) -> Option<u32>
    ensures { (k : ℕ) (h : History W) → is_of k result ≡ (first && opens (ReleaseOf k) beat.now h) }
{
    match beat {
        Beat::C(x) if first && is_release(x.opcode) => Some(block_at(x.address)),
        _ => None,
    }
}

/// The block, if `counts` is true.
fn only_if(counts: bool, block: Option<u32>) -> Option<u32>
    ensures { (k : ℕ) → is_of k result ≡ (counts && is_of k block) }
{
    if counts { block } else { None }
}

/// Notes a request that begins with a beat.
fn note_request<const W: usize>(requests: &mut ByteTable<Request>, first: bool, beat: &Beat<W>)
    ensures { (s : ℕ) → at requests.new s ≡ request_next first beat.now s (at requests.old s) }
{
    match beat {
        Beat::A(x) if first => requests.set(
            x.source,
            Some(Request {
                opcode: x.opcode,
                param: x.param,
                size: x.size,
                block: block_at(x.address),
            }),
        ),
        _ => {}
    }
}

/// Notes the block of a Release that begins with a beat.
fn note_release<const W: usize>(blocks: &mut ByteTable<u32>, first: bool, beat: &Beat<W>)
    ensures { (s : ℕ) → at blocks.new s ≡ released_next first beat.now s (at blocks.old s) }
{
    match beat {
        Beat::C(x) if first && is_release(x.opcode) => {
            blocks.set(x.source, Some(block_at(x.address)));
        }
        _ => {}
    }
}

/// Notes the sink of a Grant that begins with a beat, and removes that of a GrantAck.
fn note_sink<const W: usize>(sinks: &mut ByteTable<()>, first: bool, last: bool, beat: &Beat<W>)
    ensures { (s : ℕ) → is_some (at sinks.new s) ≡ sink_next first last beat.now s (is_some (at sinks.old s)) }
{
    match beat {
        Beat::D(x) if first && is_grant(x.opcode) => sinks.set(x.sink, Some(())),
        Beat::E(x) if last => sinks.set(x.sink, None),
        _ => {}
    }
}

/// Notes the block of a Grant that begins with a beat, and removes that of a GrantAck.
fn note_grant<const W: usize>(
    awaited: &mut Vec<Awaited>,
    first: bool,
    last: bool,
    beat: &Beat<W>,
    block: Option<u32>,
) -> Result<(), AllocError>
    ensures { OnOk result ((k s : ℕ) → awaits k s awaited.new.items
        ≡ awaited_next first last beat.now block k s (awaits k s awaited.old.items)) }
{
    match beat {
        Beat::D(x) if first => match block {
            None => Ok(()),
            Some(block) => await_ack(awaited, block, x.sink),
        },
        Beat::E(x) if last => {
            acknowledge(awaited, x.sink);
            Ok(())
        }
        _ => Ok(()),
    }
}

/// The count of a bin on a link of this level with these liberties; None if such a link can't have it, and it didn't
/// come.
fn cell_of<const W: usize>(liberties: Liberties, level: Level, row: &Row) -> Option<u64>
    requires { IsWidth W }
    ensures { result ≡ cell W liberties level row.now }
{
    if is_possible::<W>(liberties, level, row.situation) || row.count > 0 {
        Some(row.count)
    } else {
        None
    }
}

/// Appends the counts of these bins.
fn append_counts<const W: usize>(
    liberties: Liberties,
    level: Level,
    rows: &[Row],
    cells: &mut Vec<Option<u64>>,
) -> Result<(), AllocError>
    requires { IsWidth W }
    ensures { OnOk result (cells.new.items ≡ cells.old.items ++ map (cell W liberties level) rows.now) }
{
    for row in rows {
        cells.push(cell_of::<W>(liberties, level, row))?;
    }
    Ok(())
}

impl LinkPast {
    /// The record of a link of this level that has carried nothing.
    pub fn new(alloc: Global, level: Level) -> Result<Self, AllocError>
        ensures level { IfOk result (λ p. p.level ≡ level) }
        ensures past { IfOk result (λ p. (w : ℕ) → KnowsPast {w = w} p []) }
        ensures probes { IfOk result (λ p. p.probes.items ≡ []) }
        ensures rows { IfOk result (λ p. p.rows.items ≡ map unseen all_bins) }
    {
        Ok(LinkPast {
            requests: ByteTable::new(),
            released: ByteTable::new(),
            acquires: Vec::new(alloc),
            releases: Vec::new(alloc),
            probes: Vec::new(alloc),
            awaited: Vec::new(alloc),
            sinks: ByteTable::new(),
            open: Open::none(),
            newest: None,
            under_way: UnderWay::none(),
            level,
            rows: new_rows(alloc, &BINS)?,
        })
    }

    /// The last request with the source of a response to one.
    pub fn request_named<const W: usize>(&self, beat: &Beat<W>) -> Option<Request>
        ensures { (h : History W) → KnowsPast self.now h → result ≡ scenes.request_named beat.now h }
    {
        match beat {
            Beat::D(x) if !is_release_ack(x.opcode) => self.requests.get(x.source),
            _ => None,
        }
    }

    /// The block of a beat's message: that of its address, or for a response to a request that of the request.
    pub fn block_named<const W: usize>(&self, beat: &Beat<W>) -> Option<u32>
        ensures { (h : History W) → KnowsPast self.now h → result ≡ scenes.block_named beat.now h }
    {
        match beat {
            Beat::A(x) => Some(block_at(x.address)),
            Beat::B(x) => Some(block_at(x.address)),
            Beat::C(x) => Some(block_at(x.address)),
            _ => Some(self.request_named(beat)?.block),
        }
    }

    /// The pending Probe of a message's block, if it has one.
    pub fn asked_of(&self, block: Option<u32>) -> Option<ProbeAt>
        ensures { result ≡ asked_in self.now block }
    {
        found(&self.probes, block?)
    }

    /// The newest beat of the incomplete message on the channel that a beat answers.
    pub fn answered<const W: usize>(&self, beat: &Beat<W>) -> Option<Control>
        ensures { (h : History W) → KnowsPast self.now h → result ≡ scenes.answered beat.now h }
    {
        match beat {
            Beat::D(x) if is_release_ack(x.opcode) => self.under_way.c,
            Beat::D(_) => self.under_way.a,
            Beat::E(_) => self.under_way.d,
            _ => None,
        }
    }

    /// The number of messages of the kind of a beat's message that are pending.
    pub fn depth<const W: usize>(&self, beat: &Beat<W>) -> usize
        ensures { (h : History W) → KnowsPast self.now h → length self.now.probes.items ≡ scenes.probes_pending h →
            result ≡ scenes.depth beat.now h }
    {
        match beat {
            Beat::A(x) => self.open.alike(x.opcode),
            Beat::B(_) => self.probes.len(),
            Beat::C(_) => self.open.releases(),
            Beat::D(_) => self.sinks.len(),
            Beat::E(_) => 0,
        }
    }

    /// Whether a message is incomplete on each of the channels A, C and D.
    pub fn is_between(&self) -> bool
        ensures { (w : ℕ) (h : History w) → KnowsPast self.now h → result ≡ scenes.is_between h }
    {
        self.under_way.is_full()
    }

    /// Whether a Grant is incomplete.
    pub fn is_granting(&self) -> bool
        ensures { (w : ℕ) (h : History w) → KnowsPast self.now h →
            result ≡ scenes.is_of_grant (scenes.under_way channel.D h) }
    {
        is_of_grant(self.under_way.d)
    }

    /// The block that a beat grants.
    fn granted<const W: usize>(&self, beat: &Beat<W>) -> Option<u32>
        ensures { (k : ℕ) (h : History W) → KnowsPast self.now h → is_of k result ≡ closes (AcquireOf k) beat.now h }
    {
        match beat {
            Beat::D(x) if is_grant(x.opcode) => Some(self.requests.get(x.source)?.block),
            _ => None,
        }
    }

    /// The block whose Release a beat answers.
    fn release_acknowledged<const W: usize>(&self, beat: &Beat<W>) -> Option<u32>
        ensures { (k : ℕ) (h : History W) → KnowsPast self.now h → is_of k result ≡ closes (ReleaseOf k) beat.now h }
    {
        match beat {
            Beat::D(x) if is_release_ack(x.opcode) => self.released.get(x.source),
            _ => None,
        }
    }

    /// Appends the counts of all bins; None for one that a link of this level with these liberties can't have, and that
    /// didn't come.
    pub fn append_cells<const W: usize>(
        &self,
        liberties: Liberties,
        cells: &mut Vec<Option<u64>>,
    ) -> Result<(), AllocError>
        requires { IsWidth W }
        ensures { OnOk result (cells.new.items ≡ cells.old.items ++ cells_of W liberties self.now) }
    {
        append_counts::<W>(liberties, self.level, &self.rows, cells)
    }

    /// The bin with this number, by the link's level and these liberties; None if there is no such bin.
    pub fn bin<const W: usize>(&self, liberties: Liberties, number: usize) -> Option<LinkBin>
        requires { IsWidth W }
        ensures { result ≡ bin_of W liberties number self.now }
    {
        let row = self.rows.get(number)?;
        Some(LinkBin {
            row: *row,
            possible: cell_of::<W>(liberties, self.level, row).is_some(),
        })
    }

    /// Takes a beat in a line of the trace: with the facts about the message that it begins, if it begins one, and `last`
    /// says that it ends one.
    pub fn take<const W: usize>(
        &mut self,
        line: u64,
        opening: Option<Scene>,
        last: bool,
        beat: &Beat<W>,
    ) -> Result<(), AllocError>
        requires { IsWidth W }
        ensures { OnOk result (Taken self.old self.new line opening last beat.now) }
    {
        let first = opening.is_some();
        let granted = self.granted(beat);
        let answered = self.release_acknowledged(beat);
        turn(
            &mut self.acquires,
            acquired(first, beat),
            only_if(last, granted),
        )?;
        turn(
            &mut self.releases,
            released(first, beat),
            only_if(last, answered),
        )?;
        note_probe(&mut self.probes, line, first, last, beat)?;
        note_grant(&mut self.awaited, first, last, beat, granted)?;
        note_sink(&mut self.sinks, first, last, beat);
        self.open.take(first, last, beat);
        note_request(&mut self.requests, first, beat);
        note_release(&mut self.released, first, beat);
        self.newest = Some(beat.control());
        self.under_way = self.under_way.with(last, beat);
        note_all(&mut self.rows, &OF_BINS, line, beat, opening)
    }
}
