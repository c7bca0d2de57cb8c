//! The state of a link after the beats that it has carried.

ghost use Rattle.std.specs.Prelude.{ℕ, true, Some, None, is_some, IsTrue, IfSome, OnOk, OnErr, if◌then◌else◌, ◌≡◌, ◌<◌};
ghost use Rattle.tl_beat.specs.statement.Width.{IsWidth};
ghost use Rattle.tl_burst.specs.statement.Part.{is_small};
ghost use Rattle.tl_rules.specs.code.Tables;
ghost use Rattle.tl_beat.specs.declared.beat.Beat.TheVariants as beat;
ghost use Rattle.tl_rules.specs.code.Open.{request_fields};
ghost use Rattle.tl_rules.specs.statement.History.{is_grant, is_release_ack};
ghost use Rattle.tl_rules.specs.code.Tables.{empty_block, request_next, release_next, release_fields};
ghost use Rattle.tl_monitor.specs.statement.Count.{at};
ghost use Rattle.tl_monitor.specs.code.Blocks.{open_of};
ghost use Rattle.tl_monitor.specs.code.KnownBlocks.{known_in};
ghost use Rattle.tl_monitor.specs.code.LinkState.{is_access, is_block, is_first, completes, sink_with, touched};
ghost use Rattle.tl_monitor.specs.code.LinkState.{block_of_request, block_of_release, entries_in, IsNext, OpensBlock, IsEmpty};
ghost use Rattle.tl_monitor.specs.code.LinkState.{came_in, given_by_control, left_by_control, of_burst};
ghost use Rattle.tl_params.specs.declared.liberties.Liberties.{Liberties};

use crate::bursts::{Bursts, Unfinished};
use crate::byte_table::ByteTable;
use crate::known_blocks::KnownBlocks;
use std::alloc::{AllocError, Global};
use tl_beat::beat::{Beat, BeatA, BeatC, BeatD};
use tl_beat::control::Control;
use tl_beat::opcode::OpD;
use tl_rules::key::block_at;
use tl_rules::kind::{
    capped, is_acquire, is_grant, is_probe, is_release, is_release_ack, reported,
};
use tl_rules::liberties::Liberties;
use tl_rules::past::Request;
use tl_rules::perm::Perm;
use tl_rules::table::Release;

/// The state of a link: its unfinished bursts, and the pending messages by source, sink and block, with the control
/// fields of the message that opened each.
#[derive(Drop)]
pub struct LinkState {
    pub bursts: Bursts<()>,
    pub requests: ByteTable<Request>,
    pub releases: ByteTable<Release>,
    /// The block that was granted with each sink.
    pub sinks: ByteTable<u32>,
    pub blocks: KnownBlocks,
}

fn request_of<const W: usize>(x: &BeatA<W>) -> Request
    ensures { Some result ≡ request_fields (Some x.now) }
{
    Request {
        opcode: x.opcode,
        param: x.param,
        size: x.size,
        block: block_at(x.address),
    }
}

fn release_of<const W: usize>(x: &BeatC<W>) -> Release
    ensures { Some result ≡ release_fields (Some x.now) }
{
    Release {
        size: x.size,
        block: block_at(x.address),
    }
}

/// Updates the block that a beat concerns, if there is one.
#[inline(always)]
fn update_block<const W: usize>(
    blocks: &mut KnownBlocks,
    liberties: Liberties,
    first: bool,
    last: bool,
    came: Option<Perm>,
    beat: &Beat<W>,
    block: Option<u32>,
) -> Result<(), AllocError>
    ensures next { OnOk result ((b : ℕ) → known_in blocks.new b ≡
        (if is_block b block then Tables.block_next liberties first last came beat.now (known_in blocks.old b) else known_in blocks.old
        b)) }
    ensures unchanged { OnErr result (blocks.new ≡ blocks.old) }
    ensures new { OnErr result (IfSome block (λ b. (known_in blocks.old b ≡ empty_block)
        × (0 < open_of (Tables.block_next liberties first last came beat.now (known_in blocks.old b))))) }
    ensures some { OnErr result (is_some block ≡ true) }
{
    match block {
        None => Ok(()),
        Some(block) => blocks.change(liberties, block, first, last, came, beat),
    }
}

/// Whether an answer concerns no block.
pub fn is_access(opcode: OpD) -> bool
    ensures { result ≡ is_access opcode }
{
    matches!(opcode, OpD::AccessAck | OpD::AccessAckData | OpD::HintAck)
}

impl LinkState {
    /// The state of a link that has carried nothing.
    pub fn new(alloc: Global) -> Self
        ensures { IsEmpty result }
    {
        LinkState {
            bursts: Bursts::new(),
            requests: ByteTable::new(),
            releases: ByteTable::new(),
            sinks: ByteTable::new(),
            blocks: KnownBlocks::new(alloc),
        }
    }

    /// The block of the message that a beat answers, if the answer may change a block.
    #[inline(always)]
    fn answered<const W: usize>(&self, x: &BeatD<W>) -> Option<u32>
        ensures { result ≡ (if is_release_ack x.now.opcode then block_of_release (at self.now.releases x.now.source)
            else if is_grant x.now.opcode then block_of_request (at self.now.requests x.now.source) else None) }
    {
        if is_release_ack(x.opcode) {
            Some(self.releases.get(x.source)?.block)
        } else if is_grant(x.opcode) {
            Some(self.requests.get(x.source)?.block)
        } else {
            None
        }
    }

    /// The block that a beat changes.
    #[inline(always)]
    pub fn touched<const W: usize>(&self, first: bool, last: bool, beat: &Beat<W>) -> Option<u32>
        ensures { result ≡ touched first last beat.now self.now }
    {
        match beat {
            Beat::A(x) if first && is_acquire(x.opcode) => Some(block_at(x.address)),
            Beat::B(x) if first && is_probe(x.opcode) => Some(block_at(x.address)),
            Beat::C(x) if first || last => Some(block_at(x.address)),
            Beat::D(x) if first || last => self.answered(x),
            Beat::E(x) => self.sinks.get(x.sink),
            _ => None,
        }
    }

    /// The permission given by the unfinished message that a beat answers, on a link with the liberty `early`.
    #[inline(always)]
    fn came<const W: usize>(&self, liberties: Liberties, beat: &Beat<W>) -> Option<Perm>
        ensures { result ≡ came_in liberties beat.now self.now }
    {
        if !liberties.early {
            return None;
        }
        match beat {
            Beat::D(x) => self.left_early(x.source),
            Beat::E(x) => self.given_early(x.sink),
            _ => None,
        }
    }

    /// The permission that the unfinished Release with this source leaves.
    fn left_early(&self, source: u8) -> Option<Perm>
        ensures { result ≡ of_burst (left_by_control source) self.now.bursts.c }
    {
        match &self.bursts.c {
            Some(
                Unfinished {
                    control: Control::C(x),
                    ..
                },
            ) if is_release(x.opcode) && x.source == source => Some(reported(x.param)),
            _ => None,
        }
    }

    /// The permission that the unfinished Grant with this sink gives.
    fn given_early(&self, sink: u8) -> Option<Perm>
        ensures { result ≡ of_burst (given_by_control sink) self.now.bursts.d }
    {
        match &self.bursts.d {
            Some(
                Unfinished {
                    control: Control::D(x),
                    ..
                },
            ) if is_grant(x.opcode) && x.sink == sink && !x.denied => Some(capped(x.param)),
            _ => None,
        }
    }

    /// Updates the pending keys of sources and sinks.
    #[inline(always)]
    fn update_keys<const W: usize>(
        &mut self,
        first: bool,
        last: bool,
        beat: &Beat<W>,
        block: Option<u32>,
    )
        ensures requests { (s : ℕ) → at self.new.requests s ≡ request_next first last beat.now s (at self.old.requests s) }
        ensures releases { (s : ℕ) → at self.new.releases s ≡ release_next first last beat.now s (at self.old.releases s) }
        ensures sinks { (s : ℕ) → at self.new.sinks s ≡ sink_with first last beat.now block s (at self.old.sinks s) }
        ensures bursts { self.new.bursts ≡ self.old.bursts }
        ensures blocks { self.new.blocks ≡ self.old.blocks }
    {
        match beat {
            Beat::A(x) if first => self.requests.set(x.source, Some(request_of(x))),
            Beat::C(x) if first && is_release(x.opcode) => {
                self.releases.set(x.source, Some(release_of(x)));
            }
            Beat::D(x) => self.update_answered(first, last, x, block),
            Beat::E(x) if last => self.sinks.set(x.sink, None),
            _ => {}
        }
    }

    /// Updates the pending keys of the request that a beat answers, and of its sink.
    #[inline(always)]
    fn update_answered<const W: usize>(
        &mut self,
        first: bool,
        last: bool,
        x: &BeatD<W>,
        block: Option<u32>,
    )
        ensures requests { (s : ℕ) → at self.new.requests s ≡ request_next first last (beat.D x.now) s (at self.old.requests s) }
        ensures releases { (s : ℕ) → at self.new.releases s ≡ release_next first last (beat.D x.now) s (at self.old.releases s) }
        ensures sinks { (s : ℕ) → at self.new.sinks s ≡ sink_with first last (beat.D x.now) block s (at self.old.sinks s) }
        ensures bursts { self.new.bursts ≡ self.old.bursts }
        ensures blocks { self.new.blocks ≡ self.old.blocks }
    {
        if first && is_grant(x.opcode) {
            self.sinks.set(x.sink, block);
        }
        if last {
            if is_release_ack(x.opcode) {
                self.releases.set(x.source, None);
            } else {
                self.requests.set(x.source, None);
            }
        }
    }

    /// Takes a beat that breaks no rule and changes no block.
    #[inline(always)]
    pub fn take_access<const W: usize>(&mut self, first: bool, last: bool, beat: &Beat<W>)
        requires width { IsWidth W }
        requires small { IsTrue (is_small beat.now) }
        requires first { first ≡ is_first beat.now self.old }
        requires last { last ≡ completes beat.now self.old }
        requires access { touched first last beat.now self.old ≡ None }
        ensures { (l : Liberties) → IsNext l self.old beat.now self.new }
    {
        self.update_keys(first, last, beat, None);
        if first && last {
            return;
        }
        self.bursts.take(last, beat, &());
    }

    /// Takes a beat that breaks no rule, which begins a message or doesn't, and completes it or doesn't. The error
    /// means that there is no memory left. Then nothing changes; the beat's block was empty, and would not be empty any
    /// more.
    #[inline(always)]
    pub fn take<const W: usize>(
        &mut self,
        liberties: Liberties,
        first: bool,
        last: bool,
        beat: &Beat<W>,
        block: Option<u32>,
    ) -> Result<(), AllocError>
        requires width { IsWidth W }
        requires small { IsTrue (is_small beat.now) }
        requires first { first ≡ is_first beat.now self.old }
        requires last { last ≡ completes beat.now self.old }
        requires block { block ≡ touched first last beat.now self.old }
        ensures next { OnOk result (IsNext liberties self.old beat.now self.new) }
        ensures unchanged { OnErr result (self.new ≡ self.old) }
        ensures new { OnErr result ((b : ℕ) × OpensBlock liberties self.old beat.now b) }
    {
        let came = self.came(liberties, beat);
        update_block(&mut self.blocks, liberties, first, last, came, beat, block)?;
        self.update_keys(first, last, beat, block);
        if first && last {
            return Ok(());
        }
        self.bursts.take(last, beat, &());
        Ok(())
    }

    /// The number of pending keys, and of blocks held.
    pub fn entries(&self) -> usize
        ensures { result ≡ entries_in self.now }
    {
        self.requests.len() + self.releases.len() + self.sinks.len() + self.blocks.len()
    }
}
