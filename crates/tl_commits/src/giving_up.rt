//! Beats that take Trunk of a block away without data.

ghost use Rattle.std.specs.Prelude.{List, false, not, None, Some, ◌≡◌, ◌<◌, ◌&&◌, if◌then◌else◌, length};
ghost use Rattle.tl_beat.specs.declared.beat.Beat.TheVariants as beat;
ghost use Rattle.tl_params.specs.declared.level.Level.{Level};
ghost use Rattle.tl_params.specs.declared.liberties.Liberties.{Liberties};
ghost use Rattle.tl_params.specs.declared.perm.Perm.TheVariants as trunk;
ghost use Rattle.tl_rules.specs.statement.Conformance.{same_perm};
ghost use Rattle.tl_together.specs.statement.Knows.{Knows};
ghost use Rattle.tl_commits.specs.code.GivingUp as code;
ghost use Rattle.tl_commits.specs.code.ValueTable.{KnowsTable};
ghost use Rattle.tl_commits.specs.statement.Completeness.{Completeness, is_complete};
ghost use Rattle.tl_commits.specs.statement.Commits;
ghost use Rattle.tl_commits.specs.statement.Copies;
ghost use Rattle.tl_commits.specs.statement.Copies.{link_beats};
ghost use Rattle.tl_commits.specs.statement.Events.{Events, beats_of};
ghost use Rattle.tl_commits.specs.statement.Seen;

use crate::value_table::ValueTable;
use tl_beat::beat::{Beat, BeatC, Link};
use tl_beat::opcode::{OpB, OpC};
use tl_memory::message::{both, either};
use tl_memory::passing::acquires_from_none;
use tl_rules::key::block_at;
use tl_rules::kind::reported;
use tl_rules::past::Probe;
use tl_rules::perm::Perm;
use tl_together::judge::Judge;

/// Whether a permission is Trunk.
fn is_trunk(perm: Perm) -> bool
    ensures { result ≡ same_perm perm trunk.Trunk }
{
    matches!(perm, Perm::Trunk)
}

/// Whether a link holds Trunk of a block.
pub(crate) fn holds_trunk<const W: usize>(judge: &Judge<W>, link: Link, block: u32) -> bool
    ensures { (levels : List Level) (l : Liberties) (e : Events W) → Knows judge.now levels l (beats_of e) false →
        link.0 < length levels → result ≡ Copies.holds_trunk block (link_beats link.0 e) }
{
    is_trunk(judge.held(link, block))
}

/// Whether there is a Probe that asks for no data.
fn asks_nothing(probe: Option<Probe>) -> bool
    ensures { result ≡ Seen.asks_nothing probe }
{
    match probe {
        Some(probe) => !matches!(probe.opcode, OpB::ProbeBlock),
        None => false,
    }
}

/// Whether the opcode is ProbeAck.
fn is_plain_ack(opcode: OpC) -> bool
    ensures { result ≡ Seen.is_plain_ack opcode }
{
    matches!(opcode, OpC::ProbeAck)
}

/// Whether a beat answers a Probe that asks for no data.
fn answers_nothing<const W: usize>(judge: &Judge<W>, link: Link, x: &BeatC<W>) -> bool
    ensures { (levels : List Level) (l : Liberties) (e : Events W) → Knows judge.now levels l (beats_of e) false →
        link.0 < length levels → result ≡ code.answers_nothing x.now (link_beats link.0 e) }
{
    let probe = judge.probe(link, block_at(x.address));
    both(is_plain_ack(x.opcode), asks_nothing(probe))
}

/// Whether a report takes Trunk away.
fn leaves_trunk<const W: usize>(judge: &Judge<W>, link: Link, x: &BeatC<W>) -> bool
    ensures { (levels : List Level) (l : Liberties) (e : Events W) → Knows judge.now levels l (beats_of e) false →
        link.0 < length levels → result ≡ code.leaves_trunk x.now (link_beats link.0 e) }
{
    let held = holds_trunk(judge, link, block_at(x.address));
    both(held, !is_trunk(reported(x.param)))
}

/// Whether with a beat the bytes that were stored to the block of its address are lost, as the manager wants it.
pub(crate) fn loses_stores<const W: usize>(judge: &Judge<W>, link: Link, x: &BeatC<W>) -> bool
    ensures { (levels : List Level) (l : Liberties) (e : Events W) → Knows judge.now levels l (beats_of e) false →
        link.0 < length levels →
        result ≡ (code.answers_nothing x.now (link_beats link.0 e) && code.leaves_trunk x.now (link_beats link.0 e)) }
{
    both(
        answers_nothing(judge, link, x),
        leaves_trunk(judge, link, x),
    )
}

/// The block, if its Trunk is taken.
fn block_if(taken: bool, block: u32) -> Option<u32>
    ensures { result ≡ (if taken then Some block else None) }
{
    if taken { Some(block) } else { None }
}

/// The block of which a beat without data takes Trunk away, if it takes Trunk of one.
pub(crate) fn takes_trunk<const W: usize>(
    judge: &Judge<W>,
    link: Link,
    beat: &Beat<W>,
) -> Option<u32>
    ensures { (levels : List Level) (l : Liberties) (e : Events W) → Knows judge.now levels l (beats_of e) false →
        link.0 < length levels → result ≡ Commits.takes_trunk beat.now (link_beats link.0 e) }
{
    match beat {
        Beat::A(x) => {
            let block = block_at(x.address);
            block_if(
                both(acquires_from_none(x), holds_trunk(judge, link, block)),
                block,
            )
        }
        Beat::C(x) => {
            let wanted = answers_nothing(judge, link, x);
            block_if(
                both(leaves_trunk(judge, link, x), !wanted),
                block_at(x.address),
            )
        }
        _ => None,
    }
}

/// Whether a beat without data loses no stored byte, if `complete` says whether all stores of its link are in the trace.
pub(crate) fn keeps_stores<const W: usize>(
    judge: &Judge<W>,
    table: &ValueTable,
    complete: bool,
    link: Link,
    beat: &Beat<W>,
) -> bool
    ensures { (levels : List Level) (l : Liberties) (of_links : Completeness) (e : Events W) →
        Knows judge.now levels l (beats_of e) false → link.0 < length levels →
        KnowsTable table.now of_links (length levels) e → complete ≡ is_complete of_links link.0 →
        result ≡ Commits.keeps_stores of_links (length levels) link.0
        (Commits.takes_trunk beat.now (link_beats link.0 e)) e }
{
    match takes_trunk(judge, link, beat) {
        None => true,
        Some(block) => either(!complete, table.is_clean(block)),
    }
}
