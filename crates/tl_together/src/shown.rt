//! Reports that show the bytes of a block, and leave their sender Trunk.

ghost use Rattle.std.specs.Prelude.{ℕ, List, Some, length, option_map, ◌∷◌, ◌≡◌, ◌<◌};
ghost use Rattle.tl_memory.specs.statement.Known.{freedom};
ghost use Rattle.tl_bytes.specs.statement.Shown;
ghost use Rattle.tl_burst.specs.statement.Messages.{History};
ghost use Rattle.tl_params.specs.declared.level.Level.{Level};
ghost use Rattle.tl_params.specs.declared.liberties.Liberties.{Liberties};
ghost use Rattle.tl_rules.specs.statement.Conformance.{Trace, on_link};
ghost use Rattle.tl_together.specs.code.Windows.{IsLeft, LeavesOthers, MayShow};
ghost use Rattle.tl_together.specs.code.Following.{Follows};

use crate::free::freedom_now;
use tl_beat::beat::{Beat, BeatC, Link};
use tl_beat::opcode::{OpB, OpC};
use tl_memory::free::Freedom;
use tl_monitor::monitor::Monitor;
use tl_rules::key::block_at;
use tl_rules::kind::reported;
use tl_rules::past::Probe;
use tl_rules::perm::Perm;

/// Whether a Probe asks for the bytes of its block.
fn asks_bytes(probe: Option<Probe>) -> bool
    ensures { result ≡ Shown.asks_bytes probe }
{
    match probe {
        None => false,
        Some(probe) => probe.opcode == OpB::ProbeBlock,
    }
}

/// Whether a report gives the bytes of its block, by its data or by having none. `asked` is the Probe that it answers,
/// if any.
fn tells_bytes(opcode: OpC, asked: Option<Probe>) -> bool
    ensures { result ≡ Shown.tells_bytes opcode asked }
{
    match opcode {
        OpC::ProbeAck => asks_bytes(asked),
        OpC::ProbeAckData | OpC::Release | OpC::ReleaseData => true,
        _ => false,
    }
}

/// Whether a report leaves its sender Trunk of its block, and gives the block's bytes.
fn shows_bytes<const W: usize>(monitor: &Monitor<W>, link: Link, x: &BeatC<W>) -> bool
    ensures { (levels : List Level) (l : Liberties) (t : Trace W) →
        Follows monitor.now levels l t → link.0 < length levels →
        result ≡ Shown.shows_bytes x.now (on_link link.0 t) }
{
    if reported(x.param) != Perm::Trunk {
        return false;
    }
    tells_bytes(x.opcode, monitor.probe(link, block_at(x.address)))
}

/// The block whose bytes a beat shows, if it completes its message.
#[inline(always)]
pub fn shown_by<const W: usize>(monitor: &Monitor<W>, link: Link, beat: &Beat<W>) -> Option<u32>
    ensures shown { (levels : List Level) (l : Liberties) (t : Trace W) →
        Follows monitor.now levels l t → link.0 < length levels →
        MayShow result beat.now (on_link link.0 t) }
    ensures own { (block : ℕ) (t : History W) → result ≡ Some block → LeavesOthers result beat.now t }
{
    match beat {
        Beat::C(x) if shows_bytes(monitor, link, x) => Some(block_at(x.address)),
        _ => None,
    }
}

/// Whether the beat that was taken last shows the bytes of this block. `shown` is the block whose bytes it shows if it
/// completes its message.
pub fn is_shown<const W: usize>(
    monitor: &Monitor<W>,
    link: Link,
    beat: &Beat<W>,
    shown: Option<u32>,
    block: u32,
) -> bool
    ensures { (levels : List Level) (l : Liberties) (t : Trace W) →
        Follows monitor.now levels l ((link, beat.now) ∷ t) → link.0 < length levels →
        MayShow shown beat.now (on_link link.0 t) → result ≡ Shown.shows block beat.now (on_link link.0 t) }
{
    let Some(own) = shown else {
        return false;
    };
    if block != own {
        return false;
    }
    monitor.begins(link, beat)
}

/// Whether the block whose permission the last beat may have changed, if there is one, is free for reading and for
/// writing. `shown` is the block whose bytes that beat shows if it completes its message, `others` the same for the
/// other links, if it is known.
#[inline(always)]
pub fn freed<const W: usize>(
    monitor: &Monitor<W>,
    links: u8,
    link: Link,
    beat: &Beat<W>,
    held: Option<u32>,
    shown: Option<u32>,
    others: Option<Freedom>,
) -> Option<Freedom>
    ensures { (levels : List Level) (l : Liberties) (t : Trace W) →
        Follows monitor.now levels l ((link, beat.now) ∷ t) → links ≡ length levels → link.0 < length levels →
        MayShow shown beat.now (on_link link.0 t) → IsLeft others held link.0 (length levels) t →
        result ≡ option_map (λ block. freedom (length levels) block (link, beat.now) t) held }
{
    match held {
        None => None,
        Some(block) => {
            let shows = is_shown(monitor, link, beat, shown, block);
            Some(freedom_now(monitor, links, link, block, shows, others))
        }
    }
}
