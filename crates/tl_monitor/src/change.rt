//! The change that a beat makes to the block that it concerns.

ghost use Rattle.std.specs.Prelude.{Option, Some, ◌≡◌};
ghost use Rattle.tl_beat.specs.declared.beat.Beat.TheVariants as beat;
ghost use Rattle.tl_params.specs.declared.perm.Perm.{Perm};
ghost use Rattle.tl_rules.specs.code.Tables.{block_next, held_with, probe_kept};

use tl_beat::beat::{Beat, BeatA, BeatB, BeatC, BeatD, BeatE};
use tl_rules::kind::{
    capped, grows_from_none, is_acquire, is_grant, is_probe, is_probe_ack, is_release,
    is_release_ack, reported,
};
use tl_rules::liberties::Liberties;
use tl_rules::past::Probe;
use tl_rules::perm::Perm;
use tl_rules::table::{Block, PendingProbe};

fn probe_of<const W: usize>(x: &BeatB<W>) -> PendingProbe
    ensures { Some result ≡ probe_kept (Some x.now) }
{
    PendingProbe {
        probe: Probe {
            opcode: x.opcode,
            param: x.param,
        },
        source: x.source,
    }
}

fn change_a<const W: usize>(
    liberties: Liberties,
    first: bool,
    last: bool,
    x: &BeatA<W>,
    block: &mut Block,
)
    ensures { (came : Option Perm) → block.new ≡ block_next liberties first last came (beat.A x.now) block.old }
{
    if !first || !is_acquire(x.opcode) {
        return;
    }
    block.acquire = true;
    if liberties.drops && last && grows_from_none(x.param) {
        block.held = Perm::None;
    }
}

fn change_b<const W: usize>(
    liberties: Liberties,
    first: bool,
    last: bool,
    x: &BeatB<W>,
    block: &mut Block,
)
    ensures { (came : Option Perm) → block.new ≡ block_next liberties first last came (beat.B x.now) block.old }
{
    if first && is_probe(x.opcode) {
        block.probe = Some(probe_of(x));
    }
}

fn change_c<const W: usize>(
    liberties: Liberties,
    first: bool,
    last: bool,
    x: &BeatC<W>,
    block: &mut Block,
)
    ensures { (came : Option Perm) → block.new ≡ block_next liberties first last came (beat.C x.now) block.old }
{
    let answered = liberties.early && is_release(x.opcode) && !first && !block.release;
    if !answered && last && (is_probe_ack(x.opcode) || is_release(x.opcode)) {
        block.held = reported(x.param);
    }
    if first && is_release(x.opcode) {
        block.release = true;
    }
    if last && is_probe_ack(x.opcode) {
        block.probe = None;
    }
}

/// The permission held of a block after a beat of a response, which completes its message or doesn't. `came` is the
/// permission left by an unfinished Release that it answers.
fn held_with<const W: usize>(
    liberties: Liberties,
    first: bool,
    last: bool,
    came: Option<Perm>,
    x: &BeatD<W>,
    block: &Block,
) -> Perm
    ensures { result ≡ held_with liberties first last came x.now block.now }
{
    if liberties.denied && x.denied {
        return block.held;
    }
    if liberties.early && is_grant(x.opcode) && !first && block.grant.is_none() {
        return block.held;
    }
    if liberties.early && is_release_ack(x.opcode) {
        return match came {
            Some(left) if last => left,
            _ => block.held,
        };
    }
    if last && is_grant(x.opcode) {
        return capped(x.param);
    }
    block.held
}

fn change_d<const W: usize>(
    liberties: Liberties,
    first: bool,
    last: bool,
    came: Option<Perm>,
    x: &BeatD<W>,
    block: &mut Block,
)
    ensures { block.new ≡ block_next liberties first last came (beat.D x.now) block.old }
{
    block.held = held_with(liberties, first, last, came, x, block);
    if last && is_grant(x.opcode) {
        block.acquire = false;
    }
    if last && is_release_ack(x.opcode) {
        block.release = false;
    }
    if first && is_grant(x.opcode) {
        block.grant = Some(x.sink);
    }
}

fn change_e(
    liberties: Liberties,
    first: bool,
    last: bool,
    came: Option<Perm>,
    x: &BeatE,
    block: &mut Block,
)
    ensures { block.new ≡ block_next {w = 8} liberties first last came (beat.E x.now) block.old }
{
    if !last || block.grant != Some(x.sink) {
        return;
    }
    block.grant = None;
    if liberties.early {
        if let Some(given) = came {
            block.held = given;
        }
    }
}

/// The change to a block by a beat that concerns it, which begins a message or doesn't, and completes it or doesn't.
/// `came` is the permission given by an unfinished message that it answers.
pub fn change_block<const W: usize>(
    liberties: Liberties,
    first: bool,
    last: bool,
    came: Option<Perm>,
    beat: &Beat<W>,
    block: &mut Block,
)
    ensures { block.new ≡ block_next liberties first last came beat.now block.old }
{
    match beat {
        Beat::A(x) => change_a(liberties, first, last, x, block),
        Beat::B(x) => change_b(liberties, first, last, x, block),
        Beat::C(x) => change_c(liberties, first, last, x, block),
        Beat::D(x) => change_d(liberties, first, last, came, x, block),
        Beat::E(x) => change_e(liberties, first, last, came, x, block),
    }
}
