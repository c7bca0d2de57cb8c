//! The permission of a block that a message sets.

ghost use Rattle.std.specs.Prelude.{◌≡◌};
ghost use Rattle.tl_explain.specs.code.Saying;
ghost use Rattle.tl_monitor.specs.code.LinkState.{given_by_control, left_by_control};

use crate::bursts::{Begun, begun_of};
use crate::recorder::Recorder;
use crate::told::Told;
use crate::turns::{Moment, sink_of};
use tl_beat::beat::{Beat, BeatA, BeatC, BeatD, BeatE};
use tl_beat::control::Control;
use tl_params::key::block_at;
use tl_params::liberties::Liberties;
use tl_params::perm::Perm;
use tl_rules::kind::{
    capped, grows_from_none, is_acquire, is_grant, is_probe_ack, is_release, is_release_ack,
    reported,
};

/// The permission that the Release with this source leaves, if the unfinished burst is its.
fn left_by_burst(source: u8, burst: Option<Begun>) -> Option<Perm>
    ensures { result ≡ Saying.said_by_burst (left_by_control source) burst }
{
    match burst?.newest {
        Control::C(x) if is_release(x.opcode) && x.source == source => Some(reported(x.param)),
        _ => None,
    }
}

/// The permission that the Grant with this sink gives, if the unfinished burst is its and it isn't denied.
fn given_by_burst(sink: u8, burst: Option<Begun>) -> Option<Perm>
    ensures { result ≡ Saying.said_by_burst (given_by_control sink) burst }
{
    match burst?.newest {
        Control::D(x) if is_grant(x.opcode) && x.sink == sink && !x.denied => Some(capped(x.param)),
        _ => None,
    }
}

/// The permission that an Acquire sets under `drops`.
fn said_on_a<const W: usize>(
    liberties: Liberties,
    block: u32,
    first: bool,
    x: &BeatA<W>,
) -> Option<Perm>
    ensures { result ≡ Saying.said_on_a liberties block first x.now }
{
    if !liberties.drops || !first || !is_acquire(x.opcode) || !grows_from_none(x.param) {
        return None;
    }
    if block_at(x.address) == block {
        Some(Perm::None)
    } else {
        None
    }
}

/// The permission that a ProbeAck or Release sets, if this Release of the block is open. One that was answered before
/// its last beat sets none.
fn said_on_c<const W: usize>(
    liberties: Liberties,
    block: u32,
    first: bool,
    release: Option<Told>,
    x: &BeatC<W>,
) -> Option<Perm>
    ensures { result ≡ Saying.said_on_c liberties block first release x.now }
{
    if liberties.early && is_release(x.opcode) && !first && release.is_none() {
        return None;
    }
    if (is_probe_ack(x.opcode) || is_release(x.opcode)) && block_at(x.address) == block {
        Some(reported(x.param))
    } else {
        None
    }
}

/// The permission that a Grant sets, if this Grant of the block is open, or a ReleaseAck of an unfinished Release. The
/// message is of the block `of`.
fn said_on_d<const W: usize>(
    liberties: Liberties,
    block: u32,
    first: bool,
    grant: Option<Told>,
    of: Option<u32>,
    burst: Option<Begun>,
    x: &BeatD<W>,
) -> Option<Perm>
    ensures { result ≡ Saying.said_on_d liberties block first grant of burst x.now }
{
    if liberties.denied && x.denied {
        return None;
    }
    if liberties.early && is_grant(x.opcode) && !first && grant.is_none() {
        return None;
    }
    if of != Some(block) {
        return None;
    }
    if liberties.early && is_release_ack(x.opcode) {
        return left_by_burst(x.source, burst);
    }
    if is_grant(x.opcode) {
        Some(capped(x.param))
    } else {
        None
    }
}

/// The permission that a GrantAck sets for the open Grant of the block, if that is unfinished.
fn said_on_e(
    liberties: Liberties,
    grant: Option<Told>,
    burst: Option<Begun>,
    x: &BeatE,
) -> Option<Perm>
    ensures { result ≡ Saying.said_on_e liberties grant burst x.now }
{
    if liberties.early && sink_of(&grant) == Some(x.sink) {
        given_by_burst(x.sink, burst)
    } else {
        None
    }
}

/// The permission of the subject's block that this beat sets, if it completes a message that sets one.
pub fn said_by<const W: usize>(recorder: &Recorder, moment: &Moment, beat: &Beat<W>) -> Option<Perm>
    ensures { result ≡ Saying.said_by recorder.now moment.now beat.now }
{
    let (liberties, turns) = (recorder.liberties, &recorder.turns);
    let (block, first) = (recorder.subject.block, moment.first);
    match beat {
        Beat::A(x) => said_on_a(liberties, block, first, x),
        Beat::B(_) => None,
        Beat::C(x) => said_on_c(liberties, block, first, turns.release.pending(), x),
        Beat::D(x) => {
            let burst = begun_of(&recorder.bursts.c);
            let grant = turns.grant_ack.pending();
            said_on_d(liberties, block, first, grant, moment.block, burst, x)
        }
        Beat::E(x) => {
            let burst = begun_of(&recorder.bursts.d);
            said_on_e(liberties, turns.grant_ack.pending(), burst, x)
        }
    }
}
