//! Whether a message begins in a situation.

ghost use Rattle.std.specs.Prelude.{◌≡◌};
ghost use Rattle.tl_beat.specs.statement.Width.{IsWidth};
ghost use Rattle.tl_cover.specs.statement.Situations;

use crate::kind::{
    asks_for, gives, has_arithmetic, has_cap, has_grow, has_lanes, has_logical, has_report,
    has_sink_without_grant, is_access_beat, is_acquire_beat, is_aligned, is_atomic,
    is_denied_grant, is_denied_uncorrupt, is_depth, is_get, is_grant_ack_beat, is_grant_beat,
    is_grant_with, is_pending_kind, is_probe_ack_beat, is_probe_beat, is_probe_with_source, is_put,
    is_release_beat, is_report_with_data, is_wait, releases_with, says_nothing_held,
};
use crate::scene::{ProbeAt, Scene, is_same};
use crate::situation::{Situation, Wait};
use tl_beat::beat::Beat;
use tl_beat::control::Control;
use tl_params::param::{Cap, Grow};
use tl_rules::kind::{is_acquire, is_grant, is_release, is_release_ack};
use tl_rules::past::Request;
use tl_rules::perm::Perm;

/// Whether the link holds this permission of the block.
fn holds(held: Perm, scene: &Scene) -> bool
    ensures { result ≡ Situations.holds held scene.now }
{
    is_same(scene.block.held, held)
}

/// Whether a request is an Acquire BtoT.
fn is_upgrade(request: Option<Request>) -> bool
    ensures { result ≡ Situations.is_upgrade request }
{
    match request {
        None => false,
        Some(request) => is_acquire(request.opcode) && request.param == Grow::BtoT.param(),
    }
}

/// Whether a request is an Acquire NtoB.
fn asks_to_read(request: Option<Request>) -> bool
    ensures { result ≡ Situations.asks_to_read request }
{
    match request {
        None => false,
        Some(request) => is_acquire(request.opcode) && request.param == Grow::NtoB.param(),
    }
}

/// Whether the copy with which an Acquire BtoT began is lost.
fn has_lost_copy(scene: &Scene) -> bool
    ensures { result ≡ Situations.has_lost_copy scene.now }
{
    is_upgrade(scene.request) && holds(Perm::None, scene)
}

/// Whether the beat is one of the response's request, or of its Release for a ReleaseAck.
fn follows<const W: usize>(beat: &Beat<W>, previous: Option<Control>) -> bool
    ensures { result ≡ Situations.follows beat.now previous }
{
    match (beat, previous) {
        (Beat::D(x), Some(Control::A(y))) => !is_release_ack(x.opcode) && y.source == x.source,
        (Beat::D(x), Some(Control::C(y))) => {
            is_release_ack(x.opcode) && is_release(y.opcode) && y.source == x.source
        }
        _ => false,
    }
}

/// Whether a GrantAck has the sink of the Grant.
fn acknowledges<const W: usize>(beat: &Beat<W>, answered: Option<Control>) -> bool
    ensures { result ≡ Situations.acknowledges beat.now answered }
{
    match (beat, answered) {
        (Beat::E(x), Some(Control::D(y))) => is_grant(y.opcode) && y.sink == x.sink,
        _ => false,
    }
}

/// Whether the beat is of channel D.
fn is_response(previous: Option<Control>) -> bool
    ensures { result ≡ Situations.is_response previous }
{
    matches!(previous, Some(Control::D(_)))
}

/// Whether there is a pending Probe with this cap.
fn is_asked(cap: Cap, asked: Option<ProbeAt>) -> bool
    ensures { result ≡ Situations.is_asked cap asked }
{
    match asked {
        None => false,
        Some(probe) => probe.param == cap.param(),
    }
}

/// Whether there is a pending Probe, and so many beats came after it, the last of them in this line.
fn has_waited(wait: Wait, line: u64, asked: Option<ProbeAt>) -> bool
    ensures { result ≡ Situations.has_waited wait line asked }
{
    match asked {
        None => false,
        Some(probe) => is_wait(wait, line.saturating_sub(probe.line)),
    }
}

/// Whether a message that begins with a beat begins in a situation, by the facts about it.
pub fn meets<const W: usize>(situation: Situation, beat: &Beat<W>, scene: &Scene) -> bool
    requires { IsWidth W }
    ensures { result ≡ Situations.meets situation beat.now scene.now }
{
    let block = &scene.block;
    match situation {
        Situation::ProbeBesideRelease => is_probe_beat(beat) && block.release,
        Situation::ReleaseBesideProbe => is_release_beat(beat) && block.probe,
        Situation::ProbeBesideAcquire => is_probe_beat(beat)
            && block.acquire
            && holds(Perm::None, scene),
        Situation::ProbeBesideUpgrade => is_probe_beat(beat)
            && block.acquire
            && holds(Perm::Branch, scene),
        Situation::ProbeOfNothing => is_probe_beat(beat) && holds(Perm::None, scene),
        Situation::UpgradeLostWithData => is_grant_with(true, beat) && has_lost_copy(scene),
        Situation::UpgradeLostWithoutData => is_grant_with(false, beat) && has_lost_copy(scene),
        Situation::ReleaseBeforeGrantAck => is_release_beat(beat) && block.grant_ack,
        Situation::TwoGrants => is_grant_beat(beat) && scene.waiting >= 1,
        Situation::FourGrants => is_grant_beat(beat) && scene.waiting >= 3,
        Situation::Acquired(grow) => has_grow(grow, beat),
        Situation::Granted(grow) => gives(grow, beat) && holds(grow.left(), scene),
        Situation::Probed(cap) => has_cap(cap, beat),
        Situation::Reported(report) => has_report(report, beat),
        Situation::Released(report) => releases_with(report, beat),
        Situation::AccessBesideTransfer => is_access_beat(beat) && (block.acquire || block.release),
        Situation::AccessOfHeldBlock => is_access_beat(beat) && !holds(Perm::None, scene),
        Situation::Masked(lanes) => has_lanes(lanes, beat),
        Situation::GetOf(bytes) => is_get(beat) && asks_for(bytes, beat),
        Situation::PutOf(bytes) => is_put(beat) && asks_for(bytes, beat),
        Situation::AtomicOf(bytes) => is_atomic(beat) && asks_for(bytes, beat),
        Situation::Arithmetic(operation) => has_arithmetic(operation, beat),
        Situation::Logical(operation) => has_logical(operation, beat),
        Situation::ResponseAtOnce => follows(beat, scene.previous),
        Situation::GrantAckLater => is_grant_ack_beat(beat) && !is_response(scene.previous),
        Situation::Contention => is_acquire_beat(beat) && block.acquiring >= 1,
        Situation::ThreeContend => is_acquire_beat(beat) && block.acquiring >= 2,
        Situation::ReadOfOwned => is_get(beat) && block.owners >= 1,
        Situation::WriteToOwned => is_put(beat) && block.owners >= 1,
        Situation::AtomicOnOwned => is_atomic(beat) && block.owners >= 1,
        Situation::WriteToShared => is_put(beat) && block.readers >= 2,
        Situation::ReportBesideGrant => is_report_with_data(beat) && scene.granting >= 1,
        Situation::BetweenBursts => scene.between,
        Situation::EarlyResponse => follows(beat, scene.answered),
        Situation::EarlyGrantAck => acknowledges(beat, scene.answered),
        Situation::ProbeWithSource => is_probe_with_source(beat),
        Situation::SinkWithoutGrant => has_sink_without_grant(beat),
        Situation::GrantOfMore => gives(Grow::NtoT, beat) && asks_to_read(scene.request),
        Situation::CopyDropped => says_nothing_held(beat) && !holds(Perm::None, scene),
        Situation::GrantDenied => is_denied_grant(beat),
        Situation::DeniedUncorrupt => is_denied_uncorrupt(beat),
        Situation::Sent(kind) => kind.is_of(beat),
        Situation::Answered(report, cap) => has_report(report, beat) && is_asked(cap, scene.asked),
        Situation::Waited(wait) => is_probe_ack_beat(beat)
            && has_waited(wait, scene.line, scene.asked),
        Situation::Aligned(bytes, many) => is_access_beat(beat)
            && asks_for(bytes, beat)
            && is_aligned(many, beat),
        Situation::Among(kind, depth) => {
            is_pending_kind(kind, beat) && is_depth(depth, scene.depth)
        }
    }
}
