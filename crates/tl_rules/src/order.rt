//! The order of messages on a link: the first rule that a message breaks at its first beat (SiFive
//! TileLink Specification 1.8, "Operation flow and message ordering").

ghost use Rattle.std.specs.Prelude.{true, false, not, Option, Some, ◌≡◌, ◌&&◌, ◌||◌};
ghost use Rattle.tl_beat.specs.declared.beat.BeatA.{BeatA};
ghost use Rattle.tl_beat.specs.statement.Opcode.{c_carries_data};
ghost use Rattle.tl_burst.specs.statement.Messages.{History};
ghost use Rattle.tl_params.specs.declared.liberties.Liberties.{Liberties};
ghost use Rattle.tl_params.specs.statement.Param.{prune_of, cap_of, report_named};
ghost use Rattle.tl_rules.specs.statement.Conformance;
ghost use Rattle.tl_rules.specs.statement.History.{pending, is_release_ack};
ghost use Rattle.tl_rules.specs.statement.Liberties as under;
ghost use Rattle.tl_rules.specs.code.Open.{is_number, probe_source, request_fields};

use crate::kind::{
    answers, is_acquire, is_grant, is_probe, is_probe_ack, is_release, is_release_ack,
};
use crate::past::{Past, Request};
use crate::past_under::{AtProfile, PastUnder};
use tl_beat::beat::{Beat, BeatA, BeatB, BeatC, BeatD, BeatE};
use tl_beat::opcode::{OpA, OpB, OpC, OpD};
use tl_params::key::{Key, block_at};
use tl_params::liberties::Liberties;
use tl_params::param::{Cap, Grow, Prune, Report};
use tl_params::perm::Perm;
use tl_params::profile::Profile;
use tl_params::report::report_of;
use tl_params::rule::Rule;

#[inline(always)]
fn either_pending<const W: usize, P: PastUnder<W>>(one: Key, other: Key, past: &P) -> bool
    ensures { (l : Liberties) (t : History W) → P.knows past.now l t → result ≡ (pending one t || pending other t) }
{
    past.is_pending(one) || past.is_pending(other)
}

/// Whether the grow of an Acquire fits the permission held.
fn grows_from(liberties: Liberties, param: u8, perm: Perm) -> bool
    ensures { result ≡ under.grows_from_under liberties param perm }
{
    if param == Grow::BtoT.param() {
        perm != Perm::Trunk
    } else {
        liberties.drops || perm == Perm::None
    }
}

#[inline(always)]
fn broken_a<const W: usize, P: PastUnder<W>>(
    liberties: Liberties,
    x: &BeatA<W>,
    past: &P,
) -> Option<Rule>
    ensures { (t : History W) → P.knows past.now liberties t →
        result ≡ under.broken_a_under liberties x.now t }
{
    let block = block_at(x.address);
    if past.is_pending(Key::RequestSource(x.source)) {
        return Some(Rule::H1);
    }
    if !is_acquire(x.opcode) {
        return None;
    }
    if either_pending(Key::AcquireOf(block), Key::ReleaseOf(block), past) {
        return Some(Rule::H4);
    }
    if !grows_from(liberties, x.param, past.held(block)) {
        return Some(Rule::H5);
    }
    None
}

#[inline(always)]
fn broken_b<const W: usize, P: PastUnder<W>>(x: &BeatB<W>, past: &P) -> Option<Rule>
    ensures { (l : Liberties) (t : History W) → P.knows past.now l t → result ≡ Conformance.broken_b x.now t }
{
    let block = block_at(x.address);
    if !is_probe(x.opcode) {
        return None;
    }
    if either_pending(Key::ProbeOf(block), Key::GrantAckOf(block), past) {
        return Some(Rule::H9);
    }
    None
}

/// Whether the prune of a Release starts from the permission held.
fn prunes_from(param: u8, perm: Perm) -> bool
    ensures { result ≡ Conformance.prunes_from (prune_of param) perm }
{
    match Prune::from_param(param) {
        None => false,
        Some(prune) => prune.left() == perm,
    }
}

/// Whether the report of a Release starts from the permission held.
fn reports_from(param: u8, perm: Perm) -> bool
    ensures { result ≡ under.reports_from (report_named param) perm }
{
    match Report::from_param(param) {
        None => false,
        Some(report) => report.left() == perm,
    }
}

/// Whether a param is the report NtoN.
pub fn reports_none(param: u8) -> bool
    ensures { result ≡ under.reports_none param }
{
    param == Report::NtoN.param()
}

/// Whether the prune of a Release, or under `reports` its report, starts from the permission held. With `drops` too the
/// report NtoN always fits.
pub fn releases_from(liberties: Liberties, param: u8, perm: Perm) -> bool
    ensures { result ≡ under.releases_from liberties param perm }
{
    if liberties.reports {
        liberties.drops && reports_none(param) || reports_from(param, perm)
    } else {
        prunes_from(param, perm)
    }
}

fn broken_release<const W: usize, P: PastUnder<W>>(
    liberties: Liberties,
    x: &BeatC<W>,
    past: &P,
) -> Option<Rule>
    ensures { (t : History W) → P.knows past.now liberties t →
        result ≡ under.broken_release_under liberties x.now t }
{
    let block = block_at(x.address);
    if past.is_pending(Key::ReleaseSource(x.source)) {
        return Some(Rule::H1);
    }
    if either_pending(Key::AcquireOf(block), Key::ReleaseOf(block), past) {
        return Some(Rule::H13);
    }
    if !releases_from(liberties, x.param, past.held(block)) {
        return Some(Rule::H13);
    }
    None
}

/// Whether a param is the report of a Probe's cap and the permission held.
fn is_report(param: u8, cap: u8, perm: Perm) -> bool
    ensures { result ≡ Conformance.is_report_at param (cap_of cap) perm }
{
    match Cap::from_param(cap) {
        None => false,
        Some(cap) => param == report_of(cap, perm).param(),
    }
}

/// Whether an answer with data answers a ProbePerm.
fn answers_wrong_probe(answer: OpC, probe: OpB) -> bool
    ensures { result ≡ (c_carries_data answer && not (Conformance.is_probe_block probe)) }
{
    answer.carries_data() && probe != OpB::ProbeBlock
}

/// Whether a param isn't the report of a Probe's cap and the permission held, nor one that `drops` allows.
fn misreports(liberties: Liberties, param: u8, cap: u8, perm: Perm) -> bool
    ensures { result ≡ (not (liberties.drops && under.reports_none param)
        && not (Conformance.is_report_at param (cap_of cap) perm)) }
{
    !(liberties.drops && reports_none(param)) && !is_report(param, cap, perm)
}

/// Under `ids`, whether the source isn't that of the Probe of the block.
fn has_other_source<const W: usize, P: PastUnder<W>>(
    liberties: Liberties,
    source: u8,
    block: u32,
    past: &P,
) -> bool
    ensures { (t : History W) → P.knows past.now liberties t →
        result ≡ (liberties.ids && not (is_number source (probe_source block t))) }
{
    liberties.ids && past.probe_source(block) != Some(source)
}

fn broken_probe_ack<const W: usize, P: PastUnder<W>>(
    liberties: Liberties,
    x: &BeatC<W>,
    past: &P,
) -> Option<Rule>
    ensures { (t : History W) → P.knows past.now liberties t →
        result ≡ under.broken_probe_ack_under liberties x.now t }
{
    let block = block_at(x.address);
    let Some(probe) = past.probe(block) else {
        return Some(Rule::H10);
    };
    if has_other_source(liberties, x.source, block, past) {
        return Some(Rule::H10);
    }
    if answers_wrong_probe(x.opcode, probe.opcode) {
        return Some(Rule::H10);
    }
    if past.is_pending(Key::ReleaseOf(block)) {
        return Some(Rule::H11);
    }
    if misreports(liberties, x.param, probe.param, past.held(block)) {
        return Some(Rule::H12);
    }
    None
}

#[inline(always)]
fn broken_c<const W: usize, P: PastUnder<W>>(
    liberties: Liberties,
    x: &BeatC<W>,
    past: &P,
) -> Option<Rule>
    ensures { (t : History W) → P.knows past.now liberties t →
        result ≡ under.broken_c_under liberties x.now t }
{
    if is_release(x.opcode) {
        broken_release(liberties, x, past)
    } else if is_probe_ack(x.opcode) {
        broken_probe_ack(liberties, x, past)
    } else {
        None
    }
}

/// Whether a Grant with the cap `given` answers an Acquire with this param.
fn fits_grow(liberties: Liberties, opcode: OpA, param: u8, given: u8) -> bool
    ensures { result ≡ Conformance.fits_grow (under.profile_under liberties) opcode param given }
{
    if param != Grow::NtoB.param() {
        return given == Cap::ToT.param();
    }
    if liberties.writer && opcode == OpA::AcquireBlock {
        return given == Cap::ToT.param() || given == Cap::ToB.param();
    }
    given == Cap::ToB.param()
}

/// Whether a Grant doesn't fit the request that it answers.
fn misgrants<const W: usize, P: PastUnder<W>>(
    liberties: Liberties,
    x: &BeatD<W>,
    request: &Request,
    past: &P,
) -> bool
    ensures { (t : History W) → P.knows past.now liberties t → (r : Option (BeatA W)) →
        request_fields r ≡ Some request.now → result ≡ under.misgrants_under liberties x.now r t }
{
    if liberties.denied && x.denied {
        return past.is_pending(Key::ProbeOf(request.block));
    }
    if !fits_grow(liberties, request.opcode, request.param, x.param) {
        return true;
    }
    if x.opcode == OpD::Grant && request.opcode == OpA::AcquireBlock {
        if past.held(request.block) != Perm::Branch {
            return true;
        }
    }
    past.is_pending(Key::ProbeOf(request.block))
}

fn broken_release_ack<const W: usize, P: PastUnder<W>>(x: &BeatD<W>, past: &P) -> Option<Rule>
    requires { is_release_ack x.now.opcode ≡ true }
    ensures { (l : Liberties) (t : History W) → P.knows past.now l t →
        result ≡ under.broken_d_under l x.now t }
{
    match past.release(x.source) {
        None => Some(Rule::H2),
        Some(size) => { if size == x.size { None } else { Some(Rule::H3) } }
    }
}

fn broken_answer<const W: usize, P: PastUnder<W>>(
    liberties: Liberties,
    x: &BeatD<W>,
    past: &P,
) -> Option<Rule>
    requires { is_release_ack x.now.opcode ≡ false }
    ensures { (t : History W) → P.knows past.now liberties t →
        result ≡ under.broken_d_under liberties x.now t }
{
    let Some(request) = past.request(x.source) else {
        return Some(Rule::H2);
    };
    if !answers(x.opcode, request.opcode) {
        return Some(Rule::H2);
    }
    if x.size != request.size {
        return Some(Rule::H3);
    }
    if !is_grant(x.opcode) {
        return None;
    }
    if misgrants(liberties, x, &request, past) {
        return Some(Rule::H6);
    }
    if past.is_pending(Key::GrantSink(x.sink)) {
        return Some(Rule::H7);
    }
    None
}

#[inline(always)]
fn broken_d<const W: usize, P: PastUnder<W>>(
    liberties: Liberties,
    x: &BeatD<W>,
    past: &P,
) -> Option<Rule>
    ensures { (t : History W) → P.knows past.now liberties t →
        result ≡ under.broken_d_under liberties x.now t }
{
    if is_release_ack(x.opcode) {
        broken_release_ack(x, past)
    } else {
        broken_answer(liberties, x, past)
    }
}

#[inline(always)]
fn broken_e<const W: usize, P: PastUnder<W>>(x: &BeatE, past: &P) -> Option<Rule>
    ensures { (l : Liberties) (t : History W) → P.knows past.now l t →
        result ≡ under.broken_e_under l x.now t }
{
    if past.has_grant(x.sink) {
        None
    } else {
        Some(Rule::H8)
    }
}

/// The first H rule that a message breaks at its first beat, on a link with these liberties.
#[tactic(auto, unfolding(crate::specs::statement::Liberties::broken_order_under))]
#[inline(always)]
pub fn broken_order_under<const W: usize, P: PastUnder<W>>(
    liberties: Liberties,
    beat: &Beat<W>,
    past: &P,
) -> Option<Rule>
    ensures { (t : History W) → P.knows past.now liberties t →
        result ≡ under.broken_order_under liberties beat.now t }
{
    match beat {
        Beat::A(x) => broken_a(liberties, x, past),
        Beat::B(x) => broken_b(x, past),
        Beat::C(x) => broken_c(liberties, x, past),
        Beat::D(x) => broken_d(liberties, x, past),
        Beat::E(x) => broken_e(x, past),
    }
}

/// `broken_order_under` on a link of this profile.
#[inline(always)]
pub fn broken_order<const W: usize, P: Past<W>>(
    profile: Profile,
    beat: &Beat<W>,
    past: &P,
) -> Option<Rule>
    ensures { (t : History W) → P.knows past.now t →
        result ≡ Conformance.broken_order profile beat.now t }
{
    broken_order_under(Liberties::of(profile), beat, &AtProfile { past })
}
