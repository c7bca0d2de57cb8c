//! Whether the params of messages fit one another and the permission held, on a link with liberties.

ghost use Rattle.std.specs.Prelude.{◌≡◌};
ghost use Rattle.tl_explain.specs.statement.Reasons;
ghost use Rattle.tl_params.specs.statement.Param.{cap_of};
ghost use Rattle.tl_rules.specs.statement.Conformance;
ghost use Rattle.tl_rules.specs.statement.Liberties as under;

use tl_beat::beat::BeatD;
use tl_beat::control::ControlA;
use tl_beat::opcode::{OpA, OpD};
use tl_params::liberties::Liberties;
use tl_params::param::{Cap, Grow};
use tl_params::perm::Perm;
use tl_params::report::report_of;
use tl_rules::order::reports_none;

/// Whether this cap answers an Acquire with this param.
pub fn fits_grow(liberties: Liberties, opcode: OpA, param: u8, cap: u8) -> bool
    ensures { result ≡ Conformance.fits_grow (under.profile_under liberties) opcode param cap }
{
    if param != Grow::NtoB.param() {
        return cap == Cap::ToT.param();
    }
    if liberties.writer && opcode == OpA::AcquireBlock {
        return cap == Cap::ToT.param() || cap == Cap::ToB.param();
    }
    cap == Cap::ToB.param()
}

/// Whether a Grant is denied under `denied`, so that it gives nothing.
fn gives_nothing<const W: usize>(liberties: Liberties, x: &BeatD<W>) -> bool
    ensures { result ≡ Reasons.gives_nothing liberties x.now }
{
    liberties.denied && x.denied
}

/// Whether the cap of a Grant doesn't answer the request.
pub fn has_wrong_cap<const W: usize>(liberties: Liberties, x: &BeatD<W>, request: ControlA) -> bool
    ensures { result ≡ Reasons.has_wrong_cap liberties x.now request }
{
    !gives_nothing(liberties, x) && !fits_grow(liberties, request.opcode, request.param, x.param)
}

/// Whether a Grant has no data, and the request needs them while this permission is held.
pub fn lacks_data<const W: usize>(
    liberties: Liberties,
    x: &BeatD<W>,
    request: ControlA,
    held: Perm,
) -> bool
    ensures { result ≡ Reasons.lacks_data liberties x.now request held }
{
    !gives_nothing(liberties, x)
        && x.opcode == OpD::Grant
        && request.opcode == OpA::AcquireBlock
        && held != Perm::Branch
}

/// Whether an Acquire with this param fits the permission held. BtoT fits all but Trunk, NtoB and NtoT fit None, or
/// under `drops` any.
pub fn grows_from(liberties: Liberties, param: u8, perm: Perm) -> bool
    ensures { result ≡ under.grows_from_under liberties param perm }
{
    if param == Grow::BtoT.param() {
        perm != Perm::Trunk
    } else {
        liberties.drops || perm == Perm::None
    }
}

/// Whether a param is the report of a Probe's cap and the permission held.
fn is_report(param: u8, cap: u8, perm: Perm) -> bool
    ensures { result ≡ Conformance.is_report_at param (cap_of cap) perm }
{
    match Cap::from_param(cap) {
        None => false,
        Some(cap) => param == report_of(cap, perm).param(),
    }
}

/// Whether a param isn't the report of a Probe's cap and the permission held, nor one that `drops` allows.
pub fn is_misreport(liberties: Liberties, param: u8, cap: u8, perm: Perm) -> bool
    ensures { result ≡ Reasons.is_misreport liberties param cap perm }
{
    !(liberties.drops && reports_none(param)) && !is_report(param, cap, perm)
}
