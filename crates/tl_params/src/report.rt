//! The answer of a client to a Probe.

ghost use Rattle.std.specs.Prelude.{◌≡◌};
ghost use Rattle.tl_params.specs.statement.Param.{report_at};

use crate::param::{Cap, Report};
use crate::perm::Perm;

/// The report with which a client that holds `perm` answers a Probe of this cap.
pub fn report_of(cap: Cap, perm: Perm) -> Report
    ensures { result ≡ report_at cap perm }
{
    match (cap, perm) {
        (_, Perm::None) => Report::NtoN,
        (Cap::ToN, Perm::Branch) => Report::BtoN,
        (_, Perm::Branch) => Report::BtoB,
        (Cap::ToN, Perm::Trunk) => Report::TtoN,
        (Cap::ToB, Perm::Trunk) => Report::TtoB,
        (Cap::ToT, Perm::Trunk) => Report::TtoT,
    }
}
