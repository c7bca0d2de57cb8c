//! The A rules: an agent judges by them a beat that breaks no rule of its link.

ghost use Rattle.std.specs.Prelude.{◌≡◌};
ghost use Rattle.tl_rules.specs.statement.Admission;

use tl_beat::beat::Beat;
use tl_params::key::block_at;

/// Whether the address of a beat is outside a map of this many blocks. D and E have no address.
pub fn is_outside<const W: usize>(blocks: usize, beat: &Beat<W>) -> bool
    ensures { result ≡ Admission.is_outside blocks beat.now }
{
    match beat {
        Beat::A(beat) => blocks <= block_at(beat.address) as usize,
        Beat::B(beat) => blocks <= block_at(beat.address) as usize,
        Beat::C(beat) => blocks <= block_at(beat.address) as usize,
        Beat::D(_) | Beat::E(_) => false,
    }
}

/// Whether corrupt or denied is set.
pub fn is_spoiled<const W: usize>(beat: &Beat<W>) -> bool
    ensures { result ≡ Admission.is_spoiled beat.now }
{
    match beat {
        Beat::A(beat) => beat.corrupt,
        Beat::B(beat) => beat.corrupt,
        Beat::C(beat) => beat.corrupt,
        Beat::D(beat) => beat.corrupt || beat.denied,
        Beat::E(_) => false,
    }
}
