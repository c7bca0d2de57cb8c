//! Facts that follow from the types of beats.

ghost use Rattle.std.specs.Prelude.{◌^◌, ◌<◌, ◌≤◌, ◌≡◌, length};
ghost use Rattle.tl_beat.specs.declared.beat.Beat.TheVariants as beat;
ghost use Rattle.tl_beat.specs.declared.beat.BeatA.{BeatA};
ghost use Rattle.tl_rules.specs.laws.Typed.{IsTyped};
ghost use Rattle.tl_rules.specs.statement.Admission.{lanes_of};
ghost use Rattle.tl_memory.specs.statement.Memory.{IsAddressed};

use tl_beat::beat::{Beat, BeatA, BeatD};

/// There is a byte for each lane.
fn prove_wide<const W: usize>(lanes: &[u8; W])
    ensures { length lanes.now ≡ W }
{}

/// The mask of a request's beat has 16 bits, and its data a byte for each lane.
pub fn prove_request<const W: usize>(x: &BeatA<W>)
    ensures { IsTyped (beat.A x.now) }
{
    let _mask = x.mask;
    if let Some(lanes) = &x.lanes {
        prove_wide(lanes);
    }
}

/// The address of a request's beat has 32 bits.
fn prove_addressed<const W: usize>(x: &BeatA<W>)
    ensures { x.now.address < 2 ^ 32 }
{
    let _address = x.address;
}

/// A beat of channel A has the width of its type, and its address has 32 bits.
pub fn prove_typed<const W: usize>(x: &Beat<W>)
    ensures typed { (y : BeatA W) → x.now ≡ beat.A y → IsTyped (beat.A y) }
    ensures addressed { IsAddressed x.now }
{
    if let Beat::A(y) = x {
        prove_request(y);
        prove_addressed(y);
    }
}

/// If a response's beat has data, it has a byte for each lane.
pub fn prove_response<const W: usize>(x: &BeatD<W>)
    ensures { length (lanes_of (beat.D x.now)) ≤ W }
{
    if let Some(lanes) = &x.lanes {
        prove_wide(lanes);
    }
}
