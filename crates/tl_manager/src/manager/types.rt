//! The facts that the types of beats and messages give.

ghost use Rattle.std.specs.Prelude.{◌≡◌, length};
ghost use Rattle.tl_beat.specs.statement.Width.{IsWidth};
ghost use Rattle.tl_burst.specs.statement.Part.{IsTakeable};
ghost use Rattle.tl_manager.specs.code.Kept.{IsTyped};
ghost use Rattle.tl_rules.specs.laws.Typed.{HasBlock};

use tl_beat::beat::Beat;
use tl_burst::message::Message;

/// A payload has 64 bytes.
pub fn prove_long(payload: &[u8; 64])
    ensures { length payload.now ≡ 64 }
{}

/// There is a byte for each lane.
fn prove_wide<const W: usize>(lanes: &[u8; W])
    ensures { length lanes.now ≡ W }
{}

/// The payload of a message has 64 bytes.
pub fn prove_filled<const W: usize>(message: &Message<W>)
    ensures { HasBlock message.now }
{
    match message {
        Message::A(x) => prove_long(&x.payload),
        Message::B(x) => prove_long(&x.payload),
        Message::C(x) => prove_long(&x.payload),
        Message::D(x) => prove_long(&x.payload),
        Message::E(_) => {}
    }
}

/// The mask of a request's beat has 16 bits, and its lanes a byte each.
pub fn prove_typed<const W: usize>(beat: &Beat<W>)
    requires width { IsWidth W }
    requires takeable { IsTakeable beat.now }
    ensures { IsTyped beat.now }
{
    if let Beat::A(x) = beat {
        if let Some(lanes) = &x.lanes {
            prove_wide(lanes);
        }
    }
}
