//! Beats that change no block, and beats that may change the permission held.

ghost use Rattle.std.specs.Prelude.{◌<◌, ◌≤◌, ◌≡◌, IsTrue, length};
ghost use Rattle.tl_beat.specs.declared.channel.Channel.TheVariants as channel;
ghost use Rattle.tl_beat.specs.statement.Width.{IsWidth};
ghost use Rattle.tl_burst.specs.statement.Messages.{History, channel_of, unfinished};
ghost use Rattle.tl_burst.specs.statement.Part;
ghost use Rattle.tl_bytes.specs.statement.Bytes as bytes;
ghost use Rattle.tl_memory.specs.code.Passing as passing;
ghost use Rattle.tl_memory.specs.statement.Known.{KnowsMessage};
ghost use Rattle.tl_memory.specs.statement.Links.{KnowsMessages};

use crate::access::is_access;
use crate::link::LinkMessages;
use crate::message::{CarriedMessage, both, either};
use crate::performed::is_put;
use tl_beat::beat::{Beat, BeatA};
use tl_beat::opcode::OpD;
use tl_rules::kind::{grows_from_none, is_acquire, is_grant, is_release_ack};

/// Whether a beat is an Acquire from None.
pub fn acquires_from_none<const W: usize>(y: &BeatA<W>) -> bool
    ensures { result ≡ passing.acquires_from_none y.now }
{
    is_acquire(y.opcode) && grows_from_none(y.param)
}

/// Whether a beat of channel A asks for an access. `brought` are the bytes of the beats before it of its message.
pub fn asks<const W: usize>(y: &BeatA<W>, brought: &CarriedMessage) -> bool
    requires width { IsWidth W }
    requires small { y.now.size ≤ 6 }
    ensures { (t : History W) → KnowsMessage brought.now (unfinished channel.A t) →
        length (unfinished channel.A t) < 64 → result ≡ bytes.asks y.now t }
{
    if is_put(y.opcode) {
        return true;
    }
    if !is_access(y.opcode) {
        return false;
    }
    brought.completes(&Beat::A(*y))
}

/// Whether a response answers an access.
fn is_answer(opcode: OpD) -> bool
    ensures { result ≡ passing.is_answer opcode }
{
    matches!(opcode, OpD::AccessAck | OpD::AccessAckData)
}

/// Whether a beat changes no block, begins no response and answers no access. `messages` are the
/// unfinished messages of its link.
pub fn passes_by<const W: usize>(x: &Beat<W>, messages: &LinkMessages) -> bool
    requires width { IsWidth W }
    requires small { IsTrue (Part.is_small x.now) }
    ensures { (t : History W) → KnowsMessages messages.now t → length (unfinished (channel_of x.now) t) < 64 →
        result ≡ passing.passes_by x.now t }
{
    match x {
        Beat::A(y) => {
            if acquires_from_none(y) {
                return false;
            }
            !asks(y, &messages.a)
        }
        Beat::C(_) => !messages.c.completes(x),
        Beat::D(y) => {
            let bounds = either(messages.d.bytes.count() == 0, messages.d.completes(x));
            !either(bounds, is_answer(y.opcode))
        }
        Beat::E(y) => messages.grants_with(y.sink).is_none(),
        Beat::B(_) => true,
    }
}

/// Whether a beat may change the permission that its link holds of the block that it concerns. `messages` are the
/// unfinished messages of its link.
pub fn changes_held<const W: usize>(x: &Beat<W>, messages: &LinkMessages) -> bool
    requires width { IsWidth W }
    requires small { IsTrue (Part.is_small x.now) }
    ensures { (t : History W) → KnowsMessages messages.now t → length (unfinished (channel_of x.now) t) < 64 →
        result ≡ passing.changes_held x.now t }
{
    match x {
        Beat::A(y) => acquires_from_none(y),
        Beat::C(_) => messages.c.completes(x),
        Beat::D(y) => {
            if is_release_ack(y.opcode) {
                return messages.releases_with(y.source).is_some();
            }
            if !is_grant(y.opcode) {
                return false;
            }
            messages.d.completes(x)
        }
        Beat::E(y) => messages.grants_with(y.sink).is_some(),
        Beat::B(_) => false,
    }
}
