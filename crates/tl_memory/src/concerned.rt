//! The block that a beat concerns.

ghost use Rattle.std.specs.Prelude.{◌≡◌};
ghost use Rattle.tl_beat.specs.declared.beat.Beat.TheVariants as beat;
ghost use Rattle.tl_burst.specs.statement.Messages.{History};
ghost use Rattle.tl_memory.specs.code.Elsewhere as elsewhere;
ghost use Rattle.tl_memory.specs.code.Taking.{request_answered};
ghost use Rattle.tl_memory.specs.statement.Links.{KnowsMessages};
ghost use Rattle.tl_rules.specs.code.Open.{open_request};

use crate::link::LinkMessages;
use tl_beat::beat::{Beat, BeatD};
use tl_rules::key::block_at;
use tl_rules::kind::is_release_ack;
use tl_rules::past::Request;

/// The block of a request, if there is one.
fn block_asked(asked: Option<Request>) -> Option<u32>
    ensures { result ≡ elsewhere.block_asked asked }
{
    match asked {
        Some(asked) => Some(asked.block),
        None => None,
    }
}

/// The block of the message that a response answers: of a Release only if the Release isn't complete.
fn block_answered<const W: usize>(
    x: &BeatD<W>,
    asked: Option<Request>,
    messages: &LinkMessages,
) -> Option<u32>
    ensures { (past : History W) → KnowsMessages messages.now past → asked ≡ open_request x.now.source past →
        result ≡ elsewhere.block_borne (beat.D x.now) past }
{
    if is_release_ack(x.opcode) {
        return messages.releases_with(x.source);
    }
    match messages.asks_with(x.source) {
        Some(asking) => Some(block_at(asking.address)),
        None => block_asked(asked),
    }
}

/// The block that a beat concerns: that of its address, for a response that of the message that it answers, and for a
/// GrantAck that of the Grant if that isn't complete. `messages` are the unfinished messages of its link.
pub(crate) fn block_borne<const W: usize>(
    beat: &Beat<W>,
    asked: Option<Request>,
    messages: &LinkMessages,
) -> Option<u32>
    ensures { (past : History W) → KnowsMessages messages.now past → asked ≡ request_answered beat.now past →
        result ≡ elsewhere.block_borne beat.now past }
{
    match beat {
        Beat::A(x) => Some(block_at(x.address)),
        Beat::C(x) => Some(block_at(x.address)),
        Beat::D(x) => block_answered(x, asked, messages),
        Beat::E(x) => messages.grants_with(x.sink),
        Beat::B(_) => None,
    }
}
