//! The results of operations, by their responses.

ghost use Rattle.std.specs.Prelude.{◌≡◌, ◌≤◌, ◌∷◌, true, false, length, take, IfSome, None};
ghost use Rattle.std.specs.Bool.{OnTrue, OnFalse};
ghost use Rattle.tl_beat.specs.declared.channel.Channel.{Channel};
ghost use Rattle.tl_beat.specs.statement.Width.{IsWidth};
ghost use Rattle.tl_burst.specs.statement.Messages.{breaks_burst, grown};
ghost use Rattle.tl_burst.specs.statement.Part.{IsTakeable, completes, is_middle, part_of};
ghost use Rattle.tl_params.specs.declared.level.Level.{Level};
ghost use Rattle.tl_rules.specs.statement.Admission;
ghost use Rattle.tl_rules.specs.statement.Legality.{illegal};
ghost use Rattle.tl_client.specs.code.Lawful.{is_lawful};
ghost use Rattle.tl_client.specs.code.Plain.{address_in};
ghost use Rattle.tl_client.specs.code.Response.{IsFilled, d_of, done_with, with_payload};
ghost use Rattle.tl_client.specs.code.Takes.{ack_after};
ghost use Rattle.tl_client.specs.statement.Answer.{message_of, verdict_of};
ghost use Rattle.tl_client.specs.statement.Offer;

use crate::answer::{Answer, Ending};
use crate::request::Request;
use tl_beat::beat::{Beat, BeatD};
use tl_beat::opcode::OpD;
use tl_burst::assembler::Assembler;
use tl_burst::message::{Message, MessageE};
use tl_rules::admission::is_spoiled;
use tl_rules::kind::capped;

/// The first `count` bytes, or all if there are fewer.
fn first(bytes: &[u8], count: usize) -> &[u8]
    ensures value { result.now ≡ take count bytes.now }
    ensures few { length result.now ≤ length bytes.now }
{
    if count < bytes.len() {
        &bytes[..count]
    } else {
        bytes
    }
}

/// These bytes, with zeros after them.
fn padded(first: &[u8]) -> [u8; 64]
    requires { length first.now ≤ 64 }
    ensures { result ≡ Offer.padded first.now }
{
    let mut bytes = [0; 64];
    bytes[..first.len()].copy_from_slice(first);
    bytes
}

/// The `2^size` bytes of a payload from an address on, with zeros after them.
fn bytes_at<const W: usize>(address: u32, size: u8, payload: &[u8; 64]) -> [u8; 64]
    requires width { IsWidth W }
    requires small { size ≤ 6 }
    ensures value { result ≡ Offer.bytes_at W address size payload.now }
    ensures long { length payload.now ≡ 64 }
{
    let lane = address as usize % W;
    padded(first(&payload[lane..], 1 << size))
}

/// The address of a request; 0 if there is none.
fn address_of(request: Option<Request>) -> u32
    ensures { result ≡ address_in request }
{
    match request {
        Some(request) => request.address,
        None => 0,
    }
}

/// The compact answer to the last beat of a response to this request. `bytes` has the payload of the response, and then
/// the bytes of the answer.
pub fn answer_to<const W: usize>(
    response: &BeatD<W>,
    request: Option<Request>,
    bytes: &mut [u8; 64],
) -> Answer
    requires width { IsWidth W }
    requires small { response.now.size ≤ 6 }
    ensures verdict { verdict_of result bytes.new ≡ done_with (with_payload response.now bytes.old) W request }
    ensures message { message_of {w = W} result bytes.new ≡ ack_after response.now.opcode response.now.sink }
{
    let source = response.source;
    let ending = match response.opcode {
        OpD::AccessAck => Ending::Ack,
        OpD::AccessAckData => {
            *bytes = bytes_at::<W>(address_of(request), response.size, bytes);
            Ending::Data(response.size)
        }
        OpD::HintAck => Ending::Hint,
        OpD::Grant | OpD::GrantData => {
            return Answer::Granted {
                source,
                perm: capped(response.param),
                sink: response.sink,
            };
        }
        OpD::ReleaseAck => Ending::Released,
    };
    Answer::Ended { source, ending }
}

/// Copies the payload of a message of channel D.
fn copy_payload<const W: usize>(message: &Message<W>, payload: &mut [u8; 64])
    ensures { IfSome (d_of message.now) (λ m. payload.new ≡ m.payload) }
{
    if let Message::D(response) = message {
        *payload = response.payload;
    }
}

/// Takes a beat of channel D, and returns whether it completes its response. If it does, the payload is written.
pub fn complete<const W: usize>(
    responses: &mut Assembler<W>,
    beat: &Beat<W>,
    payload: &mut [u8; 64],
) -> bool
    requires width { IsWidth W }
    requires takeable { IsTakeable beat.now }
    requires continues { breaks_burst beat.now responses.old ≡ false }
    ensures grows { responses.new ≡ grown beat.now responses.old }
    ensures last { result ≡ completes beat.now responses.old }
    ensures payload { OnTrue result (IsFilled payload.new beat.now responses.old) }
{
    let mut message = Message::E(MessageE { sink: 0 });
    let Ok(completes) = responses.take_into(beat, &mut message) else {
        unreachable!()
    };
    if completes {
        copy_payload(&message, payload);
    }
    completes
}

/// Takes a beat of channel D that continues a response and doesn't complete it, and returns whether it did. The link
/// must not be closed, and neither corrupt nor denied be set. Otherwise nothing changes. Such a beat breaks no L rule:
/// it has the control fields of the beats before it, which break none.
pub fn goes_on<const W: usize>(
    closed: bool,
    responses: &mut Assembler<W>,
    beat: &Beat<W>,
    response: &BeatD<W>,
) -> bool
    requires width { IsWidth W }
    requires response { beat.now ≡ Beat.D response.now }
    ensures live { OnTrue result (closed ≡ false) }
    ensures lawful { OnTrue result ((level : Level) → is_lawful level responses.old ≡ true →
        illegal level Channel.D beat.now ≡ None) }
    ensures clean { OnTrue result (Admission.is_spoiled beat.now ≡ false) }
    ensures middle { OnTrue result (is_middle (part_of beat.now responses.old) ≡ true) }
    ensures grows { OnTrue result (responses.new ≡ beat.now ∷ responses.old) }
    ensures unchanged { OnFalse result (responses.new ≡ responses.old) }
{
    if closed || !responses.has_begun() || response.size > 6 || is_spoiled(beat) {
        return false;
    }
    responses.goes_on(beat)
}
