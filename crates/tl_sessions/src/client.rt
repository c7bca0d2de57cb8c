//! A client of links of any width. Bad input changes nothing.

ghost use Rattle.std.specs.Prelude.{◌≡◌};
ghost use Rattle.tl_sessions.specs.statement.Client.{Asked, OfferedOf, Stalls, Shows, Pops, Holds, Copies, Closed};

use tl_pictures::answer::Answer;
use tl_pictures::codes::channel_at;
use tl_pictures::depiction::show;
use tl_pictures::operation::Operation;
use tl_pictures::outcome::{Outcome, Reception, number_of_perm};
use tl_pictures::picture::Picture;
use tl_ports::client::ClientPort;

/// A client of a link whose beats have 4, 8 or 16 bytes, with its beats to send.
#[derive(Drop)]
pub enum AnyPort {
    Four(ClientPort<4>),
    Eight(ClientPort<8>),
    Sixteen(ClientPort<16>),
}

/// Asks a client for an operation, and sets the outcome. Bad input changes nothing, nor does want of memory.
pub fn ask<const W: usize>(
    port: &mut ClientPort<W>,
    operation: &Operation,
    outcome: &mut Outcome,
) -> Answer
    ensures { Asked W port.old port.new operation.now outcome.old outcome.new result }
{
    let Some(operation) = operation.operation() else {
        return Answer::BAD;
    };
    match port.ask(operation) {
        Err(_) => Answer::NO_MEMORY,
        Ok(reply) => {
            *outcome = Outcome::of(reply);
            Answer::OK
        }
    }
}

/// Offers a client a beat, and sets the reception if the beat breaks no rule.
pub fn offer<const W: usize>(
    port: &mut ClientPort<W>,
    picture: &Picture,
    reception: &mut Reception,
) -> Answer
    ensures { OfferedOf W port.old port.new picture.now reception.old reception.new result }
{
    let Some(beat) = picture.beat::<W>() else {
        return Answer::BAD;
    };
    match port.offer(beat.channel(), &beat) {
        Err(_) => Answer::NO_MEMORY,
        Ok(Err(rule)) => Answer::broken(rule),
        Ok(Ok(verdict)) => {
            *reception = Reception::of(verdict);
            Answer::OK
        }
    }
}

/// Sets `stalled` to 1 if the client would stall a beat, otherwise to 0.
pub fn stalls<const W: usize>(port: &ClientPort<W>, picture: &Picture, stalled: &mut u8) -> Answer
    ensures { Stalls W port.now picture.now stalled.old stalled.new result }
{
    let Some(beat) = picture.beat::<W>() else {
        return Answer::BAD;
    };
    *stalled = u8::from(port.stalls(beat.channel(), &beat));
    Answer::OK
}

/// Shows the next beat to send on a channel; `NOTHING` if there is none.
pub fn next<const W: usize>(port: &ClientPort<W>, channel: u8, picture: &mut Picture) -> Answer
    ensures { Shows W port.now channel picture.old picture.new result }
{
    match channel_at(channel) {
        None => Answer::BAD,
        Some(channel) => show(port.next(channel), picture),
    }
}

/// Shows the next beat to send on a channel, and removes it; `NOTHING` if there is none.
pub fn pop<const W: usize>(port: &mut ClientPort<W>, channel: u8, picture: &mut Picture) -> Answer
    ensures { Pops W port.old port.new channel picture.old picture.new result }
{
    match channel_at(channel) {
        None => Answer::BAD,
        Some(channel) => show(port.pop(channel), picture),
    }
}

/// Sets `perm` to the permission held of a block.
pub fn held<const W: usize>(port: &ClientPort<W>, block: u16, perm: &mut u8) -> Answer
    ensures { Holds W port.now block perm.new result }
{
    *perm = number_of_perm(port.held(block));
    Answer::OK
}

/// Shows the bytes of the copy of a block; `NOTHING` if there is no copy.
pub fn copy<const W: usize>(port: &ClientPort<W>, block: u16, bytes: &mut [u8; 64]) -> Answer
    ensures { Copies W port.now block bytes.old bytes.new result }
{
    match port.copy(block) {
        None => Answer::NOTHING,
        Some(copy) => {
            *bytes = copy;
            Answer::OK
        }
    }
}

/// Sets `is_closed` to 1 if the client has refused a beat, otherwise to 0.
pub fn closed<const W: usize>(port: &ClientPort<W>, is_closed: &mut u8) -> Answer
    ensures { Closed W port.now is_closed.new result }
{
    *is_closed = u8::from(port.closed());
    Answer::OK
}
