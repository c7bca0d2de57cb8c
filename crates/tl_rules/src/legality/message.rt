//! Legality of a message by level and channel alone.

ghost use Rattle.std.specs.Prelude.{◌≡◌, not};
ghost use Rattle.tl_params.specs.statement.Refusal.{ok_unless};
ghost use Rattle.tl_beat.specs.statement.Width.{IsWidth};
ghost use Rattle.tl_beat.specs.statement.First.{first_if};
ghost use Rattle.tl_burst.specs.statement.Burst;
ghost use Rattle.tl_burst.specs.statement.Burst.{beat_of};
ghost use Rattle.tl_burst.specs.statement.Messages.{on};
ghost use Rattle.tl_rules.specs.statement.Legality.{illegal_message, has_transfers};

use crate::{channel, field};
use tl_beat::channel::Channel;
use tl_burst::burst::{beats_of, bit_of, mask_of};
use tl_burst::message::{Message, MessageA, MessageB, MessageC, MessageD};
use tl_params::level::Level;
use tl_params::rule::Rule;

/// Checks each beat of a message, as `check_beat` does, on this channel of a link of this level. The error is that of
/// the first beat that breaks a rule.
pub fn check<const W: usize>(
    level: Level,
    channel: Channel,
    message: &Message<W>,
) -> Result<(), Rule>
    requires { IsWidth W }
    ensures { result ≡ ok_unless (illegal_message level channel message.now) }
{
    if !is_on(channel, message) {
        return Err(Rule::L1);
    }
    let beats = beats_of(message);
    match message {
        Message::A(message) => check_a(level, message, beats),
        Message::B(message) => check_b(level, message),
        Message::C(message) => check_c(level, message),
        Message::D(message) => check_d(level, message, beats),
        Message::E(_) => check_e(level),
    }
}

fn is_on<const W: usize>(channel: Channel, message: &Message<W>) -> bool
    ensures { result ≡ on channel (beat_of message.now 0) }
{
    match message {
        Message::A(_) => channel == Channel::A,
        Message::B(_) => channel == Channel::B,
        Message::C(_) => channel == Channel::C,
        Message::D(_) => channel == Channel::D,
        Message::E(_) => channel == Channel::E,
    }
}

fn check_e(level: Level) -> Result<(), Rule>
    ensures { result ≡ ok_unless (first_if (not (has_transfers level)) Rule.L1 None) }
{
    if field::transfers(level) {
        Ok(())
    } else {
        Err(Rule::L1)
    }
}

fn check_a<const W: usize>(level: Level, message: &MessageA<W>, beats: u8) -> Result<(), Rule>
    requires width { IsWidth W }
    requires beats { beats ≡ Burst.beats_of (Message.A message.now) }
    ensures { result ≡ ok_unless (illegal_message level Channel.A (Message.A message.now)) }
{
    let (opcode, size, address) = (message.opcode, message.size, message.address);
    channel::control_of_a::<W>(level, opcode, message.param, size, address)?;
    for i in 0..beats {
        let mask = mask_of::<W>(message.mask, i);
        channel::own_of_a::<W>(opcode, size, address, mask, bit_of(message.corrupt, i))?;
    }
    Ok(())
}

/// A Probe has one beat.
fn check_b<const W: usize>(level: Level, message: &MessageB<W>) -> Result<(), Rule>
    requires { IsWidth W }
    ensures { result ≡ ok_unless (illegal_message level Channel.B (Message.B message.now)) }
{
    let (opcode, size, address) = (message.opcode, message.size, message.address);
    channel::control_of_b(level, opcode, message.param, size, message.source, address)?;
    let mask = mask_of::<W>(message.mask, 0);
    channel::own_of_b::<W>(opcode, size, address, mask, bit_of(message.corrupt, 0))
}

/// Only a message without data may not be corrupt, and it has one beat.
fn check_c<const W: usize>(level: Level, message: &MessageC<W>) -> Result<(), Rule>
    requires { IsWidth W }
    ensures { result ≡ ok_unless (illegal_message level Channel.C (Message.C message.now)) }
{
    channel::control_of_c(
        level,
        message.opcode,
        message.param,
        message.size,
        message.source,
        message.address,
    )?;
    channel::own_of_c(message.opcode, bit_of(message.corrupt, 0))
}

fn check_d<const W: usize>(level: Level, message: &MessageD<W>, beats: u8) -> Result<(), Rule>
    requires width { IsWidth W }
    requires beats { beats ≡ Burst.beats_of (Message.D message.now) }
    ensures { result ≡ ok_unless (illegal_message level Channel.D (Message.D message.now)) }
{
    channel::control_of_d::<W>(
        level,
        message.opcode,
        message.param,
        message.size,
        message.sink,
    )?;
    for i in 0..beats {
        channel::own_of_d(message.opcode, message.denied, bit_of(message.corrupt, i))?;
    }
    Ok(())
}
