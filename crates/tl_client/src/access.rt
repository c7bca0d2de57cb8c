//! The accesses that a client is asked for.

ghost use Rattle.std.specs.Prelude.{◌≡◌, not};
ghost use Rattle.std.specs.Option.{option_copied};
ghost use Rattle.tl_beat.specs.statement.Width.{IsWidth};
ghost use Rattle.tl_client.specs.statement.Ask;
ghost use Rattle.tl_client.specs.code.Plain;

use crate::operation::Op;
use tl_beat::channel::Channel;
use tl_beat::opcode::OpA;
use tl_burst::message::{Message, MessageA};
use tl_rules::blank::is_blank;
use tl_rules::legality::message::check;
use tl_rules::level::Level;

/// Whether the level has the access.
fn is_access_of(level: Level, opcode: OpA) -> bool
    ensures { result ≡ Ask.is_access_of level opcode }
{
    match opcode {
        OpA::PutFullData | OpA::PutPartialData | OpA::Get => true,
        OpA::ArithmeticData | OpA::LogicalData | OpA::Intent => level != Level::UL,
        OpA::AcquireBlock | OpA::AcquirePerm => false,
    }
}

/// Whether a message of channel A has no corrupt bit set, and its parts that no beat carries are zero.
fn is_clean<const W: usize>(access: &MessageA<W>, message: &Message<W>) -> bool
    requires width { IsWidth W }
    requires same { message.now ≡ Message.A access.now }
    ensures { result ≡ Ask.is_clean access.now }
{
    access.corrupt == 0 && is_blank(message)
}

/// Whether a message is an access, and the level has it.
pub fn is_access<const W: usize>(level: Level, message: &Message<W>) -> bool
    ensures { result ≡ Ask.is_access level message.now }
{
    match message {
        Message::A(access) => is_access_of(level, access.opcode),
        _ => false,
    }
}

/// Whether a message is of channel A, breaks no L rule and is clean.
pub fn is_sound<const W: usize>(level: Level, message: &Message<W>) -> bool
    requires { IsWidth W }
    ensures { result ≡ Ask.is_sound level message.now }
{
    match message {
        Message::A(access) => {
            check(level, Channel::A, message).is_ok() && is_clean(access, message)
        }
        _ => false,
    }
}

/// The access in an operation, if it is one.
pub fn access_in<const W: usize>(operation: &Op<W>) -> Option<&MessageA<W>>
    ensures { option_copied result ≡ Plain.access_in operation.now }
{
    match operation {
        Op::Access(Message::A(access)) => Some(access),
        _ => None,
    }
}
