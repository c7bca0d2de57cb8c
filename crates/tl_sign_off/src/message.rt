//! The messages by which beats are counted, and the kinds of commits, by their numbers.

ghost use Rattle.std.specs.Prelude.{◌≡◌};
ghost use Rattle.tl_sign_off.specs.statement.Message.{channel_name, last_letter, last_name, message_name};

use tl_beat::opcode::{OpA, OpB, OpC, OpD};

/// The letter of a kind of commits, and of GrantAck's channel before them.
fn last_letter(message: u8) -> &'static str
    ensures { result.now ≡ last_letter message }
{
    match message {
        33 => "S",
        34 => "L",
        35 => "I",
        _ => "E",
    }
}

/// The name of a kind of commits, and of GrantAck before them.
fn last_name(message: u8) -> &'static str
    ensures { result.now ≡ last_name message }
{
    match message {
        33 => "Store",
        34 => "Load",
        35 => "LoadBegin",
        _ => "GrantAck",
    }
}

/// The letter of a message's channel, or of a kind of commits.
pub fn channel_name(message: u8) -> &'static str
    ensures { result.now ≡ channel_name message }
{
    match message / 8 {
        0 => "A",
        1 => "B",
        2 => "C",
        3 => "D",
        _ => last_letter(message),
    }
}

/// The name of a message, or of a kind of commits; empty if no message has this number.
pub fn message_name(message: u8) -> &'static str
    ensures { result.now ≡ message_name message }
{
    let code = message % 8;
    match message / 8 {
        0 => match OpA::with_code(code) {
            Some(opcode) => opcode.name(),
            None => "",
        },
        1 => match OpB::with_code(code) {
            Some(opcode) => opcode.name(),
            None => "",
        },
        2 => match OpC::with_code(code) {
            Some(opcode) => opcode.name(),
            None => "",
        },
        3 => match OpD::with_code(code) {
            Some(opcode) => opcode.name(),
            None => "",
        },
        _ => last_name(message),
    }
}
