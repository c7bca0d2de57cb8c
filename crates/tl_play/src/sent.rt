//! Writes beats, messages and outcomes, if they have a line.

ghost use Rattle.std.specs.Bool.{OnTrue};
ghost use Rattle.tl_beat.specs.statement.Line.{IsWritable};
ghost use Rattle.tl_beat.specs.statement.Width.{IsWidth};
ghost use Rattle.tl_schedule.specs.statement.OutcomeLine.{HasLine};

use std::alloc::AllocError;
use tl_beat::beat::{Beat, Link};
use tl_beat::write::write_line;
use tl_burst::burst::{beat_at, beats_of};
use tl_burst::message::Message;
use tl_coherence::event::{Event, Outcome};
use tl_schedule::outcome::append_outcome;

/// Whether a beat fits its line.
fn is_writable<const W: usize>(beat: &Beat<W>) -> bool
    requires { IsWidth W }
    ensures { OnTrue result (IsWritable beat.now) }
{
    let lanes = 1u32 << W;
    match beat {
        Beat::A(x) => x.param < 8 && x.size < 16 && u32::from(x.mask) < lanes,
        Beat::B(x) => x.param < 8 && x.size < 16 && u32::from(x.mask) < lanes,
        Beat::C(x) => x.param < 8 && x.size < 16,
        Beat::D(x) => x.param < 4 && x.size < 16,
        Beat::E(_) => true,
    }
}

fn has_line<const W: usize>(outcome: &Outcome<W>) -> bool
    requires { IsWidth W }
    ensures { OnTrue result (HasLine outcome.now) }
{
    match outcome {
        Outcome::Moved { beat } | Outcome::Done { beat, .. } => is_writable(beat),
        _ => true,
    }
}

/// Appends the outcome of an event.
pub fn append_told<const W: usize>(
    event: &Event<W>,
    outcome: &Outcome<W>,
    out: &mut Vec<u8>,
) -> Result<(), AllocError>
    requires { IsWidth W }
{
    if has_line(outcome) {
        append_outcome(event, outcome, out)
    } else {
        out.extend_from_slice(b"a beat without a line\n")
    }
}

fn append_beat<const W: usize>(
    link: Link,
    beat: &Beat<W>,
    out: &mut Vec<u8>,
) -> Result<(), AllocError>
    requires { IsWidth W }
{
    out.extend_from_slice(b"sends ")?;
    if is_writable(beat) {
        write_line(link, beat, out)
    } else {
        out.extend_from_slice(b"a beat without a line\n")
    }
}

/// The payload of a message; zeros for a GrantAck.
fn payload_of<const W: usize>(message: &Message<W>) -> [u8; 64] {
    match message {
        Message::A(m) => m.payload,
        Message::B(m) => m.payload,
        Message::C(m) => m.payload,
        Message::D(m) => m.payload,
        Message::E(_) => [0; 64],
    }
}

/// Whether each byte after the first `count` is 0.
fn ends_behind(payload: &[u8; 64], count: usize) -> bool {
    payload.iter().skip(count).all(|byte| *byte == 0)
}

/// The number of bytes of a message's payload that its beats carry.
fn shown<const W: usize>(message: &Message<W>) -> usize
    requires { IsWidth W }
{
    let carries = match message {
        Message::A(m) => m.opcode.carries_data(),
        Message::B(m) => m.opcode.carries_data(),
        Message::C(m) => m.opcode.carries_data(),
        Message::D(m) => m.opcode.carries_data(),
        Message::E(_) => false,
    };
    if carries {
        W * usize::from(beats_of(message))
    } else {
        0
    }
}

/// Appends the beats of a message that is sent on a link. The bytes that its beats don't carry must be 0.
pub fn append_message<const W: usize>(
    link: Link,
    message: &Message<W>,
    out: &mut Vec<u8>,
) -> Result<(), AllocError>
    requires { IsWidth W }
{
    for i in 0..beats_of(message) {
        append_beat(link, &beat_at(message, i), out)?;
    }
    if ends_behind(&payload_of(message), shown(message)) {
        Ok(())
    } else {
        out.extend_from_slice(b"and more bytes\n")
    }
}
