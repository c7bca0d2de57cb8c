//! The line of each outcome.

ghost use Rattle.tl_beat.specs.statement.Width.{IsWidth};

use crate::expect::{holds_in, same, same_in};
use std::process::Abort;
use std::test::Fail;
use tl_beat::beat::{Beat, BeatE, Link};
use tl_beat::channel::Channel;
use tl_client::busy::Busy;
use tl_client::operation::Op;
use tl_client::reply::Reply;
use tl_client::verdict::Finish;
use tl_coherence::event::{Event, Outcome};
use tl_params::perm::Perm;
use tl_schedule::outcome::{append_drained, append_outcome, append_trace};

const OPENED: &str = "01 E 03 done 02 ";

fn load<const W: usize>(size: u8) -> Event<W> {
    Event::Ask {
        client: 1,
        operation: Op::Load { address: 0, size },
    }
}

fn delivery<const W: usize>() -> Event<W> {
    Event::Deliver {
        link: Link(1),
        channel: Channel::E,
    }
}

/// The line of the reply to a Load of this size.
fn answers<const W: usize>(
    rt: &(impl Abort + AllocGlobal),
    size: u8,
    reply: Reply,
    line: &str,
) -> Result<(), Fail>
    requires { IsWidth W }
{
    let mut out = Vec::new(rt.alloc());
    let outcome: Outcome<W> = Outcome::Replied { reply };
    append_outcome(&load(size), &outcome, &mut out)?;
    same_in(rt, &out.as_slice(), &line.as_bytes(), &line);
    let mut trace = Vec::new(rt.alloc());
    append_trace(&load(size), &outcome, &mut trace)?;
    holds_in(rt, trace.is_empty(), &line);
    Ok(())
}

/// The text for the end of an operation, after a beat.
fn ends<const W: usize>(
    rt: &(impl Abort + AllocGlobal),
    finish: Finish,
    text: &str,
) -> Result<(), Fail>
    requires { IsWidth W }
{
    let outcome: Outcome<W> = Outcome::Done {
        beat: Beat::E(BeatE { sink: 3 }),
        source: 2,
        finish,
    };
    let mut out = Vec::new(rt.alloc());
    append_outcome(&delivery(), &outcome, &mut out)?;
    let line = format!(in rt.alloc(); "{OPENED}{text}\n")?;
    same_in(rt, &out.as_slice(), &line.as_bytes(), &text);
    let mut trace = Vec::new(rt.alloc());
    append_trace(&delivery(), &outcome, &mut trace)?;
    same_in(rt, &trace.as_slice(), &b"01 E 03\n".as_slice(), &text);
    Ok(())
}

/// The line of an outcome that moves no beat.
fn stays<const W: usize>(
    rt: &(impl Abort + AllocGlobal),
    empty: bool,
    line: &str,
) -> Result<(), Fail>
    requires { IsWidth W }
{
    let outcome: Outcome<W> = if empty {
        Outcome::Empty
    } else {
        Outcome::Stalled
    };
    let mut out = Vec::new(rt.alloc());
    append_outcome(&delivery(), &outcome, &mut out)?;
    same_in(rt, &out.as_slice(), &line.as_bytes(), &line);
    let mut trace = Vec::new(rt.alloc());
    append_trace(&delivery(), &outcome, &mut trace)?;
    holds_in(rt, trace.is_empty(), &line);
    Ok(())
}

fn each_outcome<const W: usize>(rt: &(impl Abort + AllocGlobal)) -> Result<(), Fail>
    requires { IsWidth W }
{
    answers::<W>(rt, 0, Reply::Value(0x5a), "value 5a\n")?;
    answers::<W>(rt, 1, Reply::Value(0x5a), "value 005a\n")?;
    answers::<W>(rt, 2, Reply::Value(0x0123_4567), "value 01234567\n")?;
    answers::<W>(
        rt,
        3,
        Reply::Value(0x0123_4567_89ab_cdef),
        "value 0123456789abcdef\n",
    )?;
    answers::<W>(rt, 0, Reply::Stored, "stored\n")?;
    answers::<W>(rt, 0, Reply::Miss, "miss\n")?;
    answers::<W>(rt, 0, Reply::Started(0), "started 00\n")?;
    answers::<W>(rt, 0, Reply::Started(0x2f), "started 2f\n")?;
    answers::<W>(rt, 0, Reply::Busy(Busy::B1), "busy B1\n")?;
    answers::<W>(rt, 0, Reply::Busy(Busy::B2), "busy B2\n")?;
    answers::<W>(rt, 0, Reply::Busy(Busy::B3), "busy B3\n")?;
    answers::<W>(rt, 0, Reply::Busy(Busy::B4), "busy B4\n")?;
    answers::<W>(rt, 0, Reply::Busy(Busy::B5), "busy B5\n")?;
    stays::<W>(rt, true, "empty\n")?;
    stays::<W>(rt, false, "stalled\n")?;
    let mut bytes = [0; 64];
    bytes[0] = 0x11;
    bytes[3] = 0x44;
    bytes[8] = 0x99;
    ends::<W>(rt, Finish::Ack, "ack")?;
    ends::<W>(rt, Finish::Hint, "hint")?;
    ends::<W>(rt, Finish::Data(0, bytes), "data 11")?;
    ends::<W>(rt, Finish::Data(2, bytes), "data 44000011")?;
    ends::<W>(rt, Finish::Data(3, bytes), "data 0000000044000011")?;
    ends::<W>(
        rt,
        Finish::Data(4, bytes),
        "data 00000000000000990000000044000011",
    )?;
    ends::<W>(rt, Finish::Granted(Perm::Branch), "granted B")?;
    ends::<W>(rt, Finish::Granted(Perm::Trunk), "granted T")?;
    ends::<W>(rt, Finish::Released, "released")
}

#[test]
fn each_outcome_at_each_width(rt: HostRuntime) -> Result<(), Fail> {
    each_outcome::<4>(&rt)?;
    each_outcome::<8>(&rt)?;
    each_outcome::<16>(&rt)
}

#[test]
fn data_of_a_block(rt: HostRuntime) -> Result<(), Fail> {
    let mut bytes = [0; 64];
    bytes[0] = 0x5a;
    bytes[63] = 0xa5;
    let text =
        "data a500000000000000000000000000000000000000000000000000000000000000000000000000000000000000000000000000000000000000000000000000005a";
    ends::<8>(&rt, Finish::Data(6, bytes), text)
}

#[test]
fn no_client_and_a_beat_that_moves(rt: HostRuntime) -> Result<(), Fail> {
    let mut out = Vec::new(rt.alloc());
    let none: Outcome<8> = Outcome::NoSuchClient;
    append_outcome(&load(0), &none, &mut out)?;
    let moved: Outcome<8> = Outcome::Moved {
        beat: Beat::E(BeatE { sink: 7 }),
    };
    append_outcome(&delivery(), &moved, &mut out)?;
    append_trace(&load(0), &none, &mut out)?;
    append_trace(&delivery(), &moved, &mut out)?;
    append_drained(0, &mut out)?;
    append_drained(160, &mut out)?;
    let text = b"no client\n01 E 07\n01 E 07\ndrained 0\ndrained 160\n";
    same(&rt, &out.as_slice(), &text.as_slice());
    Ok(())
}
