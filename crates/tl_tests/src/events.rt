//! The events of lines, and lines close to them that spell nothing.

ghost use Rattle.tl_beat.specs.statement.Width.{IsWidth};

use crate::accesses::FULL;
use crate::expect::{holds_in, same, same_in};
use std::process::Abort;
use std::test::Fail;
use tl_beat::beat::Link;
use tl_beat::channel::Channel;
use tl_client::operation::Op;
use tl_coherence::event::Event;
use tl_params::param::{Grow, Prune};
use tl_schedule::line::{EventFault, Line, read_event};

fn asks(rt: &impl Abort, line: &str, client: u8, operation: Op<8>) {
    let event = Event::Ask { client, operation };
    same_in(
        rt,
        &read_event(line.as_bytes()),
        &Ok(Line::Event(event)),
        &line,
    );
}

#[test]
fn what_caching_clients_are_asked(rt: HostRuntime) -> Result<(), Fail> {
    for (line, client, address, size) in [
        ("00 load 0 00000000\n", 0, 0, 0),
        ("ff load 3 fffffff8\n", 255, 0xffff_fff8, 3),
    ] {
        asks(&rt, line, client, Op::Load { address, size });
    }
    for (line, client, address, size, value) in [
        ("00 store 0 00000000 5a\n", 0, 0, 0, 0x5a),
        (
            "01 store 3 00000008 0123456789abcdef\n",
            1,
            8,
            3,
            0x0123_4567_89ab_cdef,
        ),
    ] {
        asks(
            &rt,
            line,
            client,
            Op::Store {
                address,
                size,
                value,
            },
        );
    }
    for (line, block, grow) in [
        ("00 acquire 000 NtoB\n", 0, Grow::NtoB),
        ("00 acquire 003 NtoT\n", 3, Grow::NtoT),
        ("00 acquire fff BtoT\n", 0xfff, Grow::BtoT),
    ] {
        asks(&rt, line, 0, Op::Acquire { block, grow });
    }
    for (line, block, prune) in [
        ("00 release 000 TtoB\n", 0, Prune::TtoB),
        ("00 release 002 TtoN\n", 2, Prune::TtoN),
        ("00 release 3ff BtoN\n", 0x3ff, Prune::BtoN),
    ] {
        asks(&rt, line, 0, Op::Release { block, prune });
    }
    let line = format!(in rt.alloc(); "01 whole 000 {FULL}\n")?;
    let bytes = [0xff; 64];
    asks(&rt, line.as_str(), 1, Op::AcquireWhole { block: 0, bytes });
    Ok(())
}

#[test]
fn deliveries_and_draining(rt: HostRuntime) {
    for (line, link, channel) in [
        ("00 deliver A\n", 0, Channel::A),
        ("01 deliver B\n", 1, Channel::B),
        ("0f deliver C\n", 15, Channel::C),
        ("10 deliver D\n", 16, Channel::D),
        ("ff deliver E\n", 255, Channel::E),
    ] {
        let event: Event<8> = Event::Deliver {
            link: Link(link),
            channel,
        };
        same_in(
            &rt,
            &read_event(line.as_bytes()),
            &Ok(Line::Event(event)),
            &line,
        );
    }
    same(&rt, &read_event::<4>(b"drain\n"), &Ok(Line::Drain));
    same(&rt, &read_event::<8>(b"drain\n"), &Ok(Line::Drain));
    same(&rt, &read_event::<16>(b"drain\n"), &Ok(Line::Drain));
}

fn is_at_fault<const W: usize>(rt: &impl Abort, line: &[u8], fault: EventFault)
    requires { IsWidth W }
{
    same_in(rt, &read_event::<W>(line), &Err(fault), &line);
}

/// The bytes before and after an event in the lines close to its own.
const AROUND: [(&str, &str); 7] = [
    ("", " \n"),
    (" ", "\n"),
    ("", "0\n"),
    ("0", "\n"),
    ("", " 0\n"),
    ("", "\n\n"),
    ("", "\r\n"),
];

/// The line of an event is read, and those close to it spell nothing: with more bytes around it, with one more space
/// within it, without its last byte, or without its end.
fn has_none_beside_it<const W: usize>(
    rt: &(impl Abort + AllocGlobal),
    line: &str,
) -> Result<(), Fail>
    requires { IsWidth W }
{
    let good = format!(in rt.alloc(); "{line}\n")?;
    holds_in(rt, read_event::<W>(good.as_bytes()).is_ok(), &line);
    is_at_fault::<W>(rt, line.as_bytes(), EventFault::F1);
    for (before, behind) in AROUND {
        let beside = format!(in rt.alloc(); "{before}{line}{behind}")?;
        is_at_fault::<W>(rt, beside.as_bytes(), EventFault::F8);
    }
    let bytes = line.as_bytes();
    for i in 0..bytes.len() {
        if bytes[i] == b' ' {
            let (front, rest) = bytes.split_at(i);
            joined_is_at_fault::<W>(rt, front, &[b" ", rest, b"\n"])?;
        }
    }
    if let [front @ .., _] = bytes {
        joined_is_at_fault::<W>(rt, front, &[b"\n"])?;
    }
    Ok(())
}

/// The line of these bytes, one part after the other, spells nothing.
fn joined_is_at_fault<const W: usize>(
    rt: &(impl Abort + AllocGlobal),
    front: &[u8],
    behind: &[&[u8]],
) -> Result<(), Fail>
    requires { IsWidth W }
{
    let mut line = Vec::new(rt.alloc());
    line.extend_from_slice(front)?;
    for bytes in behind {
        line.extend_from_slice(bytes)?;
    }
    is_at_fault::<W>(rt, line.as_slice(), EventFault::F8);
    Ok(())
}

#[test]
fn neighbours_of_each_event(rt: HostRuntime) -> Result<(), Fail> {
    for line in [
        "00 load 0 00000000",
        "00 store 0 00000000 5a",
        "01 store 3 00000008 0123456789abcdef",
        "00 acquire 000 NtoB",
        "00 acquire 000 BtoT",
        "00 release 000 TtoN",
        "00 release 000 BtoN",
        "00 get 3 00000000",
        "00 put 2 00000000 ffffffff",
        "00 part 2 00000004 50 44332211",
        "00 arith 3 00000000 ADD 0000000000000001",
        "00 logic 3 00000000 SWAP 0000000000000001",
        "00 intent 6 00000000 PrefetchRead",
        "00 deliver A",
        "drain",
    ] {
        has_none_beside_it::<8>(&rt, line)?;
    }
    let whole = format!(in rt.alloc(); "01 whole 000 {FULL}")?;
    has_none_beside_it::<8>(&rt, whole.as_str())?;
    let put = format!(in rt.alloc(); "00 put 6 00000000 {FULL}")?;
    has_none_beside_it::<8>(&rt, put.as_str())?;
    has_none_beside_it::<4>(&rt, "00 part 2 00000004 5 44332211")?;
    has_none_beside_it::<16>(&rt, "00 part 2 00000004 0050 44332211")
}

#[test]
fn lines_without_an_end(rt: HostRuntime) -> Result<(), Fail> {
    is_at_fault::<8>(&rt, b"", EventFault::F1);
    is_at_fault::<8>(&rt, b"drain", EventFault::F1);
    let mut long = Vec::new(rt.alloc());
    for _ in 0..255u16 {
        long.push(b'x')?;
    }
    long.push(b'\n')?;
    is_at_fault::<8>(&rt, long.as_slice(), EventFault::F8);
    let mut longer = Vec::new(rt.alloc());
    longer.push(b'x')?;
    longer.extend_from_slice(long.as_slice())?;
    is_at_fault::<8>(&rt, longer.as_slice(), EventFault::F1);
    Ok(())
}
