//! Explains why a beat breaks an L rule.

ghost use Rattle.tl_beat.specs.statement.Width.{IsWidth};

use crate::wording::{AsRecorded, Wording};
use std::io;
use std::io::Write;
use tl_beat::beat::{Beat, BeatC, BeatD};
use tl_beat::opcode::{OpA, OpC, OpD};
use tl_params::level::Level;
use tl_params::liberties::Liberties;
use tl_params::rule::Rule;

fn level_name(level: Level) -> &'static str {
    match level {
        Level::UL => "UL",
        Level::UH => "UH",
        Level::C => "C",
    }
}

/// Appends the opcodes of a beat's channel at a level.
fn opcodes_of<const W: usize>(level: Level, beat: &Beat<W>) -> &'static str {
    match (beat, level) {
        (Beat::A(_), Level::UL) => "PutFullData, PutPartialData, Get",
        (Beat::A(_), Level::UH) => {
            "PutFullData, PutPartialData, ArithmeticData, LogicalData, Get, Intent"
        }
        (Beat::A(_), Level::C) => "all",
        (Beat::D(_), Level::UL) => "AccessAck, AccessAckData",
        (Beat::D(_), Level::UH) => "AccessAck, AccessAckData, HintAck",
        (Beat::D(_), Level::C) => "all",
        (_, Level::C) => "all",
        _ => "none",
    }
}

fn tell_level<const W: usize>(
    level: Option<Level>,
    beat: &Beat<W>,
    out: &mut Vec<u8>,
) -> io::Result<()> {
    let Some(level) = level else {
        return out.write_all(b"  the header names no such link\n");
    };
    let name = level_name(level);
    let opcodes = opcodes_of(level, beat);
    write!(
        out,
        "  the link is of level {name}; opcodes of this channel there: {opcodes}\n"
    )
}

/// The params of an opcode of channel A.
fn params_of_a(opcode: OpA) -> &'static str {
    match opcode {
        OpA::ArithmeticData => "0 to 4: MIN, MAX, MINU, MAXU, ADD",
        OpA::LogicalData => "0 to 3: XOR, OR, AND, SWAP",
        OpA::Intent => "0, 1: PrefetchRead, PrefetchWrite",
        OpA::AcquireBlock | OpA::AcquirePerm => "0 to 2: NtoB, NtoT, BtoT",
        OpA::PutFullData | OpA::PutPartialData | OpA::Get => "0",
    }
}

/// The params of an opcode of channel C on a link with these liberties.
fn params_of_c(liberties: Liberties, opcode: OpC) -> &'static str {
    match opcode {
        OpC::Release if liberties.reports => "0 to 5: TtoB, TtoN, BtoN, TtoT, BtoB, NtoN",
        OpC::ReleaseData if liberties.reports => "0, 1, 3: TtoB, TtoN, TtoT",
        OpC::ProbeAck => "0 to 5: TtoB, TtoN, BtoN, TtoT, BtoB, NtoN",
        OpC::ProbeAckData => "0, 1, 3: TtoB, TtoN, TtoT",
        OpC::Release => "0 to 2: TtoB, TtoN, BtoN",
        OpC::ReleaseData => "0, 1: TtoB, TtoN",
        OpC::AccessAck | OpC::AccessAckData | OpC::HintAck => "0",
    }
}

/// The params of an opcode of channel D.
fn params_of_d(opcode: OpD) -> &'static str {
    match opcode {
        OpD::Grant | OpD::GrantData => "0 to 2: toT, toB, toN",
        OpD::AccessAck | OpD::AccessAckData | OpD::HintAck | OpD::ReleaseAck => "0",
    }
}

/// Appends a param, if it isn't legal.
fn tell_param(param: u8, legal: bool, params: &str, out: &mut Vec<u8>) -> io::Result<()> {
    if legal {
        return Ok(());
    }
    write!(out, "  param is {param}, legal: {params}\n")
}

/// Appends a source that must be 0 and isn't, unless the link may have any.
fn tell_source<const W: usize, X: Wording<W>>(
    wording: &X,
    any: bool,
    source: u8,
    out: &mut Vec<u8>,
) -> io::Result<()> {
    if any || source == 0 {
        return Ok(());
    }
    out.write_all(b"  source is ")?;
    wording.append_source(source, out)?;
    out.write_all(b", legal: ")?;
    wording.append_source(0, out)?;
    out.write_all(b"\n")
}

/// Appends a sink that must be 0 and isn't, unless the link may have any.
fn tell_sink<const W: usize, X: Wording<W>>(
    wording: &X,
    any: bool,
    sink: u8,
    out: &mut Vec<u8>,
) -> io::Result<()> {
    if any || sink == 0 {
        return Ok(());
    }
    out.write_all(b"  sink is ")?;
    wording.append_sink(sink, out)?;
    out.write_all(b", legal: ")?;
    wording.append_sink(0, out)?;
    out.write_all(b"\n")
}

/// Whether a message of channel C may have this param on a link with these liberties.
fn fits_c(liberties: Liberties, opcode: OpC, param: u8) -> bool {
    match opcode {
        OpC::Release if liberties.reports => param <= 5,
        OpC::ReleaseData if liberties.reports => matches!(param, 0 | 1 | 3),
        OpC::ProbeAck => param <= 5,
        OpC::ProbeAckData => matches!(param, 0 | 1 | 3),
        OpC::Release => param <= 2,
        OpC::ReleaseData => param <= 1,
        OpC::AccessAck | OpC::AccessAckData | OpC::HintAck => param == 0,
    }
}

fn tell_params_of_c<const W: usize, X: Wording<W>>(
    wording: &X,
    liberties: Liberties,
    x: &BeatC<W>,
    out: &mut Vec<u8>,
) -> io::Result<()> {
    tell_param(
        x.param,
        fits_c(liberties, x.opcode, x.param),
        params_of_c(liberties, x.opcode),
        out,
    )?;
    match x.opcode {
        OpC::ProbeAck | OpC::ProbeAckData => tell_source(wording, liberties.ids, x.source, out),
        _ => Ok(()),
    }
}

fn tell_params_of_d<const W: usize, X: Wording<W>>(
    wording: &X,
    liberties: Liberties,
    x: &BeatD<W>,
    out: &mut Vec<u8>,
) -> io::Result<()> {
    let is_grant = matches!(x.opcode, OpD::Grant | OpD::GrantData);
    let legal = x.param == 0 || is_grant && x.param <= 2;
    tell_param(x.param, legal, params_of_d(x.opcode), out)?;
    if is_grant {
        Ok(())
    } else {
        tell_sink(wording, liberties.sinks, x.sink, out)
    }
}

fn tell_params<const W: usize, X: Wording<W>>(
    wording: &X,
    liberties: Liberties,
    beat: &Beat<W>,
    out: &mut Vec<u8>,
) -> io::Result<()> {
    match beat {
        Beat::A(x) => tell_param(x.param, false, params_of_a(x.opcode), out),
        Beat::B(x) => {
            tell_param(x.param, x.param <= 2, "0 to 2: toT, toB, toN", out)?;
            tell_source(wording, liberties.ids, x.source, out)
        }
        Beat::C(x) => tell_params_of_c(wording, liberties, x, out),
        Beat::D(x) => tell_params_of_d(wording, liberties, x, out),
        Beat::E(_) => Ok(()),
    }
}

/// The sizes of an access at a level.
fn access_sizes<const W: usize>(level: Level) -> &'static str {
    match level {
        Level::UH | Level::C => "0 to 6",
        Level::UL => match W {
            4 => "0 to 2",
            8 => "0 to 3",
            _ => "0 to 4",
        },
    }
}

fn tell_sizes<const W: usize>(level: Level, beat: &Beat<W>, out: &mut Vec<u8>) -> io::Result<()> {
    let access = access_sizes::<W>(level);
    let (size, legal) = match beat {
        Beat::A(x) => match x.opcode {
            OpA::ArithmeticData | OpA::LogicalData => (x.size, "2, 3"),
            OpA::AcquireBlock | OpA::AcquirePerm => (x.size, "6"),
            _ => (x.size, access),
        },
        Beat::B(x) => (x.size, "6"),
        Beat::C(x) => (x.size, "6"),
        Beat::D(x) => match x.opcode {
            OpD::Grant | OpD::GrantData | OpD::ReleaseAck => (x.size, "6"),
            _ => (x.size, access),
        },
        Beat::E(_) => (0, "6"),
    };
    write!(out, "  size is {size:x}, legal: {legal}\n")
}

/// The size and the address of a beat of channels A, B and C.
fn place_of<const W: usize>(beat: &Beat<W>) -> (u8, u32) {
    match beat {
        Beat::A(x) => (x.size, x.address),
        Beat::B(x) => (x.size, x.address),
        Beat::C(x) => (x.size, x.address),
        _ => (0, 0),
    }
}

fn tell_alignment<const W: usize, X: Wording<W>>(
    wording: &X,
    beat: &Beat<W>,
    out: &mut Vec<u8>,
) -> io::Result<()> {
    let (size, address) = place_of(beat);
    let bytes = 1u32 << size.min(6);
    out.write_all(b"  address is ")?;
    wording.append_address(address, out)?;
    write!(
        out,
        ", legal with size={size:x}: the multiples of {bytes}\n"
    )
}

/// Appends the bits of a mask, that of lane W - 1 first.
fn append_bits<const W: usize>(mask: u16, out: &mut Vec<u8>) -> io::Result<()>
    requires { IsWidth W }
{
    for i in 0..W {
        let lane = W - 1 - i;
        out.push(if (mask >> lane) % 2 == 1 { b'1' } else { b'0' })?;
    }
    Ok(())
}

/// The lanes of a message of this size and address.
fn lanes<const W: usize>(size: u8, address: u32) -> u16
    requires { IsWidth W }
{
    let all = ((1u32 << W) - 1) as u16;
    let bytes = 1usize << size.min(6);
    if bytes >= W {
        return all;
    }
    let low = ((1u32 << bytes) - 1) as u16;
    let place = (address as usize) % W;
    ((u32::from(low) << place) % 65536) as u16 & all
}

fn tell_mask<const W: usize>(beat: &Beat<W>, out: &mut Vec<u8>) -> io::Result<()>
    requires { IsWidth W }
{
    let (size, address) = place_of(beat);
    let (mask, part) = match beat {
        Beat::A(x) => (x.mask, x.opcode == OpA::PutPartialData),
        Beat::B(x) => (x.mask, false),
        _ => (0, false),
    };
    out.write_all(b"  mask is ")?;
    append_bits::<W>(mask, out)?;
    write!(out, ", legal with size={size:x} and this address: ")?;
    append_bits::<W>(lanes::<W>(size, address), out)?;
    out.write_all(if part {
        b" or some of these lanes\n"
    } else {
        b"\n"
    })
}

/// Appends the denied and corrupt that a response may have on a link with these liberties.
fn flags_of(liberties: Liberties, opcode: OpD) -> &'static str {
    match opcode {
        OpD::AccessAck | OpD::HintAck => "corrupt=0; denied 0 or 1",
        OpD::AccessAckData if liberties.uncorrupt => "corrupt 0 or 1; denied 0 or 1",
        OpD::AccessAckData => "corrupt 0 or 1; denied=1 with corrupt=1 alone",
        OpD::GrantData if liberties.denied => "corrupt 0 or 1; denied=1 with corrupt=1 alone",
        OpD::GrantData => "corrupt 0 or 1; denied=0",
        OpD::Grant if liberties.denied => "corrupt=0; denied 0 or 1",
        OpD::Grant | OpD::ReleaseAck => "corrupt=0; denied=0",
    }
}

fn tell_flags<const W: usize>(
    liberties: Liberties,
    beat: &Beat<W>,
    out: &mut Vec<u8>,
) -> io::Result<()> {
    match beat {
        Beat::D(x) => {
            let corrupt = u8::from(x.corrupt);
            let denied = u8::from(x.denied);
            let legal = flags_of(liberties, x.opcode);
            write!(
                out,
                "  denied is {denied}, corrupt is {corrupt}, legal: {legal}\n"
            )
        }
        _ => out.write_all(b"  corrupt is 1, legal without data: 0\n"),
    }
}

fn tell_untaken<const W: usize>(beat: &Beat<W>, out: &mut Vec<u8>) -> io::Result<()> {
    out.write_all(b"  outside of what is judged here; taken on this channel: ")?;
    out.write_all(match beat {
        Beat::B(_) => b"ProbeBlock, ProbePerm\n",
        _ => b"ProbeAck, ProbeAckData, Release, ReleaseData\n",
    })
}

/// Appends the field of a beat that breaks an L rule, its value, and the values that it may have on a link with these
/// liberties, in this wording.
pub fn tell_in<const W: usize, X: Wording<W>>(
    wording: &X,
    liberties: Liberties,
    level: Option<Level>,
    rule: Rule,
    beat: &Beat<W>,
    out: &mut Vec<u8>,
) -> io::Result<()>
    requires { IsWidth W }
{
    let Some(known) = level else {
        return tell_level(level, beat, out);
    };
    match rule {
        Rule::L1 => tell_level(level, beat, out),
        Rule::L2 => tell_params(wording, liberties, beat, out),
        Rule::L3 => tell_sizes(known, beat, out),
        Rule::L4 => tell_alignment(wording, beat, out),
        Rule::L5 => tell_mask(beat, out),
        Rule::L6 => tell_flags(liberties, beat, out),
        Rule::L7 => tell_untaken(beat, out),
        _ => Ok(()),
    }
}

/// Appends the same with sources, sinks and addresses as they were recorded.
pub fn tell<const W: usize>(
    liberties: Liberties,
    level: Option<Level>,
    rule: Rule,
    beat: &Beat<W>,
    out: &mut Vec<u8>,
) -> io::Result<()>
    requires { IsWidth W }
{
    tell_in(&AsRecorded, liberties, level, rule, beat, out)
}
