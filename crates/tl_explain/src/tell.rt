//! Explains why a beat breaks S1 or an H rule.

ghost use Rattle.tl_beat.specs.statement.Width.{IsWidth};

use crate::bursts::Begun;
use crate::fits::fits_grow;
use crate::holding::{tell_held, tell_holds, tell_misreport, tell_without_data};
use crate::names::Names;
use crate::reason::Reason;
use crate::recorder::Recorder;
use crate::told::Told;
use crate::wording::{AsRecorded, Wording, tell_line};
use crate::words::append_key;
use std::io;
use std::io::Write;
use tl_beat::beat::Beat;
use tl_beat::control::Control;
use tl_beat::opcode::{OpA, OpD};
use tl_params::key::Key;
use tl_params::liberties::Liberties;
use tl_params::param::Cap;
use tl_rules::kind::answers;

/// Appends the pending key, and the message since which it is.
pub fn tell_pending<const W: usize, X: Wording<W>>(
    wording: &X,
    key: Key,
    told: &Told,
    out: &mut Vec<u8>,
) -> io::Result<()>
    requires { IsWidth W }
{
    out.write_all(b"  ")?;
    append_key(wording, key, out)?;
    tell_line(wording, " is pending since line ", told, ":\n", out)
}

fn tell_never<const W: usize, X: Wording<W>>(
    wording: &X,
    key: Key,
    out: &mut Vec<u8>,
) -> io::Result<()> {
    out.write_all(b"  ")?;
    append_key(wording, key, out)?;
    out.write_all(b" isn't pending: no message before has opened it\n")
}

fn tell_closed<const W: usize, X: Wording<W>>(
    wording: &X,
    key: Key,
    opening: &Told,
    closing: &Told,
    out: &mut Vec<u8>,
) -> io::Result<()>
    requires { IsWidth W }
{
    let from = wording.line_of(opening);
    let to = wording.line_of(closing);
    out.write_all(b"  ")?;
    append_key(wording, key, out)?;
    write!(
        out,
        " isn't pending: opened in line {from}, answered in line {to}:\n"
    )?;
    wording.append_told(opening, out)?;
    wording.append_told(closing, out)
}

fn tell_unfinished<const W: usize, X: Wording<W>>(
    wording: &X,
    key: Key,
    opening: &Told,
    recorded: u8,
    out: &mut Vec<u8>,
) -> io::Result<()>
    requires { IsWidth W }
{
    let line = wording.line_of(opening);
    let came = wording.beats_of(recorded);
    let all = wording.length_of(opening);
    out.write_all(b"  ")?;
    append_key(wording, key, out)?;
    write!(
        out,
        " isn't complete: of the message that began in line {line}, {came} of {all} beats have come:\n"
    )?;
    wording.append_told(opening, out)
}

/// The answers of a request.
fn append_answers(opcode: OpA, out: &mut Vec<u8>) -> io::Result<()> {
    let all = [
        OpD::AccessAck,
        OpD::AccessAckData,
        OpD::HintAck,
        OpD::Grant,
        OpD::GrantData,
    ];
    let mut names = Names { any: false };
    for answer in all {
        if answers(answer, opcode) {
            names.append(answer.name(), out)?;
        }
    }
    Ok(())
}

fn tell_other_kind<const W: usize, X: Wording<W>>(
    wording: &X,
    request: &Told,
    out: &mut Vec<u8>,
) -> io::Result<()>
    requires { IsWidth W }
{
    tell_line(
        wording,
        "  the request with this source, of line ",
        request,
        ", is answered otherwise:\n",
        out,
    )?;
    if let Control::A(x) = request.mention.control {
        out.write_all(b"  wanted: ")?;
        append_answers(x.opcode, out)?;
        out.write_all(b"\n")?;
    }
    Ok(())
}

/// The size of a message, 0 of a GrantAck.
pub fn size_of(control: &Control) -> u8 {
    match control {
        Control::A(x) => x.size,
        Control::B(x) => x.size,
        Control::C(x) => x.size,
        Control::D(x) => x.size,
        Control::E(_) => 0,
    }
}

fn tell_other_size<const W: usize, X: Wording<W>>(
    wording: &X,
    request: &Told,
    out: &mut Vec<u8>,
) -> io::Result<()>
    requires { IsWidth W }
{
    let line = wording.line_of(request);
    let size = size_of(&request.mention.control);
    write!(out, "  the request of line {line} has size {size}:\n")?;
    wording.append_told(request, out)?;
    write!(out, "  wanted: size={size:x}\n")
}

fn tell_wrong_cap<const W: usize, X: Wording<W>>(
    wording: &X,
    liberties: Liberties,
    request: &Told,
    out: &mut Vec<u8>,
) -> io::Result<()>
    requires { IsWidth W }
{
    tell_line(wording, "  the request, of line ", request, ":\n", out)?;
    out.write_all(b"  wanted: ")?;
    let mut names = Names { any: false };
    for cap in [Cap::ToT, Cap::ToB] {
        if let Control::A(x) = request.mention.control {
            if fits_grow(liberties, x.opcode, x.param, cap.param()) {
                names.append(cap.name(), out)?;
            }
        }
    }
    out.write_all(b"\n")
}

fn tell_other_source<const W: usize, X: Wording<W>>(
    wording: &X,
    probe: &Told,
    out: &mut Vec<u8>,
) -> io::Result<()>
    requires { IsWidth W }
{
    let line = wording.line_of(probe);
    write!(out, "  the Probe of line {line} has source ")?;
    wording.append_source_of(probe, out)?;
    out.write_all(b":\n")?;
    wording.append_told(probe, out)?;
    out.write_all(b"  wanted: source=")?;
    wording.append_source_of(probe, out)?;
    out.write_all(b"\n")
}

/// The request, and the Probe of its block that is pending.
fn tell_probed<const W: usize, X: Wording<W>>(
    wording: &X,
    request: &Told,
    probe: &Told,
    block: u32,
    out: &mut Vec<u8>,
) -> io::Result<()>
    requires { IsWidth W }
{
    tell_line(wording, "  the request, of line ", request, ":\n", out)?;
    tell_pending(wording, Key::ProbeOf(block), probe, out)
}

/// Control fields as numbers, in the order of a line.
fn numbers(code: u8, param: u8, size: u8, source: u8, place: u32, denied: bool) -> [u32; 6] {
    let (code, param) = (u32::from(code), u32::from(param));
    let (size, source) = (u32::from(size), u32::from(source));
    [code, param, size, source, place, u32::from(denied)]
}

/// The control fields in the order of a line, as numbers. Those of channel E never differ within a burst.
fn fields_of(control: &Control) -> [u32; 6] {
    match control {
        Control::A(x) => {
            let code = x.opcode.code();
            numbers(code, x.param, x.size, x.source, x.address, false)
        }
        Control::B(x) => {
            let code = x.opcode.code();
            numbers(code, x.param, x.size, x.source, x.address, false)
        }
        Control::C(x) => {
            let code = x.opcode.code();
            numbers(code, x.param, x.size, x.source, x.address, false)
        }
        Control::D(x) => {
            let code = x.opcode.code();
            numbers(code, x.param, x.size, x.source, u32::from(x.sink), x.denied)
        }
        Control::E(_) => [0; 6],
    }
}

/// The name of the control field at a place of `fields_of`, which is on channel D if so said.
fn field_name(place: usize, on_d: bool) -> &'static str {
    match place {
        0 => "opcode",
        1 => "param",
        2 => "size",
        3 => "source",
        4 => if on_d { "sink" } else { "address" },
        _ => "denied",
    }
}

/// Appends the fields in which a beat differs from a burst of its channel.
fn append_differences<const W: usize>(
    beat: &Beat<W>,
    control: &Control,
    out: &mut Vec<u8>,
) -> io::Result<()> {
    let mut names = Names { any: false };
    let (here, there) = (fields_of(&beat.control()), fields_of(control));
    let on_d = matches!(control, Control::D(_));
    for place in 0..6usize {
        if here[place] != there[place] {
            names.append(field_name(place, on_d), out)?;
        }
    }
    Ok(())
}

fn tell_differs<const W: usize, X: Wording<W>>(
    wording: &X,
    beat: &Beat<W>,
    begun: &Begun,
    out: &mut Vec<u8>,
) -> io::Result<()>
    requires { IsWidth W }
{
    let line = wording.line_of(&begun.first);
    let came = wording.beats_of(begun.came);
    let all = wording.length_of(&begun.first);
    write!(
        out,
        "  the burst that began in line {line} has {all} beats, {came} of which have come:\n"
    )?;
    wording.append_told(&begun.first, out)?;
    out.write_all(b"  differs in: ")?;
    append_differences(beat, &begun.newest, out)?;
    out.write_all(b"\n")
}

/// Appends the reason why the rule is broken, on a link with these liberties, in this wording.
pub fn tell_in<const W: usize, X: Wording<W>>(
    wording: &X,
    liberties: Liberties,
    beat: &Beat<W>,
    reason: &Reason,
    record: &Recorder,
    out: &mut Vec<u8>,
) -> io::Result<()>
    requires { IsWidth W }
{
    let block = record.subject.block;
    match reason {
        Reason::Pending(key, told) => {
            tell_pending(wording, *key, told, out)?;
            match beat {
                Beat::C(_) => tell_held(wording, liberties, block, &record.held, out),
                _ => Ok(()),
            }
        }
        Reason::Never(key) => tell_never(wording, *key, out),
        Reason::Closed(key, opening, closing) => {
            tell_closed(wording, *key, opening, closing, out)
        }
        Reason::Unfinished(key, opening, came) => {
            tell_unfinished(wording, *key, opening, *came, out)
        }
        Reason::OtherKind(request) => tell_other_kind(wording, request, out),
        Reason::OtherSize(request) => tell_other_size(wording, request, out),
        Reason::WrongCap(request) => tell_wrong_cap(wording, liberties, request, out),
        Reason::WithoutData(request, held) => {
            tell_without_data(wording, liberties, request, held, block, out)
        }
        Reason::Probed(request, probe) => tell_probed(wording, request, probe, block, out),
        Reason::Holds(held) => tell_holds(wording, liberties, beat, held, record, out),
        Reason::OtherSource(probe) => tell_other_source(wording, probe, out),
        Reason::WrongProbe(probe) => {
            out.write_all(b"  the Probe asks for no data:\n")?;
            wording.append_told(probe, out)
        }
        Reason::Misreport(probe, held) => {
            tell_misreport(wording, liberties, probe, held, block, out)
        }
        Reason::Differs(begun) => tell_differs(wording, beat, begun, out),
    }
}

/// Appends the reason why the rule is broken, on a link with these liberties, with beats and names as they were
/// recorded.
pub fn tell<const W: usize>(
    liberties: Liberties,
    beat: &Beat<W>,
    reason: &Reason,
    record: &Recorder,
    out: &mut Vec<u8>,
) -> io::Result<()>
    requires { IsWidth W }
{
    tell_in(&AsRecorded, liberties, beat, reason, record, out)
}
