//! Texts about the permission held of a block, and the params that fit it.

ghost use Rattle.tl_beat.specs.statement.Width.{IsWidth};

use crate::fits::{grows_from, is_misreport};
use crate::held::Held;
use crate::names::Names;
use crate::reason::cap_asked;
use crate::recorder::Recorder;
use crate::tell::tell_pending;
use crate::told::Told;
use crate::wording::{Wording, tell_line};
use crate::words::{address_of, perm_name};
use std::io;
use std::io::Write;
use tl_beat::beat::Beat;
use tl_params::key::Key;
use tl_params::liberties::Liberties;
use tl_params::param::{Grow, Report};
use tl_params::perm::Perm;
use tl_rules::order::releases_from;

/// The reports, in the order of their numbers. The first three are the prunes of a Release.
const REPORTS: [Report; 6] = [
    Report::TtoB,
    Report::TtoN,
    Report::BtoN,
    Report::TtoT,
    Report::BtoB,
    Report::NtoN,
];

/// The messages that could have set the permission, for the text that none has.
fn unsaid(liberties: Liberties) -> &'static str {
    if liberties.denied {
        "no Grant that isn't denied, no ProbeAck and no Release of it before"
    } else {
        "no Grant, ProbeAck or Release of it before"
    }
}

/// Appends the permission held of a block, and the message that left it.
pub fn tell_held<const W: usize, X: Wording<W>>(
    wording: &X,
    liberties: Liberties,
    block: u32,
    held: &Held,
    out: &mut Vec<u8>,
) -> io::Result<()>
    requires { IsWidth W }
{
    out.write_all(b"  block ")?;
    wording.append_address(address_of(block), out)?;
    out.write_all(b" is held as ")?;
    out.write_all(perm_name(held.perm).as_bytes())?;
    match &held.since {
        None => {
            let messages = unsaid(liberties);
            write!(out, ": {messages}\n")
        }
        Some(told) => tell_line(wording, " since line ", told, ":\n", out),
    }
}

/// Appends the grows that fit the permission held.
fn append_grows(liberties: Liberties, perm: Perm, out: &mut Vec<u8>) -> io::Result<()> {
    let mut names = Names { any: false };
    for grow in [Grow::NtoB, Grow::NtoT, Grow::BtoT] {
        if grows_from(liberties, grow.param(), perm) {
            names.append(grow.name(), out)?;
        }
    }
    if !names.any {
        out.write_all(b"no Acquire of this block")?;
    }
    Ok(())
}

/// Appends the params of a Release that fit the permission held.
fn append_releases(liberties: Liberties, perm: Perm, out: &mut Vec<u8>) -> io::Result<()> {
    let mut names = Names { any: false };
    for report in REPORTS {
        if releases_from(liberties, report.param(), perm) {
            names.append(report.name(), out)?;
        }
    }
    if !names.any {
        out.write_all(b"no Release of this block")?;
    }
    Ok(())
}

/// Appends the pending Probe of the block, if there is one.
fn tell_probe_besides<const W: usize, X: Wording<W>>(
    wording: &X,
    record: &Recorder,
    out: &mut Vec<u8>,
) -> io::Result<()>
    requires { IsWidth W }
{
    match record.turns.probe.pending() {
        None => Ok(()),
        Some(probe) => { tell_pending(wording, Key::ProbeOf(record.subject.block), &probe, out) }
    }
}

/// Appends the permission held, if the param doesn't fit it.
pub fn tell_holds<const W: usize, X: Wording<W>>(
    wording: &X,
    liberties: Liberties,
    beat: &Beat<W>,
    held: &Held,
    record: &Recorder,
    out: &mut Vec<u8>,
) -> io::Result<()>
    requires { IsWidth W }
{
    tell_held(wording, liberties, record.subject.block, held, out)?;
    tell_probe_besides(wording, record, out)?;
    out.write_all(b"  wanted: ")?;
    match beat {
        Beat::A(_) => append_grows(liberties, held.perm, out)?,
        _ => append_releases(liberties, held.perm, out)?,
    }
    out.write_all(b"\n")
}

/// Appends the request that needs data, and the permission held.
pub fn tell_without_data<const W: usize, X: Wording<W>>(
    wording: &X,
    liberties: Liberties,
    request: &Told,
    held: &Held,
    block: u32,
    out: &mut Vec<u8>,
) -> io::Result<()>
    requires { IsWidth W }
{
    tell_line(
        wording,
        "  the request, of line ",
        request,
        ", needs data:\n",
        out,
    )?;
    tell_held(wording, liberties, block, held, out)?;
    out.write_all(b"  wanted: GrantData\n")
}

/// Appends the reports to a Probe of this cap that fit the permission held.
fn append_reports(liberties: Liberties, cap: u8, perm: Perm, out: &mut Vec<u8>) -> io::Result<()> {
    let mut names = Names { any: false };
    for report in REPORTS {
        if !is_misreport(liberties, report.param(), cap, perm) {
            names.append(report.name(), out)?;
        }
    }
    Ok(())
}

/// Appends the Probe that has another report, and the permission held.
pub fn tell_misreport<const W: usize, X: Wording<W>>(
    wording: &X,
    liberties: Liberties,
    probe: &Told,
    held: &Held,
    block: u32,
    out: &mut Vec<u8>,
) -> io::Result<()>
    requires { IsWidth W }
{
    tell_line(wording, "  the Probe, of line ", probe, ":\n", out)?;
    tell_held(wording, liberties, block, held, out)?;
    match cap_asked(probe) {
        None => Ok(()),
        Some(cap) => {
            out.write_all(b"  wanted: ")?;
            append_reports(liberties, cap.param(), held.perm, out)?;
            out.write_all(b"\n")
        }
    }
}
