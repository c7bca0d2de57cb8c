//! `tltool explain --times`.

ghost use Rattle.tltool.specs.Timed.{EndsTimed};

use crate::input::open;
use crate::{explain, told, unopened};
use std::io::{Read, Write};
use std::{fs, io};
use tl_lines::output::write_all;
use tl_params::liberties::Liberties;
use tl_times::times::append_timed;

/// Writes an explanation, whose exit status this is, with the times of the lines that it cites. Returns the exit status.
fn write_timed<R: Read, W: Write>(
    rt: &HostRuntime,
    explained: u8,
    text: &[u8],
    times: &mut R,
    output: &mut W,
) -> u8
    ensures { EndsTimed explained text.now (R.remaining times.old) (R.remaining times.new) (W.contents output.old)
        (W.contents output.new) result }
{
    let mut timed = Vec::new(rt.alloc());
    if let Err(fault) = append_timed(rt.alloc(), text, times, &mut timed) {
        return told(rt, Err(fault));
    }
    match write_all(output, &timed) {
        Ok(()) => explained,
        Err(fault) => told(rt, Err(fault)),
    }
}

/// Explains the file of this name, with the times of the lines that are cited, which the file of the name `times` has.
/// These liberties are allowed beyond those that its header names. A name of a rule or fault isn't explained. Returns the
/// exit status.
pub(crate) fn explain_timed(
    rt: &HostRuntime,
    coherent: bool,
    allow: Liberties,
    name: &str,
    times: &str,
) -> u8 {
    if fs::open(rt, name).is_err() {
        return unopened(rt, name);
    }
    let mut file = match open(rt, Some(times)) {
        Ok(file) => file,
        Err(status) => return status,
    };
    let mut text = Vec::new(rt.alloc());
    let explained = explain(rt, coherent, allow, name, &mut text);
    write_timed(rt, explained, &text, &mut file, &mut io::writer(rt))
}
