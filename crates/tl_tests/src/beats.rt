//! Lines of beats whose bytes no file has, and lines that are appended.

use crate::expect::{holds, same};
use std::test::Fail;
use tl_beat::beat::{Beat, Link};
use tl_beat::fault::LineFault;
use tl_beat::read::read_line;
use tl_beat::write::write_line;

#[test]
fn lane_seven_comes_first(rt: HostRuntime) -> Result<(), Fail> {
    let (link, beat): (Link, Beat<8>) = read_line(b"0f D 1 0 3 02 00 0 0033001100000000 0\n")?;
    same(&rt, &link, &Link(15));
    match beat {
        Beat::D(beat) => same(&rt, &beat.lanes, &Some([0, 0, 0, 0, 0x11, 0, 0x33, 0])),
        _ => holds(&rt, false),
    }
    Ok(())
}

#[test]
fn a_line_is_at_most_256_bytes_long(rt: HostRuntime) {
    let long = [b'\n'; 257];
    let read: Result<(Link, Beat<8>), LineFault> = read_line(&long);
    same(&rt, &read.err(), &Some(LineFault::F1));
    // A wrong letter comes before the number of fields, within that length.
    let mut near = [b' '; 256];
    near[255] = b'\n';
    let read: Result<(Link, Beat<8>), LineFault> = read_line(&near);
    same(&rt, &read.err(), &Some(LineFault::F2));
}

/// After other bytes, up to a megabyte.
#[test]
fn lines_are_appended(rt: HostRuntime) -> Result<(), Fail> {
    let (link, beat): (Link, Beat<8>) = read_line(b"01 E 03\n")?;
    let mut out = Vec::new(rt.alloc());
    out.push(b'x')?;
    write_line(link, &beat, &mut out)?;
    same(&rt, &out.as_slice(), &b"x01 E 03\n".as_slice());
    for _ in 0..131_071 {
        write_line(link, &beat, &mut out)?;
    }
    same(&rt, &out.len(), &1_048_577);
    Ok(())
}
