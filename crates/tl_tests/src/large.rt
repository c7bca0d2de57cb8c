//! Inputs of many lines and of several pieces, and the number of bytes that a run reads.

ghost use Rattle.std.specs.Prelude.{◌<◌};

use crate::devices::{DECODE, GET, GET_TEXT};
use crate::expect::{holds, same};
use std::alloc::{AllocError, Global};
use std::cell::Cell;
use std::io::{self, Read, Write};
use std::process::Abort;
use std::test::Fail;
use tl_engine::command::{Command, RunForm};
use tl_engine::tool::run_tool;
use tl_lines::status::Status;
use tl_play::device::{Narrow, Slow};

const COUNT: usize = 5000;

/// These bytes, this many times, and then others.
fn repeated(
    alloc: Global,
    bytes: &[u8],
    count: usize,
    behind: &[u8],
) -> Result<Vec<u8>, AllocError> {
    let mut all = Vec::new(alloc);
    for _ in 0..count {
        all.extend_from_slice(bytes)?;
    }
    all.extend_from_slice(behind)?;
    Ok(all)
}

/// In one piece and byte by byte, and with a line at fault after them.
#[test]
fn decodes_many_lines(rt: HostRuntime) -> Result<(), Fail> {
    let rows: [(&[u8], &[u8], Status); 2] = [
        (b"", b"", Status::Clean),
        (b"x\n", b"line 5001 F1\n", Status::Broken),
    ];
    for (behind, told, status) in rows {
        let input = repeated(rt.alloc(), GET, COUNT, behind)?;
        let text = repeated(rt.alloc(), GET_TEXT, COUNT, told)?;
        let mut reader = input.as_slice();
        let mut output = Vec::new(rt.alloc());
        let outcome = run_tool(rt.alloc(), DECODE, &mut reader, &mut output);
        holds(&rt, outcome == Ok(status));
        holds(&rt, output.as_slice() == text.as_slice());
        let mut slow = Slow::new(input.as_slice(), false);
        let mut narrow = Narrow::new(rt.alloc(), usize::MAX, false);
        let outcome = run_tool(rt.alloc(), DECODE, &mut slow, &mut narrow);
        holds(&rt, outcome == Ok(status));
        holds(&rt, narrow.taken.as_slice() == text.as_slice());
    }
    Ok(())
}

/// The text of the monitor for this many Gets with answers, on this many links in turn, and for a line after them.
fn judged(
    alloc: Global,
    header: &str,
    links: usize,
    count: usize,
    behind: &str,
) -> Result<Vec<u8>, Fail>
    requires { 0 < links }
{
    let mut input = Vec::new(alloc);
    writeln!(&mut input, "{header}")?;
    for i in 0..count {
        let link = i % links;
        writeln!(&mut input, "{link:02x} A 4 0 3 00 00000040 ff - 0")?;
        writeln!(&mut input, "{link:02x} D 1 0 3 00 00 0 0011223344556677 0")?;
    }
    input.extend_from_slice(behind.as_bytes())?;
    let mut reader = input.as_slice();
    let mut output = Vec::new(alloc);
    let _ = run_tool(alloc, Command::Monitor, &mut reader, &mut output)?;
    Ok(output)
}

#[test]
fn judges_many_beats(rt: HostRuntime) -> Result<(), Fail> {
    let text = judged(rt.alloc(), "tltrace 1 UL", 1, 1000, "")?;
    same(&rt, &text.as_slice(), &b"clean 2000\n".as_slice());
    let header = "tltrace 1 UL UH C UL UH C UL UH C UL UH C UL UH C UL";
    let text = judged(rt.alloc(), header, 16, 5000, "")?;
    same(&rt, &text.as_slice(), &b"clean 10000\n".as_slice());
    let answer = "0f D 1 0 3 00 00 0 0011223344556677 0\n";
    let text = judged(rt.alloc(), header, 16, 5000, answer)?;
    same(&rt, &text.as_slice(), &b"line 10002 H2\n".as_slice());
    Ok(())
}

/// Sixteen clients of mixed levels, the first one of eight plain and every second one a cache.
const CLIENTS: &str = "UL:8 UH:8 C:8 UH:8 C:8 UH:8 C:8 UH:8 UL:8 UH:8 C:8 UH:8 C:8 UH:8 C:8 UH:8";

/// The block of a client's request. Each client has eight blocks, below those of the client before it.
fn block_of(client: u16, request: u16) -> u16 {
    1023u16
        .wrapping_sub(client.wrapping_mul(8))
        .wrapping_sub(request)
}

/// Each client puts and gets, by turns, each size that it may.
fn append_accesses(schedule: &mut Vec<u8>) -> io::Result<()> {
    for client in 0..16u16 {
        for request in 0..8u16 {
            let sizes = if client % 8 == 0 { 4 } else { 7 };
            let size = request % sizes;
            let address = u32::from(block_of(client, request)) * 64;
            if (client + request) % 2 == 0 {
                write!(schedule, "{client:02x} put {size} {address:08x} ")?;
                for _ in 0..1u32 << size {
                    write!(schedule, "a5")?;
                }
                writeln!(schedule)?;
            } else {
                writeln!(schedule, "{client:02x} get {size} {address:08x}")?;
            }
        }
    }
    writeln!(schedule, "drain")
}

/// Caches acquire their blocks, and the others get as many bytes of theirs as they may.
fn append_blocks(schedule: &mut Vec<u8>) -> io::Result<()> {
    for client in 0..16u16 {
        for request in 0..8u16 {
            let block = block_of(client, request);
            let address = u32::from(block) * 64;
            match client % 8 {
                0 => writeln!(schedule, "{client:02x} get 3 {address:08x}")?,
                2 | 4 | 6 => writeln!(schedule, "{client:02x} acquire {block:03x} NtoT")?,
                _ => writeln!(schedule, "{client:02x} get 6 {address:08x}")?,
            }
        }
    }
    writeln!(schedule, "drain")
}

/// The text of the large schedule, of 259 lines and one at fault after them, whose reader fails if it is asked for
/// more. The text is the same if the schedule comes in one piece, and all of the text waits.
fn played(rt: &impl Abort, alloc: Global, form: RunForm) -> Result<Vec<u8>, Fail> {
    let mut schedule = Vec::new(alloc);
    writeln!(&mut schedule, "tlsched 1 1024 8 {CLIENTS}")?;
    append_accesses(&mut schedule)?;
    append_blocks(&mut schedule)?;
    writeln!(&mut schedule, "10 drain")?;
    let mut reader = Slow::new(schedule.as_slice(), true);
    let mut text = Vec::new(alloc);
    let _ = run_tool(alloc, Command::Run { form }, &mut reader, &mut text)?;
    let mut reader = schedule.as_slice();
    let mut at_once = Vec::new(alloc);
    let _ = run_tool(alloc, Command::Run { form }, &mut reader, &mut at_once)?;
    holds(rt, at_once.as_slice() == text.as_slice());
    Ok(text)
}

/// The number of lines of a text that end with these bytes.
fn lines_that_end(text: &[u8], end: &[u8]) -> usize {
    text.split(|byte| *byte == b'\n')
        .filter(|line| line.ends_with(end))
        .count()
}

/// An access of a size up to 3 takes two deliveries, one of 4 three, of 5 five and of 6 nine. So the first drain is 2 *
/// 16 of the plain clients and 14 * 27 of the others, and the second 2 * 16, 8 * 72 Gets and 6 * 80 Acquires, each with
/// GrantAck.
#[test]
fn plays_a_large_schedule(rt: HostRuntime) -> Result<(), Fail> {
    let text = played(&rt, rt.alloc(), RunForm::Outcomes)?;
    let text = text.as_slice();
    holds(&rt, text.ends_with(b"\ndrained 1088\nline 260 F8\n"));
    same(
        &rt,
        &lines_that_end(text, b""),
        &(128 + 410 + 1 + 128 + 1088 + 1 + 2),
    );
    same(&rt, &lines_that_end(text, b"drained 410"), &1);
    for source in [b"started 00", b"started 03", b"started 07"] {
        same(&rt, &lines_that_end(text, source), &32);
    }
    same(&rt, &lines_that_end(text, b" ack"), &64);
    same(&rt, &lines_that_end(text, b" granted T"), &48);
    // Half of a block, whose other half was put.
    let mut data = [b'0'; 128];
    for i in 32..64usize {
        data[2 * i] = b'a';
        data[2 * i + 1] = b'5';
    }
    same(&rt, &lines_that_end(text, &data), &8);
    Ok(())
}

/// The monitor finds no fault in its trace.
#[test]
fn traces_a_large_schedule(rt: HostRuntime) -> Result<(), Fail> {
    let text = played(&rt, rt.alloc(), RunForm::Trace)?;
    holds(&rt, text.ends_with(b"\nline 260 F8\n"));
    let end = text.len().saturating_sub(12);
    let mut reader = &text.as_slice()[..end];
    let mut output = Vec::new(rt.alloc());
    let outcome = run_tool(rt.alloc(), Command::Monitor, &mut reader, &mut output);
    holds(&rt, outcome == Ok(Status::Clean));
    same(&rt, &output.as_slice(), &b"clean 1498\n".as_slice());
    Ok(())
}

/// Gives one line a call, and fails if not all of the text of the lines before it has been written.
#[derive(Drop)]
struct Patient<'a> {
    left: usize,
    given: usize,
    written: &'a Cell<usize>,
}

impl Read for Patient<'_> {
    fn read(&mut self, buf: &mut [u8]) -> io::Result<usize> {
        if self.written.get() != self.given.wrapping_mul(GET_TEXT.len()) {
            return Err(io::Error::from(io::ErrorKind::Other));
        }
        if self.left == 0 || buf.len() < GET.len() {
            return Ok(0);
        }
        self.left -= 1;
        self.given = self.given.wrapping_add(1);
        buf[..GET.len()].copy_from_slice(GET);
        Ok(GET.len())
    }
}

/// Counts the bytes that it is given.
#[derive(Drop)]
struct Counting<'a> {
    written: &'a Cell<usize>,
}

impl Write for Counting<'_> {
    fn write(&mut self, buf: &[u8]) -> io::Result<usize> {
        self.written.set(self.written.get().wrapping_add(buf.len()));
        Ok(buf.len())
    }

    fn flush(&mut self) -> io::Result<()> {
        Ok(())
    }
}

#[test]
fn writes_each_text_before_the_next_read(rt: HostRuntime) {
    let written = Cell::new(0);
    let mut reader = Patient {
        left: 1000,
        given: 0,
        written: &written,
    };
    let mut writer = Counting { written: &written };
    let outcome = run_tool(rt.alloc(), DECODE, &mut reader, &mut writer);
    holds(&rt, outcome == Ok(Status::Clean));
    same(&rt, &written.get(), &(GET_TEXT.len() * 1000));
}
