//! Readers and writers of one byte a call that fail, and lines that are refused at once.

use crate::expect::{holds, holds_in, same, same_in};
use std::fmt::Write as _;
use std::test::Fail;
use tl_engine::command::{Command, RunForm, Width};
use tl_engine::tool::run_tool;
use tl_lines::output::write_open_fault;
use tl_lines::status::{Status, ToolFault, exit_of};
use tl_play::device::{Narrow, Slow};

/// The command that reads beats of eight bytes.
pub const DECODE: Command = Command::Decode {
    width: Width::Eight,
};

/// The command that writes the outcomes of a schedule.
const RUN: Command = Command::Run {
    form: RunForm::Outcomes,
};

/// The command that writes the trace of a schedule.
const TRACED: Command = Command::Run {
    form: RunForm::Trace,
};

/// The line of a Get.
pub const GET: &[u8] = b"00 A 4 0 3 00 00000040 ff - 0\n";

/// The readable line of that Get.
pub const GET_TEXT: &[u8] =
    b"00 A Get 0 size=3 source=00 address=00000040 mask=ff data=- corrupt=0\n";

/// A trace without a fault, and a schedule.
const TRACE: &[u8] = b"tltrace 1 C
00 A 6 0 6 00 00000000 ff - 0
00 D 5 1 6 00 00 0 0000000000000000 0
00 D 5 1 6 00 00 0 0000000000000000 0
00 D 5 1 6 00 00 0 0000000000000000 0
00 D 5 1 6 00 00 0 0000000000000000 0
00 D 5 1 6 00 00 0 0000000000000000 0
00 D 5 1 6 00 00 0 0000000000000000 0
00 D 5 1 6 00 00 0 0000000000000000 0
00 D 5 1 6 00 00 0 0000000000000000 0
00 E 00
";

const SCHEDULE: &[u8] = b"tlsched 1 1 1 UL:1\n00 get 3 00000000\ndrain\n";

#[test]
fn a_fault_of_the_reader(rt: HostRuntime) -> Result<(), Fail> {
    let rows: [(Command, &[u8], &[u8]); 4] = [
        (DECODE, GET, GET_TEXT),
        (Command::Monitor, TRACE, b""),
        (
            RUN,
            SCHEDULE,
            b"started 00\n00 A 4 0 3 00 00000000 ff - 0\n00 D 1 0 3 00 00 0 0000000000000000 0 done 00 data 0000000000000000\ndrained 2\n",
        ),
        (
            TRACED,
            SCHEDULE,
            b"tltrace 1 UL\n00 A 4 0 3 00 00000000 ff - 0\n00 D 1 0 3 00 00 0 0000000000000000 0\n",
        ),
    ];
    for (command, input, text) in rows {
        let mut reader = Slow::new(input, true);
        let mut output = Vec::new(rt.alloc());
        let outcome = run_tool(rt.alloc(), command, &mut reader, &mut output);
        holds_in(&rt, outcome == Err(ToolFault::Read), &command);
        same_in(&rt, &exit_of(&outcome), &3, &command);
        same_in(&rt, &output.as_slice(), &text, &command);
    }
    Ok(())
}

#[test]
fn a_fault_of_the_writer(rt: HostRuntime) {
    let rows: [(Command, &[u8], &[u8]); 4] = [
        (DECODE, GET, b"00 A Get 0"),
        (Command::Monitor, TRACE, b"clean 1"),
        (RUN, SCHEDULE, b"started"),
        (TRACED, SCHEDULE, b"tltrace 1 U"),
    ];
    for (command, input, taken) in rows {
        for fails in [false, true] {
            let mut reader = input;
            let mut writer = Narrow::new(rt.alloc(), taken.len(), fails);
            let outcome = run_tool(rt.alloc(), command, &mut reader, &mut writer);
            holds_in(&rt, outcome == Err(ToolFault::Write), &command);
            same_in(&rt, &writer.taken.as_slice(), &taken, &command);
        }
    }
}

/// A reader that fails if it is asked for more than the line at fault: a short line, and one of 256 bytes without an
/// end.
#[test]
fn asks_for_nothing_after_the_fault(rt: HostRuntime) {
    let long = [b'0'; 256];
    let blank = [b' '; 256];
    let mut trace = [b' '; 268];
    trace[..12].copy_from_slice(b"tltrace 1 C\n");
    let mut schedule = [b' '; 275];
    schedule[..19].copy_from_slice(b"tlsched 1 1 1 UL:1\n");
    let rows: [(Command, &[u8], &[u8]); 12] = [
        (DECODE, b"x\n", b"line 1 F1\n"),
        (DECODE, &long, b"line 1 F1\n"),
        (Command::Monitor, b"x\n", b"line 1 F7\n"),
        (Command::Monitor, &blank, b"line 1 F7\n"),
        (Command::Monitor, &trace, b"line 2 F1\n"),
        (RUN, b"x\n", b"line 1 F7\n"),
        (RUN, &blank, b"line 1 F7\n"),
        (RUN, b"tlsched 1 1 1 UL:1\nx\n", b"line 2 F8\n"),
        (RUN, &schedule, b"line 2 F1\n"),
        (TRACED, b"x\n", b"line 1 F7\n"),
        (
            TRACED,
            b"tlsched 1 1 1 UL:1\nx\n",
            b"tltrace 1 UL\nline 2 F8\n",
        ),
        (TRACED, &schedule, b"tltrace 1 UL\nline 2 F1\n"),
    ];
    for (command, input, text) in rows {
        let mut reader = Slow::new(input, true);
        let mut output = Vec::new(rt.alloc());
        let outcome = run_tool(rt.alloc(), command, &mut reader, &mut output);
        holds_in(&rt, outcome == Ok(Status::Broken), &command);
        same_in(&rt, &output.as_slice(), &text, &command);
    }
}

/// If an allocation fails (`rt try --test --fail-alloc N`), nothing has been written.
#[test]
fn want_of_memory_is_no_verdict(rt: HostRuntime) {
    let mut reader = b"tltrace 1 C\n00 A 6 0 6 00 00000000 ff - 0\n00 E 00\n".as_slice();
    let mut writer = Narrow::new(rt.alloc(), 0, false);
    let outcome = run_tool(rt.alloc(), Command::Monitor, &mut reader, &mut writer);
    holds(
        &rt,
        outcome == Err(ToolFault::Write) || outcome == Err(ToolFault::Memory),
    );
}

#[test]
fn faults_as_text(rt: HostRuntime) -> Result<(), Fail> {
    let mut text = String::new(rt.alloc());
    write!(
        text,
        "{}|{}|{}",
        ToolFault::Memory,
        ToolFault::Read,
        ToolFault::Write
    )?;
    same(
        &rt,
        &text.as_str(),
        &"tltool: no memory|tltool: read failed|tltool: write failed",
    );
    let mut output = Vec::new(rt.alloc());
    holds(&rt, write_open_fault("beats.txt", &mut output) == Ok(()));
    same(
        &rt,
        &output.as_slice(),
        &b"tltool: cannot open beats.txt\n".as_slice(),
    );
    Ok(())
}
