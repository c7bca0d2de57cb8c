//! The help after the options of each command: its codes, its exit status, and examples.

/// The help on `--width`.
pub const WIDTH: &str = "Bytes of data per beat: 4, 8 or 16 [default: 8]";

/// The help on `--wide`.
pub const WIDE: &str = "Read lines of wide beats: 16 digits of address, 4 of source and of sink";

/// The help on `--width` of `decode`.
pub const DECODED_WIDTH: &str =
    "Bytes of data per beat: 4, 8 or 16; with --wide also 32 or 64 [default: 8]";

/// The help on `--clients`.
pub const CLIENTS: &str =
    "1 to 16 clients, each a level (UL, UH or C) and a number of sources (1 to 8) [default: C:2,C:2,C:2,UH:1]";

/// The help on `--blocks`.
pub const BLOCKS: &str = "Number of blocks in memory, 1 to 1024 [default: 2]";

/// The help on `--trackers`.
pub const TRACKERS: &str = "Number of trackers in the manager, 1 to 8 [default: 2]";

/// The help on `--profile`.
pub const PROFILE: &str = "Profile of rules, 1 or 2 [default: 1]";

/// The help on `--contend`.
pub const CONTEND: &str =
    "Number of blocks, from the first on, that most operations use [default: 2, or all if there are fewer]";

/// The help on `--lines`.
pub const LINES: &str = "First and last line to draw [default: the first 200 messages]";

/// The help on `--block`.
pub const BLOCK: &str =
    "Draw only this block, with each client's permission of it: three or seven hexadecimal digits";

/// The help after the options of a command: a text about its codes, the codes that it can write, each with its meaning,
/// the exit status, and examples.
macro_rules! outcomes {
    ($($said:literal,)* ; $($code:literal,)* ; $($example:literal,)*) => {
        concat!(
            "Codes: the first line at fault is reported as `line N X`: N is its number, X one of these codes.\n",
            $($said,)*
            $($code,)*
            "\nExit status:\n",
            "  0  no line is at fault, or help was requested\n",
            "  1  `line N X` was written\n",
            "  2  the command line is not of the form above\n",
            "  3  there is no memory, or a file can't be opened, read or written. A directory can be opened, but\n",
            "     not read. Writing fails if the program that reads the output has ended\n",
            "\nExamples, in the folder of examples (crates/tl_examples/data):",
            $($example,)*
        )
    };
}

/// The help after the commands of the program.
pub const TOOL: &str =
    "Codes: each command reports the first line at fault as `line N X`: N is its number, X its code.
`tltool explain X` says what X means, `tltool COMMAND --help` lists the codes of a command, and
`tltool explain FILE` says why a line of a trace is at fault.
  F1 to F6      the line is not a beat
  F7            the first line is not a header
  F8            the line is not an event (`run`)
  F9            a wide trace has too many blocks, sources or sinks (`monitor`, `coherent`, `explain`,
                `cover`)
  L1 to L7      the beat is not legal by itself
  S1            the beat does not continue its burst
  H1 to H13     the beat breaks the order of messages
  M1 to M4      the beat breaks a rule of memory, between links (`coherent`)
  M5 to M7      a store, a load, or a beat beside them breaks a rule of the copies (`coherent`)

Exit status:
  0  no line is at fault, or help or the version was requested
  1  `line N X` was written
  2  the command line is not of the form above
  3  there is no memory, or a file can't be opened, read or written. A directory can be opened, but
     not read. Writing fails if the program that reads the output has ended

Examples, in the folder of examples (crates/tl_examples/data):
  printf '00 A 4 0 3 00 00000040 ff - 0\\n' | tltool decode
  tltool monitor two_caches.trace
  tltool coherent rules/M1.trace
  tltool explain wrong_report.trace
  tltool explain H12
  tail -n +2 two_caches.trace | tltool decode
  tltool run --trace schedules/a_writer_becomes_a_reader.schedule | tltool monitor
  tltool random --seed 1 | tltool run --trace | tltool monitor";

/// The help after the options of `decode`.
pub const DECODE: &str = outcomes!(
    "`tltool explain X` says what X means.\n",
    ;
    "  F1   more than 256 bytes, or the last byte isn't LF, or fewer than two fields; or the number\n",
    "       of fields isn't the channel's\n",
    "  F2   the second field isn't one of the letters A to E\n",
    "  F3   a field isn't of its form: lower-case digits of the wanted number, 0 or 1, or DATA\n",
    "  F4   the opcode isn't in use\n",
    "  F5   the param is over 7 on A, B and C, or over 3 on D\n",
    "  F6   digits where the opcode carries no data, or `-` where it does\n",
    ;
    "\n  printf '00 A 4 0 3 00 00000040 ff - 0\\n' | tltool decode",
    "\n  tltool decode beats.txt",
    "\n  tail -n +2 two_caches.trace | tltool decode",
    "\n  tail -n +2 wide/two_caches.trace | tltool decode --wide --width 32",
);

/// The same for a command that judges traces: the codes of a line and of a link, and then its own.
macro_rules! outcomes_of_a_trace {
    ($($said:literal,)* ; $($code:literal,)* ; $($example:literal,)*) => {
        outcomes!(
            $($said,)*
            ;
            "  F1   more than 256 bytes, or the last byte isn't LF, or fewer than two fields; or the number\n",
            "       of fields isn't the channel's\n",
            "  F2   the second field isn't one of the letters A to E\n",
            "  F3   a field isn't of its form: lower-case digits of the wanted number, 0 or 1, or DATA\n",
            "  F4   the opcode isn't in use\n",
            "  F5   the param is over 7 on A, B and C, or over 3 on D\n",
            "  F6   digits where the opcode carries no data, or `-` where it does\n",
            "  F7   the first line is no header\n",
            "  L1   the beat isn't of the channel named, or the opcode isn't of the level, or the link has\n",
            "       no level\n",
            "  L2   param, or source or sink where they are fixed, isn't as the message's table has it\n",
            "  L3   the size isn't one of the message's\n",
            "  L4   on A, B and C, the address isn't a multiple of the size\n",
            "  L5   on A and B, the mask isn't that of address and size\n",
            "  L6   corrupt without data; denied on another message than AccessAck, AccessAckData, HintAck;\n",
            "       denied without corrupt on AccessAckData\n",
            "  L7   an access forwarded on B (opcodes 0 to 5), or its answer on C (opcodes 0 to 2), at level\n",
            "       C: they are decoded, but not allowed\n",
            "  S1   a beat that continues a burst differs from the burst's first beat in opcode, param,\n",
            "       size, source, address, sink or denied\n",
            "  H1   the source is pending in its kind\n",
            "  H2   no complete pending request with that source may be answered so\n",
            "  H3   the size isn't the request's\n",
            "  H4   an Acquire or a Release of the block is pending\n",
            "  H5   NtoB or NtoT and something is held; BtoT and Trunk is held\n",
            "  H6   the cap isn't toB for NtoB and toT for NtoT and BtoT; or Grant without data answers an\n",
            "       AcquireBlock and Branch isn't held; or a Probe of the block is pending\n",
            "  H7   the sink is pending\n",
            "  H8   no complete Grant with that sink is pending\n",
            "  H9   a Probe or a GrantAck of the block is pending\n",
            "  H10  no Probe of the block is pending, or ProbeAckData answers ProbePerm\n",
            "  H11  a Release of the block is pending\n",
            "  H12  the param isn't the report of the Probe's cap and the permission held\n",
            "  H13  an Acquire or a Release of the block is pending, or the param's left end isn't the\n",
            "       permission held\n",
            $($code,)*
            ;
            $($example,)*
        )
    };
}

/// The same for a command that also judges all links of a manager together.
macro_rules! outcomes_of_all_links {
    ($($said:literal,)* ; $($code:literal,)* ; $($example:literal,)*) => {
        outcomes_of_a_trace!(
            $($said,)*
            ;
            "  M1   the cap is toT and another link holds or is being granted a permission of the block, or\n",
            "       toB and another link holds or is being granted Trunk of it\n",
            "  M2   a byte has a value that neither the data seen before the first beat nor a pending Put or\n",
            "       atomic allows\n",
            "  M3   a requested byte has a value that neither the data seen nor a pending Put or atomic allows\n",
            "       in any window of the access\n",
            "  M4   at every moment since the request was complete some link held a conflicting permission: for\n",
            "       a Get Trunk of the block, and no report has shown its bytes; for a Put or an atomic any\n",
            "       permission of it\n",
            $($code,)*
            ;
            $($example,)*
        )
    };
}

/// The help after the options of `monitor`.
pub const TRACE: &str = outcomes_of_a_trace!(
    "`tltool explain FILE` says why it is at fault.\n",
    ;
    "  F9   more than 2^26 blocks, 256 sources of a link or 256 sinks\n",
    ;
    "\n  tltool monitor two_caches.trace",
    "\n  tltool explain wrong_report.trace",
    "\n  tltool explain H12",
    "\n  tltool run --trace schedules/a_writer_becomes_a_reader.schedule | tltool monitor",
);

/// The help after the options of `coherent`.
pub const TOGETHER: &str = outcomes_of_all_links!(
    "It checks the rules of each link, M1 to M4 between the links, and M5 to M7 of stores and loads.\n",
    "`tltool explain --coherent FILE` says why a line is at fault, `tltool explain M1` what M1 means.\n",
    ;
    "  M5   for S, the link doesn't hold Trunk of the block, or its data are under way in a GrantData, a\n",
    "       ProbeAckData or a ReleaseData; for L, the link holds nothing of the block, and no GrantData\n",
    "       under way has brought the bytes, at every moment since the I line if there is one\n",
    "  M6   a byte isn't one that it may be, at every moment since the I line if there is one at which\n",
    "       the link held the block; not judged where the link holds Trunk and isn't C+\n",
    "  M7   a byte of the data isn't one that it may be; or Trunk goes without data, and a byte that was\n",
    "       stored can't be what memory has; not judged where the link isn't C+\n",
    "  F9   more than 2^26 blocks, 256 sources of a link or 256 sinks\n",
    ;
    "\n  tltool coherent two_caches.trace",
    "\n  tltool coherent rules/M1.trace",
    "\n  tltool explain --coherent rules/M1.trace",
    "\n  tltool run --trace schedules/a_writer_becomes_a_reader.schedule | tltool coherent",
);

/// The help on `--allow`.
pub const ALLOW: &str =
    "Liberties to allow in addition to the header's: none, standard, or names of ids, sinks, writer, early, drops, reports, denied and uncorrupt, in this order, with a comma between them";

/// The help on `--all`.
pub const ALL: &str =
    "Continue after a line at fault without its beat, and stop at the Nth such line; `faults M` counts them";

/// The help on `--report`.
pub const REPORT: &str =
    "Write a report in JSON to FILE: the faults, the beats by link and message, and the input's SHA-256";

/// The help on `--junit`.
pub const JUNIT: &str = "Write a JUnit report in XML to FILE: a test case for each line at fault";

/// The help on `--coherent`.
pub const COHERENT: &str = "Check all links of a manager together, as `coherent` does";

/// The help after the options of `explain`.
pub const EXPLAIN: &str = outcomes_of_all_links!(
    "M1 to M4 are checked only with `--coherent`.\n",
    ;
    "  F9   more than 2^26 blocks, 256 sources of a link or 256 sinks\n",
    ;
    "\n  tltool explain wrong_report.trace",
    "\n  tltool explain --coherent rules/M1.trace",
    "\n  tltool explain H12",
);

/// The help after the options of `chart`.
pub const CHART: &str = outcomes_of_a_trace!(
    "The chart has this text below its last row, and the beat at fault in red. `tltool explain FILE`\n",
    "says why it is at fault.\n",
    ;
    ;
    "\n  tltool chart two_caches.trace >two_caches.svg",
    "\n  tltool chart --block 000 --lines 14-30 two_caches.trace >block.svg",
    "\n  tltool run --trace schedules/a_release_races_with_a_probe.schedule | tltool chart >race.svg",
);

/// The help on `--times`.
pub const TIMES: &str =
    "Write the time of each line that is cited: FILE has a number a line, from the trace's second line on";

/// The help on `--tables`.
pub const TABLES: &str =
    "Write the tables of each link too: messages by opcode, param and bytes, and by the permission held before";

/// The help after the options of `cover`.
pub const COVER: &str = outcomes_of_a_trace!(
    "Situations are counted up to that line. `tltool explain FILE` says why it is at fault.\n",
    ;
    "  F9   more than 2^26 blocks, 256 sources of a link or 256 sinks\n",
    ;
    "\n  tltool cover two_caches.trace",
    "\n  tltool cover --tables two_caches.trace",
    "\n  tltool cover --json two_caches.trace wrong_report.trace",
    "\n  tltool random --seed 1 | tltool run --trace | tltool cover --json",
);

/// The help on `--commits`.
pub const COMMITS: &str =
    "With --trace: write the stores and loads of the clients of level C too, which `coherent` checks";

/// The help after the options of `run`.
pub const RUN: &str = outcomes!(
    "`tltool explain X` says what X means.\n",
    ;
    "  F1   more than 256 bytes, or the last byte isn't LF\n",
    "  F7   the first line is no header\n",
    "  F8   the line of a schedule says no event\n",
    ;
    "\n  tltool run schedules/a_part_of_a_word.schedule",
    "\n  tltool run --trace schedules/a_writer_becomes_a_reader.schedule | tltool monitor",
    "\n  tltool run --trace --commits schedules/a_writer_becomes_a_reader.schedule | tltool coherent",
);

/// The help after the options of `random`.
pub const RANDOM: &str =
    "The schedule is a header, N lines, and a last `drain`. Each line is `drain`, or an event for the
clients of the header. The command runs each event before it chooses the next, so that most events
have an effect: about a tenth are busy, missing or empty. The same options write the same bytes.

Exit status:
  0  the schedule was written, or help was requested
  2  the command line is not of the form above
  3  there is no memory, or writing failed. Writing fails if the program that reads the output has
     ended

Examples:
  tltool random --seed 1 | tltool run --trace | tltool monitor
  tltool random --seed 2 --events 100000 --clients C:8,C:8,UL:2 --blocks 16 --contend 4
  tltool random --seed 3 --width 16 --profile 2 | tltool run";
