//! A shortest trace that breaks each rule, and a right one beside it, as crates/tl_examples/data/rules has them.

use tl_params::rule::Rule;

/// A shortest trace whose last line breaks a rule, the mistake in that line, the right line instead, and a trace with
/// it.
#[derive(Clone, Copy)]
pub struct Example {
    pub wrong: &'static str,
    pub what: &'static str,
    pub instead: &'static str,
    pub right: &'static str,
}

/// The example of a rule that traces are judged by.
pub fn example_of(rule: Rule) -> Option<Example> {
    match rule {
        Rule::L1 | Rule::L2 | Rule::L3 | Rule::L4 | Rule::L5 | Rule::L6 | Rule::L7 | Rule::S1 =>
            example_of_a_beat(rule),
        _ => example_of_an_order(rule),
    }
}

fn example_of_a_beat(rule: Rule) -> Option<Example> {
    match rule {
        Rule::L1 => Some(Example {
            wrong: "tltrace 1 UL\n\
00 A 2 0 2 00 00000000 0f 0000000000000000 0\n",
            what: "an atomic, which a link of level UL has not",
            instead: "a link of level UH or C",
            right: "tltrace 1 UH\n\
00 A 2 0 2 00 00000000 0f 0000000000000000 0\n",
        }),
        Rule::L2 => Some(Example {
            wrong: "tltrace 1 UL\n\
00 A 4 1 3 00 00000000 ff - 0\n",
            what: "a Get whose param is 1",
            instead: "param 0",
            right: "tltrace 1 UL\n\
00 A 4 0 3 00 00000000 ff - 0\n",
        }),
        Rule::L3 => Some(Example {
            wrong: "tltrace 1 UL\n\
00 A 4 0 4 00 00000000 ff - 0\n",
            what: "a Get of 16 bytes, more than one beat at UL",
            instead: "a link of level UH, or size 3",
            right: "tltrace 1 UH\n\
00 A 4 0 4 00 00000000 ff - 0\n",
        }),
        Rule::L4 => Some(Example {
            wrong: "tltrace 1 UL\n\
00 A 4 0 1 00 00000001 06 - 0\n",
            what: "two bytes at the odd address 1",
            instead: "address 2, with mask 0c",
            right: "tltrace 1 UL\n\
00 A 4 0 1 00 00000002 0c - 0\n",
        }),
        Rule::L5 => Some(Example {
            wrong: "tltrace 1 UL\n\
00 A 4 0 2 00 00000004 0f - 0\n",
            what: "four bytes at 4, with the mask of address 0",
            instead: "mask f0",
            right: "tltrace 1 UL\n\
00 A 4 0 2 00 00000004 f0 - 0\n",
        }),
        Rule::L6 => Some(Example {
            wrong: "tltrace 1 UL\n\
00 A 4 0 3 00 00000000 ff - 1\n",
            what: "corrupt on a message without data",
            instead: "corrupt 0",
            right: "tltrace 1 UL\n\
00 A 4 0 3 00 00000000 ff - 0\n",
        }),
        Rule::L7 => Some(Example {
            wrong: "tltrace 1 C\n\
00 B 4 0 3 00 00000000 ff - 0\n",
            what: "a Get forwarded on channel B",
            instead: "a Probe: forwarded accesses are not taken here",
            right: "tltrace 1 C\n\
00 B 6 2 6 00 00000000 ff - 0\n",
        }),
        Rule::S1 => Some(Example {
            wrong: "tltrace 1 UH\n\
00 A 0 0 4 00 00000000 ff 0000000000000000 0\n\
00 A 0 0 4 01 00000000 ff 0000000000000000 0\n",
            what: "the second beat of a PutFullData has another source than the first",
            instead: "the same source in each beat",
            right: "tltrace 1 UH\n\
00 A 0 0 4 00 00000000 ff 0000000000000000 0\n\
00 A 0 0 4 00 00000000 ff 0000000000000000 0\n",
        }),
        _ => None,
    }
}

fn example_of_an_order(rule: Rule) -> Option<Example> {
    match rule {
        Rule::H1 => Some(Example {
            wrong: "tltrace 1 UL\n\
00 A 4 0 3 00 00000000 ff - 0\n\
00 A 4 0 3 00 00000000 ff - 0\n",
            what: "a second Get with source 00, before the first was answered",
            instead: "a source that is free, as 01",
            right: "tltrace 1 UL\n\
00 A 4 0 3 00 00000000 ff - 0\n\
00 A 4 0 3 01 00000000 ff - 0\n",
        }),
        Rule::H2 => Some(Example {
            wrong: "tltrace 1 UL\n\
00 D 0 0 0 00 00 0 - 0\n",
            what: "an AccessAck that answers no request",
            instead: "the PutFullData before it",
            right: "tltrace 1 UL\n\
00 A 0 0 0 00 00000000 01 0000000000000000 0\n\
00 D 0 0 0 00 00 0 - 0\n",
        }),
        Rule::H3 => Some(Example {
            wrong: "tltrace 1 UL\n\
00 A 4 0 3 00 00000000 ff - 0\n\
00 D 1 0 2 00 00 0 0000000000000000 0\n",
            what: "an answer of 4 bytes to a Get of 8",
            instead: "the size of the Get, 3",
            right: "tltrace 1 UL\n\
00 A 4 0 3 00 00000000 ff - 0\n\
00 D 1 0 3 00 00 0 0000000000000000 0\n",
        }),
        Rule::H4 => Some(Example {
            wrong: "tltrace 1 C\n\
00 A 7 1 6 00 00000000 ff - 0\n\
00 A 7 1 6 01 00000000 ff - 0\n",
            what: "a second Acquire of block 0, before the first was granted",
            instead: "an Acquire of another block",
            right: "tltrace 1 C\n\
00 A 7 1 6 00 00000000 ff - 0\n\
00 A 7 1 6 01 00000040 ff - 0\n",
        }),
        Rule::H5 => Some(Example {
            wrong: "tltrace 1 C\n\
00 A 7 1 6 00 00000000 ff - 0\n\
00 D 4 0 6 00 00 0 - 0\n\
00 A 7 1 6 00 00000000 ff - 0\n",
            what: "an Acquire NtoT of a block that is held as Trunk already",
            instead: "an Acquire of a block that is not held",
            right: "tltrace 1 C\n\
00 A 7 1 6 00 00000000 ff - 0\n\
00 D 4 0 6 00 00 0 - 0\n\
00 A 7 1 6 00 00000040 ff - 0\n",
        }),
        Rule::H6 => Some(Example {
            wrong: "tltrace 1 C\n\
00 A 7 1 6 00 00000000 ff - 0\n\
00 D 4 1 6 00 00 0 - 0\n",
            what: "a Grant toB that answers an Acquire NtoT",
            instead: "a Grant toT",
            right: "tltrace 1 C\n\
00 A 7 1 6 00 00000000 ff - 0\n\
00 D 4 0 6 00 00 0 - 0\n",
        }),
        Rule::H7 => Some(Example {
            wrong: "tltrace 1 C\n\
00 A 7 1 6 00 00000000 ff - 0\n\
00 D 4 0 6 00 00 0 - 0\n\
00 A 7 1 6 00 00000040 ff - 0\n\
00 D 4 0 6 00 00 0 - 0\n",
            what: "a Grant with sink 00, whose GrantAck is missing",
            instead: "a sink that is free, as 01",
            right: "tltrace 1 C\n\
00 A 7 1 6 00 00000000 ff - 0\n\
00 D 4 0 6 00 00 0 - 0\n\
00 A 7 1 6 00 00000040 ff - 0\n\
00 D 4 0 6 00 01 0 - 0\n",
        }),
        Rule::H8 => Some(Example {
            wrong: "tltrace 1 C\n\
00 E 00\n",
            what: "a GrantAck that acknowledges no Grant",
            instead: "the Acquire and the Grant before it",
            right: "tltrace 1 C\n\
00 A 7 1 6 00 00000000 ff - 0\n\
00 D 4 0 6 00 00 0 - 0\n\
00 E 00\n",
        }),
        Rule::H9 => Some(Example {
            wrong: "tltrace 1 C\n\
00 B 6 2 6 00 00000000 ff - 0\n\
00 B 6 2 6 00 00000000 ff - 0\n",
            what: "a second Probe of block 0, before the first was answered",
            instead: "the ProbeAck between them",
            right: "tltrace 1 C\n\
00 B 6 2 6 00 00000000 ff - 0\n\
00 C 4 5 6 00 00000000 - 0\n\
00 B 6 2 6 00 00000000 ff - 0\n",
        }),
        Rule::H10 => Some(Example {
            wrong: "tltrace 1 C\n\
00 C 4 5 6 00 00000000 - 0\n",
            what: "a ProbeAck that answers no Probe",
            instead: "the Probe before it",
            right: "tltrace 1 C\n\
00 B 6 2 6 00 00000000 ff - 0\n\
00 C 4 5 6 00 00000000 - 0\n",
        }),
        Rule::H11 => Some(Example {
            wrong: "tltrace 1 C\n\
00 A 7 1 6 00 00000000 ff - 0\n\
00 D 4 0 6 00 00 0 - 0\n\
00 E 00\n\
00 C 6 1 6 00 00000000 - 0\n\
00 B 6 2 6 00 00000000 ff - 0\n\
00 C 4 5 6 00 00000000 - 0\n",
            what: "a ProbeAck while the Release of the block is pending",
            instead: "the ReleaseAck between the Probe and its ProbeAck",
            right: "tltrace 1 C\n\
00 A 7 1 6 00 00000000 ff - 0\n\
00 D 4 0 6 00 00 0 - 0\n\
00 E 00\n\
00 C 6 1 6 00 00000000 - 0\n\
00 B 6 2 6 00 00000000 ff - 0\n\
00 D 6 0 6 00 00 0 - 0\n\
00 C 4 5 6 00 00000000 - 0\n",
        }),
        Rule::H12 => Some(Example {
            wrong: "tltrace 1 C\n\
00 B 6 2 6 00 00000000 ff - 0\n\
00 C 4 1 6 00 00000000 - 0\n",
            what: "a ProbeAck that reports TtoN where nothing is held",
            instead: "the report NtoN, 5",
            right: "tltrace 1 C\n\
00 B 6 2 6 00 00000000 ff - 0\n\
00 C 4 5 6 00 00000000 - 0\n",
        }),
        Rule::H13 => Some(Example {
            wrong: "tltrace 1 C\n\
00 C 6 1 6 00 00000000 - 0\n",
            what: "a Release TtoN of a block that is not held as Trunk",
            instead: "the Acquire and the Grant of the block before it",
            right: "tltrace 1 C\n\
00 A 7 1 6 00 00000000 ff - 0\n\
00 D 4 0 6 00 00 0 - 0\n\
00 C 6 1 6 00 00000000 - 0\n",
        }),
        _ => None,
    }
}
