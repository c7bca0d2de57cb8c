//! The sentence of each rule between links, as docs/PROTOCOL.md has it, with a shortest trace that breaks it, as
//! crates/tl_examples/data/rules has it.

ghost use Rattle.tl_explain.specs.code.Said.{Says};

use crate::example::Example;
use tl_rules::memory_rule::MemoryRule;

/// The rules between links.
const RULES: [MemoryRule; 4] = [
    MemoryRule::M1,
    MemoryRule::M2,
    MemoryRule::M3,
    MemoryRule::M4,
];

/// The explanation of a rule between links: the messages that it judges, the condition under which it is broken, the
/// facts by which it is judged, and its example.
#[derive(Clone, Copy)]
pub struct Explanation {
    pub messages: &'static str,
    pub sentence: &'static str,
    pub basis: &'static str,
    pub example: Example,
}

/// The rule of this name.
pub fn rule_named(name: &str) -> Option<MemoryRule> {
    for rule in RULES {
        if rule.name() == name {
            return Some(rule);
        }
    }
    None
}

/// The explanation of a rule.
pub fn explanation_of(rule: MemoryRule) -> Explanation
    ensures { Says rule result }
{
    match rule {
        MemoryRule::M1 => grant_beside_a_holder(),
        MemoryRule::M2 => stale_grant(),
        MemoryRule::M3 => stale_answer(),
        MemoryRule::M4 => answer_without_a_window(),
    }
}

fn grant_beside_a_holder() -> Explanation
    ensures { Says MemoryRule.M1 result }
{
    Explanation {
        messages: "Grant, GrantData",
        sentence: "the cap is toT and another link holds or is being granted a permission of the block, or toB and another link holds or is being granted Trunk of it",
        basis: "what the last Grant, ProbeAck or Release of the block left on each other link, and a Grant of it that has begun there",
        example: Example {
            wrong: "tltrace 1 C C\n\
00 A 7 1 6 00 00000000 ff - 0\n\
00 D 4 0 6 00 00 0 - 0\n\
01 A 7 1 6 00 00000000 ff - 0\n\
01 D 4 0 6 00 01 0 - 0\n",
            what: "a Grant toT, while link 00 holds the block as Trunk",
            instead: "a Probe of link 00 and its report before it",
            right: "tltrace 1 C C\n\
00 A 7 1 6 00 00000000 ff - 0\n\
00 D 4 0 6 00 00 0 - 0\n\
00 E 00\n\
01 A 7 1 6 00 00000000 ff - 0\n\
00 B 7 2 6 00 00000000 ff - 0\n\
00 C 4 1 6 00 00000000 - 0\n\
01 D 4 0 6 00 01 0 - 0\n",
        },
    }
}

fn stale_grant() -> Explanation
    ensures { Says MemoryRule.M2 result }
{
    Explanation {
        messages: "GrantData",
        sentence: "a byte has a value that neither the data seen before the first beat nor a pending Put or atomic allows",
        basis: "the data given back or granted, the answers to Puts and atomics, and the pending ones that have had a moment at which no link held the block",
        example: Example {
            wrong: "tltrace 1 UL C\n\
00 A 0 0 3 00 00000000 ff 0000000000000005 0\n\
00 D 0 0 3 00 00 0 - 0\n\
01 A 6 0 6 00 00000000 ff - 0\n\
01 D 5 1 6 00 00 0 0000000000000000 0\n",
            what: "a GrantData with 00 at address 0, where an answered Put wrote 05",
            instead: "the 05 that was written",
            right: "tltrace 1 UL C\n\
00 A 0 0 3 00 00000000 ff 0000000000000005 0\n\
00 D 0 0 3 00 00 0 - 0\n\
01 A 6 0 6 00 00000000 ff - 0\n\
01 D 5 1 6 00 00 0 0000000000000005 0\n",
        },
    }
}

fn stale_answer() -> Explanation
    ensures { Says MemoryRule.M3 result }
{
    Explanation {
        messages: "AccessAckData",
        sentence: "a requested byte has a value that neither the data seen nor a pending Put or atomic allows in any window of the access",
        basis: "the data given back or granted, the answers to Puts and atomics, and those that were pending",
        example: Example {
            wrong: "tltrace 1 UL UL\n\
00 A 0 0 3 00 00000000 ff 0000000000000005 0\n\
00 D 0 0 3 00 00 0 - 0\n\
01 A 4 0 3 00 00000000 ff - 0\n\
01 D 1 0 3 00 00 0 0000000000000000 0\n",
            what: "the answer to a Get with 00 at address 0, where an answered Put wrote 05",
            instead: "the 05 that was written",
            right: "tltrace 1 UL UL\n\
00 A 0 0 3 00 00000000 ff 0000000000000005 0\n\
00 D 0 0 3 00 00 0 - 0\n\
01 A 4 0 3 00 00000000 ff - 0\n\
01 D 1 0 3 00 00 0 0000000000000005 0\n",
        },
    }
}

fn answer_without_a_window() -> Explanation
    ensures { Says MemoryRule.M4 result }
{
    Explanation {
        messages: "AccessAck, AccessAckData",
        sentence: "at every moment since the request was complete some link held a conflicting permission: for a Get Trunk of the block, and no report has shown its bytes; for a Put or an atomic any permission of it",
        basis: "the permission that each link has held of the block since the request was complete, and the reports that showed its bytes",
        example: Example {
            wrong: "tltrace 1 C UL\n\
00 A 7 1 6 00 00000000 ff - 0\n\
00 D 4 0 6 00 00 0 - 0\n\
01 A 4 0 3 00 00000000 ff - 0\n\
01 D 1 0 3 00 00 0 0000000000000000 0\n",
            what: "the answer to a Get, while link 00 holds the block as Trunk",
            instead: "a Probe of link 00 and its report before it",
            right: "tltrace 1 C UL\n\
00 A 7 1 6 00 00000000 ff - 0\n\
00 D 4 0 6 00 00 0 - 0\n\
00 E 00\n\
01 A 4 0 3 00 00000000 ff - 0\n\
00 B 7 1 6 00 00000000 ff - 0\n\
00 C 4 0 6 00 00000000 - 0\n\
01 D 1 0 3 00 00 0 0000000000000000 0\n",
        },
    }
}
