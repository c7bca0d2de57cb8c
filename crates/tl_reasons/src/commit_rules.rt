//! The sentence of each rule of stores and loads, as docs/PROTOCOL.md has it, with a shortest trace that breaks it, as
//! crates/tl_examples/data/rules has it.

ghost use Rattle.std.specs.Prelude.{◌≡◌, ◌++◌, OnOk};
ghost use Rattle.tl_reasons.specs.statement.CommitSentences.{commit_rule_line, commit_sentence, events_judged};

use std::alloc::AllocError;
use tl_events::rule::CommitRule;

/// The rules of stores and loads.
const RULES: [CommitRule; 3] = [CommitRule::M5, CommitRule::M6, CommitRule::M7];

/// The rule of this name.
pub fn rule_named(name: &str) -> Option<CommitRule> {
    for rule in RULES {
        if rule.name() == name {
            return Some(rule);
        }
    }
    None
}

/// The events that a rule judges.
fn events_judged(rule: CommitRule) -> &'static str
    ensures { result.now ≡ events_judged rule }
{
    match rule {
        CommitRule::M5 => "S, L",
        CommitRule::M6 => "L",
        CommitRule::M7 => "ProbeAck, ProbeAckData, Release, ReleaseData, Acquire",
    }
}

/// The condition under which a rule is broken.
fn sentence(rule: CommitRule) -> &'static str
    ensures { result.now ≡ commit_sentence rule }
{
    match rule {
        CommitRule::M5 => {
            "for S, the link doesn't hold Trunk of the block, or its data are under way in a GrantData, a ProbeAckData or a ReleaseData; for L, the link holds nothing of the block, and no GrantData under way has brought the bytes, at every moment since the I line if there is one"
        }
        CommitRule::M6 => {
            "a byte isn't one that it may be, at every moment since the I line if there is one at which the link held the block; not judged where the link holds Trunk and isn't C+"
        }
        CommitRule::M7 => {
            "a byte of the data isn't one that it may be; or Trunk goes without data, and a byte that was stored can't be what memory has; not judged where the link isn't C+"
        }
    }
}

/// The lines of an explanation after the first: the facts by which the rule is judged, a shortest trace that breaks it,
/// and the nearest right one.
pub fn grounds(rule: CommitRule) -> &'static str {
    match rule {
        CommitRule::M5 => {
            "judged by: what the last Grant, ProbeAck or Release of the block left on the link, and its data under way\n\
a shortest trace that breaks it, in its last line (a store, while link 00 holds the block as Branch):\n  \
tltrace 4 8 none C+\n  \
00 A 7 0 6 00 00000000 ff - 0\n  \
00 D 4 1 6 00 00 0 - 0\n  \
00 E 00\n  \
00 S 0 00000000 05\n\
right instead (a Grant toT before it):\n  \
tltrace 4 8 none C+\n  \
00 A 7 1 6 00 00000000 ff - 0\n  \
00 D 4 0 6 00 00 0 - 0\n  \
00 E 00\n  \
00 S 0 00000000 05\n"
        }
        CommitRule::M6 => {
            "judged by: the data given back or granted, the stores and loads of all cores, and the answers to Puts and atomics\n\
a shortest trace that breaks it, in its last line (a load of 06 from address 0, where the core stored 05):\n  \
tltrace 4 8 none C+\n  \
00 A 7 1 6 00 00000000 ff - 0\n  \
00 D 4 0 6 00 00 0 - 0\n  \
00 E 00\n  \
00 S 0 00000000 05\n  \
00 L 0 00000000 06\n\
right instead (a load of the 05 that was stored):\n  \
tltrace 4 8 none C+\n  \
00 A 7 1 6 00 00000000 ff - 0\n  \
00 D 4 0 6 00 00 0 - 0\n  \
00 E 00\n  \
00 S 0 00000000 05\n  \
00 L 0 00000000 05\n"
        }
        CommitRule::M7 => {
            "judged by: the data given back or granted, the stores and loads of all cores, and the answers to Puts and atomics; without data also what memory may have if no copy is given back\n\
a shortest trace that breaks it, in its last line (a ReleaseData with 06 at address 0, where the core stored 05):\n  \
tltrace 4 8 none C+\n  \
00 A 7 1 6 00 00000000 ff - 0\n  \
00 D 4 0 6 00 00 0 - 0\n  \
00 E 00\n  \
00 S 0 00000000 05\n  \
00 C 7 1 6 00 00000000 0000000000000006 0\n\
right instead (the 05 that was stored):\n  \
tltrace 4 8 none C+\n  \
00 A 7 1 6 00 00000000 ff - 0\n  \
00 D 4 0 6 00 00 0 - 0\n  \
00 E 00\n  \
00 S 0 00000000 05\n  \
00 C 7 1 6 00 00000000 0000000000000005 0\n"
        }
    }
}

#[tactic(auto, unfolding(crate::specs::statement::CommitSentences::commit_rule_line))]
/// Appends the name of a rule of stores and loads, the events that it judges, and its sentence. The error means that
/// there is no memory left; then a part of the line may have been appended.
pub fn append_commit_sentence(rule: CommitRule, out: &mut Vec<u8>) -> Result<(), AllocError>
    ensures { OnOk result (out.new.items ≡ out.old.items ++ commit_rule_line rule) }
{
    out.extend_from_slice(rule.name().as_bytes())?;
    out.extend_from_slice(b" (")?;
    out.extend_from_slice(events_judged(rule).as_bytes())?;
    out.extend_from_slice(b"): ")?;
    out.extend_from_slice(sentence(rule).as_bytes())?;
    out.push(b'\n')?;
    Ok(())
}
