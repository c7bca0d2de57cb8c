//! The sentence of each rule, as docs/PROTOCOL.md has it.

ghost use Rattle.std.specs.Prelude.{◌≡◌};
ghost use Rattle.tl_explain.specs.statement.Sentences.{messages_judged, rule_sentence};

use tl_params::rule::Rule;

/// The messages that an H rule judges; empty for another rule.
pub fn judged_messages(rule: Rule) -> &'static str
    ensures { result.now ≡ messages_judged rule }
{
    match rule {
        Rule::H1 => "requests on A, Release, ReleaseData",
        Rule::H2 | Rule::H3 => "messages on D",
        Rule::H4 | Rule::H5 => "Acquire",
        Rule::H6 | Rule::H7 => "Grant, GrantData",
        Rule::H8 => "GrantAck",
        Rule::H9 => "Probe",
        Rule::H10 | Rule::H11 | Rule::H12 => "ProbeAck, ProbeAckData",
        Rule::H13 => "Release, ReleaseData",
        _ => "",
    }
}

/// The condition under which a rule is broken.
pub fn sentence(rule: Rule) -> &'static str
    ensures { result.now ≡ rule_sentence rule }
{
    match rule {
        Rule::L1 => {
            "the beat isn't of the channel named, or the opcode isn't of the level, or the link has no level"
        }
        Rule::L7 => {
            "an access forwarded on B (opcodes 0 to 5), or its answer on C (opcodes 0 to 2), at level C: they are decoded, but not allowed"
        }
        Rule::L2 => {
            "param, or source or sink where they are fixed, isn't as the message's table has it"
        }
        Rule::L3 => "the size isn't one of the message's",
        Rule::L4 => "on A, B and C, the address isn't a multiple of the size",
        Rule::L5 => "on A and B, the mask isn't that of address and size",
        Rule::L6 => {
            "corrupt without data; denied on another message than AccessAck, AccessAckData, HintAck; denied without corrupt on AccessAckData"
        }
        Rule::S1 => {
            "a beat that continues a burst differs from the burst's first beat in opcode, param, size, source, address, sink or denied"
        }
        Rule::H1 => "the source is pending in its kind",
        Rule::H2 => "no complete pending request with that source may be answered so",
        Rule::H3 => "the size isn't the request's",
        Rule::H4 => "an Acquire or a Release of the block is pending",
        Rule::H5 => "NtoB or NtoT and something is held; BtoT and Trunk is held",
        Rule::H6 => {
            "the cap isn't toB for NtoB and toT for NtoT and BtoT; or Grant without data answers an AcquireBlock and Branch isn't held; or a Probe of the block is pending"
        }
        Rule::H7 => "the sink is pending",
        Rule::H8 => "no complete Grant with that sink is pending",
        Rule::H9 => "a Probe or a GrantAck of the block is pending",
        Rule::H10 => "no Probe of the block is pending, or ProbeAckData answers ProbePerm",
        Rule::H11 => "a Release of the block is pending",
        Rule::H12 => "the param isn't the report of the Probe's cap and the permission held",
        Rule::H13 => {
            "an Acquire or a Release of the block is pending, or the param's left end isn't the permission held"
        }
        Rule::A1 | Rule::A2 | Rule::A3 => "an agent's own rule, which no trace is judged by",
    }
}

/// The facts by which a rule is judged.
pub fn basis(rule: Rule) -> &'static str {
    match rule {
        Rule::L1 | Rule::L2 | Rule::L3 => "the beat by itself, and the level of its link",
        Rule::L4 | Rule::L5 | Rule::L6 | Rule::L7 => "the beat by itself",
        Rule::S1 => "the first beat of the burst that isn't complete on the channel",
        Rule::H1 => "the message that opened the source and hasn't been answered",
        Rule::H2 => "the last request with the source; for ReleaseAck the last Release",
        Rule::H3 => "the request with the source",
        Rule::H4 => "the Acquire and the Release of the block that are pending",
        Rule::H5 => "what the last Grant, ProbeAck or Release of the block left",
        Rule::H6 => "the request, the permission held of its block, and the pending Probe",
        Rule::H7 => "the Grant with the sink whose GrantAck is missing",
        Rule::H8 => "the last Grant with the sink",
        Rule::H9 => "the Probe that is pending, and the Grant whose GrantAck is missing",
        Rule::H10 => "the last Probe of the block",
        Rule::H11 => "the Release of the block that is pending",
        Rule::H12 => "the Probe with its cap, and the permission held of the block",
        Rule::H13 => "the pending transfers of the block, and the permission held of it",
        Rule::A1 | Rule::A2 | Rule::A3 => "the agent's own state",
    }
}
