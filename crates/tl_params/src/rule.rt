//! The rules that convict a beat, each with its chapter of the SiFive TileLink Specification 1.8.

ghost use Rattle.std.specs.Prelude.{◌≡◌};
ghost use Rattle.tl_params.specs.statement.Names.{rule_name};

/// A rule that a beat breaks. L rules judge a beat by level and channel alone, S1 judges it against its burst, and H
/// rules judge the first beat of a message against the history of its link. Agents add the A rules. A rule without a
/// chapter is this project's own choice.
#[derive(Clone, Copy, Debug, PartialEq, Eq)]
pub enum Rule {
    /// The beat isn't of the channel named, its opcode isn't of the level, or the link has no level ("Protocol
    /// Conformance Levels").
    L1,
    /// The opcode may not have this param, source or sink (the messages in the chapters on TL-UL, TL-UH and TL-C;
    /// sources and sinks: this project).
    L2,
    /// The opcode may not have this size at the level (the messages in the chapters on TL-UL, TL-UH and TL-C; at most a
    /// block: this project).
    L3,
    /// The address isn't a multiple of the size in bytes ("Operations and Messages", on addresses).
    L4,
    /// The mask doesn't fit address and size ("Serialization", on byte lanes).
    L5,
    /// Corrupt or denied is set and may not be ("Serialization", on errors).
    L6,
    /// An access forwarded on channel B, or the answer to one on channel C.
    L7,
    /// A beat differs from the first beat of its burst in a control field ("Serialization", on bursts).
    S1,
    /// The source is pending ("Operations and Messages", on source and sink identifiers).
    H1,
    /// The response answers no complete pending request ("Operations and Messages", on operations and on source and
    /// sink identifiers).
    H2,
    /// The size isn't that of the request (the responses in the chapters on TL-UL, TL-UH and TL-C).
    H3,
    /// An Acquire while an Acquire or a Release of the block is pending (chapter on TL-C, on
    /// concurrent transfers; from here to H13 likewise).
    H4,
    /// An Acquire whose grow doesn't fit the permission held.
    H5,
    /// A Grant whose cap or lack of data doesn't fit its Acquire, or a Grant while a Probe of the block is pending.
    H6,
    /// The sink of a Grant is pending ("Operations and Messages", on source and sink identifiers).
    H7,
    /// A GrantAck of no complete pending Grant.
    H8,
    /// A Probe while a Probe or a GrantAck of the block is pending.
    H9,
    /// A ProbeAck of no pending Probe, or with data for a ProbePerm.
    H10,
    /// A ProbeAck while a Release of the block is pending.
    H11,
    /// A ProbeAck whose param isn't the report of the Probe's cap and the permission held.
    H12,
    /// A Release while an Acquire or a Release of the block is pending, or one that doesn't start from the permission
    /// held.
    H13,
    /// The address is outside the map ("Architecture", on the address space).
    A1,
    /// Corrupt or denied is set.
    A2,
    /// The link is closed, or there is no such link.
    A3,
}

impl Rule {
    /// The rule's name.
    pub fn name(self) -> &'static str
        ensures { result.now ≡ rule_name self }
    {
        match self {
            Self::L1 => "L1",
            Self::L2 => "L2",
            Self::L3 => "L3",
            Self::L4 => "L4",
            Self::L5 => "L5",
            Self::L6 => "L6",
            Self::L7 => "L7",
            Self::S1 => "S1",
            Self::H1 => "H1",
            Self::H2 => "H2",
            Self::H3 => "H3",
            Self::H4 => "H4",
            Self::H5 => "H5",
            Self::H6 => "H6",
            Self::H7 => "H7",
            Self::H8 => "H8",
            Self::H9 => "H9",
            Self::H10 => "H10",
            Self::H11 => "H11",
            Self::H12 => "H12",
            Self::H13 => "H13",
            Self::A1 => "A1",
            Self::A2 => "A2",
            Self::A3 => "A3",
        }
    }
}
