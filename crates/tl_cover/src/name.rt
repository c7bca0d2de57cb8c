//! The names of situations in the report, and their sentences.

ghost use Rattle.std.specs.Prelude.{◌≡◌, ◌++◌, OnOk, option_map};
ghost use Rattle.tl_cover.specs.statement.Names;

use crate::situation::{Bytes, Depth, Lanes, Pending, Situation, Wait};
use std::alloc::AllocError;

impl Lanes {
    /// The lanes in the name of a situation.
    pub fn name(self) -> &'static str
        ensures { result.now ≡ Names.lanes_name self }
    {
        match self {
            Self::Empty => "empty",
            Self::Partial => "partial",
            Self::Full => "full",
        }
    }
}

impl Bytes {
    /// The number of bytes in the name of a situation.
    pub fn name(self) -> &'static str
        ensures { result.now ≡ Names.bytes_name self }
    {
        match self {
            Self::One => "1",
            Self::Two => "2",
            Self::Four => "4",
            Self::Eight => "8",
            Self::Sixteen => "16",
            Self::ThirtyTwo => "32",
            Self::SixtyFour => "64",
        }
    }
}

impl Wait {
    /// The number of beats in the name of a situation.
    pub fn name(self) -> &'static str
        ensures { result.now ≡ Names.wait_name self }
    {
        match self {
            Self::None => "0",
            Self::One => "1",
            Self::Two => "2-3",
            Self::Four => "4-7",
            Self::Eight => "8-15",
            Self::Sixteen => "16-31",
            Self::ThirtyTwo => "32-63",
            Self::SixtyFour => "64-127",
            Self::Longer => "128-up",
        }
    }
}

impl Pending {
    /// The kind in the name of a situation.
    pub fn name(self) -> &'static str
        ensures { result.now ≡ Names.pending_name self }
    {
        match self {
            Self::Acquire => "acquire",
            Self::Get => "get",
            Self::Put => "put",
            Self::Atomic => "atomic",
            Self::Release => "release",
            Self::Probe => "probe",
            Self::Grant => "grant",
        }
    }
}

impl Depth {
    /// The number of messages in the name of a situation.
    pub fn name(self) -> &'static str
        ensures { result.now ≡ Names.depth_name self }
    {
        match self {
            Self::One => "1",
            Self::Two => "2",
            Self::Four => "3-4",
            Self::Eight => "5-8",
            Self::Sixteen => "9-16",
            Self::More => "17-up",
        }
    }
}

/// Appends a dash and a detail, if there is one.
pub fn append_detail(detail: Option<&str>, out: &mut Vec<u8>) -> Result<(), AllocError>
    ensures { OnOk result (out.new.items
        ≡ Names.with_detail out.old.items (option_map (λ s. s.now) detail.entry)) }
{
    match detail {
        None => Ok(()),
        Some(detail) => {
            out.push(b'-')?;
            out.extend_from_slice(detail.as_bytes())
        }
    }
}

impl Situation {
    /// The first word of the name.
    fn word(self) -> &'static str
        ensures { result.now ≡ Names.word self }
    {
        match self {
            Self::ProbeBesideRelease => "probe-beside-release",
            Self::ReleaseBesideProbe => "release-beside-probe",
            Self::ProbeBesideAcquire => "probe-beside-acquire",
            Self::ProbeBesideUpgrade => "probe-beside-upgrade",
            Self::ProbeOfNothing => "probe-of-nothing",
            Self::UpgradeLostWithData => "upgrade-lost-data",
            Self::UpgradeLostWithoutData => "upgrade-lost-no-data",
            Self::ReleaseBeforeGrantAck => "release-before-grant-ack",
            Self::TwoGrants => "two-grants",
            Self::FourGrants => "four-grants",
            Self::Acquired(_) => "acquire",
            Self::Granted(_) => "grant",
            Self::Probed(_) => "probe",
            Self::Reported(_) => "report",
            Self::Released(_) => "release",
            Self::AccessBesideTransfer => "access-beside-transfer",
            Self::AccessOfHeldBlock => "access-of-held-block",
            Self::Masked(_) => "mask",
            Self::GetOf(_) => "get",
            Self::PutOf(_) => "put",
            Self::AtomicOf(_) => "atomic",
            Self::Arithmetic(_) => "arithmetic",
            Self::Logical(_) => "logical",
            Self::ResponseAtOnce => "response-at-once",
            Self::GrantAckLater => "grant-ack-later",
            Self::Contention => "contention",
            Self::ThreeContend => "three-contend",
            Self::ReadOfOwned => "read-of-owned",
            Self::WriteToOwned => "write-to-owned",
            Self::AtomicOnOwned => "atomic-on-owned",
            Self::WriteToShared => "write-to-shared",
            Self::ReportBesideGrant => "report-beside-grant",
            Self::BetweenBursts => "between-bursts",
            Self::EarlyResponse => "early-response",
            Self::EarlyGrantAck => "early-grant-ack",
            Self::ProbeWithSource => "probe-with-source",
            Self::SinkWithoutGrant => "sink-without-grant",
            Self::GrantOfMore => "grant-of-more",
            Self::CopyDropped => "copy-dropped",
            Self::GrantDenied => "grant-denied",
            Self::DeniedUncorrupt => "denied-uncorrupt",
            Self::Sent(kind) => kind.letter(),
            Self::Answered(..) => "report",
            Self::Waited(_) => "waited",
            Self::Aligned(..) => "access",
            Self::Among(..) => "pending",
        }
    }

    /// The detail that distinguishes situations with the same first word.
    fn detail(self) -> Option<&'static str>
        ensures { option_map (λ s. s.now) result ≡ Names.detail self }
    {
        match self {
            Self::Acquired(grow) | Self::Granted(grow) => Some(grow.name()),
            Self::Probed(cap) => Some(cap.name()),
            Self::Reported(report) => Some(report.name()),
            Self::Released(report) => Some(report.name()),
            Self::Masked(lanes) => Some(lanes.name()),
            Self::GetOf(bytes) | Self::PutOf(bytes) | Self::AtomicOf(bytes) => Some(bytes.name()),
            Self::Arithmetic(operation) => Some(operation.name()),
            Self::Logical(operation) => Some(operation.name()),
            Self::Sent(kind) => Some(kind.opcode_name()),
            Self::Answered(report, _) => Some(report.name()),
            Self::Waited(wait) => Some(wait.name()),
            Self::Aligned(bytes, _) => Some(bytes.name()),
            Self::Among(kind, _) => Some(kind.name()),
            _ => None,
        }
    }

    /// The second detail.
    fn second(self) -> Option<&'static str>
        ensures { option_map (λ s. s.now) result ≡ Names.second self }
    {
        match self {
            Self::Sent(kind) => kind.fields()?.0.name(),
            Self::Answered(_, cap) => Some(cap.name()),
            Self::Aligned(..) => Some("at"),
            Self::Among(_, depth) => Some(depth.name()),
            _ => None,
        }
    }

    /// The third detail.
    fn third(self) -> Option<&'static str>
        ensures { option_map (λ s. s.now) result ≡ Names.third self }
    {
        match self {
            Self::Sent(kind) => Some(kind.fields()?.1.name()),
            Self::Aligned(_, many) => Some(many.name()),
            _ => None,
        }
    }

    /// Appends the name, such as `report-TtoN`.
    pub fn append_name(self, out: &mut Vec<u8>) -> Result<(), AllocError>
        ensures { OnOk result (out.new.items ≡ out.old.items ++ Names.name self) }
    {
        out.extend_from_slice(self.word().as_bytes())?;
        append_detail(self.detail(), out)?;
        append_detail(self.second(), out)?;
        append_detail(self.third(), out)
    }

    /// The sentence of the situation.
    pub fn sentence(self) -> &'static str
        ensures { result.now ≡ Names.sentence self }
    {
        match self {
            Self::ProbeBesideRelease => "a Probe while a Release of its block is pending",
            Self::ReleaseBesideProbe => "a Release while a Probe of its block is pending",
            Self::ProbeBesideAcquire =>
                "a Probe of a block that the link asks for and doesn't hold",
            Self::ProbeBesideUpgrade =>
                "a Probe of a block that the link asks for and holds as Branch",
            Self::ProbeOfNothing => "a Probe of a block that the link doesn't hold",
            Self::UpgradeLostWithData =>
                "a GrantData for an Acquire BtoT whose copy was lost meanwhile",
            Self::UpgradeLostWithoutData =>
                "a Grant for an Acquire BtoT whose copy was lost meanwhile",
            Self::ReleaseBeforeGrantAck => "a Release while the GrantAck of its block is pending",
            Self::TwoGrants =>
                "a Grant while at least one other waits for its GrantAck on the link",
            Self::FourGrants =>
                "a Grant while at least three others wait for their GrantAcks on the link",
            Self::Acquired(_) => "an Acquire that asks for this growth",
            Self::Granted(_) => "a Grant that lets what the link holds grow so",
            Self::Probed(_) => "a Probe with this cap",
            Self::Reported(_) => "a ProbeAck with this report",
            Self::Released(_) => "a Release with this report",
            Self::AccessBesideTransfer =>
                "an access while an Acquire or a Release of its block is pending on the link",
            Self::AccessOfHeldBlock => "an access to a block that its own link holds",
            Self::Masked(_) => "a PutPartialData whose first mask names this many lanes",
            Self::GetOf(_) => "a Get of this many bytes",
            Self::PutOf(_) => "a Put of this many bytes",
            Self::AtomicOf(_) => "an atomic of this many bytes",
            Self::Arithmetic(_) => "an ArithmeticData of this operation",
            Self::Logical(_) => "a LogicalData of this operation",
            Self::ResponseAtOnce => "a response right after a beat of its request or Release",
            Self::GrantAckLater => "a GrantAck right after a beat that isn't of channel D",
            Self::Contention =>
                "an Acquire while an Acquire of its block is pending on at least one other link",
            Self::ThreeContend =>
                "an Acquire while Acquires of its block are pending on at least two other links",
            Self::ReadOfOwned => "a Get from a block that another link holds as Trunk",
            Self::WriteToOwned => "a Put to a block that another link holds as Trunk",
            Self::AtomicOnOwned => "an atomic on a block that another link holds as Trunk",
            Self::WriteToShared => "a Put to a block that at least two other links hold as Branch",
            Self::ReportBesideGrant => "a ProbeAckData between the beats of another link's Grant",
            Self::BetweenBursts =>
                "a Probe or a GrantAck between the beats of messages of A, C and D",
            Self::EarlyResponse => "a response before the last beat of its request or Release",
            Self::EarlyGrantAck => "a GrantAck before the last beat of its Grant",
            Self::ProbeWithSource => "a Probe whose source isn't 0",
            Self::SinkWithoutGrant => "a response that grants nothing, and whose sink isn't 0",
            Self::GrantOfMore => "a Grant toT for an Acquire NtoB",
            Self::CopyDropped =>
                "an Acquire NtoB or NtoT, or a report NtoN, of a block that the link held",
            Self::GrantDenied => "a Grant that is denied",
            Self::DeniedUncorrupt => "a denied AccessAckData that isn't corrupt",
            Self::Sent(_) => "a message of this channel, opcode, param and number of bytes",
            Self::Answered(..) => "a ProbeAck with this report, to a Probe with this cap",
            Self::Waited(_) => "a ProbeAck so many beats of the trace after its Probe",
            Self::Aligned(..) =>
                "an access of this many bytes whose address this many divide, and no more up to 64",
            Self::Among(..) =>
                "a message of this kind; with it this many of its kind are pending on the link",
        }
    }
}
