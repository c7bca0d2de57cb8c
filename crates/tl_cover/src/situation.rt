//! The situations that are counted in a trace.

use crate::message::MessageKind;
use tl_params::param::{Arithmetic, Cap, Grow, Logical, Report};

/// The lanes of a beat that a mask names.
#[derive(Clone, Copy, Debug, PartialEq, Eq)]
pub enum Lanes {
    Empty,
    Partial,
    Full,
}

/// The bytes of an access.
#[derive(Clone, Copy, Debug, PartialEq, Eq)]
pub enum Bytes {
    One,
    Two,
    Four,
    Eight,
    Sixteen,
    ThirtyTwo,
    SixtyFour,
}

/// The number of beats of the trace between a Probe and the first beat of its answer.
#[derive(Clone, Copy, Debug, PartialEq, Eq)]
pub enum Wait {
    None,
    One,
    /// 2 or 3.
    Two,
    /// 4 to 7.
    Four,
    /// 8 to 15.
    Eight,
    /// 16 to 31.
    Sixteen,
    /// 32 to 63.
    ThirtyTwo,
    /// 64 to 127.
    SixtyFour,
    /// 128 or more.
    Longer,
}

/// The kinds of messages of which several can be pending on a link.
#[derive(Clone, Copy, Debug, PartialEq, Eq)]
pub enum Pending {
    Acquire,
    Get,
    Put,
    Atomic,
    Release,
    Probe,
    /// A Grant that waits for its GrantAck.
    Grant,
}

/// The number of messages of a kind that are pending on a link, with the one that begins.
#[derive(Clone, Copy, Debug, PartialEq, Eq)]
pub enum Depth {
    One,
    Two,
    /// 3 or 4.
    Four,
    /// 5 to 8.
    Eight,
    /// 9 to 16.
    Sixteen,
    /// 17 or more.
    More,
}

/// A situation in which a message begins. Its definition is a predicate on the beats up to the message's first.
#[derive(Clone, Copy, Debug, PartialEq, Eq)]
pub enum Situation {
    /// A Probe of a block whose Release is pending.
    ProbeBesideRelease,
    /// A Release of a block whose Probe is pending.
    ReleaseBesideProbe,
    /// A Probe of a block that the link asks for and doesn't hold.
    ProbeBesideAcquire,
    /// A Probe of a block that the link asks for and holds as Branch.
    ProbeBesideUpgrade,
    /// A Probe of a block that the link doesn't hold.
    ProbeOfNothing,
    /// A GrantData for an Acquire BtoT whose copy was lost.
    UpgradeLostWithData,
    /// A Grant without data for an Acquire BtoT whose copy was lost.
    UpgradeLostWithoutData,
    /// A Release of a block whose GrantAck is pending.
    ReleaseBeforeGrantAck,
    /// A Grant while at least one other waits for its GrantAck on the link.
    TwoGrants,
    /// A Grant while at least three others wait for their GrantAcks on the link.
    FourGrants,
    /// An Acquire with this grow.
    Acquired(Grow),
    /// A Grant by which the permission held of the block grows in this way.
    Granted(Grow),
    /// A Probe with this cap.
    Probed(Cap),
    /// A ProbeAck with this report.
    Reported(Report),
    /// A Release with this report. The prunes are TtoB, TtoN and BtoN.
    Released(Report),
    /// An access to a block whose Acquire or Release is pending on the link.
    AccessBesideTransfer,
    /// An access to a block that its own link holds.
    AccessOfHeldBlock,
    /// A PutPartialData whose first mask names these lanes.
    Masked(Lanes),
    /// A Get of this many bytes.
    GetOf(Bytes),
    /// A Put of this many bytes.
    PutOf(Bytes),
    /// An atomic of this many bytes.
    AtomicOf(Bytes),
    /// An ArithmeticData of this operation.
    Arithmetic(Arithmetic),
    /// A LogicalData of this operation.
    Logical(Logical),
    /// A response right after a beat of its request or Release.
    ResponseAtOnce,
    /// A GrantAck right after a beat that isn't of channel D.
    GrantAckLater,
    /// An Acquire of a block while an Acquire of it is pending on another link.
    Contention,
    /// An Acquire of a block while Acquires of it are pending on at least two other links.
    ThreeContend,
    /// A Get from a block that another link holds as Trunk.
    ReadOfOwned,
    /// A Put to a block that another link holds as Trunk.
    WriteToOwned,
    /// An atomic on a block that another link holds as Trunk.
    AtomicOnOwned,
    /// A Put to a block that at least two other links hold as Branch.
    WriteToShared,
    /// A ProbeAckData between the beats of another link's Grant.
    ReportBesideGrant,
    /// A Probe or a GrantAck between the beats of messages of A, C and D.
    BetweenBursts,
    /// A response before the last beat of its request or Release (the liberty `early`).
    EarlyResponse,
    /// A GrantAck before the last beat of its Grant (`early`).
    EarlyGrantAck,
    /// A Probe whose source isn't 0 (`ids`).
    ProbeWithSource,
    /// A response other than a Grant, with a sink that isn't 0 (`sinks`).
    SinkWithoutGrant,
    /// A Grant toT for an Acquire NtoB (`writer`).
    GrantOfMore,
    /// An Acquire NtoB or NtoT, or a report NtoN, of a block that the link held (`drops`).
    CopyDropped,
    /// A Grant that is denied (`denied`).
    GrantDenied,
    /// A denied AccessAckData that isn't corrupt (`uncorrupt`).
    DeniedUncorrupt,
    /// A message of this kind.
    Sent(MessageKind),
    /// A ProbeAck with this report, to a Probe with this cap.
    Answered(Report, Cap),
    /// A ProbeAck to a Probe that waited so many beats.
    Waited(Wait),
    /// An access of this many bytes at a multiple of that many: the greatest number up to 64 that divides its address.
    Aligned(Bytes, Bytes),
    /// A message of this kind that makes so many of its kind pending on its link.
    Among(Pending, Depth),
}

impl Situation {
    /// All situations, in the order of the report.
    pub const ALL: [Situation; 79] = [
        Situation::ProbeBesideRelease,
        Situation::ReleaseBesideProbe,
        Situation::ProbeBesideAcquire,
        Situation::ProbeBesideUpgrade,
        Situation::ProbeOfNothing,
        Situation::UpgradeLostWithData,
        Situation::UpgradeLostWithoutData,
        Situation::ReleaseBeforeGrantAck,
        Situation::TwoGrants,
        Situation::FourGrants,
        Situation::Acquired(Grow::NtoB),
        Situation::Acquired(Grow::NtoT),
        Situation::Acquired(Grow::BtoT),
        Situation::Granted(Grow::NtoB),
        Situation::Granted(Grow::NtoT),
        Situation::Granted(Grow::BtoT),
        Situation::Probed(Cap::ToT),
        Situation::Probed(Cap::ToB),
        Situation::Probed(Cap::ToN),
        Situation::Reported(Report::TtoB),
        Situation::Reported(Report::TtoN),
        Situation::Reported(Report::BtoN),
        Situation::Reported(Report::TtoT),
        Situation::Reported(Report::BtoB),
        Situation::Reported(Report::NtoN),
        Situation::Released(Report::TtoB),
        Situation::Released(Report::TtoN),
        Situation::Released(Report::BtoN),
        Situation::Released(Report::TtoT),
        Situation::Released(Report::BtoB),
        Situation::Released(Report::NtoN),
        Situation::AccessBesideTransfer,
        Situation::AccessOfHeldBlock,
        Situation::Masked(Lanes::Empty),
        Situation::Masked(Lanes::Partial),
        Situation::Masked(Lanes::Full),
        Situation::GetOf(Bytes::One),
        Situation::GetOf(Bytes::Two),
        Situation::GetOf(Bytes::Four),
        Situation::GetOf(Bytes::Eight),
        Situation::GetOf(Bytes::Sixteen),
        Situation::GetOf(Bytes::ThirtyTwo),
        Situation::GetOf(Bytes::SixtyFour),
        Situation::PutOf(Bytes::One),
        Situation::PutOf(Bytes::Two),
        Situation::PutOf(Bytes::Four),
        Situation::PutOf(Bytes::Eight),
        Situation::PutOf(Bytes::Sixteen),
        Situation::PutOf(Bytes::ThirtyTwo),
        Situation::PutOf(Bytes::SixtyFour),
        Situation::AtomicOf(Bytes::Four),
        Situation::AtomicOf(Bytes::Eight),
        Situation::Arithmetic(Arithmetic::Min),
        Situation::Arithmetic(Arithmetic::Max),
        Situation::Arithmetic(Arithmetic::MinU),
        Situation::Arithmetic(Arithmetic::MaxU),
        Situation::Arithmetic(Arithmetic::Add),
        Situation::Logical(Logical::Xor),
        Situation::Logical(Logical::Or),
        Situation::Logical(Logical::And),
        Situation::Logical(Logical::Swap),
        Situation::ResponseAtOnce,
        Situation::GrantAckLater,
        Situation::Contention,
        Situation::ThreeContend,
        Situation::ReadOfOwned,
        Situation::WriteToOwned,
        Situation::AtomicOnOwned,
        Situation::WriteToShared,
        Situation::ReportBesideGrant,
        Situation::BetweenBursts,
        Situation::EarlyResponse,
        Situation::EarlyGrantAck,
        Situation::ProbeWithSource,
        Situation::SinkWithoutGrant,
        Situation::GrantOfMore,
        Situation::CopyDropped,
        Situation::GrantDenied,
        Situation::DeniedUncorrupt,
    ];
}
