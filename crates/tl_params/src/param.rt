//! The params of TileLink's messages by name (SiFive TileLink Specification 1.8, chapters on TL-UH and TL-C): the
//! number that a beat carries, and the permissions before and after a transition.

ghost use Rattle.std.specs.Prelude.{◌≡◌, IfSome, slice_get};
ghost use Rattle.tl_params.specs.statement.Names.{grow_name, cap_name, prune_name, report_name};
ghost use Rattle.tl_params.specs.statement.Names.{arithmetic_name, logical_name, intent_name};
ghost use Rattle.tl_params.specs.statement.Param.{grow_of, grow_code, grow_left, grow_right};
ghost use Rattle.tl_params.specs.statement.Param.{cap_of, cap_code, cap_right};
ghost use Rattle.tl_params.specs.statement.Param.{prune_of, prune_code, prune_left, prune_right};
ghost use Rattle.tl_params.specs.statement.Param.{report_named, report_code, report_left, report_right};
ghost use Rattle.tl_params.specs.statement.Param.{arithmetic_of, arithmetic_code, logical_of};
ghost use Rattle.tl_params.specs.statement.Param.{logical_code, intent_of, intent_code};

use crate::perm::Perm;

/// The grow that an Acquire asks for.
#[derive(Clone, Copy, Debug, PartialEq, Eq)]
pub enum Grow {
    NtoB,
    NtoT,
    BtoT,
}

/// The cap of a Probe, which leaves at most this permission, or of a Grant, which gives it.
#[derive(Clone, Copy, Debug, PartialEq, Eq)]
pub enum Cap {
    ToT,
    ToB,
    ToN,
}

/// The prune of a Release: the permission that it gives up and the one that it keeps.
#[derive(Clone, Copy, Debug, PartialEq, Eq)]
pub enum Prune {
    TtoB,
    TtoN,
    BtoN,
}

/// The report of a ProbeAck: the permission before the Probe and the one after it.
#[derive(Clone, Copy, Debug, PartialEq, Eq)]
pub enum Report {
    TtoB,
    TtoN,
    BtoN,
    TtoT,
    BtoB,
    NtoN,
}

/// The operations of ArithmeticData. `Min` and `Max` compare with sign, `MinU` and `MaxU` without.
#[derive(Clone, Copy, Debug, PartialEq, Eq)]
pub enum Arithmetic {
    Min,
    Max,
    MinU,
    MaxU,
    Add,
}

/// The operations of LogicalData.
#[derive(Clone, Copy, Debug, PartialEq, Eq)]
pub enum Logical {
    Xor,
    Or,
    And,
    Swap,
}

/// The access that an Intent announces.
#[derive(Clone, Copy, Debug, PartialEq, Eq)]
pub enum Intent {
    PrefetchRead,
    PrefetchWrite,
}

/// The value with this number. The list has all values in the order of their numbers.
fn numbered<P: Copy>(all: &[P], number: u8) -> Option<P>
    ensures { result ≡ slice_get all.now number }
{
    all.get(usize::from(number)).copied()
}

impl Grow {
    const NAMES: [&'static str; 3] = ["NtoB", "NtoT", "BtoT"];

    /// The grow with this param, if there is one.
    pub fn from_param(param: u8) -> Option<Self>
        ensures value { result ≡ grow_of param }
        ensures again { IfSome result (λ grow. grow_code grow ≡ param) }
    {
        numbered(&[Self::NtoB, Self::NtoT, Self::BtoT], param)
    }

    /// The param of a beat with this grow.
    pub fn param(self) -> u8
        ensures value { result ≡ grow_code self }
        ensures again { grow_of result ≡ Some self }
    {
        self as u8
    }

    /// The grow's name, as the specification has it.
    pub fn name(self) -> &'static str
        ensures { result.now ≡ grow_name self }
    {
        Self::NAMES[self as usize]
    }

    /// The permission from which it starts.
    pub fn left(self) -> Perm
        ensures { result ≡ grow_left self }
    {
        match self {
            Self::NtoB | Self::NtoT => Perm::None,
            Self::BtoT => Perm::Branch,
        }
    }

    /// The permission for which it asks.
    pub fn right(self) -> Perm
        ensures { result ≡ grow_right self }
    {
        match self {
            Self::NtoB => Perm::Branch,
            Self::NtoT | Self::BtoT => Perm::Trunk,
        }
    }
}

impl Cap {
    const NAMES: [&'static str; 3] = ["toT", "toB", "toN"];

    /// The cap with this param, if there is one.
    pub fn from_param(param: u8) -> Option<Self>
        ensures value { result ≡ cap_of param }
        ensures again { IfSome result (λ cap. cap_code cap ≡ param) }
    {
        numbered(&[Self::ToT, Self::ToB, Self::ToN], param)
    }

    /// The param of a beat with this cap.
    pub fn param(self) -> u8
        ensures value { result ≡ cap_code self }
        ensures again { cap_of result ≡ Some self }
    {
        self as u8
    }

    /// The cap's name, as the specification has it.
    pub fn name(self) -> &'static str
        ensures { result.now ≡ cap_name self }
    {
        Self::NAMES[self as usize]
    }

    /// The highest permission under this cap.
    pub fn right(self) -> Perm
        ensures { result ≡ cap_right self }
    {
        match self {
            Self::ToT => Perm::Trunk,
            Self::ToB => Perm::Branch,
            Self::ToN => Perm::None,
        }
    }
}

impl Prune {
    const NAMES: [&'static str; 3] = ["TtoB", "TtoN", "BtoN"];

    /// The prune with this param, if there is one.
    pub fn from_param(param: u8) -> Option<Self>
        ensures value { result ≡ prune_of param }
        ensures again { IfSome result (λ prune. prune_code prune ≡ param) }
    {
        numbered(&[Self::TtoB, Self::TtoN, Self::BtoN], param)
    }

    /// The param of a beat with this prune.
    pub fn param(self) -> u8
        ensures value { result ≡ prune_code self }
        ensures again { prune_of result ≡ Some self }
    {
        self as u8
    }

    /// The prune's name, as the specification has it.
    pub fn name(self) -> &'static str
        ensures { result.now ≡ prune_name self }
    {
        Self::NAMES[self as usize]
    }

    /// The permission held before it.
    pub fn left(self) -> Perm
        ensures { result ≡ prune_left self }
    {
        match self {
            Self::TtoB | Self::TtoN => Perm::Trunk,
            Self::BtoN => Perm::Branch,
        }
    }

    /// The permission that it leaves.
    pub fn right(self) -> Perm
        ensures { result ≡ prune_right self }
    {
        match self {
            Self::TtoB => Perm::Branch,
            Self::TtoN | Self::BtoN => Perm::None,
        }
    }
}

impl Report {
    const NAMES: [&'static str; 6] = ["TtoB", "TtoN", "BtoN", "TtoT", "BtoB", "NtoN"];

    /// The report with this param, if there is one.
    pub fn from_param(param: u8) -> Option<Self>
        ensures value { result ≡ report_named param }
        ensures again { IfSome result (λ report. report_code report ≡ param) }
    {
        numbered(
            &[
                Self::TtoB,
                Self::TtoN,
                Self::BtoN,
                Self::TtoT,
                Self::BtoB,
                Self::NtoN,
            ],
            param,
        )
    }

    /// The param of a beat with this report.
    pub fn param(self) -> u8
        ensures value { result ≡ report_code self }
        ensures again { report_named result ≡ Some self }
    {
        self as u8
    }

    /// The report's name, as the specification has it.
    pub fn name(self) -> &'static str
        ensures { result.now ≡ report_name self }
    {
        Self::NAMES[self as usize]
    }

    /// The permission held before it.
    pub fn left(self) -> Perm
        ensures { result ≡ report_left self }
    {
        match self {
            Self::TtoB | Self::TtoN | Self::TtoT => Perm::Trunk,
            Self::BtoN | Self::BtoB => Perm::Branch,
            Self::NtoN => Perm::None,
        }
    }

    /// The permission that it leaves.
    pub fn right(self) -> Perm
        ensures { result ≡ report_right self }
    {
        match self {
            Self::TtoT => Perm::Trunk,
            Self::TtoB | Self::BtoB => Perm::Branch,
            Self::TtoN | Self::BtoN | Self::NtoN => Perm::None,
        }
    }
}

impl Arithmetic {
    const NAMES: [&'static str; 5] = ["MIN", "MAX", "MINU", "MAXU", "ADD"];

    /// The operation with this param, if there is one.
    pub fn from_param(param: u8) -> Option<Self>
        ensures value { result ≡ arithmetic_of param }
        ensures again { IfSome result (λ operation. arithmetic_code operation ≡ param) }
    {
        numbered(
            &[Self::Min, Self::Max, Self::MinU, Self::MaxU, Self::Add],
            param,
        )
    }

    /// The param of a beat with this operation.
    pub fn param(self) -> u8
        ensures value { result ≡ arithmetic_code self }
        ensures again { arithmetic_of result ≡ Some self }
    {
        self as u8
    }

    /// The operation's name, as the specification has it.
    pub fn name(self) -> &'static str
        ensures { result.now ≡ arithmetic_name self }
    {
        Self::NAMES[self as usize]
    }
}

impl Logical {
    const NAMES: [&'static str; 4] = ["XOR", "OR", "AND", "SWAP"];

    /// The operation with this param, if there is one.
    pub fn from_param(param: u8) -> Option<Self>
        ensures value { result ≡ logical_of param }
        ensures again { IfSome result (λ operation. logical_code operation ≡ param) }
    {
        numbered(&[Self::Xor, Self::Or, Self::And, Self::Swap], param)
    }

    /// The param of a beat with this operation.
    pub fn param(self) -> u8
        ensures value { result ≡ logical_code self }
        ensures again { logical_of result ≡ Some self }
    {
        self as u8
    }

    /// The operation's name, as the specification has it.
    pub fn name(self) -> &'static str
        ensures { result.now ≡ logical_name self }
    {
        Self::NAMES[self as usize]
    }
}

impl Intent {
    const NAMES: [&'static str; 2] = ["PrefetchRead", "PrefetchWrite"];

    /// The intent with this param, if there is one.
    pub fn from_param(param: u8) -> Option<Self>
        ensures value { result ≡ intent_of param }
        ensures again { IfSome result (λ intent. intent_code intent ≡ param) }
    {
        numbered(&[Self::PrefetchRead, Self::PrefetchWrite], param)
    }

    /// The param of a beat with this intent.
    pub fn param(self) -> u8
        ensures value { result ≡ intent_code self }
        ensures again { intent_of result ≡ Some self }
    {
        self as u8
    }

    /// The intent's name, as the specification has it.
    pub fn name(self) -> &'static str
        ensures { result.now ≡ intent_name self }
    {
        Self::NAMES[self as usize]
    }
}
