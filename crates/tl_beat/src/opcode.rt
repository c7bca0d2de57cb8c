//! The opcodes in use on each channel (SiFive TileLink Specification 1.8, "Message taxonomy").

ghost use Rattle.std.specs.Prelude.{◌≡◌};

/// The opcodes of channel A.
#[derive(Clone, Copy, Debug, PartialEq, Eq)]
pub enum OpA {
    PutFullData = 0,
    PutPartialData = 1,
    ArithmeticData = 2,
    LogicalData = 3,
    Get = 4,
    Intent = 5,
    AcquireBlock = 6,
    AcquirePerm = 7,
}

/// The opcodes of channel B.
#[derive(Clone, Copy, Debug, PartialEq, Eq)]
pub enum OpB {
    PutFullData = 0,
    PutPartialData = 1,
    ArithmeticData = 2,
    LogicalData = 3,
    Get = 4,
    Intent = 5,
    ProbeBlock = 6,
    ProbePerm = 7,
}

/// The opcodes of channel C. Code 3 isn't in use.
#[derive(Clone, Copy, Debug, PartialEq, Eq)]
pub enum OpC {
    AccessAck = 0,
    AccessAckData = 1,
    HintAck = 2,
    ProbeAck = 4,
    ProbeAckData = 5,
    Release = 6,
    ReleaseData = 7,
}

/// The opcodes of channel D. Codes 3 and 7 aren't in use.
#[derive(Clone, Copy, Debug, PartialEq, Eq)]
pub enum OpD {
    AccessAck = 0,
    AccessAckData = 1,
    HintAck = 2,
    Grant = 4,
    GrantData = 5,
    ReleaseAck = 6,
}

impl OpA {
    ghost use Rattle.tl_beat.specs.statement.Opcode.{a_code, a_carries_data, a_with};
    ghost use Rattle.tl_beat.specs.statement.Names.{a_name};

    /// The code of the opcode on the wires.
    pub fn code(self) -> u8
        ensures { result ≡ a_code self }
    {
        self as u8
    }

    /// The opcode with this code, if one is in use.
    pub fn with_code(code: u8) -> Option<OpA>
        ensures { result ≡ a_with code }
    {
        match code {
            0 => Some(OpA::PutFullData),
            1 => Some(OpA::PutPartialData),
            2 => Some(OpA::ArithmeticData),
            3 => Some(OpA::LogicalData),
            4 => Some(OpA::Get),
            5 => Some(OpA::Intent),
            6 => Some(OpA::AcquireBlock),
            7 => Some(OpA::AcquirePerm),
            _ => None,
        }
    }

    /// Whether beats with this opcode carry data.
    pub fn carries_data(self) -> bool
        ensures { result ≡ a_carries_data self }
    {
        matches!(
            self,
            OpA::PutFullData | OpA::PutPartialData | OpA::ArithmeticData | OpA::LogicalData
        )
    }

    /// The opcode's name in the specification.
    pub fn name(self) -> &'static str
        ensures { result.now ≡ a_name self }
    {
        match self {
            OpA::PutFullData => "PutFullData",
            OpA::PutPartialData => "PutPartialData",
            OpA::ArithmeticData => "ArithmeticData",
            OpA::LogicalData => "LogicalData",
            OpA::Get => "Get",
            OpA::Intent => "Intent",
            OpA::AcquireBlock => "AcquireBlock",
            OpA::AcquirePerm => "AcquirePerm",
        }
    }
}

impl OpB {
    ghost use Rattle.tl_beat.specs.statement.Opcode.{b_code, b_carries_data, b_with};
    ghost use Rattle.tl_beat.specs.statement.Names.{b_name};

    /// The code of the opcode on the wires.
    pub fn code(self) -> u8
        ensures { result ≡ b_code self }
    {
        self as u8
    }

    /// The opcode with this code, if one is in use.
    pub fn with_code(code: u8) -> Option<OpB>
        ensures { result ≡ b_with code }
    {
        match code {
            0 => Some(OpB::PutFullData),
            1 => Some(OpB::PutPartialData),
            2 => Some(OpB::ArithmeticData),
            3 => Some(OpB::LogicalData),
            4 => Some(OpB::Get),
            5 => Some(OpB::Intent),
            6 => Some(OpB::ProbeBlock),
            7 => Some(OpB::ProbePerm),
            _ => None,
        }
    }

    /// Whether beats with this opcode carry data.
    pub fn carries_data(self) -> bool
        ensures { result ≡ b_carries_data self }
    {
        matches!(
            self,
            OpB::PutFullData | OpB::PutPartialData | OpB::ArithmeticData | OpB::LogicalData
        )
    }

    /// The opcode's name in the specification.
    pub fn name(self) -> &'static str
        ensures { result.now ≡ b_name self }
    {
        match self {
            OpB::PutFullData => "PutFullData",
            OpB::PutPartialData => "PutPartialData",
            OpB::ArithmeticData => "ArithmeticData",
            OpB::LogicalData => "LogicalData",
            OpB::Get => "Get",
            OpB::Intent => "Intent",
            OpB::ProbeBlock => "ProbeBlock",
            OpB::ProbePerm => "ProbePerm",
        }
    }
}

impl OpC {
    ghost use Rattle.tl_beat.specs.statement.Opcode.{c_code, c_carries_data, c_with};
    ghost use Rattle.tl_beat.specs.statement.Names.{c_name};

    /// The code of the opcode on the wires.
    pub fn code(self) -> u8
        ensures { result ≡ c_code self }
    {
        self as u8
    }

    /// The opcode with this code, if one is in use.
    pub fn with_code(code: u8) -> Option<OpC>
        ensures { result ≡ c_with code }
    {
        match code {
            0 => Some(OpC::AccessAck),
            1 => Some(OpC::AccessAckData),
            2 => Some(OpC::HintAck),
            4 => Some(OpC::ProbeAck),
            5 => Some(OpC::ProbeAckData),
            6 => Some(OpC::Release),
            7 => Some(OpC::ReleaseData),
            _ => None,
        }
    }

    /// Whether beats with this opcode carry data.
    pub fn carries_data(self) -> bool
        ensures { result ≡ c_carries_data self }
    {
        matches!(
            self,
            OpC::AccessAckData | OpC::ProbeAckData | OpC::ReleaseData
        )
    }

    /// The opcode's name in the specification.
    pub fn name(self) -> &'static str
        ensures { result.now ≡ c_name self }
    {
        match self {
            OpC::AccessAck => "AccessAck",
            OpC::AccessAckData => "AccessAckData",
            OpC::HintAck => "HintAck",
            OpC::ProbeAck => "ProbeAck",
            OpC::ProbeAckData => "ProbeAckData",
            OpC::Release => "Release",
            OpC::ReleaseData => "ReleaseData",
        }
    }
}

impl OpD {
    ghost use Rattle.tl_beat.specs.statement.Opcode.{d_code, d_carries_data, d_with};
    ghost use Rattle.tl_beat.specs.statement.Names.{d_name};

    /// The code of the opcode on the wires.
    pub fn code(self) -> u8
        ensures { result ≡ d_code self }
    {
        self as u8
    }

    /// The opcode with this code, if one is in use.
    pub fn with_code(code: u8) -> Option<OpD>
        ensures { result ≡ d_with code }
    {
        match code {
            0 => Some(OpD::AccessAck),
            1 => Some(OpD::AccessAckData),
            2 => Some(OpD::HintAck),
            4 => Some(OpD::Grant),
            5 => Some(OpD::GrantData),
            6 => Some(OpD::ReleaseAck),
            _ => None,
        }
    }

    /// Whether beats with this opcode carry data.
    pub fn carries_data(self) -> bool
        ensures { result ≡ d_carries_data self }
    {
        matches!(self, OpD::AccessAckData | OpD::GrantData)
    }

    /// The opcode's name in the specification.
    pub fn name(self) -> &'static str
        ensures { result.now ≡ d_name self }
    {
        match self {
            OpD::AccessAck => "AccessAck",
            OpD::AccessAckData => "AccessAckData",
            OpD::HintAck => "HintAck",
            OpD::Grant => "Grant",
            OpD::GrantData => "GrantData",
            OpD::ReleaseAck => "ReleaseAck",
        }
    }
}
