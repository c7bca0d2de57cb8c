//! The faults of a line of text that spells no beat.

ghost use Rattle.std.specs.Prelude.{◌≡◌};
ghost use Rattle.tl_beat.specs.statement.Names.{line_fault_name};

/// The first fault of a line, in this order. After `F2` comes `F1` again, for a number of fields that isn't the
/// channel's.
#[derive(Clone, Copy, Debug, PartialEq, Eq)]
pub enum LineFault {
    /// The line has more than 256 bytes, doesn't end in a line feed, has fewer than two fields, or another number of
    /// fields than its channel.
    F1,
    /// The second field isn't one of the letters A to E.
    F2,
    /// A field isn't of its form: the right number of lower-case hexadecimal digits, 0 or 1, or data.
    F3,
    /// The opcode isn't in use on the channel.
    F4,
    /// The param is over 7 on channels A, B and C, or over 3 on D.
    F5,
    /// There is data for an opcode that carries none, or none for one that does.
    F6,
}

impl LineFault {
    /// The fault's name.
    pub fn name(self) -> &'static str
        ensures { result.now ≡ line_fault_name self }
    {
        match self {
            Self::F1 => "F1",
            Self::F2 => "F2",
            Self::F3 => "F3",
            Self::F4 => "F4",
            Self::F5 => "F5",
            Self::F6 => "F6",
        }
    }
}
