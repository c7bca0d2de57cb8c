//! The rules between the links of one manager.

ghost use Rattle.std.specs.Prelude.{◌≡◌};
ghost use Rattle.tl_params.specs.statement.Names.{memory_rule_name};

/// A rule between the links of one manager.
#[derive(Clone, Copy, Debug, PartialEq, Eq)]
pub enum MemoryRule {
    /// A Grant conflicts with the permission that another link holds or is being granted.
    M1,
    /// A GrantData has a byte that memory can't have had then.
    M2,
    /// An AccessAckData has a byte that the access can't have found.
    M3,
    /// An access is answered, and at no moment since its request was complete could it be performed.
    M4,
}

impl MemoryRule {
    /// The rule's name.
    pub fn name(self) -> &'static str
        ensures { result.now ≡ memory_rule_name self }
    {
        match self {
            Self::M1 => "M1",
            Self::M2 => "M2",
            Self::M3 => "M3",
            Self::M4 => "M4",
        }
    }
}
