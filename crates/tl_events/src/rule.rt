//! The rules that stores, loads and the beats beside them may break.

/// A rule for the stores and loads of cores.
#[derive(Clone, Copy, Debug, PartialEq, Eq)]
pub enum CommitRule {
    /// The cache doesn't hold the copy that was stored to or loaded from.
    M5,
    /// A load brought a byte that the copy can't have.
    M6,
    /// A report gives back a byte that the copy can't have, or gives Trunk up without the bytes that were stored.
    M7,
}

impl CommitRule {
    ghost use Rattle.std.specs.Prelude.{◌≡◌};
    ghost use Rattle.tl_events.specs.statement.Names.{commit_rule_name};

    /// Its name: `M5`, `M6` or `M7`.
    pub fn name(self) -> &'static str
        ensures { result.now ≡ commit_rule_name self }
    {
        match self {
            CommitRule::M5 => "M5",
            CommitRule::M6 => "M6",
            CommitRule::M7 => "M7",
        }
    }
}
