//! A law: more liberties convict nothing that fewer allow.

ghost use Rattle.tl_forgiving.specs.statement.Forgiving.{ForgivesHistories, ForgivesTraces, HoldsAlike};

/// A link's history, or a recorded trace of several links, that breaks no rule under some liberties breaks none under
/// more. After such a history the permissions held are the same.
pub fn forgives_more<const W: usize>()
    ensures histories { ForgivesHistories W }
    ensures traces { ForgivesTraces W }
    ensures held { HoldsAlike W }
{}
