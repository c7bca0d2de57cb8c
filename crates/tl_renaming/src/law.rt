//! Laws: renaming blocks, sources and sinks changes no verdict.

ghost use Rattle.tl_beat.specs.statement.Width.{IsWidth};
ghost use Rattle.tl_renaming.specs.statement.Renaming.{KeepsHistories, KeepsLegality, KeepsOrder, KeepsTraces};
ghost use Rattle.tl_renaming.specs.statement.Together.{KeepsBreaches, KeepsTogether};
ghost use Rattle.tl_renaming.specs.statement.WideRenaming.{KeepsNarrowed, KeepsWideFaults};
ghost use Rattle.tl_renaming.specs.statement.Widened.{KeepsNarrow};
ghost use Rattle.tl_wide.specs.statement.Width.{IsWideWidth};

/// Under any liberties a renamed beat breaks the same rule as the beat: by itself, as the first beat of a message after
/// a renamed history, and as any beat after one. A renamed trace has the same first fault, at the same place.
pub fn keeps_verdicts<const W: usize>()
    requires { IsWidth W }
    ensures legality { KeepsLegality W }
    ensures order { KeepsOrder W }
    ensures histories { KeepsHistories W }
    ensures traces { KeepsTraces W }
{}

/// If all links of a manager are judged together, a renamed beat breaks the same rule as the beat, after a renamed
/// trace without a beat that breaks a rule of its link. A renamed trace has the same first breach, at the same place.
pub fn keeps_breaches<const W: usize>()
    requires { IsWidth W }
    ensures beats { KeepsTogether W }
    ensures traces { KeepsBreaches W }
{}

/// A trace of beats that have lines has the same first fault if it is written wide: the same rule and place.
pub fn keeps_narrow_traces<const W: usize>()
    requires { IsWidth W }
    ensures { KeepsNarrow W }
{}

/// A renamed wide trace becomes the same narrow trace as the trace, and has the same first fault, at the same place.
pub fn keeps_wide_verdicts<const W: usize>()
    requires { IsWideWidth W }
    ensures narrowed { KeepsNarrowed W }
    ensures faults { KeepsWideFaults W }
{}
