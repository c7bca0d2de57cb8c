//! Laws: the verdict on a trace with another header is as it was, and each verdict is unique.

ghost use Rattle.std.specs.Prelude.{◌≡◌, ◌∷◌, ℕ, Bool, List};
ghost use Rattle.tl_commit_lines.specs.statement.JudgedEvents.{JudgedCommits};
ghost use Rattle.tl_commit_lines.specs.statement.MarkedHeader.{MarkedLinks, SpellsMarked};
ghost use Rattle.tl_lines.specs.declared.status.Status.{Status};
ghost use Rattle.tl_lines.specs.statement.LinksHeader.{NamesLinks};
ghost use Rattle.tl_params.specs.declared.level.Level.{Level};
ghost use Rattle.tl_params.specs.declared.liberties.Liberties.{Liberties};
ghost use Rattle.tl_params.specs.declared.width.Width.{Width};
ghost use Rattle.tl_wide.specs.declared.width.WideWidth.{WideWidth};
ghost use Rattle.tl_wide.specs.statement.Width.{IsWideWidth};
ghost use Rattle.tl_wide_events.specs.statement.Narrowed.{WideEvents};
ghost use Rattle.tl_wide_lines.specs.statement.WideHeader.{SpellsFifth};
ghost use Rattle.tl_wide_event_lines.specs.statement.JudgedWideEvents.{JudgedAny, JudgedWideEvents};
ghost use Rattle.tl_wide_event_lines.specs.statement.WideMarkedHeader.{SpellsWideMarked};

/// A trace whose header isn't that of a wide trace with commits has the verdict that it has without them, and no header
/// that was one before is such a header.
pub fn judged_as_before()
    ensures judged { (together : Bool) (allow : Liberties) (line : List ℕ) (lines : List (List ℕ)) (text : List ℕ)
        (status : Status) →
        ((width : WideWidth) (own : Liberties) (links : MarkedLinks) → ¬ SpellsWideMarked line width own links) →
        JudgedAny together allow (line ∷ lines) text status → JudgedCommits together allow (line ∷ lines) text status }
    ensures links { (line : List ℕ) (width : Width) (other : WideWidth) (may own : Liberties) (levels : List Level)
        (links : MarkedLinks) → NamesLinks line width may levels → ¬ SpellsWideMarked line other own links }
    ensures wide { (line : List ℕ) (width other : WideWidth) (may own : Liberties) (levels : List Level)
        (links : MarkedLinks) → SpellsFifth line width may levels → ¬ SpellsWideMarked line other own links }
    ensures marked { (line : List ℕ) (width : Width) (other : WideWidth) (may own : Liberties)
        (links others : MarkedLinks) → SpellsMarked line width may links → ¬ SpellsWideMarked line other own others }
{}

/// Two verdicts on the same lines of wide events are equal.
pub fn judged_once<const W: usize>()
    requires { IsWideWidth W }
    ensures { (together : Bool) (links : MarkedLinks) (may : Liberties) (t : WideEvents W) (lines : List (List ℕ))
        (text other : List ℕ) (status another : Status) → JudgedWideEvents W together links may t lines text status →
        JudgedWideEvents W together links may t lines other another → (text ≡ other) × (status ≡ another) }
{}
