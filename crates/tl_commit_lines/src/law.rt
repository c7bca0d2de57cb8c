//! Laws: the verdict on a trace without commits is as it was, and each verdict is unique.

ghost use Rattle.std.specs.Prelude.{◌≡◌, ◌∷◌, ℕ, Bool, List};
ghost use Rattle.tl_beat.specs.statement.Width.{IsWidth};
ghost use Rattle.tl_commits.specs.statement.Events.{Events};
ghost use Rattle.tl_lines.specs.declared.status.Status.{Status};
ghost use Rattle.tl_lines.specs.statement.LinksHeader.{NamesLinks};
ghost use Rattle.tl_params.specs.declared.level.Level.{Level};
ghost use Rattle.tl_params.specs.declared.liberties.Liberties.{Liberties};
ghost use Rattle.tl_params.specs.declared.width.Width.{Width};
ghost use Rattle.tl_wide.specs.declared.width.WideWidth.{WideWidth};
ghost use Rattle.tl_wide_lines.specs.statement.JudgedTrace.{JudgedTrace};
ghost use Rattle.tl_wide_lines.specs.statement.WideHeader.{SpellsFifth};
ghost use Rattle.tl_commit_lines.specs.statement.JudgedEvents.{JudgedCommits, JudgedEvents};
ghost use Rattle.tl_commit_lines.specs.statement.MarkedHeader.{MarkedLinks, SpellsMarked};

/// A trace whose header names no link of level C+, and doesn't say that memory was zero, has the verdict that it has
/// without commits, and no header that was one before says either.
pub fn judged_as_before()
    ensures judged { (together : Bool) (allow : Liberties) (line : List ℕ) (lines : List (List ℕ)) (text : List ℕ)
        (status : Status) →
        ((width : Width) (own : Liberties) (links : MarkedLinks) → ¬ SpellsMarked line width own links) →
        JudgedCommits together allow (line ∷ lines) text status → JudgedTrace together allow (line ∷ lines) text status }
    ensures links { (line : List ℕ) (width other : Width) (may own : Liberties) (levels : List Level)
        (links : MarkedLinks) → NamesLinks line width may levels → ¬ SpellsMarked line other own links }
    ensures wide { (line : List ℕ) (width : WideWidth) (other : Width) (may own : Liberties) (levels : List Level)
        (links : MarkedLinks) → SpellsFifth line width may levels → ¬ SpellsMarked line other own links }
{}

/// Two verdicts on the same lines of events are equal.
pub fn judged_once<const W: usize>()
    requires { IsWidth W }
    ensures { (together : Bool) (links : MarkedLinks) (may : Liberties) (e : Events W) (lines : List (List ℕ))
        (text other : List ℕ) (status another : Status) → JudgedEvents W together links may e lines text status →
        JudgedEvents W together links may e lines other another → (text ≡ other) × (status ≡ another) }
{}
