//! Laws: the verdict on a narrow trace is as it was, and the verdict on a wide trace is unique.

ghost use Rattle.std.specs.Prelude.{◌≡◌, ◌∷◌, ℕ, Bool, List};
ghost use Rattle.tl_lines.specs.declared.status.Status.{Status};
ghost use Rattle.tl_lines.specs.statement.JudgedLinks.{JudgedLinks};
ghost use Rattle.tl_lines.specs.statement.LinksHeader.{NamesLinks};
ghost use Rattle.tl_params.specs.declared.level.Level.{Level};
ghost use Rattle.tl_params.specs.declared.liberties.Liberties.{Liberties};
ghost use Rattle.tl_params.specs.declared.width.Width.{Width};
ghost use Rattle.tl_wide.specs.statement.Width.{IsWideWidth};
ghost use Rattle.tl_wide_lines.specs.statement.JudgedTrace.{JudgedTrace, JudgedWide};

/// A trace with a header of the first four versions has the verdict that it has without the fifth version.
pub fn judged_as_before()
    ensures { (together : Bool) (allow : Liberties) (line : List ℕ) (lines : List (List ℕ)) (text : List ℕ)
        (status : Status)
        (width : Width) (own : Liberties) (levels : List Level) → NamesLinks line width own levels →
        JudgedTrace together allow (line ∷ lines) text status → JudgedLinks together allow (line ∷ lines) text status }
{}

/// Two verdicts on the same lines of wide beats are equal.
pub fn judged_once<const W: usize>()
    requires { IsWideWidth W }
    ensures { (together : Bool) (may : Liberties) (levels : List Level) (lines : List (List ℕ)) (text other : List ℕ)
        (status another : Status) → JudgedWide W together may levels lines text status →
        JudgedWide W together may levels lines other another → (text ≡ other) × (status ≡ another) }
{}
