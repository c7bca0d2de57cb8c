//! A law of headers that name no liberties.

ghost use Rattle.std.specs.Prelude.{◌∷◌, ℕ, List, false, true};
ghost use Rattle.tl_lines.specs.declared.status.Status.{Status};
ghost use Rattle.tl_lines.specs.statement.Coherent.{JudgedTogether};
ghost use Rattle.tl_lines.specs.statement.Judged.{Judged};
ghost use Rattle.tl_lines.specs.statement.Trace.{SpellsHeader};
ghost use Rattle.tl_lines.specs.statement.JudgedLinks.{JudgedLinks};
ghost use Rattle.tl_params.specs.declared.level.Level.{Level};
ghost use Rattle.tl_params.specs.declared.profile.Profile.{Profile};
ghost use Rattle.tl_params.specs.declared.width.Width.{Width};
ghost use Rattle.tl_params.specs.statement.Liberties.{no_liberties};

/// A trace with a header of the first three versions, whose links are allowed no more, has the judgement of `monitor`;
/// with all links together, that of `coherent`.
pub fn judged_by_profile()
    ensures links { (line : List ℕ) (lines : List (List ℕ)) (text : List ℕ) (status : Status) (width : Width)
        (p : Profile) (levels : List Level) → SpellsHeader line width p levels →
        JudgedLinks false no_liberties (line ∷ lines) text status → Judged (line ∷ lines) text status }
    ensures together { (line : List ℕ) (lines : List (List ℕ)) (text : List ℕ) (status : Status) (width : Width)
        (p : Profile) (levels : List Level) → SpellsHeader line width p levels →
        JudgedLinks true no_liberties (line ∷ lines) text status → JudgedTogether (line ∷ lines) text status }
{}
