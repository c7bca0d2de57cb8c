//! Laws of the texts of commands.

ghost use Rattle.std.specs.Prelude.{◌≡◌, ℕ, List};
ghost use Rattle.tl_command.specs.statement.LibertyWords.{SpellsLiberties};
ghost use Rattle.tl_params.specs.declared.profile.Profile.{Profile};
ghost use Rattle.tl_params.specs.statement.Liberties.{liberties_of};
ghost use Rattle.tl_engine.specs.laws.Clean.{IsClean, IsCoherent, IsUpTo};
ghost use Rattle.tl_engine.specs.statement.CommitsHeader.{liberties_text};
ghost use Rattle.tl_engine.specs.statement.Told.{text_told};
ghost use Rattle.tl_lines.specs.declared.status.Status.{Status};
ghost use Rattle.tl_command.specs.declared.command.Command.{Command};
ghost use Rattle.tl_command.specs.declared.command.Command.TheVariants.{Run};
ghost use Rattle.tl_command.specs.declared.command.RunForm.{RunForm};

/// A command has one text and one status for the same lines.
pub fn told_once()
    ensures { (command : Command) (lines : List (List ℕ)) (text other : List ℕ) (status another : Status) →
        text_told command lines text status → text_told command lines other another →
        (text ≡ other) × (status ≡ another) }
{}

/// A command has a text for any lines.
pub fn always_told()
    ensures { (command : Command) (lines : List (List ℕ)) → (text : List ℕ) × (status : Status)
        × text_told command lines text status }
{}

/// `run --trace` writes a trace in which `monitor` finds no fault, up to the fault that ends it.
pub fn traces_without_fault()
    ensures { (lines : List (List ℕ)) (text : List ℕ) (status : Status) → text_told (Run RunForm.Trace) lines text status →
        IsUpTo IsClean text status }
{}

/// `coherent` finds no fault in that trace either.
pub fn traces_coherent()
    ensures { (lines : List (List ℕ)) (text : List ℕ) (status : Status) → text_told (Run RunForm.Trace) lines text status →
        IsUpTo IsCoherent text status }
{}

/// The header of `run --trace --commits` names the liberties of the schedule's profile.
pub fn names_liberties()
    ensures { (profile : Profile) → SpellsLiberties (liberties_text profile) (liberties_of profile) }
{}
