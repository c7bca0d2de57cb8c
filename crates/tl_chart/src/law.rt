//! Laws of the drawing of a trace.

ghost use Rattle.std.specs.Prelude.{◌≡◌, ℕ};
ghost use Rattle.tl_chart.specs.declared.window.Window.{Window};
ghost use Rattle.tl_chart.specs.statement.Drawn.{drawn};
ghost use Rattle.tl_params.specs.declared.profile.Profile.{Profile};
ghost use Rattle.tl_params.specs.statement.Liberties.{liberties_of};
ghost use Rattle.tl_rules.specs.statement.Conformance.{Trace};
ghost use Rattle.tl_rules.specs.statement.History.{held};
ghost use Rattle.tl_rules.specs.statement.Liberties.{held_under};

/// The drawing under the liberties of a profile is the one without liberties.
pub fn drawn_by_profile()
    ensures { (w : ℕ) (p : Profile) (window : Window) (t : Trace w) →
        drawn (held_under (liberties_of p)) window t ≡ drawn held window t }
{}
