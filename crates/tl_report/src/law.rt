//! Laws: the findings in a trace agree with the verdict that ends at the first fault.

ghost use Rattle.std.specs.Prelude.{◌≤◌, ℕ, List, length};
ghost use Rattle.tl_command.specs.declared.search.Aim.{Aim};
ghost use Rattle.tl_report.specs.declared.findings.Finding.{Finding};
ghost use Rattle.tl_report.specs.statement.Found.{FindsFor, most_of};
ghost use Rattle.tl_report.specs.statement.Said.{first_text, status_of};
ghost use Rattle.tl_wide_event_lines.specs.statement.JudgedWideEvents.{JudgedAny};

/// The first line at fault, the status and, if no line is at fault, the text are those of `monitor` or `coherent`.
pub fn begins_with_the_verdict()
    ensures { (aim : Aim) (lines : List (List ℕ)) (found : List Finding) (beats : ℕ) (cells : List ℕ) →
        FindsFor aim lines found beats cells →
        JudgedAny aim.together aim.allow lines (first_text aim.together found beats) (status_of found) }
{}

/// At most as many lines are found as are looked for.
pub fn finds_at_most()
    ensures { (aim : Aim) (lines : List (List ℕ)) (found : List Finding) (beats : ℕ) (cells : List ℕ) →
        FindsFor aim lines found beats cells → length found ≤ most_of aim }
{}
