//! The judgement of a beat.

ghost use Rattle.std.specs.Prelude.{◌≡◌};
ghost use Rattle.tl_beat.specs.statement.Width.{IsWidth};
ghost use Rattle.tl_manager.specs.code.Admission.{admission_of, judged_by};
ghost use Rattle.tl_manager.specs.statement.Offer;

use tl_beat::beat::Beat;
use tl_rules::rule::Rule;

/// The judgement of a beat that breaks no rule.
#[derive(Clone, Copy, Debug, PartialEq, Eq)]
pub enum Admission {
    /// It is stalled.
    Waits,
    /// It is taken.
    Passes,
}

/// The judgement of a beat that breaks no L rule, by the rule of order that it breaks, and by whether it must wait, is
/// outside the map, and is corrupt or denied. The error is the first rule that it breaks.
pub fn admit(
    broken: Option<Rule>,
    waits: bool,
    outside: bool,
    spoiled: bool,
) -> Result<Admission, Rule>
    ensures { result ≡ admission_of (judged_by broken waits outside spoiled) }
{
    match broken {
        Some(Rule::S1) => return Err(Rule::S1),
        Some(Rule::H1) => return Err(Rule::H1),
        _ => {}
    }
    if waits {
        return Ok(Admission::Waits);
    }
    if let Some(rule) = broken {
        return Err(rule);
    }
    if outside {
        return Err(Rule::A1);
    }
    if spoiled {
        return Err(Rule::A2);
    }
    Ok(Admission::Passes)
}

/// Whether a beat is of a channel on which clients send.
pub fn is_from_client<const W: usize>(beat: &Beat<W>) -> bool
    ensures { result ≡ Offer.is_from_client beat.now }
{
    matches!(beat, Beat::A(_) | Beat::C(_) | Beat::E(_))
}
