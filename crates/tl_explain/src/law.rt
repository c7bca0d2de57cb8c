//! Laws: the claims about a trace are true.

ghost use Rattle.std.specs.Prelude.{◌≡◌, ℕ, None, Some, false, true};
ghost use Rattle.tl_beat.specs.declared.beat.Beat.{Beat};
ghost use Rattle.tl_beat.specs.statement.First.{first_if};
ghost use Rattle.tl_burst.specs.statement.Messages.{History, breaks_burst, channel_of, unfinished};
ghost use Rattle.tl_params.specs.declared.key.Key.{Key};
ghost use Rattle.tl_params.specs.declared.liberties.Liberties.{Liberties};
ghost use Rattle.tl_params.specs.declared.profile.Profile.{Profile};
ghost use Rattle.tl_params.specs.declared.rule.Rule.{Rule};
ghost use Rattle.tl_params.specs.declared.rule.Rule.TheVariants.{S1};
ghost use Rattle.tl_rules.specs.statement.Conformance.{Trace, broken_in_order, on_link};
ghost use Rattle.tl_rules.specs.statement.History.{begins, held, pending};
ghost use Rattle.tl_rules.specs.statement.Liberties.{broken_in_order_under, held_under};
ghost use Rattle.tl_explain.specs.declared.told.Mention.{Mention};
ghost use Rattle.tl_explain.specs.statement.Evidence.{is_open, last_closing, last_opening, last_saying, left_of};
ghost use Rattle.tl_explain.specs.statement.Evidence.{last_saying_under};
ghost use Rattle.tl_explain.specs.statement.Evidence.{is_opening, is_closing, is_saying};
ghost use Rattle.tl_explain.specs.declared.reason.Reason.{Reason};
ghost use Rattle.tl_explain.specs.statement.Reasons.{Breaks, IsEvidence, IsEvidenceUnder, convicted, convicted_under};
ghost use Rattle.tl_explain.specs.statement.Reasons.{first_broken};
ghost use Rattle.tl_explain.specs.statement.OrderRules.{BreaksUnder, first_broken_under, order_rules};
ghost use Rattle.tl_explain.specs.statement.Since.{IsHeldSince, IsHeldSinceUnder, IsLast, IsLastIfAny, IsPendingSince};

/// A key is pending exactly if no closing follows its last opening.
pub fn pending_where_open()
    ensures { (w n : ℕ) (k : Key) (t : Trace w) →
        pending k (on_link n t) ≡ is_open (last_opening n k t) (last_closing n k t) }
{}

/// The permission held of a block is the one that the cited message leaves.
pub fn held_is_left()
    ensures { (w n k : ℕ) (t : Trace w) → held k (on_link n t) ≡ left_of (last_saying n k t) }
{}

/// The messages cited as the last that opened a key, that closed it and that left the permission held are in the cited
/// lines, and no later message is such a one. If none is cited there is none.
pub fn last_are_last()
    ensures opening { (w n : ℕ) (k : Key) (t : Trace w) →
        IsLastIfAny (is_opening n k) (last_opening n k t) t }
    ensures closing { (w n : ℕ) (k : Key) (t : Trace w) →
        IsLastIfAny (is_closing n k) (last_closing n k t) t }
    ensures saying { (w n k : ℕ) (t : Trace w) → IsLastIfAny (is_saying n k) (last_saying n k t) t }
    ensures only { (w n : ℕ) (k : Key) (m : Mention) (t : Trace w) → IsLast (is_opening n k) m t →
        last_opening n k t ≡ Some m }
{}

/// A key that is pending is so since its last opening: no later message opened or closed it. A key of which this is
/// true is pending.
pub fn pending_since_opening()
    ensures since { (w n : ℕ) (k : Key) (m : Mention) (t : Trace w) → pending k (on_link n t) ≡ true →
        last_opening n k t ≡ Some m → IsPendingSince n k m t }
    ensures pending { (w n : ℕ) (k : Key) (m : Mention) (t : Trace w) → IsPendingSince n k m t →
        pending k (on_link n t) ≡ true }
{}

/// The permission held of a block is so since the last message that set it; no later message changes it.
pub fn held_since_saying()
    ensures profile { (w n k : ℕ) (t : Trace w) → IsHeldSince n k (left_of (last_saying n k t)) (last_saying n k t) t }
    ensures under { (w n k : ℕ) (l : Liberties) (t : Trace w) →
        IsHeldSinceUnder l n k (held_under l k (on_link n t)) (last_saying_under l n k t) t }
{}

/// The evidence for a verdict convicts: if the claim of a reason is true of a trace, the beat breaks the rule that
/// follows from the reason and the beat alone.
pub fn evidence_convicts()
    ensures { (w n : ℕ) (p : Profile) (rule : Rule) (x : Beat w) (reason : Reason) (t : Trace w) →
        IsEvidence n x reason t →
        convicted p x reason ≡ Some rule → Breaks p rule x (on_link n t) }
{}

/// The same under any liberties.
pub fn evidence_convicts_under()
    ensures { (w n : ℕ) (l : Liberties) (rule : Rule) (x : Beat w) (reason : Reason) (t : Trace w) →
        IsEvidenceUnder l n x reason t →
        convicted_under l x reason ≡ Some rule → BreaksUnder l rule x (on_link n t) }
{}

/// A monitor judges by the rules of order as they are here, each by itself. The first rule that a beat breaks at the
/// start of a message is the first of the H rules that it breaks. A beat that continues a burst breaks S1 or none. So
/// the first rule that a beat breaks is one that it breaks by itself.
pub fn first_rule_broken()
    ensures message { (w : ℕ) (p : Profile) (x : Beat w) (t : History w) → begins x t ≡ true →
        broken_in_order p x t ≡ first_broken p order_rules x t }
    ensures burst { (w : ℕ) (p : Profile) (x : Beat w) (t : History w) → begins x t ≡ false →
        broken_in_order p x t ≡ first_if (breaks_burst x (unfinished (channel_of x) t)) S1 None }
    ensures itself { (w : ℕ) (p : Profile) (rule : Rule) (x : Beat w) (t : History w) →
        broken_in_order p x t ≡ Some rule → Breaks p rule x t }
{}

/// The same under any liberties.
pub fn first_rule_broken_under()
    ensures message { (w : ℕ) (l : Liberties) (x : Beat w) (t : History w) → begins x t ≡ true →
        broken_in_order_under l x t ≡ first_broken_under l order_rules x t }
    ensures burst { (w : ℕ) (l : Liberties) (x : Beat w) (t : History w) → begins x t ≡ false →
        broken_in_order_under l x t ≡ first_if (breaks_burst x (unfinished (channel_of x) t)) S1 None }
    ensures itself { (w : ℕ) (l : Liberties) (rule : Rule) (x : Beat w) (t : History w) →
        broken_in_order_under l x t ≡ Some rule → BreaksUnder l rule x t }
{}
