//! Shows that a beat breaks a rule of its link, and appends the grounds.

ghost use Rattle.std.specs.Prelude.{◌≡◌, IfOk, Some, true};
ghost use Rattle.tl_beat.specs.statement.Width.{IsWidth};
ghost use Rattle.tl_reasons.specs.statement.Explained.{broken_alone};
ghost use Rattle.tl_evidence.specs.code.Guilty.{HasReason, IsGuilty};
ghost use Rattle.tl_explain.specs.statement.Reasons.{IsSubject};

use std::alloc::AllocError;
use tl_beat::beat::{Beat, Link};
use tl_explain::reason::find_reason_under;
use tl_explain::recorder::Recorder;
use tl_explain::turns::Subject;
use tl_explain::wording::Wording;
use tl_explain::{legal, tell};
use tl_params::key::block_at;
use tl_params::level::Level;
use tl_params::liberties::Liberties;
use tl_reasons::explain::{is_illegal, is_legality};
use tl_rules::rule::Rule;

/// Whether the subject is that of a verdict on the beat.
fn is_subject<const W: usize>(subject: &Subject, link: Link, beat: &Beat<W>) -> bool
    ensures { result ≡ true → IsSubject subject.now link beat.now }
{
    if subject.link != link {
        return false;
    }
    match beat {
        Beat::A(x) => subject.source == x.source && subject.block == block_at(x.address),
        Beat::B(x) => subject.block == block_at(x.address),
        Beat::C(x) => subject.source == x.source && subject.block == block_at(x.address),
        Beat::D(x) => subject.source == x.source && subject.sink == x.sink,
        Beat::E(x) => subject.sink == x.sink,
    }
}

/// Appends the grounds if a beat breaks this rule by itself. Returns true if it does.
fn tell_illegal<const W: usize, X: Wording<W>>(
    wording: &X,
    may: Liberties,
    level: Option<Level>,
    rule: Rule,
    beat: &Beat<W>,
    grounds: &mut Vec<u8>,
) -> Result<bool, AllocError>
    requires { IsWidth W }
    ensures { IfOk result (λ told. told ≡ true → broken_alone may level beat.now ≡ Some rule) }
{
    if !is_illegal(may, level, rule, beat) {
        return Ok(false);
    }
    let told = legal::tell_in(wording, may, level, rule, beat, grounds);
    told.map_err(|_| AllocError)?;
    Ok(true)
}

/// Appends the grounds if a beat breaks this rule of order. Returns true if it does.
fn tell_order<const W: usize, X: Wording<W>>(
    wording: &X,
    may: Liberties,
    recorder: &Recorder,
    rule: Rule,
    beat: &Beat<W>,
    grounds: &mut Vec<u8>,
) -> Result<bool, AllocError>
    requires { IsWidth W }
    ensures { IfOk result (λ told. told ≡ true → HasReason may recorder.now rule beat.now) }
{
    let Some(reason) = find_reason_under(rule, beat, recorder) else {
        return Ok(false);
    };
    let told = tell::tell_in(wording, may, beat, &reason, recorder, grounds);
    told.map_err(|_| AllocError)?;
    Ok(true)
}

/// Appends the grounds, in this wording, if a beat of a link of this level, which has these liberties, breaks a rule of
/// its link after the beats that were recorded. Returns true if it does.
pub fn tell_conviction<const W: usize, X: Wording<W>>(
    wording: &X,
    may: Liberties,
    level: Option<Level>,
    recorder: &Recorder,
    rule: Rule,
    link: Link,
    beat: &Beat<W>,
    grounds: &mut Vec<u8>,
) -> Result<bool, AllocError>
    requires { IsWidth W }
    ensures { IfOk result (λ told. told ≡ true → IsGuilty may level recorder.now rule link beat.now) }
{
    if !is_subject(&recorder.subject, link, beat) {
        return Ok(false);
    }
    if is_legality(rule) {
        tell_illegal(wording, may, level, rule, beat, grounds)
    } else {
        tell_order(wording, may, recorder, rule, beat, grounds)
    }
}
