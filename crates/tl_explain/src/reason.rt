//! The reason why a beat breaks S1 or an H rule.

ghost use Rattle.std.specs.Prelude.{◌≡◌, true, Some, IfSome, is_some};
ghost use Rattle.tl_beat.specs.declared.beat.Link.{Link};
ghost use Rattle.tl_explain.specs.code.Chosen;
ghost use Rattle.tl_explain.specs.code.Recorded.{IsRecord, IsRecordUnder};
ghost use Rattle.tl_explain.specs.statement.Reasons.{HasBlockAsked, IsEvidence, IsEvidenceUnder, IsSubject, convicted};
ghost use Rattle.tl_explain.specs.statement.Reasons.{convicted_under, is_always_told};
ghost use Rattle.tl_params.specs.declared.level.Level.{Level};
ghost use Rattle.tl_params.specs.declared.liberties.Liberties.{Liberties};
ghost use Rattle.tl_rules.specs.statement.Conformance;
ghost use Rattle.tl_rules.specs.statement.Conformance.{Trace, on_link};
ghost use Rattle.tl_rules.specs.statement.Liberties.{broken_in_order_under, is_legal_under};

use crate::answer::for_answer;
use crate::bursts::{Begun, begun_of};
use crate::fits::{grows_from, is_misreport};
use crate::held::Held;
use crate::missing::{awaited, first_of, unless_held, where_not_pending, where_pending};
use crate::recorder::Recorder;
use crate::told::Told;
use tl_beat::beat::{Beat, BeatA, BeatB, BeatC, BeatE};
use tl_beat::control::Control;
use tl_beat::opcode::OpB;
use tl_params::key::{Key, block_at};
use tl_params::liberties::Liberties;
use tl_params::param::Cap;
use tl_params::profile::Profile;
use tl_params::rule::Rule;
use tl_rules::kind::{is_acquire, is_probe, is_probe_ack, is_release};
use tl_rules::order::releases_from;

/// The reason why a beat breaks S1 or an H rule.
#[derive(Clone, Copy)]
pub enum Reason {
    /// The key is pending since this message.
    Pending(Key, Told),
    /// No message has opened the key.
    Never(Key),
    /// This message opened the key, and that one closed it.
    Closed(Key, Told, Told),
    /// The message that opened the key is unfinished; this many of its beats have come.
    Unfinished(Key, Told, u8),
    /// The message may not answer this request.
    OtherKind(Told),
    /// The request has another size.
    OtherSize(Told),
    /// The cap doesn't answer this request.
    WrongCap(Told),
    /// This request needs data, given the permission held.
    WithoutData(Told, Held),
    /// A Probe of the request's block is pending.
    Probed(Told, Told),
    /// The param doesn't fit the permission held.
    Holds(Held),
    /// This Probe has another source.
    OtherSource(Told),
    /// ProbeAckData answers this ProbePerm.
    WrongProbe(Told),
    /// The param isn't the report to this Probe, given the permission held.
    Misreport(Told, Held),
    /// The beat doesn't continue this burst.
    Differs(Begun),
}

fn for_request<const W: usize>(
    liberties: Liberties,
    rule: Rule,
    x: &BeatA<W>,
    recorder: &Recorder,
) -> Option<Reason>
    ensures { result ≡ Chosen.for_request liberties rule x.now recorder.now }
{
    let turns = &recorder.turns;
    let block = block_at(x.address);
    match rule {
        Rule::H1 => where_pending(Key::RequestSource(x.source), &turns.request),
        Rule::H4 => {
            if !is_acquire(x.opcode) {
                return None;
            }
            first_of(
                where_pending(Key::AcquireOf(block), &turns.acquire),
                where_pending(Key::ReleaseOf(block), &turns.release),
            )
        }
        Rule::H5 => {
            if !is_acquire(x.opcode) {
                return None;
            }
            let held = recorder.held;
            unless_held(grows_from(liberties, x.param, held.perm), held)
        }
        _ => None,
    }
}

fn for_probe<const W: usize>(rule: Rule, x: &BeatB<W>, recorder: &Recorder) -> Option<Reason>
    ensures { result ≡ Chosen.for_probe rule x.now recorder.now }
{
    let turns = &recorder.turns;
    let block = block_at(x.address);
    match rule {
        Rule::H9 => {
            if !is_probe(x.opcode) {
                return None;
            }
            first_of(
                where_pending(Key::ProbeOf(block), &turns.probe),
                where_pending(Key::GrantAckOf(block), &turns.grant_ack),
            )
        }
        _ => None,
    }
}

fn for_release<const W: usize>(
    liberties: Liberties,
    rule: Rule,
    x: &BeatC<W>,
    recorder: &Recorder,
) -> Option<Reason>
    ensures { result ≡ Chosen.for_release liberties rule x.now recorder.now }
{
    let turns = &recorder.turns;
    let block = block_at(x.address);
    match rule {
        Rule::H1 => where_pending(Key::ReleaseSource(x.source), &turns.release_with_source),
        Rule::H13 => {
            let pending = first_of(
                where_pending(Key::AcquireOf(block), &turns.acquire),
                where_pending(Key::ReleaseOf(block), &turns.release),
            );
            let held = recorder.held;
            let fits = releases_from(liberties, x.param, held.perm);
            first_of(pending, unless_held(fits, held))
        }
        _ => None,
    }
}

fn for_probe_ack<const W: usize>(
    liberties: Liberties,
    rule: Rule,
    x: &BeatC<W>,
    recorder: &Recorder,
) -> Option<Reason>
    ensures { result ≡ Chosen.for_probe_ack liberties rule x.now recorder.now }
{
    let turns = &recorder.turns;
    match rule {
        Rule::H10 => match turns.probe.pending() {
            None => where_not_pending(Key::ProbeOf(block_at(x.address)), &turns.probe, None),
            Some(probe) => where_wrong_probe(liberties, x, probe),
        },
        Rule::H11 => where_pending(Key::ReleaseOf(block_at(x.address)), &turns.release),
        Rule::H12 => {
            let probe = turns.probe.pending()?;
            where_misreported(liberties, x, probe, recorder.held)
        }
        _ => None,
    }
}

/// The reason if the Probe has another source than its ProbeAck, or is a ProbePerm and the ProbeAck has data.
fn where_wrong_probe<const W: usize>(
    liberties: Liberties,
    x: &BeatC<W>,
    probe: Told,
) -> Option<Reason>
    ensures { result ≡ Chosen.probe_in liberties x.now probe probe.mention.control }
{
    match probe.mention.control {
        Control::B(asked) => {
            if liberties.ids && x.source != asked.source {
                Some(Reason::OtherSource(probe))
            } else if x.opcode.carries_data() && asked.opcode != OpB::ProbeBlock {
                Some(Reason::WrongProbe(probe))
            } else {
                None
            }
        }
        _ => None,
    }
}

/// The cap of a Probe.
pub fn cap_asked(probe: &Told) -> Option<Cap> {
    match probe.mention.control {
        Control::B(x) => Cap::from_param(x.param),
        _ => None,
    }
}

/// The reason if a param isn't the report of the Probe's cap and the permission held.
fn where_misreported<const W: usize>(
    liberties: Liberties,
    x: &BeatC<W>,
    probe: Told,
    held: Held,
) -> Option<Reason>
    ensures { result ≡ Chosen.report_in liberties x.now probe probe.mention.control held }
{
    match probe.mention.control {
        Control::B(asked) => {
            if is_misreport(liberties, x.param, asked.param, held.perm) {
                Some(Reason::Misreport(probe, held))
            } else {
                None
            }
        }
        _ => None,
    }
}

fn for_acknowledgement(
    liberties: Liberties,
    rule: Rule,
    x: &BeatE,
    recorder: &Recorder,
) -> Option<Reason>
    ensures { result ≡ Chosen.for_acknowledgement liberties rule x.now recorder.now }
{
    match rule {
        Rule::H8 => {
            let burst = awaited(liberties, &recorder.bursts.d);
            where_not_pending(Key::GrantSink(x.sink), &recorder.turns.sink, burst)
        }
        _ => None,
    }
}

/// The reason if a beat doesn't continue the unfinished burst on its channel.
fn where_differs<const W: usize>(beat: &Beat<W>, burst: Option<Begun>) -> Option<Reason>
    ensures { result ≡ Chosen.differs_by beat.now burst }
{
    let begun = burst?;
    if beat.has_control(&begun.newest) {
        None
    } else {
        Some(Reason::Differs(begun))
    }
}

fn for_message_c<const W: usize>(
    liberties: Liberties,
    rule: Rule,
    x: &BeatC<W>,
    recorder: &Recorder,
) -> Option<Reason>
    ensures { result ≡ Chosen.for_message_c liberties rule x.now recorder.now }
{
    if is_release(x.opcode) {
        for_release(liberties, rule, x, recorder)
    } else if is_probe_ack(x.opcode) {
        for_probe_ack(liberties, rule, x, recorder)
    } else {
        None
    }
}

fn for_message<const W: usize>(
    liberties: Liberties,
    rule: Rule,
    beat: &Beat<W>,
    recorder: &Recorder,
) -> Option<Reason>
    ensures { result ≡ Chosen.for_message liberties rule beat.now recorder.now }
{
    match beat {
        Beat::A(x) => for_request(liberties, rule, x, recorder),
        Beat::B(x) => for_probe(rule, x, recorder),
        Beat::C(x) => for_message_c(liberties, rule, x, recorder),
        Beat::D(x) => for_answer(liberties, rule, x, recorder),
        Beat::E(x) => for_acknowledgement(liberties, rule, x, recorder),
    }
}

fn chosen_reason<const W: usize>(
    liberties: Liberties,
    rule: Rule,
    beat: &Beat<W>,
    recorder: &Recorder,
) -> Option<Reason>
    ensures { result ≡ Chosen.reason_by liberties rule beat.now recorder.now }
{
    let burst = begun_of(recorder.bursts.of(beat));
    if rule == Rule::S1 {
        return where_differs(beat, burst);
    }
    if burst.is_some() {
        return None;
    }
    for_message(liberties, rule, beat, recorder)
}

/// The reason why the beat breaks the rule, by the record of the beats before it; `None` if it doesn't. The claim of
/// the reason is true of those beats, and with the beat alone shows that the rule is broken. If a rule of order is the
/// first that the beat breaks, there is a reason; for H2 and H8 only if no earlier beat of the link was at fault.
///
/// The record must be that of a link without liberties.
pub fn find_reason<const W: usize>(
    profile: Profile,
    rule: Rule,
    beat: &Beat<W>,
    recorder: &Recorder,
) -> Option<Reason>
    ensures told { (t : Trace W) (link : Link) → IsRecord recorder.now t →
        IsSubject recorder.now.subject link beat.now →
        IfSome result (λ reason. IsEvidence recorder.now.subject.link.0 beat.now reason t
        × (convicted profile beat.now reason ≡ Some rule)) }
    ensures first { (t : Trace W) (link : Link) → IsRecord recorder.now t →
        IsSubject recorder.now.subject link beat.now → HasBlockAsked recorder.now.subject beat.now t →
        is_always_told rule ≡ true →
        Conformance.broken_in_order profile beat.now (on_link recorder.now.subject.link.0 t) ≡ Some rule →
        is_some result ≡ true }
    ensures first_fault { (t : Trace W) (link : Link) (level : Level) → IsRecord recorder.now t →
        IsSubject recorder.now.subject link beat.now → HasBlockAsked recorder.now.subject beat.now t →
        Conformance.is_legal level profile (on_link recorder.now.subject.link.0 t) ≡ true →
        Conformance.broken_in_order profile beat.now (on_link recorder.now.subject.link.0 t) ≡ Some rule →
        is_some result ≡ true }
{
    chosen_reason(Liberties::of(profile), rule, beat, recorder)
}

/// `find_reason` on a link with liberties, which are those of the record.
pub fn find_reason_under<const W: usize>(
    rule: Rule,
    beat: &Beat<W>,
    recorder: &Recorder,
) -> Option<Reason>
    ensures told { (l : Liberties) (t : Trace W) (link : Link) → IsRecordUnder l recorder.now t →
        IsSubject recorder.now.subject link beat.now →
        IfSome result (λ reason. IsEvidenceUnder l recorder.now.subject.link.0 beat.now reason t
        × (convicted_under l beat.now reason ≡ Some rule)) }
    ensures first { (l : Liberties) (t : Trace W) (link : Link) → IsRecordUnder l recorder.now t →
        IsSubject recorder.now.subject link beat.now → HasBlockAsked recorder.now.subject beat.now t →
        is_always_told rule ≡ true →
        broken_in_order_under l beat.now (on_link recorder.now.subject.link.0 t) ≡ Some rule →
        is_some result ≡ true }
    ensures first_fault { (l : Liberties) (t : Trace W) (link : Link) (level : Level) → IsRecordUnder l recorder.now t →
        IsSubject recorder.now.subject link beat.now → HasBlockAsked recorder.now.subject beat.now t →
        is_legal_under l level (on_link recorder.now.subject.link.0 t) ≡ true →
        broken_in_order_under l beat.now (on_link recorder.now.subject.link.0 t) ≡ Some rule →
        is_some result ≡ true }
{
    chosen_reason(recorder.liberties, rule, beat, recorder)
}
