//! Reasons for the rules that a message on channel D breaks.

ghost use Rattle.std.specs.Prelude.{◌≡◌};
ghost use Rattle.tl_explain.specs.code.Chosen;
ghost use Rattle.tl_explain.specs.code.Recorded;

use crate::fits::{has_wrong_cap, lacks_data};
use crate::missing::{awaited, first_of, where_not_pending, where_pending};
use crate::reason::Reason;
use crate::recorder::Recorder;
use crate::told::Told;
use tl_beat::beat::BeatD;
use tl_beat::control::Control;
use tl_params::key::{Key, block_at};
use tl_params::liberties::Liberties;
use tl_params::rule::Rule;
use tl_rules::kind::{answers, is_grant, is_release_ack};

/// The reason if the message may not answer this request.
fn where_other_kind<const W: usize>(x: &BeatD<W>, request: Option<Told>) -> Option<Reason>
    ensures { result ≡ Chosen.kind_by x.now request }
{
    let request = request?;
    match request.mention.control {
        Control::A(asked) => {
            if answers(x.opcode, asked.opcode) {
                None
            } else {
                Some(Reason::OtherKind(request))
            }
        }
        _ => None,
    }
}

/// The reason if no complete request with the source is pending, or the message may not answer it.
fn where_not_asked<const W: usize>(
    liberties: Liberties,
    x: &BeatD<W>,
    recorder: &Recorder,
) -> Option<Reason>
    ensures { result ≡ Chosen.where_unasked liberties x.now recorder.now }
{
    let turns = &recorder.turns;
    if is_release_ack(x.opcode) {
        let key = Key::ReleaseSource(x.source);
        let burst = awaited(liberties, &recorder.bursts.c);
        return where_not_pending(key, &turns.release_with_source, burst);
    }
    let key = Key::RequestSource(x.source);
    let burst = awaited(liberties, &recorder.bursts.a);
    first_of(
        where_not_pending(key, &turns.request, burst),
        where_other_kind(x, turns.request.pending()),
    )
}

/// The request or Release that a message on D answers, if it is pending.
fn asked<const W: usize>(x: &BeatD<W>, recorder: &Recorder) -> Option<Told>
    ensures { result ≡ Chosen.asked_by x.now recorder.now }
{
    if is_release_ack(x.opcode) {
        recorder.turns.release_with_source.pending()
    } else {
        recorder.turns.request.pending()
    }
}

/// The reason if the request or Release has another size.
fn where_other_size<const W: usize>(x: &BeatD<W>, request: Option<Told>) -> Option<Reason>
    ensures { result ≡ Chosen.size_by x.now request }
{
    let request = request?;
    match request.mention.control {
        Control::A(asked) => {
            if x.size == asked.size {
                None
            } else {
                Some(Reason::OtherSize(request))
            }
        }
        Control::C(asked) => {
            if x.size == asked.size {
                None
            } else {
                Some(Reason::OtherSize(request))
            }
        }
        _ => None,
    }
}

/// The reason if a Grant doesn't fit its request.
fn where_misgranted<const W: usize>(
    liberties: Liberties,
    x: &BeatD<W>,
    recorder: &Recorder,
) -> Option<Reason>
    ensures { result ≡ Chosen.grant_by liberties x.now (Recorded.open_message recorder.now.turns.request) recorder.now }
{
    let request = recorder.turns.request.pending()?;
    let Control::A(asked) = request.mention.control else {
        return None;
    };
    if has_wrong_cap(liberties, x, asked) {
        return Some(Reason::WrongCap(request));
    }
    if block_at(asked.address) != recorder.subject.block {
        return None;
    }
    let held = recorder.held;
    if lacks_data(liberties, x, asked, held.perm) {
        return Some(Reason::WithoutData(request, held));
    }
    let probe = recorder.turns.probe.pending()?;
    Some(Reason::Probed(request, probe))
}

/// The reason why a message on channel D breaks this rule, if there is one.
pub fn for_answer<const W: usize>(
    liberties: Liberties,
    rule: Rule,
    x: &BeatD<W>,
    recorder: &Recorder,
) -> Option<Reason>
    ensures { result ≡ Chosen.for_answer liberties rule x.now recorder.now }
{
    match rule {
        Rule::H2 => where_not_asked(liberties, x, recorder),
        Rule::H3 => where_other_size(x, asked(x, recorder)),
        Rule::H6 => {
            if !is_grant(x.opcode) {
                return None;
            }
            where_misgranted(liberties, x, recorder)
        }
        Rule::H7 => {
            if !is_grant(x.opcode) {
                return None;
            }
            where_pending(Key::GrantSink(x.sink), &recorder.turns.sink)
        }
        _ => None,
    }
}
