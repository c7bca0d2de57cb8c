//! The change that a beat makes to the state of the block that it concerns.

ghost use Rattle.std.specs.Prelude.{ℕ, suc, Option, Some, None, ◌≡◌, ◌≤◌, ◌&&◌, true, false, not, length, IfOk, IsTrue};
ghost use Rattle.tl_beat.specs.declared.beat.Beat.{Beat};
ghost use Rattle.tl_beat.specs.declared.beat.Beat.TheVariants as beat;
ghost use Rattle.tl_beat.specs.declared.beat.Link.{Link};
ghost use Rattle.tl_beat.specs.declared.channel.Channel.TheVariants as channel;
ghost use Rattle.tl_beat.specs.statement.Width.{IsWidth};
ghost use Rattle.tl_burst.specs.statement.Messages.{unfinished};
ghost use Rattle.tl_burst.specs.statement.Part;
ghost use Rattle.tl_rules.specs.statement.Conformance.{Trace, on_link};
ghost use Rattle.tl_rules.specs.statement.History.{block_at};
ghost use Rattle.tl_memory.specs.declared.free.Freedom.{Freedom};
ghost use Rattle.tl_bytes.specs.statement.Bytes as bytes;
ghost use Rattle.tl_memory.specs.code.Early.{is_answered, outrun_in};
ghost use Rattle.tl_beat.specs.statement.Opcode.{c_carries_data};
ghost use Rattle.tl_memory.specs.code.Elsewhere.{block_borne, block_released};
ghost use Rattle.tl_memory.specs.code.Taking.{IsLegalBeat, IsOrdered, with_next};
ghost use Rattle.tl_memory.specs.code.Taking.{IsNext, IsNextAsked, IsNextUnseen, IsRequested, IsResponse};
ghost use Rattle.tl_rules.specs.code.Open.{open_request};
ghost use Rattle.tl_rules.specs.declared.past.Request.{Request};
ghost use Rattle.tl_rules.specs.statement.History.{ends, is_release_ack};
ghost use Rattle.tl_bytes.specs.statement.Early.{outruns};
ghost use Rattle.tl_beat.specs.declared.beat.{BeatA.BeatA, BeatD.BeatD};
ghost use Rattle.tl_memory.specs.code.Taking.{IsSeen};
ghost use Rattle.tl_memory.specs.code.Taking.{request_answered};
ghost use Rattle.tl_memory.specs.code.Taking as taking;
ghost use Rattle.tl_memory.specs.statement.Known.{KnowsMessage, KnowsState, KnowsUnseen};
ghost use Rattle.tl_memory.specs.statement.Links.{KnowsMessages};

use crate::access::is_access;
use crate::block::BlockState;
use crate::early::OutrunAccess;
use crate::link::LinkMessages;
use crate::message::{CarriedMessage, both};
use crate::next_state::NextState;
use crate::passing::{acquires_from_none, asks};
use std::alloc::{AllocError, Global};
use tl_beat::beat::{Beat, BeatA, BeatC, BeatD, Link};
use tl_beat::opcode::{OpA, OpD};
use tl_rules::kind::is_release_ack;
use tl_rules::past::Request;

/// The change by a beat of channel A, at this moment, if it asks for an access. `brought` are the bytes of the beats
/// before it of its message. The error means that there is no memory left.
pub fn after_request<const W: usize>(
    alloc: Global,
    state: &BlockState<W>,
    link: Link,
    y: &BeatA<W>,
    brought: &CarriedMessage,
    moment: u64,
) -> Result<Option<NextState<W>>, AllocError>
    requires width { IsWidth W }
    requires small { y.now.size ≤ 6 }
    ensures { IfOk result (λ next. (n block : ℕ) (t : Trace W) → KnowsState state.now n block t →
        KnowsMessage brought.now (unfinished channel.A (on_link link.0 t)) → IsRequested link.0 y.now t →
        block_at y.now.address ≡ block → moment ≡ suc (length t) →
        IsNextAsked next state.now n block (link, beat.A y.now) t) }
{
    if !asks(y, brought) {
        return Ok(None);
    }
    if let Some(access) = state.outrun_of(link, y.source) {
        return after_outrun_request(
            alloc,
            state,
            access,
            brought.completes(&Beat::A(*y)),
            moment,
        );
    }
    let all = brought.with(&Beat::A(*y));
    Ok(Some(state.asked(alloc, link, y, &all, moment)?))
}

/// The change by a beat of the request of an access whose answer outran it, at this moment: the last beat settles it if
/// the answer is complete. The error means that there is no memory left.
fn after_outrun_request<const W: usize>(
    alloc: Global,
    state: &BlockState<W>,
    access: &OutrunAccess,
    completes: bool,
    moment: u64,
) -> Result<Option<NextState<W>>, AllocError>
    ensures { IfOk result (λ next. (n block : ℕ) (link : Link) (y : BeatA W) (t : Trace W) →
        KnowsState state.now n block t → IsRequested link.0 y t → block_at y.address ≡ block →
        bytes.asks y (on_link link.0 t) ≡ true → completes ≡ ends (beat.A y) (on_link link.0 t) →
        Some access.now ≡ outrun_in link.0 y.source state.now.outrun → moment ≡ suc (length t) →
        IsNextUnseen next state.now n block (link, beat.A y) t) }
{
    if !both(completes, access.answered) {
        return Ok(None);
    }
    let before = moment.saturating_sub(1);
    Ok(Some(state.settled(alloc, access, before)?))
}

/// Whether the last beat of a report sets its block's bytes: it has data, and belongs to no Release that was answered.
pub(crate) fn says<const W: usize>(y: &BeatC<W>, messages: &LinkMessages) -> bool
    ensures { result ≡ (c_carries_data y.now.opcode && not (is_answered messages.now.releasing)) }
{
    both(y.opcode.carries_data(), !messages.is_released())
}

/// The change by a beat of channel C, if it completes a report. A Release that was answered already changes no byte.
/// `messages` are the unfinished messages of its link, `moment` is the number of beats before it. The error means that
/// there is no memory left, or that `moment` is 2^64 - 1.
pub fn after_report<const W: usize>(
    alloc: Global,
    state: &BlockState<W>,
    y: &BeatC<W>,
    messages: &LinkMessages,
    moment: u64,
) -> Result<Option<NextState<W>>, AllocError>
    requires width { IsWidth W }
    requires small { y.now.size ≤ 6 }
    ensures { IfOk result (λ next. (n block : ℕ) (link : Link) (t : Trace W) →
        KnowsState state.now n block t →
        KnowsMessages messages.now (on_link link.0 t) → IsLegalBeat link.0 (beat.C y.now) t →
        block_at y.now.address ≡ block → moment ≡ length t →
        IsNextUnseen next state.now n block (link, beat.C y.now) t) }
{
    let beat = Beat::C(*y);
    let brought = &messages.c;
    if !brought.completes(&beat) {
        return Ok(None);
    }
    if !says(y, messages) {
        return Ok(Some(state.passed(alloc)?));
    }
    let all = brought.with(&beat);
    Ok(Some(state.told(alloc, all.bytes.bytes(), moment)?))
}

/// Whether a response to such a request sets the block's bytes, if it isn't denied.
fn tells_block(opcode: OpD, asked: OpA) -> bool
    ensures { result ≡ taking.tells_block opcode asked }
{
    match opcode {
        OpD::GrantData => true,
        OpD::Grant => asked == OpA::AcquirePerm,
        _ => false,
    }
}

/// Whether a response to such a request sets the block's bytes. A denied one doesn't.
pub(crate) fn tells<const W: usize>(y: &BeatD<W>, asked: OpA) -> bool
    ensures { result ≡ taking.tells_response y.now asked }
{
    both(!y.denied, tells_block(y.opcode, asked))
}

/// The change by a beat of channel D that completes the answer to an access on a link; `moment` is the number of beats
/// before it, `brought` are the bytes of the answer's beats before it. The error means that there is no memory left.
fn after_answer<const W: usize>(
    alloc: Global,
    state: &BlockState<W>,
    link: Link,
    y: &BeatD<W>,
    brought: &CarriedMessage,
    moment: u64,
) -> Result<NextState<W>, AllocError>
    requires { IsWidth W }
    ensures { IfOk result (λ next. (n block : ℕ) (asked : Request) (t : Trace W) →
        KnowsState state.now n block t → IsResponse link.0 y.now asked t → bytes.is_access asked.opcode ≡ true →
        asked.block ≡ block → outruns y.now (on_link link.0 t) ≡ false →
        ends (beat.D y.now) (on_link link.0 t) ≡ true →
        KnowsMessage brought.now (unfinished channel.D (on_link link.0 t)) → moment ≡ length t →
        KnowsUnseen (with_next state.now next) n block (link, beat.D y.now) t) }
{
    match state.outrun_of(link, y.source) {
        Some(access) => state.settled(alloc, access, moment),
        None => state.answered(alloc, link, y, brought, moment),
    }
}

/// The change by a beat of channel D, if it completes a response to this request, which is complete. `messages` are the
/// unfinished messages of its link, `moment` is the number of beats before it. The error means that there is no memory
/// left, or that `moment` is 2^64 - 1.
pub fn after_response<const W: usize>(
    alloc: Global,
    state: &BlockState<W>,
    link: Link,
    y: &BeatD<W>,
    asked: Request,
    messages: &LinkMessages,
    moment: u64,
) -> Result<Option<NextState<W>>, AllocError>
    requires width { IsWidth W }
    requires small { y.now.size ≤ 6 }
    ensures { IfOk result (λ next. (n block : ℕ) (t : Trace W) →
        KnowsState state.now n block t → KnowsMessages messages.now (on_link link.0 t) →
        IsResponse link.0 y.now asked t → outruns y.now (on_link link.0 t) ≡ false →
        IsOrdered link.0 (beat.D y.now) t → asked.block ≡ block → moment ≡ length t →
        IsNextUnseen next state.now n block (link, beat.D y.now) t) }
{
    let beat = Beat::D(*y);
    let brought = &messages.d;
    if !brought.completes(&beat) {
        return Ok(None);
    }
    if both(tells(y, asked.opcode), !messages.is_overtaken()) {
        let all = brought.with(&beat);
        return Ok(Some(state.told(alloc, all.bytes.bytes(), moment)?));
    }
    if is_access(asked.opcode) {
        return Ok(Some(after_answer(alloc, state, link, y, brought, moment)?));
    }
    Ok(Some(state.passed(alloc)?))
}

/// The change by a ReleaseAck that comes before its Release is complete: the bytes that have come are those of its beats.
/// The error is as that of `told`.
fn after_early_ack<const W: usize>(
    alloc: Global,
    state: &BlockState<W>,
    messages: &LinkMessages,
    moment: u64,
) -> Result<Option<NextState<W>>, AllocError>
    ensures { IfOk result (λ next. (n block : ℕ) (link : Link) (y : BeatD W) (t : Trace W) →
        KnowsState state.now n block t → KnowsMessages messages.now (on_link link.0 t) →
        is_release_ack y.opcode ≡ true → ends (beat.D y) (on_link link.0 t) ≡ true →
        block_released y.source (unfinished channel.C (on_link link.0 t)) ≡ Some block → moment ≡ length t →
        IsNextUnseen next state.now n block (link, beat.D y) t) }
{
    Ok(Some(state.told(alloc, messages.c.bytes.bytes(), moment)?))
}

/// The change by a beat of channel D. `asked` is the complete request that it answers, if there is one, and `moment` the
/// number of beats before it. The error means that there is no memory left, or that `moment` is 2^64 - 1.
fn after_any_response<const W: usize>(
    alloc: Global,
    state: &BlockState<W>,
    link: Link,
    y: &BeatD<W>,
    asked: Option<Request>,
    messages: &LinkMessages,
    moment: u64,
) -> Result<Option<NextState<W>>, AllocError>
    requires width { IsWidth W }
    requires small { y.now.size ≤ 6 }
    ensures { IfOk result (λ next. (n block : ℕ) (t : Trace W) →
        KnowsState state.now n block t → KnowsMessages messages.now (on_link link.0 t) →
        IsLegalBeat link.0 (beat.D y.now) t → asked ≡ open_request y.now.source (on_link link.0 t) →
        block_borne (beat.D y.now) (on_link link.0 t) ≡ Some block → moment ≡ length t →
        IsNextUnseen next state.now n block (link, beat.D y.now) t) }
{
    if is_release_ack(y.opcode) {
        return after_early_ack(alloc, state, messages, moment);
    }
    if let Some(asking) = messages.asks_with(y.source) {
        let answered = messages.d.completes(&Beat::D(*y));
        return Ok(Some(state.outrun(alloc, link, &asking, answered)?));
    }
    match asked {
        Some(asked) => after_response(alloc, state, link, y, asked, messages, moment),
        None => Ok(None),
    }
}

/// The change by a beat of channel A, at this moment. An Acquire from None may change whether the block is free.
/// `brought` are the bytes of the beats before it of its message.
fn after_asking<const W: usize>(
    alloc: Global,
    state: &BlockState<W>,
    link: Link,
    y: &BeatA<W>,
    brought: &CarriedMessage,
    moment: u64,
) -> Result<Option<NextState<W>>, AllocError>
    requires width { IsWidth W }
    requires small { y.now.size ≤ 6 }
    ensures { IfOk result (λ next. (n block : ℕ) (free : Option Freedom) (t : Trace W) →
        KnowsState state.now n block t →
        KnowsMessage brought.now (unfinished channel.A (on_link link.0 t)) → IsRequested link.0 y.now t →
        block_at y.now.address ≡ block → moment ≡ suc (length t) →
        IsSeen free n block (link, beat.A y.now) t → IsNext next free state.now n block (link, beat.A y.now) t) }
{
    if acquires_from_none(y) {
        return Ok(Some(state.passed(alloc)?));
    }
    after_request(alloc, state, link, y, brought, moment)
}

/// The change by a beat, at this moment, to the state of the block that it concerns, if it makes one. `asked` is the
/// request that the beat answers, `messages` are the unfinished messages of its link. The error means that there is no
/// memory left.
pub fn after_beat<const W: usize>(
    alloc: Global,
    state: &BlockState<W>,
    link: Link,
    beat: &Beat<W>,
    asked: Option<Request>,
    messages: &LinkMessages,
    moment: u64,
) -> Result<Option<NextState<W>>, AllocError>
    requires width { IsWidth W }
    requires small { IsTrue (Part.is_small beat.now) }
    ensures { IfOk result (λ next. (n block : ℕ) (free : Option Freedom) (t : Trace W) →
        KnowsState state.now n block t → KnowsMessages messages.now (on_link link.0 t) →
        IsLegalBeat link.0 beat.now t → asked ≡ request_answered beat.now (on_link link.0 t) →
        block_borne beat.now (on_link link.0 t) ≡ Some block → moment ≡ suc (length t) →
        IsSeen free n block (link, beat.now) t → IsNext next free state.now n block (link, beat.now) t) }
{
    let before = moment.saturating_sub(1);
    match beat {
        Beat::A(y) => after_asking(alloc, state, link, y, &messages.a, moment),
        Beat::C(y) => after_report(alloc, state, y, messages, before),
        Beat::D(y) => after_any_response(alloc, state, link, y, asked, messages, before),
        Beat::E(_) => Ok(Some(state.passed(alloc)?)),
        Beat::B(_) => Ok(None),
    }
}
