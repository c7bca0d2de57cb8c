//! The change that a beat makes to the possible values of its block's bytes.

ghost use Rattle.std.specs.Prelude.{ℕ, true, false, Some, ◌≡◌, ◌≤◌, find, IsTrue};
ghost use Rattle.tl_beat.specs.declared.beat.Beat.TheVariants as beat;
ghost use Rattle.tl_beat.specs.declared.beat.{BeatD.BeatD, Link.Link};
ghost use Rattle.tl_beat.specs.declared.channel.Channel.TheVariants as channel;
ghost use Rattle.tl_beat.specs.statement.Width.{IsWidth};
ghost use Rattle.tl_burst.specs.statement.Messages.{unfinished};
ghost use Rattle.tl_burst.specs.statement.Part;
ghost use Rattle.tl_rules.specs.code.Open.{open_request};
ghost use Rattle.tl_rules.specs.declared.past.Request.{Request};
ghost use Rattle.tl_rules.specs.statement.Conformance.{Trace, on_link};
ghost use Rattle.tl_rules.specs.statement.History.{block_at, ends};
ghost use Rattle.tl_bytes.specs.statement.Bytes as bytes;
ghost use Rattle.tl_bytes.specs.statement.Bytes.{ends_request, is_of, pending_accesses, tells};
ghost use Rattle.tl_bytes.specs.statement.Early.{outruns};
ghost use Rattle.tl_bytes.specs.statement.Known.{NoneSettled};
ghost use Rattle.tl_memory.specs.code.Elsewhere.{block_borne};
ghost use Rattle.tl_memory.specs.code.Taking.{IsLegalBeat, IsOrdered, IsRequested, IsResponse, request_answered};
ghost use Rattle.tl_memory.specs.statement.ByteChanges.{IsByteChange};
ghost use Rattle.tl_memory.specs.statement.Known.{AnyIsTo, HasRoom, KnowsMessage, KnowsState};
ghost use Rattle.tl_memory.specs.statement.Links.{KnowsMessages};

use crate::access::is_access;
use crate::accesses::find;
use crate::block::BlockState;
use crate::link::LinkMessages;
use crate::message::{CarriedMessage, both};
use crate::next::{says, tells};
use crate::writer::written;
use tl_beat::beat::{Beat, BeatA, BeatC, BeatD, Link};
use tl_beat::opcode::OpA;
use tl_bytes::known_bytes::KnownBytes;
use tl_bytes::standing::Standing;
use tl_bytes::write::Write;
use tl_rules::kind::is_release_ack;
use tl_rules::past::Request;

/// The change that a beat makes to the possible values of a block's bytes.
#[derive(Clone, Copy)]
pub enum ByteChange {
    /// None.
    Same,
    /// A message sets the bytes to these. A byte that isn't known may have any value. `unread` says whether the message
    /// is a Grant that answers an AcquirePerm.
    Told { values: KnownBytes, unread: bool },
    /// An access with this write is complete, which has this relation to the block.
    Written { write: Write, standing: Standing },
}

/// Whether a request with this opcode is an AcquirePerm.
fn is_perm_only(opcode: OpA) -> bool
    ensures { result ≡ bytes.is_perm_only opcode }
{
    matches!(opcode, OpA::AcquirePerm)
}

/// The change by a beat of channel A: the last beat of a request settles the access if its answer is complete already.
/// `brought` are the bytes of the message's beats before it.
fn by_request<const W: usize>(
    state: &BlockState<W>,
    link: Link,
    y: &BeatA<W>,
    brought: &CarriedMessage,
) -> ByteChange
    requires width { IsWidth W }
    requires small { y.now.size ≤ 6 }
    ensures { (n block : ℕ) (t : Trace W) → KnowsState state.now n block t →
        KnowsMessage brought.now (unfinished channel.A (on_link link.0 t)) → IsRequested link.0 y.now t →
        block_at y.now.address ≡ block → IsByteChange result n block (link, beat.A y.now) t }
{
    let Some(access) = state.outrun_of(link, y.source) else {
        return ByteChange::Same;
    };
    if !both(brought.completes(&Beat::A(*y)), access.answered) {
        return ByteChange::Same;
    }
    ByteChange::Written {
        write: access.write,
        standing: Standing::Anywhere,
    }
}

/// The change by a beat of channel C, if it completes a report. `messages` are the unfinished messages of its link.
fn by_report<const W: usize>(y: &BeatC<W>, messages: &LinkMessages) -> ByteChange
    requires width { IsWidth W }
    requires small { y.now.size ≤ 6 }
    ensures { (n block : ℕ) (link : Link) (t : Trace W) → KnowsMessages messages.now (on_link link.0 t) →
        IsLegalBeat link.0 (beat.C y.now) t → block_at y.now.address ≡ block →
        IsByteChange result n block (link, beat.C y.now) t }
{
    let beat = Beat::C(*y);
    if !messages.c.completes(&beat) {
        return ByteChange::Same;
    }
    if !says(y, messages) {
        return ByteChange::Same;
    }
    let all = messages.c.with(&beat);
    ByteChange::Told {
        values: *all.bytes.bytes(),
        unread: false,
    }
}

/// The change by a beat of channel D that completes the answer to a pending access. `brought` are the bytes of the
/// answer's beats before it.
fn by_answer<const W: usize>(
    state: &BlockState<W>,
    link: Link,
    y: &BeatD<W>,
    brought: &CarriedMessage,
) -> ByteChange
    requires { IsWidth W }
    ensures { (n block : ℕ) (t : Trace W) → KnowsState state.now n block t →
        tells block (beat.D y.now) (on_link link.0 t) ≡ false → ends_request y.now (on_link link.0 t) ≡ true →
        AnyIsTo block (find (is_of link.0 y.now.source) (pending_accesses t)) →
        NoneSettled block (link, beat.D y.now) t →
        KnowsMessage brought.now (unfinished channel.D (on_link link.0 t)) →
        HasRoom (beat.D y.now) (unfinished channel.D (on_link link.0 t)) →
        IsByteChange result n block (link, beat.D y.now) t }
{
    let Some(access) = find(state.accesses.as_slice(), link, y.source) else {
        return ByteChange::Same;
    };
    if !access.writer.asked.request.opcode.carries_data() {
        return ByteChange::Same;
    }
    let standing = state.bytes.standing(&access.windows, y.denied);
    let write = written(&access.writer, &brought.with(&Beat::D(*y)));
    ByteChange::Written { write, standing }
}

/// The change by a beat of channel D that completes the answer to an access whose request is complete. `brought` are
/// the bytes of the answer's beats before it.
fn by_access<const W: usize>(
    state: &BlockState<W>,
    link: Link,
    y: &BeatD<W>,
    brought: &CarriedMessage,
) -> ByteChange
    requires { IsWidth W }
    ensures { (n block : ℕ) (asked : Request) (t : Trace W) →
        KnowsState state.now n block t → IsResponse link.0 y.now asked t → bytes.is_access asked.opcode ≡ true →
        asked.block ≡ block → outruns y.now (on_link link.0 t) ≡ false →
        ends (beat.D y.now) (on_link link.0 t) ≡ true →
        KnowsMessage brought.now (unfinished channel.D (on_link link.0 t)) →
        IsByteChange result n block (link, beat.D y.now) t }
{
    match state.outrun_of(link, y.source) {
        Some(access) => ByteChange::Written {
            write: access.write,
            standing: Standing::Anywhere,
        },
        None => by_answer(state, link, y, brought),
    }
}

/// The change by a beat of channel D, if it completes a response to this request, which is complete. `messages` are the
/// unfinished messages of its link.
fn by_response<const W: usize>(
    state: &BlockState<W>,
    link: Link,
    y: &BeatD<W>,
    asked: Request,
    messages: &LinkMessages,
) -> ByteChange
    requires width { IsWidth W }
    requires small { y.now.size ≤ 6 }
    ensures { (n block : ℕ) (t : Trace W) →
        KnowsState state.now n block t → KnowsMessages messages.now (on_link link.0 t) →
        IsResponse link.0 y.now asked t → outruns y.now (on_link link.0 t) ≡ false →
        IsOrdered link.0 (beat.D y.now) t → asked.block ≡ block →
        IsByteChange result n block (link, beat.D y.now) t }
{
    let beat = Beat::D(*y);
    let brought = &messages.d;
    if !brought.completes(&beat) {
        return ByteChange::Same;
    }
    if both(tells(y, asked.opcode), !messages.is_overtaken()) {
        let all = brought.with(&beat);
        return ByteChange::Told {
            values: *all.bytes.bytes(),
            unread: is_perm_only(asked.opcode),
        };
    }
    if is_access(asked.opcode) {
        return by_access(state, link, y, brought);
    }
    ByteChange::Same
}

/// The change by a beat of channel D. `asked` is the complete request that it answers, if there is one.
fn by_any_response<const W: usize>(
    state: &BlockState<W>,
    link: Link,
    y: &BeatD<W>,
    asked: Option<Request>,
    messages: &LinkMessages,
) -> ByteChange
    requires width { IsWidth W }
    requires small { y.now.size ≤ 6 }
    ensures { (n block : ℕ) (t : Trace W) →
        KnowsState state.now n block t → KnowsMessages messages.now (on_link link.0 t) →
        IsLegalBeat link.0 (beat.D y.now) t → asked ≡ open_request y.now.source (on_link link.0 t) →
        block_borne (beat.D y.now) (on_link link.0 t) ≡ Some block →
        IsByteChange result n block (link, beat.D y.now) t }
{
    if is_release_ack(y.opcode) {
        return ByteChange::Told {
            values: *messages.c.bytes.bytes(),
            unread: false,
        };
    }
    if messages.asks_with(y.source).is_some() {
        return ByteChange::Same;
    }
    match asked {
        Some(asked) => by_response(state, link, y, asked, messages),
        None => ByteChange::Same,
    }
}

/// The change by a beat to the bytes of the block that it concerns, which has this state. `asked` is the request that
/// the beat answers, `messages` are the unfinished messages of its link.
pub fn byte_change<const W: usize>(
    state: &BlockState<W>,
    link: Link,
    beat: &Beat<W>,
    asked: Option<Request>,
    messages: &LinkMessages,
) -> ByteChange
    requires width { IsWidth W }
    requires small { IsTrue (Part.is_small beat.now) }
    ensures { (n block : ℕ) (t : Trace W) →
        KnowsState state.now n block t → KnowsMessages messages.now (on_link link.0 t) →
        IsLegalBeat link.0 beat.now t → asked ≡ request_answered beat.now (on_link link.0 t) →
        block_borne beat.now (on_link link.0 t) ≡ Some block →
        IsByteChange result n block (link, beat.now) t }
{
    match beat {
        Beat::A(y) => by_request(state, link, y, &messages.a),
        Beat::C(y) => by_report(y, messages),
        Beat::D(y) => by_any_response(state, link, y, asked, messages),
        Beat::B(_) | Beat::E(_) => ByteChange::Same,
    }
}
