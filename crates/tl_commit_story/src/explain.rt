//! Explains the verdict on a trace with commits, which is read twice.

ghost use Rattle.std.specs.Prelude.{◌≡◌, ◌≢◌, ◌+◌, [], ℕ, List, Bool, IfErr, IfOk, IfSome, OnOk, Option, true};
ghost use Rattle.std.specs.Io.KnownBytes.{Appends};
ghost use Rattle.tl_beat.specs.statement.Width.{IsWidth};
ghost use Rattle.tl_reasons.specs.declared.explain_fault.ExplainFault.{ExplainFault};
ghost use Rattle.tl_lines.specs.declared.status.Status.{Status};
ghost use Rattle.tl_lines.specs.declared.status.ToolFault.{ToolFault};
ghost use Rattle.tl_lines.specs.statement.Fault.{fault_text};
ghost use Rattle.tl_commit_lines.specs.code.EventWatching.{events_judged_for};
ghost use Rattle.tl_commit_story.specs.code.Replaying.{KnowsStory};
ghost use Rattle.tl_params.specs.declared.liberties.Liberties.{Liberties};
ghost use Rattle.tl_commit_story.specs.statement.Explained.{Explains, GivesUpEvents, IsPending, ReachesBoth};
ghost use Rattle.tl_commit_story.specs.statement.Words.{is_breach};

use crate::examine::{Found, examine};
use crate::explain_line::{explain_line, explain_other};
use crate::pending::PendingEvents;
use crate::places::subject_of_event;
use crate::replay::{Replay, State};
use crate::sentences::{is_breach, limits};
use crate::story::Story;
use std::alloc::{AllocError, Global};
use std::io::{Read, Write};
use tl_beat::fault::LineFault;
use tl_commit_lines::lines::EventLines;
use tl_events::event::read_event;
use tl_explain::told::Spelling;
use tl_lines::engine::judge_input;
use tl_lines::fault::{Fault, append_fault};
use tl_lines::lines::Lines;
use tl_lines::status::Status;
use tl_params::liberties::Liberties;
use tl_params::width::Width;
use tl_reasons::explain::write_both;
use tl_reasons::explain_fault::ExplainFault;

/// Whether two texts are the same.
pub fn is_same(one: &[u8], other: &[u8]) -> bool
    ensures { result ≡ true → one.now ≡ other.now }
{
    one == other
}

/// Whether both judge all links together, or neither.
pub fn is_mode(one: bool, other: bool) -> bool
    ensures { result ≡ true → one ≡ other }
{
    one == other
}

/// Whether the verdict is that the line after these has this fault.
pub fn is_verdict(
    alloc: Global,
    count: u64,
    fault: Fault,
    verdict: &[u8],
) -> Result<bool, AllocError>
    ensures { IfOk result (λ same. same ≡ true → verdict.now ≡ fault_text (count + 1) fault) }
{
    let Some(number) = count.checked_add(1) else {
        return Ok(false);
    };
    let mut text = Vec::new(alloc);
    append_fault(number, fault, &mut text)?;
    Ok(is_same(text.as_slice(), verdict))
}

/// Begins to read again, up to the line at fault. None if the line spells no event.
fn start_of<const W: usize>(
    alloc: Global,
    together: bool,
    allow: Liberties,
    fault: Fault,
    line: &Spelling,
    block: Option<u32>,
) -> Option<Story<W>>
    requires { IsWidth W }
    ensures knows { IfSome result (λ story. KnowsStory story [] []) }
    ensures purpose { IfSome result (λ story. events_judged_for story.lines ≡ (together, allow)) }
{
    let Ok((link, event)) = read_event::<W>(line.line()) else {
        return None;
    };
    Some(Story {
        lines: EventLines::new(alloc, together, allow),
        replay: Replay {
            alloc,
            together,
            subject: subject_of_event(link, &event, block),
            allow,
            fault,
            count: 0,
            state: State::Waiting,
            told: false,
            reasons: Vec::new(alloc),
        },
    })
}

/// Appends the reasons that the second reading found, if its verdict, `text`, is the same.
fn append_story<const W: usize>(
    alloc: Global,
    together: bool,
    allow: Liberties,
    replay: &Replay<W>,
    text: &[u8],
    verdict: &[u8],
    out: &mut Vec<u8>,
) -> Result<(), ExplainFault>
    requires { out.old.items ≡ [] }
    ensures ok { OnOk result ((replay.now.told ≡ true) × (replay.now.together ≡ together)
        × (replay.now.allow ≡ allow) × (text.now ≡ verdict.now)
        × (is_breach replay.now.fault ≡ true)
        × (verdict.now ≡ fault_text (replay.now.count + 1) replay.now.fault)
        × (out.new.items ≡ replay.now.reasons.items)) }
    ensures fault { IfErr result (λ fault. fault ≢ ExplainFault.Tool ToolFault.Write) }
{
    if !replay.told || !is_breach(replay.fault) {
        return Err(ExplainFault::Changed);
    }
    if !is_mode(replay.together, together) {
        return Err(ExplainFault::Changed);
    }
    if replay.allow != allow {
        return Err(ExplainFault::Changed);
    }
    if !is_same(text, verdict) {
        return Err(ExplainFault::Changed);
    }
    if !is_verdict(alloc, replay.count, replay.fault, verdict)? {
        return Err(ExplainFault::Changed);
    }
    out.extend_from_slice(&replay.reasons)?;
    Ok(())
}

/// Appends the pending messages that the second reading found, if it read as many lines.
fn append_pending<const W: usize>(
    events: &mut PendingEvents<W>,
    good: u64,
    out: &mut Vec<u8>,
) -> Result<(), ExplainFault>
    requires { out.old.items ≡ [] }
    ensures ok { OnOk result (IsPending out.new.items) }
    ensures fault { IfErr result (λ fault. fault ≢ ExplainFault.Tool ToolFault.Write) }
{
    if !events.has_read(good) {
        return Err(ExplainFault::Changed);
    }
    events.tell(out)?;
    Ok(())
}

/// Explains the line of an event that breaks a rule, which answers a request of this block, if any.
fn explain_event<const W: usize, R: Read>(
    alloc: Global,
    together: bool,
    allow: Liberties,
    reader: &mut R,
    fault: Fault,
    line: &Spelling,
    block: Option<u32>,
    verdict: &[u8],
    out: &mut Vec<u8>,
) -> Result<(), ExplainFault>
    requires width { IsWidth W }
    requires empty { out.old.items ≡ [] }
    ensures ok { OnOk result (Explains together allow (R.remaining reader.old) (R.remaining reader.new) verdict.now
        out.new.items Status.Broken) }
    ensures fault { IfErr result (λ fault. fault ≢ ExplainFault.Tool ToolFault.Write) }
{
    let Some(start) = start_of::<W>(alloc, together, allow, fault, line, block) else {
        return Err(ExplainFault::Changed);
    };
    let mut lines = Lines::new(start);
    let mut text = Vec::new(alloc);
    match judge_input(alloc, &mut lines, reader, &mut text) {
        Ok(_) => {}
        Err(fault) => {
            drop(lines);
            return Err(ExplainFault::Tool(fault));
        }
    }
    let story = lines.into_handler();
    let told = append_story(alloc, together, allow, &story.replay, &text, verdict, out);
    drop(story);
    told
}

/// Explains the line of an event, in a trace of beats of this width, that breaks a rule.
fn explain_breach<R: Read>(
    alloc: Global,
    together: bool,
    allow: Liberties,
    reader: &mut R,
    width: Width,
    fault: Fault,
    line: &Spelling,
    block: Option<u32>,
    verdict: &[u8],
    out: &mut Vec<u8>,
) -> Result<(), ExplainFault>
    requires { out.old.items ≡ [] }
    ensures ok { OnOk result (Explains together allow (R.remaining reader.old) (R.remaining reader.new) verdict.now
        out.new.items Status.Broken) }
    ensures fault { IfErr result (λ fault. fault ≢ ExplainFault.Tool ToolFault.Write) }
{
    match width {
        Width::Four => {
            explain_event::<4, R>(
                alloc, together, allow, reader, fault, line, block, verdict, out,
            )
        }
        Width::Eight => {
            explain_event::<8, R>(
                alloc, together, allow, reader, fault, line, block, verdict, out,
            )
        }
        Width::Sixteen => {
            explain_event::<16, R>(
                alloc, together, allow, reader, fault, line, block, verdict, out,
            )
        }
    }
}

/// Appends the reasons of a verdict that a line is at fault.
fn explain_found<R: Read>(
    alloc: Global,
    together: bool,
    allow: Liberties,
    reader: &mut R,
    found: &Found,
    verdict: &[u8],
    out: &mut Vec<u8>,
) -> Result<(), ExplainFault>
    requires { out.old.items ≡ [] }
    ensures ok { OnOk result (Explains together allow (R.remaining reader.old) (R.remaining reader.new) verdict.now
        out.new.items Status.Broken) }
    ensures fault { IfErr result (λ fault. fault ≢ ExplainFault.Tool ToolFault.Write) }
{
    match (found.width, &found.fault) {
        (Some(width), Some((fault, line))) if is_breach(*fault) => {
            explain_breach(
                alloc,
                together,
                allow,
                reader,
                width,
                *fault,
                line,
                found.block,
                verdict,
                out,
            )
        }
        (Some(width), Some((Fault::Line(fault), _))) => {
            explain_line(alloc, reader, found.good, width, *fault, verdict, out)
        }
        (Some(width), None) => {
            explain_line(
                alloc,
                reader,
                found.good,
                width,
                LineFault::F1,
                verdict,
                out,
            )
        }
        (_, Some((fault, _))) => explain_other(alloc, found.good, *fault, verdict, out),
        (None, None) => Err(ExplainFault::Changed),
    }
}

/// Lists the messages that are pending at the end of a trace of beats of this width without a fault.
fn list_pending<const W: usize, R: Read>(
    alloc: Global,
    allow: Liberties,
    reader: &mut R,
    good: u64,
    out: &mut Vec<u8>,
) -> Result<(), ExplainFault>
    requires width { IsWidth W }
    requires empty { out.old.items ≡ [] }
    ensures ok { OnOk result (IsPending out.new.items) }
    ensures fault { IfErr result (λ fault. fault ≢ ExplainFault.Tool ToolFault.Write) }
{
    let mut lines = Lines::new(PendingEvents::<W>::new(alloc, allow));
    let mut text = Vec::new(alloc);
    match judge_input(alloc, &mut lines, reader, &mut text) {
        Ok(_) => {}
        Err(fault) => {
            drop(lines);
            return Err(ExplainFault::Tool(fault));
        }
    }
    let mut events = lines.into_handler();
    let told = append_pending(&mut events, good, out);
    drop(events);
    told
}

/// Lists the messages that are pending at the end of a trace without a fault, and appends the limits of the verdict.
fn explain_clean<R: Read>(
    alloc: Global,
    together: bool,
    allow: Liberties,
    reader: &mut R,
    found: &Found,
    out: &mut Vec<u8>,
) -> Result<(), ExplainFault>
    requires { out.old.items ≡ [] }
    ensures ok { OnOk result ((old new : Option (List ℕ)) (verdict : List ℕ) →
        Explains together allow old new verdict out.new.items Status.Clean) }
    ensures fault { IfErr result (λ fault. fault ≢ ExplainFault.Tool ToolFault.Write) }
{
    match found.width {
        None => return Err(ExplainFault::Changed),
        Some(Width::Four) => list_pending::<4, R>(alloc, allow, reader, found.good, out)?,
        Some(Width::Eight) => list_pending::<8, R>(alloc, allow, reader, found.good, out)?,
        Some(Width::Sixteen) => list_pending::<16, R>(alloc, allow, reader, found.good, out)?,
    }
    out.extend_from_slice(limits(together).as_bytes())?;
    Ok(())
}

/// Appends the reasons of a verdict. The trace is read again.
fn reasons<R: Read>(
    alloc: Global,
    together: bool,
    allow: Liberties,
    reader: &mut R,
    found: &Found,
    status: Status,
    verdict: &[u8],
    out: &mut Vec<u8>,
) -> Result<(), ExplainFault>
    requires { out.old.items ≡ [] }
    ensures ok { OnOk result (Explains together allow (R.remaining reader.old) (R.remaining reader.new) verdict.now
        out.new.items status) }
    ensures fault { IfErr result (λ fault. fault ≢ ExplainFault.Tool ToolFault.Write) }
{
    match status {
        Status::Clean => explain_clean(alloc, together, allow, reader, found, out),
        Status::Broken => explain_found(alloc, together, allow, reader, found, verdict, out),
    }
}

/// Writes the verdict of `monitor`, or of `coherent`, on a trace whose header names a link of level C+, and the reasons
/// after it. The links have the liberties that the header names and those that are allowed. The two readers read the
/// same file from its front. The second reads up to the line at fault, and its verdict is the same.
///
/// For a broken rule the reasons are its sentence, the event at fault and the grounds. Those of a rule of beats are those of
/// a trace without stores and loads, with the numbers of these lines. For a rule of stores and loads they are the
/// permission that the link of the event holds of the block, with the event at which it last changed; the first beat of a
/// GrantData, ProbeAckData or ReleaseData of the block that isn't complete; and the last store to each byte that the event
/// is about. For M1 and M4 they are the links that hold, or are being granted, a conflicting permission, each with its
/// line. For M2 and M3 they are the bytes that the response can't have, with all that each may be, each value with the line
/// that set it. For a line that spells no event the reasons are the sentence of its fault, and the line with carets under the
/// bytes at fault. After a trace without a fault come its pending messages and the limits of the verdict.
///
/// Nothing is written before both readings have reached their ends. After that the only fault is `Write`: the writer
/// took only a front of the text. `Read` and `Memory` are faults of the first reading, before its verdict and before
/// the second begins, or of the second. `Changed` comes only after the verdict: the readings differ, or the header names
/// no link of level C+.
pub fn explain_events<R: Read, S: Read, W: Write>(
    alloc: Global,
    together: bool,
    allow: Liberties,
    first: &mut R,
    second: &mut S,
    writer: &mut W,
) -> Result<Status, ExplainFault>
    ensures ok { IfOk result (λ status. (text : List ℕ)
        × ReachesBoth together allow (R.remaining first.old) (R.remaining first.new) (S.remaining second.old)
        (S.remaining second.new) text status
        × Appends (W.contents writer.old) (W.contents writer.new) text) }
    ensures fault { IfErr result (GivesUpEvents together allow (R.remaining first.old) (R.remaining first.new)
        (S.remaining second.old) (S.remaining second.new) (W.contents writer.old) (W.contents writer.new)) }
{
    let mut verdict = Vec::new(alloc);
    let (found, status) = examine(alloc, together, allow, first, &mut verdict)?;
    let mut why = Vec::new(alloc);
    reasons(
        alloc, together, allow, second, &found, status, &verdict, &mut why,
    )?;
    write_both(&verdict, &why, writer)?;
    Ok(status)
}
