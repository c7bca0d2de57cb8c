//! Explains the verdict on a wide trace with stores and loads, which is read twice.

ghost use Rattle.std.specs.Prelude.{◌≡◌, ◌≢◌, ◌+◌, ◌++◌, [], ℕ, List, Bool, IfErr, IfOk, OnOk, Option, true};
ghost use Rattle.std.specs.Io.KnownBytes.{Appends};
ghost use Rattle.tl_commit_story.specs.statement.Words.{is_breach, limits};
ghost use Rattle.tl_reasons.specs.declared.explain_fault.ExplainFault.{ExplainFault};
ghost use Rattle.tl_lines.specs.declared.status.Status.{Status};
ghost use Rattle.tl_lines.specs.declared.status.ToolFault.{ToolFault};
ghost use Rattle.tl_lines.specs.statement.Fault.{fault_text};
ghost use Rattle.tl_params.specs.declared.liberties.Liberties.{Liberties};
ghost use Rattle.tl_wide.specs.statement.Width.{IsWideWidth, part_width};
ghost use Rattle.tl_wide_event_lines.specs.code.EventWatching.{any_judged_for};
ghost use Rattle.tl_wide_event_story.specs.code.Retelling.{KnowsStory};
ghost use Rattle.tl_wide_event_story.specs.statement.WideEventsExplained.{Explains, GivesUpAny, ReachesBoth};

use crate::examine::{Found, examine};
use crate::pending::PendingWideEvents;
use crate::replay::WideEventReplay;
use crate::story::WideEventStory;
use std::alloc::Global;
use std::io::{Read, Write};
use tl_beat::fault::LineFault;
use tl_commit_story::explain::{is_mode, is_same, is_verdict};
use tl_commit_story::sentences::{is_breach, limits, other_words};
use tl_lines::engine::judge_input;
use tl_lines::fault::Fault;
use tl_lines::lines::Lines;
use tl_lines::status::Status;
use tl_params::liberties::Liberties;
use tl_reasons::explain::write_both;
use tl_reasons::explain_fault::ExplainFault;
use tl_wide::width::WideWidth;
use tl_wide_event_lines::lines::WideEventLines;
use tl_wide_lines::judge::Clue;

#[tactic(auto, using(tl_wide_story::proofs::WideReplaying::is_wide))]
/// Begins to read again, up to the line at fault, whose event has these names.
fn start_of<const W: usize, const P: usize>(
    alloc: Global,
    together: bool,
    allow: Liberties,
    fault: Fault,
    clue: &Clue,
) -> WideEventStory<W, P>
    requires width { IsWideWidth W }
    requires part { P ≡ part_width W }
    ensures knows { KnowsStory result [] [] }
    ensures purpose { any_judged_for result.lines ≡ (together, allow) }
{
    WideEventStory {
        lines: WideEventLines::new(alloc, together, allow),
        replay: WideEventReplay {
            alloc,
            together,
            allow,
            fault,
            clue: *clue,
            count: 0,
            guide: None,
            told: false,
            reasons: Vec::new(alloc),
        },
    }
}

/// Appends the reasons that the second reading found, if its verdict, `text`, is the same.
fn append_story<const W: usize, const P: usize>(
    alloc: Global,
    together: bool,
    allow: Liberties,
    replay: &WideEventReplay<W, P>,
    text: &[u8],
    verdict: &[u8],
    out: &mut Vec<u8>,
) -> Result<(), ExplainFault>
    requires { out.old.items ≡ [] }
    ensures ok { OnOk result ((replay.now.told ≡ true) × (replay.now.together ≡ together)
        × (replay.now.allow ≡ allow) × (text.now ≡ verdict.now)
        × (is_breach replay.now.fault ≡ true)
        × (verdict.now ≡ fault_text (replay.now.count + 1) replay.now.fault)
        × (out.new.items ≡ replay.now.reasons.items)) }
    ensures fault { IfErr result (λ fault. fault ≢ ExplainFault.Tool ToolFault.Write) }
{
    if !replay.told || !is_breach(replay.fault) {
        return Err(ExplainFault::Changed);
    }
    if !is_mode(replay.together, together) {
        return Err(ExplainFault::Changed);
    }
    if replay.allow != allow {
        return Err(ExplainFault::Changed);
    }
    if !is_same(text, verdict) {
        return Err(ExplainFault::Changed);
    }
    if !is_verdict(alloc, replay.count, replay.fault, verdict)? {
        return Err(ExplainFault::Changed);
    }
    out.extend_from_slice(&replay.reasons)?;
    Ok(())
}

/// Explains the line of an event of these names that breaks a rule.
fn explain_event<const W: usize, const P: usize, R: Read>(
    alloc: Global,
    together: bool,
    allow: Liberties,
    reader: &mut R,
    fault: Fault,
    clue: &Clue,
    verdict: &[u8],
    out: &mut Vec<u8>,
) -> Result<(), ExplainFault>
    requires width { IsWideWidth W }
    requires part { P ≡ part_width W }
    requires empty { out.old.items ≡ [] }
    ensures ok { OnOk result (Explains together allow (R.remaining reader.old) (R.remaining reader.new) verdict.now
        out.new.items Status.Broken) }
    ensures fault { IfErr result (λ fault. fault ≢ ExplainFault.Tool ToolFault.Write) }
{
    let mut lines = Lines::new(start_of::<W, P>(alloc, together, allow, fault, clue));
    let mut text = Vec::new(alloc);
    match judge_input(alloc, &mut lines, reader, &mut text) {
        Ok(_) => {}
        Err(fault) => {
            drop(lines);
            return Err(ExplainFault::Tool(fault));
        }
    }
    let story = lines.into_handler();
    let told = append_story(alloc, together, allow, &story.replay, &text, verdict, out);
    drop(story);
    told
}

/// Explains the line of an event, in a trace of beats of this width, that breaks a rule.
fn explain_breach<R: Read>(
    alloc: Global,
    together: bool,
    allow: Liberties,
    reader: &mut R,
    width: WideWidth,
    fault: Fault,
    clue: &Clue,
    verdict: &[u8],
    out: &mut Vec<u8>,
) -> Result<(), ExplainFault>
    requires { out.old.items ≡ [] }
    ensures ok { OnOk result (Explains together allow (R.remaining reader.old) (R.remaining reader.new) verdict.now
        out.new.items Status.Broken) }
    ensures fault { IfErr result (λ fault. fault ≢ ExplainFault.Tool ToolFault.Write) }
{
    match width {
        WideWidth::Four => {
            explain_event::<4, 4, R>(alloc, together, allow, reader, fault, clue, verdict, out)
        }
        WideWidth::Eight => {
            explain_event::<8, 8, R>(alloc, together, allow, reader, fault, clue, verdict, out)
        }
        WideWidth::Sixteen => {
            explain_event::<16, 16, R>(alloc, together, allow, reader, fault, clue, verdict, out)
        }
        WideWidth::ThirtyTwo => {
            explain_event::<32, 16, R>(alloc, together, allow, reader, fault, clue, verdict, out)
        }
        WideWidth::SixtyFour => {
            explain_event::<64, 16, R>(alloc, together, allow, reader, fault, clue, verdict, out)
        }
    }
}

/// Appends the words for a fault that is no breach of a rule.
fn explain_other(
    alloc: Global,
    good: u64,
    fault: Fault,
    verdict: &[u8],
    out: &mut Vec<u8>,
) -> Result<(), ExplainFault>
    requires { out.old.items ≡ [] }
    ensures ok { OnOk result ((together : Bool) (allow : Liberties) (old new : Option (List ℕ)) →
        Explains together allow old new verdict.now out.new.items Status.Broken) }
    ensures fault { IfErr result (λ fault. fault ≢ ExplainFault.Tool ToolFault.Write) }
{
    if is_breach(fault) || !is_verdict(alloc, good, fault, verdict)? {
        return Err(ExplainFault::Changed);
    }
    out.extend_from_slice(other_words(fault).as_bytes())?;
    Ok(())
}

/// Appends the reasons of a verdict that a line is at fault.
fn explain_found<R: Read>(
    alloc: Global,
    together: bool,
    allow: Liberties,
    reader: &mut R,
    found: &Found,
    verdict: &[u8],
    out: &mut Vec<u8>,
) -> Result<(), ExplainFault>
    requires { out.old.items ≡ [] }
    ensures ok { OnOk result (Explains together allow (R.remaining reader.old) (R.remaining reader.new) verdict.now
        out.new.items Status.Broken) }
    ensures fault { IfErr result (λ fault. fault ≢ ExplainFault.Tool ToolFault.Write) }
{
    let fault = found.fault.unwrap_or(Fault::Line(LineFault::F1));
    match (found.width, &found.clue) {
        (Some(width), Some(clue)) if is_breach(fault) => {
            explain_breach(
                alloc, together, allow, reader, width, fault, clue, verdict, out,
            )
        }
        _ => explain_other(alloc, found.good, fault, verdict, out),
    }
}

/// Lists the messages that are pending at the end of a trace of wide beats of this width without a fault.
fn list_pending<const W: usize, const P: usize, R: Read>(
    alloc: Global,
    allow: Liberties,
    reader: &mut R,
    good: u64,
    out: &mut Vec<u8>,
) -> Result<(), ExplainFault>
    requires width { IsWideWidth W }
    requires part { P ≡ part_width W }
    ensures { IfErr result (λ fault. fault ≢ ExplainFault.Tool ToolFault.Write) }
{
    let mut lines = Lines::new(PendingWideEvents::<W, P>::new(alloc, allow));
    let mut text = Vec::new(alloc);
    match judge_input(alloc, &mut lines, reader, &mut text) {
        Ok(_) => {}
        Err(fault) => {
            drop(lines);
            return Err(ExplainFault::Tool(fault));
        }
    }
    let mut events = lines.into_handler();
    let told = append_pending(&mut events, good, out);
    drop(events);
    told
}

/// Appends the pending messages that the second reading found, if it read as many lines.
fn append_pending<const W: usize, const P: usize>(
    events: &mut PendingWideEvents<W, P>,
    good: u64,
    out: &mut Vec<u8>,
) -> Result<(), ExplainFault>
    ensures { IfErr result (λ fault. fault ≢ ExplainFault.Tool ToolFault.Write) }
{
    if !events.has_read(good) {
        return Err(ExplainFault::Changed);
    }
    events.tell(out)?;
    Ok(())
}

/// Lists the messages that are pending at the end of a trace of beats of this width without a fault.
fn list_all<R: Read>(
    alloc: Global,
    allow: Liberties,
    reader: &mut R,
    width: WideWidth,
    good: u64,
    out: &mut Vec<u8>,
) -> Result<(), ExplainFault>
    ensures { IfErr result (λ fault. fault ≢ ExplainFault.Tool ToolFault.Write) }
{
    match width {
        WideWidth::Four => list_pending::<4, 4, R>(alloc, allow, reader, good, out),
        WideWidth::Eight => list_pending::<8, 8, R>(alloc, allow, reader, good, out),
        WideWidth::Sixteen => list_pending::<16, 16, R>(alloc, allow, reader, good, out),
        WideWidth::ThirtyTwo => list_pending::<32, 16, R>(alloc, allow, reader, good, out),
        WideWidth::SixtyFour => list_pending::<64, 16, R>(alloc, allow, reader, good, out),
    }
}

/// Lists the messages that are pending at the end of a trace without a fault, and appends the limits of the verdict.
fn explain_clean<R: Read>(
    alloc: Global,
    together: bool,
    allow: Liberties,
    reader: &mut R,
    found: &Found,
    out: &mut Vec<u8>,
) -> Result<(), ExplainFault>
    ensures ok { OnOk result ((old new : Option (List ℕ)) (verdict : List ℕ) →
        Explains together allow old new verdict out.new.items Status.Clean) }
    ensures fault { IfErr result (λ fault. fault ≢ ExplainFault.Tool ToolFault.Write) }
{
    let Some(width) = found.width else {
        return Err(ExplainFault::Changed);
    };
    list_all(alloc, allow, reader, width, found.good, out)?;
    out.extend_from_slice(limits(together).as_bytes())?;
    Ok(())
}

/// Appends the reasons of a verdict. The trace is read again.
fn reasons<R: Read>(
    alloc: Global,
    together: bool,
    allow: Liberties,
    reader: &mut R,
    found: &Found,
    status: Status,
    verdict: &[u8],
    out: &mut Vec<u8>,
) -> Result<(), ExplainFault>
    requires { out.old.items ≡ [] }
    ensures ok { OnOk result (Explains together allow (R.remaining reader.old) (R.remaining reader.new) verdict.now
        out.new.items status) }
    ensures fault { IfErr result (λ fault. fault ≢ ExplainFault.Tool ToolFault.Write) }
{
    match status {
        Status::Clean => explain_clean(alloc, together, allow, reader, found, out),
        Status::Broken => explain_found(alloc, together, allow, reader, found, verdict, out),
    }
}

/// Writes the verdict of `monitor`, or of `coherent`, on a wide trace whose header names a link of level C+, and the reasons
/// after it. The links have the liberties that the header names and those that are allowed. The two readers read the
/// same file from its front. The second reads up to the line at fault, and its verdict is the same.
///
/// For a broken rule the reasons are its sentence, the event at fault as it was written, and grounds. Those of a rule of a
/// link are those of the wide beats, and rest on the beats that these become. If each link is judged by itself, the last
/// line names the further liberties that would allow the wide beat. For a rule of stores and loads they are the permission
/// that the link of the event holds of the block, with the wide beat at which it last changed; the first beat of a
/// GrantData, ProbeAckData or ReleaseData of the block that isn't complete; and the last store to each byte that the event
/// is about. For M6 and M7 the bytes at fault follow, each with all that it may be and the line that set each value. For M1
/// and M4 the grounds are the links that hold, or are being granted, a permission that conflicts, and since which line. For
/// M2 and M3 they are the bytes that the response can't have, each with all that it may be. For a line that spells no event
/// the reasons are the sentence of its fault. After a trace without a fault come its pending messages and the limits of the
/// verdict.
///
/// Nothing is written before both readings have reached their ends. After that the only fault is `Write`: the writer
/// took only a front of the text. `Read` and `Memory` are faults of the first reading, before its verdict and before
/// the second begins, or of the second. `Changed` comes only after the verdict: the readings differ, or the header is
/// another.
pub fn explain_wide_events<R: Read, S: Read, W: Write>(
    alloc: Global,
    together: bool,
    allow: Liberties,
    first: &mut R,
    second: &mut S,
    writer: &mut W,
) -> Result<Status, ExplainFault>
    ensures ok { IfOk result (λ status. (text : List ℕ)
        × ReachesBoth together allow (R.remaining first.old) (R.remaining first.new) (S.remaining second.old)
        (S.remaining second.new) text status
        × Appends (W.contents writer.old) (W.contents writer.new) text) }
    ensures fault { IfErr result (GivesUpAny together allow (R.remaining first.old) (R.remaining first.new)
        (S.remaining second.old) (S.remaining second.new) (W.contents writer.old) (W.contents writer.new)) }
{
    let mut verdict = Vec::new(alloc);
    let (found, status) = examine(alloc, together, allow, first, &mut verdict)?;
    let mut why = Vec::new(alloc);
    reasons(
        alloc, together, allow, second, &found, status, &verdict, &mut why,
    )?;
    write_both(&verdict, &why, writer)?;
    Ok(status)
}
