//! Explains the verdict on a wide trace, which is read twice.

ghost use Rattle.std.specs.Prelude.{◌≡◌, ◌≢◌, ◌+◌, ◌++◌, [], ℕ, List, Option, IfErr, IfOk, OnOk, true};
ghost use Rattle.std.specs.Io.KnownBytes.{Appends};
ghost use Rattle.tl_lines.specs.declared.status.Status.{Status};
ghost use Rattle.tl_wide.specs.statement.Width.{IsWideWidth, part_width};
ghost use Rattle.tl_reasons.specs.declared.explain_fault.ExplainFault.{ExplainFault};
ghost use Rattle.tl_lines.specs.declared.status.ToolFault.{ToolFault};
ghost use Rattle.tl_lines.specs.statement.Fault.{fault_text};
ghost use Rattle.tl_params.specs.declared.liberties.Liberties.{Liberties};
ghost use Rattle.tl_wide_story.specs.code.WideReplaying.{KnowsReplay, is_rule};
ghost use Rattle.tl_wide_story.specs.statement.WideExplained.{ExplainsWide, GivesUpWide, ReachesBoth};

use crate::citation::WideWording;
use crate::examine::{Found, examine, is_verdict};
use crate::learner::Question;
use crate::lesson::Lesson;
use crate::replay::WideReplay;
use crate::story::WideStory;
use std::alloc::Global;
use std::io::{Read, Write};
use tl_beat::fault::LineFault;
use tl_explain::recorder::Recorder;
use tl_lines::engine::judge_input;
use tl_lines::fault::Fault;
use tl_lines::lines::Lines;
use tl_lines::status::{Status, ToolFault};
use tl_params::liberties::Liberties;
use tl_reasons::explain::{unsaid, write_both};
use tl_reasons::explain_fault::ExplainFault;
use tl_wide::narrow::Narrower;
use tl_wide::width::WideWidth;
use tl_wide_lines::judge::Clue;

/// Whether the fault is a breach of a rule.
fn is_rule(fault: Fault) -> bool
    ensures { result ≡ is_rule fault }
{
    matches!(fault, Fault::Rule(_) | Fault::MemoryRule(_))
}

/// The question about the wide beat at fault, beside the record of its link.
fn question_of(coherent: bool, fault: Fault, clue: &Clue) -> Question {
    match fault {
        Fault::MemoryRule(rule) => Question::Memory(rule, clue.subject.block),
        _ if coherent => Question::Nothing,
        _ => Question::Allowed,
    }
}

#[tactic(auto, using(crate::proofs::WideReplaying::is_wide))]
/// Begins to read again up to the line at fault, with these names.
fn start_of<const W: usize>(
    alloc: Global,
    allow: Liberties,
    good: u64,
    fault: Fault,
    clue: &Clue,
) -> WideReplay<W>
    requires { IsWideWidth W }
    ensures { KnowsReplay result [] }
{
    WideReplay {
        alloc,
        narrower: Narrower::new(alloc),
        recorder: Recorder::with_liberties(allow, clue.subject),
        allow,
        may: allow,
        level: None,
        good,
        fault,
        wording: WideWording {
            address: 0,
            source: clue.source,
            sink: clue.sink,
        },
        count: 0,
        recorded: 0,
        told: false,
        reasons: Vec::new(alloc),
    }
}

/// Appends the answer that a lesson of so many lines has found.
fn append_lesson<const W: usize, const P: usize>(
    alloc: Global,
    lesson: &mut Lesson<W, P>,
    count: u64,
    out: &mut Vec<u8>,
) -> Result<(), ExplainFault>
    ensures ok { OnOk result ((more : List ℕ) × (out.new.items ≡ out.old.items ++ more)) }
    ensures fault { IfErr result (λ fault. fault ≢ ExplainFault.Tool ToolFault.Write) }
{
    let mut learned = Vec::new(alloc);
    if !lesson.has_read(count) || !lesson.tell(&mut learned)? {
        return Err(ExplainFault::Changed);
    }
    out.extend_from_slice(&learned)?;
    Ok(())
}

/// Appends the reasons that the second reading found, if its verdict is the same.
fn append_story<const W: usize, const P: usize>(
    alloc: Global,
    allow: Liberties,
    story: &mut WideStory<W, P>,
    good: u64,
    verdict: &[u8],
    out: &mut Vec<u8>,
) -> Result<(), ExplainFault>
    requires { out.old.items ≡ [] }
    ensures ok { OnOk result ((learned : List ℕ) × (story.old.replay.allow ≡ allow) × (story.old.replay.told ≡ true)
        × (out.new.items ≡ story.old.replay.reasons.items ++ learned)
        × (verdict.now ≡ fault_text (story.old.replay.count + 1) story.old.replay.fault)) }
    ensures fault { IfErr result (λ fault. fault ≢ ExplainFault.Tool ToolFault.Write) }
{
    let replay = &story.replay;
    if !replay.told {
        return Err(ExplainFault::Changed);
    }
    if replay.allow != allow {
        return Err(ExplainFault::Changed);
    }
    if !is_verdict(alloc, replay.count, replay.fault, verdict)? {
        return Err(ExplainFault::Changed);
    }
    out.extend_from_slice(&replay.reasons)?;
    append_lesson(alloc, &mut story.lesson, good.saturating_add(1), out)
}

/// Explains a wide beat that breaks a rule.
fn explain_rule<const W: usize, const P: usize, R: Read>(
    alloc: Global,
    coherent: bool,
    allow: Liberties,
    reader: &mut R,
    good: u64,
    fault: Fault,
    clue: &Clue,
    verdict: &[u8],
    out: &mut Vec<u8>,
) -> Result<(), ExplainFault>
    requires width { IsWideWidth W }
    requires part { P ≡ part_width W }
    requires empty { out.old.items ≡ [] }
    ensures ok { OnOk result (ExplainsWide allow (R.remaining reader.old) (R.remaining reader.new) verdict.now
        out.new.items Status.Broken) }
    ensures fault { IfErr result (λ fault. fault ≢ ExplainFault.Tool ToolFault.Write) }
{
    let mut lines = Lines::new(WideStory {
        replay: start_of::<W>(alloc, allow, good, fault, clue),
        lesson: Lesson::<W, P>::new(alloc, allow, question_of(coherent, fault, clue), good),
    });
    let mut text = Vec::new(alloc);
    match judge_input(alloc, &mut lines, reader, &mut text) {
        Ok(_) => {}
        Err(fault) => {
            drop(lines);
            return Err(ExplainFault::Tool(fault));
        }
    }
    let mut story = lines.into_handler();
    let told = append_story(alloc, allow, &mut story, good, verdict, out);
    drop(story);
    told
}

/// Explains a beat of a trace of this width that breaks a rule.
fn explain_beat<R: Read>(
    alloc: Global,
    coherent: bool,
    allow: Liberties,
    reader: &mut R,
    width: WideWidth,
    good: u64,
    fault: Fault,
    clue: &Clue,
    verdict: &[u8],
    out: &mut Vec<u8>,
) -> Result<(), ExplainFault>
    requires { out.old.items ≡ [] }
    ensures ok { OnOk result (ExplainsWide allow (R.remaining reader.old) (R.remaining reader.new) verdict.now
        out.new.items Status.Broken) }
    ensures fault { IfErr result (λ fault. fault ≢ ExplainFault.Tool ToolFault.Write) }
{
    match width {
        WideWidth::Four => {
            explain_rule::<4, 4, R>(
                alloc, coherent, allow, reader, good, fault, clue, verdict, out,
            )
        }
        WideWidth::Eight => {
            explain_rule::<8, 8, R>(
                alloc, coherent, allow, reader, good, fault, clue, verdict, out,
            )
        }
        WideWidth::Sixteen => {
            explain_rule::<16, 16, R>(
                alloc, coherent, allow, reader, good, fault, clue, verdict, out,
            )
        }
        WideWidth::ThirtyTwo => {
            explain_rule::<32, 16, R>(
                alloc, coherent, allow, reader, good, fault, clue, verdict, out,
            )
        }
        WideWidth::SixtyFour => {
            explain_rule::<64, 16, R>(
                alloc, coherent, allow, reader, good, fault, clue, verdict, out,
            )
        }
    }
}

#[tactic(auto, using(crate::proofs::WideExplaining::other_explains))]
/// Explains a line that spells no wide beat, or whose beat names too much: the verdict says all.
fn explain_other(alloc: Global, good: u64, fault: Fault, verdict: &[u8]) -> Result<(), ExplainFault>
    ensures ok { OnOk result ((old new : Option (List ℕ)) (allow : Liberties) →
        ExplainsWide allow old new verdict.now [] Status.Broken) }
    ensures fault { IfErr result (λ fault. fault ≢ ExplainFault.Tool ToolFault.Write) }
{
    if is_rule(fault) || !is_verdict(alloc, good, fault, verdict)? {
        return Err(ExplainFault::Changed);
    }
    Ok(())
}

/// Appends the reasons of a verdict that a line is at fault.
fn explain_found<R: Read>(
    alloc: Global,
    coherent: bool,
    allow: Liberties,
    reader: &mut R,
    found: &Found,
    verdict: &[u8],
    out: &mut Vec<u8>,
) -> Result<(), ExplainFault>
    requires { out.old.items ≡ [] }
    ensures ok { OnOk result (ExplainsWide allow (R.remaining reader.old) (R.remaining reader.new) verdict.now
        out.new.items Status.Broken) }
    ensures fault { IfErr result (λ fault. fault ≢ ExplainFault.Tool ToolFault.Write) }
{
    let fault = found.fault.unwrap_or(Fault::Line(LineFault::F1));
    match (found.width, &found.clue) {
        (Some(width), Some(clue)) if is_rule(fault) => {
            explain_beat(
                alloc, coherent, allow, reader, width, found.good, fault, clue, verdict, out,
            )
        }
        _ => explain_other(alloc, found.good, fault, verdict),
    }
}

/// Lists the messages that are pending at the end of a trace of wide beats of this width without a fault.
fn list_pending<const W: usize, const P: usize, R: Read>(
    alloc: Global,
    allow: Liberties,
    reader: &mut R,
    good: u64,
    out: &mut Vec<u8>,
) -> Result<(), ExplainFault>
    requires width { IsWideWidth W }
    requires part { P ≡ part_width W }
    ensures { IfErr result (λ fault. fault ≢ ExplainFault.Tool ToolFault.Write) }
{
    let mut lines = Lines::new(Lesson::<W, P>::new(alloc, allow, Question::Pending, u64::MAX));
    let mut text = Vec::new(alloc);
    match judge_input(alloc, &mut lines, reader, &mut text) {
        Ok(_) => {}
        Err(fault) => {
            drop(lines);
            return Err(ExplainFault::Tool(fault));
        }
    }
    let mut lesson = lines.into_handler();
    let told = append_lesson(alloc, &mut lesson, good, out);
    drop(lesson);
    told
}

/// Lists the messages that are pending at the end of a trace without a fault, and appends the limits of the verdict.
fn explain_clean<R: Read>(
    alloc: Global,
    coherent: bool,
    allow: Liberties,
    reader: &mut R,
    found: &Found,
    out: &mut Vec<u8>,
) -> Result<(), ExplainFault>
    ensures { IfErr result (λ fault. fault ≢ ExplainFault.Tool ToolFault.Write) }
{
    match found.width {
        None => {}
        Some(WideWidth::Four) => list_pending::<4, 4, R>(alloc, allow, reader, found.good, out)?,
        Some(WideWidth::Eight) => list_pending::<8, 8, R>(alloc, allow, reader, found.good, out)?,
        Some(WideWidth::Sixteen) => list_pending::<16, 16, R>(
            alloc, allow, reader, found.good, out,
        )?,
        Some(WideWidth::ThirtyTwo) => list_pending::<32, 16, R>(
            alloc, allow, reader, found.good, out,
        )?,
        Some(WideWidth::SixtyFour) => list_pending::<64, 16, R>(
            alloc, allow, reader, found.good, out,
        )?,
    }
    out.extend_from_slice(unsaid(coherent).as_bytes())?;
    Ok(())
}

/// Appends the reasons of a verdict. The trace is read again.
fn reasons<R: Read>(
    alloc: Global,
    coherent: bool,
    allow: Liberties,
    reader: &mut R,
    found: &Found,
    status: Status,
    verdict: &[u8],
    out: &mut Vec<u8>,
) -> Result<(), ExplainFault>
    requires { out.old.items ≡ [] }
    ensures ok { OnOk result (ExplainsWide allow (R.remaining reader.old) (R.remaining reader.new) verdict.now
        out.new.items status) }
    ensures fault { IfErr result (λ fault. fault ≢ ExplainFault.Tool ToolFault.Write) }
{
    match status {
        Status::Clean => explain_clean(alloc, coherent, allow, reader, found, out),
        Status::Broken => explain_found(alloc, coherent, allow, reader, found, verdict, out),
    }
}

/// Writes the verdict of `monitor`, or of `coherent`, on a wide trace, and the reasons after it. The links have the
/// liberties that the header names and those that are allowed. The two readers read the same file from its front. The
/// second reads up to the line at fault.
///
/// For a broken rule they are its sentence and the wide beat that breaks it, as it was written. The evidence follows,
/// from
/// the beats that those before it became; a cited line of more than 56 bytes is shown without its data. If each link is
/// judged by itself, the last line names the further liberties that would allow the wide beat. After a trace without a
/// fault come its pending messages and the limits of the verdict.
///
/// Nothing is written before both readings have reached their ends. After that the only fault is `Write`: the writer
/// took only a front of the text. `Read` and `Memory` are faults of the first reading, before its verdict and before
/// the second begins, or of the second. `Changed` comes only after the verdict: the readings differ.
pub fn explain_wide<R: Read, S: Read, W: Write>(
    alloc: Global,
    coherent: bool,
    allow: Liberties,
    first: &mut R,
    second: &mut S,
    writer: &mut W,
) -> Result<Status, ExplainFault>
    ensures ok { IfOk result (λ status. (text : List ℕ)
        × ReachesBoth coherent allow (R.remaining first.old) (R.remaining first.new) (S.remaining second.old)
        (S.remaining second.new) text status
        × Appends (W.contents writer.old) (W.contents writer.new) text) }
    ensures fault { IfErr result (GivesUpWide coherent allow (R.remaining first.old) (R.remaining first.new)
        (S.remaining second.old) (S.remaining second.new) (W.contents writer.old) (W.contents writer.new)) }
{
    let mut verdict = Vec::new(alloc);
    let (found, status) = examine(alloc, coherent, allow, first, &mut verdict)?;
    let mut why = Vec::new(alloc);
    reasons(
        alloc, coherent, allow, second, &found, status, &verdict, &mut why,
    )?;
    write_both(&verdict, &why, writer)?;
    Ok(status)
}
