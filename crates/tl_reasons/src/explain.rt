//! Explains the verdict on a recorded trace, which is read twice.

ghost use Rattle.std.specs.Prelude.{◌≡◌, ◌≢◌, ◌+◌, ◌++◌, [], ℕ, List, Err, IfErr};
ghost use Rattle.std.specs.Prelude.{IfOk, IfSome, Ok, OnErr, OnOk, Some, not, true};
ghost use Rattle.std.specs.Io.KnownBytes.{Appends, Consumes};
ghost use Rattle.tl_beat.specs.declared.beat.Beat.{Beat};
ghost use Rattle.tl_beat.specs.declared.beat.Link.{Link};
ghost use Rattle.tl_beat.specs.statement.Line.{Spells};
ghost use Rattle.tl_beat.specs.statement.Width.{IsWidth};
ghost use Rattle.tl_reasons.specs.code.Explaining.{ExplainsFound, ExplainsStatus};
ghost use Rattle.tl_lines.specs.statement.Parts.{AppendsShort};
ghost use Rattle.tl_reasons.specs.code.Replaying.{HasReachedIn, KnowsReplay};
ghost use Rattle.tl_reasons.specs.statement.Explained.{Explains, IsExplained, IsNamed};
ghost use Rattle.tl_reasons.specs.statement.Explained.{broken_alone, front_text, is_of_order};
ghost use Rattle.tl_reasons.specs.statement.Unexplained.{GivesUpExplaining, Reaches};
ghost use Rattle.tl_lines.specs.declared.status.Status.{Status};

use crate::examiner::{Found, examine};
use crate::explain_fault::{ExplainFault, number_behind};
use crate::explain_memory::explain_memory;
use crate::malformed::{explain_header, explain_spelling};
use crate::replay::Replay;
use crate::reread::read_again;
use std::alloc::{AllocError, Global};
use std::io;
use std::io::{Read, Write};
use tl_beat::beat::{Beat, Link};
use tl_beat::fault::LineFault;
use tl_beat::read::read_line;
use tl_explain::ledger::Ledger;
use tl_explain::named::append_sentence;
use tl_explain::reason::find_reason_under;
use tl_explain::recorder::Recorder;
use tl_explain::told::Spelling;
use tl_explain::wording::AsRecorded;
use tl_explain::words::append_beat_line;
use tl_explain::{legal, tell};
use tl_lines::fault::Fault;
use tl_lines::links_header::LinksHeader;
use tl_lines::output::write_all;
use tl_lines::status::{Status, ToolFault};
use tl_lines::subject::subject_of;
use tl_params::liberties::Liberties;
use tl_params::width::Width;
use tl_rules::legality::beat::check_beat_under;
use tl_rules::level::Level;
use tl_rules::rule::Rule;

/// The outcome of a run that writes only to memory: a `Write` fault there is a `Memory` fault.
pub fn in_memory(outcome: Result<Status, ToolFault>) -> Result<Status, ToolFault>
    ensures ok { IfOk result (λ status. outcome ≡ Ok status) }
    ensures fault { IfErr result (λ fault. fault ≢ ToolFault.Write) }
    ensures done { IfOk outcome (λ status. result ≡ Ok status) }
    ensures other { IfErr outcome (λ fault. fault ≢ ToolFault.Write → result ≡ Err fault) }
    ensures read { result ≡ Err ToolFault.Read → outcome ≡ Err ToolFault.Read }
{
    match outcome {
        Err(ToolFault::Write) => Err(ToolFault::Memory),
        Ok(status) => Ok(status),
        Err(fault) => Err(fault),
    }
}

/// Whether the rule is one of legality, which judges a beat by itself.
pub fn is_legality(rule: Rule) -> bool
    ensures { result ≡ not (is_of_order rule) }
{
    matches!(
        rule,
        Rule::L1 | Rule::L2 | Rule::L3 | Rule::L4 | Rule::L5 | Rule::L6 | Rule::L7
    )
}

#[tactic(auto, using(crate::proofs::Explaining::broken_by))]
/// Whether the beat breaks the rule by itself, on a link with these liberties.
pub fn is_illegal<const W: usize>(
    may: Liberties,
    level: Option<Level>,
    rule: Rule,
    beat: &Beat<W>,
) -> bool
    requires { IsWidth W }
    ensures { result ≡ true → broken_alone may level beat.now ≡ Some rule }
{
    match level {
        None => rule == Rule::L1,
        Some(level) => match check_beat_under(may, level, beat.channel(), beat) {
            Ok(()) => false,
            Err(broken) => broken == rule,
        },
    }
}

/// Appends the text of a rule, and the beat that breaks it.
pub fn append_front<const W: usize>(
    rule: Rule,
    number: u64,
    line: &[u8],
    out: &mut Vec<u8>,
) -> Result<(), AllocError>
    requires { IsWidth W }
    ensures { OnOk result ((link : Link) (beat : Beat W) → Spells line.now link beat →
        out.new.items ≡ out.old.items ++ front_text rule number link beat) }
{
    out.extend_from_slice(b"  ")?;
    append_sentence(rule, out)?;
    append_beat_line::<W>(number, line, out)
}

/// Begins to record for a line at fault, if it spells a beat.
fn start_of<const W: usize>(
    allow: Liberties,
    header: &LinksHeader,
    found: &Found,
    line: &Spelling,
) -> Option<Replay<W>>
    requires { IsWidth W }
    ensures knows { IfSome result (λ start. KnowsReplay start []) }
    ensures allowed { IfSome result (λ start. start.allow ≡ allow) }
{
    let Ok((link, beat)) = read_line::<W>(line.line()) else {
        return None;
    };
    Some(Replay {
        recorder: Recorder::with_liberties(header.may, subject_of(link, &beat, found.block)),
        allow,
        may: header.may,
        level: header.level_of(link),
        good: found.good,
        line: *line,
        count: 0,
        reached: false,
    })
}

/// Reads the lines again up to the one at fault, which spells a beat, and records the beats before it.
fn replayed<const W: usize, R: Read>(
    alloc: Global,
    allow: Liberties,
    reader: &mut R,
    header: &LinksHeader,
    found: &Found,
    line: &Spelling,
) -> Result<Replay<W>, ExplainFault>
    requires { IsWidth W }
    ensures ok { IfOk result (λ replay. (read : List ℕ)
        × Consumes (R.remaining reader.old) (R.remaining reader.new) read × HasReachedIn replay read) }
    ensures good { IfOk result (λ replay. replay.good ≡ found.now.good) }
    ensures allowed { IfOk result (λ replay. replay.allow ≡ allow) }
    ensures fault { IfErr result (λ fault. fault ≢ ExplainFault.Tool ToolFault.Write) }
{
    let start = start_of::<W>(allow, header, found, line).ok_or(ExplainFault::Changed)?;
    let replay = read_again(alloc, reader, start)?.ok_or(ExplainFault::Changed)?;
    if replay.good != found.good {
        return Err(ExplainFault::Changed);
    }
    if replay.allow != allow {
        return Err(ExplainFault::Changed);
    }
    Ok(replay)
}

/// Explains a beat that breaks a rule by itself.
fn explain_legality<const W: usize, R: Read>(
    alloc: Global,
    allow: Liberties,
    reader: &mut R,
    header: &LinksHeader,
    found: &Found,
    rule: Rule,
    line: &Spelling,
    out: &mut Vec<u8>,
) -> Result<(), ExplainFault>
    requires width { IsWidth W }
    requires empty { out.old.items ≡ [] }
    ensures ok { OnOk result (IsNamed allow (R.remaining reader.old) (R.remaining reader.new) (found.now.good + 1) rule
        out.new.items) }
    ensures fault { IfErr result (λ fault. fault ≢ ExplainFault.Tool ToolFault.Write) }
{
    let replay = replayed::<W, R>(alloc, allow, reader, header, found, line)?;
    let number = number_behind(found.good)?;
    let line = replay.line.line();
    let Ok((_, beat)) = read_line::<W>(line) else {
        return Err(ExplainFault::Changed);
    };
    let level = replay.level;
    if !is_illegal(replay.may, level, rule, &beat) {
        return Err(ExplainFault::Changed);
    }
    let mut grounds = Vec::new(alloc);
    legal::tell(replay.may, level, rule, &beat, &mut grounds)?;
    append_front::<W>(rule, number, line, out)?;
    out.extend_from_slice(&grounds)?;
    Ok(())
}

/// Explains a beat that breaks a rule of bursts or of the order of messages.
fn explain_order<const W: usize, R: Read>(
    alloc: Global,
    allow: Liberties,
    reader: &mut R,
    header: &LinksHeader,
    found: &Found,
    rule: Rule,
    line: &Spelling,
    out: &mut Vec<u8>,
) -> Result<(), ExplainFault>
    requires width { IsWidth W }
    requires empty { out.old.items ≡ [] }
    ensures ok { OnOk result (IsExplained allow (R.remaining reader.old) (R.remaining reader.new) (found.now.good + 1) rule
        out.new.items) }
    ensures fault { IfErr result (λ fault. fault ≢ ExplainFault.Tool ToolFault.Write) }
{
    let replay = replayed::<W, R>(alloc, allow, reader, header, found, line)?;
    let number = number_behind(found.good)?;
    let line = replay.line.line();
    let Ok((_, beat)) = read_line::<W>(line) else {
        return Err(ExplainFault::Changed);
    };
    let Some(reason) = find_reason_under(rule, &beat, &replay.recorder) else {
        return Err(ExplainFault::Changed);
    };
    let mut grounds = Vec::new(alloc);
    tell::tell(replay.may, &beat, &reason, &replay.recorder, &mut grounds)?;
    append_front::<W>(rule, number, line, out)?;
    out.extend_from_slice(&grounds)?;
    Ok(())
}

/// The limits of `clean`, or of `coherent`.
pub fn unsaid(coherent: bool) -> &'static str {
    if coherent {
        "  coherent means that no beat breaks a rule of its own link or of memory; it says nothing about messages that never come, nor about a link that isn't in the trace\n"
    } else {
        "  clean means that no beat breaks a rule of its own link; it says nothing about two links together, nor about the data\n"
    }
}

/// Lists the messages pending at the end of a trace without a fault.
fn explain_clean<const W: usize>(
    coherent: bool,
    ledger: &mut Ledger,
    out: &mut Vec<u8>,
) -> Result<(), ExplainFault>
    requires { IsWidth W }
    ensures fault { IfErr result (λ fault. fault ≢ ExplainFault.Tool ToolFault.Write) }
{
    ledger.tell::<W, AsRecorded>(&AsRecorded, out)?;
    io::Write::write_all(out, unsaid(coherent).as_bytes())?;
    Ok(())
}

#[tactic(auto, using(crate::proofs::Explaining::of_legality, crate::proofs::Explaining::of_order))]
/// Explains the facts that were found after a header.
fn explain_found<const W: usize, R: Read>(
    alloc: Global,
    coherent: bool,
    allow: Liberties,
    reader: &mut R,
    header: &LinksHeader,
    found: &Found,
    ledger: &mut Ledger,
    status: Status,
    out: &mut Vec<u8>,
) -> Result<(), ExplainFault>
    requires width { IsWidth W }
    requires empty { out.old.items ≡ [] }
    ensures ok { OnOk result (ExplainsFound allow (R.remaining reader.old) (R.remaining reader.new) found.now.good
        found.now.fault out.new.items status) }
    ensures fault { IfErr result (λ fault. fault ≢ ExplainFault.Tool ToolFault.Write) }
{
    match (status, &found.fault) {
        (Status::Clean, _) => { explain_clean::<W>(coherent, ledger, out) }
        (Status::Broken, None) => {
            explain_spelling::<W, R>(alloc, reader, found.good, LineFault::F1, out)
        }
        (Status::Broken, Some((Fault::Line(fault), _))) => {
            explain_spelling::<W, R>(alloc, reader, found.good, *fault, out)
        }
        (Status::Broken, Some((Fault::Rule(rule), line))) => {
            if is_legality(*rule) {
                explain_legality::<W, R>(alloc, allow, reader, header, found, *rule, line, out)
            } else {
                explain_order::<W, R>(alloc, allow, reader, header, found, *rule, line, out)
            }
        }
        (Status::Broken, Some((Fault::MemoryRule(rule), line))) => {
            explain_memory(alloc, allow, reader, found, *rule, line, out)
        }
        (Status::Broken, Some(_)) => Err(ExplainFault::Changed),
    }
}

/// Appends the reasons of a verdict. A trace at fault is read again.
fn reasons<R: Read>(
    alloc: Global,
    coherent: bool,
    allow: Liberties,
    reader: &mut R,
    found: &Found,
    ledger: &mut Ledger,
    status: Status,
    out: &mut Vec<u8>,
) -> Result<(), ExplainFault>
    requires { out.old.items ≡ [] }
    ensures ok { OnOk result (ExplainsStatus allow (R.remaining reader.old) (R.remaining reader.new) found.now
        out.new.items status) }
    ensures fault { IfErr result (λ fault. fault ≢ ExplainFault.Tool ToolFault.Write) }
{
    match &found.header {
        None => explain_header(alloc, reader, out),
        Some(header) => match header.width {
            Width::Four => {
                explain_found::<4, R>(
                    alloc, coherent, allow, reader, header, found, ledger, status, out,
                )
            }
            Width::Eight => {
                explain_found::<8, R>(
                    alloc, coherent, allow, reader, header, found, ledger, status, out,
                )
            }
            Width::Sixteen => {
                explain_found::<16, R>(
                    alloc, coherent, allow, reader, header, found, ledger, status, out,
                )
            }
        },
    }
}

/// Writes a verdict, and its reasons after it. The only fault is `Write`.
pub fn write_both<W: Write>(verdict: &[u8], reasons: &[u8], writer: &mut W) -> Result<(), ToolFault>
    ensures ok { OnOk result (Appends (W.contents writer.old) (W.contents writer.new) (verdict.now ++ reasons.now)) }
    ensures err { OnErr result (AppendsShort (W.contents writer.old) (W.contents writer.new)
        (verdict.now ++ reasons.now)) }
    ensures fault { IfErr result (λ fault. fault ≡ ToolFault.Write) }
{
    write_all(writer, verdict)?;
    write_all(writer, reasons)
}

#[tactic(auto, using(crate::proofs::Explaining::explains))]
/// Writes the verdict of `monitor`, or of `coherent`, on a trace, and the reasons after it. The links have the
/// liberties that the header of any form names and those that are allowed. The two readers read the same file from its
/// front. The second reads up to the line at fault. If they differ, nothing is written. For a broken rule of order, the
/// second reading has a reason for that line and that rule. For a broken rule of memory, it has the same verdict.
///
/// Nothing is written before both readings have reached their ends. After that the only fault is `Write`: the writer
/// took only a front of the text. `Read` and `Memory` are faults of the first reading, before its verdict and before
/// the second begins, or of the second. `Changed` comes only after the verdict.
pub fn explain_input<R: Read, S: Read, W: Write>(
    alloc: Global,
    coherent: bool,
    allow: Liberties,
    first: &mut R,
    second: &mut S,
    writer: &mut W,
) -> Result<Status, ExplainFault>
    ensures ok { IfOk result (λ status. (verdict reasons : List ℕ)
        × Reaches coherent allow (R.remaining first.old) (R.remaining first.new) verdict status
        × Explains allow (S.remaining second.old) (S.remaining second.new) verdict reasons status
        × Appends (W.contents writer.old) (W.contents writer.new) (verdict ++ reasons)) }
    ensures fault { IfErr result (GivesUpExplaining coherent allow (R.remaining first.old) (R.remaining first.new)
        (S.remaining second.old) (S.remaining second.new) (W.contents writer.old) (W.contents writer.new)) }
{
    let mut verdict = Vec::new(alloc);
    let mut ledger = Ledger::new(alloc);
    let (found, status) = examine(alloc, coherent, allow, first, &mut ledger, &mut verdict)?;
    let mut why = Vec::new(alloc);
    reasons(
        alloc,
        coherent,
        allow,
        second,
        &found,
        &mut ledger,
        status,
        &mut why,
    )?;
    write_both(&verdict, &why, writer)?;
    Ok(status)
}
