//! Writes the chart of a drawing.

ghost use Rattle.std.specs.Prelude.{◌≡◌, ◌++◌, ◌≤◌, OnOk, IfOk, option_to_list};
ghost use Rattle.tl_chart.specs.code.Gathered.{drawn_of};
ghost use Rattle.tl_chart.specs.statement.Chart.{IsChart, IsChartBeside, all_bars_text, body_text, fault_line, rows};
ghost use Rattle.tl_chart.specs.statement.Picture;

use crate::arrow::Arrow;
use crate::bars::append_bars;
use crate::draw::{Sheet, append_arrows, append_notes};
use crate::front::{append_links, front_of};
use crate::gatherer::Gatherer;
use crate::layout::row_place;
use crate::names::Names;
use crate::note::{Beside, Note};
use crate::text::{append_escaped, append_with};
use std::alloc::{AllocError, Global};

/// The verdict on a trace.
#[derive(Drop)]
pub struct Verdict<'a> {
    /// The text of `monitor`.
    pub text: &'a [u8],
    /// The beat at fault, if it is drawn.
    pub fault: Option<Arrow>,
    /// Whether a line is at fault.
    pub broken: bool,
}

#[tactic(auto, unfolding(crate::specs::statement::Picture::said_text))]
/// Appends a line of text below the messages.
fn append_said(y: u64, text: &[u8], out: &mut Vec<u8>) -> Result<(), AllocError>
    ensures { OnOk result (out.new.items ≡ out.old.items ++ Picture.said_text y text.now) }
{
    append_with("<text class='v' x='70' y='", y, out)?;
    out.extend_from_slice(b"'>")?;
    append_escaped(text, out)?;
    out.extend_from_slice(b"</text>\n")
}

/// The class of a verdict, red if a line is at fault.
fn verdict_class(broken: bool) -> &'static str
    ensures { result.now ≡ Picture.verdict_class broken }
{
    if broken { "X" } else { "v" }
}

#[tactic(auto, unfolding(crate::specs::statement::Picture::verdict_text))]
/// Appends the line of a verdict, red if a line is at fault.
fn append_verdict(broken: bool, text: &[u8], y: u64, out: &mut Vec<u8>) -> Result<(), AllocError>
    ensures { OnOk result (out.new.items ≡ out.old.items ++ Picture.verdict_text y broken text.now) }
{
    out.extend_from_slice(b"<g class='")?;
    out.extend_from_slice(verdict_class(broken).as_bytes())?;
    out.extend_from_slice(b"'>\n")?;
    append_said(y, text, out)?;
    out.extend_from_slice(b"</g>\n")
}

/// Appends a remark if `shown`, and returns the place of the next.
fn append_remark(shown: bool, y: u64, text: &[u8], out: &mut Vec<u8>) -> Result<u64, AllocError> {
    if !shown {
        return Ok(y);
    }
    append_said(y, text, out)?;
    Ok(y.saturating_add(18))
}

/// Appends the number of rows that follow, if there are some, after these words. Returns the place of the next remark.
fn append_more(words: &str, more: u64, y: u64, out: &mut Vec<u8>) -> Result<u64, AllocError> {
    let mut text = Vec::new(*out.allocator());
    append_with(words, more, &mut text)?;
    append_remark(more > 0, y, &text, out)
}

/// Appends the numbers of messages and notes that follow, and the meaning of dashes and bars.
fn append_remarks(
    beside: &Beside,
    gatherer: &Gatherer,
    y: u64,
    out: &mut Vec<u8>,
) -> Result<(), AllocError> {
    let y = append_more("messages that follow: ", gatherer.more, y, out)?;
    let y = append_more("stores and loads that follow: ", beside.more, y, out)?;
    let dashes = b"dashes: begun before these lines, and still open there";
    let y = append_remark(gatherer.window.first > 2, y, dashes, out)?;
    let bars = b"beside a lifeline: a hollow bar for a reader, a full one for a writer";
    append_remark(gatherer.window.block.is_some(), y, bars, out)?;
    Ok(())
}

/// The messages that are drawn, and then the beat at fault.
fn messages_of(gatherer: &Gatherer, verdict: &Verdict) -> Result<Vec<Arrow>, AllocError>
    ensures { IfOk result (λ arrows. arrows.items ≡ gatherer.now.arrows.items ++ option_to_list verdict.now.fault) }
{
    let alloc = *gatherer.arrows.allocator();
    let mut arrows = Vec::from_slice(alloc, gatherer.arrows.as_slice())?;
    if let Some(fault) = verdict.fault {
        arrows.push(fault)?;
    }
    Ok(arrows)
}

/// The lines of the rows: those in which messages begin, and those of the notes.
fn rows_of(arrows: &[Arrow], notes: &[Note], alloc: Global) -> Result<Vec<u64>, AllocError>
    ensures { IfOk result (λ lines. lines.items ≡ rows arrows.now notes.now) }
{
    let mut rows = Vec::new(alloc);
    for arrow in arrows {
        rows.push(arrow.first)?;
    }
    for note in notes {
        rows.push(note.line)?;
    }
    Ok(rows)
}

/// The line of the beat at fault; 0 if it isn't drawn.
fn fault_line(verdict: &Verdict) -> u64
    ensures { result ≡ fault_line verdict.now.fault }
{
    match verdict.fault {
        None => 0,
        Some(fault) => fault.first,
    }
}

/// Appends the bars of all links.
fn append_all_bars(
    gatherer: &Gatherer,
    rows: &[u64],
    links: &[u8],
    bottom: u64,
    out: &mut Vec<u8>,
) -> Result<(), AllocError>
    ensures { OnOk result (out.new.items ≡ out.old.items ++ all_bars_text rows.now gatherer.now.marks.items links.now
        gatherer.now.window.first bottom) }
{
    for link in links {
        append_bars(
            *link,
            &gatherer.marks,
            rows,
            links,
            gatherer.window.first,
            bottom,
            out,
        )?;
    }
    Ok(())
}

#[tactic(auto, unfolding(crate::specs::statement::Chart::body_text))]
/// Appends bars, messages, notes and verdict.
fn append_body(
    beside: &Beside,
    gatherer: &Gatherer,
    arrows: &[Arrow],
    rows: &[u64],
    links: &[u8],
    verdict: &Verdict,
    out: &mut Vec<u8>,
) -> Result<(), AllocError>
    ensures { OnOk result (out.new.items ≡ out.old.items ++ body_text beside.now.names.now beside.now.notes.now
        gatherer.now.window.first gatherer.now.marks.items arrows.now rows.now links.now (fault_line verdict.now.fault)
        verdict.now.text.now verdict.now.broken) }
{
    let bottom = row_place(rows.len());
    let sheet = Sheet {
        names: beside.names,
        rows,
        links,
        first: gatherer.window.first,
        fault: fault_line(verdict),
    };
    append_all_bars(gatherer, rows, links, bottom + 14, out)?;
    append_arrows(&sheet, arrows, out)?;
    append_notes(&sheet, beside.notes, out)?;
    append_verdict(verdict.broken, verdict.text, bottom + 36, out)
}

/// The part after the verdict.
fn end_of(beside: &Beside, gatherer: &Gatherer, bottom: u64) -> Result<Vec<u8>, AllocError>
    requires { bottom ≤ 1000000 }
{
    let mut end = Vec::new(*gatherer.arrows.allocator());
    append_remarks(beside, gatherer, bottom + 56, &mut end)?;
    end.extend_from_slice(b"</svg>\n")?;
    Ok(end)
}

/// Appends the chart of a drawing, with these names, notes and verdict. The notes are in the order of their
/// lines.
pub fn append_chart_beside(
    beside: &Beside,
    gatherer: &Gatherer,
    verdict: &Verdict,
    out: &mut Vec<u8>,
) -> Result<(), AllocError>
    ensures { OnOk result (IsChartBeside beside.now.names.now beside.now.notes.now gatherer.now.window
        (drawn_of gatherer.now) verdict.now.fault verdict.now.text.now verdict.now.broken out.old.items out.new.items) }
{
    let alloc = *out.allocator();
    let arrows = messages_of(gatherer, verdict)?;
    let rows = rows_of(&arrows, beside.notes, alloc)?;
    let mut links = Vec::new(alloc);
    append_links(&arrows, beside.notes, &mut links)?;
    let front = front_of(
        beside,
        gatherer,
        &arrows,
        &links,
        fault_line(verdict),
        verdict.text,
    )?;
    let end = end_of(beside, gatherer, row_place(rows.len()))?;
    out.extend_from_slice(&front)?;
    append_body(beside, gatherer, &arrows, &rows, &links, verdict, out)?;
    out.extend_from_slice(&end)
}

/// Appends the chart of a drawing, with the names of its beats, and with the verdict.
pub fn append_chart(
    gatherer: &Gatherer,
    verdict: &Verdict,
    out: &mut Vec<u8>,
) -> Result<(), AllocError>
    ensures { OnOk result (IsChart gatherer.now.window (drawn_of gatherer.now) verdict.now.fault verdict.now.text.now
        verdict.now.broken out.old.items out.new.items) }
{
    let beside = Beside {
        names: &Names::Own,
        notes: &[],
        more: 0,
        block: gatherer.window.block.map(u64::from),
    };
    append_chart_beside(&beside, gatherer, verdict, out)
}
