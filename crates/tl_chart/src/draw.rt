//! The messages and notes of a chart, in SVG.

ghost use Rattle.std.specs.Prelude.{◌≡◌, ◌++◌, ◌≤◌, OnOk};
ghost use Rattle.tl_chart.specs.statement.Picture;
ghost use Rattle.tl_chart.specs.statement.Words.{words_of};

use crate::arrow::Arrow;
use crate::layout::{
    MANAGER, bracket_width, end_place, is_down, letter, link_place, row_of, row_place,
};
use crate::names::Names;
use crate::note::Note;
use crate::text::{append, append_escaped, append_with};
use crate::words::append_words;
use std::alloc::AllocError;

/// The names, the rows and the lifelines of a chart, for all its parts.
#[derive(Clone, Copy)]
pub struct Sheet<'a> {
    pub names: &'a Names,
    /// The lines of the rows.
    pub rows: &'a [u64],
    /// The links that have a lifeline.
    pub links: &'a [u8],
    /// The first line that is drawn.
    pub first: u64,
    /// The line of the beat at fault; 0 if it isn't drawn.
    pub fault: u64,
}

/// The class for an arrow's colour.
fn class(arrow: &Arrow, fault: u64) -> &'static str
    ensures { result.now ≡ Picture.colour_class fault arrow.now }
{
    if arrow.first == fault {
        "X"
    } else {
        letter(&arrow.control)
    }
}

/// The class for dashes, of an arrow that begins before the window.
fn dashes(arrow: &Arrow, first: u64) -> &'static str
    ensures { result.now ≡ Picture.dash_class first arrow.now }
{
    if arrow.first < first { " o" } else { "" }
}

#[tactic(auto, unfolding(crate::specs::statement::Picture::class_text))]
/// Appends the beginning of an arrow's group, with its classes.
fn append_class(arrow: &Arrow, first: u64, fault: u64, out: &mut Vec<u8>) -> Result<(), AllocError>
    ensures { OnOk result (out.new.items ≡ out.old.items ++ Picture.class_text first fault arrow.now) }
{
    append("<g class='", out)?;
    append(class(arrow, fault), out)?;
    append(dashes(arrow, first), out)?;
    append("'>\n", out)
}

#[tactic(auto, unfolding(crate::specs::statement::Picture::number_text))]
/// Appends the number of a message's first line.
fn append_first(line: u64, y: u64, out: &mut Vec<u8>) -> Result<(), AllocError>
    requires { y ≤ 1000000 }
    ensures { OnOk result (out.new.items ≡ out.old.items ++ Picture.number_text y line) }
{
    append_with("<text class='n' x='60' y='", y + 4, out)?;
    append_with("'>", line, out)
}

#[tactic(auto, unfolding(crate::specs::statement::Picture::told_text))]
/// Appends the words of a row.
fn append_told(words: &[u8], y: u64, out: &mut Vec<u8>) -> Result<(), AllocError>
    requires { y ≤ 1000000 }
    ensures { OnOk result (out.new.items ≡ out.old.items ++ Picture.told_text y words.now) }
{
    append_with("</text><text x='70' y='", y + 4, out)?;
    append("'>", out)?;
    append_escaped(words, out)?;
    append("</text>\n", out)
}

#[tactic(auto, unfolding(crate::specs::statement::Picture::row_text))]
/// Appends a row: the number of its line, and its words.
fn append_row(line: u64, words: &[u8], y: u64, out: &mut Vec<u8>) -> Result<(), AllocError>
    requires { y ≤ 1000000 }
    ensures { OnOk result (out.new.items ≡ out.old.items ++ Picture.row_text y line words.now) }
{
    append_first(line, y, out)?;
    append_told(words, y, out)
}

/// Appends the row of a message.
fn append_message_row(
    names: &Names,
    arrow: &Arrow,
    y: u64,
    out: &mut Vec<u8>,
) -> Result<(), AllocError>
    requires { y ≤ 1000000 }
    ensures { OnOk result (out.new.items
        ≡ out.old.items ++ Picture.row_text y arrow.now.first (words_of names.now arrow.now)) }
{
    let mut words = Vec::new(*out.allocator());
    append_words(names, arrow, &mut words)?;
    append_row(arrow.first, &words, y, out)
}

#[tactic(auto, unfolding(crate::specs::statement::Picture::shaft_text))]
/// Appends the shaft of an arrow.
fn append_shaft(from: u64, to: u64, y: u64, out: &mut Vec<u8>) -> Result<(), AllocError>
    ensures { OnOk result (out.new.items ≡ out.old.items ++ Picture.shaft_text from to y) }
{
    append_with("<path d='M", from, out)?;
    append_with(" ", y, out)?;
    append_with("H", to, out)
}

#[tactic(auto, unfolding(crate::specs::statement::Picture::point_place))]
/// Appends the place of the point at the start of an arrow.
fn append_point_place(x: u64, y: u64, out: &mut Vec<u8>) -> Result<(), AllocError>
    ensures { OnOk result (out.new.items ≡ out.old.items ++ Picture.point_place x y) }
{
    append_with("'/><circle cx='", x, out)?;
    append_with("' cy='", y, out)
}

#[tactic(auto, unfolding(crate::specs::statement::Picture::point_text))]
/// Appends the point at the start of an arrow.
fn append_point(x: u64, y: u64, out: &mut Vec<u8>) -> Result<(), AllocError>
    ensures { OnOk result (out.new.items ≡ out.old.items ++ Picture.point_text x y) }
{
    append_point_place(x, y, out)?;
    append("' r='2.5'/>", out)
}

/// The strokes of the tip of an arrow that goes to the left, or to the right.
fn tip(to_left: bool) -> &'static str
    ensures { result.now ≡ Picture.strokes to_left }
{
    if to_left {
        "m7 -4l-7 4l7 4"
    } else {
        "m-7 -4l7 4l-7 4"
    }
}

#[tactic(auto, unfolding(crate::specs::statement::Picture::tip_text))]
/// Appends the tip of an arrow.
fn append_tip(from: u64, to: u64, y: u64, out: &mut Vec<u8>) -> Result<(), AllocError>
    ensures { OnOk result (out.new.items ≡ out.old.items ++ Picture.tip_text from to y) }
{
    append_with("<path class='s' d='M", to, out)?;
    append_with(" ", y, out)?;
    append(tip(to < from), out)?;
    append("'/>\n", out)
}

#[tactic(auto, unfolding(crate::specs::statement::Picture::line_text))]
/// Appends an arrow from one place to another.
fn append_line(from: u64, to: u64, y: u64, out: &mut Vec<u8>) -> Result<(), AllocError>
    ensures { OnOk result (out.new.items ≡ out.old.items ++ Picture.line_text from to y) }
{
    append_shaft(from, to, y, out)?;
    append_point(from, y, out)?;
    append_tip(from, to, y, out)
}

#[tactic(auto, unfolding(crate::specs::statement::Picture::across_text))]
/// Appends the arrow of a message, between the client's lifeline at x and the manager's.
fn append_across(arrow: &Arrow, x: u64, y: u64, out: &mut Vec<u8>) -> Result<(), AllocError>
    ensures { OnOk result (out.new.items ≡ out.old.items ++ Picture.across_text arrow.now x y) }
{
    if is_down(&arrow.control) {
        append_line(MANAGER, x, y, out)
    } else {
        append_line(x, MANAGER, y, out)
    }
}

#[tactic(auto, unfolding(crate::specs::statement::Picture::close_text))]
/// Appends the last stroke of a bracket, if the message is complete.
fn append_close(arrow: &Arrow, out: &mut Vec<u8>) -> Result<(), AllocError>
    ensures { OnOk result (out.new.items ≡ out.old.items ++ Picture.close_text arrow.now) }
{
    if arrow.complete {
        append_with("h", bracket_width(&arrow.control), out)
    } else {
        Ok(())
    }
}

#[tactic(auto, unfolding(crate::specs::statement::Picture::side_text))]
/// Appends the side of a bracket.
fn append_side(x: u64, from: u64, to: u64, out: &mut Vec<u8>) -> Result<(), AllocError>
    ensures { OnOk result (out.new.items ≡ out.old.items ++ Picture.side_text x from to) }
{
    append_with("<path d='M", x, out)?;
    append_with(" ", from, out)?;
    append_with("V", to, out)
}

#[tactic(auto, unfolding(crate::specs::statement::Picture::bracket_text))]
/// Appends the bracket from a message's first beat down to its last, beside the client's lifeline. It stays open if
/// beats are missing.
fn append_bracket(
    arrow: &Arrow,
    x: u64,
    from: u64,
    to: u64,
    out: &mut Vec<u8>,
) -> Result<(), AllocError>
    ensures { OnOk result (out.new.items ≡ out.old.items ++ Picture.bracket_text arrow.now x from to) }
{
    let side = x.saturating_sub(bracket_width(&arrow.control));
    append_side(side, from, to, out)?;
    append_close(arrow, out)?;
    append("'/>\n", out)
}

#[tactic(auto, unfolding(crate::specs::statement::Picture::extent_text))]
/// Appends the bracket of a message with more than one beat.
fn append_extent(
    arrow: &Arrow,
    rows: &[u64],
    x: u64,
    y: u64,
    out: &mut Vec<u8>,
) -> Result<(), AllocError>
    ensures { OnOk result (out.new.items ≡ out.old.items ++ Picture.extent_text rows.now arrow.now x y) }
{
    if arrow.first < arrow.last {
        append_bracket(arrow, x, y, end_place(rows, arrow.last), out)
    } else {
        Ok(())
    }
}

#[tactic(auto, unfolding(crate::specs::statement::Picture::arrow_text))]
/// Appends a message: its row, its arrow, and its bracket if it has more than one beat.
fn append_arrow(sheet: &Sheet, arrow: &Arrow, out: &mut Vec<u8>) -> Result<(), AllocError>
    ensures { OnOk result (out.new.items ≡ out.old.items ++ Picture.arrow_text sheet.now.names.now sheet.now.rows.now
        sheet.now.links.now sheet.now.first sheet.now.fault arrow.now) }
{
    let y = row_place(row_of(sheet.rows, arrow.first));
    let x = link_place(sheet.links, arrow.link.0);
    append_class(arrow, sheet.first, sheet.fault, out)?;
    append_message_row(sheet.names, arrow, y, out)?;
    append_across(arrow, x, y, out)?;
    append_extent(arrow, sheet.rows, x, y, out)?;
    append("</g>\n", out)
}

/// Appends all messages, in their order.
pub fn append_arrows(sheet: &Sheet, arrows: &[Arrow], out: &mut Vec<u8>) -> Result<(), AllocError>
    ensures { OnOk result (out.new.items ≡ out.old.items ++ Picture.arrows_text sheet.now.names.now sheet.now.rows.now
        sheet.now.links.now sheet.now.first sheet.now.fault arrows.now) }
{
    for arrow in arrows {
        append_arrow(sheet, arrow, out)?;
    }
    Ok(())
}

/// The class of a full mark or a hollow one.
fn mark_class(full: bool) -> &'static str
    ensures { result.now ≡ Picture.mark_class full }
{
    if full { "w" } else { "r" }
}

#[tactic(auto, unfolding(crate::specs::statement::Picture::spot_class))]
/// Appends the class and the size of a mark.
fn append_spot_class(class: &str, out: &mut Vec<u8>) -> Result<(), AllocError>
    ensures { OnOk result (out.new.items ≡ out.old.items ++ Picture.spot_class class.now) }
{
    append("<rect class='", out)?;
    append(class, out)?;
    append("' width='6' height='6'", out)
}

#[tactic(auto, unfolding(crate::specs::statement::Picture::spot_side))]
/// Appends the class and the size of a mark, and its place from the left.
fn append_spot_side(class: &str, x: u64, out: &mut Vec<u8>) -> Result<(), AllocError>
    ensures { OnOk result (out.new.items ≡ out.old.items ++ Picture.spot_side class.now x) }
{
    append_spot_class(class, out)?;
    append_with(" x='", x.saturating_sub(5), out)
}

#[tactic(auto, unfolding(crate::specs::statement::Picture::spot_text))]
/// Appends a mark on a lifeline.
fn append_spot(class: &str, x: u64, y: u64, out: &mut Vec<u8>) -> Result<(), AllocError>
    ensures { OnOk result (out.new.items ≡ out.old.items ++ Picture.spot_text class.now x y) }
{
    append_spot_side(class, x, out)?;
    append_with("' y='", y.saturating_sub(3), out)?;
    append("'/>\n", out)
}

#[tactic(auto, unfolding(crate::specs::statement::Picture::note_text))]
/// Appends a note: its row, and a mark on the lifeline of its link.
fn append_note(sheet: &Sheet, note: &Note, out: &mut Vec<u8>) -> Result<(), AllocError>
    ensures { OnOk result (out.new.items
        ≡ out.old.items ++ Picture.note_text sheet.now.rows.now sheet.now.links.now note.now) }
{
    let y = row_place(row_of(sheet.rows, note.line));
    let x = link_place(sheet.links, note.link.0);
    append_row(note.line, note.words.as_slice(), y, out)?;
    append_spot(mark_class(note.full), x, y, out)
}

/// Appends all notes, in their order.
pub fn append_notes(sheet: &Sheet, notes: &[Note], out: &mut Vec<u8>) -> Result<(), AllocError>
    ensures { OnOk result (out.new.items
        ≡ out.old.items ++ Picture.notes_text sheet.now.rows.now sheet.now.links.now notes.now) }
{
    for note in notes {
        append_note(sheet, note, out)?;
    }
    Ok(())
}
