//! The front of a chart: its texts for readers who don't see the picture, its title, and the lifelines.

use crate::arrow::Arrow;
use crate::gatherer::Gatherer;
use crate::layout::{MANAGER, link_place, row_place};
use crate::mark::Mark;
use crate::note::{Beside, Note};
use crate::style::STYLE;
use crate::text::{append_byte, append_escaped, append_long_block, append_with};
use crate::words::append_words;
use std::alloc::AllocError;
use tl_params::perm::Perm;

/// Appends a text at a place, with a class.
fn append_label(
    class: &str,
    x: u64,
    y: u64,
    text: &[u8],
    out: &mut Vec<u8>,
) -> Result<(), AllocError> {
    out.extend_from_slice(b"<text class='")?;
    out.extend_from_slice(class.as_bytes())?;
    append_with("' x='", x, out)?;
    append_with("' y='", y, out)?;
    out.extend_from_slice(b"'>")?;
    append_escaped(text, out)?;
    out.extend_from_slice(b"</text>\n")
}

/// Appends a lifeline, with its head: a box of this width around a place, with a text in it.
fn append_lifeline(
    x: u64,
    head: u64,
    width: u64,
    text: &[u8],
    bottom: u64,
    out: &mut Vec<u8>,
) -> Result<(), AllocError> {
    append_with("<path class='l' d='M", x, out)?;
    append_with(" 66V", bottom, out)?;
    append_with(
        "'/><rect class='h' x='",
        head.saturating_sub(width / 2),
        out,
    )?;
    append_with("' y='48' height='18' rx='3' width='", width, out)?;
    out.extend_from_slice(b"'/>\n")?;
    append_label("m", head, 61, text, out)
}

/// Appends the links that carry a message or have a note.
pub fn append_links(
    arrows: &[Arrow],
    notes: &[Note],
    links: &mut Vec<u8>,
) -> Result<(), AllocError> {
    for link in 0..=255u8 {
        let noted = notes.iter().any(|note| note.link.0 == link);
        if noted || arrows.iter().any(|arrow| arrow.link.0 == link) {
            links.push(link)?;
        }
    }
    Ok(())
}

/// Appends the title: the lines and the block.
fn append_title(
    beside: &Beside,
    gatherer: &Gatherer,
    end: u64,
    out: &mut Vec<u8>,
) -> Result<(), AllocError> {
    if end < gatherer.window.first {
        return out.extend_from_slice(b"Messages of a trace that ends before these lines");
    }
    append_with("Messages of a trace, lines ", gatherer.window.first, out)?;
    append_with(" to ", end, out)?;
    if let Some(block) = beside.block {
        out.extend_from_slice(b", block ")?;
        append_long_block(block, out)?;
    }
    Ok(())
}

/// Appends the words of a row, for readers who don't see the picture.
fn append_told(line: u64, words: &[u8], out: &mut Vec<u8>) -> Result<(), AllocError> {
    append_with("Line ", line, out)?;
    out.extend_from_slice(b": ")?;
    append_escaped(words, out)?;
    out.extend_from_slice(b".\n")
}

/// Appends the words of the notes before a line, but for the first `told`. Returns the number of notes before it.
fn append_noted(
    notes: &[Note],
    told: usize,
    line: u64,
    out: &mut Vec<u8>,
) -> Result<usize, AllocError> {
    let mut count = told;
    for note in notes.iter().skip(told) {
        if note.line >= line {
            return Ok(count);
        }
        append_told(note.line, note.words.as_slice(), out)?;
        count = count.saturating_add(1);
    }
    Ok(count)
}

/// Appends the words of messages and notes, in the order of their lines, for the same readers.
fn append_all_told(beside: &Beside, arrows: &[Arrow], out: &mut Vec<u8>) -> Result<(), AllocError> {
    let mut told = 0;
    for arrow in arrows {
        told = append_noted(beside.notes, told, arrow.first, out)?;
        let mut words = Vec::new(*out.allocator());
        append_words(beside.names, arrow, &mut words)?;
        append_told(arrow.first, &words, out)?;
    }
    append_noted(beside.notes, told, u64::MAX, out)?;
    Ok(())
}

/// The text for a client with this permission.
fn holder(held: Perm) -> &'static str {
    match held {
        Perm::None => " holds nothing",
        Perm::Branch => " is a reader",
        Perm::Trunk => " is a writer",
    }
}

/// Appends a line about a permission held, for the same readers.
fn append_held(mark: &Mark, out: &mut Vec<u8>) -> Result<(), AllocError> {
    append_with("With line ", mark.line, out)?;
    out.extend_from_slice(b" ")?;
    append_byte(mark.link.0, out)?;
    out.extend_from_slice(holder(mark.held).as_bytes())?;
    out.extend_from_slice(b".\n")
}

/// Appends the beginning of a chart of this size.
fn append_size(width: u64, height: u64, out: &mut Vec<u8>) -> Result<(), AllocError> {
    out.extend_from_slice(
        b"<svg xmlns='http://www.w3.org/2000/svg' role='img' aria-labelledby='title text'",
    )?;
    append_with(" width='", width, out)?;
    append_with("' height='", height, out)?;
    append_with("' viewBox='0 0 ", width, out)?;
    append_with(" ", height, out)?;
    out.extend_from_slice(b"' style='max-width:100%;height:auto'>\n")
}

/// Appends the texts for readers who don't see the picture.
fn append_texts(
    beside: &Beside,
    gatherer: &Gatherer,
    arrows: &[Arrow],
    end: u64,
    verdict: &[u8],
    out: &mut Vec<u8>,
) -> Result<(), AllocError> {
    out.extend_from_slice(b"<title id='title'>")?;
    append_title(beside, gatherer, end, out)?;
    out.extend_from_slice(b"</title>\n<desc id='text'>A sequence chart; time runs downwards.\n")?;
    append_all_told(beside, arrows, out)?;
    for mark in &gatherer.marks {
        append_held(mark, out)?;
    }
    out.extend_from_slice(b"The monitor says: ")?;
    append_escaped(verdict, out)?;
    out.extend_from_slice(b"</desc>\n")
}

/// Appends the title and the meaning of the colours.
fn append_key(
    beside: &Beside,
    gatherer: &Gatherer,
    end: u64,
    out: &mut Vec<u8>,
) -> Result<(), AllocError> {
    let mut title = Vec::new(*out.allocator());
    append_title(beside, gatherer, end, &mut title)?;
    append_label("t", 16, 20, &title, out)?;
    append_label("A", 16, 38, b"A: request", out)?;
    append_label("B", 102, 38, b"B: Probe", out)?;
    append_label("C", 174, 38, b"C: Release, report", out)?;
    append_label("D", 313, 38, b"D: answer", out)?;
    append_label("E", 392, 38, b"E: GrantAck", out)
}

/// Appends the lifelines, with their heads.
fn append_lifelines(links: &[u8], bottom: u64, out: &mut Vec<u8>) -> Result<(), AllocError> {
    append_lifeline(MANAGER, MANAGER - 18, 58, b"manager", bottom, out)?;
    for link in links {
        let mut name = Vec::new(*out.allocator());
        append_byte(*link, &mut name)?;
        let x = link_place(links, *link);
        append_lifeline(x, x, 22, &name, bottom, out)?;
    }
    Ok(())
}

/// The last line that is drawn. `fault` is the line of the beat at fault, or 0.
fn end_line(beside: &Beside, gatherer: &Gatherer, fault: u64) -> u64 {
    let noted = beside.notes.last().map_or(0, |note| note.line);
    gatherer.end.max(fault).max(noted)
}

/// The part of a chart before the bars and the messages. `fault` is the line of the beat at fault; 0 if it isn't drawn.
pub fn front_of(
    beside: &Beside,
    gatherer: &Gatherer,
    arrows: &[Arrow],
    links: &[u8],
    fault: u64,
    verdict: &[u8],
) -> Result<Vec<u8>, AllocError> {
    let end = end_line(beside, gatherer, fault);
    let last = links.last().copied().unwrap_or(0);
    let width = link_place(links, last) + 40;
    let bottom = row_place(arrows.len().saturating_add(beside.notes.len()));
    let mut front = Vec::new(*gatherer.arrows.allocator());
    append_size(width, bottom + 110, &mut front)?;
    append_texts(beside, gatherer, arrows, end, verdict, &mut front)?;
    front.extend_from_slice(STYLE.as_bytes())?;
    append_key(beside, gatherer, end, &mut front)?;
    append_lifelines(links, bottom + 14, &mut front)?;
    Ok(front)
}
