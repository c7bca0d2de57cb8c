//! Reads the header of a trace that names the liberties of its links.

ghost use Rattle.std.specs.Prelude.{◌≡◌, List, IfSome, slice_get};
ghost use Rattle.tl_lines.specs.code.HeadReading.{front_at};
ghost use Rattle.tl_lines.specs.statement.LinksHeader.{AreNamed, IsLinks, NamesLinks, SpellsFourth, SpellsNamed};
ghost use Rattle.tl_params.specs.code.HeaderReading.{Gives};
ghost use Rattle.tl_params.specs.declared.level.Level.{Level};
ghost use Rattle.tl_params.specs.declared.liberties.Liberties.{Liberties};
ghost use Rattle.tl_params.specs.declared.width.Width.{Width};

use crate::header::{read_header, read_levels};
use arrayvec::ArrayVec;
use tl_beat::beat::Link;
use tl_command::liberties::front_liberties;
use tl_params::config::MOST_CLIENTS;
use tl_params::level::Level;
use tl_params::liberties::Liberties;
use tl_params::width::Width;

/// The header of a trace: the bytes of a beat, the liberties of the links beyond the first profile, and the levels of
/// the links from link 0 on.
#[derive(Drop)]
pub struct LinksHeader {
    pub width: Width,
    pub may: Liberties,
    pub levels: ArrayVec<Level, MOST_CLIENTS>,
}

impl LinksHeader {
    /// The level of a link. None if the header names no such link.
    pub fn level_of(&self, link: Link) -> Option<Level>
        ensures { result ≡ slice_get self.now.levels.items link.0 }
    {
        self.levels.as_slice().get(usize::from(link.0)).copied()
    }
}

/// The bytes of a beat at the front of a header of the fourth version, and the rest after them.
pub fn front(line: &[u8]) -> Option<(Width, &[u8])>
    ensures { Gives result (front_at line.now) }
{
    if let Some(rest) = line.strip_prefix(b"tltrace 4 4 ") {
        return Some((Width::Four, rest));
    }
    if let Some(rest) = line.strip_prefix(b"tltrace 4 8 ") {
        return Some((Width::Eight, rest));
    }
    match line.strip_prefix(b"tltrace 4 16 ") {
        None => None,
        Some(rest) => Some((Width::Sixteen, rest)),
    }
}

/// The liberties and the levels at the end of a header that names both: `LIBERTIES LEVELS..` and an LF.
pub fn read_named(bytes: &[u8]) -> Option<(Liberties, ArrayVec<Level, MOST_CLIENTS>)>
    // What is read is spelled by the bytes, and whatever they spell is read.
    ensures spelled { IfSome result (λ named. SpellsNamed bytes.now named.0 named.1.items) }
    ensures every_spelling { (may : Liberties) (levels : List Level) → SpellsNamed bytes.now may levels →
        AreNamed result may levels }
{
    let (may, rest) = front_liberties(bytes)?;
    let levels = read_levels(rest)?;
    if levels.is_empty() {
        return None;
    }
    Some((may, levels))
}

/// A header of the fourth version: `tltrace 4 W LIBERTIES LEVELS..`.
fn fourth(line: &[u8]) -> Option<LinksHeader>
    ensures spelled { IfSome result (λ header. SpellsFourth line.now header.width header.may header.levels.items) }
    ensures every_spelling { (width : Width) (may : Liberties) (levels : List Level) →
        SpellsFourth line.now width may levels → IsLinks result width may levels }
{
    let (width, rest) = front(line)?;
    let (may, levels) = read_named(rest)?;
    Some(LinksHeader { width, may, levels })
}

/// Reads the first line of a trace, with its LF. None if the line is no header.
pub fn read_links(line: &[u8]) -> Option<LinksHeader>
    // What is read is spelled by the line, and whatever the line spells is read.
    ensures spelled { IfSome result (λ header. NamesLinks line.now header.width header.may header.levels.items) }
    ensures every_spelling { (width : Width) (may : Liberties) (levels : List Level) →
        NamesLinks line.now width may levels → IsLinks result width may levels }
{
    match read_header(line) {
        None => fourth(line),
        Some(header) => Some(LinksHeader {
            width: header.width,
            may: Liberties::of(header.profile),
            levels: header.levels,
        }),
    }
}
