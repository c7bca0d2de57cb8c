//! Reads the header of a trace of wide beats.

ghost use Rattle.std.specs.Prelude.{List, IfSome};
ghost use Rattle.tl_params.specs.code.HeaderReading.{Gives};
ghost use Rattle.tl_params.specs.declared.level.Level.{Level};
ghost use Rattle.tl_params.specs.declared.liberties.Liberties.{Liberties};
ghost use Rattle.tl_wide.specs.declared.width.WideWidth.{WideWidth};
ghost use Rattle.tl_wide_lines.specs.code.HeadReading.{ReadsWide, wide_front_at};
ghost use Rattle.tl_wide_lines.specs.statement.WideHeader.{IsWideHeader, SpellsFifth};

use tl_lines::links_header::{LinksHeader, read_named};
use tl_params::liberties::Liberties;
use tl_params::width::Width;
use tl_wide::width::WideWidth;

/// The header of a trace of wide beats: the width of a beat, and the header of the narrow trace that the wide one
/// becomes.
#[derive(Drop)]
pub struct WideHeader {
    pub width: WideWidth,
    pub links: LinksHeader,
}

/// The width of a beat at the front of a header of the fifth version, and the rest of the line.
pub fn front(line: &[u8]) -> Option<(WideWidth, &[u8])>
    ensures { Gives result (wide_front_at line.now) }
{
    if let Some(rest) = line.strip_prefix(b"tltrace 5 4 ") {
        return Some((WideWidth::Four, rest));
    }
    if let Some(rest) = line.strip_prefix(b"tltrace 5 8 ") {
        return Some((WideWidth::Eight, rest));
    }
    if let Some(rest) = line.strip_prefix(b"tltrace 5 16 ") {
        return Some((WideWidth::Sixteen, rest));
    }
    if let Some(rest) = line.strip_prefix(b"tltrace 5 32 ") {
        return Some((WideWidth::ThirtyTwo, rest));
    }
    match line.strip_prefix(b"tltrace 5 64 ") {
        None => None,
        Some(rest) => Some((WideWidth::SixtyFour, rest)),
    }
}

/// The width of a part of a wide beat.
pub fn part_of(width: WideWidth) -> Width {
    match width {
        WideWidth::Four => Width::Four,
        WideWidth::Eight => Width::Eight,
        WideWidth::Sixteen | WideWidth::ThirtyTwo | WideWidth::SixtyFour => Width::Sixteen,
    }
}

/// Reads the first line of a trace of wide beats, with its LF: `tltrace 5 W LIBERTIES LEVELS..`. A line of another form
/// is no such header.
pub fn read_wide(line: &[u8]) -> Option<WideHeader>
    // The line spells the header that is read, and each header that a line spells is read.
    ensures spelled { IfSome result (λ header. SpellsFifth line.now header.width header.links.may
        header.links.levels.items) }
    ensures every_spelling { (width : WideWidth) (may : Liberties) (levels : List Level) →
        SpellsFifth line.now width may levels → IsWideHeader result width may levels }
{
    let (width, rest) = front(line)?;
    let (may, levels) = read_named(rest)?;
    Some(WideHeader {
        width,
        links: LinksHeader {
            width: part_of(width),
            may,
            levels,
        },
    })
}

/// Reads the header of a trace of wide beats. Its links have the liberties that it names and those of `allow`.
pub fn read_wide_for(allow: Liberties, line: &[u8]) -> Option<WideHeader>
    ensures { ReadsWide allow line.now result }
{
    let Some(header) = read_wide(line) else {
        return None;
    };
    let may = header.links.may.union(allow);
    Some(WideHeader {
        width: header.width,
        links: LinksHeader {
            may,
            ..header.links
        },
    })
}
