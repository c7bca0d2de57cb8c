//! Reads the header of a trace with commits.

ghost use Rattle.std.specs.Prelude.{◌≡◌, IfSome};
ghost use Rattle.tl_params.specs.code.HeaderReading.{Gives, GivesAll};
ghost use Rattle.tl_params.specs.declared.liberties.Liberties.{Liberties};
ghost use Rattle.tl_params.specs.declared.width.Width.{Width};
ghost use Rattle.tl_commit_lines.specs.code.HeadReading.{ReadsMarked, links_at, marked_at};
ghost use Rattle.tl_commit_lines.specs.code.HeadReading as code;
ghost use Rattle.tl_commit_lines.specs.statement.MarkedHeader.{AreMarked, IsMarkedHeader, MarkedLinks, SpellsLinks};
ghost use Rattle.tl_commit_lines.specs.statement.MarkedHeader.{SpellsMarked, links_in, links_read, some_marked};

use arrayvec::ArrayVec;
use tl_command::liberties::front_liberties;
use tl_lines::links_header::front;
use tl_params::config::MOST_CLIENTS;
use tl_params::header::{front_level, is_end};
use tl_params::level::Level;
use tl_params::liberties::Liberties;
use tl_params::width::Width;

/// A link in a header: its level, and whether all its stores are in the trace, as `C+` says.
#[derive(Clone, Copy, Debug, Default, PartialEq, Eq)]
pub struct MarkedLevel {
    pub level: Level,
    pub complete: bool,
}

/// The header of a trace with commits: the bytes of a beat, the liberties of the links, whether memory was zero before
/// the trace, and the links from link 0 on.
#[derive(Drop)]
pub struct CommitHeader {
    pub width: Width,
    pub may: Liberties,
    pub zero: bool,
    pub links: ArrayVec<MarkedLevel, MOST_CLIENTS>,
}

/// A level with the mark after it, if it is C and has one, and the rest.
fn with_mark(level: Level, bytes: &[u8]) -> (MarkedLevel, &[u8])
    ensures { (result.0, result.1.now) ≡ code.with_mark level bytes.now }
{
    match (level, bytes) {
        (Level::C, [b'+', rest @ ..]) => (
            MarkedLevel {
                level,
                complete: true,
            },
            rest,
        ),
        _ => (
            MarkedLevel {
                level,
                complete: false,
            },
            bytes,
        ),
    }
}

/// The level at the front, after a space, with its mark, and the rest.
fn front_marked(bytes: &[u8]) -> Option<(MarkedLevel, &[u8])>
    ensures { Gives result (marked_at bytes.now) }
{
    let (level, rest) = front_level(bytes)?;
    Some(with_mark(level, rest))
}

/// The links up to the LF that ends the line, at most 16.
fn links(bytes: &[u8]) -> Option<ArrayVec<MarkedLevel, MOST_CLIENTS>>
    ensures { GivesAll result (links_at 16 bytes.now) }
{
    let mut links = ArrayVec::new();
    let mut rest = bytes;
    while !is_end(rest) {
        let (link, after) = front_marked(rest)?;
        if links.try_push(link).is_err() {
            return None;
        }
        rest = after;
    }
    Some(links)
}

/// Whether one of the links has the mark.
fn some_marked(links: &[MarkedLevel]) -> bool
    ensures { result ≡ some_marked links.now }
{
    links.iter().any(|link| link.complete)
}

/// Whether a word is at the front, and the rest.
fn front_word<'a>(word: &[u8], bytes: &'a [u8]) -> (bool, &'a [u8])
    ensures { (result.0, result.1.now) ≡ code.word_at word.now bytes.now }
{
    match bytes.strip_prefix(word) {
        Some(rest) => (true, rest),
        None => (false, bytes),
    }
}

/// Whether the word `commits` is at the front, after a space, and the rest.
fn front_commits(bytes: &[u8]) -> (bool, &[u8])
    ensures { (result.0, result.1.now) ≡ code.commits_at bytes.now }
{
    front_word(b" commits", bytes)
}

/// Whether the word `zero` is at the front, after a space, and the rest.
fn front_zero(bytes: &[u8]) -> (bool, &[u8])
    ensures { (result.0, result.1.now) ≡ code.zero_at bytes.now }
{
    front_word(b" zero", bytes)
}

/// Whether these are links of a trace with commits: there are some, and a word says so or one has the mark.
fn is_named(commits: bool, zero: bool, links: &[MarkedLevel]) -> bool
    ensures { result ≡ code.is_named commits (record { zero = zero; levels = links.now }) }
{
    !links.is_empty() && (commits || zero || some_marked(links))
}

/// The end of a header of a trace with commits, `LIBERTIES LEVELS..` and an LF: the liberties, whether the word `zero`
/// is between them and the levels, and the links. It has this word, or the word `commits` before it, or at least one level
/// is `C+`.
pub fn read_marked_links(
    bytes: &[u8],
) -> Option<(Liberties, bool, ArrayVec<MarkedLevel, MOST_CLIENTS>)>
    // What is read is spelled by the bytes, and whatever they spell is read.
    ensures spelled { IfSome result (λ named. SpellsLinks bytes.now named.0 (links_read named.1 named.2)) }
    ensures every_spelling { (may : Liberties) (links : MarkedLinks) → SpellsLinks bytes.now may links →
        AreMarked result may links }
{
    let (may, rest) = front_liberties(bytes)?;
    let (commits, rest) = front_commits(rest);
    let (zero, rest) = front_zero(rest);
    let links = links(rest)?;
    if !is_named(commits, zero, links.as_slice()) {
        return None;
    }
    Some((may, zero, links))
}

/// Reads the first line of a trace with commits, with its LF: `tltrace 4 W LIBERTIES LEVELS..` with the word `commits` or
/// `zero` before the levels, or at least one level `C+`. A line of another form is no such header.
pub fn read_marked(line: &[u8]) -> Option<CommitHeader>
    // The line spells the header that is read, and each header that a line spells is read.
    ensures spelled { IfSome result (λ header. SpellsMarked line.now header.width header.may (links_in header)) }
    ensures every_spelling { (width : Width) (may : Liberties) (links : MarkedLinks) →
        SpellsMarked line.now width may links → IsMarkedHeader result width may links }
{
    let (width, rest) = front(line)?;
    let (may, zero, links) = read_marked_links(rest)?;
    Some(CommitHeader {
        width,
        may,
        zero,
        links,
    })
}

/// Reads the header of a trace with commits. Its links have the liberties that it names and those of `allow`.
pub fn read_marked_for(allow: Liberties, line: &[u8]) -> Option<CommitHeader>
    ensures { ReadsMarked allow line.now result }
{
    let Some(header) = read_marked(line) else {
        return None;
    };
    let may = header.may.union(allow);
    Some(CommitHeader { may, ..header })
}
