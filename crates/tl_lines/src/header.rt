//! Reads the header of a trace.

ghost use Rattle.std.specs.Prelude.{◌≡◌, ◌≢◌, ◌++◌, List, ℕ, IfSome, MatchOption};
ghost use Rattle.tl_params.specs.declared.level.Level.{Level};
ghost use Rattle.tl_params.specs.declared.profile.Profile.{Profile};
ghost use Rattle.tl_params.specs.declared.width.Width.{Width};
ghost use Rattle.tl_params.specs.code.HeaderReading.{GivesAll};
ghost use Rattle.tl_lines.specs.statement.Trace.{AreLevels, IsHeader, SpellsHeader, SpellsLevels, trace_word};
ghost use Rattle.tl_lines.specs.code.TraceReading.{GivesHeader, header_at, levels_at};

use arrayvec::ArrayVec;
use tl_params::config::MOST_CLIENTS;
use tl_params::header::{front_level, front_version, is_end};
use tl_params::width::Width;
use tl_rules::level::Level;
use tl_rules::profile::Profile;

/// The header of a trace: the bytes of a beat, the profile, and the levels of the links from link 0 on.
#[derive(Drop)]
pub struct Header {
    pub width: Width,
    pub profile: Profile,
    pub levels: ArrayVec<Level, MOST_CLIENTS>,
}

/// The levels up to the LF that ends the line, at most 16.
fn levels(bytes: &[u8]) -> Option<ArrayVec<Level, MOST_CLIENTS>>
    ensures { GivesAll result (levels_at 16 bytes.now) }
{
    let mut levels = ArrayVec::new();
    let mut rest = bytes;
    while !is_end(rest) {
        let (level, after) = front_level(rest)?;
        if levels.try_push(level).is_err() {
            return None;
        }
        rest = after;
    }
    Some(levels)
}

/// The levels up to the LF that ends a line, each after a space. There are at most 16, and may be none.
pub fn read_levels(bytes: &[u8]) -> Option<ArrayVec<Level, MOST_CLIENTS>>
    // What is read is spelled by the bytes, and whatever they spell is read.
    ensures spelled { IfSome result (λ levels. SpellsLevels bytes.now levels.items) }
    ensures every_spelling { (levels : List Level) → SpellsLevels bytes.now levels → AreLevels result levels }
{
    levels(bytes)
}

/// The bytes after the word at the front of a trace.
fn after_word(line: &[u8]) -> Option<&[u8]>
    ensures { MatchOption result ((rest : List ℕ) → line.now ≢ trace_word ++ rest) (λ rest. line.now
        ≡ trace_word ++ rest.now) }
{
    line.strip_prefix(b"tltrace ")
}

/// A whole header, from left to right.
fn whole_header(line: &[u8]) -> Option<Header>
    ensures { GivesHeader result (header_at line.now) }
{
    let bytes = after_word(line)?;
    let (version, rest) = front_version(bytes)?;
    let levels = levels(rest)?;
    if levels.is_empty() {
        return None;
    }
    Some(Header {
        width: version.width(),
        profile: version.profile(),
        levels,
    })
}

/// Reads the first line of a trace, with its LF. None if the line is no header.
pub fn read_header(line: &[u8]) -> Option<Header>
    // What is read is spelled by the line, and whatever the line spells is read.
    ensures spelled { IfSome result (λ header. SpellsHeader line.now header.width header.profile header.levels.items) }
    ensures every_spelling { (width : Width) (profile : Profile) (levels : List Level) →
        SpellsHeader line.now width profile levels → IsHeader result width profile levels }
{
    whole_header(line)
}
