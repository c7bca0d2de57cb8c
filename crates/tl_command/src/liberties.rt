//! Reads the words that name the liberties of links.

ghost use Rattle.std.specs.Prelude.{◌≡◌, ◌≢◌, ◌++◌, ℕ, List, MatchOption, IfSome, codes, option_map};
ghost use Rattle.tl_command.specs.code.LibertyReading.{liberties_at, mark_at, names_at, standard_at};
ghost use Rattle.tl_command.specs.code.LibertyReading.{GivesMark, IsAfter};
ghost use Rattle.tl_command.specs.statement.LibertyWords.{AreAllowed, IsRead, LacksComma, SpellsLiberties};
ghost use Rattle.tl_params.specs.code.HeaderReading.{Gives, after_word};
ghost use Rattle.tl_params.specs.declared.liberties.Liberties.{Liberties};

use tl_params::liberties::{Liberties, Liberty};

/// The form of a word of liberties.
pub const LIBERTIES_WANTED: &str =
    "none, standard, or names of ids, sinks, writer, early, drops, reports, denied and uncorrupt, in this order, with a comma between them";

/// The rest of the bytes after this word, if the word is at their front.
fn behind<'a>(word: &[u8], bytes: &'a [u8]) -> Option<&'a [u8]>
    ensures { MatchOption result ((rest : List ℕ) → bytes.now ≢ word.now ++ rest) (λ rest. bytes.now
        ≡ word.now ++ rest.now) }
{
    bytes.strip_prefix(word)
}

/// The same, in reading from left to right.
fn after<'a>(word: &[u8], bytes: &'a [u8]) -> Option<&'a [u8]>
    ensures { IsAfter word.now bytes.now result }
{
    behind(word, bytes)
}

/// Reads the name of a liberty at the front, if one may be there. Returns whether it is there, whether another may
/// follow, which is so after a comma, and the rest.
fn mark(liberty: Liberty, more: bool, bytes: &[u8]) -> (bool, bool, &[u8])
    ensures { GivesMark result (mark_at liberty more bytes.now) }
{
    if !more {
        return (false, false, bytes);
    }
    let Some(rest) = after(liberty.name().as_bytes(), bytes) else {
        return (false, true, bytes);
    };
    match rest {
        [b',', names @ ..] => (true, true, names),
        _ => (true, false, rest),
    }
}

/// The liberties whose names are at the front, one or more in their order with a comma between them, and the rest.
fn names(bytes: &[u8]) -> Option<(Liberties, &[u8])>
    ensures { Gives result (names_at bytes.now) }
{
    let (ids, more, rest) = mark(Liberty::Ids, true, bytes);
    let (sinks, more, rest) = mark(Liberty::Sinks, more, rest);
    let (writer, more, rest) = mark(Liberty::Writer, more, rest);
    let (early, more, rest) = mark(Liberty::Early, more, rest);
    let (drops, more, rest) = mark(Liberty::Drops, more, rest);
    let (reports, more, rest) = mark(Liberty::Reports, more, rest);
    let (denied, more, rest) = mark(Liberty::Denied, more, rest);
    let (uncorrupt, more, rest) = mark(Liberty::Uncorrupt, more, rest);
    if more {
        return None;
    }
    let liberties = Liberties {
        ids,
        sinks,
        writer,
        early,
        drops,
        reports,
        denied,
        uncorrupt,
    };
    Some((liberties, rest))
}

/// The liberties of `standard` with these bytes after it, and the rest.
fn standard(rest: &[u8]) -> (Liberties, &[u8])
    ensures { (result.0, result.1.now) ≡ standard_at rest.now (after_word (codes ",uncorrupt") rest.now) }
{
    match after(b",uncorrupt", rest) {
        None => (Liberties::standard(), rest),
        Some(left) => (Liberties::standard().with(Liberty::Uncorrupt), left),
    }
}

/// The liberties at the front, and the rest, from left to right.
fn read_liberties(bytes: &[u8]) -> Option<(Liberties, &[u8])>
    ensures { Gives result (liberties_at bytes.now) }
{
    if let Some(rest) = after(b"none", bytes) {
        return Some((Liberties::none(), rest));
    }
    match after(b"standard", bytes) {
        None => names(bytes),
        Some(rest) => Some(standard(rest)),
    }
}

/// The liberties that are named at the front, and the rest after them.
pub fn front_liberties(bytes: &[u8]) -> Option<(Liberties, &[u8])>
    // What is read is spelled at the front, and whatever is spelled there is read, where no comma follows it.
    ensures spelled { IfSome result (λ x. (word : List ℕ) × SpellsLiberties word x.0 × (bytes.now ≡ word ++ x.1.now)) }
    ensures every_spelling { (liberties : Liberties) (word rest : List ℕ) → SpellsLiberties word liberties →
        LacksComma rest → bytes.now ≡ word ++ rest → IsRead result liberties rest }
{
    read_liberties(bytes)
}

/// The liberties that a word names.
pub fn liberties_named(word: &str) -> Option<Liberties>
    ensures { MatchOption result ((liberties : Liberties) → ¬ SpellsLiberties word.now liberties)
        (SpellsLiberties word.now) }
{
    let (liberties, rest) = front_liberties(word.as_bytes())?;
    if rest.is_empty() {
        Some(liberties)
    } else {
        None
    }
}

/// The liberties that the word of `--allow` names; no liberties without the word.
pub fn allowed_named(word: Option<&str>) -> Option<Liberties>
    ensures { MatchOption result
        ((liberties : Liberties) → ¬ AreAllowed (option_map (λ s. s.now) word.entry) liberties)
        (AreAllowed (option_map (λ s. s.now) word.entry)) }
{
    match word {
        None => Some(Liberties::none()),
        Some(word) => liberties_named(word),
    }
}
