//! The aim of a search in a trace, and the word that gives its number of lines.

ghost use Rattle.std.specs.Prelude.{◌≡◌, ℕ, IfSome, MatchOption, option_map};
ghost use Rattle.tl_command.specs.declared.search.Inquiry.{Inquiry};
ghost use Rattle.tl_command.specs.statement.SearchWords.{IsBehind, IsInquiry};

use crate::number::number;
use tl_params::liberties::Liberties;

/// The aim of a search in a trace.
#[derive(Clone, Copy, Debug, PartialEq, Eq)]
pub struct Aim {
    /// Whether all links are judged together, or each by itself.
    pub together: bool,
    /// The number of lines at fault to look for after the first.
    pub behind: u64,
    /// The liberties of the links beyond those that the header names.
    pub allow: Liberties,
}

/// The number of lines at fault to look for after the first, by the word of `--all`.
pub fn behind_named(word: &str) -> Option<u64>
    ensures { MatchOption result ((n : ℕ) → ¬ IsBehind word.now n) (IsBehind word.now) }
{
    let most = number(Some(word), None, 1, u64::MAX)?;
    Some(most - 1)
}

/// The inquiry for the report of a judgement.
#[derive(Clone, Copy, Debug, PartialEq, Eq)]
pub struct Inquiry {
    /// The aim of the search.
    pub aim: Aim,
    /// Whether all lines at fault that are found are written, with their number, or only the first, as without a
    /// search.
    pub all: bool,
}

/// The inquiry by the word of `--all`, or without it, for all links together or each by itself. `allow` has the
/// liberties beyond those that the header names. None if the word has no meaning.
pub fn inquiry_named(together: bool, word: Option<&str>, allow: Liberties) -> Option<Inquiry>
    ensures named { MatchOption result ((q : Inquiry) → ¬ IsInquiry together (option_map (λ s. s.now) word.entry) q)
        (IsInquiry together (option_map (λ s. s.now) word.entry)) }
    ensures allow { IfSome result (λ q. q.aim.allow ≡ allow) }
{
    match word {
        None => Some(Inquiry {
            aim: Aim {
                together,
                behind: 0,
                allow,
            },
            all: false,
        }),
        Some(word) => match behind_named(word) {
            None => None,
            Some(behind) => Some(Inquiry {
                aim: Aim {
                    together,
                    behind,
                    allow,
                },
                all: true,
            }),
        },
    }
}

/// The form of the word of `--all`.
pub const ALL_WANTED: &str = "a number from 1 to 18446744073709551615, without leading zeros";
