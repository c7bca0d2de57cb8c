//! Reads the words of numbers.

ghost use Rattle.std.specs.Prelude.{◌≡◌, ◌≢◌, ◌<◌, ◌^◌, ◌&&◌, ℕ, MatchOption, nat_le, option_map};
ghost use Rattle.std.specs.Fmt as fmt;
ghost use Rattle.tl_command.specs.statement.Words.{IsNamed, IsNumber};

use itoa::Buffer;

/// The number that a word spells in decimal, without a sign and without leading zeros.
pub(crate) fn decimal(word: &str) -> Option<u64>
    ensures { MatchOption result ((n : ℕ) → n < 2 ^ 64 → word.now ≢ fmt.decimal n) (λ n. word.now ≡ fmt.decimal n) }
{
    let Ok(number) = word.parse::<u64>() else {
        return None;
    };
    let mut digits = Buffer::new();
    if digits.format(number) == word {
        Some(number)
    } else {
        None
    }
}

/// The number that the word spells; the default without a word.
fn named(word: Option<&str>, default: Option<u64>) -> Option<u64>
    ensures { MatchOption result ((n : ℕ) → n < 2 ^ 64 → ¬ IsNamed (option_map (λ s. s.now) word.entry) default n)
        (IsNamed (option_map (λ s. s.now) word.entry) default) }
{
    match word {
        None => default,
        Some(word) => decimal(word),
    }
}

/// Whether a number is from `least` to `most`.
fn is_within(number: u64, least: u64, most: u64) -> bool
    ensures { result ≡ (nat_le least number && nat_le number most) }
{
    least <= number && number <= most
}

/// The number of an option, from `least` to `most`: that of its word, or the default without a word.
pub(crate) fn number(word: Option<&str>, default: Option<u64>, least: u64, most: u64) -> Option<u64>
    ensures { MatchOption result ((n : ℕ) → ¬ IsNumber (option_map (λ s. s.now) word.entry) default least most n)
        (IsNumber (option_map (λ s. s.now) word.entry) default least most) }
{
    let number = named(word, default)?;
    if is_within(number, least, most) {
        Some(number)
    } else {
        None
    }
}
