//! The range of a chart, and the words that give it.

ghost use Rattle.std.specs.Prelude.{◌≡◌, ◌==◌, ℕ, ◌<◌, IfOk, IfErr, IfSome, MatchOption, Option, length, option_map};
ghost use Rattle.std.specs.List.{position_or_len};
ghost use Rattle.tl_command.specs.code.ChartReading.{AreOrdered, AreParts};
ghost use Rattle.tl_command.specs.declared.chart.Range.{Range};
ghost use Rattle.tl_command.specs.statement.ChartWords.{AreLines, IsBlock, IsRange, SpellsLines, block_named};
ghost use Rattle.tl_command.specs.statement.ChartWords.{digit_named, seven_named, three_named};

use crate::number::decimal;

/// The range of a chart: its lines, and its block.
#[derive(Clone, Copy, Debug, PartialEq, Eq)]
pub struct Range {
    /// The first line and the last, if they are given.
    pub lines: Option<(u64, u64)>,
    /// The block, if it is given.
    pub block: Option<u32>,
}

/// An option of `chart`.
#[derive(Clone, Copy, Debug, PartialEq, Eq)]
pub enum ChartOption {
    Lines,
    Block,
}

impl ChartOption {
    /// The option as it is spelled, with the name of its value.
    pub fn name(self) -> &'static str {
        match self {
            ChartOption::Lines => "--lines <A-B>",
            ChartOption::Block => "--block <BBB>",
        }
    }

    /// The form of its word.
    pub fn wanted(self) -> &'static str {
        match self {
            ChartOption::Lines => {
                "the numbers of the first line and of the last, without leading zeros, as 2-80"
            }
            ChartOption::Block => {
                "the number of a block in three digits or in seven, of 0 to 9 and a to f, as 00f"
            }
        }
    }
}

/// The parts of a word before its first dash and after it.
fn parts(word: &str) -> Option<(&str, &str)>
    ensures { MatchOption result (position_or_len (λ c. c == 45) word.now ≡ length word.now)
        (λ x. AreParts word.now x.0.now x.1.now) }
{
    word.split_once('-')
}

/// These numbers, if the first is from 1 on and not above the second.
fn ordered(first: u64, last: u64) -> Option<(u64, u64)>
    ensures { MatchOption result (¬ AreOrdered first last) (λ x. (x ≡ (first, last)) × AreOrdered first last) }
{
    if first < 1 {
        return None;
    }
    if last < first {
        return None;
    }
    Some((first, last))
}

/// The lines of a word: two decimal numbers with a dash between them, from 1 on, the first not above the second.
fn lines_named(word: &str) -> Option<(u64, u64)>
    ensures { MatchOption result ((lines : ℕ × ℕ) → ¬ SpellsLines word.now lines) (SpellsLines word.now) }
{
    let (first, last) = parts(word)?;
    let first = decimal(first)?;
    let last = decimal(last)?;
    ordered(first, last)
}

/// The value of a hexadecimal digit.
fn digit(byte: u8) -> Option<u32>
    ensures named { result ≡ digit_named byte }
    ensures below { IfSome result (λ n. n < 16) }
{
    match byte {
        b'0'..=b'9' => Some(u32::from(byte - b'0')),
        b'a'..=b'f' => Some(u32::from(byte - b'a') + 10),
        _ => None,
    }
}

/// The number of three hexadecimal digits.
fn three(high: u8, middle: u8, low: u8) -> Option<u32>
    ensures named { result ≡ three_named high middle low }
    ensures below { IfSome result (λ n. n < 4096) }
{
    let high = digit(high)?;
    let middle = digit(middle)?;
    let low = digit(low)?;
    Some(256 * high + 16 * middle + low)
}

/// The number of seven digits, from the values of the first three, the fourth, and the last three.
fn seven(high: u32, middle: u32, low: u32) -> u32
    requires { (high < 4096) × (middle < 16) × (low < 4096) }
    ensures { result ≡ seven_named high middle low }
{
    65536 * high + 4096 * middle + low
}

/// The block of a word of three or seven digits.
fn block_named(word: &str) -> Option<u32>
    ensures { result ≡ block_named word.now }
{
    match word.as_bytes() {
        [a, b, c] => three(*a, *b, *c),
        [a, b, c, d, e, f, g] => {
            let high = three(*a, *b, *c)?;
            let middle = digit(*d)?;
            let low = three(*e, *f, *g)?;
            Some(seven(high, middle, low))
        }
        _ => None,
    }
}

/// The range that the words of the options give, or the option whose word has no meaning.
pub fn range_named(lines: Option<&str>, block: Option<&str>) -> Result<Range, ChartOption>
    ensures named { IfOk result (IsRange (option_map (λ s. s.now) lines.entry) (option_map (λ s. s.now) block.entry)) }
    ensures wrong { IfErr result (λ _. (range : Range) → ¬ IsRange (option_map (λ s. s.now) lines.entry)
        (option_map (λ s. s.now) block.entry) range) }
{
    let lines = named_lines(lines).ok_or(ChartOption::Lines)?;
    let block = named_block(block).ok_or(ChartOption::Block)?;
    Ok(Range { lines, block })
}

/// The lines of the word, or no lines without a word. None if the word has no meaning.
fn named_lines(word: Option<&str>) -> Option<Option<(u64, u64)>>
    ensures { MatchOption result ((lines : Option (ℕ × ℕ)) → ¬ AreLines (option_map (λ s. s.now) word.entry) lines)
        (AreLines (option_map (λ s. s.now) word.entry)) }
{
    match word {
        None => Some(None),
        Some(word) => match lines_named(word) {
            None => None,
            Some(lines) => Some(Some(lines)),
        },
    }
}

/// The block of the word, or no block without a word. None if the word has no meaning.
fn named_block(word: Option<&str>) -> Option<Option<u32>>
    ensures { MatchOption result ((block : Option ℕ) → ¬ IsBlock (option_map (λ s. s.now) word.entry) block)
        (IsBlock (option_map (λ s. s.now) word.entry)) }
{
    match word {
        None => Some(None),
        Some(word) => match block_named(word) {
            None => None,
            Some(block) => Some(Some(block)),
        },
    }
}
