//! Reads the word of a width.

ghost use Rattle.std.specs.Prelude.{◌≡◌, option_map};
ghost use Rattle.tl_command.specs.statement.Words.{wide_width_named, width_named};

use tl_params::width::Width;
use tl_wide::width::WideWidth;

/// The width of the word; 8 bytes without a word.
pub fn width_named(word: Option<&str>) -> Option<Width>
    ensures { result ≡ width_named (option_map (λ s. s.now) word.entry) }
{
    match word {
        None => Some(Width::Eight),
        Some("4") => Some(Width::Four),
        Some("8") => Some(Width::Eight),
        Some("16") => Some(Width::Sixteen),
        Some(_) => None,
    }
}

/// The width of wide beats of the word; 8 bytes without a word.
pub fn wide_width_named(word: Option<&str>) -> Option<WideWidth>
    ensures { result ≡ wide_width_named (option_map (λ s. s.now) word.entry) }
{
    match word {
        None => Some(WideWidth::Eight),
        Some("4") => Some(WideWidth::Four),
        Some("8") => Some(WideWidth::Eight),
        Some("16") => Some(WideWidth::Sixteen),
        Some("32") => Some(WideWidth::ThirtyTwo),
        Some("64") => Some(WideWidth::SixtyFour),
        Some(_) => None,
    }
}
