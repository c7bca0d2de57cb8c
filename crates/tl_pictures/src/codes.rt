//! The numbers of levels, flags, profiles, widths, channels and links in C.

ghost use Rattle.std.specs.Prelude.{◌≡◌};
ghost use Rattle.tl_pictures.specs.statement.Codes.{level_at, are_levels, flag_at, is_flag, are_flags, liberties_at};
ghost use Rattle.tl_pictures.specs.statement.Codes.{profile_at, is_profile, is_width, is_wide_width, channel_at, link_at};

use tl_beat::beat::Link;
use tl_beat::channel::Channel;
use tl_burst::burst::bit_of;
use tl_rules::config::MOST_CLIENTS;
use tl_rules::level::Level;
use tl_rules::liberties::Liberties;
use tl_rules::profile::Profile;

/// The level with a code: 0 for UL, 1 for UH, any other for C.
pub fn level_of(code: u8) -> Level
    ensures { result ≡ level_at code }
{
    match code {
        0 => Level::UL,
        1 => Level::UH,
        _ => Level::C,
    }
}

/// Whether each code is that of a level: 0, 1 or 2.
pub fn are_levels(codes: &[u8]) -> bool
    ensures { result ≡ are_levels codes.now }
{
    codes.iter().all(|code| *code < 3)
}

/// The flag with a code: 1 is true, any other false.
pub fn flag_of(code: u8) -> bool
    ensures { result ≡ flag_at code }
{
    code == 1
}

/// Whether it is the code of a flag: 0 or 1.
pub fn is_flag(code: u8) -> bool
    ensures { result ≡ is_flag code }
{
    code < 2
}

/// Whether each code is that of a flag.
pub fn are_flags(codes: &[u8]) -> bool
    ensures { result ≡ are_flags codes.now }
{
    codes.iter().all(|code| is_flag(*code))
}

/// The profile with a code: 1 for the first, any other for the second.
pub fn profile_of(code: u8) -> Profile
    ensures { result ≡ profile_at code }
{
    match code {
        1 => Profile::One,
        _ => Profile::Two,
    }
}

/// Whether it is the code of a profile.
pub fn is_profile(code: u8) -> bool
    ensures { result ≡ is_profile code }
{
    code == 1 || code == 2
}

/// The liberties with a code: bit 0 for `ids` to bit 7 for `uncorrupt`, in the order in which a header names them.
pub fn liberties_of(code: u8) -> Liberties
    ensures { result ≡ liberties_at code }
{
    let bits = u16::from(code);
    Liberties {
        ids: bit_of(bits, 0),
        sinks: bit_of(bits, 1),
        writer: bit_of(bits, 2),
        early: bit_of(bits, 3),
        drops: bit_of(bits, 4),
        reports: bit_of(bits, 5),
        denied: bit_of(bits, 6),
        uncorrupt: bit_of(bits, 7),
    }
}

/// Whether a beat may have this many bytes.
pub fn is_width(width: u8) -> bool
    ensures { result ≡ is_width width }
{
    width == 4 || width == 8 || width == 16
}

/// Whether a wide beat may have this many bytes.
pub fn is_wide_width(width: u8) -> bool
    ensures { result ≡ is_wide_width width }
{
    is_width(width) || width == 32 || width == 64
}

/// The channel with a code, 0 for A to 4 for E.
pub fn channel_at(code: u8) -> Option<Channel>
    ensures { result ≡ channel_at code }
{
    match code {
        0 => Some(Channel::A),
        1 => Some(Channel::B),
        2 => Some(Channel::C),
        3 => Some(Channel::D),
        4 => Some(Channel::E),
        _ => None,
    }
}

/// The link with a code, 0 to 15.
pub fn link_at(code: u8) -> Option<Link>
    ensures { result ≡ link_at code }
{
    if usize::from(code) < MOST_CLIENTS {
        Some(Link(code))
    } else {
        None
    }
}
