//! Reads the parts that the headers of traces and of schedules share: a version, and levels.

ghost use Rattle.std.specs.Prelude.{◌≡◌, ◌≢◌, ◌++◌, ◌∷◌, List, ℕ, MatchOption};
ghost use Rattle.tl_params.specs.declared.header.Version.{Version};
ghost use Rattle.tl_params.specs.declared.level.Level.{Level};
ghost use Rattle.tl_params.specs.statement.Header.{is_end, level_text, profile_of, version_text, width_of};
ghost use Rattle.tl_params.specs.code.HeaderReading.{Gives, level_at, profile_at, version_at, width_at};

use crate::level::Level;
use crate::profile::Profile;
use crate::width::Width;

/// The version of a header. The first has beats of 8 bytes and the first profile. The second names the bytes of a beat,
/// the third the profile too.
#[derive(Clone, Copy, Debug, PartialEq, Eq)]
pub enum Version {
    First,
    Second(Width),
    Third(Width, Profile),
}

impl Version {
    /// The number of bytes of a beat.
    pub fn width(self) -> Width
        ensures { result ≡ width_of self }
    {
        match self {
            Version::First => Width::Eight,
            Version::Second(width) | Version::Third(width, _) => width,
        }
    }

    /// The profile.
    pub fn profile(self) -> Profile
        ensures { result ≡ profile_of self }
    {
        match self {
            Version::First | Version::Second(_) => Profile::One,
            Version::Third(_, profile) => profile,
        }
    }
}

/// The width at the front, and the bytes after it.
fn width(bytes: &[u8]) -> Option<(Width, &[u8])>
    ensures { Gives result (width_at bytes.now) }
{
    match bytes {
        [b'4', rest @ ..] => Some((Width::Four, rest)),
        [b'8', rest @ ..] => Some((Width::Eight, rest)),
        [b'1', b'6', rest @ ..] => Some((Width::Sixteen, rest)),
        _ => None,
    }
}

/// The profile at the front, after a space, and the bytes after it.
fn profile(bytes: &[u8]) -> Option<(Profile, &[u8])>
    ensures { Gives result (profile_at bytes.now) }
{
    match bytes {
        [b' ', b'1', rest @ ..] => Some((Profile::One, rest)),
        [b' ', b'2', rest @ ..] => Some((Profile::Two, rest)),
        _ => None,
    }
}

/// The version at the front, and the bytes after it, read from left to right.
fn read_version(bytes: &[u8]) -> Option<(Version, &[u8])>
    ensures { Gives result (version_at bytes.now) }
{
    match bytes {
        [b'1', rest @ ..] => Some((Version::First, rest)),
        [b'2', b' ', rest @ ..] => {
            let (width, rest) = width(rest)?;
            Some((Version::Second(width), rest))
        }
        [b'3', b' ', rest @ ..] => {
            let (width, rest) = width(rest)?;
            let (profile, rest) = profile(rest)?;
            Some((Version::Third(width, profile), rest))
        }
        _ => None,
    }
}

/// The version at the front with the width and profile that it names, and the bytes after it.
pub fn front_version(bytes: &[u8]) -> Option<(Version, &[u8])>
    ensures { MatchOption result ((version : Version) (rest : List ℕ) → bytes.now ≢ version_text version ++ rest)
        (λ x. bytes.now ≡ version_text x.0 ++ x.1.now) }
{
    read_version(bytes)
}

/// The level at the front, after a space, and the bytes after it, read from left to right.
fn read_level(bytes: &[u8]) -> Option<(Level, &[u8])>
    ensures { Gives result (level_at bytes.now) }
{
    match bytes {
        [b' ', b'U', b'L', rest @ ..] => Some((Level::UL, rest)),
        [b' ', b'U', b'H', rest @ ..] => Some((Level::UH, rest)),
        [b' ', b'C', rest @ ..] => Some((Level::C, rest)),
        _ => None,
    }
}

/// The level at the front, after a space, and the bytes after it.
pub fn front_level(bytes: &[u8]) -> Option<(Level, &[u8])>
    ensures { MatchOption result ((level : Level) (rest : List ℕ) → bytes.now ≢ 32 ∷ (level_text level ++ rest))
        (λ x. bytes.now ≡ 32 ∷ (level_text x.0 ++ x.1.now)) }
{
    read_level(bytes)
}

/// Whether the bytes are the LF that ends a line, and nothing else.
pub fn is_end(bytes: &[u8]) -> bool
    ensures { result ≡ is_end bytes.now }
{
    matches!(bytes, [b'\n'])
}
