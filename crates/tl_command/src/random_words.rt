//! Reads the words of the options of `random`.

ghost use Rattle.std.specs.Prelude.{◌≡◌, ℕ, IfOk, IfErr, MatchOption};
ghost use Rattle.tl_command.specs.statement.RandomWords.{AreOptions, IsWrong, contend_named};
ghost use Rattle.tl_command.specs.statement.RandomWords.{profile_named, text_of, version_with, words_of};

use crate::clients::clients_spelled;
use crate::number::number;
use crate::random::Options;
use crate::width_word::width_named;
use tl_params::config::Config;
use tl_params::header::Version;
use tl_params::profile::Profile;
use tl_params::width::Width;

/// The words of the options of `random`; None for an option that isn't given.
#[derive(Clone, Copy)]
pub struct RandomWords<'a> {
    pub seed: Option<&'a str>,
    pub events: Option<&'a str>,
    pub clients: Option<&'a str>,
    pub blocks: Option<&'a str>,
    pub trackers: Option<&'a str>,
    pub width: Option<&'a str>,
    pub profile: Option<&'a str>,
    pub contend: Option<&'a str>,
}

/// An option of `random`.
#[derive(Clone, Copy, Debug, PartialEq, Eq)]
pub enum RandomOption {
    Seed,
    Events,
    Clients,
    Blocks,
    Trackers,
    Width,
    Profile,
    Contend,
}

impl<'a> RandomWords<'a> {
    /// The word of an option.
    pub fn word_of(&self, option: RandomOption) -> Option<&'a str> {
        match option {
            RandomOption::Seed => self.seed,
            RandomOption::Events => self.events,
            RandomOption::Clients => self.clients,
            RandomOption::Blocks => self.blocks,
            RandomOption::Trackers => self.trackers,
            RandomOption::Width => self.width,
            RandomOption::Profile => self.profile,
            RandomOption::Contend => self.contend,
        }
    }
}

impl RandomOption {
    /// The option as it is spelled, with the name of its value.
    pub fn name(self) -> &'static str {
        match self {
            RandomOption::Seed => "--seed <N>",
            RandomOption::Events => "--events <N>",
            RandomOption::Clients => "--clients <LIST>",
            RandomOption::Blocks => "--blocks <N>",
            RandomOption::Trackers => "--trackers <N>",
            RandomOption::Width => "--width <BYTES>",
            RandomOption::Profile => "--profile <P>",
            RandomOption::Contend => "--contend <N>",
        }
    }

    /// The form of its word.
    pub fn wanted(self) -> &'static str {
        match self {
            RandomOption::Seed | RandomOption::Events => {
                "a number from 0 to 18446744073709551615, without leading zeros"
            }
            RandomOption::Clients => {
                "1 to 16 clients with commas between them, each UL, UH or C with its number of sources from 1 to 8, as C:2,C:2,UH:1"
            }
            RandomOption::Blocks => "a number from 1 to 1024",
            RandomOption::Trackers => "a number from 1 to 8",
            RandomOption::Width => "a beat carries 4, 8 or 16 bytes",
            RandomOption::Profile => "1 or 2",
            RandomOption::Contend => "a number from 1 to the number of blocks",
        }
    }
}

/// The default of the clients: three caches and a client of TL-UH.
const DEFAULT_CLIENTS: &str = "C:2,C:2,C:2,UH:1";

/// The profile of the word; the first without a word.
fn profile_named(word: Option<&str>) -> Option<Profile>
    ensures { result ≡ profile_named (text_of word.entry) }
{
    match word {
        None | Some("1") => Some(Profile::One),
        Some("2") => Some(Profile::Two),
        Some(_) => None,
    }
}

/// The first version of a header that has this width and this profile.
fn version_with(width: Width, profile: Profile) -> Version
    ensures { result ≡ version_with width profile }
{
    match (width, profile) {
        (_, Profile::Two) => Version::Third(width, profile),
        (Width::Eight, Profile::One) => Version::First,
        (_, Profile::One) => Version::Second(width),
    }
}

/// The number of contended blocks, by its word. Without a word it is two, or one of one block.
fn contended(word: Option<&str>, blocks: u64) -> Option<u64>
    ensures { MatchOption result ((n : ℕ) → ¬ contend_named (text_of word.entry) blocks n)
        (contend_named (text_of word.entry) blocks) }
{
    if blocks >= 2 {
        number(word, Some(2), 1, blocks)
    } else {
        number(word, Some(1), 1, blocks)
    }
}

/// The options that the words give, or the first option whose word has no meaning.
pub fn options_named(words: &RandomWords) -> Result<Options, RandomOption>
    ensures named { IfOk result (AreOptions (words_of words.now)) }
    ensures wrong { IfErr result (IsWrong (words_of words.now)) }
{
    let seed = number(words.seed, None, 0, u64::MAX).ok_or(RandomOption::Seed)?;
    let events = number(words.events, Some(1000), 0, u64::MAX).ok_or(RandomOption::Events)?;
    let clients = clients_spelled(words.clients.unwrap_or(DEFAULT_CLIENTS)).ok_or(
        RandomOption::Clients,
    )?;
    let blocks = number(words.blocks, Some(2), 1, 1024).ok_or(RandomOption::Blocks)?;
    let trackers = number(words.trackers, Some(2), 1, 8).ok_or(RandomOption::Trackers)?;
    let width = width_named(words.width).ok_or(RandomOption::Width)?;
    let profile = profile_named(words.profile).ok_or(RandomOption::Profile)?;
    let contend = contended(words.contend, blocks).ok_or(RandomOption::Contend)?;
    Ok(Options {
        seed,
        events,
        contend: contend as u16,
        version: version_with(width, profile),
        config: Config {
            blocks: blocks as u16,
            trackers: trackers as u8,
            clients,
            profile,
        },
    })
}
