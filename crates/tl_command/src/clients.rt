//! Reads the words of clients.

ghost use Rattle.std.specs.Prelude.{◌≡◌, ◌≢◌, ◌∷◌, ℕ, List, MatchOption};
ghost use Rattle.tl_params.specs.declared.config.ClientConfig.{ClientConfig};
ghost use Rattle.tl_params.specs.code.HeaderReading.{Gives, GivesAll};
ghost use Rattle.tl_command.specs.code.ClientReading.{client_at, clients_at, level_at, sources_at};
ghost use Rattle.tl_command.specs.statement.Words.{SpellsClients};

use arrayvec::ArrayVec;
use tl_params::config::{ClientConfig, MOST_CLIENTS};
use tl_params::level::Level;

/// The level at the front of a word, and the rest after it.
fn level(word: &[u8]) -> Option<(Level, &[u8])>
    ensures { Gives result (level_at word.now) }
{
    match word {
        [b'U', b'L', rest @ ..] => Some((Level::UL, rest)),
        [b'U', b'H', rest @ ..] => Some((Level::UH, rest)),
        [b'C', rest @ ..] => Some((Level::C, rest)),
        _ => None,
    }
}

/// The number of sources at the front of a word, 1 to 8 after a colon, and the rest after it.
fn sources(word: &[u8]) -> Option<(u8, &[u8])>
    ensures { Gives result (sources_at word.now) }
{
    match word {
        [b':', digit, rest @ ..] if b'1' <= *digit && *digit <= b'8' => Some((*digit - b'0', rest)),
        _ => None,
    }
}

/// The client at the front of a word, and the rest after it.
fn client(word: &[u8]) -> Option<(ClientConfig, &[u8])>
    ensures { Gives result (client_at word.now) }
{
    let (level, rest) = level(word)?;
    let (sources, rest) = sources(rest)?;
    Some((ClientConfig { level, sources }, rest))
}

/// The rest of a word after a comma at its front.
fn behind_comma(word: &[u8]) -> Option<&[u8]>
    ensures { MatchOption result ((rest : List ℕ) → word.now ≢ 44 ∷ rest) (λ rest. word.now ≡ 44 ∷ rest.now) }
{
    word.strip_prefix(b",")
}

/// At most 16 clients, with a comma between them.
fn clients(word: &[u8]) -> Option<ArrayVec<ClientConfig, MOST_CLIENTS>>
    ensures { GivesAll result (clients_at 16 word.now) }
{
    let mut clients = ArrayVec::new();
    let mut rest = word;
    for _ in 0..MOST_CLIENTS {
        let (client, after) = client(rest)?;
        if clients.try_push(client).is_err() {
            return None;
        }
        if after.is_empty() {
            return Some(clients);
        }
        rest = behind_comma(after)?;
    }
    None
}

/// The clients that a word spells, 1 to 16.
pub(crate) fn clients_spelled(word: &str) -> Option<ArrayVec<ClientConfig, MOST_CLIENTS>>
    ensures { MatchOption result ((clients : List ClientConfig) →
        ¬ SpellsClients word.now clients) (λ clients. SpellsClients word.now clients.items) }
{
    clients(word.as_bytes())
}
