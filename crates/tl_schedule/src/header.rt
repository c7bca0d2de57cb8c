//! Reads the header of a schedule.

ghost use Rattle.std.specs.Prelude.{◌≡◌, ◌≢◌, ◌≤◌, ◌++◌, List, ℕ, IfSome, MatchOption};
ghost use Rattle.tl_params.specs.declared.config.ClientConfig.{ClientConfig};
ghost use Rattle.tl_params.specs.declared.header.Version.{Version};
ghost use Rattle.tl_params.specs.statement.Header.{profile_of};
ghost use Rattle.tl_params.specs.code.HeaderReading.{Gives, GivesAll};
ghost use Rattle.tl_schedule.specs.code.HeaderReading.{GivesSchedule, byte_at, client_at, clients_at, decimal_from};
ghost use Rattle.tl_schedule.specs.code.HeaderReading.{digit_at, header_at, number_at, starts_with_zero, within};
ghost use Rattle.tl_schedule.specs.statement.Schedule.{IsSchedule, SpellsSchedule, schedule_word};

use arrayvec::ArrayVec;
use tl_params::config::{ClientConfig, Config, MOST_CLIENTS};
use tl_params::header::{Version, front_level, front_version, is_end};

/// The values of a schedule's header.
#[derive(Drop)]
pub struct Schedule {
    pub version: Version,
    pub config: Config,
}

/// The decimal digit at the front, and the bytes after it.
fn digit(bytes: &[u8]) -> Option<(u8, &[u8])>
    ensures gives { Gives result (digit_at bytes.now) }
    ensures small { IfSome result (λ x. x.0 ≤ 9) }
{
    match bytes {
        [c, rest @ ..] if b'0' <= *c && *c <= b'9' => Some((*c - b'0', rest)),
        _ => None,
    }
}

fn starts_with_zero(bytes: &[u8]) -> bool
    ensures { result ≡ starts_with_zero bytes.now }
{
    matches!(bytes, [b'0', ..])
}

/// The number of the digits at the front, from 1 to a limit, and the bytes after it.
fn digits(bytes: &[u8], limit: u16) -> Option<(u16, &[u8])>
    requires { limit ≤ 1024 }
    ensures gives { Gives result (within limit (decimal_from 0 bytes.now)) }
    ensures within { IfSome result (λ x. x.0 ≤ limit) }
{
    let mut number = 0u16;
    let mut rest = bytes;
    while let Some((d, after)) = digit(rest) {
        number = 10 * number + u16::from(d);
        rest = after;
        if number > limit {
            return None;
        }
    }
    if number == 0 {
        None
    } else {
        Some((number, rest))
    }
}

/// The number at the front, from 1 to a limit and without leading zeros, and the bytes after it.
fn number(bytes: &[u8], limit: u16) -> Option<(u16, &[u8])>
    requires { limit ≤ 1024 }
    ensures gives { Gives result (number_at limit bytes.now) }
    ensures within { IfSome result (λ x. x.0 ≤ limit) }
{
    if starts_with_zero(bytes) {
        return None;
    }
    digits(bytes, limit)
}

/// The bytes after this byte, if it is at the front.
fn after(byte: u8, bytes: &[u8]) -> Option<&[u8]>
    ensures { MatchOption result (byte_at byte bytes.now ≡ None) (λ rest. byte_at byte bytes.now ≡ Some rest.now) }
{
    match bytes {
        [c, rest @ ..] if *c == byte => Some(rest),
        _ => None,
    }
}

/// The client at the front, after a space, and the bytes after it.
fn client(bytes: &[u8]) -> Option<(ClientConfig, &[u8])>
    ensures { Gives result (client_at bytes.now) }
{
    let (level, rest) = front_level(bytes)?;
    let (sources, rest) = number(after(b':', rest)?, 8)?;
    let client = ClientConfig {
        level,
        sources: sources as u8,
    };
    Some((client, rest))
}

/// The clients up to the LF that ends the line, at most 16.
fn clients(bytes: &[u8]) -> Option<ArrayVec<ClientConfig, MOST_CLIENTS>>
    ensures { GivesAll result (clients_at 16 bytes.now) }
{
    let mut clients = ArrayVec::new();
    let mut rest = bytes;
    while !is_end(rest) {
        let (client, after) = client(rest)?;
        if clients.try_push(client).is_err() {
            return None;
        }
        rest = after;
    }
    Some(clients)
}

/// The bytes after the word at the front of a schedule.
fn after_word(line: &[u8]) -> Option<&[u8]>
    ensures { MatchOption result ((rest : List ℕ) → line.now ≢ schedule_word ++ rest) (λ rest. line.now
        ≡ schedule_word ++ rest.now) }
{
    line.strip_prefix(b"tlsched ")
}

/// A whole header, read from left to right.
fn whole_header(line: &[u8]) -> Option<Schedule>
    ensures { GivesSchedule result (header_at line.now) }
{
    let bytes = after_word(line)?;
    let (version, rest) = front_version(bytes)?;
    let (blocks, rest) = number(after(b' ', rest)?, 1024)?;
    let (trackers, rest) = number(after(b' ', rest)?, 8)?;
    let clients = clients(rest)?;
    if clients.is_empty() {
        return None;
    }
    let config = Config {
        blocks,
        trackers: trackers as u8,
        clients,
        profile: version.profile(),
    };
    Some(Schedule { version, config })
}

/// Reads the first line of a schedule, with its LF. `None` if the line has another form.
pub fn read_schedule(line: &[u8]) -> Option<Schedule>
    // The line spells the header that is read, and each header that a line spells is read.
    ensures spelled { IfSome result (λ s. SpellsSchedule line.now s.version s.config.blocks s.config.trackers
        s.config.clients.items) }
    ensures of_profile { IfSome result (λ s. s.config.profile ≡ profile_of s.version) }
    ensures every_spelling { (version : Version) (blocks trackers : ℕ) (clients : List ClientConfig) →
        SpellsSchedule line.now version blocks trackers clients → IsSchedule result version blocks trackers clients }
{
    whole_header(line)
}
