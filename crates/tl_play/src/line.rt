//! The words of a line, and appending of text.

use itoa::Buffer;
use std::alloc::AllocError;
use std::str::Split;
use tl_beat::channel::Channel;
use tl_rules::perm::Perm;

/// The next word as a decimal number; the greatest number if it isn't one.
pub fn number(words: &mut Split<'_, char>) -> u16 {
    match words.next() {
        None => u16::MAX,
        Some(word) => word.parse::<u16>().unwrap_or(u16::MAX),
    }
}

/// The next word as the number of a client or link, at most 255.
pub fn small_number(words: &mut Split<'_, char>) -> u8 {
    number(words).min(255) as u8
}

/// The channel with this letter.
pub fn channel_named(letter: &str) -> Option<Channel> {
    match letter {
        "A" => Some(Channel::A),
        "B" => Some(Channel::B),
        "C" => Some(Channel::C),
        "D" => Some(Channel::D),
        "E" => Some(Channel::E),
        _ => None,
    }
}

/// Appends a text.
pub fn append_text(text: &str, out: &mut Vec<u8>) -> Result<(), AllocError> {
    out.extend_from_slice(text.as_bytes())
}

/// Appends a number in decimal.
pub fn append_number(number: u64, out: &mut Vec<u8>) -> Result<(), AllocError> {
    let mut digits = Buffer::new();
    out.extend_from_slice(digits.format(number).as_bytes())
}

/// Appends a permission as a line.
pub fn append_perm(perm: Perm, out: &mut Vec<u8>) -> Result<(), AllocError> {
    match perm {
        Perm::None => out.extend_from_slice(b"holds N\n"),
        Perm::Branch => out.extend_from_slice(b"holds B\n"),
        Perm::Trunk => out.extend_from_slice(b"holds T\n"),
    }
}

/// Appends a copy as a line, the byte of the highest address first.
pub fn append_copy(copy: Option<[u8; 64]>, out: &mut Vec<u8>) -> Result<(), AllocError> {
    let Some(mut bytes) = copy else {
        return out.extend_from_slice(b"copy none\n");
    };
    let mut digits = [0; 128];
    bytes.reverse();
    match hex::encode_to_slice(bytes, &mut digits) {
        Err(_) => Err(AllocError),
        Ok(()) => {
            out.extend_from_slice(b"copy ")?;
            out.extend_from_slice(&digits)?;
            out.extend_from_slice(b"\n")
        }
    }
}
