//! Cited beats: beats with the numbers of their lines.

ghost use Rattle.std.specs.Prelude.{◌≡◌, ◌≤◌, length};
ghost use Rattle.tl_explain.specs.statement.Spelled.{spelled};

use tl_beat::control::Control;

/// A beat by its control fields, with the number of its line.
#[derive(Clone, Copy)]
pub struct Mention {
    pub line: u64,
    pub control: Control,
}

/// The line of a beat, which has fewer than 64 bytes.
#[derive(Clone, Copy)]
pub struct Spelling {
    pub bytes: [u8; 64],
    pub len: u8,
}

/// A cited beat: its fields, and its line.
#[derive(Clone, Copy)]
pub struct Told {
    pub mention: Mention,
    pub spelling: Spelling,
}

impl Spelling {
    /// The bytes of a line, at most the first 64.
    pub fn of(line: &[u8]) -> Self
        ensures { length line.now ≤ 64 → spelled result ≡ line.now }
    {
        let mut bytes = [0u8; 64];
        let len = line.len().min(64);
        bytes[..len].copy_from_slice(&line[..len]);
        Spelling {
            bytes,
            len: len as u8,
        }
    }

    /// The line.
    pub fn line(&self) -> &[u8]
        ensures { result.now ≡ spelled self.now }
    {
        let end = usize::from(self.len).min(64);
        &self.bytes[..end]
    }
}
