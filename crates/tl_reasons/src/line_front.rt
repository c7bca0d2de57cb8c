//! Reads the front of one line of an input.

ghost use Rattle.std.specs.Prelude.{◌≡◌, ◌≢◌, ◌||◌, ◌==◌, nat_le, [], false, ℕ, List, IfErr, IfOk, OnOk};
ghost use Rattle.std.specs.Io.KnownBytes.{Consumes};
ghost use Rattle.tl_reasons.specs.code.Reaching.{KnowsFront, TakesByte, TakesBytes};
ghost use Rattle.tl_reasons.specs.statement.Fronts.{front_after};
ghost use Rattle.tl_reasons.specs.declared.explain_fault.ExplainFault.{ExplainFault};
ghost use Rattle.tl_lines.specs.declared.status.ToolFault.{ToolFault};

use crate::explain_fault::ExplainFault;
use std::alloc::{AllocError, Global};
use std::io::Read;
use tl_lines::engine::{new_chunk, next_piece};
use tl_lines::status::ToolFault;

/// The number of bytes of a line that are read: whether it is too long shows in them.
const LOOKED_AT: usize = 257;

/// The front of a line, while an input is read.
#[derive(Drop)]
struct LineFront {
    /// The number of lines before it that have yet to end.
    before: u64,
    front: Vec<u8>,
    /// Whether no more of its bytes are wanted.
    is_whole: bool,
}

/// Whether no more bytes of a line are wanted after this one, with which so many have come.
fn is_last(byte: u8, count: usize) -> bool
    ensures { result ≡ ((byte == 10) || nat_le 257 count) }
{
    byte == b'\n' || count >= LOOKED_AT
}

impl LineFront {
    /// Nothing has been read before the line after this many.
    fn new(alloc: Global, before: u64) -> Self
        ensures { KnowsFront before result [] }
    {
        LineFront {
            before,
            front: Vec::new(alloc),
            is_whole: false,
        }
    }

    /// Takes the next byte of the line.
    fn push(&mut self, byte: u8) -> Result<(), AllocError>
        requires before { self.old.before ≡ 0 }
        requires more { self.old.is_whole ≡ false }
        ensures { OnOk result (TakesByte self.old self.new byte) }
    {
        self.front.push(byte)?;
        self.is_whole = is_last(byte, self.front.len());
        Ok(())
    }

    /// Takes the next byte of the input.
    fn take(&mut self, byte: u8) -> Result<(), AllocError>
        ensures { OnOk result (TakesByte self.old self.new byte) }
    {
        if self.is_whole {
            return Ok(());
        }
        if self.before == 0 {
            return self.push(byte);
        }
        if byte == b'\n' {
            self.before -= 1;
        }
        Ok(())
    }

    /// Takes the next bytes of the input.
    fn take_all(&mut self, bytes: &[u8]) -> Result<(), AllocError>
        ensures { OnOk result (TakesBytes self.old self.new bytes.now) }
    {
        for byte in bytes {
            self.take(*byte)?;
        }
        Ok(())
    }
}

/// The first 257 bytes, at most, of the line after this many, with its LF if it is among them. They are empty if the
/// input has no such line.
pub fn fetch<R: Read>(alloc: Global, reader: &mut R, good: u64) -> Result<Vec<u8>, ExplainFault>
    ensures ok { IfOk result (λ line. (read : List ℕ) × Consumes (R.remaining reader.old) (R.remaining reader.new) read
        × (line.items ≡ front_after good read)) }
    ensures fault { IfErr result (λ fault. fault ≢ ExplainFault.Tool ToolFault.Write) }
{
    let mut chunk = new_chunk(alloc)?;
    let mut line = LineFront::new(alloc, good);
    for _ in 0..u64::MAX {
        let count = next_piece(reader, &mut chunk)?;
        if count == 0 {
            return Ok(line.front);
        }
        line.take_all(&chunk[..count])?;
        if line.is_whole {
            return Ok(line.front);
        }
    }
    Err(ExplainFault::Tool(ToolFault::Read))
}
