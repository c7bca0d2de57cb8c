//! Cited lines of a wide trace, and the wording of an explanation that cites them.

ghost use Rattle.std.specs.Prelude.{IsTrue};
ghost use Rattle.tl_wide.specs.statement.Width.{IsWideWidth};
ghost use Rattle.tl_wide_lines.specs.code.WideDecoding.{is_wide_width};

use arrayvec::ArrayVec;
use std::alloc::AllocError;
use std::io;
use std::io::Write;
use tl_explain::tell::size_of;
use tl_explain::told::{Spelling, Told};
use tl_explain::wording::Wording;
use tl_wide::beat::{WideBeat, WideBeatE};
use tl_wide::read::read_wide_into;
use tl_wide_lines::text::append_wide_text;

/// The number of a line's bytes that a citation keeps. A line without data has no more.
const KEPT: usize = 56;

/// A citation of the wide line of this number: the number, and the first bytes of the line.
pub fn citation(number: u64, line: &[u8]) -> ArrayVec<u8, 64> {
    let mut bytes = ArrayVec::new();
    let _ = bytes.try_extend_from_slice(&number.to_le_bytes());
    let _ = bytes.try_extend_from_slice(&line[..line.len().min(KEPT)]);
    bytes
}

/// The number of a cited line.
fn number_of(spelling: &Spelling) -> u64 {
    match spelling.line().first_chunk::<8>() {
        None => 0,
        Some(bytes) => u64::from_le_bytes(*bytes),
    }
}

/// The bytes that are kept of a cited line.
fn front_of(spelling: &Spelling) -> &[u8] {
    let bytes = spelling.line();
    &bytes[bytes.len().min(8)..]
}

/// The number of bytes of a line with data of this channel.
fn length_with_data(letter: u8, width: usize) -> usize {
    let before_data = match letter {
        b'D' => 23,
        b'C' => 33,
        _ => (width / 4).saturating_add(34),
    };
    width
        .saturating_mul(2)
        .saturating_add(before_data)
        .saturating_add(3)
}

/// A line that was cut within its data, with 0 for the digits and the bit that it lacks.
fn completed(front: &[u8], width: usize) -> ArrayVec<u8, 192> {
    let mut line = ArrayVec::new();
    let _ = line.try_extend_from_slice(front);
    let letter = match front {
        [_, _, _, letter, ..] => *letter,
        _ => b'E',
    };
    let end = length_with_data(letter, width);
    for _ in front.len().saturating_add(3)..end {
        let _ = line.try_push(b'0');
    }
    let tail = line.len().saturating_add(3).saturating_sub(end).min(3);
    let ending: &[u8] = b" 0\n";
    let _ = line.try_extend_from_slice(&ending[tail..]);
    line
}

/// Appends the readable line of the beat that these bytes spell, or an empty one.
fn append_spelled<const W: usize>(line: &[u8], out: &mut Vec<u8>) -> io::Result<()>
    requires { IsWideWidth W }
{
    let mut beat = WideBeat::<W>::E(WideBeatE { sink: 0 });
    match read_wide_into(line, &mut beat) {
        Ok(link) => append_wide_text(link, &beat, out)?,
        Err(_) => out.push(b'\n')?,
    }
    Ok(())
}

/// Appends the readable line of a cited beat whose line was cut, without its data and its corrupt bit.
fn append_cut<const W: usize>(front: &[u8], out: &mut Vec<u8>) -> io::Result<()>
    requires { IsWideWidth W }
{
    append_spelled::<W>(completed(front, W).as_slice(), out)?;
    let left = W.saturating_mul(2).saturating_add(11);
    out.truncate(out.len().saturating_sub(left));
    out.write_all(b"..\n")
}

/// Writes cited beats as their wide lines have them, and the names of the beat at fault, which are the only ones that
/// sentences have.
#[derive(Clone, Copy)]
pub struct WideWording<const W: usize> {
    /// An address in the block of the verdict.
    pub address: u64,
    pub source: u16,
    pub sink: u16,
    pub ghost width: { IsTrue (is_wide_width W) },
}

impl<const W: usize> WideWording<W> {
    /// Keeps the address of the block that the verdict is about: that of the beat at fault, or of the request that it
    /// may answer. `same_link` says that a beat is of the link of the beat at fault.
    pub fn note_address(&mut self, at_fault: bool, same_link: bool, beat: &WideBeat<W>) {
        match beat {
            WideBeat::A(x) if at_fault || same_link && x.source == self.source => {
                self.address = x.address;
            }
            WideBeat::B(x) if at_fault => self.address = x.address,
            WideBeat::C(x) if at_fault => self.address = x.address,
            _ => {}
        }
    }
}

/// Appends the words of a cited line, after its number.
pub fn append_cited<const W: usize>(spelling: &Spelling, out: &mut Vec<u8>) -> io::Result<()>
    requires { IsWideWidth W }
{
    let number = number_of(spelling);
    let front = front_of(spelling);
    write!(out, "  {number}: ")?;
    match front {
        [.., b'\n'] => append_spelled::<W>(front, out),
        _ => append_cut::<W>(front, out),
    }
}

impl<const W: usize, const P: usize> Wording<P> for WideWording<W> {
    ghost use Rattle.std.specs.Prelude.{⊤};

    ghost says = { λ _ _ _ _ _. ⊤ };

    fn line_of(&self, told: &Told) -> u64 {
        number_of(&told.spelling)
    }

    fn length_of(&self, told: &Told) -> u8 {
        let bytes = 1usize << size_of(&told.mention.control).min(6);
        (bytes / W.max(1)).clamp(1, 16) as u8
    }

    fn beats_of(&self, recorded: u8) -> u8 {
        let parts = (W / P.max(1)).clamp(1, 4) as u8;
        recorded.div_ceil(parts)
    }

    fn append_told(&self, told: &Told, out: &mut Vec<u8>) -> io::Result<()> {
        append_cited::<W>(&told.spelling, out)
    }

    fn append_recorded(
        &self,
        _number: u64,
        spelling: &Spelling,
        out: &mut Vec<u8>,
    ) -> Result<(), AllocError> {
        append_cited::<W>(spelling, out).map_err(|_| AllocError)
    }

    fn append_source_of(&self, told: &Told, out: &mut Vec<u8>) -> io::Result<()> {
        match front_of(&told.spelling) {
            [_, _, _, _, _, _, _, _, _, _, _, source @ ..] => {
                out.write_all(&source[..source.len().min(4)])
            }
            _ => Ok(()),
        }
    }

    fn append_source(&self, source: u8, out: &mut Vec<u8>) -> io::Result<()> {
        let name = if source == 0 { 0 } else { self.source };
        write!(out, "{name:04x}")
    }

    fn append_sink(&self, sink: u8, out: &mut Vec<u8>) -> io::Result<()> {
        let name = if sink == 0 { 0 } else { self.sink };
        write!(out, "{name:04x}")
    }

    fn append_address(&self, address: u32, out: &mut Vec<u8>) -> io::Result<()> {
        let whole = self.address / 64 * 64 + u64::from(address % 64);
        write!(out, "{whole:016x}")
    }
}
