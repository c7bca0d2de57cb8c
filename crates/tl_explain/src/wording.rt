//! How an explanation writes the beats and the names that it cites.

ghost use Rattle.std.specs.Prelude.{ℕ, List, OnOk};
ghost use Rattle.tl_beat.specs.statement.Width.{IsWidth};
ghost use Rattle.tl_explain.specs.declared.told.Spelling.{Spelling};

use crate::bursts::is_small;
use crate::told::{Spelling, Told};
use crate::words::{append_beat_line, append_told};
use std::alloc::AllocError;
use std::io;
use std::io::Write;
use tl_beat::control::Control;
use tl_beat::read::read_line;
use tl_burst::burst::burst_length;

/// Writes the beats that an explanation cites, and the blocks, sources and sinks that its sentences name, as the lines
/// of the trace have them.
pub trait Wording<const W: usize> {
    /// How the words of a beat are appended that was recorded with this number and this line: the text before, and the
    /// text after.
    ghost says: { Self → ℕ → Spelling → List ℕ → List ℕ → Type 0 };

    /// The number of a cited beat's line.
    fn line_of(&self, told: &Told) -> u64;

    /// The number of beats in the burst of a cited beat, 0 if it isn't known.
    fn length_of(&self, told: &Told) -> u8
        requires { IsWidth W };

    /// The number of the trace's beats in which this many recorded ones of a message come.
    fn beats_of(&self, recorded: u8) -> u8;

    /// Appends the words of a cited beat, after the number of its line.
    fn append_told(&self, told: &Told, out: &mut Vec<u8>) -> io::Result<()>
        requires { IsWidth W };

    /// Appends the words of the beat that was recorded with this number and this line, after the number of its line.
    fn append_recorded(
        &self,
        number: u64,
        spelling: &Spelling,
        out: &mut Vec<u8>,
    ) -> Result<(), AllocError>
        requires { IsWidth W }
        ensures { OnOk result (says self.now number spelling.now out.old.items out.new.items) };

    /// Appends the source of a cited beat.
    fn append_source_of(&self, told: &Told, out: &mut Vec<u8>) -> io::Result<()>;

    /// Appends a source.
    fn append_source(&self, source: u8, out: &mut Vec<u8>) -> io::Result<()>;

    /// Appends a sink.
    fn append_sink(&self, sink: u8, out: &mut Vec<u8>) -> io::Result<()>;

    /// Appends an address.
    fn append_address(&self, address: u32, out: &mut Vec<u8>) -> io::Result<()>;
}

/// Appends the number of a cited beat's line between these words, and then the words of the beat.
pub(crate) fn tell_line<const W: usize, X: Wording<W>>(
    wording: &X,
    before: &str,
    told: &Told,
    after: &str,
    out: &mut Vec<u8>,
) -> io::Result<()>
    requires { IsWidth W }
{
    let line = wording.line_of(told);
    write!(out, "{before}{line}{after}")?;
    wording.append_told(told, out)
}

/// Writes beats and names as they were recorded.
#[derive(Drop)]
pub struct AsRecorded;

/// The source of a message.
fn source_of(control: &Control) -> u8 {
    match control {
        Control::A(x) => x.source,
        Control::B(x) => x.source,
        Control::C(x) => x.source,
        Control::D(x) => x.source,
        Control::E(_) => 0,
    }
}

impl<const W: usize> Wording<W> for AsRecorded {
    ghost use Rattle.tl_explain.specs.statement.Pending.{says_recorded};

    ghost says = { λ _. says_recorded W };

    fn line_of(&self, told: &Told) -> u64 {
        told.mention.line
    }

    fn length_of(&self, told: &Told) -> u8 {
        match read_line::<W>(told.spelling.line()) {
            Ok((_, beat)) if is_small(&beat) => burst_length(&beat),
            _ => 0,
        }
    }

    fn beats_of(&self, recorded: u8) -> u8 {
        recorded
    }

    fn append_told(&self, told: &Told, out: &mut Vec<u8>) -> io::Result<()> {
        append_told::<W>(told, out)
    }

    fn append_recorded(
        &self,
        number: u64,
        spelling: &Spelling,
        out: &mut Vec<u8>,
    ) -> Result<(), AllocError> {
        append_beat_line::<W>(number, spelling.line(), out)
    }

    fn append_source_of(&self, told: &Told, out: &mut Vec<u8>) -> io::Result<()> {
        let source = source_of(&told.mention.control);
        write!(out, "{source:02x}")
    }

    fn append_source(&self, source: u8, out: &mut Vec<u8>) -> io::Result<()> {
        write!(out, "{source:02x}")
    }

    fn append_sink(&self, sink: u8, out: &mut Vec<u8>) -> io::Result<()> {
        write!(out, "{sink:02x}")
    }

    fn append_address(&self, address: u32, out: &mut Vec<u8>) -> io::Result<()> {
        write!(out, "{address:08x}")
    }
}
