//! Writes each beat line as a readable line.

ghost use Rattle.std.specs.Prelude.{◌≡◌, IfErr, IfOk, IsTrue, Some, ⊤};
ghost use Rattle.tl_beat.specs.declared.beat.Link.{Link};
ghost use Rattle.tl_beat.specs.statement.Line.{Spells, line_fault};
ghost use Rattle.tl_beat.specs.statement.Width.{IsWidth};
ghost use Rattle.tl_lines.specs.statement.Decoded.{DecodesBefore, DecodesTo, is_width};

use crate::fault::Fault;
use crate::line_handler::LineHandler;
use std::alloc::AllocError;
use tl_beat::beat::{Beat, BeatE};
use tl_beat::fault::LineFault;
use tl_beat::read::{read_line, read_spelled};
use tl_explain::text::append_text;

/// Judges lines of beats of `W` bytes (4, 8 or 16), each by itself. A line that spells a beat has a readable line.
#[derive(Clone, Copy)]
pub struct Decoder<const W: usize> {
    pub ghost width: { IsTrue (is_width W) },
}

/// The beat of a line that may have bytes out of place.
#[cold]
#[inline(never)]
fn any_beat<const W: usize>(line: &[u8]) -> Result<Beat<W>, LineFault>
    requires { IsWidth W }
    ensures spelled { IfOk result (λ beat. (link : Link) × Spells line.now link beat) }
    ensures fault { IfErr result (λ fault. line_fault W line.now ≡ Some fault) }
{
    match read_line(line) {
        Ok((_, beat)) => Ok(beat),
        Err(fault) => Err(fault),
    }
}

/// The beat that a line spells. The error is its first fault.
#[inline(always)]
fn beat_of<const W: usize>(line: &[u8]) -> Result<Beat<W>, LineFault>
    requires { IsWidth W }
    ensures spelled { IfOk result (λ beat. (link : Link) × Spells line.now link beat) }
    ensures fault { IfErr result (λ fault. line_fault W line.now ≡ Some fault) }
{
    let mut beat = Beat::E(BeatE { sink: 0 });
    match read_spelled(line, &mut beat) {
        Some(_) => Ok(beat),
        None => any_beat(line),
    }
}

impl<const W: usize> LineHandler for Decoder<W> {
    ghost knows = { λ _ lines text. DecodesBefore W lines text };

    ghost purpose = { λ _. tt };

    ghost tells = { λ _. DecodesTo W };

    ghost ends = { λ _ _. ⊤ };

    #[inline(always)]
    fn handle_line(&mut self, line: &[u8], out: &mut Vec<u8>) -> Result<Option<Fault>, AllocError> {
        match beat_of::<W>(line) {
            Ok(beat) => {
                append_text(line, &beat, out)?;
                Ok(None)
            }
            Err(fault) => Ok(Some(Fault::Line(fault))),
        }
    }

    fn open_fault(&self) -> Fault {
        Fault::Line(LineFault::F1)
    }

    fn finish(&self, _count: u64, _out: &mut Vec<u8>) -> Result<Option<Fault>, AllocError> {
        Ok(None)
    }
}
