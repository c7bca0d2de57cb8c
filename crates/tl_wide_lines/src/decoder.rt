//! Writes each line of a wide beat as a readable line.

ghost use Rattle.std.specs.Prelude.{IsTrue, ⊤};
ghost use Rattle.tl_wide_lines.specs.code.WideDecoding.{KnowsDecoded, is_wide_width};
ghost use Rattle.tl_wide_lines.specs.statement.WideDecoded.{DecodedWide};

use crate::text::append_wide_text;
use std::alloc::AllocError;
use tl_beat::fault::LineFault;
use tl_lines::fault::Fault;
use tl_lines::line_handler::LineHandler;
use tl_wide::beat::{WideBeat, WideBeatE};
use tl_wide::read::read_wide_into;

/// Judges lines of wide beats of `W` bytes (4, 8, 16, 32 or 64), each by itself. A line that spells a wide beat has a
/// readable line.
#[derive(Clone, Copy)]
pub struct WideDecoder<const W: usize> {
    pub ghost width: { IsTrue (is_wide_width W) },
}

impl<const W: usize> LineHandler for WideDecoder<W> {
    ghost knows = { λ _ lines text. KnowsDecoded W lines text };

    ghost purpose = { λ _. tt };

    ghost tells = { λ _. DecodedWide W };

    ghost ends = { λ _ _. ⊤ };

    fn handle_line(&mut self, line: &[u8], out: &mut Vec<u8>) -> Result<Option<Fault>, AllocError> {
        let mut beat = WideBeat::<W>::E(WideBeatE { sink: 0 });
        match read_wide_into(line, &mut beat) {
            Ok(link) => {
                append_wide_text(link, &beat, out)?;
                Ok(None)
            }
            Err(fault) => Ok(Some(Fault::Line(fault))),
        }
    }

    fn open_fault(&self) -> Fault {
        Fault::Line(LineFault::F1)
    }

    fn finish(&self, _count: u64, _out: &mut Vec<u8>) -> Result<Option<Fault>, AllocError> {
        Ok(None)
    }
}
