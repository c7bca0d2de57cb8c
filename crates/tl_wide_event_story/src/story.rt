//! Judges the lines of a wide trace with stores and loads again, and finds the reasons for the line at fault.

use crate::replay::WideEventReplay;
use std::alloc::AllocError;
use tl_lines::fault::Fault;
use tl_lines::line_handler::LineHandler;
use tl_wide_event_lines::lines::WideEventLines;

/// Judges the lines of a wide trace with stores and loads, and reads them again.
#[derive(Drop)]
pub struct WideEventStory<const W: usize, const P: usize> {
    pub lines: WideEventLines,
    pub replay: WideEventReplay<W, P>,
}

impl<const W: usize, const P: usize> LineHandler for WideEventStory<W, P> {
    ghost use Rattle.std.specs.Prelude.{Bool};
    ghost use Rattle.tl_params.specs.declared.liberties.Liberties.{Liberties};
    ghost use Rattle.tl_wide_event_lines.specs.code.EventWatching.{any_judged_for};
    ghost use Rattle.tl_wide_event_lines.specs.statement.JudgedWideEvents.{JudgedAny};
    ghost use Rattle.tl_wide_event_story.specs.code.Retelling.{EndsStory, KnowsStory};

    ghost knows = { KnowsStory };

    ghost Purpose = { Bool × Liberties };

    ghost purpose = { λ h. any_judged_for h.lines };

    ghost tells = { λ p. JudgedAny p.0 p.1 };

    ghost ends = { EndsStory };

    fn handle_line(&mut self, line: &[u8], out: &mut Vec<u8>) -> Result<Option<Fault>, AllocError> {
        let fault = self.lines.handle_line(line, out)?;
        self.replay.read(line, fault)?;
        Ok(fault)
    }

    fn open_fault(&self) -> Fault {
        self.lines.open_fault()
    }

    fn finish(&self, count: u64, out: &mut Vec<u8>) -> Result<Option<Fault>, AllocError> {
        self.lines.finish(count, out)
    }
}
