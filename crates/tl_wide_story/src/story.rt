//! Handlers of the lines of a second reading of a wide trace.

ghost use Rattle.std.specs.Prelude.{⊤};
ghost use Rattle.tl_wide_story.specs.code.WideReplaying.{EndsReplay, KnowsReplay};

use crate::lesson::Lesson;
use crate::replay::WideReplay;
use std::alloc::AllocError;
use tl_lines::fault::Fault;
use tl_lines::line_handler::LineHandler;

/// Explains the line at fault by a replay and a lesson.
#[derive(Drop)]
pub struct WideStory<const W: usize, const P: usize> {
    pub replay: WideReplay<W>,
    pub lesson: Lesson<W, P>,
}

impl<const W: usize, const P: usize> LineHandler for WideStory<W, P> {
    ghost knows = { λ s lines text. KnowsReplay s.replay lines };

    ghost purpose = { λ _. tt };

    ghost tells = { λ _ _ _ _. ⊤ };

    ghost ends = { λ s. EndsReplay s.replay };

    fn handle_line(&mut self, line: &[u8], out: &mut Vec<u8>) -> Result<Option<Fault>, AllocError> {
        let fault = self.replay.handle_line(line, out)?;
        self.lesson.take_line(line, self.replay.wording.address)?;
        Ok(fault)
    }

    fn open_fault(&self) -> Fault {
        self.replay.open_fault()
    }

    fn finish(&self, count: u64, out: &mut Vec<u8>) -> Result<Option<Fault>, AllocError> {
        self.replay.finish(count, out)
    }
}

impl<const W: usize, const P: usize> LineHandler for Lesson<W, P> {
    ghost knows = { λ _ _ _. ⊤ };

    ghost purpose = { λ _. tt };

    ghost tells = { λ _ _ _ _. ⊤ };

    ghost ends = { λ _ _. ⊤ };

    fn handle_line(
        &mut self,
        line: &[u8],
        _out: &mut Vec<u8>,
    ) -> Result<Option<Fault>, AllocError> {
        self.take_line(line, 0)?;
        Ok(None)
    }

    fn open_fault(&self) -> Fault {
        Fault::Header
    }

    fn finish(&self, _count: u64, _out: &mut Vec<u8>) -> Result<Option<Fault>, AllocError> {
        Ok(None)
    }
}
