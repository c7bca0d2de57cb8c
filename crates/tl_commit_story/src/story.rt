//! Judges the lines of a trace with commits again, and finds the reasons for the line at fault.

ghost use Rattle.tl_beat.specs.statement.Width.{IsWidth, IsWidth-prop};

use crate::replay::Replay;
use std::alloc::AllocError;
use tl_commit_lines::lines::EventLines;
use tl_lines::fault::Fault;
use tl_lines::line_handler::LineHandler;

/// Judges the lines of a trace with commits, and reads them again.
#[derive(Drop)]
pub struct Story<const W: usize> {
    pub lines: EventLines,
    pub replay: Replay<W>,
    pub ghost width: { IsWidth W } by { IsWidth-prop W },
}

impl<const W: usize> LineHandler for Story<W> {
    ghost use Rattle.std.specs.Prelude.{Bool};
    ghost use Rattle.tl_commit_lines.specs.code.EventWatching.{events_judged_for};
    ghost use Rattle.tl_commit_lines.specs.statement.JudgedEvents.{JudgedCommits};
    ghost use Rattle.tl_commit_story.specs.code.Replaying.{EndsStory, KnowsStory};
    ghost use Rattle.tl_params.specs.declared.liberties.Liberties.{Liberties};

    ghost knows = { KnowsStory };

    ghost Purpose = { Bool × Liberties };

    ghost purpose = { λ h. events_judged_for h.lines };

    ghost tells = { λ p. JudgedCommits p.0 p.1 };

    ghost ends = { EndsStory };

    fn handle_line(&mut self, line: &[u8], out: &mut Vec<u8>) -> Result<Option<Fault>, AllocError> {
        let fault = self.lines.handle_line(line, out)?;
        self.replay.read(line, fault)?;
        Ok(fault)
    }

    fn open_fault(&self) -> Fault {
        self.lines.open_fault()
    }

    fn finish(&self, count: u64, out: &mut Vec<u8>) -> Result<Option<Fault>, AllocError> {
        self.lines.finish(count, out)
    }
}
