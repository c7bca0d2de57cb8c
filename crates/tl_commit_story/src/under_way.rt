//! An unfinished message on a channel of a link.

ghost use Rattle.std.specs.Prelude.{◌≡◌, ◌+◌, [], IfOk, IsTrue, OnOk, if◌then◌else◌, ◌==◌};
ghost use Rattle.tl_beat.specs.declared.beat.Beat.{Beat};
ghost use Rattle.tl_beat.specs.declared.beat.Link.{Link};
ghost use Rattle.tl_beat.specs.statement.Line.{Spells};
ghost use Rattle.tl_beat.specs.statement.Width.{IsWidth};
ghost use Rattle.tl_burst.specs.statement.Part.{is_small};
ghost use Rattle.tl_burst.specs.statement.Messages;
ghost use Rattle.tl_explain.specs.statement.Sentences.{beat_line};
ghost use Rattle.tl_commit_story.specs.statement.Cached.{begun_with};

use std::alloc::{AllocError, Global};
use tl_beat::beat::{Beat, Link};
use tl_burst::burst::burst_length;
use tl_explain::words::append_beat_line;

/// The unfinished message on a channel of a link: the number of its beats that have come, 0 if there is none, and the
/// words of its first beat, none unless it moves data of the block.
#[derive(Drop)]
pub struct UnderWay {
    pub came: u64,
    pub begun: Vec<u8>,
}

impl UnderWay {
    /// No message has begun.
    pub fn new(alloc: Global) -> UnderWay
        ensures came { result.came ≡ 0 }
        ensures begun { result.begun.items ≡ [] }
    {
        UnderWay {
            came: 0,
            begun: Vec::new(alloc),
        }
    }

    /// Notes the first beat of a message.
    fn begin<const W: usize>(
        &mut self,
        moves: bool,
        number: u64,
        line: &[u8],
    ) -> Result<(), AllocError>
        requires { IsWidth W }
        ensures came { self.new.came ≡ self.old.came }
        ensures begun { OnOk result ((link : Link) (beat : Beat W) → Spells line.now link beat →
            self.new.begun.items ≡ (if moves then beat_line number link beat else [])) }
    {
        self.begun.clear();
        if !moves {
            return Ok(());
        }
        append_beat_line::<W>(number, line, &mut self.begun)
    }

    /// Takes the next beat of the channel, from the line with this number. `moves` says whether it moves data of the
    /// block. The error means that there is no memory left.
    pub fn take<const W: usize>(
        &mut self,
        moves: bool,
        number: u64,
        line: &[u8],
        beat: &Beat<W>,
    ) -> Result<(), AllocError>
        requires width { IsWidth W }
        requires small { IsTrue (is_small beat.now) }
        ensures came { OnOk result (self.new.came
            ≡ (if self.old.came + 1 == Messages.burst_length beat.now then 0 else self.old.came + 1)) }
        ensures begun { OnOk result ((link : Link) → Spells line.now link beat.now → self.new.begun.items
            ≡ begun_with moves (beat_line number link beat.now) (Messages.burst_length beat.now) self.old.came
            self.old.begun.items) }
    {
        let came = self.came.checked_add(1).ok_or(AllocError)?;
        if came == u64::from(burst_length(beat)) {
            self.came = 0;
            self.begun.clear();
            return Ok(());
        }
        if self.came == 0 {
            self.begin::<W>(moves, number, line)?;
        }
        self.came = came;
        Ok(())
    }
}
