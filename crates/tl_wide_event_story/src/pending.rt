//! The messages that are pending at the end of a wide trace with stores and loads.

ghost use Rattle.std.specs.Prelude.{◌≡◌, IsTrue, ⊤};
ghost use Rattle.tl_beat.specs.statement.Width.{IsWidth};
ghost use Rattle.tl_wide.specs.statement.Width.{IsWideWidth, part_width};
ghost use Rattle.tl_wide_lines.specs.code.WideDecoding.{is_wide_width};

use crate::guide::plain_of;
use std::alloc::{AllocError, Global};
use tl_beat::beat::Link;
use tl_lines::fault::Fault;
use tl_lines::line_handler::LineHandler;
use tl_params::liberties::Liberties;
use tl_wide::beat::WideBeat;
use tl_wide::narrow::Narrower;
use tl_wide::parts::Parts;
use tl_wide_event_lines::header::read_wide_marked_for;
use tl_wide_events::commit::WideEvent;
use tl_wide_events::event::read_wide_event;
use tl_wide_events::narrow::narrow_commit;
use tl_wide_story::citation::{WideWording, citation};
use tl_wide_story::pending_beats::PendingBeats;

/// Lists the messages that are pending after the events of a wide trace.
#[derive(Drop)]
pub struct PendingWideEvents<const W: usize, const P: usize> {
    alloc: Global,
    /// The liberties of the links beyond those that the header names.
    allow: Liberties,
    narrower: Narrower,
    /// None before the header.
    beats: Option<PendingBeats<P>>,
    /// The number of lines that have been read.
    count: u64,
    /// Each line was as it has to be.
    is_sound: bool,
    ghost width: { IsTrue (is_wide_width W) },
    ghost part: { P ≡ part_width W },
}

impl<const W: usize, const P: usize> PendingWideEvents<W, P> {
    #[tactic(auto, using(tl_wide_story::proofs::WideReplaying::is_wide))]
    /// No line has been read.
    pub fn new(alloc: Global, allow: Liberties) -> Self
        requires width { IsWideWidth W }
        requires part { P ≡ part_width W }
    {
        PendingWideEvents {
            alloc,
            allow,
            narrower: Narrower::new(alloc),
            beats: None,
            count: 0,
            is_sound: true,
        }
    }

    /// Takes the header. Returns true if it is one of a wide trace with stores and loads.
    fn take_header(&mut self, line: &[u8]) -> Result<bool, AllocError>
        requires { IsWidth P }
    {
        let Some(header) = read_wide_marked_for(self.allow, line) else {
            return Ok(false);
        };
        let beats = PendingBeats::new(self.alloc, &plain_of(self.alloc, &header.narrow)?)?;
        self.beats = Some(beats);
        Ok(true)
    }

    /// Takes the parts of the wide beat of a line. Returns true if each breaks no rule.
    fn take_parts(
        &mut self,
        line: &[u8],
        link: Link,
        beat: &WideBeat<W>,
        parts: Parts,
    ) -> Result<bool, AllocError>
        requires wide { IsWideWidth W }
        requires parts { P ≡ part_width W }
        requires narrow { IsWidth P }
    {
        let Some(beats) = &mut self.beats else {
            return Ok(false);
        };
        let cited = citation(self.count.saturating_add(1), line);
        let mut left = parts;
        while let Some(part) = left.next::<W, P>(beat) {
            if !beats.take(cited.as_slice(), link, &part)? {
                return Ok(false);
            }
        }
        Ok(true)
    }

    /// Takes the line of an event. Returns true if it is as it has to be.
    fn take_event(&mut self, line: &[u8]) -> Result<bool, AllocError>
        requires wide { IsWideWidth W }
        requires parts { P ≡ part_width W }
        requires narrow { IsWidth P }
    {
        match read_wide_event::<W>(line) {
            Err(_) => Ok(false),
            Ok((link, WideEvent::Commit(commit))) => {
                Ok(narrow_commit(&mut self.narrower, link, commit)?.is_some())
            }
            Ok((link, WideEvent::Beat(beat))) => {
                match self.narrower.narrow::<W, P>(link, &beat)? {
                    None => Ok(false),
                    Some(parts) => self.take_parts(line, link, &beat, parts),
                }
            }
        }
    }

    #[tactic(auto, using(tl_wide_story::proofs::Lessons::wide_of, tl_wide_story::proofs::Lessons::part_of))]
    /// Takes the next line.
    fn take_line(&mut self, line: &[u8]) -> Result<(), AllocError> {
        if !self.is_sound {
            return Ok(());
        }
        self.is_sound = if self.count == 0 {
            self.take_header(line)?
        } else {
            self.take_event(line)?
        };
        self.count = self.count.saturating_add(1);
        Ok(())
    }

    /// Whether so many lines were read, each as it has to be.
    pub fn has_read(&self, count: u64) -> bool {
        self.is_sound && self.count == count
    }

    #[tactic(auto, using(tl_wide_story::proofs::Lessons::wide_of, tl_wide_story::proofs::Lessons::part_of))]
    /// Appends the pending messages.
    pub fn tell(&mut self, out: &mut Vec<u8>) -> Result<(), AllocError> {
        let wording = WideWording::<W> {
            address: 0,
            source: 0,
            sink: 0,
        };
        match &mut self.beats {
            None => Ok(()),
            Some(beats) => beats.tell(&wording, out),
        }
    }
}

impl<const W: usize, const P: usize> LineHandler for PendingWideEvents<W, P> {
    ghost knows = { λ _ _ _. ⊤ };

    ghost purpose = { λ _. tt };

    ghost tells = { λ _ _ _ _. ⊤ };

    ghost ends = { λ _ _. ⊤ };

    fn handle_line(
        &mut self,
        line: &[u8],
        _out: &mut Vec<u8>,
    ) -> Result<Option<Fault>, AllocError> {
        self.take_line(line)?;
        Ok(None)
    }

    fn open_fault(&self) -> Fault {
        Fault::Header
    }

    fn finish(&self, _count: u64, _out: &mut Vec<u8>) -> Result<Option<Fault>, AllocError> {
        Ok(None)
    }
}
