//! Reads the lines of a wide trace again, records the beats that they become, and explains the line at fault.

ghost use Rattle.std.specs.Prelude.{◌≡◌, false, true, IfOk, ⊤};
ghost use Rattle.tl_beat.specs.statement.Width.{IsWidth};
ghost use Rattle.tl_wide.specs.statement.Pieces.{left_of};
ghost use Rattle.tl_wide.specs.statement.Width.{IsWideWidth, part_width, wide_bytes_of};
ghost use Rattle.tl_wide_story.specs.code.WideReplaying.{Concludes, CountsLine, EndsReplay, GoesOrEnds, IsNoted};
ghost use Rattle.tl_wide_story.specs.code.WideReplaying.{KnowsReplay, PassedBeat, PassesParts, ReadsBeat, RecordsPart};
ghost use Rattle.tl_wide_story.specs.code.WideReplaying.{TakesHeader};

use crate::citation::citation;
use crate::front::append_front;
use crate::replay::WideReplay;
use std::alloc::AllocError;
use tl_beat::beat::{Beat, Link};
use tl_explain::recorder::Recorder;
use tl_lines::fault::Fault;
use tl_lines::line_handler::LineHandler;
use tl_wide::beat::{WideBeat, WideBeatE};
use tl_wide::parts::Parts;
use tl_wide::read::read_wide_into;
use tl_wide::width::WideWidth;
use tl_wide_lines::header::read_wide_for;

/// The outcome of passing the parts of a wide beat.
#[derive(Clone, Copy, PartialEq, Eq)]
pub enum Passed {
    /// All were recorded.
    Taken,
    /// One of them was shown to be at fault.
    Told,
    /// One of them can't be recorded.
    Strange,
}

/// The number of bytes of a wide beat.
fn bytes(width: WideWidth) -> usize
    ensures { result ≡ wide_bytes_of width }
{
    match width {
        WideWidth::Four => 4,
        WideWidth::Eight => 8,
        WideWidth::Sixteen => 16,
        WideWidth::ThirtyTwo => 32,
        WideWidth::SixtyFour => 64,
    }
}

impl<const W: usize> WideReplay<W> {
    /// Takes the header, and begins to record. Returns true if it has this width.
    fn take_header(&mut self, line: &[u8]) -> bool
        ensures kept { self.new.told ≡ self.old.told }
        ensures takes { result ≡ true → TakesHeader self.old self.new line.now }
    {
        let Some(header) = read_wide_for(self.allow, line) else {
            return false;
        };
        if bytes(header.width) != W {
            return false;
        }
        let subject = self.recorder.subject;
        self.level = header.links.level_of(subject.link);
        self.may = header.links.may;
        self.recorder = Recorder::with_liberties(header.links.may, subject);
        self.recorded = 1;
        self.count = 1;
        true
    }

    /// Keeps the address of the block that the verdict is about: that of the beat at fault, or of the request that it
    /// may answer.
    fn note_address(&mut self, at_fault: bool, link: Link, beat: &WideBeat<W>)
        ensures { IsNoted self.old self.new }
    {
        let same_link = link == self.recorder.subject.link;
        self.wording.note_address(at_fault, same_link, beat);
    }

    /// Records a part of a wide beat. Returns true if it can be recorded.
    fn take_part<const P: usize>(&mut self, cited: &[u8], link: Link, part: &Beat<P>) -> bool
        requires { IsWidth P }
        ensures told { self.new.told ≡ self.old.told }
        ensures records { result ≡ true → RecordsPart self.old self.new link part.now }
    {
        let Some(number) = self.recorded.checked_add(1) else {
            return false;
        };
        if self.recorder.take(number, cited, link, part).is_err() {
            return false;
        }
        self.recorded = number;
        true
    }

    #[tactic(auto, using(crate::proofs::WideReplaying::passed_told, crate::proofs::WideReplaying::passed_strange))]
    /// Passes the parts of a wide beat in turn: records them, up to the first that is at fault if the beat is.
    fn pass_parts<const P: usize>(
        &mut self,
        cited: &[u8],
        at_fault: bool,
        link: Link,
        beat: &WideBeat<W>,
        parts: Parts,
        grounds: &mut Vec<u8>,
    ) -> Result<Passed, AllocError>
        requires width { IsWideWidth W }
        requires part { P ≡ part_width W }
        ensures { IfOk result (PassesParts self.old self.new link (left_of {p = P} beat.now parts)) }
    {
        let mut left = parts;
        while let Some(part) = left.next::<W, P>(beat) {
            if at_fault && self.tell_part(link, &part, grounds)? {
                return Ok(Passed::Told);
            }
            if !self.take_part(cited, link, &part) {
                return Ok(Passed::Strange);
            }
        }
        Ok(Passed::Taken)
    }
    /// Passes the parts of the wide beat of a line: records them, up to the first that is at fault if the beat is.
    fn pass_beat<const P: usize>(
        &mut self,
        line: &[u8],
        at_fault: bool,
        link: Link,
        beat: &WideBeat<W>,
        grounds: &mut Vec<u8>,
    ) -> Result<Passed, AllocError>
        requires width { IsWideWidth W }
        requires part { P ≡ part_width W }
        ensures { IfOk result (PassedBeat P self.old self.new link beat.now) }
    {
        let Some(parts) = self.narrower.narrow::<W, P>(link, beat)? else {
            return Ok(Passed::Strange);
        };
        self.note_address(at_fault, link, beat);
        let cited = citation(self.count.saturating_add(1), line);
        self.pass_parts::<P>(cited.as_slice(), at_fault, link, beat, parts, grounds)
    }

    /// Keeps the reasons for the line at fault, which spells this beat.
    fn conclude(
        &mut self,
        link: Link,
        beat: &WideBeat<W>,
        grounds: &[u8],
    ) -> Result<bool, AllocError>
        requires { IsWideWidth W }
        ensures { IfOk result (λ on. (on ≡ false) × Concludes self.old self.new link beat.now) }
    {
        let Some(number) = self.count.checked_add(1) else {
            return Ok(false);
        };
        self.reasons.clear();
        append_front(self.fault, number, link, beat, &mut self.reasons)?;
        self.reasons.extend_from_slice(grounds)?;
        self.told = true;
        Ok(false)
    }

    /// Counts a line that was recorded. Returns true if it isn't the one at fault.
    fn count_line(&mut self, at_fault: bool) -> bool
        ensures told { self.new.told ≡ self.old.told }
        ensures counts { result ≡ true → CountsLine self.old self.new }
    {
        let Some(number) = self.count.checked_add(1) else {
            return false;
        };
        self.count = number;
        !at_fault
    }

    /// Takes the line of a wide beat. Returns true if it was recorded and isn't the one at fault.
    fn take_beat<const P: usize>(&mut self, line: &[u8]) -> Result<bool, AllocError>
        requires width { IsWideWidth W }
        requires part { P ≡ part_width W }
        ensures { IfOk result (λ on. ReadsBeat P self.old self.new line.now on) }
    {
        let at_fault = self.count == self.good;
        let mut beat = WideBeat::E(WideBeatE { sink: 0 });
        let Ok(link) = read_wide_into(line, &mut beat) else {
            return Ok(false);
        };
        let mut grounds = Vec::new(self.alloc);
        match self.pass_beat::<P>(line, at_fault, link, &beat, &mut grounds)? {
            Passed::Strange => Ok(false),
            Passed::Told => self.conclude(link, &beat, grounds.as_slice()),
            Passed::Taken => Ok(self.count_line(at_fault)),
        }
    }

    #[tactic(auto, using(crate::proofs::WideReplaying::header_line, crate::proofs::WideReplaying::line_read, crate::proofs::WideReplaying::sixteen_bytes))]
    /// Takes the next line. Returns true if it may be the same as before, and isn't the one at fault.
    fn take_line(&mut self, line: &[u8]) -> Result<bool, AllocError>
        ensures { IfOk result (λ on. GoesOrEnds self.old self.new line.now on) }
    {
        if self.count == 0 {
            return Ok(self.take_header(line));
        }
        match W {
            4 => self.take_beat::<4>(line),
            8 => self.take_beat::<8>(line),
            _ => self.take_beat::<16>(line),
        }
    }
}

impl<const W: usize> LineHandler for WideReplay<W> {
    ghost knows = { λ r lines text. KnowsReplay r lines };

    ghost purpose = { λ _. tt };

    ghost tells = { λ _ _ _ _. ⊤ };

    ghost ends = { EndsReplay };

    fn handle_line(
        &mut self,
        line: &[u8],
        _out: &mut Vec<u8>,
    ) -> Result<Option<Fault>, AllocError> {
        if self.take_line(line)? {
            Ok(None)
        } else {
            Ok(Some(Fault::Header))
        }
    }

    fn open_fault(&self) -> Fault {
        Fault::Header
    }

    fn finish(&self, _count: u64, _out: &mut Vec<u8>) -> Result<Option<Fault>, AllocError> {
        Ok(None)
    }
}
