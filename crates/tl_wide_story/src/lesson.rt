//! Reads the lines of a wide trace, and lets a learner take the beats that its wide beats become.

ghost use Rattle.std.specs.Prelude.{◌≡◌, IsTrue};
ghost use Rattle.tl_beat.specs.statement.Width.{IsWidth};
ghost use Rattle.tl_wide.specs.statement.Width.{IsWideWidth, part_width};
ghost use Rattle.tl_wide_lines.specs.code.WideDecoding.{is_wide_width};

use crate::citation::{WideWording, citation};
use crate::learner::{Learner, Part, Question};
use crate::numbering::Numbering;
use crate::places::WidePlaces;
use std::alloc::{AllocError, Global};
use std::io;
use tl_beat::beat::Link;
use tl_params::liberties::Liberties;
use tl_wide::beat::{WideBeat, WideBeatE};
use tl_wide::narrow::Narrower;
use tl_wide::parts::Parts;
use tl_wide::read::read_wide_into;
use tl_wide_lines::header::read_wide_for;

/// Reads the lines of a wide trace, up to one at fault, for a learner.
#[derive(Drop)]
pub struct Lesson<const W: usize, const P: usize> {
    alloc: Global,
    /// The liberties of the links beyond those that the header names.
    allow: Liberties,
    question: Question,
    /// The number of lines before the one at fault, with the header.
    good: u64,
    narrower: Narrower,
    learner: Learner<P>,
    /// The number of lines that have been read.
    count: u64,
    /// The number with which the last beat was recorded.
    recorded: u64,
    numbering: Numbering,
    /// Each line was as it has to be.
    is_sound: bool,
    ghost width: { IsTrue (is_wide_width W) },
    ghost part: { P ≡ part_width W },
}

impl<const W: usize, const P: usize> Lesson<W, P> {
    #[tactic(auto, using(crate::proofs::WideReplaying::is_wide))]
    /// No line has been read.
    pub fn new(alloc: Global, allow: Liberties, question: Question, good: u64) -> Self
        requires width { IsWideWidth W }
        requires part { P ≡ part_width W }
    {
        Lesson {
            alloc,
            allow,
            question,
            good,
            narrower: Narrower::new(alloc),
            learner: Learner::Nothing,
            count: 0,
            recorded: 1,
            numbering: Numbering::new(alloc),
            is_sound: true,
        }
    }

    /// Takes the header. Returns true if it is one of wide beats.
    fn take_header(&mut self, line: &[u8]) -> Result<bool, AllocError>
        requires { IsWidth P }
    {
        let Some(header) = read_wide_for(self.allow, line) else {
            return Ok(false);
        };
        self.learner = Learner::new(self.alloc, self.question, &header.links)?;
        Ok(true)
    }

    /// Takes a part of a wide beat. Returns true if it may be one of it. `address` is one in the block of the verdict.
    fn take_part(
        &mut self,
        at_fault: bool,
        address: u64,
        part: &Part<P>,
    ) -> Result<bool, AllocError>
        requires { IsWidth P }
    {
        if !at_fault {
            return self.learner.take(part);
        }
        let places = WidePlaces {
            numbering: &self.numbering,
            address,
        };
        self.learner.take_guilty(self.alloc, &places, part)
    }

    /// Takes the parts of the wide beat of a line. Returns true if each may be one of it.
    fn take_parts(
        &mut self,
        line: &[u8],
        address: u64,
        link: Link,
        beat: &WideBeat<W>,
        parts: Parts,
    ) -> Result<bool, AllocError>
        requires wide { IsWideWidth W }
        requires parts { P ≡ part_width W }
        requires narrow { IsWidth P }
    {
        let at_fault = self.count == self.good;
        let cited = citation(self.count.saturating_add(1), line);
        let mut is_later = false;
        let mut left = parts;
        while let Some(part) = left.next::<W, P>(beat) {
            self.recorded = self.recorded.saturating_add(1);
            if is_later && self.learner.names_lines() {
                self.numbering.note_later(self.recorded)?;
            }
            is_later = true;
            let part = Part {
                number: self.recorded,
                cited: cited.as_slice(),
                link,
                beat: &part,
            };
            if !self.take_part(at_fault, address, &part)? {
                return Ok(false);
            }
        }
        Ok(true)
    }

    /// Takes the line of a wide beat. Returns true if it is as it has to be.
    fn take_beat(&mut self, line: &[u8], address: u64) -> Result<bool, AllocError>
        requires wide { IsWideWidth W }
        requires parts { P ≡ part_width W }
        requires narrow { IsWidth P }
    {
        let mut beat = WideBeat::E(WideBeatE { sink: 0 });
        let Ok(link) = read_wide_into::<W>(line, &mut beat) else {
            return Ok(false);
        };
        let Some(parts) = self.narrower.narrow::<W, P>(link, &beat)? else {
            return Ok(false);
        };
        self.take_parts(line, address, link, &beat, parts)
    }

    #[tactic(auto, using(crate::proofs::Lessons::wide_of, crate::proofs::Lessons::part_of))]
    /// Takes the next line. `address` is one in the block of the verdict.
    pub fn take_line(&mut self, line: &[u8], address: u64) -> Result<(), AllocError> {
        if !self.is_sound {
            return Ok(());
        }
        self.is_sound = if self.count == 0 {
            self.take_header(line)?
        } else {
            self.take_beat(line, address)?
        };
        self.count = self.count.saturating_add(1);
        Ok(())
    }

    /// Whether so many lines were read, each as it has to be.
    pub fn has_read(&self, count: u64) -> bool {
        self.is_sound && self.count == count
    }

    #[tactic(auto, using(crate::proofs::Lessons::wide_of, crate::proofs::Lessons::part_of))]
    /// Appends the answer. Returns true if there is one.
    pub fn tell(&mut self, out: &mut Vec<u8>) -> io::Result<bool> {
        match &mut self.learner {
            Learner::Nothing => Ok(true),
            Learner::Pending(beats) => {
                let wording = WideWording::<W> {
                    address: 0,
                    source: 0,
                    sink: 0,
                };
                beats.tell(&wording, out)?;
                Ok(true)
            }
            Learner::Memory(beats) => Ok(beats.tell(out)?),
            Learner::Allowed(beats) => {
                beats.tell(self.alloc, out)?;
                Ok(true)
            }
        }
    }
}
