//! Judges the beats of a wide trace in turn, by the narrow beats that they become.

ghost use Rattle.std.specs.Prelude.{◌≡◌, ◌≤◌, IfOk};
ghost use Rattle.tl_beat.specs.statement.Width.{IsWidth};
ghost use Rattle.tl_wide.specs.statement.Line.{IsWideInRange, IsWideWritable};
ghost use Rattle.tl_wide.specs.statement.Pieces.{left_of};
ghost use Rattle.tl_wide.specs.statement.Width.{IsWideWidth, part_width};
ghost use Rattle.tl_wide_lines.specs.code.ShortLine.{widened};
ghost use Rattle.tl_wide_lines.specs.code.WideJudging.{JudgesParts, JudgesWideBeat, JudgesWideLine, KnowsNone};

use crate::numbered::number_halves;
use crate::short::{High, read_short};
use std::alloc::{AllocError, Global};
use tl_beat::beat::{Beat, BeatE, Link};
use tl_explain::turns::Subject;
use tl_lines::fault::Fault;
use tl_lines::links_header::LinksHeader;
use tl_lines::subject::subject_of;
use tl_lines::trace_judge::TraceJudge;
use tl_wide::beat::{WideBeat, WideBeatE};
use tl_wide::narrow::Narrower;
use tl_wide::parts::Parts;
use tl_wide::read::read_wide_into;

/// The names of a beat at fault: their numbers, and its source and its sink as they were written.
#[derive(Clone, Copy)]
pub struct Clue {
    pub subject: Subject,
    pub source: u16,
    pub sink: u16,
}

/// The names of a beat of this subject.
fn clue_of<const W: usize>(subject: Subject, beat: &WideBeat<W>) -> Clue {
    let (source, sink) = match beat {
        WideBeat::A(x) => (x.source, 0),
        WideBeat::B(x) => (x.source, 0),
        WideBeat::C(x) => (x.source, 0),
        WideBeat::D(x) => (x.source, x.sink),
        WideBeat::E(x) => (0, x.sink),
    };
    Clue {
        subject,
        source,
        sink,
    }
}

/// A judge of wide beats: the numbers of their names, and a judge of the narrow beats that they become, of `P` bytes.
#[derive(Drop)]
pub struct WideJudge<const P: usize> {
    narrower: Narrower,
    judge: TraceJudge<P>,
}

/// Judges the parts of a wide beat in turn, up to the first that is at fault. The error means that there is no memory
/// left.
#[inline(always)]
fn push_parts<const W: usize, const P: usize>(
    judge: &mut TraceJudge<P>,
    link: Link,
    beat: &WideBeat<W>,
    parts: Parts,
) -> Result<Option<Fault>, AllocError>
    requires width { IsWideWidth W }
    requires part { P ≡ part_width W }
    ensures { IfOk result (JudgesParts judge.old judge.new link (left_of beat.now parts)) }
{
    let mut left = parts;
    while let Some(part) = left.next::<W, P>(beat) {
        if let Some(fault) = judge.push(link, &part)? {
            return Ok(Some(fault));
        }
    }
    Ok(None)
}

impl<const P: usize> WideJudge<P> {
    /// A judge of the links that a header names, 1 to 16, which has seen no beat. The error means that there is no
    /// memory left.
    pub fn new(alloc: Global, together: bool, links: &LinksHeader) -> Result<Self, AllocError>
        requires { IsWidth P }
        ensures { IfOk result (KnowsNone together links.now.levels.items links.now.may) }
    {
        Ok(WideJudge {
            narrower: Narrower::new(alloc),
            judge: TraceJudge::new(alloc, together, links)?,
        })
    }

    /// Judges the next wide beat, and takes it if none of its parts is at fault. The first beat beyond a limit of names
    /// is at fault by itself. `P` is the smaller of 16 and `W`. The error means that there is no memory left; then some
    /// of the parts may have been taken.
    #[inline(always)]
    pub fn push<const W: usize>(
        &mut self,
        link: Link,
        beat: &WideBeat<W>,
    ) -> Result<Option<Fault>, AllocError>
        requires width { IsWideWidth W }
        requires part { P ≡ part_width W }
        ensures { IfOk result (JudgesWideBeat self.old self.new link beat.now) }
    {
        let Some(parts) = self.narrower.narrow::<W, P>(link, beat)? else {
            return Ok(Some(Fault::Beyond));
        };
        push_parts(&mut self.judge, link, beat, parts)
    }

    /// Judges the wide beat of these halves, of at most 16 bytes, as `push` judges it. `beat` becomes the beat that it
    /// becomes.
    #[inline(always)]
    fn push_halves(
        &mut self,
        link: Link,
        beat: &mut Beat<P>,
        high: High,
    ) -> Result<Option<Fault>, AllocError>
        requires width { IsWideWidth P }
        requires few { P ≤ 16 }
        requires writable { IsWideWritable (widened beat.old high) }
        requires range { IsWideInRange (widened beat.old high) }
        ensures { IfOk result (JudgesWideBeat self.old self.new link (widened beat.old high)) }
    {
        if number_halves(&mut self.narrower, link, beat, high)? {
            self.judge.push(link, beat)
        } else {
            Ok(Some(Fault::Beyond))
        }
    }

    /// Judges the line of the next wide beat from left to right.
    #[inline(never)]
    fn judge_any<const W: usize>(&mut self, line: &[u8]) -> Result<Option<Fault>, AllocError>
        requires width { IsWideWidth W }
        requires part { P ≡ part_width W }
        ensures { IfOk result (JudgesWideLine W self.old self.new line.now) }
    {
        let mut beat = WideBeat::E(WideBeatE { sink: 0 });
        match read_wide_into::<W>(line, &mut beat) {
            Ok(link) => self.push(link, &beat),
            Err(fault) => Ok(Some(Fault::Line(fault))),
        }
    }

    /// Judges the line of the next wide beat, of at most 16 bytes.
    #[inline(always)]
    fn judge_short(&mut self, line: &[u8]) -> Result<Option<Fault>, AllocError>
        requires width { IsWideWidth P }
        requires few { P ≤ 16 }
        ensures { IfOk result (JudgesWideLine P self.old self.new line.now) }
    {
        let mut beat = Beat::E(BeatE { sink: 0 });
        match read_short(line, &mut beat) {
            Some((link, high)) => self.push_halves(link, &mut beat, high),
            None => self.judge_any::<P>(line),
        }
    }

    /// Judges the line of the next wide beat, as `push` judges the beat. A line that spells no wide beat is at fault.
    #[inline(always)]
    pub fn judge_line<const W: usize>(&mut self, line: &[u8]) -> Result<Option<Fault>, AllocError>
        requires width { IsWideWidth W }
        requires part { P ≡ part_width W }
        ensures { IfOk result (JudgesWideLine W self.old self.new line.now) }
    {
        if W == P {
            self.judge_short(line)
        } else {
            self.judge_any::<W>(line)
        }
    }

    /// The names of the beat in a line that is at fault, if it has numbers for them. The error means that there is no
    /// memory left.
    pub fn clue<const W: usize>(&mut self, line: &[u8]) -> Result<Option<Clue>, AllocError>
        requires width { IsWideWidth W }
        requires part { P ≡ part_width W }
    {
        let mut beat = WideBeat::E(WideBeatE { sink: 0 });
        let Ok(link) = read_wide_into::<W>(line, &mut beat) else {
            return Ok(None);
        };
        let Some(parts) = self.narrower.narrow::<W, P>(link, &beat)? else {
            return Ok(None);
        };
        let mut left = parts;
        let Some(part) = left.next::<W, P>(&beat) else {
            return Ok(None);
        };
        let block = match &part {
            Beat::D(x) => self.judge.request(link, x.source).map(|asked| asked.block),
            _ => None,
        };
        Ok(Some(clue_of(subject_of(link, &part, block), &beat)))
    }
}
