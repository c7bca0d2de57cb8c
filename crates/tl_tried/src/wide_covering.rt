//! Judges wide beats by the beats that they become, and counts the situations in which the messages of those begin.

ghost use Rattle.std.specs.Prelude.{◌≡◌, [], false, IfOk, List};
ghost use Rattle.tl_beat.specs.statement.Width.{IsWidth};
ghost use Rattle.tl_cover.specs.statement.Covers.{Covers};
ghost use Rattle.tl_commit_lines.specs.statement.MarkedHeader.{levels_of, links_in};
ghost use Rattle.tl_params.specs.declared.level.Level.{Level};
ghost use Rattle.tl_params.specs.declared.liberties.Liberties.{Liberties};
ghost use Rattle.tl_tried.specs.code.WideCover.{CoversNone, TakesEventLine, TakesParts, TakesWideBeat, TakesWideCommit};
ghost use Rattle.tl_tried.specs.code.WideCover.{TakesWideLine, wide_found_in};
ghost use Rattle.tl_wide.specs.statement.Pieces.{left_of};
ghost use Rattle.tl_wide.specs.statement.Width.{IsWideWidth, part_width};

use crate::cover_lines::{follow, take};
use crate::event_covering::follow_events;
use crate::wide_rows::follow_rows;
use std::alloc::{AllocError, Global};
use tl_beat::beat::Link;
use tl_commit_lines::header::CommitHeader;
use tl_cover::covering::Covering;
use tl_cover::row::{Row, one_more};
use tl_lines::fault::Fault;
use tl_lines::links_header::LinksHeader;
use tl_wide::beat::{WideBeat, WideBeatE};
use tl_wide::narrow::Narrower;
use tl_wide::parts::Parts;
use tl_wide::read::read_wide_into;
use tl_wide_events::commit::{WideCommit, WideEvent};
use tl_wide_events::event::read_wide_event;
use tl_wide_events::narrow::narrow_commit;

/// The numbers of the names in a wide trace, and the covering of the beats of `P` bytes that its beats become.
#[derive(Drop)]
pub struct WideCovering<const P: usize> {
    narrower: Narrower,
    covering: Covering<P>,
    /// The situations with their counts; the first line of each is that of a wide beat.
    rows: Vec<Row>,
    /// The line of the newest wide beat; 1 if there is none.
    line: u64,
}

/// Takes the parts of a wide beat in turn, up to the first that is at fault. The error means that there is no memory
/// left.
fn take_parts<const W: usize, const P: usize>(
    covering: &mut Covering<P>,
    link: Link,
    beat: &WideBeat<W>,
    parts: Parts,
) -> Result<Option<Fault>, AllocError>
    requires width { IsWideWidth W }
    requires part { P ≡ part_width W }
    ensures { IfOk result (TakesParts covering.old covering.new link (left_of beat.now parts)) }
{
    let mut left = parts;
    while let Some(part) = left.next::<W, P>(beat) {
        if let Some(fault) = take(covering, link, &part)? {
            return Ok(Some(fault));
        }
    }
    Ok(None)
}

impl<const P: usize> WideCovering<P> {
    /// A covering of a wide trace by this one of the beats that it becomes, which has judged none.
    fn over(alloc: Global, covering: Covering<P>) -> Result<Self, AllocError>
        ensures { (levels : List Level) (may : Liberties) → Covers covering.entry levels may [] false →
            IfOk result (CoversNone levels may) }
    {
        let mut rows = Vec::new(alloc);
        follow_rows(&mut rows, 1, covering.rows())?;
        Ok(WideCovering {
            narrower: Narrower::new(alloc),
            covering,
            rows,
            line: 1,
        })
    }

    /// A covering of the links that a header names, which has judged no beat. The error means that there is no memory
    /// left.
    pub fn new(alloc: Global, links: &LinksHeader) -> Result<Self, AllocError>
        requires { IsWidth P }
        ensures { IfOk result (CoversNone links.now.levels.items links.now.may) }
    {
        let covering = follow(alloc, links)?;
        WideCovering::over(alloc, covering)
    }

    /// The same of the links that a header of a trace with commits names.
    pub fn of_events(alloc: Global, header: &CommitHeader) -> Result<Self, AllocError>
        requires { IsWidth P }
        ensures { IfOk result (CoversNone (levels_of (links_in header.now)) header.now.may) }
    {
        let covering = follow_events(alloc, header)?;
        WideCovering::over(alloc, covering)
    }

    /// The situations with their counts. The first line of each is that of the wide beat whose part began the message.
    pub fn rows(&self) -> &[Row]
        ensures { result.now ≡ (wide_found_in self.now).0 }
    {
        &self.rows
    }

    /// The counts of all bins on all links, link after link, of the beats that the wide beats became.
    pub fn cells(&self, alloc: Global) -> Result<Vec<Option<u64>>, AllocError>
        requires { IsWidth P }
        ensures { IfOk result (λ cells. cells.items ≡ (wide_found_in self.now).1) }
    {
        self.covering.cells(alloc)
    }

    /// Judges the next wide beat, and takes its parts up to the first that is at fault. The first beat beyond a limit of
    /// names is at fault by itself. `P` is the smaller of 16 and `W`. The error means that there is no memory left.
    fn push<const W: usize>(
        &mut self,
        link: Link,
        beat: &WideBeat<W>,
    ) -> Result<Option<Fault>, AllocError>
        requires width { IsWideWidth W }
        requires part { P ≡ part_width W }
        ensures { IfOk result (TakesWideBeat self.old self.new link beat.now) }
    {
        let Some(parts) = self.narrower.narrow::<W, P>(link, beat)? else {
            return Ok(Some(Fault::Beyond));
        };
        let fault = take_parts(&mut self.covering, link, beat, parts)?;
        self.line = one_more(self.line)?;
        follow_rows(&mut self.rows, self.line, self.covering.rows())?;
        Ok(fault)
    }

    /// Takes the next commit, which begins no message. The first beyond a limit of names is at fault. The error means that
    /// there is no memory left.
    fn push_commit(&mut self, link: Link, commit: WideCommit) -> Result<Option<Fault>, AllocError>
        ensures { IfOk result (TakesWideCommit self.old self.new link commit) }
    {
        let Some(_) = narrow_commit(&mut self.narrower, link, commit)? else {
            return Ok(Some(Fault::Beyond));
        };
        self.line = one_more(self.line)?;
        follow_rows(&mut self.rows, self.line, self.covering.rows())?;
        Ok(None)
    }

    /// Judges the line of the next event: a wide beat as `push` judges it, or a commit. A line that spells none is at fault.
    pub fn take_event_line<const W: usize>(
        &mut self,
        line: &[u8],
    ) -> Result<Option<Fault>, AllocError>
        requires width { IsWideWidth W }
        requires part { P ≡ part_width W }
        ensures { IfOk result (TakesEventLine W self.old self.new line.now) }
    {
        match read_wide_event::<W>(line) {
            Ok((link, WideEvent::Beat(beat))) => self.push(link, &beat),
            Ok((link, WideEvent::Commit(commit))) => self.push_commit(link, commit),
            Err(fault) => Ok(Some(Fault::Line(fault))),
        }
    }

    /// Judges the line of the next wide beat, as `push` judges the beat. A line that spells no wide beat is at fault.
    pub fn take_line<const W: usize>(&mut self, line: &[u8]) -> Result<Option<Fault>, AllocError>
        requires width { IsWideWidth W }
        requires part { P ≡ part_width W }
        ensures { IfOk result (TakesWideLine W self.old self.new line.now) }
    {
        let mut beat = WideBeat::E(WideBeatE { sink: 0 });
        match read_wide_into::<W>(line, &mut beat) {
            Ok(link) => self.push(link, &beat),
            Err(fault) => Ok(Some(Fault::Line(fault))),
        }
    }
}
