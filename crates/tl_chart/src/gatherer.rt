//! Gathers the drawing of a trace, beat by beat.

ghost use Rattle.std.specs.Prelude.{ℕ, [], ◌∷◌, ◌≡◌, ◌<◌, IfOk, OnOk, length};
ghost use Rattle.std.specs.Prelude.{◌&&◌, false, true};
ghost use Rattle.tl_beat.specs.declared.beat.Beat.{Beat};
ghost use Rattle.tl_beat.specs.statement.Width.{IsWidth};
ghost use Rattle.tl_chart.specs.code.Gathered.{CarryAll, Gathers, KnowLinks, drawn_of, is_over, watched};
ghost use Rattle.tl_chart.specs.code.Lasting.{AreLasting};
ghost use Rattle.tl_chart.specs.code.Moment.{IsMoment, change_of};
ghost use Rattle.tl_chart.specs.statement.Drawn.{Holding, closes, drawn_more, fault_drawn, shows, skipped};
ghost use Rattle.tl_chart.specs.statement.Messages.{message_block};
ghost use Rattle.tl_explain.specs.statement.Evidence.{next_line};
ghost use Rattle.tl_rules.specs.statement.Conformance.{Trace, on_link};
ghost use Rattle.tl_rules.specs.statement.History.{begins};

use crate::arrow::{Arrow, Moment};
use crate::blocks::{LinkBlocks, first_block};
use crate::drawing::{draw_change, draw_message, fault_from};
use crate::mark::Mark;
use crate::window::Window;
use std::alloc::{AllocError, Global};
use tl_beat::beat::{Beat, Link};
use tl_params::perm::Perm;

/// The drawing of a trace: messages and permissions, in the order of their lines.
#[derive(Drop)]
pub struct Gatherer {
    pub window: Window,
    pub arrows: Vec<Arrow>,
    pub marks: Vec<Mark>,
    /// The number of messages that follow those that are drawn.
    pub more: u64,
    /// The last line that is drawn.
    pub end: u64,
    closed: bool,
    links: Vec<LinkBlocks>,
}

/// The blocks of this many links, without any message.
fn new_links(alloc: Global, count: usize) -> Result<Vec<LinkBlocks>, AllocError>
    ensures known { IfOk result (λ links. (w : ℕ) → KnowLinks {w = w} links.items []) }
    ensures many { IfOk result (λ links. length links.items ≡ count) }
{
    let mut links = Vec::new(alloc);
    for _ in 0..count {
        links.push(LinkBlocks::new())?;
    }
    Ok(links)
}

/// Takes a beat of its link, and returns the block of its message.
fn take_block<const W: usize>(
    links: &mut Vec<LinkBlocks>,
    moment: &Moment,
    beat: &Beat<W>,
) -> Option<u32>
    ensures known { (t : Trace W) → IsMoment moment.now (moment.now.link, beat.now) t → KnowLinks links.old.items t →
        KnowLinks links.new.items ((moment.now.link, beat.now) ∷ t) }
    ensures block { (t : Trace W) → KnowLinks links.old.items t → CarryAll links.old.items t →
        result ≡ message_block beat.now (on_link moment.now.link.0 t) }
    ensures many { length links.new.items ≡ length links.old.items }
{
    let n = usize::from(moment.link.0);
    if n < links.len() {
        links[n].take(beat, moment.first)
    } else {
        first_block(beat)
    }
}

/// Whether a message that is drawn begins.
fn is_start(window: Window, moment: &Moment, block: Option<u32>) -> bool
    ensures { result ≡ (moment.now.first && shows window.block block) }
{
    moment.first && window.shows(block)
}

impl Gatherer {
    /// A gatherer after the header of a trace with this many links.
    pub fn new(alloc: Global, count: usize, window: Window) -> Result<Self, AllocError>
        ensures gathers { IfOk result (λ g. (w : ℕ) (held : Holding w) → Gathers held g []) }
        ensures window { IfOk result (λ g. g.window ≡ window) }
        ensures many { IfOk result (λ g. length g.links.items ≡ count) }
    {
        Ok(Gatherer {
            window,
            arrows: Vec::new(alloc),
            marks: Vec::new(alloc),
            more: 0,
            end: 1,
            closed: false,
            links: new_links(alloc, count)?,
        })
    }

    /// The block of a beat's message.
    fn block_of<const W: usize>(&self, link: Link, beat: &Beat<W>) -> Option<u32>
        ensures { (t : Trace W) → KnowLinks self.now.links.items t → CarryAll self.now.links.items t →
            result ≡ message_block beat.now (on_link link.0 t) }
    {
        match self.links.get(usize::from(link.0)) {
            Some(blocks) => blocks.of(beat),
            None => first_block(beat),
        }
    }

    /// Whether drawing has ended, and each message counts, whatever its block.
    pub fn is_over(&self) -> bool
        ensures { result ≡ is_over self.now }
    {
        self.closed && self.window.block.is_none()
    }

    /// Whether drawing has ended.
    pub fn is_closed(&self) -> bool
        ensures { result ≡ self.now.closed }
    {
        self.closed
    }

    /// The block whose permissions are drawn; `None` once drawing has ended.
    pub fn watched(&self) -> Option<u32>
        ensures { result ≡ watched self.now }
    {
        if self.closed { None } else { self.window.block }
    }

    /// Whether a beat of this line isn't drawn: drawing has ended, the line is after the window, or its message is one
    /// too many.
    fn closes(&self, line: u64, begins: bool) -> bool
        ensures { result ≡ closes self.now.window (drawn_of self.now) line begins }
    {
        let full = self.arrows.len() >= usize::from(self.window.most);
        self.closed || line > self.window.last || begins && full && line >= self.window.first
    }

    /// Ends drawing, and counts a message that begins. The error comes after message 2^64 - 1.
    fn skip(&mut self, begins: bool) -> Result<(), AllocError>
        ensures skipped { OnOk result (drawn_of self.new ≡ skipped begins (drawn_of self.old)) }
        ensures window { self.new.window ≡ self.old.window }
        ensures links { self.new.links ≡ self.old.links }
    {
        self.closed = true;
        if begins {
            self.more = self.more.checked_add(1).ok_or(AllocError)?;
        }
        Ok(())
    }

    /// Draws a beat.
    fn draw<const W: usize>(
        &mut self,
        moment: &Moment,
        beat: &Beat<W>,
        block: Option<u32>,
        change: Option<Perm>,
    ) -> Result<(), AllocError>
        requires { IsWidth W }
        ensures drawn { OnOk result ((held : Holding W) (t : Trace W) →
            IsMoment moment.now (moment.now.link, beat.now) t →
            block ≡ message_block beat.now (on_link moment.now.link.0 t) →
            change ≡ change_of held self.old.window.block (moment.now.link, beat.now) t →
            self.old.closed ≡ false → AreLasting self.old.window moment.now.line self.old.arrows.items →
            drawn_of self.new ≡ drawn_more held self.old.window (moment.now.link, beat.now) t (drawn_of self.old)) }
        ensures window { self.new.window ≡ self.old.window }
        ensures links { self.new.links ≡ self.old.links }
    {
        draw_message(self.window, &mut self.arrows, moment, beat, block)?;
        draw_change(self.window, &mut self.marks, moment, change)?;
        self.end = moment.line;
        Ok(())
    }

    /// Takes the next beat of the trace, which breaks no rule, after drawing has ended. `first` says that it begins a
    /// message of its link.
    pub fn count(&mut self, first: bool) -> Result<(), AllocError>
        ensures gathers { OnOk result ((w : ℕ) (held : Holding w) (x : Link × Beat w) (t : Trace w) →
            is_over self.old ≡ true → first ≡ begins x.1 (on_link x.0.0 t) → Gathers held self.old t →
            Gathers held self.new (x ∷ t)) }
        ensures window { self.new.window ≡ self.old.window }
        ensures links { self.new.links ≡ self.old.links }
    {
        self.skip(first)
    }

    /// Takes the next beat of the trace, which breaks no rule. `moment` says whether it begins and completes a message
    /// of its link. `change` is the permission that the link holds of the watched block after the beat, if that is
    /// another than before.
    #[inline(never)]
    pub fn take<const W: usize>(
        &mut self,
        moment: &Moment,
        beat: &Beat<W>,
        change: Option<Perm>,
    ) -> Result<(), AllocError>
        requires { IsWidth W }
        ensures gathers { OnOk result ((held : Holding W) (t : Trace W) →
            IsMoment moment.now (moment.now.link, beat.now) t → moment.now.link.0 < length self.old.links.items →
            change ≡ change_of held (watched self.old) (moment.now.link, beat.now) t →
            Gathers held self.old t → Gathers held self.new ((moment.now.link, beat.now) ∷ t)) }
        ensures window { OnOk result (self.new.window ≡ self.old.window) }
        ensures many { OnOk result (length self.new.links.items ≡ length self.old.links.items) }
    {
        if self.is_over() {
            return self.count(moment.first);
        }
        let block = take_block(&mut self.links, moment, beat);
        let begins = is_start(self.window, moment, block);
        if self.closes(moment.line, begins) {
            self.skip(begins)
        } else {
            self.draw(moment, beat, block, change)
        }
    }

    /// The beat of the next line, which is at fault, if it is drawn.
    pub fn fault_of<const W: usize>(&self, link: Link, line: u64, beat: &Beat<W>) -> Option<Arrow>
        requires { IsWidth W }
        ensures { (held : Holding W) (t : Trace W) → line ≡ next_line t → Gathers held self.now t →
            result ≡ fault_drawn held self.now.window (link, beat.now) t }
    {
        if self.closes(line, false) || line < self.window.first {
            return None;
        }
        let block = self.block_of(link, beat);
        Some(fault_from(link, line, beat, block))
    }
}
