//! Draws beats as parts of messages, and the permissions held.

ghost use Rattle.std.specs.Prelude.{ℕ, [], ◌∷◌, ◌++◌, ◌≡◌, not, ◌==◌, OnOk, map, filter};
ghost use Rattle.tl_beat.specs.declared.beat.Beat.{Beat};
ghost use Rattle.tl_beat.specs.statement.Width.{IsWidth};
ghost use Rattle.tl_chart.specs.code.Gathered.{marked};
ghost use Rattle.tl_chart.specs.code.Lasting.{AreLasting};
ghost use Rattle.tl_chart.specs.code.Moment.{IsMoment, change_of};
ghost use Rattle.tl_chart.specs.statement.Drawn.{Holding, is_open, marks_with, noted, noted_by, with_beat, within};
ghost use Rattle.tl_chart.specs.statement.Messages.{beats_in, continued, fault_from, message_block, message_from};
ghost use Rattle.tl_explain.specs.statement.Evidence.{next_line};
ghost use Rattle.tl_rules.specs.statement.Conformance.{Trace, on_link};

use crate::arrow::{Arrow, Moment, wants_answer};
use crate::mark::Mark;
use crate::window::Window;
use std::alloc::AllocError;
use tl_beat::beat::{Beat, Link};
use tl_burst::burst::burst_length;
use tl_explain::bursts::is_small;
use tl_params::perm::Perm;

/// The number of beats of a beat's message; 1 for a size above 6.
fn beats_of<const W: usize>(beat: &Beat<W>) -> u8
    requires { IsWidth W }
    ensures { result ≡ beats_in beat.now }
{
    if is_small(beat) {
        burst_length(beat)
    } else {
        1
    }
}

/// The message that begins with a beat, for this block.
fn arrow_from<const W: usize>(moment: &Moment, beat: &Beat<W>, block: Option<u32>) -> Arrow
    requires { IsWidth W }
    ensures { (t : Trace W) → IsMoment moment.now (moment.now.link, beat.now) t →
        block ≡ message_block beat.now (on_link moment.now.link.0 t) →
        result ≡ message_from (moment.now.link, beat.now) t }
{
    Arrow {
        link: moment.link,
        control: beat.control(),
        block,
        beats: beats_of(beat),
        first: moment.line,
        last: moment.line,
        complete: moment.last,
        answered: false,
    }
}

/// A beat at fault, whose message is of this block.
pub fn fault_from<const W: usize>(
    link: Link,
    line: u64,
    beat: &Beat<W>,
    block: Option<u32>,
) -> Arrow
    requires { IsWidth W }
    ensures { (t : Trace W) → line ≡ next_line t → block ≡ message_block beat.now (on_link link.0 t) →
        result ≡ fault_from (link, beat.now) t }
{
    Arrow {
        link,
        control: beat.control(),
        block,
        beats: beats_of(beat),
        first: line,
        last: line,
        complete: true,
        answered: false,
    }
}

/// The messages with one more beat of one of them.
#[inline(never)]
fn continue_arrows<const W: usize>(arrows: &mut [Arrow], moment: &Moment, beat: &Beat<W>)
    ensures { (t : Trace W) → IsMoment moment.now (moment.now.link, beat.now) t →
        arrows.new ≡ map (continued (moment.now.link, beat.now) t) arrows.old }
{
    for arrow in arrows.iter_mut() {
        *arrow = arrow.with(moment, beat);
    }
}

/// Keeps the messages that are open.
fn keep_open<const W: usize>(
    arrows: &mut Vec<Arrow>,
    moment: &Moment,
    beat: &Beat<W>,
    block: Option<u32>,
)
    ensures { arrows.new.items
        ≡ filter is_open (map (noted_by moment.now.link moment.now.last beat.now block) arrows.old.items) }
{
    arrows.retain_mut(
        |earlier|
            ensures noted { earlier.new ≡ noted_by moment.entry.now.link moment.entry.now.last beat.entry.now block
                earlier.old }
            ensures kept { result ≡ is_open earlier.new }
        {
            *earlier = earlier.noted(moment, beat, block);
            earlier.is_open()
        },
    );
}

/// Keeps the permissions of other links.
fn keep_others(marks: &mut Vec<Mark>, link: Link)
    ensures { marks.new.items ≡ filter (λ m. not (m.link.0 == link.0)) marks.old.items }
{
    marks.retain(|mark| mark.link.0 != link.0);
}

/// Draws the message that begins with a beat.
#[inline(never)]
fn draw_begun<const W: usize>(
    arrows: &mut Vec<Arrow>,
    moment: &Moment,
    beat: &Beat<W>,
    block: Option<u32>,
) -> Result<(), AllocError>
    requires { IsWidth W }
    ensures { OnOk result ((t : Trace W) → IsMoment moment.now (moment.now.link, beat.now) t →
        block ≡ message_block beat.now (on_link moment.now.link.0 t) →
        arrows.new.items ≡ arrows.old.items ++ message_from (moment.now.link, beat.now) t ∷ []) }
{
    arrows.push(arrow_from(moment, beat, block))?;
    Ok(())
}

/// Draws a beat: the message that begins with it, or one more beat of its message.
#[inline(always)]
fn draw_beat<const W: usize>(
    window: Window,
    arrows: &mut Vec<Arrow>,
    moment: &Moment,
    beat: &Beat<W>,
    block: Option<u32>,
) -> Result<(), AllocError>
    requires { IsWidth W }
    ensures { OnOk result ((t : Trace W) → IsMoment moment.now (moment.now.link, beat.now) t →
        block ≡ message_block beat.now (on_link moment.now.link.0 t) →
        arrows.new.items ≡ with_beat window (moment.now.link, beat.now) t arrows.old.items) }
{
    if !moment.first {
        continue_arrows(arrows, moment, beat);
        return Ok(());
    }
    if window.shows(block) && arrows.len() < usize::from(window.most) {
        return draw_begun(arrows, moment, beat, block);
    }
    Ok(())
}

/// Draws a beat before the window. A beat that is a whole message and needs no answer is left out.
fn draw_open<const W: usize>(
    window: Window,
    arrows: &mut Vec<Arrow>,
    moment: &Moment,
    beat: &Beat<W>,
    block: Option<u32>,
) -> Result<(), AllocError>
    requires { IsWidth W }
    ensures { OnOk result ((t : Trace W) → IsMoment moment.now (moment.now.link, beat.now) t →
        block ≡ message_block beat.now (on_link moment.now.link.0 t) →
        filter is_open (map (noted (moment.now.link, beat.now) t) arrows.new.items)
        ≡ filter is_open (map (noted (moment.now.link, beat.now) t)
        (with_beat window (moment.now.link, beat.now) t arrows.old.items))) }
{
    if moment.first && moment.last && !wants_answer(&beat.control()) {
        return Ok(());
    }
    draw_beat(window, arrows, moment, beat, block)
}

/// Draws a beat. Before the window, removes the messages that are complete and answered.
pub fn draw_message<const W: usize>(
    window: Window,
    arrows: &mut Vec<Arrow>,
    moment: &Moment,
    beat: &Beat<W>,
    block: Option<u32>,
) -> Result<(), AllocError>
    requires { IsWidth W }
    ensures { OnOk result ((t : Trace W) → IsMoment moment.now (moment.now.link, beat.now) t →
        block ≡ message_block beat.now (on_link moment.now.link.0 t) →
        AreLasting window moment.now.line arrows.old.items →
        arrows.new.items
        ≡ within window (moment.now.link, beat.now) t
        (with_beat window (moment.now.link, beat.now) t arrows.old.items)) }
{
    if moment.line < window.first && moment.lets_go(beat) {
        draw_open(window, arrows, moment, beat, block)?;
        keep_open(arrows, moment, beat, block);
        return Ok(());
    }
    draw_beat(window, arrows, moment, beat, block)
}

/// Records that a link holds this permission of the block from this line on.
#[inline(never)]
fn mark(
    window: Window,
    marks: &mut Vec<Mark>,
    link: Link,
    line: u64,
    held: Perm,
) -> Result<(), AllocError>
    ensures { OnOk result (marks.new.items ≡ marked window.first link line held marks.old.items) }
{
    if line < window.first {
        keep_others(marks, link);
    }
    marks.push(Mark { link, line, held })?;
    Ok(())
}

/// Records the permission that a link holds of the block, if it changes.
#[inline(always)]
pub fn draw_change(
    window: Window,
    marks: &mut Vec<Mark>,
    moment: &Moment,
    change: Option<Perm>,
) -> Result<(), AllocError>
    ensures { OnOk result ((w : ℕ) (held : Holding w) (beat : Beat w) (t : Trace w) →
        IsMoment moment.now (moment.now.link, beat) t → change ≡ change_of held window.block (moment.now.link, beat) t →
        marks.new.items ≡ marks_with held window (moment.now.link, beat) t marks.old.items) }
{
    match change {
        None => Ok(()),
        Some(held) => mark(window, marks, moment.link, moment.line, held),
    }
}
