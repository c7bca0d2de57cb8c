//! Reads the lines of a wide trace with stores and loads again, and finds the reasons for the line at fault.

ghost use Rattle.std.specs.Prelude.{◌≡◌, ◌++◌, ◌∷◌, [], IfOk, IfSome, List, ℕ, OnOk, true};
ghost use Rattle.tl_beat.specs.statement.Width.{IsWidth};
ghost use Rattle.tl_wide.specs.statement.Width.{IsWideWidth, part_width, wide_bytes_of};
ghost use Rattle.tl_wide_event_story.specs.code.Retelling.{Begins, FollowsOn, HasReasons, IsSmall, ReadsLast};
ghost use Rattle.tl_wide_event_story.specs.code.Retelling.{ReadsLine, ReadsOn, TakesLine};
ghost use Rattle.tl_wide_event_story.specs.statement.WideEventsExplained.{front_text};

use crate::guide::Guide;
use crate::replay::WideEventReplay;
use crate::words::append_wide_event;
use std::alloc::AllocError;
use tl_beat::beat::Link;
use tl_commit_story::sentences::append_rule;
use tl_lines::fault::Fault;
use tl_wide::width::WideWidth;
use tl_wide_event_lines::header::read_wide_marked_for;
use tl_wide_events::commit::WideEvent;
use tl_wide_events::event::read_wide_event;

/// The number of bytes of a wide beat.
fn bytes(width: WideWidth) -> usize
    ensures { result ≡ wide_bytes_of width }
{
    match width {
        WideWidth::Four => 4,
        WideWidth::Eight => 8,
        WideWidth::Sixteen => 16,
        WideWidth::ThirtyTwo => 32,
        WideWidth::SixtyFour => 64,
    }
}

/// Appends the sentence of the rule that is broken, and the event of the line with this number that breaks it.
fn append_front<const W: usize>(
    fault: Fault,
    number: u64,
    link: Link,
    event: &WideEvent<W>,
    out: &mut Vec<u8>,
) -> Result<(), AllocError>
    requires width { IsWideWidth W }
    requires small { IsSmall event.now }
    ensures { OnOk result (out.new.items ≡ out.old.items ++ front_text fault number link event.now) }
{
    out.extend_from_slice(b"  ")?;
    append_rule(fault, out)?;
    append_wide_event(number, link, event, out)
}

/// Takes the event of the line with this number. Returns true if it could be taken.
fn take_event<const W: usize, const P: usize>(
    guide: &mut Guide<W, P>,
    number: u64,
    line: &[u8],
) -> Result<bool, AllocError>
    requires wide { IsWideWidth W }
    requires width { IsWidth P }
    requires part { P ≡ part_width W }
    ensures { IfOk result (λ on. on ≡ true → TakesLine guide.old guide.new line.now) }
{
    match read_wide_event::<W>(line) {
        Err(_) => Ok(false),
        Ok((link, event)) => guide.take(number, line, link, &event),
    }
}

/// Appends the reasons for the fault of the line with this number. Returns true if they are for it.
fn append_reasons<const W: usize, const P: usize>(
    guide: &mut Guide<W, P>,
    fault: Fault,
    number: u64,
    line: &[u8],
    out: &mut Vec<u8>,
) -> Result<bool, AllocError>
    requires wide { IsWideWidth W }
    requires width { IsWidth P }
    requires part { P ≡ part_width W }
    requires empty { out.old.items ≡ [] }
    ensures { IfOk result (λ told. told ≡ true → HasReasons guide.old fault number line.now out.new.items) }
{
    let Ok((link, event)) = read_wide_event::<W>(line) else {
        return Ok(false);
    };
    let mut grounds = Vec::new(guide.alloc);
    if !guide.tell(fault, number, line, link, &event, &mut grounds)? {
        return Ok(false);
    }
    append_front(fault, number, link, &event, out)?;
    out.extend_from_slice(&grounds)?;
    Ok(true)
}

impl<const W: usize, const P: usize> WideEventReplay<W, P> {
    /// The guide that the header begins, if this line is one with this width.
    fn begin(&self, line: &[u8]) -> Result<Option<Guide<W, P>>, AllocError>
        requires wide { IsWideWidth W }
        requires width { IsWidth P }
        ensures { IfOk result (λ guide. IfSome guide (Begins self.now.allow line.now)) }
    {
        let Some(header) = read_wide_marked_for(self.allow, line) else {
            return Ok(None);
        };
        if bytes(header.width) != W {
            return Ok(None);
        }
        Guide::new(
            self.alloc,
            self.together,
            self.fault,
            &self.clue,
            &header.narrow,
        )
    }

    /// Follows the event of the line with this number.
    fn follow(&mut self, number: u64, line: &[u8]) -> Result<(), AllocError>
        requires wide { IsWideWidth W }
        requires width { IsWidth P }
        requires part { P ≡ part_width W }
        ensures { OnOk result (FollowsOn self.old self.new line.now) }
    {
        let Some(guide) = &mut self.guide else {
            return Ok(());
        };
        if take_event(guide, number, line)? {
            return Ok(());
        }
        self.guide = None;
        Ok(())
    }

    /// Reads the next line, which isn't at fault.
    fn take_line(&mut self, line: &[u8]) -> Result<(), AllocError>
        requires wide { IsWideWidth W }
        requires width { IsWidth P }
        requires part { P ≡ part_width W }
        ensures { OnOk result (ReadsOn self.old self.new line.now) }
    {
        let number = self.count.checked_add(1).ok_or(AllocError)?;
        if self.count == 0 {
            self.guide = self.begin(line)?;
            self.count = number;
            return Ok(());
        }
        self.follow(number, line)?;
        self.count = number;
        Ok(())
    }

    /// Reads the line at fault, and finds the reasons for it.
    fn tell_line(&mut self, line: &[u8]) -> Result<(), AllocError>
        requires wide { IsWideWidth W }
        requires width { IsWidth P }
        requires part { P ≡ part_width W }
        ensures { OnOk result (ReadsLast self.old self.new line.now) }
    {
        let number = self.count.checked_add(1).ok_or(AllocError)?;
        let Some(guide) = &mut self.guide else {
            return Ok(());
        };
        let mut reasons = Vec::new(self.alloc);
        self.told = append_reasons(guide, self.fault, number, line, &mut reasons)?;
        self.reasons = reasons;
        Ok(())
    }

    #[tactic(auto, using(tl_wide_story::proofs::Lessons::wide_of, tl_wide_story::proofs::Lessons::part_of))]
    /// Reads a line, which has this fault or none.
    pub fn read(&mut self, line: &[u8], fault: Option<Fault>) -> Result<(), AllocError>
        ensures { OnOk result (ReadsLine self.old self.new line.now fault) }
    {
        match fault {
            None => self.take_line(line),
            Some(_) => self.tell_line(line),
        }
    }
}
