//! Reads the lines of a trace with commits again, and finds the reasons for the line at fault.

ghost use Rattle.std.specs.Prelude.{◌≡◌, [], true, IfOk, None, OnOk};
ghost use Rattle.tl_beat.specs.statement.Width.{IsWidth};
ghost use Rattle.tl_lines.specs.statement.Width.{bytes_of};
ghost use Rattle.tl_commit_story.specs.code.Replaying.{Begins, HasReasons, Reads, ReadsLast};
ghost use Rattle.tl_commit_story.specs.code.Replaying.{ReadsLine, ReadsOn, TakesLine};

use crate::follower::Follower;
use crate::replay::{Replay, State};
use crate::sentences::append_rule;
use crate::words::append_event;
use std::alloc::{AllocError, Global};
use tl_commit_lines::header::read_marked_for;
use tl_events::event::read_event;
use tl_lines::fault::Fault;
use tl_params::width::Width;

/// The number of bytes of a beat.
pub fn bytes(width: Width) -> usize
    ensures { result ≡ bytes_of width }
{
    match width {
        Width::Four => 4,
        Width::Eight => 8,
        Width::Sixteen => 16,
    }
}

/// Takes the event of the line with this number. Returns true if it could be taken.
fn take_event<const W: usize>(
    follower: &mut Follower<W>,
    number: u64,
    line: &[u8],
) -> Result<bool, AllocError>
    requires { IsWidth W }
    ensures { IfOk result (λ on. on ≡ true → TakesLine follower.old follower.new number line.now) }
{
    match read_event::<W>(line) {
        Err(_) => Ok(false),
        Ok((link, event)) => follower.take(number, line, link, &event),
    }
}

/// Appends the reasons for the fault of the line with this number. Returns true if they are for it.
fn append_reasons<const W: usize>(
    alloc: Global,
    follower: &mut Follower<W>,
    fault: Fault,
    number: u64,
    line: &[u8],
    out: &mut Vec<u8>,
) -> Result<bool, AllocError>
    requires width { IsWidth W }
    requires empty { out.old.items ≡ [] }
    ensures { IfOk result (λ told. told ≡ true → HasReasons follower.old fault number line.now out.new.items) }
{
    let Ok((link, event)) = read_event::<W>(line) else {
        return Ok(false);
    };
    out.extend_from_slice(b"  ")?;
    append_rule(fault, out)?;
    append_event(number, line, link, &event, out)?;
    follower.tell(alloc, fault, link, &event, out)
}

impl<const W: usize> Replay<W> {
    /// The reading that the header begins, if this line is one with this width.
    fn begin(&self, line: &[u8]) -> Result<State<W>, AllocError>
        requires { IsWidth W }
        ensures { IfOk result (λ state. Begins self.now state line.now) }
    {
        let Some(header) = read_marked_for(self.allow, line) else {
            return Ok(State::Lost);
        };
        if bytes(header.width) != W {
            return Ok(State::Lost);
        }
        let follower = Follower::new(
            self.alloc,
            self.together,
            self.fault,
            self.subject,
            header.links.as_slice(),
            header.zero,
            header.may,
        )?;
        match follower {
            None => Ok(State::Lost),
            Some(follower) => Ok(State::Following(follower)),
        }
    }

    /// Reads the next line, which has this number and isn't at fault.
    fn go_on(&mut self, number: u64, line: &[u8]) -> Result<(), AllocError>
        requires { IsWidth W }
        ensures { OnOk result (Reads self.old self.new number line.now) }
    {
        match &mut self.state {
            State::Lost => Ok(()),
            State::Following(follower) => {
                if take_event(follower, number, line)? {
                    return Ok(());
                }
                self.state = State::Lost;
                Ok(())
            }
            State::Waiting => {
                self.state = self.begin(line)?;
                Ok(())
            }
        }
    }

    /// Reads the next line, which isn't at fault.
    pub fn take_line(&mut self, line: &[u8]) -> Result<(), AllocError>
        requires { IsWidth W }
        ensures { OnOk result (ReadsOn self.old self.new line.now) }
    {
        let number = self.count.checked_add(1).ok_or(AllocError)?;
        self.go_on(number, line)?;
        self.count = number;
        Ok(())
    }

    /// Reads the line at fault, and finds the reasons for it.
    pub fn tell_line(&mut self, line: &[u8]) -> Result<(), AllocError>
        requires { IsWidth W }
        ensures { OnOk result (ReadsLast self.old self.new line.now) }
    {
        let number = self.count.checked_add(1).ok_or(AllocError)?;
        let State::Following(follower) = &mut self.state else {
            return Ok(());
        };
        let mut reasons = Vec::new(self.alloc);
        self.told = append_reasons(self.alloc, follower, self.fault, number, line, &mut reasons)?;
        self.reasons = reasons;
        Ok(())
    }

    /// Reads a line, which has this fault or none.
    pub fn read(&mut self, line: &[u8], fault: Option<Fault>) -> Result<(), AllocError>
        requires { IsWidth W }
        ensures { OnOk result (ReadsLine self.old self.new line.now fault) }
    {
        match fault {
            None => self.take_line(line),
            Some(_) => self.tell_line(line),
        }
    }
}
