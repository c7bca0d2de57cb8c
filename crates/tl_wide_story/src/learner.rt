//! Questions about a wide trace, which the beats that its wide beats become answer.

ghost use Rattle.tl_beat.specs.statement.Width.{IsWidth};

use crate::allowed_beats::AllowedBeats;
use crate::memory_beats::MemoryBeats;
use crate::pending_beats::PendingBeats;
use crate::places::WidePlaces;
use std::alloc::{AllocError, Global};
use tl_beat::beat::{Beat, Link};
use tl_lines::links_header::LinksHeader;
use tl_rules::memory_rule::MemoryRule;

/// A question about a wide trace.
#[derive(Clone, Copy)]
pub enum Question {
    /// Nothing.
    Nothing,
    /// The messages that are pending at its end.
    Pending,
    /// The grounds for a breach of this rule of memory in this block.
    Memory(MemoryRule, u32),
    /// The liberties that would allow the wide beat at fault.
    Allowed,
}

/// Finds the answer to a question.
#[derive(Drop)]
pub enum Learner<const P: usize> {
    Nothing,
    Pending(PendingBeats<P>),
    Memory(MemoryBeats<P>),
    Allowed(AllowedBeats<P>),
}

/// A part of a wide beat.
#[derive(Drop)]
pub struct Part<'a, const P: usize> {
    /// The number with which it is recorded.
    pub number: u64,
    /// The citation of its line.
    pub cited: &'a [u8],
    pub link: Link,
    pub beat: &'a Beat<P>,
}

impl<const P: usize> Learner<P> {
    /// No beat of the links that a header names has come.
    pub fn new(alloc: Global, question: Question, links: &LinksHeader) -> Result<Self, AllocError>
        requires { IsWidth P }
    {
        match question {
            Question::Nothing => Ok(Learner::Nothing),
            Question::Pending => Ok(Learner::Pending(PendingBeats::new(alloc, links)?)),
            Question::Memory(rule, block) => match MemoryBeats::new(alloc, links, rule, block)? {
                None => Ok(Learner::Nothing),
                Some(beats) => Ok(Learner::Memory(beats)),
            },
            Question::Allowed => Ok(Learner::Allowed(AllowedBeats::new(alloc, links)?)),
        }
    }

    /// Whether the answer names the lines of parts.
    pub fn names_lines(&self) -> bool {
        matches!(self, Learner::Memory(_))
    }

    /// Takes a part of a wide beat that isn't at fault. Returns true if it breaks no rule.
    pub fn take(&mut self, part: &Part<P>) -> Result<bool, AllocError>
        requires { IsWidth P }
    {
        match self {
            Learner::Nothing => Ok(true),
            Learner::Pending(beats) => beats.take(part.cited, part.link, part.beat),
            Learner::Memory(beats) => { beats.take(part.number, part.cited, part.link, part.beat) }
            Learner::Allowed(beats) => {
                beats.take(part.link, part.beat)?;
                Ok(true)
            }
        }
    }

    /// Takes a part of the wide beat at fault. Returns true if it may be of that beat.
    pub fn take_guilty(
        &mut self,
        alloc: Global,
        places: &WidePlaces,
        part: &Part<P>,
    ) -> Result<bool, AllocError>
        requires { IsWidth P }
    {
        match self {
            Learner::Memory(beats) => beats.take_guilty(
                alloc,
                places,
                part.number,
                part.cited,
                part.link,
                part.beat,
            ),
            _ => self.take(part),
        }
    }
}
