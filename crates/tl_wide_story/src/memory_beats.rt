//! The grounds for a breach of a rule of memory by a beat of a wide trace.

ghost use Rattle.tl_beat.specs.statement.Width.{IsWidth};

use crate::places::WidePlaces;
use std::alloc::{AllocError, Global};
use tl_beat::beat::{Beat, Link};
use tl_lines::links_header::LinksHeader;
use tl_rules::memory_rule::MemoryRule;
use tl_together::breach::Breach;
use tl_together::fault::JudgeFault;
use tl_together::judge::Judge;
use tl_witness::grounds;
use tl_witness::witness::Witness;

/// The number of blocks: an address has 32 bits.
const BLOCKS: u32 = 1 << 26;

/// Judges the beats of all links together, and follows the permission of a block that each link holds.
#[derive(Drop)]
pub struct MemoryBeats<const P: usize> {
    /// The rule that a beat breaks.
    rule: MemoryRule,
    judge: Judge<P>,
    witness: Witness,
    /// The grounds for the breach, once the beat has come.
    grounds: Option<Vec<u8>>,
}

impl<const P: usize> MemoryBeats<P> {
    /// No beat of the links that a header names has come. None if there is no such block.
    pub fn new(
        alloc: Global,
        links: &LinksHeader,
        rule: MemoryRule,
        block: u32,
    ) -> Result<Option<Self>, AllocError>
        requires { IsWidth P }
    {
        if block >= BLOCKS {
            return Ok(None);
        }
        let levels = links.levels.as_slice();
        let Ok(judge) = Judge::with_liberties(alloc, levels, links.may) else {
            return Err(AllocError);
        };
        let witness = Witness::new(alloc, links.levels.len() as u8, block)?;
        Ok(Some(MemoryBeats {
            rule,
            judge,
            witness,
            grounds: None,
        }))
    }

    /// Judges a beat. Returns true if it breaks the rule, and false if it breaks none. None if it breaks another.
    fn judge(&mut self, link: Link, part: &Beat<P>) -> Result<Option<bool>, AllocError>
        requires { IsWidth P }
    {
        match self.judge.try_push(link, part) {
            Ok(()) => Ok(Some(false)),
            Err(JudgeFault::Broken(Breach::OfMemory(rule))) if rule == self.rule => Ok(Some(true)),
            Err(JudgeFault::Broken(_)) => Ok(None),
            Err(_) => Err(AllocError),
        }
    }

    /// Takes the beat that is recorded with this number, whose line is cited so. Returns true if it breaks no rule.
    pub fn take(
        &mut self,
        number: u64,
        cited: &[u8],
        link: Link,
        part: &Beat<P>,
    ) -> Result<bool, AllocError>
        requires { IsWidth P }
    {
        if self.witness.take(number, cited, link, part).is_err() {
            return Ok(false);
        }
        Ok(self.judge(link, part)? == Some(false))
    }

    /// Takes a part of the wide beat at fault, up to the part that breaks the rule, and keeps the grounds for that one.
    /// Returns true if it breaks no other rule.
    pub fn take_guilty(
        &mut self,
        alloc: Global,
        places: &WidePlaces,
        number: u64,
        cited: &[u8],
        link: Link,
        part: &Beat<P>,
    ) -> Result<bool, AllocError>
        requires { IsWidth P }
    {
        if self.grounds.is_some() {
            return Ok(true);
        }
        let Beat::D(x) = part else {
            return Ok(false);
        };
        let mut text = Vec::new(alloc);
        grounds::tell(
            places,
            &self.witness,
            &mut self.judge,
            self.rule,
            link,
            x,
            &mut text,
        )?;
        match self.judge(link, part)? {
            None => return Ok(false),
            Some(true) => self.grounds = Some(text),
            Some(false) => {}
        }
        Ok(self.witness.take(number, cited, link, part).is_ok())
    }

    /// Appends the grounds. Returns true if the beat that breaks the rule has come.
    pub fn tell(&self, out: &mut Vec<u8>) -> Result<bool, AllocError> {
        let Some(text) = &self.grounds else {
            return Ok(false);
        };
        out.extend_from_slice(text)?;
        Ok(true)
    }
}
