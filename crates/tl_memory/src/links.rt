//! The states of all links of a manager.

ghost use Rattle.std.specs.Box.{box_value};
ghost use Rattle.std.specs.Prelude.{ℕ, [], ◌∷◌, ◌≡◌, List, length, None, IfOk, IsTrue, option_copied, option_map, slice_get};
ghost use Rattle.tl_beat.specs.declared.beat.Link.{Link};
ghost use Rattle.tl_beat.specs.statement.Width.{IsWidth};
ghost use Rattle.tl_burst.specs.statement.Part;
ghost use Rattle.tl_params.specs.declared.level.Level.{Level};
ghost use Rattle.tl_rules.specs.statement.Conformance.{Trace, on_link};
ghost use Rattle.tl_memory.specs.code.Changing.{ExpectsBegun};
ghost use Rattle.tl_memory.specs.code.Elsewhere.{IsConcerned};
ghost use Rattle.tl_memory.specs.code.Passing as passing;
ghost use Rattle.tl_memory.specs.statement.Links.{AreLegal, IsLegal};

use crate::expected::Expected;
use crate::link::LinkState;
use crate::passing::passes_by;
use std::alloc::{AllocError, Global};
use tl_beat::beat::{Beat, Link};

/// The states of links, by their numbers.
#[derive(Drop)]
pub struct Links {
    states: Vec<LinkState>,
}

impl Links {
    ghost use Rattle.tl_memory.specs.statement.Links.{KnowsLinks};

    /// This many links, which have carried nothing. The error means that there is no memory left.
    pub fn new(alloc: Global, count: u8) -> Result<Self, AllocError>
        ensures { IfOk result (λ l. (w : ℕ) → KnowsLinks {w = w} l count []) }
    {
        let mut states = Vec::new(alloc);
        for _ in 0..count {
            states.push(LinkState::new())?;
        }
        Ok(Links { states })
    }

    /// The state of a link, if there is one.
    pub fn get(&self, link: Link) -> Option<&LinkState>
        ensures { option_copied result ≡ slice_get self.now.states.items link.0 }
    {
        self.states.get(usize::from(link.0))
    }

    /// Whether a beat of a link changes no block, begins no response and answers no access.
    pub fn passes_by<const W: usize>(&self, link: Link, x: &Beat<W>) -> bool
        requires width { IsWidth W }
        requires small { IsTrue (Part.is_small x.now) }
        ensures { (levels : List Level) (t : Trace W) → KnowsLinks self.now (length levels) t →
            AreLegal levels t → IsLegal levels (link, x.now) t →
            result ≡ passing.passes_by x.now (on_link link.0 t) }
    {
        match self.get(link) {
            Some(state) => passes_by(x, &state.messages),
            None => true,
        }
    }

    /// Takes a beat, which concerns this block, if it concerns one. `begun` are the bytes that the response may bring that
    /// begins with it.
    pub fn take<const W: usize>(
        &mut self,
        begun: Option<Box<Expected>>,
        block: Option<u32>,
        link: Link,
        x: &Beat<W>,
    )
        requires { IsWidth W }
        ensures { (levels : List Level) (t : Trace W) → KnowsLinks self.old (length levels) t →
            AreLegal levels t → IsLegal levels (link, x.now) t → IsConcerned block x.now (on_link link.0 t) →
            ExpectsBegun (option_map box_value begun) (length levels) (link, x.now) t →
            KnowsLinks self.new (length levels) ((link, x.now) ∷ t) }
    {
        if let Some(state) = self.states.get_mut(usize::from(link.0)) {
            state.take(begun, block, x);
        }
    }
}
