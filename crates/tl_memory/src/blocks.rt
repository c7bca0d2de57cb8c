//! The states of all blocks.

ghost use Rattle.std.specs.Prelude.{ℕ, suc, true, false, [], ◌∷◌, ◌≡◌, ◌==◌, length, IfOk, option_copied};
ghost use Rattle.std.specs.Prelude.{slice_get, Some};
ghost use Rattle.tl_beat.specs.declared.beat.Beat.{Beat};
ghost use Rattle.tl_beat.specs.declared.beat.Link.{Link};
ghost use Rattle.tl_rules.specs.statement.Conformance.{Trace};
ghost use Rattle.tl_memory.specs.declared.block.BlockState.{BlockState};

use crate::block::BlockState;
use crate::block_map::BlockMap;
use crate::free::Freedom;
use crate::next_state::NextState;
use std::alloc::{AllocError, Global};

/// The states of blocks. There is none for a block that no beat concerned.
#[derive(Drop)]
pub struct Blocks<const W: usize> {
    /// The states, in the order in which beats first concerned their blocks.
    states: Vec<BlockState<W>>,
    /// The place of each block among the states.
    places: BlockMap<u32>,
    /// The block that was met last, and its place.
    last: Option<(u32, usize)>,
}

impl<const W: usize> Blocks<W> {
    ghost use Rattle.tl_memory.specs.code.Elsewhere.{PassesBy};
    ghost use Rattle.tl_memory.specs.code.Taking.{IsNext};
    ghost use Rattle.tl_memory.specs.statement.Blocks.{KnowsBlocks, place_in, state_in};

    /// No state of any block.
    pub fn new(alloc: Global) -> Self
        ensures { (n : ℕ) → KnowsBlocks result n [] }
    {
        Blocks {
            states: Vec::new(alloc),
            places: BlockMap::new(alloc),
            last: None,
        }
    }

    /// The state of a block, if there is one.
    pub fn get(&self, block: u32) -> Option<&BlockState<W>>
        ensures { option_copied result ≡ state_in self.now block }
    {
        match self.places.get(block) {
            None => None,
            Some(place) => self.at(place as usize),
        }
    }

    /// The state at a place, if there is one.
    pub fn at(&self, place: usize) -> Option<&BlockState<W>>
        ensures { option_copied result ≡ slice_get self.now.states.items place }
    {
        self.states.get(place)
    }

    /// The place of a block. A block without a state gets one. The error means that there is no memory left.
    fn find(&mut self, alloc: Global, block: u32) -> Result<usize, AllocError>
        ensures known { (n : ℕ) (t : Trace W) → KnowsBlocks self.old n t → KnowsBlocks self.new n t }
        ensures found { IfOk result (λ place. place_in self.new block ≡ Some place) }
    {
        if let Some(place) = self.places.get(block) {
            return Ok(place as usize);
        }
        let place = self.states.len();
        let Ok(number) = u32::try_from(place) else {
            return Err(AllocError);
        };
        self.states.push(BlockState::new(alloc))?;
        match self.places.insert(block, number) {
            Ok(_) => Ok(place),
            Err(_) => {
                self.states.truncate(place);
                Err(AllocError)
            }
        }
    }

    /// The place of a block. A block without a state gets one. The block that was met last is found without a search.
    /// The error means that there is no memory left. All that is known stays true in either case.
    pub fn meet(&mut self, alloc: Global, block: u32) -> Result<usize, AllocError>
        ensures known { (n : ℕ) (t : Trace W) → KnowsBlocks self.old n t → KnowsBlocks self.new n t }
        ensures met { IfOk result (λ place. (n : ℕ) (t : Trace W) → KnowsBlocks self.old n t →
            place_in self.new block ≡ Some place) }
    {
        if let Some((last, place)) = self.last {
            if last == block {
                return Ok(place);
            }
        }
        let place = self.find(alloc, block)?;
        self.last = Some((block, place));
        Ok(place)
    }

    /// Takes a beat, at this moment, that concerns the block at this place alone, and makes this change to its state or
    /// none. `free` says whether the block is free with the beat, if the beat may change that.
    #[inline(always)]
    pub fn take(
        &mut self,
        place: usize,
        next: Option<NextState<W>>,
        free: Option<Freedom>,
        moment: u64,
    )
        ensures { (n block : ℕ) (x : Link × Beat W) (t : Trace W) → KnowsBlocks self.old n t →
            place_in self.old block ≡ Some place → moment ≡ suc (length t) →
            ((s : BlockState W) → slice_get self.old.states.items place ≡ Some s →
            IsNext next.entry free s n block x t) →
            ((other : ℕ) → (other == block) ≡ false → PassesBy other x t) → KnowsBlocks self.new n (x ∷ t) }
    {
        if let Some(state) = self.states.get_mut(place) {
            state.take(next, free, moment);
        }
    }
}
