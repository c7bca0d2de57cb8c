//! Draws from the generator.

ghost use Rattle.std.specs.Prelude.{◌<◌};
ghost use Rattle.tl_random.specs.statement.Draw.{Draws, below, is_one_in, block_of_bytes};

use rand_core::Rng;
use rand_xoshiro::Xoshiro256PlusPlus;

/// A number below a limit.
#[tactic(auto, unfolding(crate::specs::statement::Draw::below))]
pub(crate) fn below(rng: &mut Xoshiro256PlusPlus, limit: u64) -> u64
    requires { 0 < limit }
    ensures drawn { Draws (below limit) rng.old rng.new result }
    ensures within { result < limit }
{
    rng.next_u64() % limit
}

/// True with a chance of one in `count`.
#[tactic(auto, unfolding(crate::specs::statement::Draw::is_one_in))]
pub(crate) fn is_one_in(rng: &mut Xoshiro256PlusPlus, count: u64) -> bool
    requires { 0 < count }
    ensures { Draws (is_one_in count) rng.old rng.new result }
{
    below(rng, count) == 0
}

/// The bytes of a block.
pub(crate) fn block_of_bytes(rng: &mut Xoshiro256PlusPlus) -> [u8; 64]
    ensures { Draws block_of_bytes rng.old rng.new result }
{
    let mut bytes = [0; 64];
    rng.fill_bytes(&mut bytes);
    bytes
}
